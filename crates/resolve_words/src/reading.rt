// How words are read as settings.
ghost use Rattle.std.specs.Prelude.{◌≡◌, ◌≤◌, ℕ, List, true, false, map, IfOk, IfSome, Some, None, MatchOption, MatchResult, string_bytes, codes, if◌then◌else◌};
ghost use Rattle.std.specs.List.{list_all};
ghost use Rattle.std.specs.Option.{option_map, option_and_then, option_copied};
ghost use Rattle.clap.specs.Words.{found_of, rows_of};
ghost use Rattle.clap.specs.ValueTests.{is_unsigned_in};
ghost use Rattle.cost_vector.specs.Grammar.{spec_of};
ghost use Rattle.dep_fields.specs.Tokens.{is_arch, is_arch_byte};
ghost use Rattle.resolve_words.specs.SampleWords.{sample_of};
ghost use Rattle.resolve_words.specs.Given.{text_given, text_of, slice_text, workers_text, number_in, actions_in, given, given_by, is_sample, are_files, is_taken, are_numbers_taken, IsFaultEnd, IsSettingsEnd, AreSettings};
ghost use Rattle.resolve_words.specs.Checked.{IsCostEnd, IsChecked, AreNumbers};
ghost use Rattle.resolve_words.specs.declared.ends.SettingsEnd.TheVariants as ends;
ghost use Rattle.resolve_words.specs.declared.ends.UsageFault.TheVariants as usage;

use crate::ends::{SettingsEnd, UsageFault};
use crate::program_command::read_words;
use crate::samples::read_sample;
use crate::settings::Settings;
use choice_set::NoMemory;
use clap::ArgMatches;
use cost_vector::{CostSpec, SpecEnd};
use std::alloc::Global;

// The text of an option, if it has one.
fn text_given<'a>(matches: &ArgMatches<'a>, name: &str) -> Option<&'a str>
    ensures { option_copied result ≡ text_given (rows_of (found_of matches.now)) name.now }
{
    matches.get_str(name)
}

// The text of an option that has one.
fn text_of<'a>(matches: &ArgMatches<'a>, name: &str) -> &'a str
    ensures { result.now ≡ text_of (rows_of (found_of matches.now)) name.now }
{
    match text_given(matches, name) {
        Some(text) => text,
        None => "",
    }
}

// A number within its range.
fn number_in(text: &str, least: u64, most: u64) -> Option<u64>
    ensures number { result ≡ (if is_unsigned_in least most text.now then Some (number_in text.now) else None) }
    ensures range { IfSome result (λ n. (least ≤ n) × (n ≤ most)) }
{
    match text.parse::<u64>() {
        Ok(number) if least <= number && number <= most => Some(number),
        _ => None,
    }
}

// Whether a text is an architecture (Debian Policy 5.6.8): one byte or more, each a lower-case letter, a digit or `-`.
fn is_arch(text: &[u8]) -> bool
    ensures { result ≡ is_arch text.now }
{
    !text.is_empty() && are_arch_bytes(text)
}

fn are_arch_bytes(text: &[u8]) -> bool
    ensures { result ≡ list_all is_arch_byte text.now }
{
    text.iter().all(|byte| byte.is_ascii_lowercase() || byte.is_ascii_digit() || *byte == b'-')
}

// How many own steps, and how many threads.
#[derive(Clone, Copy)]
struct Numbers {
    slice: u64,
    workers: u32,
}

fn read_numbers(matches: &ArgMatches<'_>) -> Option<Numbers>
    ensures { MatchOption result (are_numbers_taken (rows_of (found_of matches.now)) ≡ false) (AreNumbers (rows_of (found_of matches.now))) }
{
    match (
        number_in(text_of(matches, "slice"), 1, 1_000_000),
        number_in(text_of(matches, "workers"), 0, 16),
    ) {
        (Some(slice), Some(workers)) => Some(Numbers {
            slice,
            workers: workers as u32,
        }),
        _ => None,
    }
}

fn read_cost(alloc: Global, text: &str) -> Result<CostSpec, SettingsEnd>
    ensures { MatchResult result (λ spec. spec_of text.now ≡ Some spec) (IsCostEnd text.now) }
{
    match CostSpec::read(alloc, text.as_bytes()) {
        Ok(spec) => Ok(spec),
        Err(SpecEnd::SpecFault { at }) => Err(SettingsEnd::Usage(UsageFault::Cost { at })),
        Err(SpecEnd::NoMemory) => Err(SettingsEnd::NoMemory),
    }
}

fn read_sample_given(text: Option<&str>) -> Result<Option<(u64, u32)>, SettingsEnd>
    ensures { MatchResult result
        (λ s. (is_sample (option_copied text.entry) ≡ true) × (s ≡ option_and_then sample_of (option_copied text.entry)))
        (λ end. (end ≡ ends.Usage usage.Sample) × (is_sample (option_copied text.entry) ≡ false)) }
{
    let Some(text) = text else {
        return Ok(None);
    };
    match read_sample(text.as_bytes()) {
        Some(sample) => Ok(Some(sample)),
        None => Err(SettingsEnd::Usage(UsageFault::Sample)),
    }
}

// Whether both files are given and no sample, or a sample and neither file.
fn are_files(status: bool, packages: bool, sample: bool) -> bool
    ensures { result ≡ are_files status packages sample }
{
    if sample {
        !status && !packages
    } else {
        status && packages
    }
}

// What is given and not kept as a text.
#[derive(Drop)]
struct Checked {
    numbers: Numbers,
    cost: CostSpec,
    sample: Option<(u64, u32)>,
}

// The first refusal of what is given, or what is read of it.
fn check(alloc: Global, matches: &ArgMatches<'_>) -> Result<Checked, SettingsEnd>
    ensures { MatchResult result (IsChecked (rows_of (found_of matches.now))) (IsFaultEnd (rows_of (found_of matches.now))) }
{
    let Some(numbers) = read_numbers(matches) else {
        return Err(SettingsEnd::Usage(UsageFault::Words));
    };
    let cost = read_cost(alloc, text_of(matches, "cost"))?;
    if !is_arch(text_of(matches, "arch").as_bytes()) {
        return Err(SettingsEnd::Usage(UsageFault::Arch));
    }
    let sample_text = text_given(matches, "sample");
    let sample = read_sample_given(sample_text)?;
    let status = text_given(matches, "status");
    let packages = text_given(matches, "packages");
    if !are_files(status.is_some(), packages.is_some(), sample_text.is_some()) {
        return Err(SettingsEnd::Usage(UsageFault::Files));
    }
    Ok(Checked {
        numbers,
        cost,
        sample,
    })
}

fn copy_text(alloc: Global, text: Option<&str>) -> Result<Option<String>, NoMemory>
    ensures { IfOk result (λ copy. option_map string_bytes copy ≡ option_copied text.entry) }
{
    match text {
        Some(text) => Ok(Some(String::from_str(alloc, text)?)),
        None => Ok(None),
    }
}

fn copy_texts(alloc: Global, texts: &[&str]) -> Result<Vec<String>, NoMemory>
    ensures { IfOk result (λ copy. map string_bytes copy.items ≡ map (λ text. text.now) texts.now) }
{
    let mut copy = Vec::new(alloc);
    for text in texts {
        copy.push(String::from_str(alloc, text)?)?;
    }
    Ok(copy)
}

fn copy_actions(alloc: Global, matches: &ArgMatches<'_>) -> Result<Vec<String>, NoMemory>
    ensures { IfOk result (λ actions. map string_bytes actions.items ≡ actions_in (rows_of (found_of matches.now))) }
{
    match matches.get_strs("ACTION") {
        Some(texts) => copy_texts(alloc, texts),
        None => Ok(Vec::new(alloc)),
    }
}

// The settings of what is given and not refused.
fn settings_of(
    alloc: Global,
    matches: &ArgMatches<'_>,
    checked: Checked,
) -> Result<Settings, NoMemory>
    requires { IsChecked (rows_of (found_of matches.now)) checked }
    ensures { IfOk result (λ s. given_by s ≡ given (rows_of (found_of matches.now))) }
{
    let status = copy_text(alloc, text_given(matches, "status"))?;
    let packages = copy_text(alloc, text_given(matches, "packages"))?;
    let hints = copy_text(alloc, text_given(matches, "hints"))?;
    let arch = String::from_str(alloc, text_of(matches, "arch"))?;
    let actions = copy_actions(alloc, matches)?;
    Ok(Settings {
        status,
        packages,
        hints,
        sample: checked.sample,
        cost: checked.cost,
        arch,
        slice: checked.numbers.slice,
        workers: checked.numbers.workers,
        actions,
    })
}

/// Reads the words of the command line, of which the first is the program's name. The first refusal is answered: `Words` where
/// there is no word, or the command does not take the others; then `Cost`, where the text of `--cost` is no cost spec; `Arch`,
/// where that of `--arch` is not one byte or more of `a-z`, `0-9` and `-`; `Sample`, where that of `--sample` is no SEED:COUNT;
/// and `Files`, where neither both files are given and no sample, nor a sample and no file. Actions are not looked at.
pub fn read_settings(alloc: Global, words: &[String]) -> Result<Settings, SettingsEnd>
    ensures { MatchResult result (AreSettings (map string_bytes words.now)) (IsSettingsEnd (map string_bytes words.now)) }
{
    if words.is_empty() {
        return Err(SettingsEnd::Usage(UsageFault::Words));
    }
    let matches = read_words(alloc, words)?;
    let checked = check(alloc, &matches)?;
    let settings = settings_of(alloc, &matches, checked)?;
    Ok(settings)
}

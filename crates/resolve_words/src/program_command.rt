// The command that the words are read by.
ghost use Rattle.std.specs.Prelude.{◌≡◌, ◌⊎◌, ◌≢◌, [], false, true, map, length, ◌==◌, IfOk, MatchResult, string_bytes};
ghost use Rattle.clap.specs.Words.{app_of, rule_of, with_rule, found_of, rows_of};
ghost use Rattle.resolve_words.specs.ProgramCommand.{option, option_or, number_or, further, bare, command, rows, faults};
ghost use Rattle.resolve_words.specs.Checked.{kind_end};
ghost use Rattle.resolve_words.specs.declared.ends.SettingsEnd.TheVariants as ends;
ghost use Rattle.resolve_words.specs.declared.ends.UsageFault.TheVariants as usage;

use crate::ends::{SettingsEnd, UsageFault};
use choice_set::NoMemory;
use clap::builder::ValueParser;
use clap::error::ErrorKind;
use clap::{Arg, ArgAction, ArgMatches, Command};
use std::alloc::Global;

// An option that takes one text.
fn option<'a>(alloc: Global, name: &'a str) -> Arg<'a>
    ensures rule { rule_of result ≡ option name.entry.now }
    ensures local { result.global ≡ false }
{
    Arg::new(alloc, name).long(name)
}

// An option that takes one text, and has this one where it is not given.
fn option_or<'a>(alloc: Global, name: &'a str, default: &'a str) -> Arg<'a>
    ensures rule { rule_of result ≡ option_or name.entry.now default.entry.now }
    ensures local { result.global ≡ false }
{
    option(alloc, name).default_value(default)
}

// An option that takes a number from `least` to `most`.
fn number_or<'a>(alloc: Global, name: &'a str, default: &'a str, least: u64, most: u64) -> Arg<'a>
    ensures rule { rule_of result ≡ number_or name.entry.now default.entry.now least most }
    ensures local { result.global ≡ false }
{
    option_or(alloc, name, default).value_parser(ValueParser::unsigned(least, most))
}

// Any number of further words.
fn further<'a>(alloc: Global, name: &'a str) -> Arg<'a>
    ensures rule { rule_of result ≡ further name.entry.now }
    ensures local { result.global ≡ false }
{
    Arg::new(alloc, name).action(ArgAction::Append)
}

// A command without options.
fn bare<'a>(alloc: Global) -> Command<'a>
    ensures { app_of result ≡ bare }
{
    Command::new(alloc, "aptres").disable_help_flag(true)
}

// The command with one more argument.
fn with<'a>(command: Command<'a>, arg: Arg<'a>) -> Result<Command<'a>, NoMemory>
    requires { arg.global ≡ false }
    ensures { IfOk result (λ c. app_of c ≡ with_rule (app_of command.entry) (rule_of arg.entry)) }
{
    let command = command.arg(arg)?;
    Ok(command)
}

// The command of the program.
fn program_command<'a>(alloc: Global) -> Result<Command<'a>, NoMemory>
    ensures { IfOk result (λ c. app_of c ≡ command) }
{
    let command = with(bare(alloc), option(alloc, "status"))?;
    let command = with(command, option(alloc, "packages"))?;
    let command = with(command, option(alloc, "sample"))?;
    let command = with(command, option(alloc, "hints"))?;
    let command = with(command, option_or(alloc, "cost", "removals,canceled"))?;
    let command = with(command, option_or(alloc, "arch", "amd64"))?;
    let command = with(command, number_or(alloc, "slice", "5000", 1, 1_000_000))?;
    let command = with(command, number_or(alloc, "workers", "1", 0, 16))?;
    with(command, further(alloc, "ACTION"))
}

// Why the command gave nothing.
fn end_of(kind: ErrorKind) -> SettingsEnd
    ensures { result ≡ kind_end kind }
{
    match kind {
        ErrorKind::OutOfMemory => SettingsEnd::NoMemory,
        _ => SettingsEnd::Usage(UsageFault::Words),
    }
}

/// What the command makes of the words, the program's name first.
pub fn read_words<'a>(alloc: Global, words: &'a [String]) -> Result<ArgMatches<'a>, SettingsEnd>
    ensures { MatchResult result
        (λ m. (faults (map string_bytes words.entry.now) ≡ []) × (rows_of (found_of m) ≡ rows (map string_bytes words.entry.now)))
        (λ end. (end ≡ ends.NoMemory) ⊎ ((end ≡ ends.Usage usage.Words) × (faults (map string_bytes words.entry.now) ≢ []))) }
{
    match program_command(alloc)?.try_get_matches_from(words) {
        Ok(matches) => Ok(matches),
        Err(error) => Err(end_of(error.kind())),
    }
}

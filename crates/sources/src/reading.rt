// The texts that the settings name.
ghost use Rattle.std.specs.Prelude.{◌≡◌, ◌≤◌, length, None, IfOk, IfSome, MatchResult, string_bytes};
ghost use Rattle.std.specs.Option.{option_map};
ghost use Rattle.apt_base.specs.Faults.{CountsOnly};
ghost use Rattle.apt_base.specs.Files.{KeepsFiles};
ghost use Rattle.resolve_words.specs.Given.{given_by};
ghost use Rattle.sample_maker.specs.Samples.{status_text, packages_text};
ghost use Rattle.universe_model.specs.Limits.{most_file_bytes};
ghost use Rattle.sources.specs.Sources.{IsRead, IsReadIf, AreUniverse, AreSources, sources_of, listed, universe_names, names_of, CountsAmong, IsUnread, IsCut, AreUnread};

use crate::Sources;
use apt_base::{ReadEnd, Shelf, read_whole};
use resolve_words::Settings;
use run_status::{Status, Which};
use sample_maker::make;
use std::alloc::Global;

/// The most bytes that a file may have.
const MOST_FILE_BYTES: u64 = 268_435_456;

// Reads a file whole.
fn read_file<F: Shelf>(alloc: Global, shelf: &mut F, name: &str) -> Result<Vec<u8>, Status>
    ensures kept { KeepsFiles (F.state shelf.old) (F.state shelf.new) }
    ensures counts { CountsOnly name.now (F.state shelf.old).asked (F.state shelf.new).asked }
    ensures read { MatchResult result (λ bytes. IsRead (F.state shelf.old).files name.now bytes.items)
        (IsUnread (F.state shelf.old).files (F.state shelf.old).asked (F.state shelf.new).asked name.now) }
{
    match read_whole(alloc, shelf, name, MOST_FILE_BYTES) {
        Ok(bytes) => Ok(bytes),
        Err(ReadEnd::ReadFault) => Err(Status::ReadFault),
        Err(ReadEnd::TooLong { .. }) => Err(Status::Limit {
            which: Which::FileBytes,
            count: 268_435_457,
        }),
        Err(ReadEnd::NoMemory) => Err(Status::NoMemory),
    }
}

// Reads a file whole, where one is named; else the text is empty.
fn read_if<F: Shelf>(alloc: Global, shelf: &mut F, name: &Option<String>) -> Result<Vec<u8>, Status>
    ensures kept { KeepsFiles (F.state shelf.old) (F.state shelf.new) }
    ensures counts { CountsAmong (listed (option_map string_bytes name.now)) (F.state shelf.old).asked (F.state shelf.new).asked }
    ensures read { MatchResult result
        (λ bytes. IsReadIf (F.state shelf.old).files (option_map string_bytes name.now) bytes.items)
        (IsCut (F.state shelf.old).files (F.state shelf.old).asked (F.state shelf.new).asked (listed (option_map string_bytes name.now))) }
{
    match name {
        Some(name) => read_file(alloc, shelf, name.as_str()),
        None => Ok(Vec::new(alloc)),
    }
}

// The status and the packages text of the two files, the status file first.
fn read_both<F: Shelf>(
    alloc: Global,
    shelf: &mut F,
    settings: &Settings,
) -> Result<(Vec<u8>, Vec<u8>), Status>
    ensures kept { KeepsFiles (F.state shelf.old) (F.state shelf.new) }
    ensures counts { CountsAmong (universe_names (given_by settings.now) None) (F.state shelf.old).asked (F.state shelf.new).asked }
    ensures read { MatchResult result
        (λ texts. AreUniverse (F.state shelf.old).files (given_by settings.now) texts.0.items texts.1.items None)
        (IsCut (F.state shelf.old).files (F.state shelf.old).asked (F.state shelf.new).asked (universe_names (given_by settings.now) None)) }
{
    let status = match read_if(alloc, shelf, &settings.status) {
        Ok(text) => text,
        Err(status) => return Err(status),
    };
    match read_if(alloc, shelf, &settings.packages) {
        Ok(packages) => Ok((status, packages)),
        Err(status) => Err(status),
    }
}

// The status and the packages text of a generated universe.
fn make_both(alloc: Global, seed: u64, count: u32) -> Result<(Vec<u8>, Vec<u8>), Status>
    ensures { MatchResult result
        (λ texts. (texts.0.items ≡ status_text seed count) × (texts.1.items ≡ packages_text seed count))
        (λ status. status ≡ Status.NoMemory) }
{
    match make(alloc, seed, count) {
        Ok(texts) => Ok(texts),
        Err(_) => Err(Status::NoMemory),
    }
}

// The status and the packages text.
fn read_universe<F: Shelf>(
    alloc: Global,
    shelf: &mut F,
    settings: &Settings,
) -> Result<(Vec<u8>, Vec<u8>), Status>
    ensures kept { KeepsFiles (F.state shelf.old) (F.state shelf.new) }
    ensures counts { CountsAmong (universe_names (given_by settings.now) settings.now.sample) (F.state shelf.old).asked (F.state shelf.new).asked }
    ensures read { MatchResult result
        (λ texts. AreUniverse (F.state shelf.old).files (given_by settings.now) texts.0.items texts.1.items settings.now.sample)
        (AreUnread (F.state shelf.old).files (F.state shelf.old).asked (F.state shelf.new).asked (universe_names (given_by settings.now) settings.now.sample)) }
{
    match settings.sample {
        Some((seed, count)) => make_both(alloc, seed, count),
        None => read_both(alloc, shelf, settings),
    }
}

/// Reads the texts that the settings name: the status file, the packages file and the hint file, in this order, each of at most
/// 268,435,456 bytes. With a sample the first two are made, and the shelf is not asked for them. The first file that is not read
/// ends it with `ReadFault`, where the shelf failed for its name, or `Limit` of `FileBytes`, where it is longer; the files behind
/// it are not asked for. The other error is `NoMemory`. A sample has at most 50,000 packages.
pub fn read_sources<F: Shelf>(
    alloc: Global,
    shelf: &mut F,
    settings: &Settings,
) -> Result<Sources, Status>
    requires few { IfSome settings.now.sample (λ sample. sample.1 ≤ 50000) }
    ensures kept { KeepsFiles (F.state shelf.old) (F.state shelf.new) }
    ensures counts { CountsAmong (names_of (given_by settings.now)) (F.state shelf.old).asked (F.state shelf.new).asked }
    ensures read { MatchResult result
        (λ texts. AreSources (F.state shelf.old).files (given_by settings.now) (sources_of texts))
        (AreUnread (F.state shelf.old).files (F.state shelf.old).asked (F.state shelf.new).asked (names_of (given_by settings.now))) }
    ensures status { IfOk result (λ texts. length texts.status.items ≤ most_file_bytes) }
    ensures packages { IfOk result (λ texts. length texts.packages.items ≤ most_file_bytes) }
{
    let (status, packages) = match read_universe(alloc, shelf, settings) {
        Ok(texts) => texts,
        Err(status) => return Err(status),
    };
    match read_if(alloc, shelf, &settings.hints) {
        Ok(hints) => Ok(Sources {
            status,
            packages,
            hints,
        }),
        Err(status) => Err(status),
    }
}

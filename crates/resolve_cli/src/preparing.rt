// From the words to what a run's session stands on.
ghost use Rattle.std.specs.Prelude.{map, string_bytes, MatchResult};
ghost use Rattle.apt_base.specs.Files.{KeepsFiles};
ghost use Rattle.resolve_words.specs.Given.{AreSettings};
ghost use Rattle.sources.specs.Sources.{CountsAmong};
ghost use Rattle.resolve_cli.specs.Words.{names_in};
ghost use Rattle.resolve_cli.specs.Beginnings.{IsPrepared, IsAtWords, IsRefusal};

use crate::prepared::Prepared;
use apt_base::Shelf;
use grounds::make_ground;
use resolve_words::{Settings, SettingsEnd, read_settings};
use run_status::Status;
use sources::read_sources;
use std::alloc::Global;

// The settings that the words give.
fn settings_of(alloc: Global, words: &[String]) -> Result<Settings, Status>
    ensures { MatchResult result (AreSettings (map string_bytes words.now)) (IsAtWords (map string_bytes words.now)) }
{
    match read_settings(alloc, words) {
        Ok(settings) => Ok(settings),
        Err(SettingsEnd::Usage(fault)) => Err(Status::Usage(fault)),
        Err(SettingsEnd::NoMemory) => Err(Status::NoMemory),
    }
}

/// What the words, the first of which is the program's name, and the texts that they name give to a session; or why there is none.
/// The first refusal is answered: of the words; of a file that was not read, in the order status, packages, hints; of the status and
/// the packages text, of the hints, of the actions, of the prices. The shelf is asked for no other file, and for none where the
/// words are refused. `NoMemory` may come at any place.
pub fn prepare<F: Shelf>(alloc: Global, words: &[String], shelf: &mut F) -> Result<Prepared, Status>
    ensures kept { KeepsFiles (F.state shelf.old) (F.state shelf.new) }
    ensures asked { CountsAmong (names_in (map string_bytes words.now)) (F.state shelf.old).asked (F.state shelf.new).asked }
    ensures prepared { MatchResult result
        (IsPrepared (map string_bytes words.now) (F.state shelf.old).files)
        (IsRefusal (map string_bytes words.now) (F.state shelf.old) (F.state shelf.new)) }
{
    let settings = match settings_of(alloc, words) {
        Ok(settings) => settings,
        Err(status) => return Err(status),
    };
    let sources = match read_sources(alloc, shelf, &settings) {
        Ok(sources) => sources,
        Err(status) => return Err(status),
    };
    match make_ground(alloc, &settings, &sources) {
        Ok(ground) => Ok(Prepared {
            ground,
            slice: settings.slice,
            workers: settings.workers,
        }),
        Err(status) => Err(status),
    }
}

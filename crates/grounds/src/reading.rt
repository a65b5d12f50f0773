// What the texts and the words of the settings say, or what refuses them.
ghost use Rattle.std.specs.Prelude.{◌≡◌, map, string_bytes, IfOk, MatchResult, None};
ghost use Rattle.hint_file.specs.Hinting.{hints_of, lines_of};
ghost use Rattle.resolve_words.specs.Given.{given_by};
ghost use Rattle.sources.specs.Sources.{sources_of};
ghost use Rattle.wanted.specs.Wanting.{actions_of, IsOf};
ghost use Rattle.grounds.specs.Grounds.{status_of_build, status_of_hint, texts_of, universe_of, text_refusal, hint_refusal, action_refusal, IsRefused};

use hint_file::{HintEnd, Hints};
use resolve_words::{Settings, UsageFault};
use run_status::{FileKind, InputKind, Status};
use sources::Sources;
use std::alloc::Global;
use universe::Universe;
use universe_model::BuildEnd;
use wanted::{Wanted, WantedEnd};

fn status_of_build(end: BuildEnd) -> Status
    ensures { result ≡ status_of_build end }
{
    match end {
        BuildEnd::BadInput { file, line, kind } => Status::BadInput { file, line, kind },
        BuildEnd::Limit { which, count } => Status::Limit { which, count },
        BuildEnd::NoMemory => Status::NoMemory,
    }
}

fn status_of_hint(end: HintEnd) -> Status
    ensures { result ≡ status_of_hint end }
{
    match end {
        HintEnd::HintFault { line, kind } => Status::BadInput {
            file: FileKind::Hints,
            line,
            kind: InputKind::Hint(kind),
        },
        HintEnd::NoMemory => Status::NoMemory,
    }
}

/// The universe of the status and the packages text.
pub fn read_universe(
    alloc: Global,
    settings: &Settings,
    sources: &Sources,
) -> Result<Universe, Status>
    ensures { MatchResult result
        (λ universe. (text_refusal (texts_of (given_by settings.now) (sources_of sources.now)) ≡ None) × (universe ≡ universe_of (given_by settings.now) (sources_of sources.now)))
        (IsRefused (text_refusal (texts_of (given_by settings.now) (sources_of sources.now)))) }
{
    match Universe::build(
        alloc,
        sources.status.as_slice(),
        sources.packages.as_slice(),
        settings.arch.as_bytes(),
    ) {
        Ok(universe) => Ok(universe),
        Err(end) => Err(status_of_build(end)),
    }
}

/// The hints of the hint file.
pub fn read_hints(alloc: Global, universe: &Universe, text: &[u8]) -> Result<Hints, Status>
    ensures { MatchResult result
        (λ hints. (hint_refusal universe.now text.now ≡ None) × (hints ≡ hints_of universe.now (lines_of text.now)))
        (IsRefused (hint_refusal universe.now text.now)) }
{
    match Hints::read(alloc, text, universe) {
        Ok(hints) => Ok(hints),
        Err(end) => Err(status_of_hint(end)),
    }
}

/// The actions.
pub fn read_actions(alloc: Global, universe: &Universe, words: &[String]) -> Result<Wanted, Status>
    ensures read { MatchResult result
        (λ wanted. (action_refusal universe.now (map string_bytes words.now) ≡ None) × (wanted ≡ actions_of universe.now (map string_bytes words.now)))
        (IsRefused (action_refusal universe.now (map string_bytes words.now))) }
    ensures own { IfOk result (IsOf universe.now) }
{
    match Wanted::read(alloc, universe, words) {
        Ok(wanted) => Ok(wanted),
        Err(WantedEnd::BadAction { word }) => Err(Status::Usage(UsageFault::Action { word })),
        Err(WantedEnd::NoMemory) => Err(Status::NoMemory),
    }
}

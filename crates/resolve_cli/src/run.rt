// A run of the program, from its words to its report.
ghost use Rattle.std.specs.Prelude.{◌≡◌, [], List, map, string_bytes, IsSome};
ghost use Rattle.apt_base.specs.Files.{KeepsFiles};
ghost use Rattle.clap.specs.Words.{Text};
ghost use Rattle.search_core.specs.Begins.{MayBegin};
ghost use Rattle.search_core.specs.Sessions.{setting_of};
ghost use Rattle.sources.specs.Sources.{CountsAmong};
ghost use Rattle.talk.specs.Transcripts.{script_of};
ghost use Rattle.universe_model.specs.Universes.{IsProblemOf};
ghost use Rattle.resolve_cli.specs.Beginnings.{setting_by, script_by};
ghost use Rattle.resolve_cli.specs.Words.{settings_in, names_in};
ghost use Rattle.resolve_cli.specs.Reports.{World, world, scene, setting_in, IsSpeech, IsDialogue, IsRun};
ghost use Rattle.resolve_cli.specs.Beside.{IsDialogueBeside, setting_beside};
ghost use Rattle.resolve_cli.specs.Completeness.{IsWellProvided, EndsWell};
ghost use Rattle.resolve_cli.specs.Sureness.{IsSure, IsFull};
ghost use Rattle.resolve_cli.specs.Enumeration.{EnumeratesAtNoMore};

use crate::prepared::Prepared;
use crate::preparing::prepare;
use apt_base::{Shelf, Sink, Source};
use grounds::Ground;
use laws_session::minimal_solutions_come_in_turn;
use resolver_model::Entry;
use run_status::Status;
use search_core::Session;
use std::alloc::Global;
use talk::{Speaker, converse};
use user_rules::Rules;

/// What became of a run: how it ended, the entries of its session, and how many lines it read.
#[derive(Drop)]
pub struct Report {
    pub status: Status,
    pub history: Vec<Entry>,
    pub lines_read: u64,
}

// The report of a run that had no session.
pub(crate) fn without_session(alloc: Global, status: Status) -> Report
    ensures status { result.status ≡ status }
    ensures empty { result.history.items ≡ [] }
    ensures unread { result.lines_read ≡ 0 }
{
    Report {
        status,
        history: Vec::new(alloc),
        lines_read: 0,
    }
}

// Speaks with the user, over a session that begins with these rules.
fn speak<I: Source, O: Sink>(
    alloc: Global,
    speaker: &Speaker<'_>,
    rules: Rules,
    slice: u64,
    input: &mut I,
    out: &mut O,
) -> Report
    requires beside { IsProblemOf speaker.now.universe.now speaker.now.basis.now.problem }
    requires begins { MayBegin speaker.now.basis.now.problem speaker.now.basis.now.table rules slice 1 }
    ensures { IsSpeech (setting_of speaker.now.basis.now.problem speaker.now.basis.now.table rules slice 1) (script_of speaker.now)
        (scene [] (I.state input.old) (O.state out.old)) (scene result.history.items (I.state input.new) (O.state out.new)) result }
{
    let Ok(mut session) = Session::new(alloc, speaker.basis, rules, slice, 1) else {
        return without_session(alloc, Status::NoMemory);
    };
    let mut lines_read = 0;
    let status = converse(alloc, speaker, &mut session, &mut lines_read, input, out);
    Report {
        status,
        history: session.into_history(),
        lines_read,
    }
}

// Speaks with the user, over what was prepared.
pub(crate) fn speak_over<I: Source, O: Sink>(
    alloc: Global,
    prepared: Prepared,
    input: &mut I,
    out: &mut O,
) -> Report
    ensures { IsSpeech (setting_by prepared) (script_by prepared)
        (scene [] (I.state input.old) (O.state out.old)) (scene result.history.items (I.state input.new) (O.state out.new)) result }
{
    let Prepared { ground, slice, .. } = prepared;
    let Ground {
        universe,
        basis,
        rules,
    } = ground;
    let speaker = Speaker {
        universe: &universe,
        basis: &basis,
    };
    speak(alloc, &speaker, rules, slice, input, out)
}

/// All that the program does, on one thread. `words` are those of the command line, the program's name first; the files that they
/// name are read from the shelf, the lines of the dialogue from the input, and the answers go to `out`.
///
/// It reads the settings, the texts and what these give, and ends at the first refusal, with nothing read from the input and nothing
/// written. Else it makes a session, writes a greeting, and answers line after line until a solution is accepted, the user quits, the
/// input ends, a fault comes or there is too much of something. `NoMemory` may end it at any place. It always returns.
pub fn run_alone<F: Shelf, I: Source, O: Sink>(
    alloc: Global,
    words: &[String],
    shelf: &mut F,
    input: &mut I,
    out: &mut O,
) -> Report
    ensures run { IsRun (map string_bytes words.now)
        (world (F.state shelf.old) (I.state input.old) (O.state out.old))
        (world (F.state shelf.new) (I.state input.new) (O.state out.new)) result }
    ensures kept { KeepsFiles (F.state shelf.old) (F.state shelf.new) }
    ensures asked { CountsAmong (names_in (map string_bytes words.now)) (F.state shelf.old).asked (F.state shelf.new).asked }
    ensures complete { IsWellProvided (map string_bytes words.now)
        (world (F.state shelf.old) (I.state input.old) (O.state out.old))
        (world (F.state shelf.new) (I.state input.new) (O.state out.new)) → EndsWell result.status }
    ensures sure { IsSure (map string_bytes words.now) (world (F.state shelf.old) (I.state input.old) (O.state out.old))
        → result.status ≡ Status.ReadFault → ⊥ }
    ensures full { IsSome (O.state out.old).room → result.status ≡ Status.WriteFault → IsFull (O.state out.new) }
{
    match prepare(alloc, words, shelf) {
        Ok(prepared) => speak_over(alloc, prepared, input, out),
        Err(status) => without_session(alloc, status),
    }
}

/// A law: where a run answers "no more", and no rule stood then and at any solution before, the solutions that it had delivered are
/// exactly the minimal ones, each once: on one thread (`alone`), and while others search (`beside`). Its contract is the law.
pub fn deliveries_are_minimal()
    ensures alone { (words : List Text) (old new : World) (r : Report) → (run : IsDialogue words old new r)
        → EnumeratesAtNoMore (setting_in (settings_in words) run.texts) r.history.items }
    ensures beside { (words : List Text) (old new : World) (r : Report) → (run : IsDialogueBeside words old new r)
        → EnumeratesAtNoMore (setting_beside (settings_in words) run.texts) r.history.items }
{
    minimal_solutions_come_in_turn();
}

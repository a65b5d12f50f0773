// A run of the program whose session other threads search beside the dialogue.
ghost use Rattle.std.specs.Prelude.{◌≡◌, ◌<◌, ◌+◌, [], map, string_bytes, List, IsSome};
ghost use Rattle.apt_base.specs.Bytes.{IsSourceState, IsSinkState};
ghost use Rattle.apt_base.specs.Files.{KeepsFiles};
ghost use Rattle.clap.specs.Words.{Text};
ghost use Rattle.search_core.specs.Begins.{MayBegin};
ghost use Rattle.search_core.specs.Sessions.{setting_of, fresh};
ghost use Rattle.sources.specs.Sources.{CountsAmong};
ghost use Rattle.talk.specs.Transcripts.{script_of};
ghost use Rattle.universe_model.specs.Universes.{IsProblemOf};
ghost use Rattle.resolve_cli.specs.Beginnings.{script_by};
ghost use Rattle.resolve_cli.specs.Words.{names_in};
ghost use Rattle.resolve_cli.specs.Reports.{World, world, scene};
ghost use Rattle.resolve_cli.specs.Beside.{setting_for_all, IsSpeechBeside, IsDialogueBeside, IsRunBeside, IsSameRun, AreFreeOfSchedule, AreAnsweredAlike};
ghost use Rattle.resolve_cli.specs.Completeness.{IsWellProvided, EndsWell};
ghost use Rattle.resolve_cli.specs.Sureness.{IsSure, IsFull};

use crate::prepared::Prepared;
use crate::preparing::prepare;
use crate::run::{Report, speak_over, without_session};
use apt_base::{Shelf, Sink, Source};
use grounds::Ground;
use run_status::Status;
use search_core::Session;
use search_thread::Gate;
use session_cell::SessionCell;
use shared_talk::converse_and_close;
use std::alloc::Global;
use std::sync::Wait;
use std::thread::Threads;
use talk::Speaker;
use user_rules::Rules;

// Tells what holds of all sources.
fn know_source<I: Source>(source: &I)
    ensures { IsSourceState (I.state source.now) }
{
    let _ = source;
}

// Tells what holds of all sinks.
fn know_sink<O: Sink>(sink: &O)
    ensures { IsSinkState (O.state sink.now) }
{
    let _ = sink;
}

// Speaks with the user, over a session that begins with these rules and has so many actors.
fn speak_shared<H: Threads + Wait + Sync, I: Source + Send, O: Sink + Send, G: Gate + Sync>(
    rt: &H,
    alloc: Global,
    speaker: &Speaker<'_>,
    rules: Rules,
    slice: u64,
    actors: u32,
    input: &mut I,
    out: &mut O,
    gate: &G,
) -> Report
    requires beside { IsProblemOf speaker.now.universe.now speaker.now.basis.now.problem }
    requires begins { MayBegin speaker.now.basis.now.problem speaker.now.basis.now.table rules slice actors }
    ensures { IsSpeechBeside (setting_of speaker.now.basis.now.problem speaker.now.basis.now.table rules slice actors) (script_of speaker.now)
        (scene [] (I.state input.old) (O.state out.old)) (scene result.history.items (I.state input.new) (O.state out.new)) result }
{
    let Ok(session) = Session::new(alloc, speaker.basis, rules, slice, actors) else {
        return without_session(alloc, Status::NoMemory);
    };
    let Ok((cell, passes)) = SessionCell::new(alloc, session, actors) else {
        return without_session(alloc, Status::NoMemory);
    };
    let mut lines_read = 0;
    let (status, session) = converse_and_close(
        rt,
        alloc,
        speaker,
        cell,
        passes,
        gate,
        &mut lines_read,
        input,
        out,
    );
    Report {
        status,
        history: session.into_history(),
        lines_read,
    }
}

// Speaks with the user, over what was prepared, with one actor more than there are workers.
fn speak_beside<H: Threads + Wait + Sync, I: Source + Send, O: Sink + Send, G: Gate + Sync>(
    rt: &H,
    alloc: Global,
    prepared: Prepared,
    input: &mut I,
    out: &mut O,
    gate: &G,
) -> Report
    ensures { IsSpeechBeside (setting_for_all prepared) (script_by prepared)
        (scene [] (I.state input.old) (O.state out.old)) (scene result.history.items (I.state input.new) (O.state out.new)) result }
{
    let Prepared {
        ground,
        slice,
        workers,
    } = prepared;
    let Ground {
        universe,
        basis,
        rules,
    } = ground;
    let speaker = Speaker {
        universe: &universe,
        basis: &basis,
    };
    speak_shared(
        rt,
        alloc,
        &speaker,
        rules,
        slice,
        workers + 1,
        input,
        out,
        gate,
    )
}

// Speaks with the user, over what was prepared: where there is no worker, on one thread.
fn speak_all<H: Threads + Wait + Sync, I: Source + Send, O: Sink + Send, G: Gate + Sync>(
    rt: &H,
    alloc: Global,
    prepared: Prepared,
    input: &mut I,
    out: &mut O,
    gate: &G,
) -> Report
    ensures { IsSpeechBeside (setting_for_all prepared) (script_by prepared)
        (scene [] (I.state input.old) (O.state out.old)) (scene result.history.items (I.state input.new) (O.state out.new)) result }
{
    if prepared.workers == 0 {
        speak_over(alloc, prepared, input, out)
    } else {
        speak_beside(rt, alloc, prepared, input, out, gate)
    }
}

/// All that the program does, as `run_alone`, while as many threads as the words say search beside the dialogue: each turn, from its
/// prompt to its reply, is a round. Where they say 0, it does what `run_alone` does. The answers are those of one legal history over
/// all threads, in which only the dialogue is answered. The gate is called between a leaf that a worker takes and what it puts in its
/// place.
pub fn run_session<
    H: Threads + Wait + Sync,
    F: Shelf,
    I: Source + Send,
    O: Sink + Send,
    G: Gate + Sync,
>(
    rt: &H,
    alloc: Global,
    words: &[String],
    shelf: &mut F,
    input: &mut I,
    out: &mut O,
    gate: &G,
) -> Report
    ensures run { IsRunBeside (map string_bytes words.now)
        (world (F.state shelf.old) (I.state input.old) (O.state out.old))
        (world (F.state shelf.new) (I.state input.new) (O.state out.new)) result }
    ensures kept { KeepsFiles (F.state shelf.old) (F.state shelf.new) }
    ensures asked { CountsAmong (names_in (map string_bytes words.now)) (F.state shelf.old).asked (F.state shelf.new).asked }
    ensures complete { IsWellProvided (map string_bytes words.now)
        (world (F.state shelf.old) (I.state input.old) (O.state out.old))
        (world (F.state shelf.new) (I.state input.new) (O.state out.new)) → EndsWell result.status }
    ensures sure { IsSure (map string_bytes words.now) (world (F.state shelf.old) (I.state input.old) (O.state out.old))
        → result.status ≡ Status.ReadFault → ⊥ }
    ensures full { IsSome (O.state out.old).room → result.status ≡ Status.WriteFault → IsFull (O.state out.new) }
{
    match prepare(alloc, words, shelf) {
        Ok(prepared) => {
            let report = speak_all(rt, alloc, prepared, input, out, gate);
            know_source(input);
            know_sink(out);
            report
        }
        Err(status) => {
            know_source(input);
            know_sink(out);
            without_session(alloc, status)
        }
    }
}

/// A law: answers do not depend on which thread searched when, nor on how many did. Of two runs over the same problem, amounts and
/// first rules, which were answered alike so far, "not yet" aside, the same command is answered alike, "not yet" aside (`step`). If
/// they answer the same commands, and nothing by "not yet", they are answered alike from begin to end (`whole`).
pub fn answers_are_free_of_schedule()
    ensures step { (words others : List Text) (old new first last : World) (r q : Report) → (run : IsDialogueBeside words old new r) → (other : IsDialogueBeside others first last q)
        → IsSameRun words others run.texts other.texts → AreFreeOfSchedule r.history.items q.history.items }
    ensures whole { (words others : List Text) (old new first last : World) (r q : Report) → (run : IsDialogueBeside words old new r) → (other : IsDialogueBeside others first last q)
        → IsSameRun words others run.texts other.texts → AreAnsweredAlike r.history.items q.history.items }
{
    laws_session::answers_are_free_of_schedule();
    laws_session::histories_are_answered_alike();
}

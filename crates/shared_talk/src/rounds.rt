// The whole dialogue: turn after turn, each of them a round.
ghost use Rattle.std.specs.Prelude.{◌≡◌, ◌<◌, ◌≤◌, ◌+◌, ◌∷◌, [], All, length, vec_len};
ghost use Rattle.std.specs.List.{AllZip};
ghost use Rattle.universe_model.specs.Universes.{IsProblemOf};
ghost use Rattle.search_core.specs.Sessions.{IsFor};
ghost use Rattle.session_cell.specs.Passes.{passes_below};
ghost use Rattle.search_thread.specs.Slices.{CanWork};
ghost use Rattle.talk.specs.Transcripts.{script_of};
ghost use Rattle.talk.specs.Ends.{most_lines};
ghost use Rattle.talk.specs.Runs.{IsOver};
ghost use Rattle.shared_talk.specs.Shared.{IsTalkerAlone, IsOverShared};
ghost use Rattle.shared_talk.specs.Passes.{AreDone, HaveSpoken};
ghost use Rattle.shared_talk.specs.Turns.{CanAnswer, IsPlaced, IsFurther, IsTurnTaken, HasWorked};

use crate::turns::{last_turn, turn};
use apt_base::{LineReader, Sink, Source};
use run_status::Status;
use search_core::Session;
use search_thread::{Gate, round_here};
use session_cell::{Pass, SessionCell};
use std::alloc::Global;
use std::sync::Wait;
use std::thread::Threads;
use talk::{MOST_LINES, Place, Speaker, begin};

// One round: a turn of the dialogue, while the workers search. Its number is that of the line.
fn turn_beside<H: Threads + Wait + Sync, G: Gate + Sync, I: Source + Send, O: Sink + Send>(
    rt: &H,
    alloc: Global,
    speaker: &Speaker<'_>,
    cell: &SessionCell,
    talker: &mut Pass,
    workers: &mut [Pass],
    gate: &G,
    place: &mut Place,
    lines: &mut u64,
    reader: &mut LineReader,
    line: &mut Vec<u8>,
    input: &mut I,
    out: &mut O,
) -> Result<(), Status>
    requires beside { IsProblemOf speaker.now.universe.now speaker.now.basis.now.problem }
    requires basis { IsFor cell.now.start speaker.now.basis.now.problem speaker.now.basis.now.table }
    requires ready { CanAnswer cell.now talker.old }
    requires stop { talker.old.stop ≤ lines.old }
    requires workers { All (CanWork cell.now) workers.old }
    requires placed { IsPlaced place.old talker.old }
    requires few { lines.old < most_lines }
    ensures taken { IsTurnTaken (script_of speaker.now) cell.now result
        (record { pass = talker.old; place = place.old; lines = lines.old; held = reader.old; input = I.state input.old; out = O.state out.old })
        (record { pass = talker.new; place = place.new; lines = lines.new; held = reader.new; input = I.state input.new; out = O.state out.new }) }
    ensures stop { talker.new.stop ≡ lines.old + 1 }
    ensures workers { AllZip HasWorked workers.old workers.new }
{
    let number = *lines + 1;
    round_here(
        rt,
        alloc,
        cell,
        speaker.basis,
        talker,
        workers,
        gate,
        number,
        &mut |pass: &mut Pass|
            requires { IsProblemOf speaker.now.universe.now speaker.now.basis.now.problem
                × IsFor cell.now.start speaker.now.basis.now.problem speaker.now.basis.now.table
                × CanAnswer cell.now pass.old × IsPlaced place.now pass.old × (lines.now < most_lines) }
            ensures taken { IsTurnTaken (script_of speaker.entry.now) cell.entry.now result
                (record { pass = pass.old; place = place.entry.now; lines = lines.entry.now; held = reader.entry.now; input = I.state input.entry.now; out = O.state out.entry.now })
                (record { pass = pass.new; place = place.exit.now; lines = lines.exit.now; held = reader.exit.now; input = I.state input.exit.now; out = O.state out.exit.now }) }
            ensures stop { pass.new.stop ≡ pass.old.stop }
        {
            turn(
                rt, alloc, speaker, cell, pass, place, lines, reader, line, input, out,
            )
        },
    )
}

/// Speaks with the user through the pass of actor 0, as `talk::converse` does over a session of its own: writes a greeting, and for
/// each line a prompt and the reply, until an end that has its cause. Each turn is a round, in which the workers search; its number
/// is that of the line. The talker has made no entry and asked no round to stop, and the workers have no leaf out. `lines` counts the
/// lines that were read, from 0. It answers why the run ended.
pub fn converse_shared<H: Threads + Wait + Sync, G: Gate + Sync, I: Source + Send, O: Sink + Send>(
    rt: &H,
    alloc: Global,
    speaker: &Speaker<'_>,
    cell: &SessionCell,
    talker: &mut Pass,
    workers: &mut [Pass],
    gate: &G,
    lines: &mut u64,
    input: &mut I,
    out: &mut O,
) -> Status
    requires beside { IsProblemOf speaker.now.universe.now speaker.now.basis.now.problem }
    requires basis { IsFor cell.now.start speaker.now.basis.now.problem speaker.now.basis.now.table }
    requires ready { CanAnswer cell.now talker.old }
    requires stop { talker.old.stop ≡ 0 }
    requires no_entry { talker.old.hand.made ≡ [] }
    requires workers { All (CanWork cell.now) workers.old }
    requires no_line { lines.old ≡ 0 }
    ensures further { IsFurther talker.old talker.new }
    ensures ready { CanAnswer cell.now talker.new }
    ensures workers { AllZip HasWorked workers.old workers.new }
    ensures over { IsTalkerAlone talker.new.hand.seen → IsOver (script_of speaker.now) result lines.new
        (record { history = []; input = I.state input.old; out = O.state out.old })
        (record { history = talker.new.hand.made; input = I.state input.new; out = O.state out.new }) }
{
    let mut reader = match begin(alloc, speaker, out) {
        Ok(reader) => reader,
        Err(status) => return status,
    };
    let mut line = Vec::new(alloc);
    let mut place = Place {
        cursor: 0,
        deliveries: 0,
    };
    for _ in 0..MOST_LINES {
        match turn_beside(
            rt,
            alloc,
            speaker,
            cell,
            talker,
            workers,
            gate,
            &mut place,
            lines,
            &mut reader,
            &mut line,
            input,
            out,
        ) {
            Ok(()) => {}
            Err(status) => return status,
        }
    }
    last_turn(
        alloc,
        speaker,
        talker,
        &place,
        lines,
        &mut reader,
        &mut line,
        input,
        out,
    )
}

// Speaks with the user through the first pass, while the others search.
fn speak_first<H: Threads + Wait + Sync, G: Gate + Sync, I: Source + Send, O: Sink + Send>(
    rt: &H,
    alloc: Global,
    speaker: &Speaker<'_>,
    cell: &SessionCell,
    passes: &mut [Pass],
    gate: &G,
    lines: &mut u64,
    input: &mut I,
    out: &mut O,
) -> Status
    requires beside { IsProblemOf speaker.now.universe.now speaker.now.basis.now.problem }
    requires basis { IsFor cell.now.start speaker.now.basis.now.problem speaker.now.basis.now.table }
    requires passes { passes.old ≡ passes_below cell.now.table cell.now.stops cell.now.start cell.now.start.setting.actors }
    requires some { 0 < length passes.old }
    requires no_entry { cell.now.start.history ≡ [] }
    requires no_line { lines.old ≡ 0 }
    ensures done { AreDone cell.now passes.new }
    ensures spoken { HaveSpoken (script_of speaker.now) result lines.new
        (record { history = []; input = I.state input.old; out = O.state out.old }) passes.new (I.state input.new) (O.state out.new) }
{
    let Some((talker, workers)) = passes.split_first_mut() else {
        unreachable!()
    };
    converse_shared(
        rt, alloc, speaker, cell, talker, workers, gate, lines, input, out,
    )
}

/// Speaks with the user over a shared session, whose passes are all here, and then takes the session out of its cell. The session
/// was shared with no entries. It answers why the run ended, and the session.
pub fn converse_and_close<
    H: Threads + Wait + Sync,
    G: Gate + Sync,
    I: Source + Send,
    O: Sink + Send,
>(
    rt: &H,
    alloc: Global,
    speaker: &Speaker<'_>,
    cell: SessionCell,
    mut passes: Vec<Pass>,
    gate: &G,
    lines: &mut u64,
    input: &mut I,
    out: &mut O,
) -> (Status, Session)
    requires beside { IsProblemOf speaker.now.universe.now speaker.now.basis.now.problem }
    requires basis { IsFor cell.start speaker.now.basis.now.problem speaker.now.basis.now.table }
    requires passes { passes.items ≡ passes_below cell.table cell.stops cell.start cell.start.setting.actors }
    requires some { 0 < vec_len passes }
    requires no_entry { cell.start.history ≡ [] }
    requires no_line { lines.old ≡ 0 }
    ensures setting { result.1.setting ≡ cell.start.setting }
    ensures over { IsOverShared (script_of speaker.now) result.0 lines.new
        (record { history = []; input = I.state input.old; out = O.state out.old })
        (record { history = result.1.history; input = I.state input.new; out = O.state out.new }) }
{
    let status = speak_first(
        rt,
        alloc,
        speaker,
        &cell,
        passes.as_mut_slice(),
        gate,
        lines,
        input,
        out,
    );
    let session = cell.close(passes);
    // makes known that the history is legal
    let _ = session.history();
    (status, session)
}

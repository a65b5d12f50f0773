// One turn, by the pass of actor 0.
ghost use Rattle.std.specs.Prelude.{◌≡◌, ◌<◌, ◌+◌, IfErr, OnOk};
ghost use mathlib.Core.List.{IsPrefix};
ghost use Rattle.resolver_model.specs.Histories.{out_at};
ghost use Rattle.resolver_model.specs.Answers.{NamesChoice};
ghost use Rattle.universe_model.specs.Universes.{IsProblemOf};
ghost use Rattle.search_core.specs.Sessions.{IsFor};
ghost use Rattle.search_thread.specs.Slices.{IsSame};
ghost use Rattle.talk.specs.Transcripts.{script_of};
ghost use Rattle.talk.specs.Ends.{most_lines};
ghost use Rattle.talk.specs.Runs.{IsLaterSink};
ghost use Rattle.talk.specs.Turns.{IsReplied, GoesOn, GoesOut};
ghost use Rattle.shared_talk.specs.Shared.{IsTalkerAlone};
ghost use Rattle.shared_talk.specs.Turns.{CanAnswer, IsPlaced, IsFurther};

use apt_base::{LineReader, Sink, Source};
use pass_search::answer_through;
use resolver_model::Command;
use run_status::{Status, Which};
use session_cell::{Pass, SessionCell};
use std::alloc::Global;
use std::sync::Wait;
use talk::{Place, Speaker, end_of, hear, say_prompt, say_reply};

// Answers a command, and writes the reply. Where the run does not go on, it answers why.
fn reply<H: Wait, O: Sink>(
    rt: &H,
    alloc: Global,
    speaker: &Speaker<'_>,
    cell: &SessionCell,
    pass: &mut Pass,
    place: &mut Place,
    command: Command,
    out: &mut O,
) -> Result<(), Status>
    requires beside { IsProblemOf speaker.now.universe.now speaker.now.basis.now.problem }
    requires basis { IsFor cell.now.start speaker.now.basis.now.problem speaker.now.basis.now.table }
    requires ready { CanAnswer cell.now pass.old }
    requires choice { NamesChoice speaker.now.basis.now.problem command }
    ensures further { IsFurther pass.old pass.new }
    ensures ready { CanAnswer cell.now pass.new }
    ensures stop { pass.new.stop ≡ pass.old.stop }
    ensures later { IsLaterSink (O.state out.old) (O.state out.new) }
    ensures replied { IsReplied (script_of speaker.now) command pass.old.hand.made pass.new.hand.made (O.state out.old) (O.state out.new) result }
    ensures placed { OnOk result (IsPlaced place.new pass.new) }
{
    let Ok(said) = answer_through(rt, alloc, cell, speaker.basis, pass, command) else {
        return Err(Status::NoMemory);
    };
    place.cursor = said.cursor;
    place.deliveries = said.deliveries;
    match say_reply(alloc, speaker, &said.reply, out) {
        Ok(()) => {}
        Err(status) => return Err(status),
    }
    match end_of(&said.reply) {
        None => Ok(()),
        Some(status) => Err(status),
    }
}

// One turn: a prompt, a line, a reply. Where the run does not go on, it answers why.
pub(crate) fn turn<H: Wait, I: Source, O: Sink>(
    rt: &H,
    alloc: Global,
    speaker: &Speaker<'_>,
    cell: &SessionCell,
    pass: &mut Pass,
    place: &mut Place,
    lines: &mut u64,
    reader: &mut LineReader,
    line: &mut Vec<u8>,
    input: &mut I,
    out: &mut O,
) -> Result<(), Status>
    requires beside { IsProblemOf speaker.now.universe.now speaker.now.basis.now.problem }
    requires basis { IsFor cell.now.start speaker.now.basis.now.problem speaker.now.basis.now.table }
    requires ready { CanAnswer cell.now pass.old }
    requires placed { IsPlaced place.old pass.old }
    requires few { lines.old < most_lines }
    ensures further { IsFurther pass.old pass.new }
    ensures ready { CanAnswer cell.now pass.new }
    ensures stop { pass.new.stop ≡ pass.old.stop }
    ensures placed { OnOk result (IsPlaced place.new pass.new) }
    ensures count { OnOk result (lines.new ≡ lines.old + 1) }
    ensures goes_on { OnOk result (IsTalkerAlone pass.new.hand.seen → GoesOn (script_of speaker.now) lines.old lines.new reader.old reader.new
        (record { history = pass.old.hand.made; input = I.state input.old; out = O.state out.old })
        (record { history = pass.new.hand.made; input = I.state input.new; out = O.state out.new })) }
    ensures goes_out { IfErr result (λ status. IsTalkerAlone pass.new.hand.seen → GoesOut (script_of speaker.now) status lines.old lines.new reader.old
        (record { history = pass.old.hand.made; input = I.state input.old; out = O.state out.old })
        (record { history = pass.new.hand.made; input = I.state input.new; out = O.state out.new })) }
{
    match say_prompt(alloc, place.cursor, place.deliveries, out) {
        Ok(()) => {}
        Err(status) => return Err(status),
    }
    let command = match hear(speaker, reader, line, input) {
        Ok(command) => command,
        Err(status) => return Err(status),
    };
    *lines += 1;
    match reply(rt, alloc, speaker, cell, pass, place, command, out) {
        Ok(()) => Ok(()),
        Err(status) => Err(status),
    }
}

// The turn behind the last one that is answered: there may be no further line.
pub(crate) fn last_turn<I: Source, O: Sink>(
    alloc: Global,
    speaker: &Speaker<'_>,
    pass: &Pass,
    place: &Place,
    lines: &mut u64,
    reader: &mut LineReader,
    line: &mut Vec<u8>,
    input: &mut I,
    out: &mut O,
) -> Status
    requires beside { IsProblemOf speaker.now.universe.now speaker.now.basis.now.problem }
    requires placed { IsPlaced place.now pass.now }
    requires full { lines.old ≡ most_lines }
    ensures { IsTalkerAlone pass.now.hand.seen → GoesOut (script_of speaker.now) result lines.old lines.new reader.old
        (record { history = pass.now.hand.made; input = I.state input.old; out = O.state out.old })
        (record { history = pass.now.hand.made; input = I.state input.new; out = O.state out.new }) }
{
    let _ = pass;
    match say_prompt(alloc, place.cursor, place.deliveries, out) {
        Ok(()) => {}
        Err(status) => return status,
    }
    match hear(speaker, reader, line, input) {
        Ok(_) => {
            *lines += 1;
            Status::Limit {
                which: Which::DialogueLines,
                count: 100_001,
            }
        }
        Err(status) => status,
    }
}

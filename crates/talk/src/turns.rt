// Lines are read one by one, and each is answered before the next is read.
ghost use Rattle.std.specs.Prelude.{◌≡◌, ◌<◌, ◌+◌, [], IfErr, OnOk, MatchResult, Err};
ghost use Rattle.resolver_model.specs.Histories.{cursor_at};
ghost use Rattle.resolver_model.specs.Answers.{NamesChoice, delivery_count};
ghost use Rattle.universe_model.specs.Universes.{IsProblemOf};
ghost use Rattle.search_core.specs.Sessions.{IsFor};
ghost use Rattle.lone_search.specs.Answers.{IsAlone};
ghost use Rattle.dialogue.specs.Texts.{greeting};
ghost use Rattle.talk.specs.Transcripts.{script_of};
ghost use Rattle.talk.specs.Ends.{most_lines};
ghost use Rattle.talk.specs.Runs.{IsLaterSink, IsWritten, IsOver};
ghost use Rattle.talk.specs.Turns.{IsUnsaid, IsReplied, GoesOn, GoesOut};

use crate::Speaker;
use crate::hearing::hear;
use crate::saying::{end_of, say_greeting, say_prompt, say_reply};
use apt_base::{LineReader, Sink, Source};
use lone_search::answer_alone;
use resolver_model::Command;
use run_status::{Status, Which};
use search_core::Session;
use std::alloc::Global;

/// The most lines that are answered.
pub const MOST_LINES: u64 = 100_000;

/// Where the dialogue stands: the number of the shown solution, and how many were delivered.
#[derive(Clone, Copy)]
pub struct Place {
    pub cursor: u64,
    pub deliveries: u64,
}

// Answers a command, and writes the reply. Where the run does not go on, it answers why.
fn reply<O: Sink>(
    alloc: Global,
    speaker: &Speaker<'_>,
    session: &mut Session,
    place: &mut Place,
    command: Command,
    out: &mut O,
) -> Result<(), Status>
    requires beside { IsProblemOf speaker.now.universe.now speaker.now.basis.now.problem }
    requires basis { IsFor session.old speaker.now.basis.now.problem speaker.now.basis.now.table }
    requires alone { IsAlone session.old.setting session.old.history }
    requires choice { NamesChoice speaker.now.basis.now.problem command }
    ensures setting { session.new.setting ≡ session.old.setting }
    ensures alone { IsAlone session.new.setting session.new.history }
    ensures later { IsLaterSink (O.state out.old) (O.state out.new) }
    ensures replied { IsReplied (script_of speaker.now) command session.old.history session.new.history (O.state out.old) (O.state out.new) result }
    ensures cursor { OnOk result (place.new.cursor ≡ cursor_at session.new.history) }
    ensures deliveries { OnOk result (place.new.deliveries ≡ delivery_count session.new.history) }
{
    let Ok(said) = answer_alone(alloc, speaker.basis, session, command) else {
        return Err(Status::NoMemory);
    };
    // makes known that the history is legal
    let _ = session.history();
    place.cursor = said.cursor;
    place.deliveries = said.deliveries;
    match say_reply(alloc, speaker, &said.reply, out) {
        Ok(()) => {}
        Err(status) => return Err(status),
    }
    match end_of(&said.reply) {
        None => Ok(()),
        Some(status) => Err(status),
    }
}

// One turn: a prompt, a line, a reply. Where the run does not go on, it answers why.
fn turn<I: Source, O: Sink>(
    alloc: Global,
    speaker: &Speaker<'_>,
    session: &mut Session,
    place: &mut Place,
    lines: &mut u64,
    reader: &mut LineReader,
    line: &mut Vec<u8>,
    input: &mut I,
    out: &mut O,
) -> Result<(), Status>
    requires beside { IsProblemOf speaker.now.universe.now speaker.now.basis.now.problem }
    requires basis { IsFor session.old speaker.now.basis.now.problem speaker.now.basis.now.table }
    requires alone { IsAlone session.old.setting session.old.history }
    requires cursor { place.old.cursor ≡ cursor_at session.old.history }
    requires deliveries { place.old.deliveries ≡ delivery_count session.old.history }
    requires few { lines.old < most_lines }
    ensures setting { session.new.setting ≡ session.old.setting }
    ensures alone { IsAlone session.new.setting session.new.history }
    ensures cursor { OnOk result (place.new.cursor ≡ cursor_at session.new.history) }
    ensures deliveries { OnOk result (place.new.deliveries ≡ delivery_count session.new.history) }
    ensures count { OnOk result (lines.new ≡ lines.old + 1) }
    ensures goes_on { OnOk result (GoesOn (script_of speaker.now) lines.old lines.new reader.old reader.new
        (record { history = session.old.history; input = I.state input.old; out = O.state out.old })
        (record { history = session.new.history; input = I.state input.new; out = O.state out.new })) }
    ensures goes_out { IfErr result (λ status. GoesOut (script_of speaker.now) status lines.old lines.new reader.old
        (record { history = session.old.history; input = I.state input.old; out = O.state out.old })
        (record { history = session.new.history; input = I.state input.new; out = O.state out.new })) }
{
    match say_prompt(alloc, place.cursor, place.deliveries, out) {
        Ok(()) => {}
        Err(status) => return Err(status),
    }
    let command = match hear(speaker, reader, line, input) {
        Ok(command) => command,
        Err(status) => return Err(status),
    };
    *lines += 1;
    match reply(alloc, speaker, session, place, command, out) {
        Ok(()) => Ok(()),
        Err(status) => Err(status),
    }
}

// The turn behind the last one that is answered: there may be no further line.
fn last_turn<I: Source, O: Sink>(
    alloc: Global,
    speaker: &Speaker<'_>,
    session: &Session,
    place: &Place,
    lines: &mut u64,
    reader: &mut LineReader,
    line: &mut Vec<u8>,
    input: &mut I,
    out: &mut O,
) -> Status
    requires beside { IsProblemOf speaker.now.universe.now speaker.now.basis.now.problem }
    requires cursor { place.now.cursor ≡ cursor_at session.now.history }
    requires deliveries { place.now.deliveries ≡ delivery_count session.now.history }
    requires full { lines.old ≡ most_lines }
    ensures { GoesOut (script_of speaker.now) result lines.old lines.new reader.old
        (record { history = session.now.history; input = I.state input.old; out = O.state out.old })
        (record { history = session.now.history; input = I.state input.new; out = O.state out.new }) }
{
    match say_prompt(alloc, place.cursor, place.deliveries, out) {
        Ok(()) => {}
        Err(status) => return status,
    }
    match hear(speaker, reader, line, input) {
        Ok(_) => {
            *lines += 1;
            Status::Limit {
                which: Which::DialogueLines,
                count: 100_001,
            }
        }
        Err(status) => status,
    }
}

/// Writes the greeting, and gives a reader of lines.
pub fn begin<O: Sink>(
    alloc: Global,
    speaker: &Speaker<'_>,
    out: &mut O,
) -> Result<LineReader, Status>
    ensures later { IsLaterSink (O.state out.old) (O.state out.new) }
    ensures begun { MatchResult result (λ reader. (reader ≡ []) × IsWritten (O.state out.old) (O.state out.new) (greeting speaker.now.basis.now.problem))
        (IsUnsaid (greeting speaker.now.basis.now.problem) (O.state out.old) (O.state out.new)) }
{
    let Ok(reader) = LineReader::new(alloc) else {
        return Err(Status::NoMemory);
    };
    match say_greeting(alloc, speaker, out) {
        Ok(()) => Ok(reader),
        Err(status) => Err(status),
    }
}

/// Speaks with the user until a solution is accepted, the user quits, the input ends, a fault comes or there is too much of
/// something: writes the greeting, and then for each line a prompt and the reply. The session has no entries and one actor,
/// and its problem is one of the universe. `lines` counts the lines that were read, from 0. It answers why the run ended.
pub fn converse<I: Source, O: Sink>(
    alloc: Global,
    speaker: &Speaker<'_>,
    session: &mut Session,
    lines: &mut u64,
    input: &mut I,
    out: &mut O,
) -> Status
    requires beside { IsProblemOf speaker.now.universe.now speaker.now.basis.now.problem }
    requires basis { IsFor session.old speaker.now.basis.now.problem speaker.now.basis.now.table }
    requires alone { session.old.setting.actors ≡ 1 }
    requires no_entry { session.old.history ≡ [] }
    requires no_line { lines.old ≡ 0 }
    ensures setting { session.new.setting ≡ session.old.setting }
    ensures over { IsOver (script_of speaker.now) result lines.new
        (record { history = session.old.history; input = I.state input.old; out = O.state out.old })
        (record { history = session.new.history; input = I.state input.new; out = O.state out.new }) }
{
    let mut reader = match begin(alloc, speaker, out) {
        Ok(reader) => reader,
        Err(status) => return status,
    };
    let mut line = Vec::new(alloc);
    let mut place = Place {
        cursor: 0,
        deliveries: 0,
    };
    for _ in 0..MOST_LINES {
        match turn(
            alloc,
            speaker,
            session,
            &mut place,
            lines,
            &mut reader,
            &mut line,
            input,
            out,
        ) {
            Ok(()) => {}
            Err(status) => return status,
        }
    }
    last_turn(
        alloc,
        speaker,
        session,
        &place,
        lines,
        &mut reader,
        &mut line,
        input,
        out,
    )
}

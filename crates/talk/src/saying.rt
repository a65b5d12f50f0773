// What is said to the user.
ghost use Rattle.std.specs.Prelude.{◌≡◌};
ghost use Rattle.universe_model.specs.Universes.{IsProblemOf};
ghost use Rattle.dialogue.specs.Texts.{greeting, prompt, HasCost};
ghost use Rattle.talk.specs.Transcripts.{script_of, reply_of, end_of};
ghost use Rattle.talk.specs.Runs.{IsLaterSink};
ghost use Rattle.talk.specs.Turns.{IsSaid};

use crate::Speaker;
use apt_base::{Sink, write_all};
use dialogue::{greeting_text, prompt_text, reply_text};
use resolver_model::Reply;
use run_status::Status;
use std::alloc::Global;

// Writes a text.
fn say<O: Sink>(out: &mut O, text: &[u8]) -> Result<(), Status>
    ensures later { IsLaterSink (O.state out.old) (O.state out.new) }
    ensures said { IsSaid text.now (O.state out.old) (O.state out.new) result }
{
    match write_all(out, text) {
        Ok(()) => Ok(()),
        Err(_) => Err(Status::WriteFault),
    }
}

/// Writes the greeting.
pub fn say_greeting<O: Sink>(
    alloc: Global,
    speaker: &Speaker<'_>,
    out: &mut O,
) -> Result<(), Status>
    ensures later { IsLaterSink (O.state out.old) (O.state out.new) }
    ensures said { IsSaid (greeting speaker.now.basis.now.problem) (O.state out.old) (O.state out.new) result }
{
    let mut text = Vec::new(alloc);
    match greeting_text(alloc, speaker.universe, speaker.basis, &mut text) {
        Ok(()) => say(out, text.as_slice()),
        Err(_) => Err(Status::NoMemory),
    }
}

/// Writes the prompt.
pub fn say_prompt<O: Sink>(
    alloc: Global,
    cursor: u64,
    deliveries: u64,
    out: &mut O,
) -> Result<(), Status>
    ensures later { IsLaterSink (O.state out.old) (O.state out.new) }
    ensures said { IsSaid (prompt cursor deliveries) (O.state out.old) (O.state out.new) result }
{
    let mut text = Vec::new(alloc);
    match prompt_text(alloc, cursor, deliveries, &mut text) {
        Ok(()) => say(out, text.as_slice()),
        Err(_) => Err(Status::NoMemory),
    }
}

/// Writes a reply.
pub fn say_reply<O: Sink>(
    alloc: Global,
    speaker: &Speaker<'_>,
    reply: &Reply,
    out: &mut O,
) -> Result<(), Status>
    requires beside { IsProblemOf speaker.now.universe.now speaker.now.basis.now.problem }
    requires cost { HasCost speaker.now.basis.now.problem reply.now }
    ensures later { IsLaterSink (O.state out.old) (O.state out.new) }
    ensures said { IsSaid (reply_of (script_of speaker.now) reply.now) (O.state out.old) (O.state out.new) result }
{
    let mut text = Vec::new(alloc);
    match reply_text(alloc, speaker.universe, speaker.basis, reply, &mut text) {
        Ok(()) => say(out, text.as_slice()),
        Err(_) => Err(Status::NoMemory),
    }
}

/// The end that a reply makes, if it makes one.
pub fn end_of(reply: &Reply) -> Option<Status>
    ensures { result ≡ end_of reply.now }
{
    match reply {
        Reply::Accepted => Some(Status::Accepted),
        Reply::Ended => Some(Status::Ended),
        _ => None,
    }
}

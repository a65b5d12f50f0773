//! The dialogue over a session with one actor: a greeting, and for each line of the input a prompt and a reply, until an end
//! that has its cause. Each reply is written before the next line is read. What is written of a history stands in
//! `specs/Transcripts.antt`, why a run ends in `specs/Ends.antt`, and all that is promised of one in `specs/Runs.antt`.
#![tactic(auto)]

mod hearing;
mod saying;
mod turns;

use basis::Basis;
pub use hearing::hear;
pub use saying::{end_of, say_greeting, say_prompt, say_reply};
pub use turns::{MOST_LINES, Place, begin, converse};
use universe::Universe;

/// What lines and texts speak of: a universe, and the problem and the costs of a search.
#[derive(Clone, Copy, Drop)]
pub struct Speaker<'a> {
    pub universe: &'a Universe,
    pub basis: &'a Basis,
}

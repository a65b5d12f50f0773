//! The dialogue's words and texts: which command a line is, and what is printed (after the "next solution" dialogue of
//! aptitude). Names and tokens are those of a universe. A new command begins in `specs/Lines.antt` and `verbs`, a new
//! reply in `specs/Texts.antt` and `replies`.
#![tactic(auto)]

mod choices;
mod laws;
mod lines;
mod numbers;
mod pieces;
mod replies;
mod texts;
mod verbs;

pub use laws::{lines_say_commands, texts_are_printed};
pub use lines::read_command;
pub use replies::reply_text;
pub use texts::{greeting_text, prompt_text};

//! The dialogue over a shared session: a greeting, and for each line of the input a prompt and a reply, as over a session with one
//! actor. Each turn is a round, in which the other actors search on. What is promised of a run stands in `specs/Shared.antt`.
#![tactic(auto)]

mod rounds;
mod turns;

pub use rounds::{converse_and_close, converse_shared};

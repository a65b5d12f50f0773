//! Which versions meet an item of a relationship field (Debian Policy 7.1 and 7.5), found by the names that they carry or
//! provide.
#![tactic(auto)]

mod carried;
mod crowd;
mod crowds;
mod found;
mod given;
mod index;
mod items;
mod keys;
mod members;
mod named;
mod naming;
mod provided;
mod ranges;
mod rows;
mod sides;
mod table;
mod targets;

pub use index::MeetingIndex;
pub use keys::{AnswerKey, Span};
pub use targets::Targets;

//! One session that threads share, each through a pass of its own. Its calls take turns, and each of them is a call of the session: what a pass has seen is a legal history, and what it has made is there just once.
#![tactic(auto)]

mod cell;
mod inside;
mod next;
mod pass;
mod stopping;

pub use cell::SessionCell;
pub use next::Next;
pub use pass::Pass;

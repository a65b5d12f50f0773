//! The words of the resolver's contracts, and the types that a session's history is made of.
//!
//! The definitions of `specs/` say what a dependency problem is and which sets of choices solve it, after Burrows,
//! "Modelling and Resolving Software Dependencies" (2005), how sets are compared by cost, what a user's rules bar, and
//! which reply to a command is right after a history. They judge finite sets over the whole problem, and know no queue,
//! bound or thread. The types below are the parts of a history that programs keep: commands and replies after the
//! "next solution" dialogue of aptitude, and the steps of a search tree.
#![tactic(auto)]

mod costs;
mod history;
mod lines;
mod marks;
mod node;

pub use choice_set::{ChoiceSet, NoMemory};
pub use costs::Cost;
pub use history::{BadLine, By, Command, Entry, Reply};
pub use lines::{Bound, Line, Lines};
pub use marks::{Caps, Mark, Marks};
pub use node::Node;

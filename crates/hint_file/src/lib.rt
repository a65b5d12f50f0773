//! Hint files: marks on choices and amounts added at cost names, read over a universe; and the prices of all choices at the levels of
//! a cost spec.
//!
//! A cost name's own amount is in `src/cost_names.rt` and `src/counting.rt`; what hints add is in the crate `hint_effects`.
#![tactic(auto)]

mod cost_names;
mod counting;
mod ends;
mod hints;
mod prices;
mod rows;
mod setting;
mod targets;

pub use ends::{HintEnd, PriceEnd};
pub use hints::Hints;
pub use prices::price;

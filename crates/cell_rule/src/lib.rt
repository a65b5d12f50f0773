//! The rule by which threads take turns with one session: what each of them knows between two steps, and what a step tells it.
#![tactic(auto)]

pub mod rule;
pub mod stop;
pub mod view;

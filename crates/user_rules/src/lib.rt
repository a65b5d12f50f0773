//! The rules that a user sets on choices and costs.
#![tactic(auto)]

mod caps;
mod marked;
mod rules;

pub use resolver_model::Mark;
pub use rules::Rules;

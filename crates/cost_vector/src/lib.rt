//! What sets of choices cost: tables of amounts, the costs of sets, and their order.
#![tactic(auto)]

mod cost_spec;
mod reader;
mod table;

pub use cost_spec::{CostName, CostSpec, Level, SpecEnd, Term, Terms, is_cost_name, small_number};
pub use resolver_model::Cost;
pub use table::{CostTable, compare};

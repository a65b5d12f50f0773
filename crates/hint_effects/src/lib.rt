//! What hints do to the choices of a problem: marks, and amounts that are added at cost names. A hint is on a choice by its number, or
//! on all choices that install a version of a package beside absent.
#![tactic(auto)]

mod by_target;
mod marking;
mod numbers;
mod sums;

pub use by_target::ByTarget;
use cost_vector::CostName;
pub use marking::rules_of;
use resolver_model::Mark;
pub use sums::{PAST_AMOUNT, added_at, sums_of, with_times};

/// What a hint is on.
#[derive(Clone, Copy, Debug)]
pub enum Target {
    /// The choice with this number, in each problem where it is one.
    One(u32),
    /// The choices that install a version of the package with this number, other than absent.
    Whole(u32),
    /// No choice.
    Nothing,
}

/// A hint: a mark on its target, or an amount that each choice of its target has more at a cost name.
#[derive(Debug, Drop)]
pub enum Hint {
    Marks {
        mark: Mark,
        target: Target,
    },
    Adds {
        amount: u64,
        name: CostName,
        target: Target,
    },
}

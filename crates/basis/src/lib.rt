//! What a search is about: a dependency problem, and what its choices cost. Every answer of a session is over one of these.
#![tactic(auto)]

ghost use Rattle.std.specs.Prelude.{◌≡◌, ◌+◌};
ghost use Rattle.resolver_model.specs.Problems.{version_count, dependency_count};

use cost_vector::CostTable;
use problem::Problem;

/// A problem with a table of amounts that has a place for each number of its choices: the versions' numbers, and behind
/// them one for each dependency.
#[derive(Debug, Drop)]
pub struct Basis {
    pub problem: Problem,
    pub table: CostTable,
    pub ghost fits: { table.choices ≡ version_count problem + dependency_count problem },
}

//! What the texts of a case speak of: the universe of two files, and a problem beside it with its table.

ghost use Rattle.std.specs.Prelude.{◌≡◌, ◌<◌, ◌+◌, IfSome};
ghost use Rattle.resolver_model.specs.Problems.{version_count, dependency_count};
ghost use Rattle.universe_model.specs.Universes.{IsProblemOf};

use basis::Basis;
use cost_vector::CostTable;
use problem::Problem;
use std::alloc::Global;
use universe::Universe;
use wanted::{Wanted, to_problem};

/// A universe, and a problem beside it with its table.
#[derive(Drop)]
pub struct Scene {
    pub universe: Universe,
    pub basis: Basis,
    pub ghost beside: { IsProblemOf universe basis.problem },
}

// Gives a choice the amount 1 at a level.
fn price(table: &mut CostTable, level: usize, choice: u32)
    ensures { table.new.choices ≡ table.old.choices }
{
    if level < table.levels() && choice < table.choices() {
        table.set(level, choice, 1);
    }
}

// Prices the choice of a version: a removal at the first level, a version of a package with an action at the second.
fn price_version(problem: &Problem, wanted: &Wanted, version: u32, table: &mut CostTable)
    requires { version < version_count problem.now }
    ensures { table.new.choices ≡ table.old.choices }
{
    let package = problem.package_of(version);
    if problem.absent_of(package) == version && problem.start_of(package) != version {
        price(table, 0, version);
    }
    if wanted.names(package) {
        price(table, 1, version);
    }
}

fn price_versions(problem: &Problem, wanted: &Wanted, table: &mut CostTable)
    ensures { table.new.choices ≡ table.old.choices }
{
    for version in 0..problem.versions() {
        price_version(problem, wanted, version, table);
    }
}

// A table with the levels `removals` and `canceled`.
fn table_of(
    alloc: Global,
    universe: &Universe,
    wanted: &Wanted,
    problem: &Problem,
) -> Option<CostTable>
    ensures { IfSome result (λ table. table.choices ≡ version_count problem.now + dependency_count problem.now) }
{
    let choices = problem.versions() + problem.deps();
    let Ok(mut table) = CostTable::new(alloc, &[false, false], choices) else {
        return None;
    };
    price_versions(universe.problem(), wanted, &mut table);
    Some(table)
}

/// The universe of two texts, and the problem and the table that actions give; `None` where one of these refuses.
pub fn scene_of(
    alloc: Global,
    status: &[u8],
    packages: &[u8],
    actions: &[String],
) -> Option<Scene> {
    let Ok(universe) = Universe::build(alloc, status, packages, b"amd64") else {
        return None;
    };
    let Ok(wanted) = Wanted::read(alloc, &universe, actions) else {
        return None;
    };
    let Ok(problem) = to_problem(alloc, &universe, &wanted) else {
        return None;
    };
    let table = table_of(alloc, &universe, &wanted, &problem)?;
    let basis = Basis { problem, table };
    Some(Scene { universe, basis })
}

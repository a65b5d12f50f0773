// What a session stands on.
ghost use Rattle.std.specs.Prelude.{◌≡◌, ◌≤◌, ℕ, IfOk, MatchResult, None};
ghost use Rattle.hint_effects.specs.Effects.{rules_of};
ghost use Rattle.hint_file.specs.CostNames.{scene};
ghost use Rattle.hint_file.specs.Prices.{table_of};
ghost use Rattle.resolve_words.specs.Given.{given_by};
ghost use Rattle.run_status.specs.declared.Status.TheVariants as status;
ghost use Rattle.search_core.specs.Begins.{MayBegin};
ghost use Rattle.sources.specs.Sources.{sources_of};
ghost use Rattle.universe_model.specs.Universes.{IsProblemOf, problem_from};
ghost use Rattle.wanted.specs.Wanting.{starts_with, IsOf};
ghost use Rattle.grounds.specs.Grounds.{price_refusal, refusal, IsRefused, IsGround};

use crate::reading::{read_actions, read_hints, read_universe};
use basis::Basis;
use cost_vector::{CostSpec, CostTable};
use hint_file::{Hints, PriceEnd, price};
use problem::Problem;
use resolve_words::Settings;
use run_status::Status;
use sources::Sources;
use std::alloc::Global;
use universe::Universe;
use user_rules::Rules;
use wanted::{Wanted, to_problem};

/// What a session stands on: a universe, a problem of it with its costs, and the rules that it begins with.
#[derive(Drop)]
pub struct Ground {
    pub universe: Universe,
    pub basis: Basis,
    pub rules: Rules,
}

// The problem with the start versions that the actions ask for.
fn begin_problem(alloc: Global, universe: &Universe, wanted: &Wanted) -> Result<Problem, Status>
    requires { IsOf universe.now wanted.now }
    ensures { MatchResult result
        (λ problem. problem ≡ problem_from universe.now (starts_with universe.now wanted.now))
        (λ end. end ≡ status.NoMemory) }
{
    match to_problem(alloc, universe, wanted) {
        Ok(problem) => Ok(problem),
        Err(_) => Err(Status::NoMemory),
    }
}

// The amounts of the choices at the levels of a cost spec.
fn price_choices(
    alloc: Global,
    universe: &Universe,
    problem: &Problem,
    wanted: &Wanted,
    spec: &CostSpec,
    hints: &Hints,
) -> Result<CostTable, Status>
    requires { IsProblemOf universe.now problem.now }
    ensures { MatchResult result
        (λ table. (price_refusal (scene universe.now problem.now wanted.now) hints.now spec.now ≡ None)
        × (table ≡ table_of (scene universe.now problem.now wanted.now) hints.now spec.now))
        (IsRefused (price_refusal (scene universe.now problem.now wanted.now) hints.now spec.now)) }
{
    match price(alloc, universe, problem, wanted, spec, hints) {
        Ok(table) => Ok(table),
        Err(PriceEnd::Limit { which, count }) => Err(Status::Limit { which, count }),
        Err(PriceEnd::NoMemory) => Err(Status::NoMemory),
    }
}

// The rules that hints set.
fn begin_rules(alloc: Global, problem: &Problem, hints: &Hints) -> Result<Rules, Status>
    ensures { MatchResult result (λ rules. rules ≡ rules_of problem.now hints.now) (λ end. end ≡ status.NoMemory) }
{
    match hints.rules(alloc, problem) {
        Ok(rules) => Ok(rules),
        Err(_) => Err(Status::NoMemory),
    }
}

/// The universe of the texts, its problem with the start versions that the actions ask for, the amounts of its choices at the
/// levels of the cost spec, and the rules that the hints set. Else the first refusal: of the status and the packages text, then of
/// the hints, of the actions, and of the prices; or `NoMemory`. A session may begin with these, and speak of that universe.
pub fn make_ground(alloc: Global, settings: &Settings, sources: &Sources) -> Result<Ground, Status>
    ensures ground { MatchResult result (IsGround (given_by settings.now) (sources_of sources.now)) (IsRefused (refusal (given_by settings.now) (sources_of sources.now))) }
    ensures beside { IfOk result (λ ground. IsProblemOf ground.universe ground.basis.problem) }
    ensures begins { IfOk result (λ ground. (actors : ℕ) → 1 ≤ actors → MayBegin ground.basis.problem ground.basis.table ground.rules settings.now.slice actors) }
{
    let universe = read_universe(alloc, settings, sources)?;
    let hints = read_hints(alloc, &universe, sources.hints.as_slice())?;
    let wanted = read_actions(alloc, &universe, settings.actions.as_slice())?;
    let problem = begin_problem(alloc, &universe, &wanted)?;
    let table = price_choices(alloc, &universe, &problem, &wanted, &settings.cost, &hints)?;
    let rules = begin_rules(alloc, &problem, &hints)?;
    Ok(Ground {
        universe,
        basis: Basis { problem, table },
        rules,
    })
}

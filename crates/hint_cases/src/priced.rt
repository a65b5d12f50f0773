//! What files, hints and actions make of a problem: its marks and its prices.

ghost use Rattle.std.specs.Prelude.{◌≡◌, nat_lt};
ghost use Rattle.std.specs.List.{list_all};
ghost use Rattle.universe_model.specs.Universes.{IsProblemOf};
ghost use Rattle.wanted.specs.Wanting.{IsOf};

use crate::settings::write_usage;
use choice_set::ChoiceSet;
use cost_vector::{Cost, CostTable};
use hint_file::{HintEnd, Hints, PriceEnd, price};
use problem::Problem;
use resolve_words::{Settings, UsageFault};
use resolver_model::{Mark, NoMemory};
use std::alloc::Global;
use std::rt::Files;
use std::{fs, io};
use universe::{BuildEnd, Universe};
use wanted::{Wanted, WantedEnd, to_problem};

// Bytes as text; `?` where they are none.
fn text(bytes: &[u8]) -> &str {
    std::str::from_utf8(bytes).unwrap_or("?")
}

// The bytes of a file; none where there is no such file.
fn read_file<R: Files + AllocGlobal>(rt: &R, name: &Option<String>) -> Vec<u8> {
    let Some(name) = name else {
        return Vec::new(rt.alloc());
    };
    match fs::read(rt, name.as_str()) {
        Ok(text) => text,
        Err(_) => Vec::new(rt.alloc()),
    }
}

// Writes the token of a choice.
fn write_token<R: AllocGlobal + Print>(
    rt: &R,
    universe: &Universe,
    problem: &Problem,
    choice: u32,
) -> io::Result<()>
    requires { IsProblemOf universe.now problem.now }
{
    let mut token = Vec::new(rt.alloc());
    match universe.token(problem, choice, &mut token) {
        Ok(()) => print!(rt; "  {}", text(&token)),
        Err(NoMemory) => print!(rt; "  no memory"),
    }
}

// Whether all numbers of a set have amounts in a table.
fn is_priced(table: &CostTable, set: &ChoiceSet) -> bool
    ensures { result ≡ list_all (λ c. nat_lt c table.now.choices) set.now }
{
    let count = table.choices();
    set.as_slice().iter().all(|choice| *choice < count)
}

fn write_cost<R: AllocGlobal + Print>(
    rt: &R,
    table: &CostTable,
    set: &ChoiceSet,
) -> io::Result<()> {
    if !is_priced(table, set) {
        return println!(rt; " no price");
    }
    let Ok(cost) = table.cost(rt.alloc(), set) else {
        return println!(rt; " no memory");
    };
    write_parts(rt, &cost)
}

fn write_parts(rt: &impl Print, cost: &Cost) -> io::Result<()> {
    for part in cost.parts() {
        print!(rt; " {part}")?;
    }
    println!(rt)
}

// Writes the price of each choice: its amount at each level, and 1 for itself.
fn write_prices<R: AllocGlobal + Print>(
    rt: &R,
    universe: &Universe,
    problem: &Problem,
    table: &CostTable,
) -> io::Result<()>
    requires { IsProblemOf universe.now problem.now }
{
    for choice in 0..table.choices() {
        if problem.is_choice(choice) {
            let Ok(set) = ChoiceSet::empty(rt.alloc()).with(rt.alloc(), choice) else {
                return println!(rt; "no memory");
            };
            write_token(rt, universe, problem, choice)?;
            write_cost(rt, table, &set)?;
        }
    }
    Ok(())
}

// Writes the marks that hints set.
fn write_marks<R: AllocGlobal + Print>(
    rt: &R,
    universe: &Universe,
    problem: &Problem,
    hints: &Hints,
) -> io::Result<()>
    requires { IsProblemOf universe.now problem.now }
{
    let Ok(rules) = hints.rules(rt.alloc(), problem) else {
        return println!(rt; "no memory");
    };
    let Ok(marked) = rules.marked(rt.alloc()) else {
        return println!(rt; "no memory");
    };
    for (choice, mark) in marked.as_slice() {
        write_token(rt, universe, problem, *choice)?;
        match mark {
            Mark::Approved => println!(rt; " approved")?,
            Mark::Rejected => println!(rt; " rejected")?,
            Mark::Free => println!(rt; " free")?,
        }
    }
    Ok(())
}

// The set of the choices of tokens; a word that names none is passed over.
fn set_of(
    alloc: Global,
    universe: &Universe,
    problem: &Problem,
    tokens: &str,
) -> Result<ChoiceSet, NoMemory>
    requires { IsProblemOf universe.now problem.now }
{
    let mut set = ChoiceSet::empty(alloc);
    for token in tokens.split(' ') {
        if let Ok(choice) = universe.choice_of(problem, token.as_bytes()) {
            set = set.with(alloc, choice)?;
        }
    }
    Ok(set)
}

fn write_priced<R: AllocGlobal + Print>(
    rt: &R,
    universe: &Universe,
    wanted: &Wanted,
    settings: &Settings,
    hints: &Hints,
    set: &str,
) -> io::Result<()>
    requires { IsOf universe.now wanted.now }
{
    let Ok(problem) = to_problem(rt.alloc(), universe, wanted) else {
        return println!(rt; "no memory");
    };
    write_marks(rt, universe, &problem, hints)?;
    match price(
        rt.alloc(),
        universe,
        &problem,
        wanted,
        &settings.cost,
        hints,
    ) {
        Ok(table) => {
            write_prices(rt, universe, &problem, &table)?;
            if set.is_empty() {
                return Ok(());
            }
            let Ok(choices) = set_of(rt.alloc(), universe, &problem, set) else {
                return println!(rt; "no memory");
            };
            print!(rt; "  {set}:")?;
            write_cost(rt, &table, &choices)
        }
        Err(PriceEnd::Limit { which, count }) => println!(rt; "limit of {which:?}, {count}"),
        Err(PriceEnd::NoMemory) => println!(rt; "no memory"),
    }
}

fn write_universe<R: Files + AllocGlobal + Print>(
    rt: &R,
    universe: &Universe,
    settings: &Settings,
    set: &str,
) -> io::Result<()> {
    let hints = match Hints::read(rt.alloc(), &read_file(rt, &settings.hints), universe) {
        Ok(hints) => hints,
        Err(HintEnd::HintFault { line, kind }) => {
            return println!(rt; "hints, line {line}: {kind:?}");
        }
        Err(HintEnd::NoMemory) => return println!(rt; "no memory"),
    };
    match Wanted::read(rt.alloc(), universe, &settings.actions) {
        Ok(wanted) => write_priced(rt, universe, &wanted, settings, &hints, set),
        Err(WantedEnd::BadAction { word }) => write_usage(rt, UsageFault::Action { word }),
        Err(WantedEnd::NoMemory) => println!(rt; "no memory"),
    }
}

/// Writes what the files of settings make, if files are named.
pub fn run_files<R: Files + AllocGlobal + Print>(
    rt: &R,
    settings: &Settings,
    set: &str,
) -> io::Result<()> {
    if settings.sample.is_some() {
        return Ok(());
    }
    let status = read_file(rt, &settings.status);
    let packages = read_file(rt, &settings.packages);
    match Universe::build(rt.alloc(), &status, &packages, settings.arch.as_bytes()) {
        Ok(universe) => write_universe(rt, &universe, settings, set),
        Err(BuildEnd::BadInput { file, line, kind }) => {
            println!(rt; "{file:?}, line {line}: {kind:?}")
        }
        Err(BuildEnd::Limit { which, count }) => println!(rt; "limit of {which:?}, {count}"),
        Err(BuildEnd::NoMemory) => println!(rt; "no memory"),
    }
}

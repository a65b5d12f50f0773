//! Goes down one path of the search tree of a status file, a packages file and some actions, and says how many choices it
//! took; then makes the open list at its end anew, and the list after one more choice, as often as it is told to. It may keep
//! further copies of the problem. How long that takes, and how much memory, is measured from outside.
#![tactic(auto)]

ghost use Rattle.std.specs.Prelude.{◌≡◌, IfOk};
ghost use Rattle.broken_deps.specs.Opening.{open_deps};

use broken_deps::BrokenList;
use choice_set::{ChoiceSet, NoMemory};
use problem::Problem;
use std::alloc::Global;
use std::{env, fs, io};
use universe::{BuildEnd, Universe};
use wanted::{Wanted, WantedEnd};

// A set of choices with the list of what is open at it.
#[derive(Drop)]
struct Place {
    set: ChoiceSet,
    list: BrokenList,
}

// How often the two lists are made.
#[derive(Clone, Copy)]
struct Times {
    choices: u32,
    plain: u32,
    after: u32,
    copies: u32,
}

// The last resolver of the first open dependency, if there is one.
fn next_choice(alloc: Global, problem: &Problem, place: &Place) -> Result<Option<u32>, NoMemory> {
    let Some(dep) = place.list.first() else {
        return Ok(None);
    };
    if dep >= problem.deps() || !problem.is_open(&place.set, dep) {
        return Ok(None);
    }
    let resolvers = problem.resolvers(alloc, dep, &place.set)?;
    Ok(resolvers.as_slice().last().copied())
}

// The place with one more choice.
fn step(alloc: Global, problem: &Problem, place: &Place, choice: u32) -> Result<Place, NoMemory>
    requires { place.now.list ≡ open_deps problem.now place.now.set }
    ensures { IfOk result (λ place. place.list ≡ open_deps problem.now place.set) }
{
    let list = place.list.after(alloc, problem, &place.set, choice)?;
    let set = place.set.with(alloc, choice)?;
    Ok(Place { set, list })
}

// The place at the empty set.
fn start(alloc: Global, problem: &Problem) -> Result<Place, NoMemory>
    ensures { IfOk result (λ place. place.list ≡ open_deps problem.now place.set) }
{
    let set = ChoiceSet::empty(alloc);
    let list = BrokenList::plain(alloc, problem, &set)?;
    Ok(Place { set, list })
}

// The place after so many choices, or where nothing is open or has no resolver.
fn descend(alloc: Global, problem: &Problem, choices: u32) -> Result<Place, NoMemory>
    ensures { IfOk result (λ place. place.list ≡ open_deps problem.now place.set) }
{
    let mut place = start(alloc, problem)?;
    for _ in 0..choices {
        let Some(choice) = next_choice(alloc, problem, &place)? else {
            return Ok(place);
        };
        place = step(alloc, problem, &place, choice)?;
    }
    Ok(place)
}

// Makes the list at a set so many times, and adds up the least of each.
fn plain_sum(
    alloc: Global,
    problem: &Problem,
    set: &ChoiceSet,
    times: u32,
) -> Result<u64, NoMemory> {
    let mut sum: u64 = 0;
    for _ in 0..times {
        let list = BrokenList::plain(alloc, problem, set)?;
        sum = sum.wrapping_add(u64::from(list.first().unwrap_or(0)));
    }
    Ok(sum)
}

// Makes the list after one more choice so many times, and adds up the least of each.
fn after_sum(alloc: Global, problem: &Problem, place: &Place, times: u32) -> Result<u64, NoMemory>
    requires { place.now.list ≡ open_deps problem.now place.now.set }
{
    let mut sum: u64 = 0;
    let Some(choice) = next_choice(alloc, problem, place)? else {
        return Ok(sum);
    };
    for _ in 0..times {
        let list = place.list.after(alloc, problem, &place.set, choice)?;
        sum = sum.wrapping_add(u64::from(list.first().unwrap_or(0)));
    }
    Ok(sum)
}

// What is printed of a problem.
#[derive(Drop)]
struct Found {
    broken: usize,
    choices: usize,
    plain: u64,
    after: u64,
}

fn find(alloc: Global, problem: &Problem, times: Times) -> Result<Found, NoMemory> {
    let place = descend(alloc, problem, times.choices)?;
    Ok(Found {
        broken: problem.broken_at_start().len(),
        choices: place.set.len(),
        plain: plain_sum(alloc, problem, &place.set, times.plain)?,
        after: after_sum(alloc, problem, &place, times.after)?,
    })
}

// Further copies of the problem of a universe with some actions.
fn copies(
    alloc: Global,
    universe: &Universe,
    words: &[String],
    count: u32,
) -> Result<Vec<Problem>, WantedEnd> {
    let mut list = Vec::new(alloc);
    for _ in 0..count {
        let Ok(()) = list.push(wish(alloc, universe, words)?) else {
            return Err(WantedEnd::NoMemory);
        };
    }
    Ok(list)
}

// The problem of a universe with some actions.
fn wish(alloc: Global, universe: &Universe, words: &[String]) -> Result<Problem, WantedEnd> {
    let wanted = Wanted::read(alloc, universe, words)?;
    match wanted::to_problem(alloc, universe, &wanted) {
        Ok(problem) => Ok(problem),
        Err(_) => Err(WantedEnd::NoMemory),
    }
}

// How many targets all dependencies have together.
fn target_count(problem: &Problem) -> u64 {
    let mut count: u64 = 0;
    for dep in 0..problem.deps() {
        count = count.wrapping_add(problem.targets(dep).len() as u64);
    }
    count
}

fn number(word: Option<String>) -> u32 {
    match word {
        Some(word) => word.as_str().parse::<u32>().unwrap_or(0),
        None => 0,
    }
}

// A refusal that was told: the program ends with a status other than 0.
fn refuse(told: io::Result<()>) -> io::Result<()> {
    told?;
    Err(io::Error::from(io::ErrorKind::InvalidInput))
}

fn run(rt: &HostRuntime, universe: &Universe, words: &[String], times: Times) -> io::Result<()> {
    let Ok(problem) = wish(rt.alloc(), universe, words) else {
        return refuse(println!(rt; "no such action"));
    };
    let Ok(copies) = copies(rt.alloc(), universe, words, times.copies) else {
        return refuse(println!(rt; "no memory"));
    };
    match find(rt.alloc(), &problem, times) {
        Ok(found) => println!(rt;
            "{} packages, {} versions, {} dependencies on {}, {} broken at the start, {} choices: {} {}, {} copies",
            problem.packages(),
            problem.versions(),
            problem.deps(),
            target_count(&problem),
            found.broken,
            found.choices,
            found.plain,
            found.after,
            copies.len()
        ),
        Err(_) => refuse(println!(rt; "no memory")),
    }
}

fn main(rt: HostRuntime) -> io::Result<()> {
    let mut words = env::args(&rt)?;
    let _program = words.next();
    let (Some(status), Some(packages)) = (words.next(), words.next()) else {
        return refuse(println!(rt;
            "usage: step_bench STATUS PACKAGES CHOICES PLAIN AFTER COPIES [ACTION ...]"
        ));
    };
    let times = Times {
        choices: number(words.next()),
        plain: number(words.next()),
        after: number(words.next()),
        copies: number(words.next()),
    };
    let mut actions = Vec::new(rt.alloc());
    for word in words {
        actions.push(word)?;
    }
    let status = fs::read(&rt, status.as_str())?;
    let packages = fs::read(&rt, packages.as_str())?;
    match Universe::build(rt.alloc(), &status, &packages, b"amd64") {
        Ok(universe) => run(&rt, &universe, actions.as_slice(), times),
        Err(BuildEnd::BadInput { file, line, kind }) => {
            refuse(println!(rt; "{file:?}, line {line}: {kind:?}"))
        }
        Err(BuildEnd::Limit { which, count }) => refuse(println!(rt; "{which:?}: {count}")),
        Err(BuildEnd::NoMemory) => refuse(println!(rt; "no memory")),
    }
}

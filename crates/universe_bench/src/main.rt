//! Builds the universe of a status file and a packages file, and prints how many packages, versions and dependencies it has,
//! and how many of these are broken in the installed state.
#![tactic(auto)]

use choice_set::ChoiceSet;
use problem::Problem;
use std::alloc::Global;
use std::{env, fs, io};
use universe::{BuildEnd, Universe};

// How many dependencies are broken where the start versions stand.
fn count_broken(alloc: Global, problem: &Problem) -> u32 {
    let none = ChoiceSet::empty(alloc);
    let mut count = 0;
    for dep in 0..problem.deps() {
        if problem.is_broken(&none, dep) {
            count += 1;
        }
    }
    count
}

// A refusal that was told: the program ends with a status other than 0.
fn refuse(told: io::Result<()>) -> io::Result<()> {
    told?;
    Err(io::Error::from(io::ErrorKind::InvalidInput))
}

fn main(rt: HostRuntime) -> io::Result<()> {
    let mut words = env::args(&rt)?;
    let _program = words.next();
    let (Some(status), Some(packages)) = (words.next(), words.next()) else {
        return refuse(println!(rt; "usage: universe_bench STATUS PACKAGES"));
    };
    let status = fs::read(&rt, status.as_str())?;
    let packages = fs::read(&rt, packages.as_str())?;
    match Universe::build(rt.alloc(), &status, &packages, b"amd64") {
        Ok(universe) => {
            let problem = universe.problem();
            println!(rt;
                "{} packages, {} versions, {} dependencies, {} broken",
                problem.packages(),
                problem.versions() - problem.packages(),
                problem.deps(),
                count_broken(rt.alloc(), problem)
            )
        }
        Err(BuildEnd::BadInput { file, line, kind }) => {
            refuse(println!(rt; "{file:?}, line {line}: {kind:?}"))
        }
        Err(BuildEnd::Limit { which, count }) => refuse(println!(rt; "{which:?}: {count}")),
        Err(BuildEnd::NoMemory) => refuse(println!(rt; "no memory")),
    }
}

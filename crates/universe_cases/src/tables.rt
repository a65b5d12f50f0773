//! What a universe has, printed in the order of its numbers.

ghost use Rattle.std.specs.Prelude.{◌<◌, length};
ghost use Rattle.universe_model.specs.Universes.{IsProblemOf};

use choice_set::ChoiceSet;
use problem::{Kind, Problem};
use std::alloc::Global;
use std::io;
use universe::Universe;

/// Bytes as text; `?` where they are none.
pub fn text(bytes: &[u8]) -> &str {
    std::str::from_utf8(bytes).unwrap_or("?")
}

// How many dependencies are broken where the start versions stand.
fn count_broken(alloc: Global, problem: &Problem) -> u32 {
    let none = ChoiceSet::empty(alloc);
    let mut count = 0;
    for dep in 0..problem.deps() {
        if problem.is_broken(&none, dep) {
            count += 1;
        }
    }
    count
}

/// Writes the counts of a problem, without the versions that are absent.
pub fn write_counts<R: AllocGlobal + Print>(rt: &R, problem: &Problem) -> io::Result<()> {
    let versions = problem.versions().saturating_sub(problem.packages());
    let broken = count_broken(rt.alloc(), problem);
    println!(rt;
        "{} packages, {versions} versions, {} dependencies, {broken} broken",
        problem.packages(),
        problem.deps()
    )
}

fn write_version<R: Print>(rt: &R, universe: &Universe, version: u32) -> io::Result<()>
    requires { version < length universe.now.versions }
{
    print!(rt; "  version {version}")?;
    match universe.version_text(version) {
        Some(bytes) => print!(rt; " {}", text(bytes))?,
        None => print!(rt; " absent")?,
    }
    if universe.is_essential(version) {
        print!(rt; ", essential")?;
    }
    println!(rt; "")
}

fn write_package<R: Print>(rt: &R, universe: &Universe, package: u32) -> io::Result<()>
    requires { «package» < length universe.now.names }
{
    print!(rt;
        "package {package} {}: installed {}, candidate {}",
        text(universe.name(package)),
        universe.installed(package),
        universe.candidate(package)
    )?;
    if universe.is_held(package) {
        print!(rt; ", held")?;
    }
    println!(rt; "")
}

fn write_packages<R: Print>(rt: &R, universe: &Universe) -> io::Result<()> {
    let problem = universe.problem();
    let _versions = problem.versions();
    for package in 0..problem.packages() {
        write_package(rt, universe, package)?;
        for version in problem.absent_of(package)..problem.end_of(package) {
            write_version(rt, universe, version)?;
        }
    }
    Ok(())
}

fn write_dependency<R: Print>(rt: &R, universe: &Universe, dep: u32) -> io::Result<()>
    requires { dep < length universe.now.requirements }
{
    let problem = universe.problem();
    print!(rt; "dependency {dep}: {} on", problem.source(dep))?;
    for version in problem.targets(dep) {
        print!(rt; " {version}")?;
    }
    if problem.is_soft(dep) {
        print!(rt; ", soft, group {}", universe.group_of(dep))?;
    }
    if universe.is_conflict(dep) {
        print!(rt; ", conflict")?;
    }
    println!(rt; "")
}

fn write_dependencies<R: Print>(rt: &R, universe: &Universe) -> io::Result<()> {
    for dep in 0..universe.problem().deps() {
        write_dependency(rt, universe, dep)?;
    }
    Ok(())
}

fn write_choice<R: AllocGlobal + Print>(
    rt: &R,
    universe: &Universe,
    problem: &Problem,
    choice: u32,
) -> io::Result<()>
    requires { IsProblemOf universe.now problem.now }
{
    let mut token = Vec::new(rt.alloc());
    match universe.token(problem, choice, &mut token) {
        Ok(()) => println!(rt; "choice {choice}: {}", text(&token)),
        Err(_) => println!(rt; "no memory"),
    }
}

/// Writes the tokens of all choices of a problem.
pub fn write_choices<R: AllocGlobal + Print>(
    rt: &R,
    universe: &Universe,
    problem: &Problem,
) -> io::Result<()>
    requires { IsProblemOf universe.now problem.now }
{
    for choice in 0..problem.versions() + problem.deps() {
        match problem.kind(choice) {
            Kind::NoChoice => {}
            _ => write_choice(rt, universe, problem, choice)?,
        }
    }
    Ok(())
}

/// Writes packages with their versions, dependencies, and the choices where nothing is asked for.
pub fn write_tables<R: AllocGlobal + Print>(rt: &R, universe: &Universe) -> io::Result<()> {
    write_packages(rt, universe)?;
    write_dependencies(rt, universe)?;
    write_choices(rt, universe, universe.problem())
}

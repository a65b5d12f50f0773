// The packages and the dependencies.
ghost use Rattle.std.specs.Prelude.{◌≡◌, [], IfOk, IsTrue, nat_lt};
ghost use Rattle.std.specs.List.{list_all};

use crate::lines::{at, numbers, word_of};
use choice_set::{ChoiceSet, NoMemory};
use problem::{Builder, Problem};
use std::alloc::Global;

// One package.
fn add_package(builder: &mut Builder, present: u32, start: u32) -> Option<()>
    requires { builder.old.dependencies ≡ [] }
    ensures { builder.new.dependencies ≡ [] }
{
    if start > present {
        return None;
    }
    builder.add_package(present, start).ok()?;
    Some(())
}

// So many packages of a kind.
fn add_packages(builder: &mut Builder, count: u32, present: u32, start: u32) -> Option<()>
    requires { builder.old.dependencies ≡ [] }
    ensures { builder.new.dependencies ≡ [] }
{
    for _package in 0..count {
        add_package(builder, present, start)?;
    }
    Some(())
}

// The packages of a line.
fn add_packages_of(alloc: Global, builder: &mut Builder, line: &str) -> Option<()>
    requires { builder.old.dependencies ≡ [] }
    ensures { builder.new.dependencies ≡ [] }
{
    let (word, rest) = word_of(line);
    if word != "packages" {
        return Some(());
    }
    let list = numbers(alloc, rest).ok()?;
    add_packages(builder, at(&list, 0), at(&list, 1), at(&list, 2))
}

// The numbers that are below a count, as a list that rises.
fn versions_of(alloc: Global, count: u32, items: &[u32]) -> Result<ChoiceSet, NoMemory>
    ensures { IfOk result (λ set. IsTrue (list_all (λ v. nat_lt v count) set)) }
{
    let mut set = ChoiceSet::empty(alloc);
    for item in items {
        if *item >= count {
            continue;
        }
        set = set.with(alloc, *item)?;
    }
    Ok(set)
}

// One dependency.
fn add_dep(
    alloc: Global,
    builder: &mut Builder,
    source: u32,
    targets: &[u32],
    soft: bool,
) -> Option<()> {
    let count = builder.parts().versions();
    if source >= count {
        return None;
    }
    let set = versions_of(alloc, count, targets).ok()?;
    if set.len() != targets.len() {
        return None;
    }
    builder.add_dep(source, set.as_slice(), soft).ok()?;
    Some(())
}

// A dependency on each version at a step from the first to the last.
fn add_fan(alloc: Global, builder: &mut Builder, list: &[u32]) -> Option<()> {
    let (first, last, step) = (at(list, 1), at(list, 2), at(list, 3));
    let mut targets = Vec::new(alloc);
    for version in first..=last {
        if step > 0 && (version - first) % step == 0 {
            targets.push(version).ok()?;
        }
    }
    add_dep(alloc, builder, at(list, 0), &targets, false)
}

// So many dependencies of a version on another.
fn add_times(
    alloc: Global,
    builder: &mut Builder,
    times: u32,
    source: u32,
    target: u32,
) -> Option<()> {
    for _time in 0..times {
        add_dep(alloc, builder, source, &[target], false)?;
    }
    Some(())
}

// Dependencies of each version at a step on the next one.
fn add_chain(alloc: Global, builder: &mut Builder, list: &[u32]) -> Option<()> {
    let (first, last, step) = (at(list, 0), at(list, 1), at(list, 3));
    for version in first..last {
        if step > 0 && (version - first) % step == 0 {
            let target = version.checked_add(step)?;
            add_times(alloc, builder, at(list, 2), version, target)?;
        }
    }
    Some(())
}

// The dependencies of a line.
fn add_deps_of(alloc: Global, builder: &mut Builder, line: &str) -> Option<()> {
    let (word, rest) = word_of(line);
    if word != "needs" && word != "wants" && word != "fan" && word != "chain" {
        return Some(());
    }
    let list = numbers(alloc, rest).ok()?;
    match word {
        "fan" => add_fan(alloc, builder, &list),
        "chain" => add_chain(alloc, builder, &list),
        _ => {
            let (source, targets) = list.as_slice().split_first()?;
            add_dep(alloc, builder, *source, targets, word == "wants")
        }
    }
}

// The packages of all lines.
fn with_packages(alloc: Global, text: &str) -> Option<Builder> {
    let mut builder = Builder::new(alloc);
    for line in text.lines() {
        add_packages_of(alloc, &mut builder, line)?;
    }
    Some(builder)
}

/// The problem of a text.
pub fn read_problem(alloc: Global, text: &str) -> Option<Problem> {
    let mut builder = with_packages(alloc, text)?;
    for line in text.lines() {
        add_deps_of(alloc, &mut builder, line)?;
    }
    Some(builder.finish())
}

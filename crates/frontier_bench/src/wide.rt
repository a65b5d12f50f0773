// A store with as many leaves as a search may have.
ghost use Rattle.std.specs.Prelude.{◌≡◌, ◌<◌, [], IfSome, IsTrue, is_some};
ghost use Rattle.frontier.specs.Stores.{AreCosted};

use crate::problems::{add_child, add_dep, add_package};
use choice_set::ChoiceSet;
use cost_vector::CostTable;
use frontier::{Children, Frontier, Pick};
use problem::{Builder, Problem};
use promotions::Learned;
use std::alloc::Global;
use user_rules::Rules;

// So many packages that are absent.
fn add_absent(builder: &mut Builder, count: u32) -> Option<()>
    requires { builder.old.dependencies ≡ [] }
    ensures { builder.new.dependencies ≡ [] }
{
    for _package in 0..count {
        add_package(builder, 1, 0)?;
    }
    Some(())
}

// The versions of the packages 1 to 10,000.
fn many_targets(alloc: Global) -> Option<Vec<u32>> {
    let mut targets = Vec::new(alloc);
    for package in 1..10_001u32 {
        targets.push(2 * package + 1).ok()?;
    }
    Some(targets)
}

// Twenty dependencies of each package from 10,001 on, all on the next package.
fn add_chain(alloc: Global, builder: &mut Builder) -> Option<()> {
    for package in 10_001..199_999u32 {
        for _time in 0..20 {
            add_dep(alloc, builder, 2 * package + 1, &[2 * package + 3])?;
        }
    }
    Some(())
}

// 200,000 packages with one version each, of which the first is present. It needs one of the next 10,000; of the others each
// needs the next one, twenty times over.
fn wide_problem(alloc: Global) -> Option<Problem> {
    let mut builder = Builder::new(alloc);
    add_package(&mut builder, 1, 1)?;
    add_absent(&mut builder, 199_999)?;
    let targets = many_targets(alloc)?;
    add_dep(alloc, &mut builder, 1, targets.as_slice())?;
    add_chain(alloc, &mut builder)?;
    Some(builder.finish())
}

// One level that adds, where nothing costs anything.
fn flat_table(alloc: Global, problem: &Problem) -> Option<CostTable> {
    let choices = problem.versions().checked_add(problem.deps())?;
    CostTable::new(alloc, &[false], choices).ok()
}

// So many children, which take one version each of a package from 10,001 on, over and over.
fn children(alloc: Global, problem: &Problem, table: &CostTable, count: u32) -> Option<Children>
    ensures { IfSome result (AreCosted table.now) }
{
    let mut children = Children::new(alloc);
    for number in 0..count {
        let package = 10_001 + number % 189_998;
        add_child(alloc, &mut children, problem, table, &[2 * package + 1])?;
    }
    Some(children)
}

// Shows the store the problem, without rules, deliveries or lines.
fn show(frontier: &mut Frontier, alloc: Global, problem: &Problem) -> Option<()>
    requires problem { 0 < frontier.old.routed → frontier.old.problem ≡ problem.now }
    requires lines { frontier.old.lines ≡ [] }
    ensures problem { IsTrue (is_some result) → frontier.new.problem ≡ problem.now }
    ensures lines { frontier.new.lines ≡ [] }
    ensures table { frontier.new.table ≡ frontier.old.table }
{
    let rules = Rules::new(alloc);
    let none: Vec<ChoiceSet> = Vec::new(alloc);
    let learned = Learned::new(alloc);
    frontier.reroute(alloc, problem, &rules, &none).ok()?;
    frontier.raise(alloc, &learned).ok()?;
    Some(())
}

// Splits the leaf that is wanted.
fn split(frontier: &mut Frontier, alloc: Global, children: Children) -> Option<()>
    requires { AreCosted frontier.old.table children }
    ensures problem { frontier.new.problem ≡ frontier.old.problem }
    ensures lines { frontier.new.lines ≡ frontier.old.lines }
{
    let Pick::Wanted(leaf) = frontier.pick() else {
        return None;
    };
    frontier.take(alloc, leaf).ok()?;
    frontier.put_children(alloc, leaf, children).ok()
}

// A store over the problem, whose root is split into so many children.
fn store_of(alloc: Global, problem: &Problem, count: u32) -> Option<Frontier> {
    let table = flat_table(alloc, problem)?;
    let children = children(alloc, problem, &table, count)?;
    let mut frontier = Frontier::new(alloc, &table, false).ok()?;
    show(&mut frontier, alloc, problem)?;
    split(&mut frontier, alloc, children)?;
    show(&mut frontier, alloc, problem)?;
    Some(frontier)
}

// Takes the leaf that is wanted, looks for the next one, and gives the first one back; tells whether they were the leaves 1
// and 2, and the first took the first version of all.
fn round(frontier: &mut Frontier, alloc: Global) -> Option<bool> {
    let Pick::Wanted(leaf) = frontier.pick() else {
        return None;
    };
    let node = frontier.take(alloc, leaf).ok()?;
    let next = frontier.pick();
    frontier.give_back(leaf);
    Some(leaf == 1 && node.taken.as_slice() == [20_003].as_slice() && next == Pick::Wanted(2))
}

// How many of 200,000 rounds are as they have to be.
fn rounds(frontier: &mut Frontier, alloc: Global) -> Option<u32> {
    let mut count = 0u32;
    for _time in 0..200_000 {
        if round(frontier, alloc)? {
            count = count.wrapping_add(1);
        }
    }
    Some(count)
}

// Takes each leaf that is wanted, one after the other, and keeps it.
fn take_all(frontier: &mut Frontier, alloc: Global, count: u32) -> Option<u32> {
    let mut taken = 0u32;
    for _time in 0..count {
        let Pick::Wanted(leaf) = frontier.pick() else {
            return Some(taken);
        };
        frontier.take(alloc, leaf).ok()?;
        taken = taken.wrapping_add(1);
    }
    Some(taken)
}

// How many rounds are as they have to be in a store of 189,998 leaves; or, where a count is given, how many of so many leaves
// were taken.
pub fn measure(alloc: Global, count: u32) -> Option<u32> {
    let problem = wide_problem(alloc)?;
    if count == 0 {
        let mut frontier = store_of(alloc, &problem, 189_998)?;
        rounds(&mut frontier, alloc)
    } else {
        let mut frontier = store_of(alloc, &problem, count)?;
        take_all(&mut frontier, alloc, count)
    }
}

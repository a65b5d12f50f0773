// Problems made by hand, their tables, and children of a leaf.
ghost use Rattle.std.specs.Prelude.{◌≡◌, ◌<◌, [], IfOk, IsTrue, nat_lt};
ghost use Rattle.std.specs.List.{list_all};
ghost use Rattle.frontier.specs.Stores.{AreCosted};

use choice_set::{ChoiceSet, NoMemory};
use cost_vector::CostTable;
use frontier::{Child, Children};
use partial_sol::Node;
use problem::{Builder, Problem};
use std::alloc::Global;

// Adds a package with so many versions, which starts at one of them, counted from the absent one.
pub fn add_package(builder: &mut Builder, present: u32, start: u32) -> Option<()>
    requires { builder.old.dependencies ≡ [] }
    ensures { builder.new.dependencies ≡ [] }
{
    if start > present {
        return None;
    }
    builder.add_package(present, start).ok()?;
    Some(())
}

// The numbers that are below a count, as a list that rises.
fn versions_of(alloc: Global, count: u32, items: &[u32]) -> Result<ChoiceSet, NoMemory>
    ensures { IfOk result (λ set. IsTrue (list_all (λ v. nat_lt v count) set)) }
{
    let mut set = ChoiceSet::empty(alloc);
    for item in items {
        if *item >= count {
            continue;
        }
        set = set.with(alloc, *item)?;
    }
    Ok(set)
}

// Adds a hard dependency.
pub fn add_dep(alloc: Global, builder: &mut Builder, source: u32, targets: &[u32]) -> Option<()> {
    let count = builder.parts().versions();
    if source >= count {
        return None;
    }
    let Ok(targets) = versions_of(alloc, count, targets) else {
        return None;
    };
    builder.add_dep(source, targets.as_slice(), false).ok()?;
    Some(())
}

// Whether no dependency is open at the set.
fn is_closed(problem: &Problem, set: &ChoiceSet) -> bool {
    for dep in 0..problem.deps() {
        if problem.is_open(set, dep) {
            return false;
        }
    }
    true
}

// Adds a node as a child, with its cost.
fn add_node(
    alloc: Global,
    children: &mut Children,
    table: &CostTable,
    node: Node,
    closed: bool,
) -> Option<()>
    requires costs { AreCosted table.now children.old }
    requires choices { IsTrue (list_all (λ c. nat_lt c table.now.choices) node.taken) }
    ensures { AreCosted table.now children.new }
{
    let cost = table.cost(alloc, &node.taken).ok()?;
    children.push(Child { node, closed, cost }).ok()
}

// Adds a child that takes these choices; `closed` is told by the problem.
pub fn add_child(
    alloc: Global,
    children: &mut Children,
    problem: &Problem,
    table: &CostTable,
    taken: &[u32],
) -> Option<()>
    requires { AreCosted table.now children.old }
    ensures { AreCosted table.now children.new }
{
    let Ok(taken) = versions_of(alloc, table.choices(), taken) else {
        return None;
    };
    let closed = is_closed(problem, &taken);
    let barred = ChoiceSet::empty(alloc);
    add_node(alloc, children, table, Node { taken, barred }, closed)
}

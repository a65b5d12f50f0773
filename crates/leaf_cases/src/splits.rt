// Splits of nodes, and what is open.
ghost use Rattle.std.specs.Prelude.{◌≡◌, IsTrue};
ghost use Rattle.std.specs.Option.{IfSome};

use broken_deps::BrokenList;
use choice_set::ChoiceSet;
use partial_sol::{Node, split_by_choice, split_by_dep};
use problem::Problem;
use std::alloc::Global;

/// The least dependency that is open at a set, if there is one.
pub fn first_open(alloc: Global, problem: &Problem, set: &ChoiceSet) -> Option<Option<u32>> {
    let list = BrokenList::plain(alloc, problem, set).ok()?;
    Some(list.first())
}

/// The same at the set with one more choice, from the list at the set.
pub fn first_open_after(
    alloc: Global,
    problem: &Problem,
    set: &ChoiceSet,
    choice: u32,
) -> Option<Option<u32>> {
    let list = BrokenList::plain(alloc, problem, set).ok()?;
    let after = list.after(alloc, problem, set, choice).ok()?;
    Some(after.first())
}

/// The nodes that a node is split into by a dependency; nothing where that is not open there.
pub fn nodes_by_dep(alloc: Global, problem: &Problem, node: &Node, dep: u32) -> Option<Vec<Node>> {
    if dep >= problem.deps() || !problem.is_open(&node.taken, dep) {
        return None;
    }
    split_by_dep(alloc, problem, node, dep).ok()
}

/// The nodes that a node is split into by a choice; nothing where it takes or bars it.
pub fn nodes_by_choice(alloc: Global, node: &Node, choice: u32) -> Option<Vec<Node>> {
    if node.taken.contains(choice) || node.barred.contains(choice) {
        return None;
    }
    split_by_choice(alloc, node, choice).ok()
}

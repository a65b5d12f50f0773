// The leaves of a tree under rules, deliveries and lines that change.
ghost use Rattle.std.specs.Prelude.{◌≡◌, length, take, nat_lt};
ghost use Rattle.std.specs.List.{list_all};
ghost use Rattle.std.specs.Option.{IfSome};
ghost use Rattle.frontier.specs.Stores.{AreCosted};

use crate::splits::{first_open, nodes_by_choice, nodes_by_dep};
use basis::Basis;
use choice_set::ChoiceSet;
use frontier::{Child, Children, Frontier, Pick};
use partial_sol::Node;
use promotions::{Bound, Cost, Learned, Line};
use std::alloc::Global;
use user_rules::{Mark, Rules};

/// The store of the leaves, with what it is shown.
#[derive(Drop)]
pub struct Scene {
    pub basis: Basis,
    pub rules: Rules,
    pub given: Vec<ChoiceSet>,
    learned: Learned,
    frontier: Frontier,
    ghost problem: { frontier.problem ≡ basis.problem },
    ghost table: { frontier.table ≡ basis.table },
    ghost lines: { take (length frontier.lines) learned ≡ frontier.lines },
}

/// What a leaf was split into.
#[derive(Clone, Copy)]
pub struct Split {
    pub leaf: u64,
    /// The dependency, or the choice.
    pub by: u32,
    pub children: usize,
}

// Whether the numbers of a set are below a count.
fn are_below(set: &ChoiceSet, count: u32) -> bool
    ensures { result ≡ list_all (λ c. nat_lt c count) set.now }
{
    set.as_slice().iter().all(|choice| *choice < count)
}

// Adds a node to children; nothing where it takes a number that is no choice of the table.
fn add_child(alloc: Global, children: &mut Children, basis: &Basis, node: Node) -> Option<()>
    requires { AreCosted basis.now.table children.old }
    ensures { AreCosted basis.now.table children.new }
{
    if !are_below(&node.taken, basis.table.choices()) {
        return None;
    }
    let closed = first_open(alloc, &basis.problem, &node.taken)?.is_none();
    let cost = basis.table.cost(alloc, &node.taken).ok()?;
    children.push(Child { node, closed, cost }).ok()
}

// The nodes as children.
fn children_of(alloc: Global, basis: &Basis, nodes: Vec<Node>) -> Option<Children>
    ensures { IfSome result (AreCosted basis.now.table) }
{
    let mut children = Children::new(alloc);
    for node in nodes {
        add_child(alloc, &mut children, basis, node)?;
    }
    Some(children)
}

impl Scene {
    /// Leaf 0 alone, without rules.
    pub fn new(alloc: Global, basis: Basis) -> Option<Scene> {
        let none = ChoiceSet::empty(alloc);
        let closed = first_open(alloc, &basis.problem, &none)?.is_none();
        let rules = Rules::new(alloc);
        let given: Vec<ChoiceSet> = Vec::new(alloc);
        let learned = Learned::new(alloc);
        let mut frontier = Frontier::new(alloc, &basis.table, closed).ok()?;
        frontier
            .reroute(alloc, &basis.problem, &rules, &given)
            .ok()?;
        Some(Scene {
            basis,
            rules,
            given,
            learned,
            frontier,
        })
    }

    // Shows the store the rules, the deliveries and the lines as they are now.
    fn show(&mut self, alloc: Global) -> Option<()> {
        self.frontier
            .reroute(alloc, &self.basis.problem, &self.rules, &self.given)
            .ok()?;
        self.frontier.raise(alloc, &self.learned).ok()?;
        Some(())
    }

    /// What comes next.
    pub fn pick(&self) -> Pick {
        self.frontier.pick()
    }

    /// Takes the wanted leaf: its number, the one that it was split from, and its lists.
    pub fn take(&mut self, alloc: Global) -> Option<(u64, Option<u64>, Node)> {
        let Pick::Wanted(leaf) = self.frontier.pick() else {
            return None;
        };
        let parent = self.frontier.parent(leaf);
        let node = self.frontier.take(alloc, leaf).ok()?;
        Some((leaf, parent, node))
    }

    /// Takes the wanted leaf, looks at what comes next, and gives it back.
    pub fn look(&mut self, alloc: Global) -> Option<(u64, Pick)> {
        let Pick::Wanted(leaf) = self.frontier.pick() else {
            return None;
        };
        self.frontier.take(alloc, leaf).ok()?;
        let next = self.frontier.pick();
        self.frontier.give_back(leaf);
        Some((leaf, next))
    }

    /// Gives the first leaf back, where all that are wanted are out.
    pub fn back(&mut self) -> Option<u64> {
        let Pick::Held(leaf) = self.frontier.pick() else {
            return None;
        };
        self.frontier.give_back(leaf);
        Some(leaf)
    }

    // Takes the wanted leaf, and puts what it is split into in its place.
    fn split(&mut self, alloc: Global, choice: Option<u32>) -> Option<Split> {
        let Pick::Wanted(leaf) = self.frontier.pick() else {
            return None;
        };
        let taken = self.frontier.taken(alloc, leaf).ok()?;
        let node = self.frontier.take(alloc, leaf).ok()?;
        let by = match choice {
            Some(choice) => choice,
            None => first_open(alloc, &self.basis.problem, &taken)??,
        };
        let nodes = match choice {
            Some(choice) => nodes_by_choice(alloc, &node, choice)?,
            None => nodes_by_dep(alloc, &self.basis.problem, &node, by)?,
        };
        let children = children_of(alloc, &self.basis, nodes)?;
        let count = children.len();
        self.frontier.put_children(alloc, leaf, children).ok()?;
        Some(Split {
            leaf,
            by,
            children: count,
        })
    }

    /// Splits the wanted leaf by the choice, or by its least open dependency.
    pub fn expand(&mut self, alloc: Global, choice: Option<u32>) -> Option<Split> {
        let split = self.split(alloc, choice)?;
        self.show(alloc)?;
        Some(split)
    }

    /// Splits wanted leaves, at most so many, and tells how many.
    pub fn search(&mut self, alloc: Global, most: u32) -> Option<u32> {
        for done in 0..most {
            let Pick::Wanted(_) = self.frontier.pick() else {
                return Some(done);
            };
            self.expand(alloc, None)?;
        }
        Some(most)
    }

    /// Marks a choice.
    pub fn mark(&mut self, alloc: Global, choice: u32, mark: Mark) -> Option<()> {
        self.rules.set(alloc, choice, mark).ok()?;
        self.show(alloc)
    }

    /// Sets a cap, or takes it away.
    pub fn cap(&mut self, alloc: Global, level: u32, most: Option<u64>) -> Option<()> {
        self.rules.cap(level, most).ok()?;
        self.show(alloc)
    }

    /// Delivers a set.
    pub fn give(&mut self, alloc: Global, set: ChoiceSet) -> Option<()> {
        self.given.push(set).ok()?;
        self.show(alloc)
    }

    /// Learns a line.
    pub fn learn(&mut self, alloc: Global, line: Line) -> Option<()> {
        self.learned.add(line).ok()?;
        self.show(alloc)
    }

    /// What a set costs; nothing where it has a number that is no choice of the table.
    pub fn parts(&self, alloc: Global, set: &ChoiceSet) -> Option<Cost> {
        if !are_below(set, self.basis.table.choices()) {
            return None;
        }
        self.basis.table.cost(alloc, set).ok()
    }

    /// The strongest bound of the lines within the set, if there is one.
    pub fn bound(&self, alloc: Global, set: &ChoiceSet) -> Option<Option<Bound>> {
        self.learned.bound_for(alloc, set).ok()
    }
}

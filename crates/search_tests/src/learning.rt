// Lines that follow in two small universes, worked out by hand from the rules.
ghost use Rattle.std.specs.Prelude.{◌≡◌, ◌<◌, ◌+◌, [], true, IfOk, IsTrue, nat_lt};
ghost use Rattle.std.specs.List.{list_all};
ghost use Rattle.resolver_model.specs.declared.lines.Bound.TheVariants as BoundOf;
ghost use Rattle.resolver_model.specs.Lines.{fits_table};
ghost use Rattle.resolver_model.specs.Problems.{dependency_count, version_count, is_choice_set, is_open};
ghost use Rattle.promotions.specs.Deriving.{fit_table};

use choice_set::ChoiceSet;
use cost_vector::CostTable;
use problem::{Builder, Problem};
use promotions::Learned;
use resolver_model::{Bound, Cost, Line};
use std::alloc::Global;
use std::test::Fail;

// Adds a package with so many versions that starts at one of them, counted from the absent one.
fn add_package(builder: &mut Builder, present: u32, start: u32) -> Result<(), Fail>
    requires { builder.old.dependencies ≡ [] }
    ensures { builder.new.dependencies ≡ [] }
{
    if start > present {
        return Err(Fail::new("no such start"));
    }
    builder.add_package(present, start)?;
    Ok(())
}

// The versions below a count, as a list that rises.
fn versions_of(alloc: Global, count: u32, items: &[u32]) -> Result<ChoiceSet, Fail>
    ensures { IfOk result (λ set. IsTrue (list_all (λ v. nat_lt v count) set)) }
{
    let mut set = ChoiceSet::empty(alloc);
    for item in items {
        if *item >= count {
            return Err(Fail::new("not a version"));
        }
        set = set.with(alloc, *item)?;
    }
    Ok(set)
}

// Adds a hard dependency.
fn add_dep(alloc: Global, builder: &mut Builder, source: u32, targets: &[u32]) -> Result<(), Fail> {
    let count = builder.parts().versions();
    if source >= count {
        return Err(Fail::new("not a version"));
    }
    let targets = versions_of(alloc, count, targets)?;
    builder.add_dep(source, targets.as_slice(), false)?;
    Ok(())
}

// Package a with versions 1 and 2, b with 1, 2 and 3, and c with 1. Version 1 of a needs some b, its version 2 needs b
// from version 2 on, and version 3 of b conflicts with c. The starts are a 2, b 1 and c 1.
fn upgrade(alloc: Global) -> Result<Problem, Fail> {
    let mut builder = Builder::new(alloc);
    add_package(&mut builder, 2, 2)?;
    add_package(&mut builder, 3, 1)?;
    add_package(&mut builder, 1, 1)?;
    add_dep(alloc, &mut builder, 1, &[4, 5, 6])?;
    add_dep(alloc, &mut builder, 2, &[5, 6])?;
    add_dep(alloc, &mut builder, 6, &[7])?;
    Ok(builder.finish())
}

// A package whose two versions need what is not there; it starts at version 1.
fn hopeless(alloc: Global) -> Result<Problem, Fail> {
    let mut builder = Builder::new(alloc);
    add_package(&mut builder, 2, 1)?;
    add_dep(alloc, &mut builder, 1, &[])?;
    add_dep(alloc, &mut builder, 2, &[])?;
    Ok(builder.finish())
}

// Two levels, of which the first may take the greatest amount; each amount is a level, a choice and its number.
fn table_of(
    alloc: Global,
    choices: u32,
    greatest: bool,
    amounts: &[(usize, u32, u32)],
) -> Result<CostTable, Fail> {
    let mut table = CostTable::new(alloc, &[greatest, false], choices)?;
    for (level, choice, amount) in amounts {
        if *level < table.levels() && *choice < table.choices() {
            table.set(*level, *choice, *amount);
        }
    }
    Ok(table)
}

// Whether a cost has the length of the table's.
fn is_fitting(table: &CostTable, cost: &Cost) -> bool
    ensures { result ≡ fits_table table.now (BoundOf.Cost cost.now) }
{
    cost.len().checked_sub(1) == Some(table.levels())
}

// Whether the costs of the lines have the length of the table's.
fn are_fitting(table: &CostTable, lines: &[Line]) -> bool
    ensures { result ≡ fit_table table.now lines.now }
{
    for line in lines {
        if let Bound::Cost(cost) = &line.bound {
            if !is_fitting(table, cost) {
                return false;
            }
        }
    }
    true
}

// The set of the given choices.
fn set_of(alloc: Global, problem: &Problem, items: &[u32]) -> Result<ChoiceSet, Fail>
    ensures { IfOk result (λ set. IsTrue (is_choice_set problem.now set)) }
{
    let mut set = ChoiceSet::empty(alloc);
    for item in items {
        if !problem.is_choice(*item) {
            return Err(Fail::new("not a choice"));
        }
        set = set.with(alloc, *item)?;
    }
    Ok(set)
}

// A problem with its costs and the lines that were learned for it.
#[derive(Drop)]
struct Search {
    problem: Problem,
    table: CostTable,
    learned: Learned,
}

impl Search {
    fn new(
        alloc: Global,
        problem: Problem,
        greatest: bool,
        amounts: &[(usize, u32, u32)],
    ) -> Result<Search, Fail> {
        let choices = problem.versions().wrapping_add(problem.deps());
        let table = table_of(alloc, choices, greatest, amounts)?;
        Ok(Search {
            problem,
            table,
            learned: Learned::new(alloc),
        })
    }

    // Whether a line can be asked for at the set and the dependency.
    fn is_open(&self, set: &ChoiceSet, dep: u32) -> bool
        ensures { result ≡ true → (dep < dependency_count self.now.problem) × IsTrue (is_open self.now.problem set.now dep) }
    {
        dep < self.problem.deps() && self.problem.is_open(set, dep)
    }

    // Whether the table has an amount for each choice of the problem, and the lines fit it.
    fn is_whole(&self) -> bool
        ensures { result ≡ true → (self.now.table.choices ≡ version_count self.now.problem + dependency_count self.now.problem)
            × IsTrue (fit_table self.now.table self.now.learned) }
    {
        self.problem.versions().checked_add(self.problem.deps()) == Some(self.table.choices())
            && are_fitting(&self.table, self.learned.lines())
    }

    // The line that follows at a set of choices by a dependency that is open at it.
    fn derive(&self, alloc: Global, items: &[u32], dep: u32) -> Result<Line, Fail> {
        let set = set_of(alloc, &self.problem, items)?;
        if !self.is_open(&set, dep) || !self.problem.is_consistent(&set) || !self.is_whole() {
            return Err(Fail::new("not open at a consistent set"));
        }
        Ok(
            self.learned
                .derive(alloc, &self.problem, &self.table, &set, dep)?,
        )
    }

    // Learns the line; tells whether it has this set and this cost.
    fn learns(
        &mut self,
        alloc: Global,
        items: &[u32],
        dep: u32,
        set: &[u32],
        cost: &[u64],
    ) -> Result<bool, Fail> {
        let line = self.derive(alloc, items, dep)?;
        let told = is_line(&line, set, cost);
        self.learned.add(line)?;
        Ok(told)
    }
}

// Whether the line has this set and this cost, or is impossible where there is none.
fn is_line(line: &Line, items: &[u32], parts: &[u64]) -> bool {
    let same = line.set.as_slice() == items;
    match &line.bound {
        Bound::Cost(cost) => same && cost.parts() == parts,
        Bound::Given => false,
        Bound::Impossible => same && parts.is_empty(),
    }
}

// Removals weigh most, then cancelled actions on a.
#[test]
fn two_lines_and_no_third(rt: HostRuntime) -> Result<(), Fail> {
    let alloc = rt.alloc();
    let amounts = [(0, 0, 1), (0, 3, 1), (0, 7, 1), (1, 0, 1), (1, 1, 1)];
    let mut search = Search::new(alloc, upgrade(alloc)?, false, amounts.as_slice())?;
    assert!(rt; search.learns(alloc, &[], 1, &[], &[0, 0, 1])?);
    assert!(rt; search.learns(alloc, &[6], 2, &[6], &[1, 0, 2])?);
    assert!(rt; search.learns(alloc, &[], 1, &[], &[0, 0, 1])?);
    Ok(())
}

// The greatest of some harm weighs most, then removals: installing version 2 of b harms most.
#[test]
fn the_greatest_amount_weighs_most(rt: HostRuntime) -> Result<(), Fail> {
    let alloc = rt.alloc();
    let amounts = [
        (0, 0, 3),
        (0, 1, 2),
        (0, 5, 4),
        (0, 6, 1),
        (0, 7, 2),
        (1, 0, 1),
        (1, 7, 1),
    ];
    let mut search = Search::new(alloc, upgrade(alloc)?, true, amounts.as_slice())?;
    assert!(rt; search.learns(alloc, &[6], 2, &[6], &[2, 1, 2])?);
    assert!(rt; search.learns(alloc, &[], 1, &[], &[2, 0, 1])?);
    Ok(())
}

// At a dead end there is no resolver; what leads there is bounded by the one way that is left.
#[test]
fn a_dead_end_is_impossible(rt: HostRuntime) -> Result<(), Fail> {
    let alloc = rt.alloc();
    let mut search = Search::new(alloc, hopeless(alloc)?, false, &[(0, 0, 1)])?;
    assert!(rt; search.learns(alloc, &[2], 1, &[2], &[])?);
    assert!(rt; search.learns(alloc, &[], 0, &[], &[1, 0, 1])?);
    Ok(())
}

// The strongest of the lines within a set, until they are cut off.
#[test]
fn bounds_within_a_set(rt: HostRuntime) -> Result<(), Fail> {
    let mut learned = Learned::new(rt.alloc());
    let set = ChoiceSet::from_list(rt.alloc(), &[2])?;
    learned.add(Line {
        set: set.copy(rt.alloc())?,
        bound: Bound::Given,
    })?;
    assert!(rt; learned.bound_for(rt.alloc(), &set)?.is_some());
    learned.cut(0);
    assert_eq!(rt; learned.len(), 0);
    assert!(rt; learned.bound_for(rt.alloc(), &set)?.is_none());
    Ok(())
}

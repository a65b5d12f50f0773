// What a split teaches: lines from its leaf upwards.
ghost use Rattle.std.specs.Prelude.{◌≡◌, ◌<◌, ◌++◌, List, length, IfOk, OnOk, OnErr, IsTrue, Some};
ghost use Rattle.std.specs.List.{list_all};
ghost use Rattle.std.specs.Prelude.{nat_lt};
ghost use Rattle.resolver_model.specs.declared.lines.Line.{Line};
ghost use Rattle.resolver_model.specs.declared.history.By.TheVariants.{Dep};
ghost use Rattle.resolver_model.specs.Births.{birth, births_at};
ghost use Rattle.resolver_model.specs.Histories.{lines_at};
ghost use Rattle.resolver_model.specs.Legal.{CanSplit};
ghost use Rattle.search_core.specs.Climbs.{IsClimbable, IsAt, IsLearned, rung_above, height, is_worth};

use crate::ledger::Ledger;
use basis::Basis;
use choice_set::{ChoiceSet, NoMemory};
use cost_vector::CostTable;
use frontier::Frontier;
use promotions::{Learned, is_at_most};
use resolver_model::{Bound, By, Line, Lines};
use std::alloc::Global;

/// A leaf that was split, or is about to be, and the dependency that it is split by.
#[derive(Clone, Copy, Debug)]
pub struct Rung {
    pub leaf: u64,
    pub dep: u32,
}

/// A way upwards: where it began, the lines that were learned on it, and what is looked at next.
#[derive(Debug, Drop)]
pub struct Climb {
    pub start: Rung,
    pub next: Option<Rung>,
    pub lines: Lines,
}

// Whether a line says more of a taken list than its cost and the lines held.
fn is_worth(
    alloc: Global,
    table: &CostTable,
    learned: &Learned,
    taken: &ChoiceSet,
    line: &Line,
) -> Result<bool, NoMemory>
    requires { IsTrue (list_all (λ c. nat_lt c table.now.choices) taken.now) }
    ensures { IfOk result (λ worth. worth ≡ is_worth table.now learned.now taken.now line.now) }
{
    let cost = Bound::Cost(table.cost(alloc, taken)?);
    if is_at_most(&line.bound, &cost) {
        return Ok(false);
    }
    match learned.bound_for(alloc, taken)? {
        Some(bound) => Ok(!is_at_most(&line.bound, &bound)),
        None => Ok(true),
    }
}

// The leaf that a leaf was split from, if that was by a dependency.
fn rung_above(frontier: &Frontier, ledger: &Ledger, leaf: u64) -> Option<Rung>
    requires leaf { leaf < length frontier.now.kept }
    ensures { result ≡ rung_above frontier.now ledger.now.history leaf }
{
    let parent = frontier.parent(leaf)?;
    match ledger.way(parent) {
        Some(By::Dep(dep)) => Some(Rung { leaf: parent, dep }),
        _ => None,
    }
}

// Learns at one leaf, and goes to the next one above. After want of memory the lines held are as before.
fn step(
    alloc: Global,
    basis: &Basis,
    frontier: &Frontier,
    ledger: &Ledger,
    learned: &mut Learned,
    climb: &mut Climb,
    rung: Rung,
) -> Result<(), NoMemory>
    requires world { IsClimbable ledger.now.setting ledger.now.history basis.now.problem basis.now.table frontier.now }
    requires at { IsAt ledger.now.setting ledger.now.history learned.old climb.old }
    requires rung { climb.old.next ≡ Some rung }
    ensures at { OnOk result (IsAt ledger.now.setting ledger.now.history learned.new climb.new) }
    ensures lower { OnOk result (height climb.new.next < height climb.old.next) }
    ensures start { climb.new.start ≡ climb.old.start }
    ensures err { OnErr result (learned.new ≡ learned.old) }
{
    let taken = frontier.taken(alloc, rung.leaf)?;
    let line = learned.derive(alloc, &basis.problem, &basis.table, &taken, rung.dep)?;
    if !is_worth(alloc, &basis.table, learned, &taken, &line)? {
        climb.next = None;
        return Ok(());
    }
    let own = line.copy(alloc)?;
    climb.lines.push(own)?;
    learned.add(line)?;
    climb.next = rung_above(frontier, ledger, rung.leaf);
    Ok(())
}

// Learns at a leaf that is split by a dependency, and upwards as long as there is something to learn.
fn go_up(
    alloc: Global,
    basis: &Basis,
    frontier: &Frontier,
    ledger: &Ledger,
    learned: &mut Learned,
    start: Rung,
) -> Result<Lines, NoMemory>
    requires world { IsClimbable ledger.now.setting ledger.now.history basis.now.problem basis.now.table frontier.now }
    requires all { learned.old ≡ lines_at ledger.now.history }
    requires leaf { start.leaf < length (births_at ledger.now.setting.problem ledger.now.history) }
    requires way { CanSplit ledger.now.setting.problem (birth (births_at ledger.now.setting.problem ledger.now.history) start.leaf).node (Dep start.dep) }
    ensures ok { IfOk result (IsLearned ledger.now.setting ledger.now.history start.leaf (Dep start.dep)) }
    ensures all { IfOk result (λ lines. learned.new ≡ learned.old ++ lines) }
    ensures more { (more : List Line) × (learned.new ≡ learned.old ++ more) }
{
    let mut climb = Climb {
        start,
        next: Some(start),
        lines: Lines::new(alloc),
    };
    while let Some(rung) = climb.next {
        step(alloc, basis, frontier, ledger, learned, &mut climb, rung)?;
    }
    Ok(climb.lines)
}

// Adds the lines that a split of a leaf teaches, and answers with copies of them. A split by a choice teaches nothing. After
// want of memory the lines held are as before.
pub fn learn(
    alloc: Global,
    basis: &Basis,
    frontier: &Frontier,
    ledger: &Ledger,
    learned: &mut Learned,
    leaf: u64,
    by: By,
) -> Result<Lines, NoMemory>
    requires world { IsClimbable ledger.now.setting ledger.now.history basis.now.problem basis.now.table frontier.now }
    requires all { learned.old ≡ lines_at ledger.now.history }
    requires leaf { leaf < length (births_at ledger.now.setting.problem ledger.now.history) }
    requires way { CanSplit ledger.now.setting.problem (birth (births_at ledger.now.setting.problem ledger.now.history) leaf).node by }
    ensures ok { IfOk result (IsLearned ledger.now.setting ledger.now.history leaf by) }
    ensures all { IfOk result (λ lines. learned.new ≡ learned.old ++ lines) }
    ensures err { OnErr result (learned.new ≡ learned.old) }
{
    match by {
        By::Choice(_) => Ok(Lines::new(alloc)),
        By::Dep(dep) => {
            let before = learned.len();
            match go_up(alloc, basis, frontier, ledger, learned, Rung { leaf, dep }) {
                Ok(lines) => Ok(lines),
                Err(NoMemory) => {
                    learned.cut(before);
                    Err(NoMemory)
                }
            }
        }
    }
}

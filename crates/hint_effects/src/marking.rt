// The rules that hints set.
ghost use Rattle.std.specs.Prelude.{◌≡◌, ◌≤◌, IfOk, length};
ghost use Rattle.hint_effects.specs.Effects.{is_mark, mark_by, marked, rules_of};
ghost use Rattle.hint_effects.specs.Stamped.{AreStamps, mark_at, has_mark};

use crate::by_target::ByTarget;
use crate::{Hint, Target};
use choice_set::{ChoiceSet, NoMemory};
use problem::Problem;
use resolver_model::Mark;
use std::alloc::Global;
use user_rules::Rules;

// The places of the last hints on each number and on each package.
fn stamps_of(alloc: Global, hints: &[Hint]) -> Result<ByTarget, NoMemory>
    ensures { IfOk result (AreStamps hints.now hints.now) }
{
    let mut stamps = ByTarget::new(alloc);
    for (place, hint) in hints.iter().enumerate() {
        if let Hint::Marks { target, .. } = hint {
            stamps.set(*target, place as u64 + 1)?;
        }
    }
    Ok(stamps)
}

// The mark of the hint at a place from 1, free at 0.
fn mark_at(hints: &[Hint], place: u64) -> Mark
    requires { place ≤ length hints.now }
    ensures { result ≡ mark_at hints.now place }
{
    if place == 0 {
        return Mark::Free;
    }
    match &hints[place as usize - 1] {
        Hint::Marks { mark, .. } => *mark,
        Hint::Adds { .. } => Mark::Free,
    }
}

// The mark of a choice after all hints.
fn mark_of(problem: &Problem, hints: &[Hint], stamps: &ByTarget, choice: u32) -> Mark
    requires { AreStamps hints.now hints.now stamps.now }
    ensures { result ≡ mark_by problem.now hints.now choice }
{
    let own = stamps.of_number(choice);
    let whole = stamps.on_package(problem, choice);
    mark_at(hints, own.max(whole))
}

fn is_mark(mark: Mark, other: Mark) -> bool
    ensures { result ≡ is_mark mark other }
{
    match (mark, other) {
        (Mark::Free, Mark::Free)
        | (Mark::Approved, Mark::Approved)
        | (Mark::Rejected, Mark::Rejected) => true,
        _ => false,
    }
}

// Whether a number is a choice that has the mark.
fn has_mark(problem: &Problem, hints: &[Hint], stamps: &ByTarget, choice: u32, mark: Mark) -> bool
    requires { AreStamps hints.now hints.now stamps.now }
    ensures { result ≡ has_mark problem.now hints.now mark choice }
{
    problem.is_choice(choice) && is_mark(mark_of(problem, hints, stamps, choice), mark)
}

// The choices that have the mark, rising.
fn marked(
    alloc: Global,
    problem: &Problem,
    hints: &[Hint],
    stamps: &ByTarget,
    mark: Mark,
) -> Result<ChoiceSet, NoMemory>
    requires { AreStamps hints.now hints.now stamps.now }
    ensures { IfOk result (λ set. set ≡ marked problem.now hints.now mark) }
{
    let mut list = Vec::new(alloc);
    for choice in 0..problem.versions() + problem.deps() {
        if has_mark(problem, hints, stamps, choice, mark) {
            list.push(choice)?;
        }
    }
    ChoiceSet::from_list(alloc, list.as_slice())
}

/// The rules that hints set: each choice has the mark of the last hint that names it, and is free where none does. The time is
/// that of the choices and of the hints.
pub fn rules_of(alloc: Global, problem: &Problem, hints: &[Hint]) -> Result<Rules, NoMemory>
    ensures { IfOk result (λ rules. rules ≡ rules_of problem.now hints.now) }
{
    let stamps = stamps_of(alloc, hints)?;
    let approved = marked(alloc, problem, hints, &stamps, Mark::Approved)?;
    let rejected = marked(alloc, problem, hints, &stamps, Mark::Rejected)?;
    Ok(Rules::of_marks(alloc, approved, rejected))
}

// Amounts that hints add at a cost name.
ghost use Rattle.std.specs.Prelude.{◌≡◌, ◌≤◌, ◌+◌, ◌*◌, ℕ, List, IfOk, OnOk};
ghost use Rattle.ascii.specs.Texts.{is_same};
ghost use Rattle.hint_effects.specs.Effects.{added};
ghost use Rattle.hint_effects.specs.Stamped.{IsWith, at_target};
ghost use Rattle.hint_effects.specs.declared.Hint.{Hint};
ghost use Rattle.hint_effects.specs.Sums.{AreSums, capped, past_amount};

use crate::by_target::ByTarget;
use crate::{Hint, Target};
use choice_set::NoMemory;
use problem::Problem;
use std::alloc::Global;

/// One more than the most that a choice may have at a level. Sums stop here: beyond it only that they are beyond counts.
pub const PAST_AMOUNT: u64 = 4_294_967_296;

fn is_same(a: &[u8], b: &[u8]) -> bool
    ensures { result ≡ is_same a.now b.now }
{
    a == b
}

/// A sum with an amount so many times more.
pub fn with_times(sum: u64, times: u64, amount: u64) -> u64
    requires { sum ≤ past_amount }
    ensures { result ≡ capped (sum + times * amount) }
{
    let more = times as u128 * amount as u128;
    if more >= PAST_AMOUNT as u128 {
        return PAST_AMOUNT;
    }
    (sum + more as u64).min(PAST_AMOUNT)
}

// The sum of two amounts.
fn plus(amount: u64, more: u64) -> u64
    ensures sum { result ≡ capped (amount + more) }
    ensures bound { result ≤ past_amount }
{
    amount.saturating_add(more).min(PAST_AMOUNT)
}

// Adds an amount for a target.
fn add_on(sums: &mut ByTarget, target: Target, amount: u64) -> Result<(), NoMemory>
    ensures { OnOk result (IsWith sums.old target (capped (at_target sums.old target + amount)) sums.new) }
{
    let before = sums.of_target(target);
    sums.set(target, plus(before, amount))
}

/// What all hints add at a cost name, for each number and for each package.
pub fn sums_of(alloc: Global, hints: &[Hint], cost_name: &[u8]) -> Result<ByTarget, NoMemory>
    ensures { IfOk result (AreSums hints.now cost_name.now) }
{
    let mut sums = ByTarget::new(alloc);
    for hint in hints {
        if let Hint::Adds {
            amount,
            name,
            target,
        } = hint
        {
            if is_same(name.as_slice(), cost_name) {
                add_on(&mut sums, *target, *amount)?;
            }
        }
    }
    Ok(sums)
}

/// What all hints add for a choice.
pub fn added_at(problem: &Problem, sums: &ByTarget, choice: u32) -> u64
    ensures added { (hints : List Hint) (name : List ℕ) → AreSums hints name sums.now → result ≡ capped (added problem.now hints name choice) }
    ensures bound { result ≤ past_amount }
{
    plus(sums.of_number(choice), sums.on_package(problem, choice))
}

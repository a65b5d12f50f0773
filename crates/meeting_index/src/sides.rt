// One carrier of each number, by the least or the greatest version that it is carried in.

ghost use Rattle.std.specs.Prelude.{◌≡◌, ◌||◌, ◌⊎◌, ℕ, true, Some, IsTrue, IfOk, OnOk};
ghost use Rattle.std.specs.List.{Contains};
ghost use Rattle.std.specs.List.Sorted.{IsSorted};
ghost use Rattle.dep_fields.specs.Relationships.{VersionBound};
ghost use Rattle.meeting_index.specs.Fitting.{Covers, Serves, carried_order, either, fits_as, has_fitting, last_fits, reaches};

use crate::carried::Carried;
use choice_set::NoMemory;
use deb_version::compare;
use std::alloc::Global;

/// Of the versions that a name is carried in for one number, the one that tells whether a bound is met: the least one for `<<`
/// and `<=`, and the greatest one for `>=` and `>>`.
#[derive(Clone, Copy)]
pub enum Side {
    Least,
    Greatest,
}

/// One carrier of each number, in order, of carriers that stand in the order of their numbers, and those of one number in the
/// order of the side. None where each number has one alone.
pub fn side_of<'a>(
    alloc: Global,
    side: Side,
    by_number: &[Carried<'a>],
) -> Result<Vec<Carried<'a>>, NoMemory>
    ensures sorted { IfOk result (λ kept. IsSorted carried_order kept.items) }
    ensures serves { IfOk result (λ kept. Serves side by_number.now (either kept.items by_number.now)) }
    ensures part { IfOk result (λ kept. (y : Carried) → Contains kept.items y → Contains by_number.now y) }
{
    let mut kept = one_of_each(alloc, side, by_number)?;
    if kept.len() == by_number.len() {
        return Ok(Vec::new(alloc));
    }
    kept.sort_unstable();
    Ok(kept)
}

// All but those that the next one covers.
fn one_of_each<'a>(
    alloc: Global,
    side: Side,
    by_number: &[Carried<'a>],
) -> Result<Vec<Carried<'a>>, NoMemory>
    ensures serves { IfOk result (λ kept. Serves side by_number.now kept.items) }
    ensures part { IfOk result (λ kept. (y : Carried) → Contains kept.items y → Contains by_number.now y) }
{
    let mut kept = Vec::new(alloc);
    let mut last = None;
    for next in by_number {
        keep_last(&mut kept, side, last, next)?;
        last = Some(*next);
    }
    match last {
        None => Ok(kept),
        Some(last) => {
            kept.push(last)?;
            Ok(kept)
        }
    }
}

// Keeps the last one, if any, unless the next one covers it.
fn keep_last<'a>(
    kept: &mut Vec<Carried<'a>>,
    side: Side,
    last: Option<Carried<'a>>,
    next: &Carried<'a>,
) -> Result<(), NoMemory>
    ensures part { OnOk result ((y : Carried) → Contains kept.new.items y → Contains kept.old.items y ⊎ (last.entry ≡ Some y)) }
    ensures serves { OnOk result ((bound : VersionBound) (c : ℕ) → reaches side bound.op ≡ true → (has_fitting kept.new.items bound c || fits_as bound c next.now) ≡ ((has_fitting kept.old.items bound c || last_fits bound c last.entry) || fits_as bound c next.now)) }
{
    let Some(last) = last else {
        return Ok(());
    };
    if covers(side, next, &last) {
        return Ok(());
    }
    kept.push(last)?;
    Ok(())
}

// Whether one covers another one: it stands for the same version, and is at least as far on the side.
fn covers(side: Side, next: &Carried<'_>, last: &Carried<'_>) -> bool
    ensures { IsTrue result → Covers side next.now last.now }
{
    if next.number != last.number {
        return false;
    }
    let order = compare(&last.version, &next.version);
    match side {
        Side::Least => order.is_ge(),
        Side::Greatest => order.is_le(),
    }
}

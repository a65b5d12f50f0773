// The carriers of one name, where they are many.

ghost use Rattle.std.specs.Prelude.{◌≡◌, ◌++◌, ◌-◌, ◌||◌, ℕ, false, length, map, IfOk, MatchOption, OnOk, Option};
ghost use Rattle.std.specs.Option.{option_map};
ghost use Rattle.std.specs.List.{Contains, slice_get};
ghost use Rattle.std.specs.List.Sorted.{IsSorted};
ghost use Rattle.dep_fields.specs.Relationships.{bound_of};
ghost use Rattle.lists.specs.Sets.{has};
ghost use Rattle.meeting_index.specs.Finding.{Finds};
ghost use Rattle.meeting_index.specs.Fitting.{IsSide, carried_carrier, carried_number, carried_order, either, has_fitting};
ghost use Rattle.meeting_index.specs.declared.sides.Side.TheVariants as side;
ghost use Rattle.meeting_index.specs.Spans.{span_of};

use crate::carried::Carried;
use crate::keys::{Span, span_of};
use crate::ranges::within;
use crate::sides::{Side, side_of};
use choice_set::NoMemory;
use deb_version::Version;
use dep_fields::Op;
use std::alloc::Global;

/// The carriers of one name: the versions that they stand for, and those that have a version in its order, so that those within
/// a bound stand in one range. Where a number is carried in several versions, there is one carrier of each number by the least
/// of its versions, and by the greatest, so that each number is in the range of `<=` or `>=` once.
#[derive(Drop)]
pub struct Crowd<'a> {
    all: Vec<u32>,
    by_version: Vec<Carried<'a>>,
    least: Vec<Carried<'a>>,
    greatest: Vec<Carried<'a>>,
    ghost sorted: { IsSorted carried_order by_version.items },
    ghost least_is: { IsSide side.Least by_version.items least.items },
    ghost greatest_is: { IsSide side.Greatest by_version.items greatest.items },
}

impl<'a> Crowd<'a> {
    ghost use Rattle.dep_fields.specs.Relationships.{VersionBound};
    ghost use Rattle.std.specs.Prelude.{Some, None};
    ghost use Rattle.meeting_index.specs.Crowds.{IsEdge, IsInside, Keeps, crowd_has};

    /// A crowd of the versions that all carriers stand for, and of the carriers that have a version, in order.
    pub fn new(
        alloc: Global,
        all: Vec<u32>,
        by_version: Vec<Carried<'a>>,
    ) -> Result<Crowd<'a>, NoMemory>
        requires { IsSorted carried_order by_version.items }
        ensures all { IfOk result (λ crowd. (c : ℕ) → crowd_has crowd None c ≡ has all.items c) }
        ensures kept { IfOk result (λ crowd. (y : Carried) → Keeps crowd y → Contains by_version.entry.items y) }
        ensures within { IfOk result (λ crowd. (bound : VersionBound) (c : ℕ) → crowd_has crowd (Some bound) c ≡ has_fitting by_version.entry.items bound c) }
    {
        let mut by_number = Vec::from_slice(alloc, by_version.as_slice())?;
        // those of one number stay in the order of their versions
        by_number.sort_by_key(|carried| carried.number)?;
        let greatest = side_of(alloc, Side::Greatest, by_number.as_slice())?;
        by_number.reverse();
        let least = side_of(alloc, Side::Least, by_number.as_slice())?;
        Ok(Crowd {
            all,
            by_version,
            least,
            greatest,
        })
    }

    /// Adds the versions of the carriers that are within a bound.
    pub fn add_members(
        &self,
        bound: Option<(Op, Version<'_>)>,
        met: &mut Vec<u32>,
    ) -> Result<(), NoMemory>
        ensures { OnOk result ((c : ℕ) → has met.new.items c ≡ (has met.old.items c || crowd_has self.now (option_map bound_of bound.entry) c)) }
    {
        match bound {
            None => Ok(met.extend_from_slice(self.all.as_slice())?),
            Some((op, version)) => add_numbers(met, self.members(op, &version)),
        }
    }

    /// One of the versions of the carriers that are within a bound, if there is any.
    pub fn one_member(&self, bound: Option<(Op, Version<'_>)>) -> Option<u32>
        ensures { Finds (crowd_has self.now (option_map bound_of bound.entry)) result }
    {
        match bound {
            None => first_of(self.all.as_slice()),
            Some((op, version)) => first_number(self.members(op, &version)),
        }
    }

    /// The carrier at the edge of those that are within a bound, if there is any: what it meets to the same side, all within the
    /// bound meet.
    pub fn edge(&self, op: Op, version: &Version<'_>) -> Option<u32>
        ensures { MatchOption result ((c : ℕ) → crowd_has self.now (Some (bound_of (op, version.now))) c ≡ false) (IsEdge self.now (bound_of (op, version.now))) }
    {
        let list = self.members(op, version);
        match span_of(op) {
            Span::Earlier => last_carrier(list),
            _ => first_carrier(list),
        }
    }

    // Carriers within a bound that stand for all numbers with such a carrier, in order.
    fn members(&self, op: Op, version: &Version<'_>) -> &[Carried<'a>]
        ensures numbers { (c : ℕ) → has (map carried_number result.now) c ≡ crowd_has self.now (Some (bound_of (op, version.now))) c }
        ensures sorted { IsSorted carried_order result.now }
        ensures inside { (y : Carried) → Contains result.now y → IsInside self.now (bound_of (op, version.now)) y }
    {
        within(self.looked_at(span_of(op)), op, version)
    }

    // The carriers that tell whether the bounds to a side are met.
    fn looked_at(&self, span: Span) -> &[Carried<'a>]
        ensures sorted { IsSorted carried_order result.now }
        ensures part { (y : Carried) → Contains result.now y → Keeps self.now y }
        ensures serves { (bound : VersionBound) → span_of bound.op ≡ span → (c : ℕ) → has_fitting result.now bound c ≡ has_fitting self.now.by_version.items bound c }
    {
        match span {
            Span::Earlier => one_or_all(self.least.as_slice(), self.by_version.as_slice()),
            Span::Later => one_or_all(self.greatest.as_slice(), self.by_version.as_slice()),
            Span::All | Span::Equal => self.by_version.as_slice(),
        }
    }
}

// Some carriers, or all where there are none.
fn one_or_all<'x, 'a>(some: &'x [Carried<'a>], all: &'x [Carried<'a>]) -> &'x [Carried<'a>]
    ensures { result.now ≡ either some.now all.now }
{
    if some.is_empty() { all } else { some }
}

fn first_of(numbers: &[u32]) -> Option<u32>
    ensures { Finds (has numbers.now) result }
{
    match numbers {
        [first, ..] => Some(*first),
        [] => None,
    }
}

fn first_number(list: &[Carried<'_>]) -> Option<u32>
    ensures { Finds (has (map carried_number list.now)) result }
{
    match list {
        [first, ..] => Some(first.number),
        [] => None,
    }
}

fn first_carrier(list: &[Carried<'_>]) -> Option<u32>
    ensures { result ≡ option_map carried_carrier (slice_get list.now 0) }
{
    Some(list.first()?.carrier)
}

fn last_carrier(list: &[Carried<'_>]) -> Option<u32>
    ensures { result ≡ option_map carried_carrier (slice_get list.now (length list.now - 1)) }
{
    Some(list.last()?.carrier)
}

// Adds the versions that carriers stand for.
fn add_numbers(met: &mut Vec<u32>, list: &[Carried<'_>]) -> Result<(), NoMemory>
    ensures { OnOk result (met.new.items ≡ met.old.items ++ map carried_number list.now) }
{
    for carried in list {
        met.push(carried.number)?;
    }
    Ok(())
}

// Ranges of carriers that stand in the order of their versions.

ghost use Rattle.std.specs.Prelude.{◌≡◌, ◌≤◌, true, false, not, length};
ghost use Rattle.std.specs.List.{filter};
ghost use Rattle.std.specs.List.Sorted.{IsPartitionPoint, IsSorted};
ghost use Rattle.std.specs.Ordering.{is_le, is_lt};
ghost use Rattle.deb_version.specs.VersionOrder.{version_order};
ghost use Rattle.dep_fields.specs.Relationships.{bound_of};
ghost use Rattle.meeting_index.specs.Fitting.{carried_order, carried_parts, fits, version_parts};

use crate::carried::Carried;
use deb_version::{Version, compare};
use dep_fields::Op;

/// Those that are within a bound, of carriers in order.
pub fn within<'x, 'a>(list: &'x [Carried<'a>], op: Op, version: &Version<'_>) -> &'x [Carried<'a>]
    requires { IsSorted carried_order list.now }
    ensures { result.now ≡ filter (fits (bound_of (op, version.now))) list.now }
{
    match op {
        Op::Less => in_front(list, version),
        Op::AtMost => up_to(list, version),
        Op::Equal => up_to(from(list, version), version),
        Op::AtLeast => from(list, version),
        Op::More => behind(list, version),
    }
}

// Those that are earlier than a version.
fn in_front<'x, 'a>(list: &'x [Carried<'a>], version: &Version<'_>) -> &'x [Carried<'a>]
    requires { IsSorted carried_order list.now }
    ensures { result.now ≡ filter (λ y. is_lt (version_order (carried_parts y) (version_parts version.now))) list.now }
{
    &list[..earlier(list, version)]
}

// Those that are not earlier than a version.
fn from<'x, 'a>(list: &'x [Carried<'a>], version: &Version<'_>) -> &'x [Carried<'a>]
    requires { IsSorted carried_order list.now }
    ensures those { result.now ≡ filter (λ y. not (is_lt (version_order (carried_parts y) (version_parts version.now)))) list.now }
    ensures sorted { IsSorted carried_order result.now }
{
    &list[earlier(list, version)..]
}

// Those that are not later than a version.
fn up_to<'x, 'a>(list: &'x [Carried<'a>], version: &Version<'_>) -> &'x [Carried<'a>]
    requires { IsSorted carried_order list.now }
    ensures { result.now ≡ filter (λ y. is_le (version_order (carried_parts y) (version_parts version.now))) list.now }
{
    &list[..not_later(list, version)]
}

// Those that are later than a version.
fn behind<'x, 'a>(list: &'x [Carried<'a>], version: &Version<'_>) -> &'x [Carried<'a>]
    requires { IsSorted carried_order list.now }
    ensures { result.now ≡ filter (λ y. not (is_le (version_order (carried_parts y) (version_parts version.now)))) list.now }
{
    &list[not_later(list, version)..]
}

// How many are earlier than a version.
fn earlier(list: &[Carried<'_>], version: &Version<'_>) -> usize
    requires { IsSorted carried_order list.now }
    ensures bound { result ≤ length list.now }
    ensures point { IsPartitionPoint (λ y. is_lt (version_order (carried_parts y) (version_parts version.now)) ≡ true) (λ y. is_lt (version_order (carried_parts y) (version_parts version.now)) ≡ false) list.now result }
{
    list.partition_point(|carried| compare(&carried.version, version).is_lt())
}

// How many are not later than a version.
fn not_later(list: &[Carried<'_>], version: &Version<'_>) -> usize
    requires { IsSorted carried_order list.now }
    ensures bound { result ≤ length list.now }
    ensures point { IsPartitionPoint (λ y. is_le (version_order (carried_parts y) (version_parts version.now)) ≡ true) (λ y. is_le (version_order (carried_parts y) (version_parts version.now)) ≡ false) list.now result }
{
    list.partition_point(|carried| compare(&carried.version, version).is_le())
}

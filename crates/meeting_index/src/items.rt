// Items that other items cover.

ghost use Rattle.std.specs.Prelude.{◌≡◌, Some, IsTrue};
ghost use Rattle.std.specs.Option.{option_map};
ghost use Rattle.dep_fields.specs.Relationships.{bound_of, meaning};
ghost use Rattle.meeting_index.specs.Covered.{Implies, ImpliesBound};

use crate::keys::{Span, span_of};
use deb_version::{Version, compare};
use dep_fields::{Item, Op};
use std::cmp::Ordering;

/// Whether an item covers another one, as seen from their texts: all versions that meet the other one meet it too. It names no
/// architecture, and has the same name, and no bound or one of the same operator that is no stricter.
pub fn covers(wide: &Item<'_>, item: &Item<'_>) -> bool
    ensures { IsTrue result → Implies (meaning item.now) (meaning wide.now) }
{
    if wide.arch.is_some() {
        return false;
    }
    if !is_same_text(wide.name, item.name) {
        return false;
    }
    covers_bound(wide.rel, item.rel)
}

fn is_same_text(a: &[u8], b: &[u8]) -> bool
    ensures { IsTrue result → a.now ≡ b.now }
{
    a == b
}

fn covers_bound(wide: Option<(Op, Version<'_>)>, rel: Option<(Op, Version<'_>)>) -> bool
    ensures { IsTrue result → ImpliesBound (option_map bound_of rel.entry) (option_map bound_of wide.entry) }
{
    match (wide, rel) {
        (None, _) => true,
        (Some((op, version)), Some((other_op, other))) => {
            op == other_op && is_no_stricter(op, &version, &other)
        }
        _ => false,
    }
}

// Whether a bound with a version is no stricter than one of the same operator with another version.
fn is_no_stricter(op: Op, version: &Version<'_>, other: &Version<'_>) -> bool
    ensures { IsTrue result → ImpliesBound (Some (bound_of (op, other.now))) (Some (bound_of (op, version.now))) }
{
    let order = compare(version, other);
    match span_of(op) {
        Span::Earlier => order.is_ge(),
        Span::Later => order.is_le(),
        Span::All | Span::Equal => order.is_eq(),
    }
}

/// An order in which items of one name and one operator stand behind one another, and one that covers others in front of them.
pub fn order(a: &Item<'_>, b: &Item<'_>) -> Ordering {
    a.name.cmp(b.name).then(order_bounds(a.rel, b.rel))
}

fn order_bounds(a: Option<(Op, Version<'_>)>, b: Option<(Op, Version<'_>)>) -> Ordering {
    match (a, b) {
        (None, None) => Ordering::Equal,
        (None, Some(_)) => Ordering::Less,
        (Some(_), None) => Ordering::Greater,
        (Some((op, version)), Some((other_op, other))) => place_of(op)
            .cmp(&place_of(other_op))
            .then(order_versions(op, &version, &other)),
    }
}

fn order_versions(op: Op, a: &Version<'_>, b: &Version<'_>) -> Ordering {
    match span_of(op) {
        Span::Earlier => compare(b, a),
        _ => compare(a, b),
    }
}

// Where an operator stands among all.
fn place_of(op: Op) -> u8 {
    match op {
        Op::Less => 0,
        Op::AtMost => 1,
        Op::Equal => 2,
        Op::AtLeast => 3,
        Op::More => 4,
    }
}

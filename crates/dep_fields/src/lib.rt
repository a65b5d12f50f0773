//! Relationship fields of Debian control files, as Depends, Conflicts and Provides (Debian Policy 7.1),
//! read group by group and item by item as slices of the value. Nothing allocates.
#![tactic(auto)]

ghost use Rattle.std.specs.Prelude.{◌≡◌};
ghost use Rattle.dep_fields.specs.Operators.{holds};
ghost use Rattle.dep_fields.specs.Grammar.{ReadsItems, SeesRestrictions, ReadsFields};

use deb_version::Version;
use std::cmp::Ordering;

mod checked;
mod checks;
mod groups;
mod items;
mod tokens;

pub use checked::{AlternativesField, ProvidesField, SingleField};
pub use groups::{Group, Groups, Items, SoundGroups};
pub use tokens::is_package_name;

/// How a version has to compare to the version of an item (Debian Policy 7.1).
#[derive(Clone, Copy, Debug, PartialEq, Eq)]
pub enum Op {
    /// `<<`
    Less,
    /// `<=`, also written `<`
    AtMost,
    /// `=`
    Equal,
    /// `>=`, also written `>`
    AtLeast,
    /// `>>`
    More,
}

impl Op {
    /// Whether a version that compares so to the item's version meets the operator.
    pub fn holds(self, order: Ordering) -> bool
        ensures { result ≡ holds self order }
    {
        match self {
            Op::Less => order == Ordering::Less,
            Op::AtMost => order != Ordering::Greater,
            Op::Equal => order == Ordering::Equal,
            Op::AtLeast => order != Ordering::Less,
            Op::More => order == Ordering::Greater,
        }
    }
}

/// One item of a relationship field: a package name, an architecture behind `:` and a version
/// bound in parentheses, the last two where they are given.
#[derive(Clone, Copy, Debug)]
pub struct Item<'a> {
    pub name: &'a [u8],
    pub arch: Option<&'a [u8]>,
    pub rel: Option<(Op, Version<'a>)>,
}

/// Why an item is refused.
#[derive(Clone, Copy, Debug, PartialEq, Eq)]
pub enum RelKind {
    /// What stands there is no item.
    BadItem,
    /// `[` or `<` follows a whole item.
    Restriction,
    /// `|` follows an item where a group may have one item alone.
    Alternative,
}

/// The place in the value where the faulty item begins, in bytes from 0, and its fault. An item
/// that is missing begins at the token found in its place, or at the value's end.
#[derive(Clone, Copy, Debug, PartialEq, Eq)]
pub struct RelFault {
    pub at: usize,
    pub kind: RelKind,
}

/// Laws of the grammar: an item, and a whole field without a fault, is read exactly where the
/// grammar has it, with what it says there, and a restriction is seen exactly where `[` or `<`
/// follows a whole item.
pub fn grammar()
    ensures items { ReadsItems }
    ensures restrictions { SeesRestrictions }
    ensures fields { ReadsFields }
{}

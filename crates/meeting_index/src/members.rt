// The carriers of one name that have a version.

ghost use Rattle.std.specs.Prelude.{◌≡◌, ◌||◌, ℕ, List, false, true, Option, Some, IfOk, IfSome, OnOk, MatchOption};
ghost use Rattle.std.specs.List.{Contains, list_any, slice_get};
ghost use Rattle.std.specs.List.Sorted.{IsSorted};
ghost use Rattle.dep_fields.specs.Relationships.{VersionBound};
ghost use Rattle.universe_parts.specs.Listed.{version_listed};
ghost use Rattle.meeting_index.specs.Carriers.{own};
ghost use Rattle.meeting_index.specs.Crowds.{finds_as};
ghost use Rattle.meeting_index.specs.Fitting.{carried_order, has_fitting, passes_with, version_parts};
ghost use Rattle.meeting_index.specs.Members.{AreReal, IsFound};
ghost use Rattle.lists.specs.Sets.{has};
ghost use Rattle.meeting_index.specs.Provided.{carrier_of, carriers_listed, listed_for_versions};

use crate::carried::Carried;
use crate::found::Carriers;
use crate::given::Provided;
use choice_set::NoMemory;
use deb_version::Version;
use std::alloc::Global;
use universe_parts::ListedVersion;

/// Those that have a version, of the carriers with these numbers, in the order of their versions; those of one version that
/// stand for the same number once.
pub fn members<'a>(
    alloc: Global,
    carriers: &Carriers<'_, '_, 'a>,
    numbers: &[u32],
) -> Result<Vec<Carried<'a>>, NoMemory>
    ensures fitting { IfOk result (λ list. (bound : VersionBound) (c : ℕ) → has_fitting list.items bound c ≡ list_any (finds_as (carriers_listed carriers.now) (Some bound) c) numbers.now) }
    ensures sorted { IfOk result (λ list. IsSorted carried_order list.items) }
    ensures real { IfOk result (λ list. AreReal (carriers_listed carriers.now) numbers.now list.items) }
{
    let mut list = gather(alloc, carriers, numbers)?;
    put_in_order(&mut list);
    Ok(list)
}

// Sorts carriers, and leaves those that are equal in their order once.
fn put_in_order(list: &mut Vec<Carried<'_>>)
    ensures fitting { (bound : VersionBound) (c : ℕ) → has_fitting list.new.items bound c ≡ has_fitting list.old.items bound c }
    ensures sorted { IsSorted carried_order list.new.items }
    ensures part { (y : Carried) → Contains list.new.items y → Contains list.old.items y }
{
    list.sort_unstable();
    list.dedup();
}

// Those that have a version, of the carriers with these numbers.
fn gather<'a>(
    alloc: Global,
    carriers: &Carriers<'_, '_, 'a>,
    numbers: &[u32],
) -> Result<Vec<Carried<'a>>, NoMemory>
    ensures fitting { IfOk result (λ list. (bound : VersionBound) (c : ℕ) → has_fitting list.items bound c ≡ list_any (finds_as (carriers_listed carriers.now) (Some bound) c) numbers.now) }
    ensures real { IfOk result (λ list. AreReal (carriers_listed carriers.now) numbers.now list.items) }
{
    let mut list = Vec::with_capacity(alloc, numbers.len())?;
    for number in numbers {
        add_member(&mut list, carriers, *number)?;
    }
    Ok(list)
}

// Adds the carrier with a number, if there is one, and it has a version.
fn add_member<'a>(
    list: &mut Vec<Carried<'a>>,
    carriers: &Carriers<'_, '_, 'a>,
    number: u32,
) -> Result<(), NoMemory>
    ensures real { OnOk result ((numbers : List ℕ) → has numbers number ≡ true → AreReal (carriers_listed carriers.now) numbers list.old.items → AreReal (carriers_listed carriers.now) numbers list.new.items) }
    ensures fitting { OnOk result ((bound : VersionBound) (c : ℕ) → has_fitting list.new.items bound c ≡ (has_fitting list.old.items bound c || finds_as (carriers_listed carriers.now) (Some bound) c number)) }
{
    match member(carriers, number) {
        None => Ok(()),
        Some(carried) => Ok(list.push(carried)?),
    }
}

// The carrier with a number, if there is one, and it has a version.
fn member<'a>(carriers: &Carriers<'_, '_, 'a>, number: u32) -> Option<Carried<'a>>
    ensures found { IsFound (slice_get (carriers_listed carriers.now) number) result }
    ensures number { IfSome result (λ y. y.carrier ≡ number) }
{
    match version_member(carriers, number) {
        None => None,
        Some(carried) => Some(Carried {
            version: carried.version,
            number: carriers.sought_as(carried.number),
            carrier: carried.carrier,
        }),
    }
}

// The same, standing for its version.
fn version_member<'a>(carriers: &Carriers<'_, '_, 'a>, number: u32) -> Option<Carried<'a>>
    ensures found { IsFound (slice_get (listed_for_versions carriers.now) number) result }
    ensures number { IfSome result (λ y. y.carrier ≡ number) }
{
    let place = number as usize;
    let own = carriers.versions.len();
    if place < own {
        own_member(&carriers.versions[place], number)
    } else if place - own < carriers.provided.len() {
        provided_member(&carriers.provided[place - own], number)
    } else {
        None
    }
}

// A version under its own name.
fn own_member<'a>(version: &ListedVersion<'_, 'a>, number: u32) -> Option<Carried<'a>>
    ensures found { IsFound (Some (own number (version_listed version.now))) result }
    ensures number { IfSome result (λ y. y.carrier ≡ number) }
{
    match version_of(version) {
        None => None,
        Some(version) => Some(Carried {
            version,
            number,
            carrier: number,
        }),
    }
}

// The version of a stanza, if it is there.
fn version_of<'a>(version: &ListedVersion<'_, 'a>) -> Option<Version<'a>>
    ensures { MatchOption result
        ((bound : Option VersionBound) → (own 0 (version_listed version.now)).passes bound ≡ false)
        (λ read. (bound : Option VersionBound) → (own 0 (version_listed version.now)).passes bound ≡ passes_with (Some (version_parts read)) bound) }
{
    version.read?.stanza.version
}

// An item of Provides.
fn provided_member<'a>(provided: &Provided<'a>, carrier: u32) -> Option<Carried<'a>>
    ensures found { IsFound (Some (carrier_of provided.now)) result }
    ensures number { IfSome result (λ y. y.carrier ≡ carrier) }
{
    match provided.given() {
        None => None,
        Some(version) => Some(Carried {
            version,
            number: provided.version,
            carrier,
        }),
    }
}

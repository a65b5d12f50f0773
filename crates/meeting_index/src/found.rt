// The versions that carriers find.

ghost use Rattle.std.specs.Prelude.{◌≡◌, ◌++◌, Some, OnOk, map};
ghost use Rattle.std.specs.List.{flat_map, slice_get};
ghost use Rattle.std.specs.Option.{option_map, option_to_list};
ghost use Rattle.dep_fields.specs.Relationships.{bound_of};
ghost use Rattle.universe_model.specs.Versions.{is_release_with};
ghost use Rattle.universe_model.specs.Meeting.{is_within};
ghost use Rattle.universe_parts.specs.Listed.{version_listed};
ghost use Rattle.meeting_index.specs.Carriers.{met_under, own};
ghost use Rattle.meeting_index.specs.Fitting.{passes_with};
ghost use Rattle.lists.specs.Sets.{has};
ghost use Rattle.meeting_index.specs.Finding.{Finds};
ghost use Rattle.meeting_index.specs.Given.{given_parts};
ghost use Rattle.meeting_index.specs.Owners.{owner_of};
ghost use Rattle.meeting_index.specs.Provided.{carrier_of, carriers_listed, listed_for_versions};

use crate::given::Provided;
use choice_set::NoMemory;
use deb_version::Version;
use dep_fields::Op;
use universe_parts::{ListedVersion, is_within};

/// What carriers stand for: versions, or the packages of these.
#[derive(Clone, Copy)]
pub enum Sought {
    Versions,
    Packages,
}

/// The versions and what they provide. The carriers are numbered: the versions first, by their own numbers.
#[derive(Clone, Copy)]
pub struct Carriers<'t, 's, 'a> {
    pub versions: &'t [ListedVersion<'s, 'a>],
    pub provided: &'t [Provided<'a>],
    pub sought: Sought,
}

impl Carriers<'_, '_, '_> {
    ghost use Rattle.meeting_index.specs.Owners.{sought_as};

    /// What a version is sought as: itself, or its package.
    pub fn sought_as(&self, version: u32) -> u32
        ensures { result ≡ sought_as self.now.sought (map version_listed self.now.versions.now) version }
    {
        match self.sought {
            Sought::Versions => version,
            Sought::Packages => owner_of(self.versions, version),
        }
    }
}

// The package of a version.
fn owner_of(versions: &[ListedVersion<'_, '_>], version: u32) -> u32
    ensures { result ≡ owner_of (map version_listed versions.now) version }
{
    match versions.get(version as usize) {
        Some(listed) => listed.package,
        None => 0,
    }
}

/// Adds what the carriers with these numbers that are within a bound stand for.
pub fn add_met(
    met: &mut Vec<u32>,
    carriers: &Carriers<'_, '_, '_>,
    bound: Option<(Op, Version<'_>)>,
    numbers: &[u32],
) -> Result<(), NoMemory>
    ensures { OnOk result (met.new.items ≡ met.old.items ++ flat_map (λ number. met_under (option_map bound_of bound.entry) (slice_get (carriers_listed carriers.now) number)) numbers.now) }
{
    for number in numbers {
        if let Some(version) = found(carriers, bound, *number) {
            met.push(version)?;
        }
    }
    Ok(())
}

/// What the first of the carriers with these numbers that is within a bound stands for, if there is any.
pub fn first_met(
    carriers: &Carriers<'_, '_, '_>,
    bound: Option<(Op, Version<'_>)>,
    numbers: &[u32],
) -> Option<u32>
    ensures { Finds (has (flat_map (λ number. met_under (option_map bound_of bound.entry) (slice_get (carriers_listed carriers.now) number)) numbers.now)) result }
{
    for number in numbers {
        if let Some(version) = found(carriers, bound, *number) {
            return Some(version);
        }
    }
    None
}

// What the carrier with a number stands for, if there is one and it is within a bound.
fn found(
    carriers: &Carriers<'_, '_, '_>,
    bound: Option<(Op, Version<'_>)>,
    number: u32,
) -> Option<u32>
    ensures { option_to_list result ≡ met_under (option_map bound_of bound.entry) (slice_get (carriers_listed carriers.now) number) }
{
    match version_found(carriers, bound, number) {
        None => None,
        Some(version) => Some(carriers.sought_as(version)),
    }
}

// The version of the carrier with a number, if there is one and it is within a bound.
fn version_found(
    carriers: &Carriers<'_, '_, '_>,
    bound: Option<(Op, Version<'_>)>,
    number: u32,
) -> Option<u32>
    ensures { option_to_list result ≡ met_under (option_map bound_of bound.entry) (slice_get (listed_for_versions carriers.now) number) }
{
    let place = number as usize;
    let own = carriers.versions.len();
    if place < own {
        own_found(bound, number, &carriers.versions[place])
    } else if place - own < carriers.provided.len() {
        provided_found(bound, &carriers.provided[place - own])
    } else {
        None
    }
}

// The version, if it is within a bound.
fn own_found(
    bound: Option<(Op, Version<'_>)>,
    number: u32,
    version: &ListedVersion<'_, '_>,
) -> Option<u32>
    ensures { option_to_list result ≡ met_under (option_map bound_of bound.entry) (Some (own number (version_listed version.now))) }
{
    if is_release_within(bound, version) {
        Some(number)
    } else {
        None
    }
}

// The version that provides an item, if the item is within a bound.
fn provided_found(bound: Option<(Op, Version<'_>)>, provided: &Provided<'_>) -> Option<u32>
    ensures { option_to_list result ≡ met_under (option_map bound_of bound.entry) (Some (carrier_of provided.now)) }
{
    if is_given_within(bound, provided) {
        Some(provided.version)
    } else {
        None
    }
}

// Whether what is provided is within a bound. What is provided in no version is within none.
fn is_given_within(bound: Option<(Op, Version<'_>)>, provided: &Provided<'_>) -> bool
    ensures { result ≡ passes_with (given_parts provided.now.given.now) (option_map bound_of bound.entry) }
{
    if bound.is_none() {
        return true;
    }
    match provided.given() {
        None => false,
        Some(version) => is_within(bound, &version),
    }
}

// Whether a version is within a bound. What is absent is not.
fn is_release_within(bound: Option<(Op, Version<'_>)>, version: &ListedVersion<'_, '_>) -> bool
    ensures { result ≡ is_release_with (λ release. is_within (option_map bound_of bound.entry) release.parts) (version_listed version.now).release }
{
    let Some(read) = version.read else {
        return false;
    };
    let Some(version) = &read.stanza.version else {
        return false;
    };
    is_within(bound, version)
}

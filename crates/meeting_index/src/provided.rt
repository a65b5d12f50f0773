// The items of Provides of all versions.

ghost use Rattle.std.specs.Prelude.{◌≡◌, ◌≤◌, ◌++◌, ◌∷◌, [], ◌<◌, length, map, if◌then◌else◌, IfOk, OnOk};
ghost use Rattle.std.specs.List.{flat_map};
ghost use Rattle.dep_fields.specs.Relationships.{meaning};
ghost use Rattle.dep_fields.specs.Checked.{provides_groups};
ghost use Rattle.dep_fields.specs.Views.{group_items};
ghost use Rattle.problem.specs.Limits.{most_versions};
ghost use Rattle.universe_parts.specs.Listed.{version_listed};
ghost use Rattle.meeting_index.specs.Carriers.{all_provided, has_plain_arch, provided, provided_by, provided_in};
ghost use Rattle.meeting_index.specs.Provided.{carrier_of};

use crate::given::Provided;
use choice_set::NoMemory;
use dep_fields::{Group, Item, ProvidesField};
use std::alloc::Global;
use universe_parts::{ListedVersion, is_plain};

/// What all versions provide, in order. Items with another architecture are left out.
pub fn list_provided<'a>(
    alloc: Global,
    native: &[u8],
    versions: &[ListedVersion<'_, 'a>],
) -> Result<Vec<Provided<'a>>, NoMemory>
    requires { length versions.now ≤ most_versions }
    ensures { IfOk result (λ list. map carrier_of list.items ≡ all_provided native.now (map version_listed versions.now)) }
{
    let mut list = Vec::new(alloc);
    let mut number = 0;
    for version in versions {
        add_version(&mut list, native, number, version)?;
        number += 1;
    }
    Ok(list)
}

// Adds what a version provides; what is absent provides nothing.
fn add_version<'a>(
    list: &mut Vec<Provided<'a>>,
    native: &[u8],
    number: u32,
    version: &ListedVersion<'_, 'a>,
) -> Result<(), NoMemory>
    ensures { OnOk result (map carrier_of list.new.items ≡ map carrier_of list.old.items ++ provided_by native.now number (version_listed version.now)) }
{
    match version.read {
        None => Ok(()),
        Some(read) => add_groups(list, native, number, read.stanza.relations.provides),
    }
}

fn add_groups<'a>(
    list: &mut Vec<Provided<'a>>,
    native: &[u8],
    number: u32,
    provides: ProvidesField<'a>,
) -> Result<(), NoMemory>
    ensures { OnOk result (map carrier_of list.new.items ≡ map carrier_of list.old.items ++ flat_map (provided_in native.now number) (provides_groups provides.entry)) }
{
    for group in provides.groups() {
        add_group(list, native, number, &group)?;
    }
    Ok(())
}

fn add_group<'a>(
    list: &mut Vec<Provided<'a>>,
    native: &[u8],
    number: u32,
    group: &Group<'a>,
) -> Result<(), NoMemory>
    ensures { OnOk result (map carrier_of list.new.items ≡ map carrier_of list.old.items ++ provided_in native.now number (group_items group.now)) }
{
    for item in group.items() {
        add_item(list, native, number, &item)?;
    }
    Ok(())
}

// Adds an item, unless it has another architecture.
fn add_item<'a>(
    list: &mut Vec<Provided<'a>>,
    native: &[u8],
    number: u32,
    item: &Item<'a>,
) -> Result<(), NoMemory>
    ensures { OnOk result (map carrier_of list.new.items ≡ map carrier_of list.old.items ++ (if has_plain_arch native.now (meaning item.now) then provided number (meaning item.now) ∷ [] else [])) }
{
    if !is_plain(native, item.arch) {
        return Ok(());
    }
    list.push(Provided::new(item, number))?;
    Ok(())
}

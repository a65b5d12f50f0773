// The carriers by their names.

ghost use Rattle.std.specs.Prelude.{◌≡◌, ◌≤◌, ◌++◌, ◌+◌, ℕ, Bool, length, map, IfOk, OnOk};
ghost use Rattle.std.specs.List.{list_any};
ghost use Rattle.problem.specs.Limits.{most_versions};
ghost use Rattle.universe_model.specs.Lists.{map_from, numbers_of};
ghost use Rattle.universe_parts.specs.Listed.{version_listed};
ghost use Rattle.meeting_index.specs.Carriers.{is_named, own};
ghost use Rattle.meeting_index.specs.Named.{numbers_in};
ghost use Rattle.meeting_index.specs.Rows.{AreRows, numbers_by};
ghost use Rattle.meeting_index.specs.NameTables.{numbers_at};
ghost use Rattle.meeting_index.specs.Provided.{carrier_of};
ghost use Rattle.meeting_index.specs.declared.named.Name.{Name};
ghost use Rattle.meeting_index.specs.Numbers.{numbers_from};

use crate::given::Provided;
use crate::named::Named;
use crate::rows::{NamedNumbers, NumberRow, add_number, empty_rows};
use choice_set::NoMemory;
use std::alloc::Global;
use universe_parts::{ListedVersion, Names};

/// All carriers by their names: the versions under their own numbers, and then what they provide.
pub fn name_carriers<'n, 'a>(
    alloc: Global,
    names: &'n Names,
    versions: &[ListedVersion<'_, 'a>],
    provided: &[Provided<'a>],
) -> Result<NamedNumbers<'n, 'a>, NoMemory>
    requires { length versions.now ≤ most_versions }
    ensures { IfOk result (λ named. (name : Name) (test : ℕ → Bool) → list_any test (numbers_at named name.bytes.now) ≡ list_any test (numbers_of (is_named name.bytes.now) (map_from own 0 (map version_listed versions.now) ++ map carrier_of provided.now))) }
{
    let mut rows = empty_rows(alloc, names.len())?;
    let mut others = Vec::new(alloc);
    name_versions(names, &mut rows, &mut others, versions)?;
    let first = versions.len() as u32;
    name_provided(names, &mut rows, &mut others, first, provided)?;
    let named = NamedNumbers::new(alloc, names, rows, others)?;
    Ok(named)
}

// Names each version by its package, under its number. The names are mostly those of the packages, by their numbers.
fn name_versions<'a>(
    names: &Names,
    rows: &mut Vec<NumberRow<'a>>,
    others: &mut Vec<Named<'a>>,
    versions: &[ListedVersion<'_, 'a>],
) -> Result<(), NoMemory>
    requires few { length versions.now ≤ most_versions }
    requires rows { AreRows names.now rows.old.items }
    ensures rows { OnOk result (AreRows names.now rows.new.items) }
    ensures named { OnOk result ((name : Name) → numbers_by names.now rows.new.items (numbers_in others.new.items name.bytes.now) name.bytes.now ≡ numbers_by names.now rows.old.items (numbers_in others.old.items name.bytes.now) name.bytes.now ++ numbers_of (is_named name.bytes.now) (map_from own 0 (map version_listed versions.now))) }
{
    let mut number = 0;
    for version in versions {
        let guess = Some(version.package as usize);
        add_number(names, rows, others, version.name, guess, number)?;
        number += 1;
    }
    Ok(())
}

// Names each item of Provides, under numbers from a first one on. More of them than there are numbers are a want of memory.
fn name_provided<'a>(
    names: &Names,
    rows: &mut Vec<NumberRow<'a>>,
    others: &mut Vec<Named<'a>>,
    first: u32,
    provided: &[Provided<'a>],
) -> Result<(), NoMemory>
    requires { AreRows names.now rows.old.items }
    ensures rows { OnOk result (AreRows names.now rows.new.items) }
    ensures named { OnOk result ((name : Name) → numbers_by names.now rows.new.items (numbers_in others.new.items name.bytes.now) name.bytes.now ≡ numbers_by names.now rows.old.items (numbers_in others.old.items name.bytes.now) name.bytes.now ++ numbers_from first (is_named name.bytes.now) (map carrier_of provided.now)) }
{
    let mut number = first;
    for item in provided {
        add_number(names, rows, others, item.name, None, number)?;
        number = next_number(number)?;
    }
    Ok(())
}

fn next_number(number: u32) -> Result<u32, NoMemory>
    ensures { IfOk result (λ next. next ≡ number + 1) }
{
    match number.checked_add(1) {
        Some(next) => Ok(next),
        None => Err(NoMemory),
    }
}

//! The stanzas of two files, by package.

ghost use Rattle.std.specs.Prelude.{◌≡◌, ◌<◌, [], ◌∷◌, ◌++◌, map, length, List, OnOk, IfOk};
ghost use Rattle.std.specs.List.{position_or_len};
ghost use Rattle.ascii.specs.Texts.{is_same};
ghost use Rattle.universe_model.specs.Reading as reading;
ghost use Rattle.universe_parts.specs.Listed.{stanza_read};
ghost use Rattle.universe_parts.specs.Names.{with_name};
ghost use Rattle.version_list.specs.Listings.{stanzas_read};
ghost use Rattle.version_list.specs.Rows.{AreRows, row_read, of_status, with_named_row};

use crate::rows::Row;
use choice_set::NoMemory;
use std::alloc::Global;
use universe_parts::{Names, ReadStanza};

// The place of the row of a name, which goes to the end where it is missing.
fn place_of<'s, 'a>(
    alloc: Global,
    names: &mut Names,
    rows: &mut Vec<Row<'s, 'a>>,
    name: &'a [u8],
) -> Result<usize, NoMemory>
    requires { length rows.old.items ≡ length names.old }
    ensures names { OnOk result (names.new ≡ with_name names.old name.now) }
    ensures rows { OnOk result (map row_read rows.new.items ≡ with_named_row names.old (map row_read rows.old.items) name.now) }
    ensures place { IfOk result (λ place. place ≡ position_or_len (is_same name.now) names.old) }
    ensures inside { IfOk result (λ place. place < length rows.new.items) }
    ensures sizes { OnOk result (length rows.new.items ≡ length names.new) }
{
    let place = names.add(alloc, name)?;
    if place == rows.len() {
        rows.push(Row::new(alloc, name))?;
    }
    Ok(place)
}

// Files a stanza of a status file.
fn file_status<'s, 'a>(
    alloc: Global,
    names: &mut Names,
    rows: &mut Vec<Row<'s, 'a>>,
    read: &'s ReadStanza<'a>,
) -> Result<(), NoMemory>
    requires { length rows.old.items ≡ length names.old }
    ensures { (status : List reading.ReadStanza) → AreRows (of_status status) names.old rows.old.items → OnOk result (AreRows (of_status (status ++ stanza_read read.now ∷ [])) names.new rows.new.items) }
{
    let place = place_of(alloc, names, rows, read.stanza.name)?;
    let row = &mut rows[place];
    row.add_status(read)?;
    Ok(())
}

// Files a stanza of a packages file.
fn file_package<'s, 'a>(
    alloc: Global,
    names: &mut Names,
    rows: &mut Vec<Row<'s, 'a>>,
    read: &'s ReadStanza<'a>,
) -> Result<(), NoMemory>
    requires { length rows.old.items ≡ length names.old }
    ensures sizes { OnOk result (length rows.new.items ≡ length names.new) }
    ensures filed { (status packages : List reading.ReadStanza) → AreRows (record { status = status; packages = packages }) names.old rows.old.items → OnOk result (AreRows (record { status = status; packages = packages ++ stanza_read read.now ∷ [] }) names.new rows.new.items) }
{
    let place = place_of(alloc, names, rows, read.stanza.name)?;
    let row = &mut rows[place];
    row.add_package(read)?;
    Ok(())
}

// Files the stanzas of a status file.
fn file_statuses<'s, 'a>(
    alloc: Global,
    names: &mut Names,
    rows: &mut Vec<Row<'s, 'a>>,
    status: &'s [ReadStanza<'a>],
) -> Result<(), NoMemory>
    requires { AreRows (of_status []) names.old rows.old.items }
    ensures { OnOk result (AreRows (of_status (map stanza_read status.now)) names.new rows.new.items) }
{
    for read in status {
        file_status(alloc, names, rows, read)?;
    }
    Ok(())
}

// Files the stanzas of a packages file, behind those of the status file.
fn file_packages<'s, 'a>(
    alloc: Global,
    names: &mut Names,
    rows: &mut Vec<Row<'s, 'a>>,
    packages: &'s [ReadStanza<'a>],
) -> Result<(), NoMemory>
    requires { length rows.old.items ≡ length names.old }
    ensures { (status : List reading.ReadStanza) → AreRows (of_status status) names.old rows.old.items → OnOk result (AreRows (record { status = status; packages = map stanza_read packages.now }) names.new rows.new.items) }
{
    for read in packages {
        file_package(alloc, names, rows, read)?;
    }
    Ok(())
}

/// What is kept of each package of the stanzas of a status file and of a packages file, in order of their names' first
/// stanzas; the names are numbered in that order.
pub fn read_rows<'s, 'a>(
    alloc: Global,
    names: &mut Names,
    status: &'s [ReadStanza<'a>],
    packages: &'s [ReadStanza<'a>],
) -> Result<Vec<Row<'s, 'a>>, NoMemory>
    requires { names.old ≡ [] }
    ensures { IfOk result (λ rows. AreRows (stanzas_read status.now packages.now) names.new rows.items) }
{
    let mut rows = Vec::new(alloc);
    file_statuses(alloc, names, &mut rows, status)?;
    file_packages(alloc, names, &mut rows, packages)?;
    Ok(rows)
}

//! Packages, each with versions that an item leaves of it, in two flat tables.

ghost use Rattle.std.specs.Prelude.{◌≡◌, ◌<◌, ◌++◌, ◌∷◌, [], length, slice_index_or, IsTrue, OnOk};
ghost use Rattle.std.specs.List.{list_all};
ghost use Rattle.requirement_list.specs.Left.{all_left, is_entry, nothing_left};

use choice_set::NoMemory;
use std::alloc::Global;
use std::marker::Model;

/// A package, whose versions stand from `first` to before `end`.
#[derive(Clone, Copy, Drop)]
pub struct Entry {
    pub owner: u32,
    pub first: usize,
    pub end: usize,
}

/// Packages, each with versions of it. A contract sees them as a list.
#[derive(Drop)]
pub struct LeftTable {
    entries: Vec<Entry>,
    versions: Vec<u32>,
}

impl Model for LeftTable {
    ghost use Rattle.std.specs.Prelude.{List, IsTrue};
    ghost use Rattle.std.specs.List.{list_all};
    ghost use Rattle.requirement_list.specs.Left.{Left, all_left, is_entry};

    ghost Value = { List Left };

    ghost view = { λ t. all_left t.versions.items t.entries.items };

    ghost invariant = { λ t. IsTrue (list_all (is_entry t.versions.items) t.entries.items) };
}

// Adds a package with its versions.
fn add_entry(
    entries: &mut Vec<Entry>,
    table: &mut Vec<u32>,
    owner: u32,
    versions: &[u32],
) -> Result<(), NoMemory>
    requires { IsTrue (list_all (is_entry table.old.items) entries.old.items) }
    ensures entries { IsTrue (list_all (is_entry table.new.items) entries.new.items) }
    ensures added { OnOk result (all_left table.new.items entries.new.items ≡ all_left table.old.items entries.old.items ++ record { owner = owner; versions = versions.now } ∷ []) }
{
    let first = table.len();
    table.extend_from_slice(versions)?;
    let end = table.len();
    entries.push(Entry { owner, first, end })?;
    Ok(())
}

impl LeftTable {
    /// No packages.
    pub fn new(alloc: Global) -> LeftTable
        ensures { result ≡ [] }
    {
        LeftTable {
            entries: Vec::new(alloc),
            versions: Vec::new(alloc),
        }
    }

    /// Takes all packages off.
    pub fn clear(&mut self)
        ensures { self.new ≡ [] }
    {
        self.entries.clear();
        self.versions.clear();
    }

    /// How many packages there are.
    pub fn len(&self) -> usize
        ensures { result ≡ length self.now }
    {
        self.entries.len()
    }

    /// The package at a place.
    pub fn owner(&self, place: usize) -> u32
        requires { place < length self.now }
        ensures { result ≡ (slice_index_or self.now place nothing_left).owner }
    {
        self.entries[place].owner
    }

    /// The versions of the package at a place.
    pub fn versions(&self, place: usize) -> &[u32]
        requires { place < length self.now }
        ensures { result.now ≡ (slice_index_or self.now place nothing_left).versions }
    {
        let entry = self.entries[place];
        &self.versions[entry.first..entry.end]
    }

    /// Adds a package with its versions at the end.
    ///
    /// The only error is `NoMemory`.
    pub fn push(&mut self, owner: u32, versions: &[u32]) -> Result<(), NoMemory>
        ensures { OnOk result (self.new ≡ self.old ++ record { owner = owner; versions = versions.now } ∷ []) }
    {
        add_entry(&mut self.entries, &mut self.versions, owner, versions)
    }
}

impl LeftTable {
    /// Adds the packages of another table at the end.
    ///
    /// The only error is `NoMemory`.
    pub fn append(&mut self, other: &LeftTable) -> Result<(), NoMemory>
        ensures { OnOk result (self.new ≡ self.old ++ other.now) }
    {
        for place in 0..other.len() {
            self.push(other.owner(place), other.versions(place))?;
        }
        Ok(())
    }
}

// The names that a shelf was asked for, each with its count of faults.
ghost use Rattle.std.specs.Prelude.{◌≡◌, ◌==◌, [], OnOk, OnErr, string_bytes};
ghost use Rattle.std.specs.Str.{bytes_eq};
ghost use Rattle.std.specs.List.{position};
ghost use Rattle.apt_base.specs.Faults.{raised};

use choice_set::NoMemory;
use std::alloc::Global;
use std::marker::Model;

/// A name and how often the shelf has failed for it.
#[derive(Drop)]
pub struct Entry {
    pub name: String,
    pub faults: u64,
}

/// The names asked, in the order in which they came, seen as the list of names and counts.
#[derive(Drop)]
pub struct Asked {
    entries: Vec<Entry>,
}

impl Model for Asked {
    ghost use Rattle.std.specs.Prelude.{ℕ, List};
    ghost use Rattle.apt_base.specs.Faults.{ByName};
    ghost use Rattle.apt_base.specs.Asked.{counts_of};

    ghost Value = { ByName ℕ };

    ghost view = { λ asked. counts_of asked.entries.items };
}

impl Asked {
    ghost use Rattle.apt_base.specs.Asked.{with_name, with_fault};

    /// No name was asked yet.
    pub fn new(alloc: Global) -> Asked
        ensures { result ≡ [] }
    {
        Asked {
            entries: Vec::new(alloc),
        }
    }

    /// Enters a name, if it is not there.
    pub fn enter(&mut self, alloc: Global, name: &str) -> Result<(), NoMemory>
        ensures ok { OnOk result (self.new ≡ with_name self.old name.now) }
        ensures err { OnErr result (self.new ≡ self.old) }
    {
        if place_of(self.entries.as_slice(), name).is_some() {
            return Ok(());
        }
        let name = String::from_str(alloc, name)?;
        self.entries.push(Entry { name, faults: 0 })?;
        Ok(())
    }

    /// Raises the count of a name by one, up to its end.
    pub fn raise(&mut self, name: &str)
        ensures { self.new ≡ with_fault self.old name.now }
    {
        match place_of(self.entries.as_slice(), name) {
            Some(place) => {
                let entry = &mut self.entries[place];
                entry.faults = one_more(entry.faults);
            }
            None => {}
        }
    }
}

/// Where the first entry with that name stands.
fn place_of(entries: &[Entry], name: &str) -> Option<usize>
    ensures { result ≡ position (λ entry. bytes_eq name.now (string_bytes entry.name)) entries.now }
{
    entries.iter().position(|entry| name == entry.name.as_str())
}

/// The count after one more fault.
fn one_more(count: u64) -> u64
    ensures { result ≡ raised count }
{
    count.saturating_add(1)
}

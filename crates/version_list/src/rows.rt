//! What is kept of each package while the stanzas are read.

ghost use Rattle.std.specs.Prelude.{◌≡◌, ◌≤◌, true, length, nat_lt, not, ◌||◌};
ghost use Rattle.version_list.specs.Releases.{AreOthers};

use crate::given::Release;
use crate::releases::{add_release, greatest};
use choice_set::NoMemory;
use std::alloc::Global;
use std::collections::BTreeSet;
use universe_parts::ReadStanza;

/// What is kept of a package: its name, the wish of its first status stanza, whether a status stanza gives a version of
/// it, and its versions. Of equal versions only the first that was read is kept.
#[derive(Drop)]
pub struct Row<'s, 'a> {
    pub name: &'a [u8],
    pub hold: Option<bool>,
    pub installed: bool,
    pub releases: Vec<Release<'s, 'a>>,
    // all versions but the first
    others: BTreeSet<Release<'s, 'a>>,
    ghost others_are: { AreOthers releases.items others },
    ghost installed_is_there: { (not installed || nat_lt 0 (length releases.items)) ≡ true },
}

impl<'s, 'a> Row<'s, 'a> {
    ghost use Rattle.std.specs.Prelude.{map, OnOk};
    ghost use Rattle.std.specs.List.{list_any};
    ghost use Rattle.universe_model.specs.Versions.{is_same_version};
    ghost use Rattle.universe_parts.specs.Listed.{stanza_read};
    ghost use Rattle.version_list.specs.Releases.{release_stanza};
    ghost use Rattle.version_list.specs.Rows.{row_read, empty_row, with_release, with_package_stanza, with_status_stanza, candidate_place, installed_place};

    /// A package of which nothing is read yet.
    pub fn new(alloc: Global, name: &'a [u8]) -> Row<'s, 'a>
        ensures { row_read result ≡ empty_row name.now }
    {
        Row {
            name,
            hold: None,
            installed: false,
            releases: Vec::new(alloc),
            others: BTreeSet::new(alloc),
        }
    }

    /// Adds a stanza of a packages file.
    pub fn add_package(&mut self, read: &'s ReadStanza<'a>) -> Result<(), NoMemory>
        ensures { OnOk result (row_read self.new ≡ with_package_stanza (row_read self.old) (stanza_read read.now)) }
    {
        add_release(&mut self.releases, &mut self.others, read)
    }

    /// Adds a stanza of a status file.
    pub fn add_status(&mut self, read: &'s ReadStanza<'a>) -> Result<(), NoMemory>
        ensures { OnOk result (row_read self.new ≡ with_status_stanza (row_read self.old) (stanza_read read.now)) }
    {
        add_release(&mut self.releases, &mut self.others, read)?;
        self.hold = self.hold.or(Some(read.stanza.hold));
        self.installed = self.installed || read.stanza.present;
        Ok(())
    }

    /// The place of the candidate among absent, which has the place 0, and the package's versions.
    pub fn candidate_place(&self) -> usize
        ensures place { result ≡ candidate_place (map release_stanza self.now.releases.items) }
        ensures range { result ≤ length self.now.releases.items }
    {
        if self.releases.is_empty() {
            0
        } else {
            greatest(self.releases.as_slice()) + 1
        }
    }

    /// The place of the installed version among absent and the package's versions.
    pub fn installed_place(&self) -> u32
        ensures place { result ≡ installed_place (row_read self.now) }
        ensures range { result ≤ length self.now.releases.items }
    {
        u32::from(self.installed)
    }
}

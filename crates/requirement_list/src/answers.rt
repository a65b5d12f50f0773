//! What was listed for items of Conflicts and Breaks, kept for when an item comes again that the same versions meet.

ghost use Rattle.std.specs.Prelude.{◌≡◌, false, IsTrue, IfSome, OnOk};
ghost use Rattle.std.specs.List.{list_any};
ghost use Rattle.dep_fields.specs.Relationships.{Relationship};
ghost use Rattle.meeting_index.specs.Keys.{IsKeyOf};
ghost use Rattle.universe_model.specs.Dependencies.{Setting};
ghost use Rattle.requirement_list.specs.Extents.{lists, Serves};
ghost use Rattle.requirement_list.specs.Answers.{AreRows, IsKept, index_in, row_of};

use crate::left::LeftTable;
use choice_set::NoMemory;
use meeting_index::AnswerKey;
use std::alloc::Global;
use std::collections::BTreeMap;

/// How much is listed for an item: all packages that it concerns, and the versions that it leaves of all of them, of all but
/// one, or of none.
#[derive(Clone, Copy, Drop)]
pub enum Extent {
    All,
    AllBut(u32),
    Packages,
}

impl Extent {
    /// Whether the versions of a package are listed.
    pub fn lists(self, owner: u32) -> bool
        ensures { result ≡ lists self owner }
    {
        match self {
            Extent::All => true,
            Extent::AllBut(other) => owner != other,
            Extent::Packages => false,
        }
    }

    /// Whether the versions of one of these packages are listed.
    pub fn lists_one(self, packages: &[u32]) -> bool
        ensures { result ≡ list_any (lists self) packages.now }
    {
        for package in packages {
            if self.lists(*package) {
                return true;
            }
        }
        false
    }

    // Whether the versions of all packages but one are listed.
    fn serves(self, own: u32) -> bool
        ensures { IsTrue result → Serves self own }
    {
        match self {
            Extent::All => true,
            Extent::AllBut(other) => other == own,
            Extent::Packages => false,
        }
    }
}

/// What the answer to items is known by, and where the packages stand that they concern.
#[derive(Clone, Copy, Drop)]
pub struct Row {
    pub key: AnswerKey,
    pub extent: Extent,
    pub first: usize,
    pub end: usize,
}

/// What was listed for items, by what their answers are known by.
#[derive(Drop)]
pub struct Answers {
    pub table: LeftTable,
    pub rows: Vec<Row>,
    // the place of each key's row, of its latest where it was listed more than once
    places: BTreeMap<AnswerKey, usize>,
}

fn is_same_key(a: AnswerKey, b: AnswerKey) -> bool
    ensures { IsTrue result → a ≡ b }
{
    a.span == b.span && a.carrier == b.carrier
}

impl Answers {
    /// Nothing.
    pub fn new(alloc: Global) -> Answers
        ensures { (s : Setting) → AreRows s result }
    {
        Answers {
            table: LeftTable::new(alloc),
            rows: Vec::new(alloc),
            places: BTreeMap::new(alloc),
        }
    }

    // What was listed the last time.
    fn find(&self, key: Option<AnswerKey>) -> Option<Row>
        ensures { IfSome result (IsKept self.now key) }
    {
        let key = key?;
        let place = *self.places.get(&key)?;
        let row = *self.rows.get(place)?;
        if is_same_key(key, row.key) {
            return Some(row);
        }
        None
    }

    /// What was listed, if it serves a source of the package `own`, whose dependencies are only counted or not.
    pub fn find_serving(&self, key: Option<AnswerKey>, own: u32, counts: bool) -> Option<Row>
        ensures { IfSome result (λ row. IsKept self.now key row × (counts ≡ false → Serves row.extent own)) }
    {
        let row = self.find(key)?;
        if counts || row.extent.serves(own) {
            return Some(row);
        }
        None
    }

    /// How much is to be listed for a source of the package `own`. The versions of that package itself are listed only when
    /// another source asks for them.
    pub fn extent_for(&self, key: Option<AnswerKey>, own: u32, counts: bool) -> Extent
        ensures { counts ≡ false → Serves result own }
    {
        if counts {
            return Extent::Packages;
        }
        if self.find(key).is_some() {
            return Extent::All;
        }
        Extent::AllBut(own)
    }

    /// Keeps what was listed.
    ///
    /// The only error is `NoMemory`.
    pub fn keep(
        &mut self,
        key: AnswerKey,
        extent: Extent,
        listed: &LeftTable,
    ) -> Result<(), NoMemory>
        ensures { OnOk result ((s : Setting) (item : Relationship) → IsKeyOf (index_in s) item key → listed.now ≡ row_of s item extent → AreRows s self.old → AreRows s self.new) }
    {
        let first = self.table.len();
        self.table.append(listed)?;
        let end = self.table.len();
        let place = self.rows.len();
        self.rows.push(Row {
            key,
            extent,
            first,
            end,
        })?;
        self.places.insert(key, place)?;
        Ok(())
    }
}

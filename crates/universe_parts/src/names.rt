//! Package names and their numbers.

ghost use Rattle.std.specs.Prelude.{◌≡◌, ◌<◌, [], ◌∷◌, ◌++◌, List, ℕ, None, length, is_ok, if◌then◌else◌, IfOk, OnOk, OnErr, slice_get, slice_index_or};
ghost use Rattle.std.specs.List.{position, position_or_len};
ghost use Rattle.ascii.specs.Texts.{is_same};
ghost use Rattle.universe_parts.specs.Hashes.{share_of};
ghost use Rattle.universe_parts.specs.Names.{AreNumbered, first_in, with_name};
ghost use Rattle.lists.specs.Distinct.{distinct};

use crate::text_table::TextTable;
use choice_set::NoMemory;
use std::alloc::Global;
use std::collections::BTreeMap;
use std::hash::{FoldHasher, Hasher};
use std::marker::Model;

/// Package names (Debian Policy 5.6.1), numbered from 0 in the order in which they were first added. A name is found by the share
/// of all hashes that its hash is in. The first name of a share has its slot, and the few others stand in their order: however
/// names are chosen, one is found among many by halves.
#[derive(Drop)]
pub struct Names {
    list: TextTable,
    // of each share 0, or 1 more than the number of its first name
    slots: Vec<u32>,
    // the names that found their slots taken
    others: BTreeMap<Vec<u8>, usize>,
    ghost sized: { length slots.items ≡ 524288 },
    ghost numbered: { AreNumbered list slots.items others.entries },
}

impl Model for Names {
    ghost use Rattle.std.specs.Prelude.{ℕ, List};

    ghost Value = { List (List ℕ) };

    ghost view = { λ n. n.list };
}

// Slots of which none is taken.
fn free_slots(alloc: Global, count: usize) -> Result<Vec<u32>, NoMemory>
    ensures sized { IfOk result (λ slots. length slots.items ≡ count) }
    ensures free { IfOk result (λ slots. AreNumbered [] slots.items []) }
{
    let slots = vec![in alloc; 0u32; count]?;
    Ok(slots)
}

// Which share of all hashes a name is in.
fn share_of(name: &[u8]) -> usize
    ensures share { result ≡ share_of name.now }
    ensures range { result < 524288 }
{
    let mut hasher = FoldHasher::default();
    hasher.write(name);
    (hasher.finish() >> 45) as usize
}

// The number that a slot has.
fn first_in(slot: u32) -> Option<usize>
    ensures { result ≡ first_in slot }
{
    if slot == 0 {
        return None;
    }
    Some(slot as usize - 1)
}

// Numbers a name that has none.
fn number_name(
    alloc: Global,
    slots: &mut Vec<u32>,
    others: &mut BTreeMap<Vec<u8>, usize>,
    name: &[u8],
    number: usize,
) -> Result<(), NoMemory>
    requires { length slots.old.items ≡ 524288 }
    ensures sized { length slots.new.items ≡ 524288 }
    ensures kept { OnErr result ((slots.new.items ≡ slots.old.items) × (others.new.entries ≡ others.old.entries)) }
    ensures numbered { (names : List (List ℕ)) → AreNumbered names slots.old.items others.old.entries → position (is_same name.now) names ≡ None → number ≡ length names → OnOk result (AreNumbered (names ++ name.now ∷ []) slots.new.items others.new.entries) }
{
    let share = share_of(name);
    if slots[share] == 0 {
        let Ok(before) = u32::try_from(number) else {
            return Err(NoMemory);
        };
        let Some(slot) = before.checked_add(1) else {
            return Err(NoMemory);
        };
        slots[share] = slot;
        return Ok(());
    }
    let key = Vec::from_slice(alloc, name)?;
    others.insert(key, number)?;
    Ok(())
}

impl Names {
    /// No names.
    pub fn new(alloc: Global) -> Result<Names, NoMemory>
        ensures { IfOk result (λ names. names ≡ []) }
    {
        let slots = free_slots(alloc, 524_288)?;
        Ok(Names {
            list: TextTable::new(alloc),
            slots,
            others: BTreeMap::new(alloc),
        })
    }

    /// How many names there are.
    pub fn len(&self) -> usize
        ensures { result ≡ length self.now }
    {
        self.list.len()
    }

    /// The number of a name, or `None` where it was not added.
    pub fn number_of(&self, name: &[u8]) -> Option<usize>
        ensures { result ≡ position (is_same name.now) self.now }
    {
        let first = first_in(self.slots[share_of(name)])?;
        if name == self.list.at(first) {
            return Some(first);
        }
        self.others.get(name).copied()
    }

    /// The number of a name, or `None` where it was not added. It is found at once where it is the number that is guessed.
    pub fn number_near(&self, name: &[u8], guess: usize) -> Option<usize>
        ensures { result ≡ position (is_same name.now) self.now }
    {
        if guess < self.list.len() && name == self.list.at(guess) {
            return Some(guess);
        }
        self.number_of(name)
    }

    /// The name with a number.
    pub fn at(&self, number: usize) -> &[u8]
        requires { number < length self.now }
        ensures { slice_get self.now number ≡ Some result.now }
    {
        self.list.at(number)
    }

    /// Adds a name, unless it is there, and gives its number. So the names are the distinct ones of all that were added,
    /// in order of first appearance. For want of memory nothing is added.
    pub fn add(&mut self, alloc: Global, name: &[u8]) -> Result<usize, NoMemory>
        ensures number { IfOk result (λ number. number ≡ position_or_len (is_same name.now) self.old) }
        ensures added { self.new ≡ (if is_ok result then with_name self.old name.now else self.old) }
        ensures read { (read : List (List ℕ)) → self.old ≡ distinct is_same read → OnOk result (self.new ≡ distinct is_same (read ++ name.now ∷ [])) }
    {
        if let Some(number) = self.number_of(name) {
            return Ok(number);
        }
        let number = self.list.len();
        self.list.push(name)?;
        match number_name(alloc, &mut self.slots, &mut self.others, name, number) {
            Ok(()) => Ok(number),
            Err(NoMemory) => {
                self.list.truncate(number);
                Err(NoMemory)
            }
        }
    }
}

// The targets of a group, as they are gathered.

ghost use Rattle.std.specs.Prelude.{◌≡◌, ◌||◌, ◌==◌, [], ℕ, true, IsTrue, OnOk};
ghost use Rattle.lists.specs.Sets.{has};

use choice_set::NoMemory;
use std::alloc::Global;

/// The targets of a group, and room that is used again for each group.
#[derive(Drop)]
pub struct Targets {
    pub numbers: Vec<u32>,
    /// What one item finds.
    pub found: Vec<u32>,
    // where a number stands among the gathered ones, if it is one of them
    places: Vec<u32>,
}

impl Targets {
    /// No targets.
    pub fn new(alloc: Global) -> Targets
        ensures { result.numbers.items ≡ [] }
    {
        Targets {
            numbers: Vec::new(alloc),
            found: Vec::new(alloc),
            places: Vec::new(alloc),
        }
    }

    /// Makes room for the places of so many numbers.
    pub fn make_room(&mut self, count: usize) -> Result<(), NoMemory>
        ensures { self.new.numbers ≡ self.old.numbers }
    {
        if self.places.len() < count {
            self.places.resize(count, 0)?;
        }
        Ok(())
    }

    /// Adds what an item found to the targets. Of what is there already only the place is looked at.
    pub fn add_found(&mut self) -> Result<(), NoMemory>
        ensures { OnOk result ((c : ℕ) → has self.new.numbers.items c ≡ (has self.old.numbers.items c || has self.old.found.items c)) }
    {
        add_each(&mut self.numbers, &mut self.places, self.found.as_slice())
    }
}

// Adds those numbers that are not there.
fn add_each(numbers: &mut Vec<u32>, places: &mut Vec<u32>, found: &[u32]) -> Result<(), NoMemory>
    ensures { OnOk result ((c : ℕ) → has numbers.new.items c ≡ (has numbers.old.items c || has found.now c)) }
{
    for number in found {
        add_once(numbers, places, *number)?;
    }
    Ok(())
}

// Adds a number, unless it is there.
fn add_once(numbers: &mut Vec<u32>, places: &mut Vec<u32>, number: u32) -> Result<(), NoMemory>
    ensures { OnOk result ((c : ℕ) → has numbers.new.items c ≡ (has numbers.old.items c || number == c)) }
{
    if is_there(numbers, places, number) {
        return Ok(());
    }
    note_place(places, number, numbers.len());
    numbers.push(number)?;
    Ok(())
}

// Whether a number stands where its place says. Whatever the places are, it is there then.
fn is_there(numbers: &[u32], places: &[u32], number: u32) -> bool
    ensures { IsTrue result → has numbers.now number ≡ true }
{
    let Some(place) = places.get(number as usize) else {
        return false;
    };
    match numbers.get(*place as usize) {
        Some(other) => *other == number,
        None => false,
    }
}

// Notes where a number stands.
fn note_place(places: &mut [u32], number: u32, place: usize) {
    let Ok(place) = u32::try_from(place) else {
        return;
    };
    if let Some(noted) = places.get_mut(number as usize) {
        *noted = place;
    }
}

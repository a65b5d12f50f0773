// Marks on choices, and the list of them.
ghost use Rattle.std.specs.Prelude.{◌≡◌, ◌<◌, ℕ, List, [], ◌∷◌, ◌++◌, length, slice_index_or, is_ok, if◌then◌else◌};
ghost use Rattle.resolver_model.specs.declared.marks.Mark.{Mark};

use choice_set::NoMemory;
use std::alloc::Global;
use std::marker::Model;

/// What a user said of a choice, as by the commands `reject` and `approve` of aptitude's dialogue.
#[derive(Clone, Copy, Debug, PartialEq, Eq)]
pub enum Mark {
    /// Nothing, or that an earlier mark no longer holds.
    Free,
    /// Each solution has to have it.
    Approved,
    /// No solution may have it.
    Rejected,
}

/// A list of choices with their marks, seen as the list of its pairs.
#[derive(Debug, Drop)]
pub struct Marks {
    items: Vec<(u32, Mark)>,
}

impl Model for Marks {
    ghost Value = { List (ℕ × Mark) };

    ghost view = { λ a. a.items.items };
}

impl Marks {
    /// The empty list. It takes no memory.
    pub fn new(alloc: Global) -> Marks
        ensures { result ≡ [] }
    {
        Marks {
            items: Vec::new(alloc),
        }
    }

    /// Puts a choice with its mark at the end. After `NoMemory` the list is as before.
    pub fn push(&mut self, item: (u32, Mark)) -> Result<(), NoMemory>
        ensures { self.new ≡ (if is_ok result then self.old ++ item ∷ [] else self.old) }
    {
        self.items.push(item)?;
        Ok(())
    }

    /// The number of pairs.
    pub fn len(&self) -> usize
        ensures { result ≡ length self.now }
    {
        self.items.len()
    }

    /// The pair at this place, counted from 0; `place` is below the number of pairs.
    pub fn at(&self, place: usize) -> &(u32, Mark)
        requires { place < length self.now }
        ensures { result.now ≡ slice_index_or self.now place result.now }
    {
        &self.items[place]
    }

    /// All pairs in order.
    pub fn as_slice(&self) -> &[(u32, Mark)]
        ensures { result.now ≡ self.now }
    {
        self.items.as_slice()
    }
}

/// A list of caps, seen as the list of its pairs: a level of the cost, counted from 0, and the most that a cost may
/// have there.
#[derive(Debug, Drop)]
pub struct Caps {
    items: Vec<(u32, u64)>,
}

impl Model for Caps {
    ghost Value = { List (ℕ × ℕ) };

    ghost view = { λ a. a.items.items };
}

impl Caps {
    /// The empty list. It takes no memory.
    pub fn new(alloc: Global) -> Caps
        ensures { result ≡ [] }
    {
        Caps {
            items: Vec::new(alloc),
        }
    }

    /// Puts a level with its most at the end. After `NoMemory` the list is as before.
    pub fn push(&mut self, item: (u32, u64)) -> Result<(), NoMemory>
        ensures { self.new ≡ (if is_ok result then self.old ++ item ∷ [] else self.old) }
    {
        self.items.push(item)?;
        Ok(())
    }

    /// The number of pairs.
    pub fn len(&self) -> usize
        ensures { result ≡ length self.now }
    {
        self.items.len()
    }

    /// The pair at this place, counted from 0; `place` is below the number of pairs.
    pub fn at(&self, place: usize) -> &(u32, u64)
        requires { place < length self.now }
        ensures { result.now ≡ slice_index_or self.now place result.now }
    {
        &self.items[place]
    }

    /// All pairs in order.
    pub fn as_slice(&self) -> &[(u32, u64)]
        ensures { result.now ≡ self.now }
    {
        self.items.as_slice()
    }
}

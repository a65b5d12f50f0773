// Room for lists of dependencies, made while a problem is built: how many numbers each list is to have, and one table for all.
ghost use Rattle.std.specs.Prelude.{◌≡◌, ◌<◌, ◌≤◌, ◌+◌, ◌^◌, ◌∷◌, ℕ, length, nat_lt, replicate, slice_index, if◌then◌else◌, is_ok, IsTrue, [], map};
ghost use Rattle.std.specs.List.{list_all, sum};
ghost use Rattle.problem.specs.Rooms.{no_rooms, with_lists, with_size, with_room, counted, room_of, IsLaidOut};

use crate::dep_lists::{DepLists, Span};
use choice_set::NoMemory;
use std::alloc::Global;
use std::marker::Model;

/// The room for the lists by number.
#[derive(Debug, Drop)]
pub struct Rooms {
    // for each list a span as long as its room
    spans: Vec<Span>,
    table: Vec<u32>,
}

impl Model for Rooms {
    ghost use Rattle.problem.specs.Rooms as model;
    ghost use Rattle.std.specs.Prelude.{length, map};

    ghost Value = { model.Rooms };

    ghost view = { λ r. record { places = map (λ s. s.end) r.spans.items; size = length r.table.items } };
}

const EMPTY: Span = Span { first: 0, end: 0 };

// Lets the spans of lists with this room stand one behind another, and answers where the last one's room ends.
fn lay_out(spans: &mut Vec<Span>) -> u32
    requires { sum (map (λ s. s.end) spans.old.items) < 2 ^ 32 }
    ensures laid { IsLaidOut spans.old.items spans.new.items }
    ensures end { result ≡ sum (map (λ s. s.end) spans.old.items) }
{
    let mut end = 0;
    for number in 0..spans.len() {
        let room = spans[number].end;
        spans[number] = Span { first: end, end };
        end += room;
    }
    end
}

impl Rooms {
    /// No lists.
    pub fn new(alloc: Global) -> Rooms
        ensures { result ≡ no_rooms }
    {
        Rooms {
            spans: Vec::new(alloc),
            table: Vec::new(alloc),
        }
    }

    /// Makes it at least so many lists. Those that are added have no room.
    pub fn reach_lists(&mut self, count: usize) -> Result<(), NoMemory>
        ensures { self.new ≡ (if is_ok result then with_lists self.old count else self.old) }
    {
        if self.spans.len() < count {
            self.spans.resize(count, EMPTY)?;
        }
        Ok(())
    }

    /// Makes the table at least so long.
    pub fn reach_size(&mut self, size: usize) -> Result<(), NoMemory>
        ensures { self.new ≡ (if is_ok result then with_size self.old size else self.old) }
    {
        if self.table.len() < size {
            self.table.resize(size, 0)?;
        }
        Ok(())
    }

    /// Gives a list room for one number more.
    pub fn count(&mut self, number: u32)
        requires number { number < length self.old.places }
        requires few { sum self.old.places + 1 < 2 ^ 32 }
        ensures { self.new ≡ with_room self.old (number ∷ []) }
    {
        self.spans[number as usize].end += 1;
    }

    /// Gives each of these lists room for one number more.
    pub fn count_all(&mut self, numbers: &[u32])
        requires numbers { IsTrue (list_all (λ k. nat_lt k (length self.old.places)) numbers.now) }
        requires few { sum self.old.places + length numbers.now < 2 ^ 32 }
        ensures { self.new ≡ with_room self.old numbers.now }
    {
        for number in numbers {
            self.count(*number);
        }
    }

    /// So many of the lists, still empty, with their room in the table.
    pub fn lay_out(self, count: usize) -> DepLists
        requires many { count ≤ length self.places }
        requires few { sum self.places < 2 ^ 32 }
        requires size { sum self.places ≤ self.size }
        ensures lists { result.lists ≡ replicate count [] }
        ensures rooms { (k : ℕ) → k < count → room_of result k ≡ slice_index self.places k }
    {
        let mut spans = self.spans;
        let mut table = self.table;
        spans.truncate(count);
        let end = lay_out(&mut spans);
        table.truncate(end as usize);
        DepLists::new(spans, table)
    }
}

// Lists of dependencies, one for each number: for each version, or for each package. They stand one behind another in one table.
ghost use Rattle.std.specs.Prelude.{◌≡◌, ◌<◌, ◌≤◌, ◌∷◌, ℕ, [], length, slice_index_or, if◌then◌else◌, is_ok, IfOk, IsTrue, nat_lt};
ghost use Rattle.std.specs.List.{list_all};
ghost use Rattle.problem.specs.Listing.{ends_in, with_end, without_end};
ghost use Rattle.problem.specs.Rooms.{AreSpans, laid_of, list_of, room_of, can_note, with_put, with_noted};

use choice_set::NoMemory;
use std::alloc::Global;
use std::marker::Model;

/// Where a list stands in a table: from `first` to before `end`.
#[derive(Clone, Copy, Debug, Drop)]
pub struct Span {
    pub first: u32,
    pub end: u32,
}

/// The lists by number.
#[derive(Debug, Drop)]
pub struct DepLists {
    spans: Vec<Span>,
    table: Vec<u32>,
}

impl Model for DepLists {
    ghost use Rattle.problem.specs.Rooms as model;
    ghost use Rattle.problem.specs.Rooms.{AreSpans, laid_of};
    ghost use Rattle.std.specs.Prelude.{length};

    ghost Value = { model.Laid };

    ghost view = { λ l. laid_of l.spans.items l.table.items };

    ghost invariant = { λ l. AreSpans l.spans.items (length l.table.items) };
}

// Whether the dependency is the last of the list.
fn is_last(list: &[u32], dep: u32) -> bool
    ensures { result ≡ ends_in dep list.now }
{
    !list.is_empty() && list[list.len() - 1] == dep
}

/// Adds a dependency at the end, unless it is the last already.
pub fn add_end(list: &mut Vec<u32>, dep: u32) -> Result<(), NoMemory>
    ensures end { list.new.items ≡ (if is_ok result then with_end dep list.old.items else list.old.items) }
    ensures rest { without_end dep list.new.items ≡ without_end dep list.old.items }
{
    if is_last(list.as_slice(), dep) {
        return Ok(());
    }
    Ok(list.push(dep)?)
}

/// Takes the dependency off, if it is the last.
pub fn drop_end(list: &mut Vec<u32>, dep: u32)
    ensures { list.new.items ≡ without_end dep list.old.items }
{
    if is_last(list.as_slice(), dep) {
        let _ = list.pop();
    }
}

// The list that stands at a place of the table.
fn list_of(table: &[u32], span: Span) -> &[u32]
    requires first { span.first ≤ span.end }
    requires end { span.end ≤ length table.now }
    ensures { result.now ≡ list_of table.now span }
{
    &table[span.first as usize..span.end as usize]
}

impl DepLists {
    /// The lists that stand at these places of the table.
    pub fn new(spans: Vec<Span>, table: Vec<u32>) -> DepLists
        requires { AreSpans spans.items (length table.items) }
        ensures { result ≡ laid_of spans.items table.items }
    {
        DepLists { spans, table }
    }

    /// The list with a number.
    pub fn list(&self, number: usize) -> &[u32]
        requires { number < length self.now.lists }
        ensures { result.now ≡ slice_index_or self.now.lists number [] }
    {
        list_of(self.table.as_slice(), self.spans[number])
    }

    // Adds a dependency at the end of a list that has room for it.
    fn put(&mut self, number: usize, dep: u32)
        requires number { number < length self.old.lists }
        requires room { length (slice_index_or self.old.lists number []) < room_of self.old number }
        ensures { self.new ≡ with_put self.old number dep }
    {
        let span = self.spans[number];
        self.table[span.end as usize] = dep;
        self.spans[number] = Span {
            first: span.first,
            end: span.end + 1,
        };
    }

    /// Adds a dependency at the end of a list, unless it is the last of it already.
    pub fn note(&mut self, number: u32, dep: u32)
        requires number { number < length self.old.lists }
        requires room { IsTrue (can_note self.old dep number) }
        ensures { self.new ≡ with_noted self.old dep (number ∷ []) }
    {
        if !is_last(self.list(number as usize), dep) {
            self.put(number as usize, dep);
        }
    }

    /// Adds a dependency at the end of each list whose number is given.
    pub fn note_all(&mut self, numbers: &[u32], dep: u32)
        requires numbers { IsTrue (list_all (λ k. nat_lt k (length self.old.lists)) numbers.now) }
        requires room { IsTrue (list_all (can_note self.old dep) numbers.now) }
        ensures { self.new ≡ with_noted self.old dep numbers.now }
    {
        for number in numbers {
            self.note(*number, dep);
        }
    }

    /// The same lists once more.
    pub fn copy(&self, alloc: Global) -> Result<DepLists, NoMemory>
        ensures { IfOk result (λ copy. copy ≡ self.now) }
    {
        let spans = Vec::from_slice(alloc, self.spans.as_slice())?;
        let table = Vec::from_slice(alloc, self.table.as_slice())?;
        Ok(DepLists { spans, table })
    }
}

// Numbers that are found by a name.

ghost use Rattle.std.specs.Prelude.{◌≡◌, ◌≤◌, ◌<◌, ◌+◌, ℕ, List, Bool, map, length, true, false, IfOk};
ghost use Rattle.std.specs.List.{list_any};
ghost use Rattle.std.specs.List.Sorted.{IsPartitionPoint, IsSorted};
ghost use Rattle.std.specs.Ordering.{is_le, is_lt};
ghost use Rattle.meeting_index.specs.Named.{named_number, named_order, numbers_in};
ghost use Rattle.meeting_index.specs.Starts.{AreStarts, IsStart};

use crate::named::Named;
use choice_set::NoMemory;
use std::alloc::Global;

/// Numbers by name. The names stand in their order, and where those of each share of all hashes begin is kept beside them: so
/// names that were not made for it are few in their share.
#[derive(Drop)]
pub struct SortedNumbers<'a> {
    names: Vec<Named<'a>>,
    numbers: Vec<u32>,
    starts: Vec<u32>,
    ghost sorted: { IsSorted named_order names.items },
    ghost numbers_are: { numbers.items ≡ map named_number names.items },
    ghost starts_are: { AreStarts names.items starts.items },
}

impl<'a> SortedNumbers<'a> {
    ghost use Rattle.meeting_index.specs.Tables.{sorted_at};

    /// A table of names with their numbers. More of them than there are numbers are a want of memory.
    pub fn new(alloc: Global, names: Vec<Named<'a>>) -> Result<SortedNumbers<'a>, NoMemory>
        ensures { IfOk result (λ table. (name : List ℕ) (test : ℕ → Bool) → list_any test (sorted_at table name) ≡ list_any test (numbers_in names.entry.items name)) }
    {
        let mut names = names;
        names.sort_unstable();
        let numbers = numbers_of(alloc, names.as_slice())?;
        let starts = starts_of(alloc, names.as_slice())?;
        Ok(SortedNumbers {
            names,
            numbers,
            starts,
        })
    }

    /// The names, those with the same bytes behind one another.
    pub fn names(&self) -> &[Named<'a>]
        ensures { result.now ≡ self.now.names.items }
    {
        self.names.as_slice()
    }

    /// The numbers at a name.
    pub fn at<'x>(&'x self, name: &'x [u8]) -> &'x [u32]
        ensures { result.now ≡ sorted_at self.now name.now }
    {
        let sought = Named::new(name, 0);
        let (low, high) = self.bounds_of(sought.share());
        numbers_among(&self.names[low..high], &self.numbers[low..high], &sought)
    }

    // Where the names of a share begin and end.
    fn bounds_of(&self, share: usize) -> (usize, usize)
        requires { share < 65536 }
        ensures start { IsStart self.now.names.items share result.0 }
        ensures end { IsStart self.now.names.items (share + 1) result.1 }
        ensures order { result.0 ≤ result.1 }
        ensures names { result.1 ≤ length self.now.names.items }
        ensures numbers { result.1 ≤ length self.now.numbers.items }
    {
        (self.starts[share] as usize, self.starts[share + 1] as usize)
    }
}

// The numbers of names, in order.
fn numbers_of(alloc: Global, names: &[Named<'_>]) -> Result<Vec<u32>, NoMemory>
    ensures { IfOk result (λ numbers. numbers.items ≡ map named_number names.now) }
{
    let mut numbers = Vec::with_capacity(alloc, names.len())?;
    for name in names {
        numbers.push(name.number)?;
    }
    Ok(numbers)
}

// Where the names of each share begin, and where the last ones end.
fn starts_of(alloc: Global, names: &[Named<'_>]) -> Result<Vec<u32>, NoMemory>
    requires { IsSorted named_order names.now }
    ensures { IfOk result (λ starts. AreStarts names.now starts.items) }
{
    let mut starts = Vec::with_capacity(alloc, 65_537)?;
    for share in 0..65_537 {
        starts.push(start_of(names, share)?)?;
    }
    Ok(starts)
}

// Where the names of a share begin.
fn start_of(names: &[Named<'_>], share: usize) -> Result<u32, NoMemory>
    requires { IsSorted named_order names.now }
    ensures { IfOk result (IsStart names.now share) }
{
    let place = place_of(names, share);
    match u32::try_from(place) {
        Ok(place) => Ok(place),
        Err(_) => Err(NoMemory),
    }
}

// How many names are of earlier shares.
fn place_of(names: &[Named<'_>], share: usize) -> usize
    requires { IsSorted named_order names.now }
    ensures { IsStart names.now share result }
{
    names.partition_point(|name| name.share() < share)
}

// The numbers of names that are in order, at one that is sought.
fn numbers_among<'x>(names: &[Named<'_>], numbers: &'x [u32], sought: &Named<'_>) -> &'x [u32]
    requires sorted { IsSorted named_order names.now }
    requires numbers { numbers.now ≡ map named_number names.now }
    ensures { result.now ≡ numbers_in names.now sought.now.bytes.now }
{
    let first = first_of(names, sought);
    let count = count_of(&names[first..], sought);
    &numbers[first..first + count]
}

// How many names stand before one that is sought.
fn first_of(names: &[Named<'_>], sought: &Named<'_>) -> usize
    requires { IsSorted named_order names.now }
    ensures bound { result ≤ length names.now }
    ensures point { IsPartitionPoint (λ name. is_lt (named_order name sought.now) ≡ true) (λ name. is_lt (named_order name sought.now) ≡ false) names.now result }
{
    names.partition_point(|name| name.order(sought).is_lt())
}

// How many names are not behind one that is sought.
fn count_of(names: &[Named<'_>], sought: &Named<'_>) -> usize
    requires { IsSorted named_order names.now }
    ensures bound { result ≤ length names.now }
    ensures point { IsPartitionPoint (λ name. is_le (named_order name sought.now) ≡ true) (λ name. is_le (named_order name sought.now) ≡ false) names.now result }
{
    names.partition_point(|name| name.order(sought).is_le())
}

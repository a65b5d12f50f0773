// Numbers that are found by a name, which a package may have.

ghost use Rattle.std.specs.Prelude.{◌≡◌, ◌++◌, ◌∷◌, [], ℕ, List, Bool, map, length, replicate, if◌then◌else◌, IfOk, OnOk};
ghost use Rattle.std.specs.List.{list_any, position};
ghost use Rattle.ascii.specs.Texts.{is_same};
ghost use Rattle.meeting_index.specs.Named.{numbers_in};
ghost use Rattle.meeting_index.specs.Rows.{AreRows, numbers_by, row_numbers};
ghost use Rattle.meeting_index.specs.declared.named.Name.{Name};

use crate::named::Named;
use crate::table::SortedNumbers;
use choice_set::NoMemory;
use smallvec::SmallVec;
use std::alloc::Global;
use universe_parts::Names;

/// The numbers at the name of a package, and the name, once there are any. Most have one or two.
#[derive(Drop)]
pub struct NumberRow<'a> {
    pub bytes: &'a [u8],
    pub numbers: SmallVec<u32, 4>,
}

/// Numbers by name. Those at the name of a package stand in its row, and those at other names in the order of these.
#[derive(Drop)]
pub struct NamedNumbers<'n, 'a> {
    names: &'n Names,
    rows: Vec<NumberRow<'a>>,
    others: SortedNumbers<'a>,
    ghost rows_are: { AreRows names.now rows.items },
}

impl<'n, 'a> NamedNumbers<'n, 'a> {
    ghost use Rattle.std.specs.Prelude.{true, nat_lt};
    ghost use Rattle.meeting_index.specs.NameTables.{numbers_at};

    /// A table of the packages' names with their rows, and of other names with numbers. More of these than there are numbers
    /// are a want of memory.
    pub fn new(
        alloc: Global,
        names: &'n Names,
        rows: Vec<NumberRow<'a>>,
        others: Vec<Named<'a>>,
    ) -> Result<NamedNumbers<'n, 'a>, NoMemory>
        requires { AreRows names.now rows.items }
        ensures { IfOk result (λ table. (name : List ℕ) (test : ℕ → Bool) → list_any test (numbers_at table name) ≡ list_any test (numbers_by names.now rows.entry.items (numbers_in others.entry.items name) name)) }
    {
        let others = SortedNumbers::new(alloc, others)?;
        Ok(NamedNumbers {
            names,
            rows,
            others,
        })
    }

    /// The rows of the packages.
    pub fn rows(&self) -> &[NumberRow<'a>]
        ensures { result.now ≡ self.now.rows.items }
    {
        self.rows.as_slice()
    }

    /// The other names, those with the same bytes behind one another.
    pub fn others(&self) -> &[Named<'a>]
        ensures { result.now ≡ self.now.others.names.items }
    {
        self.others.names()
    }

    /// The numbers at a name.
    pub fn at<'x>(&'x self, name: &'x [u8]) -> &'x [u32]
        ensures { result.now ≡ numbers_at self.now name.now }
    {
        match self.names.number_of(name) {
            Some(number) => self.rows[number].numbers.as_slice(),
            None => self.others.at(name),
        }
    }
}

/// Rows without numbers.
pub fn empty_rows<'a>(alloc: Global, count: usize) -> Result<Vec<NumberRow<'a>>, NoMemory>
    ensures { IfOk result (λ rows. map row_numbers rows.items ≡ replicate count []) }
{
    let mut rows = Vec::with_capacity(alloc, count)?;
    for _row in 0..count {
        let numbers = SmallVec::new(alloc);
        rows.push(NumberRow {
            bytes: &[],
            numbers,
        })?;
    }
    Ok(rows)
}

// The place of a name among the names, at which it may have been guessed to be.
fn place_of(names: &Names, bytes: &[u8], guess: Option<usize>) -> Option<usize>
    ensures { result ≡ position (is_same bytes.now) names.now }
{
    match guess {
        Some(guess) => names.number_near(bytes, guess),
        None => names.number_of(bytes),
    }
}

/// Adds a number at a name. The guess is where among the names it may stand.
pub fn add_number<'a>(
    names: &Names,
    rows: &mut Vec<NumberRow<'a>>,
    others: &mut Vec<Named<'a>>,
    bytes: &'a [u8],
    guess: Option<usize>,
    number: u32,
) -> Result<(), NoMemory>
    requires { AreRows names.now rows.old.items }
    ensures rows { OnOk result (AreRows names.now rows.new.items) }
    ensures added { OnOk result ((other : Name) → numbers_by names.now rows.new.items (numbers_in others.new.items other.bytes.now) other.bytes.now ≡ numbers_by names.now rows.old.items (numbers_in others.old.items other.bytes.now) other.bytes.now ++ (if is_same bytes.now other.bytes.now then number ∷ [] else [])) }
{
    let Some(place) = place_of(names, bytes, guess) else {
        return add_other(others, bytes, number);
    };
    add_to_row(&mut rows[place], bytes, number)?;
    Ok(())
}

fn add_to_row<'a>(row: &mut NumberRow<'a>, bytes: &'a [u8], number: u32) -> Result<(), NoMemory>
    ensures bytes { OnOk result (row.new.bytes.now ≡ bytes.now) }
    ensures numbers { OnOk result (row.new.numbers.items ≡ row.old.numbers.items ++ number ∷ []) }
{
    row.bytes = bytes;
    row.numbers.push(number)?;
    Ok(())
}

fn add_other<'a>(names: &mut Vec<Named<'a>>, bytes: &'a [u8], number: u32) -> Result<(), NoMemory>
    ensures { OnOk result ((other : Name) → numbers_in names.new.items other.bytes.now ≡ numbers_in names.old.items other.bytes.now ++ (if is_same bytes.now other.bytes.now then number ∷ [] else [])) }
{
    names.push(Named::new(bytes, number))?;
    Ok(())
}

// Cost specs: which cost names make the levels of a cost, and how often each counts.
ghost use Rattle.std.specs.Prelude.{◌≡◌, ◌<◌, ◌≤◌, ◌-◌, ℕ, List, [], ◌∷◌, ◌++◌, length, slice_index, slice_index_or, is_ok, IfOk, Some, None, MatchResult, if◌then◌else◌};
ghost use Rattle.std.specs.List.{list_all};
ghost use Rattle.cost_vector.specs.Grammar.{spec_of, is_name, is_name_byte, is_number, decimal_value};
ghost use Rattle.cost_vector.specs.SpecEnds.{IsSpecEnd};
ghost use Rattle.cost_vector.specs.declared.cost_spec.SpecEnd as SpecEnd;

use crate::reader::{Reader, Stop, is_max, is_name_byte, number_at};
use resolver_model::NoMemory;
use std::alloc::Global;
use std::marker::Model;

/// A cost name, seen as its list of bytes.
#[derive(Debug, Drop)]
pub struct CostName {
    bytes: Vec<u8>,
}

impl Model for CostName {
    ghost use Rattle.std.specs.Prelude.{ℕ, List};

    ghost Value = { List ℕ };

    ghost view = { λ a. a.bytes.items };
}

impl CostName {
    /// The name without bytes.
    pub fn new(alloc: Global) -> CostName
        ensures { result ≡ [] }
    {
        CostName {
            bytes: Vec::new(alloc),
        }
    }

    /// The name with these bytes.
    pub fn from_slice(alloc: Global, bytes: &[u8]) -> Result<CostName, NoMemory>
        ensures { IfOk result (λ name. name ≡ bytes.now) }
    {
        let bytes = Vec::from_slice(alloc, bytes)?;
        Ok(CostName { bytes })
    }

    /// Adds a byte at the end. After `NoMemory` the name is as before.
    pub fn push(&mut self, byte: u8) -> Result<(), NoMemory>
        ensures { self.new ≡ (if is_ok result then self.old ++ byte ∷ [] else self.old) }
    {
        self.bytes.push(byte)?;
        Ok(())
    }

    /// The number of bytes.
    pub fn len(&self) -> usize
        ensures { result ≡ length self.now }
    {
        self.bytes.len()
    }

    /// The byte at a place.
    pub fn at(&self, place: usize) -> &u8
        requires { place < length self.now }
        ensures { result.now ≡ slice_index self.now place }
    {
        &self.bytes[place]
    }

    /// The bytes.
    pub fn as_slice(&self) -> &[u8]
        ensures { result.now ≡ self.now }
    {
        self.bytes.as_slice()
    }
}

/// A cost name, and how often its amount counts.
#[derive(Debug, Drop)]
pub struct Term {
    pub times: u64,
    pub name: CostName,
}

/// The terms of a level, seen as their list.
#[derive(Debug, Drop)]
pub struct Terms {
    items: Vec<Term>,
}

impl Model for Terms {
    ghost use Rattle.std.specs.Prelude.{List};
    ghost use Rattle.cost_vector.specs.declared.cost_spec.Term.{Term};

    ghost Value = { List Term };

    ghost view = { λ a. a.items.items };
}

impl Terms {
    /// No terms.
    pub fn new(alloc: Global) -> Terms
        ensures { result ≡ [] }
    {
        Terms {
            items: Vec::new(alloc),
        }
    }

    /// Adds a term at the end. After `NoMemory` the terms are as before.
    pub fn push(&mut self, item: Term) -> Result<(), NoMemory>
        ensures { self.new ≡ (if is_ok result then self.old ++ item ∷ [] else self.old) }
    {
        self.items.push(item)?;
        Ok(())
    }

    /// The number of terms.
    pub fn len(&self) -> usize
        ensures { result ≡ length self.now }
    {
        self.items.len()
    }

    /// The term at a place.
    pub fn at(&self, place: usize) -> &Term
        requires { place < length self.now }
        ensures { result.now ≡ slice_index_or self.now place result.now }
    {
        &self.items[place]
    }

    /// All terms.
    pub fn as_slice(&self) -> &[Term]
        ensures { result.now ≡ self.now }
    {
        self.items.as_slice()
    }
}

/// A level of a cost: it adds what its terms give to the choices of a set, or takes the greatest.
#[derive(Debug, Drop)]
pub struct Level {
    pub greatest: bool,
    pub terms: Terms,
}

/// The levels of a cost, seen as their list.
#[derive(Debug, Drop)]
pub struct Levels {
    items: Vec<Level>,
}

impl Model for Levels {
    ghost use Rattle.std.specs.Prelude.{List};
    ghost use Rattle.cost_vector.specs.declared.cost_spec.Level.{Level};

    ghost Value = { List Level };

    ghost view = { λ a. a.items.items };
}

impl Levels {
    /// No levels.
    pub fn new(alloc: Global) -> Levels
        ensures { result ≡ [] }
    {
        Levels {
            items: Vec::new(alloc),
        }
    }

    /// Adds a level at the end. After `NoMemory` the levels are as before.
    pub fn push(&mut self, item: Level) -> Result<(), NoMemory>
        ensures { self.new ≡ (if is_ok result then self.old ++ item ∷ [] else self.old) }
    {
        self.items.push(item)?;
        Ok(())
    }

    /// The number of levels.
    pub fn len(&self) -> usize
        ensures { result ≡ length self.now }
    {
        self.items.len()
    }

    /// All levels.
    pub fn as_slice(&self) -> &[Level]
        ensures { result.now ≡ self.now }
    {
        self.items.as_slice()
    }
}

/// A cost spec: the levels of a cost, the one that weighs most first.
#[derive(Debug, Drop)]
pub struct CostSpec {
    levels: Levels,
}

impl Model for CostSpec {
    ghost use Rattle.std.specs.Prelude.{List};
    ghost use Rattle.cost_vector.specs.declared.cost_spec.Level.{Level};

    ghost Value = { List Level };

    ghost view = { λ a. a.levels };
}

/// Why a text gave no cost spec.
#[derive(Clone, Copy, Debug, PartialEq, Eq, Drop)]
pub enum SpecEnd {
    /// The text is no spec. The first `at` bytes are its longest prefix that is a prefix of a spec.
    SpecFault { at: usize },
    NoMemory,
}

impl CostSpec {
    /// Reads a cost spec: 1 to 16 levels between commas. A level is a sum, or `max` and a sum in brackets; a sum is 1
    /// to 16 terms between pluses; a term is a name, or a number and `*` before it. Spaces are free between these.
    pub fn read(alloc: Global, text: &[u8]) -> Result<CostSpec, SpecEnd>
        ensures { MatchResult result (λ spec. spec_of text.now ≡ Some spec) (IsSpecEnd text.now) }
    {
        let mut reader = Reader { rest: text };
        match reader.levels(alloc) {
            Ok(levels) => {
                if reader.rest.is_empty() {
                    Ok(CostSpec { levels })
                } else {
                    Err(fault_before(text, reader.rest))
                }
            }
            Err(Stop::Fault) => Err(fault_before(text, reader.rest)),
            Err(Stop::NoMemory) => Err(SpecEnd::NoMemory),
        }
    }

    /// The levels, first the one that weighs most.
    pub fn levels(&self) -> &[Level]
        ensures { result.now ≡ self.now }
    {
        self.levels.as_slice()
    }
}

// The fault of a text that can be read as far as the rest.
fn fault_before(text: &[u8], rest: &[u8]) -> SpecEnd
    requires { length rest.now ≤ length text.now }
    ensures { result ≡ SpecEnd.SpecFault (length text.now - length rest.now) }
{
    SpecEnd::SpecFault {
        at: text.len() - rest.len(),
    }
}

/// Whether a word has the form of a name in a cost spec: a letter from a to z, then such letters, digits and `-`, but
/// not the word `max`.
pub fn is_cost_name(word: &[u8]) -> bool
    ensures { result ≡ is_name word.now }
{
    match word {
        [first, others @ ..] => first.is_ascii_lowercase()
            && are_name_bytes(others)
            && !is_max(word),
        [] => false,
    }
}

fn are_name_bytes(word: &[u8]) -> bool
    ensures { result ≡ list_all is_name_byte word.now }
{
    word.iter().all(|byte| is_name_byte(*byte))
}

/// The number that a word stands for, where the word has the form of a number in a cost spec: 1 to 7 digits, at most
/// 1,000,000. Zeros may lead.
pub fn small_number(word: &[u8]) -> Option<u64>
    ensures { result ≡ (if is_number word.now then Some (decimal_value word.now) else None) }
{
    match word {
        [first, ..] if first.is_ascii_digit() => {
            let (count, value) = number_at(word);
            if count == word.len() {
                Some(value)
            } else {
                None
            }
        }
        _ => None,
    }
}

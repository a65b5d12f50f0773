// Reads a cost spec from front to back. A reader stands behind the longest prefix of what it was to read that some such
// text begins with; so where it stops at a fault, that is the place of the fault.
ghost use Rattle.std.specs.Prelude.{◌≡◌, ◌<◌, ℕ, List, [], ◌∷◌, length, take, drop, Some, None, MatchResult, IsTrue, slice_index, true, false, is_ok, ◌++◌, ◌+◌, ◌≤◌, if◌then◌else◌};
ghost use Rattle.std.specs.Bool.{OnTrue, OnFalse};
ghost use Rattle.std.specs.Option.{option_map};
ghost use Rattle.std.specs.Char.{is_ascii_digit, is_ascii_lowercase};
ghost use Rattle.cost_vector.specs.Grammar.{is_name_byte, is_max, is_name, is_small, is_number, decimal_value, name_of, term, term_of, sum_of, closed_of, level, level_of, spec_of};
ghost use Rattle.cost_vector.specs.Reading.{Reads, ReadsOr, OrFault, IsRun, IsNumberRun, LeadsTo, IsPartway, begins, is_byte, begins_with_max};

use crate::cost_spec::{CostName, Level, Levels, Term, Terms};
use resolver_model::NoMemory;
use std::alloc::Global;

// Why a reader stopped.
#[derive(Clone, Copy, Debug, PartialEq, Eq, Drop)]
pub enum Stop {
    Fault,
    NoMemory,
}

impl From<NoMemory> for Stop {
    ghost use Rattle.std.specs.Prelude.{◌≡◌};
    ghost use Rattle.cost_vector.specs.declared.reader.Stop.TheVariants as stop;

    ghost from_gives = { λ _ e. e ≡ stop.NoMemory };

    fn from(_error: NoMemory) -> Stop {
        Stop::NoMemory
    }
}

// A letter, a digit or `-`.
pub fn is_name_byte(byte: u8) -> bool
    ensures { result ≡ is_name_byte byte }
{
    byte.is_ascii_lowercase() || byte.is_ascii_digit() || byte == b'-'
}

// The word that is no name.
pub fn is_max(word: &[u8]) -> bool
    ensures { result ≡ is_max word.now }
{
    match word {
        [a, b, c] => *a == b'm' && *b == b'a' && *c == b'x',
        _ => false,
    }
}

fn is_space(byte: u8) -> bool
    ensures { result ≡ is_byte 32 byte }
{
    byte == b' '
}

// How many spaces are at the front.
fn space_count(text: &[u8]) -> usize
    ensures within { result ≤ length text.now }
    ensures all { (k : ℕ) → k < result → is_byte 32 (slice_index text.now k) ≡ true }
    ensures ends { result < length text.now → is_byte 32 (slice_index text.now result) ≡ false }
{
    for (place, byte) in text.iter().enumerate() {
        if !is_space(*byte) {
            return place;
        }
    }
    text.len()
}

// How many bytes of names are at the front.
fn word_len(text: &[u8]) -> usize
    ensures within { result ≤ length text.now }
    ensures all { (k : ℕ) → k < result → is_name_byte (slice_index text.now k) ≡ true }
    ensures ends { result < length text.now → is_name_byte (slice_index text.now result) ≡ false }
{
    for (place, byte) in text.iter().enumerate() {
        if !is_name_byte(*byte) {
            return place;
        }
    }
    text.len()
}

// What is left of a text.
#[derive(Drop)]
pub struct Reader<'a> {
    pub rest: &'a [u8],
}

impl<'a> Reader<'a> {
    // Whether a letter is next.
    fn at_letter(&self) -> bool
        ensures { result ≡ begins is_ascii_lowercase self.now.rest.now }
    {
        match self.rest {
            [byte, ..] => byte.is_ascii_lowercase(),
            [] => false,
        }
    }

    // Whether a digit is next.
    fn at_digit(&self) -> bool
        ensures { result ≡ begins is_ascii_digit self.now.rest.now }
    {
        match self.rest {
            [byte, ..] => byte.is_ascii_digit(),
            [] => false,
        }
    }

    // Whether the word `max` is next.
    fn at_max(&self) -> bool
        ensures { result ≡ begins_with_max self.now.rest.now }
    {
        match self.rest {
            [a, b, c] => *a == b'm' && *b == b'a' && *c == b'x',
            [a, b, c, next, ..] => *a == b'm' && *b == b'a' && *c == b'x' && !is_name_byte(*next),
            _ => false,
        }
    }

    // Passes the spaces that are next.
    fn spaces(&mut self) -> &'a [u8]
        ensures { IsRun (is_byte 32) self.old.rest.now result.now self.new.rest.now }
    {
        let (run, rest) = self.rest.split_at(space_count(self.rest));
        self.rest = rest;
        run
    }

    // Passes the bytes of names that are next.
    fn word(&mut self) -> &'a [u8]
        ensures { IsRun is_name_byte self.old.rest.now result.now self.new.rest.now }
    {
        let (run, rest) = self.rest.split_at(word_len(self.rest));
        self.rest = rest;
        run
    }

    // Passes the byte, if it is next.
    fn pass(&mut self, byte: u8) -> bool
        ensures yes { OnTrue result (self.old.rest.now ≡ byte ∷ self.new.rest.now) }
        ensures no { OnFalse result ((self.new.rest.now ≡ self.old.rest.now) × (begins (is_byte byte) self.old.rest.now ≡ false)) }
    {
        match self.rest {
            [first, others @ ..] if *first == byte => {
                self.rest = others;
                true
            }
            _ => false,
        }
    }

    // Passes the longest number that is next. It gives the digits and their value.
    fn number(&mut self) -> (&'a [u8], u64)
        requires { IsTrue (begins is_ascii_digit self.old.rest.now) }
        ensures run { IsNumberRun self.old.rest.now result.0.now self.new.rest.now }
        ensures value { result.1 ≡ decimal_value result.0.now }
    {
        let (count, value) = number_at(self.rest);
        let (digits, rest) = self.rest.split_at(count);
        self.rest = rest;
        (digits, value)
    }

    // Reads a number and the star behind it.
    fn times(&mut self) -> Result<u64, Stop>
        requires { IsTrue (begins is_ascii_digit self.old.rest.now) }
        ensures { MatchResult result (λ times. LeadsTo term_of name_of (term times) self.old.rest.now self.new.rest.now)
            (λ stop. OrFault stop (Reads term_of self.old.rest.now self.new.rest.now None)) }
    {
        let (_, times) = self.number();
        self.spaces();
        if self.pass(b'*') {
            Ok(times)
        } else {
            Err(Stop::Fault)
        }
    }

    // Reads a name.
    fn name(&mut self, alloc: Global) -> Result<CostName, Stop>
        ensures { ReadsOr name_of self.old.rest.now self.new.rest.now result }
    {
        self.spaces();
        if !self.at_letter() {
            return Err(Stop::Fault);
        }
        let word = self.word();
        if is_max(word) {
            return Err(Stop::Fault);
        }
        self.spaces();
        let name = CostName::from_slice(alloc, word)?;
        Ok(name)
    }

    // Reads a term.
    fn term(&mut self, alloc: Global) -> Result<Term, Stop>
        ensures { ReadsOr term_of self.old.rest.now self.new.rest.now result }
    {
        self.spaces();
        if self.at_digit() {
            let times = self.times()?;
            let name = self.name(alloc)?;
            Ok(Term { times, name })
        } else {
            let name = self.name(alloc)?;
            Ok(Term { times: 1, name })
        }
    }

    // Reads the terms of a sum.
    fn sum(&mut self, alloc: Global) -> Result<Terms, Stop>
        ensures { ReadsOr sum_of self.old.rest.now self.new.rest.now result }
    {
        let mut terms = Terms::new(alloc);
        loop {
            let term = self.term(alloc)?;
            terms.push(term)?;
            if terms.len() == 16 {
                return Ok(terms);
            }
            if !self.pass(b'+') {
                return Ok(terms);
            }
        }
    }

    // Reads a sum and the closing bracket behind it.
    fn closed(&mut self, alloc: Global) -> Result<Terms, Stop>
        ensures { ReadsOr closed_of self.old.rest.now self.new.rest.now result }
    {
        let terms = self.sum(alloc)?;
        if !self.pass(b')') {
            return Err(Stop::Fault);
        }
        self.spaces();
        Ok(terms)
    }

    // Reads a level that begins with the word `max`.
    fn greatest(&mut self, alloc: Global) -> Result<Level, Stop>
        requires { IsTrue (begins_with_max self.old.rest.now) }
        ensures { ReadsOr level_of self.old.rest.now self.new.rest.now result }
    {
        let (_, rest) = self.rest.split_at(3);
        self.rest = rest;
        self.spaces();
        if !self.pass(b'(') {
            return Err(Stop::Fault);
        }
        let terms = self.closed(alloc)?;
        Ok(Level {
            greatest: true,
            terms,
        })
    }

    // Reads a level.
    fn level(&mut self, alloc: Global) -> Result<Level, Stop>
        ensures { ReadsOr level_of self.old.rest.now self.new.rest.now result }
    {
        self.spaces();
        if self.at_max() {
            return self.greatest(alloc);
        }
        let terms = self.sum(alloc)?;
        Ok(Level {
            greatest: false,
            terms,
        })
    }

    // Reads the levels of a spec.
    pub fn levels(&mut self, alloc: Global) -> Result<Levels, Stop>
        ensures { ReadsOr spec_of self.old.rest.now self.new.rest.now result }
    {
        let mut levels = Levels::new(alloc);
        loop {
            let level = self.level(alloc)?;
            levels.push(level)?;
            if levels.len() == 16 {
                return Ok(levels);
            }
            if !self.pass(b',') {
                return Ok(levels);
            }
        }
    }
}

// The length of the longest number at the front, and its value.
pub fn number_at(text: &[u8]) -> (usize, u64)
    requires { IsTrue (begins is_ascii_digit text.now) }
    ensures within { result.0 ≤ length text.now }
    ensures number { is_number (take result.0 text.now) ≡ true }
    ensures ends { result.0 < length text.now → is_number (take (result.0 + 1) text.now) ≡ false }
    ensures value { result.1 ≡ decimal_value (take result.0 text.now) }
{
    let mut value = 0u64;
    for (place, byte) in text.iter().enumerate() {
        if place == 7 {
            return (place, value);
        }
        if !byte.is_ascii_digit() {
            return (place, value);
        }
        let more = value * 10 + (*byte - b'0') as u64;
        if more > 1_000_000 {
            return (place, value);
        }
        value = more;
    }
    (text.len(), value)
}

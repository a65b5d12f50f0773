//! Texts that stand in one table, one behind another.

ghost use Rattle.std.specs.Prelude.{◌≡◌, ◌<◌, ◌++◌, ◌∷◌, [], true, length, is_ok, if◌then◌else◌, take, slice_index_or, IfOk, IsTrue};
ghost use Rattle.std.specs.List.{list_all};
ghost use Rattle.universe_parts.specs.TextTables.{is_span, text_at, texts_at};

use choice_set::NoMemory;
use std::alloc::Global;
use std::marker::Model;

/// Where a text stands in a table: from `first` to before `end`.
#[derive(Clone, Copy, Debug, Drop)]
pub struct TextSpan {
    pub first: u32,
    pub end: u32,
}

/// Texts by number, in one table of bytes.
#[derive(Debug, Drop)]
pub struct TextTable {
    bytes: Vec<u8>,
    spans: Vec<TextSpan>,
}

impl Model for TextTable {
    ghost use Rattle.std.specs.Prelude.{ℕ, List, IsTrue};
    ghost use Rattle.std.specs.List.{list_all};
    ghost use Rattle.universe_parts.specs.TextTables.{is_span, texts_at};

    ghost Value = { List (List ℕ) };

    ghost view = { λ t. texts_at t.bytes.items t.spans.items };

    ghost invariant = { λ t. IsTrue (list_all (is_span t.bytes.items) t.spans.items) };
}

// A place in a table of bytes. One past 32 bits is a want of memory.
fn place_of(place: usize) -> Result<u32, NoMemory>
    ensures { IfOk result (λ number. number ≡ place) }
{
    match u32::try_from(place) {
        Ok(number) => Ok(number),
        Err(_) => Err(NoMemory),
    }
}

// Adds the span of the bytes that were added behind a place.
fn add_span(spans: &mut Vec<TextSpan>, first: usize, end: usize) -> Result<(), NoMemory>
    ensures { spans.new.items ≡ (if is_ok result then spans.old.items ++ record { first = first; end = end } ∷ [] else spans.old.items) }
{
    let first = place_of(first)?;
    let end = place_of(end)?;
    spans.push(TextSpan { first, end })?;
    Ok(())
}

// Adds a text; where memory is wanting, nothing is added.
fn add_text(bytes: &mut Vec<u8>, spans: &mut Vec<TextSpan>, text: &[u8]) -> Result<(), NoMemory>
    requires { IsTrue (list_all (is_span bytes.old.items) spans.old.items) }
    ensures within { IsTrue (list_all (is_span bytes.new.items) spans.new.items) }
    ensures added { texts_at bytes.new.items spans.new.items ≡ (if is_ok result then texts_at bytes.old.items spans.old.items ++ text.now ∷ [] else texts_at bytes.old.items spans.old.items) }
{
    let first = bytes.len();
    bytes.extend_from_slice(text)?;
    match add_span(spans, first, bytes.len()) {
        Ok(()) => Ok(()),
        Err(NoMemory) => {
            bytes.truncate(first);
            Err(NoMemory)
        }
    }
}

// The text that stands at a place of the table.
fn text_at(bytes: &[u8], span: TextSpan) -> &[u8]
    requires { is_span bytes.now span ≡ true }
    ensures { result.now ≡ text_at bytes.now span }
{
    &bytes[span.first as usize..span.end as usize]
}

impl TextTable {
    /// No texts.
    pub fn new(alloc: Global) -> TextTable
        ensures { result ≡ [] }
    {
        TextTable {
            bytes: Vec::new(alloc),
            spans: Vec::new(alloc),
        }
    }

    /// How many texts there are.
    pub fn len(&self) -> usize
        ensures { result ≡ length self.now }
    {
        self.spans.len()
    }

    /// The text with a number.
    pub fn at(&self, number: usize) -> &[u8]
        requires { number < length self.now }
        ensures { result.now ≡ slice_index_or self.now number [] }
    {
        text_at(self.bytes.as_slice(), self.spans[number])
    }

    /// Adds a text at the end. For want of memory nothing is added; to exceed 4 GiB of texts is one too.
    pub fn push(&mut self, text: &[u8]) -> Result<(), NoMemory>
        ensures { self.new ≡ (if is_ok result then self.old ++ text.now ∷ [] else self.old) }
    {
        add_text(&mut self.bytes, &mut self.spans, text)
    }

    /// Leaves so many texts of those that there are. The bytes of the others stay in the table.
    pub fn truncate(&mut self, count: usize)
        ensures { self.new ≡ take count self.old }
    {
        self.spans.truncate(count);
    }
}

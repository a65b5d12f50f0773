// Fields as they stand in the text of a paragraph, with their values still to be cut.

ghost use Rattle.std.specs.Prelude.{◌≡◌, ◌<◌, ◌+◌, ◌++◌, ◌∷◌, ◌^◌, [], List, IfSome, false, length, map};
ghost use Rattle.control_file.specs.Text.{FieldText, begins_with_space};
ghost use Rattle.control_file.specs.Raw.{raw_text};
ghost use Rattle.control_file.specs.Passes.{TakesField};

use crate::{
    Field, Left, behind, cut_line, name_in, skip_continued, trimmed_end, trimmed_front,
    without_line_end,
};
use std::marker::Model;

/// A field of a paragraph as it stands in the text: its name, and the line of its name, counted from 1. Its value is cut
/// where it is asked for.
#[derive(Clone, Copy, Debug)]
pub struct RawField<'a> {
    pub name: &'a [u8],
    pub line: u64,
    // from the name to the end of its last line
    text: &'a [u8],
}

impl<'a> RawField<'a> {
    ghost use Rattle.control_file.specs.Fields.{field_text};

    pub(crate) fn new(name: &'a [u8], line: u64, text: &'a [u8]) -> RawField<'a>
        ensures name { result.name.now ≡ name.now }
        ensures line { result.line ≡ line }
        ensures text { result.text.now ≡ text.now }
    {
        RawField { name, line, text }
    }

    /// The field.
    pub fn field(&self) -> Field<'a>
        ensures { field_text result ≡ raw_text self.now }
    {
        let body = without_line_end(self.text);
        Field {
            name: self.name,
            value: trimmed_end(trimmed_front(behind(body, self.name.len()))),
            line: self.line,
        }
    }
}

/// The field at the front, and what stands behind it.
pub fn first_raw<'a>(text: &'a [u8], line: u64) -> (RawField<'a>, Left<'a>)
    requires bound { line + length text.now < 2 ^ 64 }
    requires some { 0 < length text.now }
    requires begins { begins_with_space text.now ≡ false }
    ensures { TakesField line text.now (raw_text result.0) result.1.line result.1.text.now }
{
    let (first, after) = cut_line(text);
    let left = skip_continued(after, line + 1);
    let raw = RawField {
        name: name_in(without_line_end(first)),
        line,
        text: &text[..text.len() - left.text.len()],
    };
    (raw, left)
}

// How many fields of a paragraph are kept.
const MOST_KEPT: usize = 24;

/// The first fields of a paragraph, in a room that each paragraph uses anew.
#[derive(Clone, Copy)]
pub struct FrontFields<'a> {
    items: [RawField<'a>; MOST_KEPT],
    ghost whole: { length items ≡ 24 },
}

impl<'a> FrontFields<'a> {
    ghost use Rattle.control_file.specs.Kept.{Keeps};

    pub fn new() -> FrontFields<'a> {
        FrontFields {
            items: [RawField::new(&[], 0, &[]); MOST_KEPT],
        }
    }

    /// Keeps the field at a place, if that is one of the first.
    pub fn keep(&mut self, place: usize, field: RawField<'a>)
        ensures { (fields : List FieldText) → length fields ≡ place → Keeps self.old fields → Keeps self.new (fields ++ raw_text field.entry ∷ []) }
    {
        if place < MOST_KEPT {
            self.items[place] = field;
        }
    }

    /// The fields of a paragraph that has so many, where they are kept.
    pub fn first(&self, len: usize) -> Option<&[RawField<'a>]>
        ensures { IfSome result (λ kept. (fields : List FieldText) → length fields ≡ len → Keeps self.now fields → map raw_text kept.now ≡ fields) }
    {
        self.items.get(..len)
    }
}

/// The fields of a paragraph in order, lent from the text, as `Fields` but with values still to be cut: a field that is
/// passed over costs little. A contract sees it as the fields that it has still to give.
#[derive(Drop)]
pub struct RawFields<'p, 'a> {
    kept: &'p [RawField<'a>],
    place: usize,
    rest: &'a [u8],
    line: u64,
}

impl<'p, 'a> Model for RawFields<'p, 'a> {
    ghost use Rattle.std.specs.Prelude.{◌≡◌, ◌<◌, ◌+◌, ◌++◌, ◌^◌, List, drop, false, length, map};
    ghost use Rattle.control_file.specs.Raw.{raw_text};
    ghost use Rattle.control_file.specs.Text.{FieldText, fields_of, lines_from, begins_with_space};

    ghost Value = { List FieldText };

    ghost view = { λ f. map raw_text (drop f.place f.kept.now) ++ fields_of (lines_from f.line f.rest.now) };

    ghost invariant = { λ f. (begins_with_space f.rest.now ≡ false) × (f.line + length f.rest.now < 2 ^ 64) };
}

impl<'p, 'a> RawFields<'p, 'a> {
    ghost use Rattle.std.specs.Prelude.{map};
    ghost use Rattle.control_file.specs.Text.{fields_of, lines_from};

    // Those that are kept.
    pub(crate) fn of_kept(kept: &'p [RawField<'a>]) -> RawFields<'p, 'a>
        ensures { result ≡ map raw_text kept.now }
    {
        RawFields {
            kept,
            place: 0,
            rest: &[],
            line: 0,
        }
    }

    // Those that begin with the first line of a text, which has a number.
    pub(crate) fn of_lines(rest: &'a [u8], line: u64) -> RawFields<'p, 'a>
        requires begins { begins_with_space rest.now ≡ false }
        requires bound { line + length rest.now < 2 ^ 64 }
        ensures { result ≡ fields_of (lines_from line rest.now) }
    {
        RawFields {
            kept: &[],
            place: 0,
            rest,
            line,
        }
    }
}

impl<'p, 'a> Iterator for RawFields<'p, 'a> {
    ghost use Rattle.std.specs.Iterator.{YieldsFirstBy, item_count};

    type Item = RawField<'a>;

    ghost next_gives = { YieldsFirstBy raw_text (λ fields. fields) };

    ghost remaining = { item_count (λ fields. fields) };

    #[inline]
    fn next(&mut self) -> Option<RawField<'a>> {
        if self.place < self.kept.len() {
            let raw = self.kept[self.place];
            self.place += 1;
            return Some(raw);
        }
        if self.rest.is_empty() {
            return None;
        }
        let (raw, left) = first_raw(self.rest, self.line);
        self.rest = left.text;
        self.line = left.line;
        Some(raw)
    }
}

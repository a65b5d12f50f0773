// The parts of a text between two marks.

ghost use Rattle.std.specs.Prelude.{◌≡◌, ◌≤◌, ◌<◌, ◌+◌, ◌^◌, ◌∷◌, [], ℕ, true, length, drop, MatchOption, IfSome, IfErr, Option};
ghost use Rattle.std.specs.Result.{result_err};
ghost use Rattle.std.specs.List.{list_all};
ghost use Rattle.dep_fields.specs.Relationships.{relationship_of};
ghost use Rattle.dep_fields.specs.Tokens.{is_blank};
ghost use Rattle.dep_fields.specs.Fields.{pieces, parts_left, has_none, bar, comma, part_fault, first_fault, is_empty_group, spans_in};
ghost use Rattle.dep_fields.specs.Cuts.{IsCut, IsFirstSpan};

use super::Span;
use crate::items::read_item;
use crate::tokens::{Class, run_len, skip_blanks};
use crate::{RelFault, RelKind};
use memchr::memchr;

// What stands before the first mark, and what stands behind it, if there is one.
pub fn cut(text: &[u8], mark: u8) -> (&[u8], Option<&[u8]>)
    ensures parts { pieces mark text.now ≡ result.0.now ∷ parts_left mark result.1 }
    ensures whole { IsCut mark text.now result.0.now result.1 }
    ensures unmarked { has_none mark result.0.now ≡ true }
    ensures within { length result.0.now ≤ length text.now }
{
    match memchr(mark, text) {
        Some(i) => (&text[..i], Some(&text[i + 1..])),
        None => (text, None),
    }
}

// The fault of the item in a part that begins at a place, where further parts follow or none does.
fn fault_of_part(part: &[u8], at: usize, last: bool, alternatives: bool) -> Option<RelFault>
    requires { at + length part.now < 2 ^ 64 }
    ensures fault { result ≡ part_fault alternatives at part.now last (relationship_of part.now) }
    ensures within { IfSome result (λ fault. fault.at ≤ at + length part.now) }
{
    let at = at + run_len(part, Class::Blank);
    match read_item(part) {
        Err(kind) => Some(RelFault { at, kind }),
        Ok(_) if alternatives || last => None,
        Ok(_) => Some(RelFault {
            at,
            kind: RelKind::Alternative,
        }),
    }
}

// Reads the items of a group's text, which begins at a place, up to the first fault.
pub fn check_items(text: &[u8], start: usize, alternatives: bool) -> Result<(), RelFault>
    requires { start + length text.now < 2 ^ 63 }
    ensures fault { result_err result ≡ first_fault alternatives start (pieces bar text.now) }
    ensures within { IfErr result (λ fault. fault.at ≤ start + length text.now) }
{
    // most groups have one item, in which no bar stands
    if let Ok(_) = read_item(text) {
        return Ok(());
    }
    let mut place = start;
    let mut left = Some(text);
    while let Some(text) = left {
        let (part, rest) = cut(text, b'|');
        if let Some(fault) = fault_of_part(part, place, rest.is_none(), alternatives) {
            return Err(fault);
        }
        place += part.len() + 1;
        left = rest;
    }
    Ok(())
}

// How many parts a group's text has.
pub fn count_parts(text: &[u8]) -> usize
    ensures { result ≡ length (pieces bar text.now) }
{
    let mut bars = 0;
    for byte in text {
        if *byte == b'|' {
            bars += 1;
        }
    }
    bars + 1
}

// Whether a text between two commas has no group.
fn is_empty_group(text: &[u8]) -> bool
    ensures { result ≡ is_empty_group text.now }
{
    skip_blanks(text).is_empty()
}

// The first group from a place on.
pub fn next_span(value: &[u8], start: usize) -> Option<Span<'_>>
    requires { start ≤ length value.now }
    ensures { MatchOption result (spans_in start (pieces comma (drop start value.now)) ≡ []) (IsFirstSpan value.now start) }
{
    let mut place = start;
    let mut left = Some(&value[start..]);
    while let Some(text) = left {
        let (part, rest) = cut(text, b',');
        let end = place + part.len() + 1;
        if !is_empty_group(part) {
            return Some(Span {
                at: place,
                text: part,
                end: end.min(value.len()),
            });
        }
        place = end;
        left = rest;
    }
    None
}

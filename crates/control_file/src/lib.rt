//! Control files of Debian (Policy 5.1) as slices of their text: paragraphs, fields, and the first fault.
#![tactic(auto)]

ghost use Rattle.std.specs.Prelude.{◌≡◌, ◌<◌, ◌≤◌, ◌+◌, ◌-◌, ◌%◌, ◌^◌, ◌++◌, ◌∷◌, [], Bool, ℕ, true, false, not, cond, Option, Some, None, IfSome, IfOk, IfErr, OnSome, MatchOption, MatchResult, length, take, drop, position, IsTrue, List, map, slice_get, get_or};
ghost use Rattle.std.specs.List.{list_any, list_all, prefix_len, before_first};
ghost use Rattle.ascii.specs.Texts.{begins};
ghost use Rattle.std.specs.Option.{option_map};
ghost use Rattle.std.specs.Str.{str_eq_ignore_ascii_case};
ghost use Rattle.control_file.specs.Text.{Line, paragraphs_of, cut, without_last, without_line_end, is_space, is_colon, begins_with_space, is_blank, is_name_byte, is_among, trimmed_front, trimmed_end, fault_of_line, fields_of, lines_from, whole, reading, reading_of, field_named};
ghost use Rattle.control_file.specs.Answers.{answer_of, behind_first, Reads, Leaves, is_paragraph_next};
ghost use Rattle.control_file.specs.Fields.{field_text};
ghost use Rattle.control_file.specs.Laws.{ParagraphsStandIn, FirstFaultIsFirst, AreRunsOf};
ghost use Rattle.control_file.specs.Tags.{tag_of, slot_by, slot_of};
ghost use Rattle.std.specs.Char.{to_ascii_lowercase};
ghost use Rattle.control_file.specs.Passes.{BeginsField, IsFirstLine, may_begin, fault_before_colon, fault_of_name, SkipsBlank, SkipsContinued, SkipsIndented, Scans, TakesField, at_line, faulty};
ghost use Rattle.control_file.specs.Kept.{Keeps};

mod raw;

use ascii::is_space;
use memchr::memchr;
use raw::{FrontFields, first_raw};
pub use raw::{RawField, RawFields};
use std::marker::Model;

// The most fields that a paragraph may have.
const MOST_FIELDS: usize = 1024;

/// Why a line of a control file is faulty.
#[derive(Clone, Copy, Debug, PartialEq, Eq)]
pub enum CtlKind {
    /// A line that begins a field has no colon.
    NoColon,
    /// What stands before the first colon is no field name.
    BadName,
    /// A line continues a field, and its paragraph has none yet.
    NoFieldYet,
    /// The paragraph has a field of this name already, without regard to ASCII case.
    Twice,
    /// The paragraph has 1,024 fields already.
    ManyFields,
}

/// The first fault of a control file: its line, counted from 1, and its kind.
#[derive(Clone, Copy, Debug, PartialEq, Eq)]
pub struct CtlFault {
    pub line: u64,
    pub kind: CtlKind,
}

// The first line with its line end, and what follows it.
fn cut_line(text: &[u8]) -> (&[u8], &[u8])
    requires { 0 < length text.now }
    ensures { IsFirstLine text.now result.0.now result.1.now }
{
    match memchr(b'\n', text) {
        Some(place) => text.split_at(place + 1),
        None => text.split_at(text.len()),
    }
}

// Without the last byte, if that is `byte`.
fn without_last(byte: u8, text: &[u8]) -> &[u8]
    requires { 0 < byte }
    ensures { result.now ≡ without_last byte text.now }
{
    match text {
        [front @ .., last] if *last == byte => front,
        _ => text,
    }
}

fn without_line_end(text: &[u8]) -> &[u8]
    ensures { result.now ≡ without_line_end text.now }
{
    without_last(b'\r', without_last(b'\n', text))
}

fn is_all_space(bytes: &[u8]) -> bool
    ensures { result ≡ list_all is_space bytes.now }
{
    bytes.iter().all(|byte| is_space(*byte))
}

// Whether a line is empty or only spaces and tabs.
fn is_blank(line: &[u8]) -> bool
    ensures { result ≡ is_blank line.now }
{
    match line {
        // most lines show by their first byte that they are not
        [first, ..] if *first > b' ' => false,
        _ => is_all_space(without_line_end(line)),
    }
}

fn begins_with_space(text: &[u8]) -> bool
    ensures { result ≡ begins_with_space text.now }
{
    match text {
        [first, ..] => is_space(*first),
        [] => false,
    }
}

fn is_name_byte(byte: u8) -> bool
    ensures { result ≡ is_name_byte byte }
{
    byte >= 33 && byte <= 126 && byte != b':'
}

// How many bytes at the front of a line may stand in a name.
fn name_length(line: &[u8]) -> usize
    ensures run { result ≡ prefix_len is_name_byte line.now }
    ensures within { result ≤ length line.now }
{
    for (place, byte) in line.iter().enumerate() {
        if !is_name_byte(*byte) {
            return place;
        }
    }
    line.len()
}

fn is_colon_at(line: &[u8], place: usize) -> bool
    ensures { result ≡ is_colon (get_or line.now place 0) }
{
    place < line.len() && line[place] == b':'
}

// Whether the first byte of a line may begin a name.
fn begins_name(line: &[u8]) -> bool
    ensures { result ≡ begins may_begin line.now }
{
    match line {
        [] => false,
        [first, ..] => is_name_byte(*first) && *first != b'#' && *first != b'-',
    }
}

fn is_same_name(a: &[u8], b: &[u8]) -> bool
    ensures { result ≡ str_eq_ignore_ascii_case a.now b.now }
{
    a.eq_ignore_ascii_case(b)
}

fn is_any_same(names: &[&[u8]], name: &[u8]) -> bool
    ensures { result ≡ list_any (λ other. str_eq_ignore_ascii_case other.now name.now) names.now }
{
    names.iter().any(|other| is_same_name(other, name))
}

fn first_colon(line: &[u8]) -> Option<usize>
    ensures { result ≡ position is_colon line.now }
{
    line.iter().position(|byte| *byte == b':')
}

// What stands before the first colon, or all where there is none.
fn name_in(line: &[u8]) -> &[u8]
    ensures { result.now ≡ before_first is_colon line.now }
{
    match first_colon(line) {
        Some(place) => &line[..place],
        None => line,
    }
}

fn first_other_than_space(text: &[u8]) -> Option<usize>
    ensures { result ≡ position (λ b. not (is_space b)) text.now }
{
    text.iter().position(|byte| !is_space(*byte))
}

// Without the spaces and tabs at the front.
fn trimmed_front(text: &[u8]) -> &[u8]
    ensures { result.now ≡ trimmed_front text.now }
{
    match first_other_than_space(text) {
        Some(place) => &text[place..],
        None => &text[text.len()..],
    }
}

// Without the spaces and tabs at the end.
fn trimmed_end(text: &[u8]) -> &[u8]
    ensures { result.now ≡ trimmed_end text.now }
{
    let mut len = text.len();
    while len > 0 && is_space(text[len - 1]) {
        len -= 1;
    }
    &text[..len]
}

// The tag of a name, the same for names that differ only in ASCII case. Other names rarely share one.
fn tag(name: &[u8]) -> u64
    ensures { result ≡ tag_of name.now }
{
    let mut tag = 0;
    for byte in name {
        tag = (tag * 314_159 + u64::from(byte.to_ascii_lowercase())) % (1 << 44);
    }
    tag
}

// How many slots names are marked in.
const SLOTS: usize = 8192;

// The slot of the names that begin and end with these bytes and have so many.
fn slot_by(first: u8, last: u8, len: usize) -> usize
    ensures slot { result ≡ slot_by (to_ascii_lowercase first) (to_ascii_lowercase last) len }
    ensures range { result < 8192 }
{
    let first = usize::from(first.to_ascii_lowercase());
    let last = usize::from(last.to_ascii_lowercase());
    (first * 31 + last + len % 64 * 127) % SLOTS
}

// The slot of a name, the same for names that differ only in ASCII case.
fn slot(name: &[u8]) -> usize
    ensures slot { result ≡ slot_of name.now }
    ensures range { result < 8192 }
{
    if name.is_empty() {
        return 0;
    }
    slot_by(name[0], name[name.len() - 1], name.len())
}

// The names of a paragraph's fields so far, in a room that each paragraph uses anew. The slot of each of them has the mark,
// so that a name without it is none of them. Where names share a slot, they get tags, each of them once, and the tags alone
// are looked through, many at a time.
#[derive(Drop)]
struct Names<'a> {
    items: [&'a [u8]; MOST_FIELDS],
    len: usize,
    tags: [u64; MOST_FIELDS],
    tagged: usize,
    marks: [u16; SLOTS],
    mark: u16,
}

impl<'a> Model for Names<'a> {
    ghost use Rattle.std.specs.Prelude.{ℕ, List, ◌≤◌, take, map};

    ghost Value = { List (List ℕ) };

    ghost view = { λ names. map (λ name. name.now) (take names.len names.items) };

    ghost use Rattle.control_file.specs.Tags.{AreTagged, AreMarked};

    ghost invariant = { λ names. (names.len ≤ 1024) × (names.tagged ≤ names.len) × AreTagged names.tags names.tagged (map (λ name. name.now) (take names.tagged names.items)) × AreMarked names.marks names.mark (map (λ name. name.now) (take names.len names.items)) };
}

impl<'a> Names<'a> {
    fn new() -> Names<'a>
        ensures { result ≡ [] }
    {
        Names {
            items: [&[]; MOST_FIELDS],
            len: 0,
            tags: [0; MOST_FIELDS],
            tagged: 0,
            marks: [0; SLOTS],
            mark: 0,
        }
    }

    fn clear(&mut self)
        ensures { self.new ≡ [] }
    {
        self.len = 0;
        self.tagged = 0;
        self.mark = self.mark.wrapping_add(1);
    }

    fn len(&self) -> usize
        ensures len { result ≡ length self.now }
        ensures most { result ≤ 1024 }
    {
        self.len
    }

    // Whether a name is there whose slot may have the mark.
    fn contains(&mut self, name: &[u8], slot: usize) -> bool
        requires slot { slot ≡ slot_of name.now }
        requires range { slot < 8192 }
        ensures answer { result ≡ is_among name.now self.old }
        ensures same { self.new ≡ self.old }
    {
        if self.marks[slot] != self.mark {
            return false;
        }
        for place in self.tagged..self.len {
            self.tags[place] = tag(self.items[place]);
        }
        self.tagged = self.len;
        if !self.tags[..self.len].contains(&tag(name)) {
            return false;
        }
        is_any_same(&self.items[..self.len], name)
    }

    fn push(&mut self, name: &'a [u8], slot: usize)
        requires few { length self.old < 1024 }
        requires slot { slot ≡ slot_of name.now }
        requires range { slot < 8192 }
        ensures { self.new ≡ self.old ++ name.now ∷ [] }
    {
        self.items[self.len] = name;
        self.len += 1;
        self.marks[slot] = self.mark;
    }

    // Adds the name of a field, unless it is there or there are as many as a paragraph may have.
    fn add(&mut self, name: &'a [u8]) -> Result<(), CtlKind>
        ensures { MatchResult result (λ _. (fault_of_name self.old name.now ≡ None) × (self.new ≡ self.old ++ name.now ∷ [])) (λ kind. fault_of_name self.old name.now ≡ Some kind) }
    {
        let slot = slot(name);
        if self.contains(name, slot) {
            return Err(CtlKind::Twice);
        }
        if self.len() >= MOST_FIELDS {
            return Err(CtlKind::ManyFields);
        }
        self.push(name, slot);
        Ok(())
    }
}

// What stands before the first colon of a line that begins a field, or why it is no field name.
fn field_name(line: &[u8]) -> Result<&[u8], CtlKind>
    ensures { MatchResult result (λ name. (name.now ≡ before_first is_colon line.now) × (fault_before_colon line.now ≡ None)) (λ kind. fault_before_colon line.now ≡ Some kind) }
{
    let len = name_length(line);
    if is_colon_at(line, len) && begins_name(line) {
        return Ok(&line[..len]);
    }
    match first_colon(line) {
        Some(_) => Err(CtlKind::BadName),
        None => Err(CtlKind::NoColon),
    }
}

// Takes the name of the field that begins on a line that is not blank, or answers the line's fault. A line that begins with
// a space or a tab continues a field of its paragraph, unless it is the first.
fn take_name<'a>(line: &'a [u8], names: &mut Names<'a>) -> Result<&'a [u8], CtlKind>
    requires { begins_with_space line.now ≡ true → names.old ≡ [] }
    ensures { MatchResult result (λ name. BeginsField names.old line.now name.now names.new) (λ kind. fault_of_line names.old line.now ≡ Some kind) }
{
    if begins_with_space(line) {
        return Err(CtlKind::NoFieldYet);
    }
    let name = field_name(without_line_end(line))?;
    names.add(name)?;
    Ok(name)
}

// What is left of a text behind some lines, and the number of its first line.
#[derive(Clone, Copy)]
struct Left<'a> {
    text: &'a [u8],
    line: u64,
}

// Skips the blank lines at the front.
fn skip_blank<'a>(text: &'a [u8], line: u64) -> Left<'a>
    requires { line + length text.now < 2 ^ 64 }
    ensures { SkipsBlank line text.now result.line result.text.now }
{
    let mut rest = text;
    let mut number = line;
    while !rest.is_empty() {
        let (first, after) = cut_line(rest);
        if !is_blank(first) {
            break;
        }
        rest = after;
        number += 1;
    }
    Left {
        text: rest,
        line: number,
    }
}

// Skips the lines at the front that continue a field of their paragraph.
fn skip_indented<'a>(text: &'a [u8], line: u64) -> Left<'a>
    requires { line + length text.now < 2 ^ 64 }
    ensures { SkipsIndented line text.now result.line result.text.now }
{
    let mut rest = text;
    let mut number = line;
    while begins_with_space(rest) {
        let (first, after) = cut_line(rest);
        if is_blank(first) {
            break;
        }
        rest = after;
        number += 1;
    }
    Left {
        text: rest,
        line: number,
    }
}

// Goes over the lines of the paragraph at the front, and answers what stands behind it, or its first fault.
// `names` gets the names of its fields, and `front` the first of them.
fn scan<'a>(
    text: &'a [u8],
    line: u64,
    names: &mut Names<'a>,
    front: &mut FrontFields<'a>,
) -> Result<Left<'a>, CtlFault>
    requires bound { line + length text.now < 2 ^ 64 }
    requires next { IsTrue (is_paragraph_next (cut text.now)) }
    ensures lines { MatchResult result (λ left. Scans line text.now left.line left.text.now names.new) (λ fault. reading_of (at_line text.now line) ≡ faulty fault) }
    ensures front { IfOk result (λ left. Keeps front.new (fields_of (lines_from line (take (length text.now - length left.text.now) text.now)))) }
{
    names.clear();
    let mut rest = text;
    let mut number = line;
    while !rest.is_empty() {
        let (first, after) = cut_line(rest);
        if is_blank(first) {
            break;
        }
        let place = names.len();
        let name = match take_name(first, names) {
            Ok(name) => name,
            Err(kind) => return Err(CtlFault { line: number, kind }),
        };
        let left = skip_indented(after, number + 1);
        front.keep(
            place,
            RawField::new(name, number, &rest[..rest.len() - left.text.len()]),
        );
        rest = left.text;
        number = left.line;
    }
    Ok(Left {
        text: rest,
        line: number,
    })
}

/// A field of a paragraph, lent from the text (Debian Policy 5.1): its name, its value with spaces and tabs cut off at
/// both ends, and the line of its name, counted from 1. The lines of a long value stand in it with their newlines.
#[derive(Clone, Copy, Debug)]
pub struct Field<'a> {
    pub name: &'a [u8],
    pub value: &'a [u8],
    pub line: u64,
}

// Skips the lines at the front that begin with a space or a tab.
fn skip_continued<'a>(text: &'a [u8], line: u64) -> Left<'a>
    requires { line + length text.now < 2 ^ 64 }
    ensures { SkipsContinued line text.now result.line result.text.now }
{
    let mut rest = text;
    let mut number = line;
    while begins_with_space(rest) {
        let (_, after) = cut_line(rest);
        rest = after;
        number += 1;
    }
    Left {
        text: rest,
        line: number,
    }
}

// The field at the front, and what stands behind it.
fn first_field<'a>(text: &'a [u8], line: u64) -> (Field<'a>, Left<'a>)
    requires bound { line + length text.now < 2 ^ 64 }
    requires some { 0 < length text.now }
    requires begins { begins_with_space text.now ≡ false }
    ensures { TakesField line text.now (field_text result.0) result.1.line result.1.text.now }
{
    let (raw, left) = first_raw(text, line);
    (raw.field(), left)
}

// What stands behind the byte at a place.
fn behind(text: &[u8], place: usize) -> &[u8]
    ensures { result.now ≡ drop (place + 1) text.now }
{
    if place < text.len() {
        &text[place + 1..]
    } else {
        &text[text.len()..]
    }
}

/// A paragraph without fault, lent from the text (Debian Policy 5.1). A contract sees it as its line, its fields and
/// its text. It keeps its part of the text, and its fields as they stand in it where they are at most 24. It goes over
/// its lines again for a field that is asked for by its place or its name.
#[derive(Drop)]
pub struct Paragraph<'a> {
    text: &'a [u8],
    line: u64,
    len: usize,
    front: FrontFields<'a>,
}

impl<'a> Model for Paragraph<'a> {
    ghost use Rattle.std.specs.Prelude.{◌≡◌, ◌<◌, ◌≤◌, ◌+◌, ◌^◌, length};
    ghost use Rattle.control_file.specs.Text.{ParagraphText, fields_of, lines_from};
    ghost use Rattle.control_file.specs.Kept.{Keeps};

    ghost Value = { ParagraphText };

    ghost view = { λ p. record { line = p.line; fields = fields_of (lines_from p.line p.text.now); text = p.text.now } };

    ghost invariant = { λ p. (p.len ≡ length (fields_of (lines_from p.line p.text.now))) × (0 < p.len) × (p.len ≤ 1024) × (p.line + length p.text.now < 2 ^ 64) × Keeps p.front (fields_of (lines_from p.line p.text.now)) };
}

impl<'a> Paragraph<'a> {
    /// The line of its first field, counted from 1.
    pub fn line(&self) -> u64
        ensures { result ≡ self.now.line }
    {
        self.line
    }

    /// How many fields it has: 1 to 1,024.
    pub fn len(&self) -> usize
        ensures fields { result ≡ length self.now.fields }
        ensures some { 0 < result }
        ensures most { result ≤ 1024 }
        ensures within { result ≤ length self.now.text }
    {
        self.len
    }

    /// Its text, from the first byte of its first line to the end of its last line, the line end included.
    pub fn text(&self) -> &'a [u8]
        ensures { result.now ≡ self.now.text }
    {
        self.text
    }

    /// Its fields in order, as they are asked for. All of them take the time of one pass over its lines.
    pub fn fields(&self) -> Fields<'a>
        ensures { result ≡ self.now.fields }
    {
        let left = skip_continued(self.text, self.line);
        Fields {
            rest: left.text,
            line: left.line,
        }
    }

    /// Its fields in order, as `fields` gives them, but each with its value still to be cut. Where they are at most 24,
    /// it goes over no line again for them.
    pub fn raw_fields(&self) -> RawFields<'_, 'a>
        ensures { result ≡ self.now.fields }
    {
        if let Some(kept) = self.front.first(self.len) {
            return RawFields::of_kept(kept);
        }
        let left = skip_continued(self.text, self.line);
        RawFields::of_lines(left.text, left.line)
    }

    /// The field at a place, counted from 0. It takes the time of a pass over the lines up to that field.
    pub fn at(&self, place: usize) -> Field<'a>
        requires { place < length self.now.fields }
        ensures { slice_get self.now.fields place ≡ Some (field_text result) }
    {
        let mut left = skip_continued(self.text, self.line);
        for _ in 0..place {
            let (_, behind) = first_field(left.text, left.line);
            left = behind;
        }
        let (field, _) = first_field(left.text, left.line);
        field
    }

    /// The field of a name, without regard to ASCII case; `None` exactly where no field has it. It takes the time of a
    /// pass over the lines up to that field.
    pub fn field(&self, name: &[u8]) -> Option<Field<'a>>
        ensures { option_map field_text result ≡ field_named name.now self.now.fields }
    {
        let mut left = skip_continued(self.text, self.line);
        while !left.text.is_empty() {
            let (field, behind) = first_field(left.text, left.line);
            if is_same_name(field.name, name) {
                return Some(field);
            }
            left = behind;
        }
        None
    }
}

/// The fields of a paragraph in order, lent from the text (Debian Policy 5.1). A contract sees it as the fields that it
/// has still to give. It goes over the lines of a field when that is asked for, and takes no memory.
#[derive(Drop)]
pub struct Fields<'a> {
    rest: &'a [u8],
    line: u64,
}

impl<'a> Model for Fields<'a> {
    ghost use Rattle.std.specs.Prelude.{◌≡◌, ◌<◌, ◌+◌, ◌^◌, List, false, length};
    ghost use Rattle.control_file.specs.Text.{FieldText, fields_of, lines_from, begins_with_space};

    ghost Value = { List FieldText };

    ghost view = { λ f. fields_of (lines_from f.line f.rest.now) };

    ghost invariant = { λ f. (begins_with_space f.rest.now ≡ false) × (f.line + length f.rest.now < 2 ^ 64) };
}

impl<'a> Iterator for Fields<'a> {
    ghost use Rattle.std.specs.Iterator.{YieldsFirstBy, item_count};
    ghost use Rattle.control_file.specs.Fields.{field_text};

    type Item = Field<'a>;

    ghost next_gives = { YieldsFirstBy field_text (λ fields. fields) };

    ghost remaining = { item_count (λ fields. fields) };

    fn next(&mut self) -> Option<Field<'a>> {
        if self.rest.is_empty() {
            return None;
        }
        let (field, left) = first_field(self.rest, self.line);
        self.rest = left.text;
        self.line = left.line;
        Some(field)
    }
}

/// A law of the definitions: the fault of a paragraph is that of a line, and no line above it in the paragraph has one.
/// Without a fault no line has one.
pub fn a_fault_is_of_the_first_faulty_line()
    ensures { (ls : List Line) → FirstFaultIsFirst ls }
{}

/// A law of the definitions: lines are, in order, blank lines and the lines of their paragraphs, and behind a paragraph
/// the lines end or a blank one comes. So a paragraph is a longest run of lines that are not blank.
pub fn paragraphs_are_runs_of_lines()
    ensures { (ls : List Line) → AreRunsOf (paragraphs_of ls) ls }
{}

/// A law of the definitions: whatever is read of a text is a part of it. The text of each paragraph stands in the whole
/// text, and each name and value stands in the text of its paragraph, between two places: nothing is made or joined.
pub fn names_and_values_are_parts()
    ensures { (text : List ℕ) → ParagraphsStandIn text (reading text).paragraphs }
{}

/// A reader of the paragraphs of a text (Debian Policy 5.1), from front to back. A contract sees it as the text that
/// is left and the number of its first line.
#[derive(Drop)]
pub struct Paragraphs<'a> {
    rest: &'a [u8],
    line: u64,
    names: Names<'a>,
    front: FrontFields<'a>,
}

impl<'a> Model for Paragraphs<'a> {
    ghost use Rattle.std.specs.Prelude.{◌<◌, ◌+◌, ◌^◌, length};
    ghost use Rattle.control_file.specs.Text.{Rest};

    ghost Value = { Rest };

    ghost view = { λ p. record { text = p.rest.now; line = p.line } };

    ghost invariant = { λ p. p.line + length p.rest.now < 2 ^ 64 };
}

impl<'a> Paragraphs<'a> {
    /// A reader at the front of the text.
    pub fn new(text: &'a [u8]) -> Paragraphs<'a>
        ensures { result ≡ whole text.now }
    {
        Paragraphs {
            rest: text,
            line: 1,
            names: Names::new(),
            front: FrontFields::new(),
        }
    }

    /// What is left of the text: all of it before the first `next`, then what stands behind the last paragraph
    /// answered; behind a fault it begins with the first line of the faulty paragraph, and at the end it is empty.
    pub fn rest(&self) -> &'a [u8]
        ensures { result.now ≡ self.now.text }
    {
        self.rest
    }

    /// The next paragraph, `None` exactly at the end, or the first fault of the next paragraph (Debian Policy 5.1).
    /// After a fault the same fault is answered. It goes over the paragraph once and takes no memory.
    pub fn next(&mut self) -> Result<Option<Paragraph<'a>>, CtlFault>
        ensures answer { result ≡ answer_of (reading_of self.old) }
        ensures behind { reading_of self.new ≡ behind_first (reading_of self.old) }
        ensures reads { Reads result (reading_of self.old) (reading_of self.new) }
        ensures leaves { Leaves self.old result self.new }
        ensures shorter { IfOk result (λ paragraph. OnSome paragraph (length self.new.text < length self.old.text)) }
    {
        let start = skip_blank(self.rest, self.line);
        self.rest = start.text;
        self.line = start.line;
        if start.text.is_empty() {
            return Ok(None);
        }
        match scan(start.text, start.line, &mut self.names, &mut self.front) {
            Ok(left) => {
                self.rest = left.text;
                self.line = left.line;
                Ok(Some(Paragraph {
                    text: &start.text[..start.text.len() - left.text.len()],
                    line: start.line,
                    len: self.names.len(),
                    front: self.front,
                }))
            }
            Err(fault) => Err(fault),
        }
    }
}

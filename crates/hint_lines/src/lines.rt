// The lines of a text.
ghost use Rattle.std.specs.Prelude.{◌≡◌, ◌<◌, length};
ghost use Rattle.control_file.specs.Text.{lines_from, without_last, without_line_end};
ghost use Rattle.control_file.specs.Passes.{IsFirstLine};

use memchr::memchr;
use std::marker::Model;

/// A line: its number, counted from 1, and its bytes with its line end.
#[derive(Clone, Copy, Debug)]
pub struct Line<'a> {
    pub number: u64,
    pub bytes: &'a [u8],
}

// The first line with its line end, and what follows it.
fn cut_line(text: &[u8]) -> (&[u8], &[u8])
    requires { 0 < length text.now }
    ensures { IsFirstLine text.now result.0.now result.1.now }
{
    match memchr(b'\n', text) {
        Some(place) => text.split_at(place + 1),
        None => text.split_at(text.len()),
    }
}

// Without the last byte, if that is `byte`.
fn without_last(byte: u8, text: &[u8]) -> &[u8]
    requires { 0 < byte }
    ensures { result.now ≡ without_last byte text.now }
{
    match text {
        [front @ .., last] if *last == byte => front,
        _ => text,
    }
}

impl<'a> Line<'a> {
    /// The bytes without the line end: a newline, and one carriage return before it or at the end.
    pub fn content(&self) -> &'a [u8]
        ensures { result.now ≡ without_line_end self.now.bytes.now }
    {
        without_last(b'\r', without_last(b'\n', self.bytes))
    }
}

/// The lines of a text in order. A contract sees it as the lines that it has still to give.
#[derive(Drop)]
pub struct Lines<'a> {
    rest: &'a [u8],
    number: u64,
}

impl<'a> Model for Lines<'a> {
    ghost use Rattle.std.specs.Prelude.{◌<◌, ◌+◌, ◌^◌, List, length};
    ghost use Rattle.control_file.specs.Text.{Line, lines_from};

    ghost Value = { List Line };

    ghost view = { λ l. lines_from l.number l.rest.now };

    ghost invariant = { λ l. l.number + length l.rest.now < 2 ^ 64 };
}

impl<'a> Lines<'a> {
    /// The lines of a whole text.
    pub fn new(text: &'a [u8]) -> Lines<'a>
        ensures { result ≡ lines_from 1 text.now }
    {
        Lines {
            rest: text,
            number: 1,
        }
    }
}

impl<'a> Iterator for Lines<'a> {
    ghost use Rattle.std.specs.Iterator.{YieldsFirstBy, item_count};
    ghost use Rattle.hint_lines.specs.LinesLeft.{line_text};

    type Item = Line<'a>;

    ghost next_gives = { YieldsFirstBy line_text (λ lines. lines) };

    ghost remaining = { item_count (λ lines. lines) };

    fn next(&mut self) -> Option<Line<'a>> {
        if self.rest.is_empty() {
            return None;
        }
        let (bytes, rest) = cut_line(self.rest);
        let number = self.number;
        self.rest = rest;
        self.number = number + 1;
        Some(Line { number, bytes })
    }
}

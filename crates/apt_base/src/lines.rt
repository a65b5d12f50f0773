// The lines of an input, read one at a time.
ghost use Rattle.std.specs.Prelude.{◌≡◌, ◌⊎◌, ◌==◌, ℕ, ◌+◌, ◌-◌, ◌<◌, ◌≤◌, List, [], ◌++◌, length, take, drop, IfOk, IfSome, IsTrue, IsErrOf};
ghost use Rattle.std.specs.Option.{IsSomeAnd, is_some};
ghost use Rattle.std.specs.List.{position};
ghost use Rattle.std.specs.Io.KnownBytes.{prepend_known, IsAtEnd};
ghost use Rattle.apt_base.specs.Faults.{IsLater, Rose, HasCause};
ghost use Rattle.apt_base.specs.Bytes.{TakesBeside, IsRead};
ghost use Rattle.apt_base.specs.Lines.{InputReadsLine, most_line_bytes, without_return, HasNoNewline, TakesPart};

use crate::{Failed, Source};
use choice_set::NoMemory;
use std::alloc::Global;
use std::marker::Model;

/// The most bytes that may stand before a newline or the end of the input.
const MOST_LINE_BYTES: usize = 4_096;

/// How many bytes a reader holds: those of the longest line and its newline.
const BUFFER: usize = MOST_LINE_BYTES + 1;

/// Why no line was read.
#[derive(Clone, Copy, Debug, PartialEq, Eq, Drop)]
pub enum LineEnd {
    /// The source failed.
    ReadFault,
    /// More than 4,096 bytes stand before the newline or the end.
    TooLong,
    /// There was not enough memory.
    NoMemory,
}

impl From<NoMemory> for LineEnd {
    ghost use Rattle.std.specs.Prelude.{◌≡◌};
    ghost use Rattle.apt_base.specs.declared.lines.LineEnd.TheVariants as line_end;

    ghost from_gives = { λ _ e. e ≡ line_end.NoMemory };

    fn from(_error: NoMemory) -> LineEnd {
        LineEnd::NoMemory
    }
}

impl From<Failed> for LineEnd {
    ghost use Rattle.std.specs.Prelude.{◌≡◌};
    ghost use Rattle.apt_base.specs.declared.lines.LineEnd.TheVariants as line_end;

    ghost from_gives = { λ _ e. e ≡ line_end.ReadFault };

    fn from(_error: Failed) -> LineEnd {
        LineEnd::ReadFault
    }
}

/// A reader of lines. It takes pieces from its source into a buffer of its own, and is seen as the
/// bytes that it has taken and not yet given as lines.
#[derive(Drop)]
pub struct LineReader {
    buffer: Vec<u8>,
    start: usize,
    end: usize,
}

impl Model for LineReader {
    ghost Value = { List ℕ };

    ghost view = { λ r. take (r.end - r.start) (drop r.start r.buffer.items) };

    ghost invariant = { λ r. (r.start ≤ r.end) × (r.end ≤ 4097) × (length r.buffer.items ≡ 4097) };
}

impl LineReader {
    /// A reader that has taken nothing yet.
    pub fn new(alloc: Global) -> Result<LineReader, NoMemory>
        ensures { IfOk result (λ reader. reader ≡ []) }
    {
        let buffer = vec![in alloc; 0u8; BUFFER]?;
        Ok(LineReader {
            buffer,
            start: 0,
            end: 0,
        })
    }

    /// Reads the next line into `line`, in place of what it held, and answers whether there is one.
    ///
    /// A line ends before a newline, and one carriage return before that is dropped too. A last line
    /// without a newline is a line if it has a byte. `TooLong` comes exactly where more than 4,096
    /// bytes stand before the newline or the end, `ReadFault` only where the source failed. What the
    /// reader held and what it takes from the source in a call are together at most 4,097 bytes, and
    /// it takes none where it holds a newline. After an error the reader and its line are of no
    /// further use.
    pub fn next_line<I: Source>(
        &mut self,
        source: &mut I,
        line: &mut Vec<u8>,
    ) -> Result<bool, LineEnd>
        ensures sure { (I.state source.new).sure ≡ (I.state source.old).sure }
        ensures counts { IsLater (I.state source.old).faults (I.state source.new).faults }
        ensures cause { IsErrOf result LineEnd.ReadFault → Rose (I.state source.old).faults (I.state source.new).faults }
        ensures never { IsTrue (I.state source.old).sure → IsErrOf result LineEnd.ReadFault → ⊥ }
        ensures length { IfOk result (λ _. length line.new.items ≤ most_line_bytes) }
        ensures input { InputReadsLine (prepend_known self.old (I.state source.old).left) result line.new.items (prepend_known self.new (I.state source.new).left) }
        ensures budget { TakesBeside 4097 self.old (I.state source.old).left (I.state source.new).left }
        ensures held { IfOk result (λ _. length self.new ≤ 4097) }
        ensures lazy { HasNoNewline self.old ⊎ (I.state source.new ≡ I.state source.old) }
    {
        let _ = &self.end;
        line.clear();
        loop {
            if self.take_part(line)? {
                drop_return(line);
                return Ok(true);
            }
            if line.len() > MOST_LINE_BYTES {
                return Err(LineEnd::TooLong);
            }
            if self.fill(source, BUFFER - line.len())? == 0 {
                return Ok(!line.is_empty());
            }
        }
    }

    /// Moves the bytes before the first newline to the end of `line`, and drops the newline; where
    /// there is none it moves all. Answers whether there is one.
    fn take_part(&mut self, line: &mut Vec<u8>) -> Result<bool, NoMemory>
        ensures { IfOk result (λ found. TakesPart found self.old self.new line.old.items line.new.items) }
    {
        let held = &self.buffer[self.start..self.end];
        match newline_at(held) {
            Some(place) => {
                line.extend_from_slice(&held[..place])?;
                self.start += place + 1;
                Ok(true)
            }
            None => {
                line.extend_from_slice(held)?;
                self.start = self.end;
                Ok(false)
            }
        }
    }

    /// Reads at most `room` bytes into the buffer, in place of what it held.
    fn fill<I: Source>(&mut self, source: &mut I, room: usize) -> Result<usize, Failed>
        requires some { 0 < room }
        requires within { room ≤ 4097 }
        ensures sure { (I.state source.new).sure ≡ (I.state source.old).sure }
        ensures cause { HasCause (I.state source.old).faults (I.state source.new).faults result }
        ensures taken { (I.state source.old).left ≡ prepend_known self.new (I.state source.new).left }
        ensures within { length self.new ≤ room }
        ensures count { IfOk result (λ count. (count ≡ length self.new) × (count ≡ 0 → IsAtEnd (I.state source.new).left)) }
    {
        self.start = 0;
        self.end = 0;
        let count = read_front(source, &mut self.buffer, room)?;
        self.end = count;
        Ok(count)
    }
}

/// Where the first newline stands.
fn newline_at(bytes: &[u8]) -> Option<usize>
    ensures { result ≡ position (λ byte. byte == 10) bytes.now }
{
    bytes.iter().position(|byte| *byte == b'\n')
}

/// Reads at most `room` bytes into the front of the buffer.
fn read_front<I: Source>(source: &mut I, buffer: &mut [u8], room: usize) -> Result<usize, Failed>
    requires { room ≤ length buffer.old }
    ensures { IsRead (I.state source.old) result (take room buffer.new) (I.state source.new) }
{
    source.read(&mut buffer[..room])
}

/// Drops a carriage return at the end of the line.
fn drop_return(line: &mut Vec<u8>)
    ensures { line.new.items ≡ without_return line.old.items }
{
    let length = line.len();
    if length == 0 {
        return;
    }
    if line[length - 1] == b'\r' {
        line.truncate(length - 1);
    }
}

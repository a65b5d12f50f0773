// What reads and writes bytes, as its caller sees it.
ghost use Rattle.std.specs.Prelude.{IsSome};
ghost use Rattle.apt_base.specs.Bytes.{SourceState, IsSourceState, IsRead, SinkState, IsSinkState, IsWrite};
ghost use Rattle.apt_base.specs.Files.{ShelfState, IsShelfState, IsOpening, IsFileRead};

use choice_set::NoMemory;
use std::alloc::AllocError;

/// A read, a write or an open failed.
#[derive(Clone, Copy, Debug, PartialEq, Eq, Drop)]
pub struct Failed;

/// Why a file was not opened.
#[derive(Clone, Copy, Debug, PartialEq, Eq, Drop)]
pub enum OpenEnd {
    Failed,
    NoMemory,
}

impl From<NoMemory> for OpenEnd {
    ghost use Rattle.std.specs.Prelude.{◌≡◌};
    ghost use Rattle.apt_base.specs.declared.calls.OpenEnd.TheVariants as open_end;

    ghost from_gives = { λ _ e. e ≡ open_end.NoMemory };

    fn from(_error: NoMemory) -> OpenEnd {
        OpenEnd::NoMemory
    }
}

impl From<AllocError> for OpenEnd {
    ghost use Rattle.std.specs.Prelude.{◌≡◌};
    ghost use Rattle.apt_base.specs.declared.calls.OpenEnd.TheVariants as open_end;

    ghost from_gives = { λ _ e. e ≡ open_end.NoMemory };

    fn from(_error: AllocError) -> OpenEnd {
        OpenEnd::NoMemory
    }
}

/// What bytes are read from.
///
/// It counts its faults, and may tell the bytes that are left. A source that is sure never fails.
pub trait Source {
    ghost state: { Self → SourceState };

    /// Reads bytes into the front of the buffer, and answers how many: at least one, but at the end
    /// of the bytes and into an empty buffer none.
    fn read(&mut self, buf: &mut [u8]) -> Result<usize, Failed>
        ensures { IsRead (state self.old) result buf.new (state self.new) };

    ghost is_state: { (source : Self) → IsSourceState (state source) };
}

/// What bytes are written to.
///
/// It counts its faults, and may tell the bytes that were written. A sink that is sure tells them,
/// and never fails while they are fewer than its room.
pub trait Sink {
    ghost state: { Self → SinkState };

    /// Writes bytes of the front of the piece, and answers how many: at least one, but of an empty
    /// piece none.
    fn write(&mut self, piece: &[u8]) -> Result<usize, Failed>
        ensures { IsWrite (state self.old) piece.now result (state self.new) };

    ghost is_state: { (sink : Self) → IsSinkState (state sink) };
}

/// Files by name, of which one at a time is read.
///
/// It counts its faults by the name that was asked for, and may tell its files. A shelf that is
/// sure tells them, and never fails for one that is there.
pub trait Shelf {
    ghost state: { Self → ShelfState };

    /// Opens the file of that name, in place of the one that was open.
    fn open(&mut self, name: &str) -> Result<(), OpenEnd>
        ensures { IsOpening (state self.old) name.now result (state self.new) };

    /// Reads bytes of the open file, as `Source::read` does. A file is open once an `open` has
    /// answered Ok.
    fn read(&mut self, buf: &mut [u8]) -> Result<usize, Failed>
        requires { IsSome (state self.old).opened }
        ensures { IsFileRead (state self.old) result buf.new (state self.new) };

    ghost is_state: { (shelf : Self) → IsShelfState (state shelf) };
}

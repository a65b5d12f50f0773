// Files that are read whole, and bytes that are written whole.
ghost use Rattle.std.specs.Prelude.{◌≡◌, ◌≢◌, ℕ, ◌+◌, ◌<◌, ◌≤◌, List, ◌++◌, length, take, IfOk, IfSome, OnOk, OnErr, IsOk, IsTrue, IsSome, IsErrOf};
ghost use Rattle.std.specs.Option.{IsSomeAnd};
ghost use Rattle.std.specs.Io.KnownBytes.{append_known};
ghost use Rattle.apt_base.specs.Faults.{IsLater, HasCause, CountsOnly, at_name, faults_of};
ghost use Rattle.apt_base.specs.Bytes.{HasRoom, WritesPrefix, TakesAtMost};
ghost use Rattle.apt_base.specs.Files.{KeepsFiles, HasReadCause, ReadsFile, TakesOfFile, told_file};

use crate::{Failed, OpenEnd, Shelf, Sink};
use std::alloc::{AllocError, Global};

/// How many bytes of a file are asked for at a time.
const PIECE: usize = 65_536;

/// Why a file was not read whole.
#[derive(Clone, Copy, Debug, PartialEq, Eq, Drop)]
pub enum ReadEnd {
    /// The shelf failed for that name.
    ReadFault,
    /// The file has more bytes than the limit.
    TooLong { limit: u64 },
    /// There was not enough memory.
    NoMemory,
}

impl From<Failed> for ReadEnd {
    ghost use Rattle.std.specs.Prelude.{◌≡◌};
    ghost use Rattle.apt_base.specs.declared.whole.ReadEnd.TheVariants as read_end;

    ghost from_gives = { λ _ e. e ≡ read_end.ReadFault };

    fn from(_error: Failed) -> ReadEnd {
        ReadEnd::ReadFault
    }
}

impl From<AllocError> for ReadEnd {
    ghost use Rattle.std.specs.Prelude.{◌≡◌};
    ghost use Rattle.apt_base.specs.declared.whole.ReadEnd.TheVariants as read_end;

    ghost from_gives = { λ _ e. e ≡ read_end.NoMemory };

    fn from(_error: AllocError) -> ReadEnd {
        ReadEnd::NoMemory
    }
}

/// Bytes could not be written: the sink failed.
#[derive(Clone, Copy, Debug, PartialEq, Eq, Drop)]
pub struct WriteFault;

/// Reads the file of that name: all its bytes, or `TooLong` where it has more than `limit`.
///
/// It asks for 65,536 bytes at a time, until a read answers 0, and takes at most that many past
/// `limit`. `ReadFault` comes only where the shelf failed for that name.
pub fn read_whole<F: Shelf>(
    alloc: Global,
    shelf: &mut F,
    name: &str,
    limit: u64,
) -> Result<Vec<u8>, ReadEnd>
    ensures kept { KeepsFiles (F.state shelf.old) (F.state shelf.new) }
    ensures counts { CountsOnly name.now (F.state shelf.old).asked (F.state shelf.new).asked }
    ensures cause { HasReadCause limit (faults_of (F.state shelf.old).asked name.now) (faults_of (F.state shelf.new).asked name.now) result }
    ensures file { IfSome (F.state shelf.old).files (λ files. ReadsFile limit (at_name files name.now) result) }
    ensures sure { IsTrue (F.state shelf.old).sure → IsSome (told_file (F.state shelf.old).files name.now) → IsErrOf result ReadEnd.ReadFault → ⊥ }
    ensures budget { TakesOfFile (limit + 65536) (F.state shelf.old) name.now (F.state shelf.new) }
{
    match shelf.open(name) {
        Ok(()) => read_open(alloc, shelf, limit),
        Err(OpenEnd::Failed) => Err(ReadEnd::ReadFault),
        Err(OpenEnd::NoMemory) => Err(ReadEnd::NoMemory),
    }
}

/// Writes all the bytes. At `WriteFault`, which comes only where the sink failed, it has written
/// those at the front, and not all.
pub fn write_all<O: Sink>(sink: &mut O, bytes: &[u8]) -> Result<(), WriteFault>
    ensures room { (O.state sink.new).room ≡ (O.state sink.old).room }
    ensures cause { HasCause (O.state sink.old).faults (O.state sink.new).faults result }
    ensures written { OnOk result ((O.state sink.new).written ≡ append_known (O.state sink.old).written bytes.now) }
    ensures prefix { OnErr result (WritesPrefix (O.state sink.old).written bytes.now (O.state sink.new).written) }
    ensures sure { HasRoom (O.state sink.old) bytes.now → IsOk result }
{
    let mut rest = bytes;
    while !rest.is_empty() {
        match sink.write(rest) {
            Ok(count) => rest = &rest[count..],
            Err(_) => return Err(WriteFault),
        }
    }
    Ok(())
}

/// Reads what is left of the open file.
fn read_open<F: Shelf>(alloc: Global, shelf: &mut F, limit: u64) -> Result<Vec<u8>, ReadEnd>
    requires { IsSome (F.state shelf.old).opened }
    ensures kept { KeepsFiles (F.state shelf.old) (F.state shelf.new) }
    ensures counts { IfSome (F.state shelf.old).opened (λ name. CountsOnly name (F.state shelf.old).asked (F.state shelf.new).asked) }
    ensures cause { IfSome (F.state shelf.old).opened (λ name. HasReadCause limit (faults_of (F.state shelf.old).asked name) (faults_of (F.state shelf.new).asked name) result) }
    ensures rest { IfSome (F.state shelf.old).rest (λ rest. ReadsFile limit (Some rest) result) }
    ensures budget { TakesAtMost (limit + 65536) (F.state shelf.old).rest (F.state shelf.new).rest }
{
    let mut bytes = Vec::new(alloc);
    let mut piece = [0u8; PIECE];
    loop {
        let count = shelf.read(&mut piece)?;
        if count == 0 {
            return Ok(bytes);
        }
        if limit - (bytes.len() as u64) < count as u64 {
            return Err(ReadEnd::TooLong { limit });
        }
        bytes.extend_from_slice(&piece[..count])?;
    }
}

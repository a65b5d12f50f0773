// The standard streams and files, as a source, a sink and a shelf. What they read and write is not
// known to any contract.
ghost use Rattle.std.specs.Prelude.{◌≡◌, true, string_bytes};

use crate::asked::Asked;
use crate::{Failed, OpenEnd, Shelf, Sink, Source};
use choice_set::NoMemory;
use std::alloc::Global;
use std::fs::File;
use std::io::{self, Read, Write};
use std::rt::Files;

/// Standard input. It counts its faults and tells no bytes.
#[derive(Drop)]
pub struct StdinSource<R: Input> {
    reader: R::Reader,
    faults: u64,
}

impl<R: Input> StdinSource<R> {
    /// The standard input of this runtime.
    pub fn new(rt: &R) -> StdinSource<R> {
        StdinSource {
            reader: rt.reader(),
            faults: 0,
        }
    }
}

impl<R: Input> Source for StdinSource<R> {
    ghost use Rattle.std.specs.Prelude.{false, None};
    ghost use Rattle.apt_base.specs.Bytes.{untold_source};

    ghost state = { λ s. record { sure = false; faults = s.faults; left = None } };

    ghost is_state = { λ s. untold_source s.faults };

    fn read(&mut self, buf: &mut [u8]) -> Result<usize, Failed> {
        match self.reader.read(buf) {
            Ok(count) => Ok(count),
            Err(_) => {
                self.faults = self.faults.saturating_add(1);
                Err(Failed)
            }
        }
    }
}

/// Standard output. It counts its faults and tells no bytes.
#[derive(Drop)]
pub struct StdoutSink<'a, P: Print> {
    rt: &'a P,
    faults: u64,
}

impl<'a, P: Print> StdoutSink<'a, P> {
    /// The standard output of this runtime.
    pub fn new(rt: &'a P) -> StdoutSink<'a, P> {
        StdoutSink { rt, faults: 0 }
    }
}

impl<P: Print> Sink for StdoutSink<'_, P> {
    ghost use Rattle.std.specs.Prelude.{None};

    ghost state = { λ s. record { room = None; faults = s.faults; written = None } };

    ghost is_state = { λ s. tt };

    fn write(&mut self, piece: &[u8]) -> Result<usize, Failed> {
        match io::writer(self.rt).write(piece) {
            Ok(count) if count > 0 || piece.is_empty() => Ok(count),
            _ => {
                self.faults = self.faults.saturating_add(1);
                Err(Failed)
            }
        }
    }
}

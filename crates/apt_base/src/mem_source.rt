// A source in memory.
ghost use Rattle.std.specs.Prelude.{◌≡◌, ◌<◌, ◌≤◌, ◌==◌, length, Some};

use crate::moves::copy_front;
use crate::plan::Plan;
use crate::{Failed, Source};

/// Bytes in memory that are read from the front. It tells them.
#[derive(Drop)]
pub struct MemSource {
    bytes: Vec<u8>,
    start: usize,
    plan: Plan,
    faults: u64,
    ghost within: { start ≤ length bytes.items },
    ghost some: { 0 < plan.piece },
}

impl MemSource {
    ghost use Rattle.apt_base.specs.MemSource.{source_state};

    /// A source of these bytes. Its calls are numbered from 0: those whose numbers stand in `failing`
    /// fail, and each other moves as many bytes as it can, but at most `piece`. It is sure where none
    /// is to fail.
    pub fn new(bytes: Vec<u8>, piece: usize, failing: Vec<u64>) -> MemSource
        requires { 0 < piece }
        ensures state { source_state result ≡ record { sure = length failing.items == 0; faults = 0; left = Some bytes.items } }
        ensures plan { result.plan ≡ record { piece = piece; failing = failing; calls = 0 } }
    {
        MemSource {
            bytes,
            start: 0,
            plan: Plan {
                piece,
                failing,
                calls: 0,
            },
            faults: 0,
        }
    }
}

impl Source for MemSource {
    ghost use Rattle.std.specs.Prelude.{◌≡◌, ◌==◌, length};
    ghost use Rattle.apt_base.specs.Bytes.{IsRead};
    ghost use Rattle.apt_base.specs.Plan.{fails_never, planned, one_call_more, sure_has_none};
    ghost use Rattle.apt_base.specs.MemSource.{source_state, could_read};

    ghost state = { source_state };

    ghost is_state = { λ s sure. sure_has_none (fails_never s.plan) s.faults sure };

    fn read(&mut self, buf: &mut [u8]) -> Result<usize, Failed>
        ensures read { IsRead (source_state self.old) result buf.new (source_state self.new) }
        ensures answer { result ≡ planned self.old.plan (could_read self.old (length buf.new)) }
        ensures next { self.new.plan ≡ one_call_more self.old.plan }
    {
        let left = &self.bytes[self.start..];
        match self.plan.call(buf.len().min(left.len())) {
            Ok(count) => {
                copy_front(left, buf, count);
                self.start += count;
                Ok(count)
            }
            Err(Failed) => {
                self.faults = self.faults.saturating_add(1);
                Err(Failed)
            }
        }
    }
}

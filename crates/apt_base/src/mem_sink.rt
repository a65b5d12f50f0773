// A sink in memory.
ghost use Rattle.std.specs.Prelude.{◌≡◌, ◌<◌, ◌≤◌, ◌==◌, [], length, Some, None, IfOk, if◌then◌else◌, vec_capacity};

use crate::plan::Plan;
use crate::{Failed, Sink};
use choice_set::NoMemory;
use std::alloc::Global;

/// Memory that bytes are written to, with a fixed room. It tells them.
#[derive(Drop)]
pub struct MemSink {
    bytes: Vec<u8>,
    room: usize,
    plan: Plan,
    faults: u64,
    ghost within: { length bytes.items ≤ room },
    ghost reserved: { room ≤ vec_capacity bytes },
    ghost some: { 0 < plan.piece },
    ghost counted: { length plan.failing.items ≡ 0 → length bytes.items < room → faults ≡ 0 },
}

impl MemSink {
    ghost use Rattle.apt_base.specs.MemSink.{sink_state};

    /// A sink with that room and nothing written. Its calls are numbered from 0: those whose numbers
    /// stand in `failing` fail, and so does a write of a piece that is not empty where the room is
    /// full; each other takes as many bytes as it can, but at most `piece`. It is sure, with its room,
    /// where none is to fail.
    pub fn new(
        alloc: Global,
        room: usize,
        piece: usize,
        failing: Vec<u64>,
    ) -> Result<MemSink, NoMemory>
        requires { 0 < piece }
        ensures state { IfOk result (λ sink. sink_state sink ≡ record { room = (if length failing.items == 0 then Some room else None); faults = 0; written = Some [] }) }
        ensures plan { IfOk result (λ sink. sink.plan ≡ record { piece = piece; failing = failing; calls = 0 }) }
        ensures room { IfOk result (λ sink. sink.room ≡ room) }
    {
        let bytes = Vec::with_capacity(alloc, room)?;
        Ok(MemSink {
            bytes,
            room,
            plan: Plan {
                piece,
                failing,
                calls: 0,
            },
            faults: 0,
        })
    }

    /// The bytes that were written.
    pub fn written(&self) -> &[u8]
        ensures { (sink_state self.now).written ≡ Some result.now }
    {
        self.bytes.as_slice()
    }
}

impl Sink for MemSink {
    ghost use Rattle.std.specs.Prelude.{◌≡◌};
    ghost use Rattle.apt_base.specs.Bytes.{IsWrite};
    ghost use Rattle.apt_base.specs.Plan.{one_call_more};
    ghost use Rattle.apt_base.specs.MemSink.{sink_state, sink_law, write_answer};

    ghost state = { sink_state };

    ghost is_state = { sink_law };

    fn write(&mut self, piece: &[u8]) -> Result<usize, Failed>
        ensures write { IsWrite (sink_state self.old) piece.now result (sink_state self.new) }
        ensures answer { result ≡ write_answer self.old piece.now }
        ensures next { self.new.plan ≡ one_call_more self.old.plan }
    {
        let free = self.room - self.bytes.len();
        let full = free == 0 && !piece.is_empty();
        match self.plan.call(piece.len().min(free)) {
            Ok(count) if !full => {
                if self.bytes.extend_from_slice(&piece[..count]).is_ok() {
                    return Ok(count);
                }
            }
            _ => {}
        }
        self.faults = self.faults.saturating_add(1);
        Err(Failed)
    }
}

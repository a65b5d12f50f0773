//! What becomes of a run.

use crate::case::Case;
use apt_base::{MemShelf, MemSink, MemSource};
use choice_set::NoMemory;
use resolve_cli::{Report, exit_number, fault_text, run_session};
use search_thread::OpenGate;
use std::alloc::Global;
use std::sync::Wait;
use std::thread::Threads;

/// How a run ended, as its exit status, the lines that it read and the line on standard error; and the bytes that it wrote.
#[derive(Drop)]
pub struct Outcome {
    pub end: Vec<u8>,
    pub output: Vec<u8>,
}

/// The most bytes that are written.
const ROOM: usize = 1_000_000;

fn end_of(alloc: Global, report: &Report) -> Result<Vec<u8>, NoMemory> {
    let exit = exit_number(&report.status);
    let text = format!(in alloc; "exit {exit}, {} lines read\n", report.lines_read)?;
    let mut end = Vec::from_slice(alloc, text.as_bytes())?;
    fault_text(&report.status, &mut end)?;
    Ok(end)
}

/// Runs a case, with as many workers as its words say.
pub fn outcome_of<R: Threads + Wait + Sync>(
    rt: &R,
    alloc: Global,
    case: Case,
) -> Result<Outcome, NoMemory> {
    let mut shelf = MemShelf::new(alloc, case.files, case.shelf.piece, case.shelf.failing);
    let mut input = MemSource::new(case.input, case.source.piece, case.source.failing);
    let mut out = MemSink::new(alloc, ROOM, case.sink.piece, case.sink.failing)?;
    let report = run_session(
        rt,
        alloc,
        case.words.as_slice(),
        &mut shelf,
        &mut input,
        &mut out,
        &OpenGate,
    );
    let end = end_of(alloc, &report)?;
    let output = Vec::from_slice(alloc, out.written())?;
    Ok(Outcome { end, output })
}

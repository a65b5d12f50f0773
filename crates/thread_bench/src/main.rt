//! Does what the program does, and tells on standard error how long each answer took, how long the run took from its greeting on,
//! and how many leaves of the search each actor split: actor 0 speaks with the user, the others are the workers.
#![tactic(auto)]

ghost use Rattle.std.specs.Prelude.{◌≡◌, count_by};
ghost use Rattle.thread_bench.specs.Puts.{is_put_by};

mod timed;

use apt_base::{FileShelf, StdinSource, StdoutSink};
use resolve_cli::{Report, Status, exit_number, fault_text, run_session};
use resolver_model::Entry;
use search_thread::OpenGate;
use std::{env, io};
use timed::{TimedSink, TimedSource, Watch};

// The most actors that a run has: one that speaks, and 16 workers.
const ACTORS: u32 = 17;

fn is_put_by(entry: &Entry, actor: u32) -> bool
    ensures { result ≡ is_put_by actor entry.now }
{
    match entry {
        Entry::Put { actor: other, .. } => *other == actor,
        _ => false,
    }
}

// How many leaves an actor split.
fn count_puts(history: &[Entry], actor: u32) -> usize
    ensures { result ≡ count_by (is_put_by actor) history.now }
{
    history
        .iter()
        .filter(|entry| is_put_by(entry, actor))
        .count()
}

// Tells the time and the counts.
fn tell_figures(rt: &HostRuntime, report: &Report, micros: u64) -> io::Result<()> {
    eprintln!(rt; "{micros} us from the greeting on")?;
    for actor in 0..ACTORS {
        let puts = count_puts(report.history.as_slice(), actor);
        if puts > 0 {
            eprintln!(rt; "{puts} leaves by actor {actor}")?;
        }
    }
    Ok(())
}

// Tells a fault, as the program does. A refusal that was told ends it with a status other than 0.
fn tell_end(rt: &HostRuntime, status: &Status) -> io::Result<()> {
    let mut line = Vec::new(rt.alloc());
    let _ = fault_text(status, &mut line);
    eprint!(rt; "{}", str::from_utf8(&line).unwrap_or("?"))?;
    if exit_number(status) > 1 {
        return Err(io::Error::from(io::ErrorKind::InvalidInput));
    }
    Ok(())
}

fn main(rt: HostRuntime) -> io::Result<()> {
    let alloc = rt.alloc();
    let words: Vec<String> = env::args(&rt)?.collect(alloc)?;
    let watch = Watch::start(&rt)?;
    let mut shelf = FileShelf::new(alloc, &rt);
    let mut input = TimedSource::new(&rt, &watch, StdinSource::new(&rt));
    let mut out = TimedSink::new(&rt, &watch, StdoutSink::new(&rt));
    let words = words.as_slice();
    let report = run_session(
        &rt, alloc, words, &mut shelf, &mut input, &mut out, &OpenGate,
    );
    tell_figures(&rt, &report, watch.since_greeting(&rt))?;
    tell_end(&rt, &report.status)
}

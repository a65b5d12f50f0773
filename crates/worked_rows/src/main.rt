//! Worked runs of the program, over objects in memory: what each has to write and how it has to end is worked by hand from the
//! rules of the program, and stands beside what the run is made over.
//!
//! The file `cases` lists the cases, and the folder of each has its files; one that is not there counts as empty:
//!
//! - `words`: the words behind the program's name, one a line. Without the file there are no words at all, not even that name.
//! - `status`, `packages`, `hints`: the files that the run can open, by these names.
//! - `input`: the bytes of the dialogue's input.
//! - `shelf`, `source`, `sink`: two numbers, the most bytes that a call of that object moves, and the number of the call that
//!   fails. Without the file none fails.
//! - `output`: the bytes that have to be written.
//! - `end`: the exit status and the lines read, and below them the line on standard error.
//!
//! A line is printed for each case: its name, and `same`, or behind it how the run ended and what it wrote.
#![tactic(auto)]

mod case;
mod outcome;

use case::{Case, read_bytes, read_case};
use choice_set::NoMemory;
use outcome::{Outcome, outcome_of};
use std::rt::Files;
use std::sync::Wait;
use std::thread::Threads;
use std::{fs, io};

fn write_found(rt: &impl Print, name: &str, outcome: &Outcome) -> io::Result<()> {
    let end = str::from_utf8(&outcome.end).unwrap_or("?");
    let output = str::from_utf8(&outcome.output).unwrap_or("?");
    println!(rt; "{name} differs\n{end}{output}")
}

fn compare<R: Files + AllocGlobal + Print>(
    rt: &R,
    name: &str,
    outcome: &Outcome,
) -> io::Result<()> {
    let end = read_bytes(rt, name, "end")?;
    let output = read_bytes(rt, name, "output")?;
    if end == outcome.end && output == outcome.output {
        println!(rt; "{name} same")
    } else {
        write_found(rt, name, outcome)
    }
}

fn run_case<R: Files + AllocGlobal + Print + Threads + Wait + Sync>(
    rt: &R,
    name: &str,
) -> io::Result<()> {
    let case: Case = read_case(rt, name)?;
    let found: Result<Outcome, NoMemory> = outcome_of(rt, rt.alloc(), case);
    match found {
        Ok(outcome) => compare(rt, name, &outcome),
        Err(_) => println!(rt; "{name} has no memory"),
    }
}

fn main(rt: HostRuntime) -> io::Result<()> {
    let cases = fs::read_to_string(&rt, "cases")?;
    for name in cases.as_str().lines() {
        run_case(&rt, name)?;
    }
    Ok(())
}

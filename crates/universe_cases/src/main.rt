//! Prints the universes of small files, to be read beside values from outside: a case is a status file, a packages file and
//! a list of texts that are asked for, and the file `cases` lists the cases.
//!
//! A line of `cases` is a case's name, and a number N behind it where files are large. The case NAME has the files
//! `NAME.status` and `NAME.packages`, for the native architecture amd64. With a number the text of `NAME.each` stands N times
//! before the packages file, with the number from 0 in the place of each `#`, and the counts alone are printed. A file that
//! is not there counts as empty. `asks` says what is read of `NAME.asks`.
#![tactic(auto)]

mod asks;
mod files;
mod tables;

use asks::answer_all;
use files::{read_packages, read_text};
use std::rt::Files;
use std::{fs, io};
use tables::{write_counts, write_tables};
use universe::{BuildEnd, Universe};

fn write_end(rt: &impl Print, end: BuildEnd) -> io::Result<()> {
    match end {
        BuildEnd::BadInput { file, line, kind } => println!(rt; "{file:?}, line {line}: {kind:?}"),
        BuildEnd::Limit { which, count } => println!(rt; "limit of {which:?}, {count}"),
        BuildEnd::NoMemory => println!(rt; "no memory"),
    }
}

fn write_universe<R: Files + AllocGlobal + Print>(
    rt: &R,
    name: &str,
    universe: &Universe,
    whole: bool,
) -> io::Result<()> {
    write_counts(rt, universe.problem())?;
    if whole {
        write_tables(rt, universe)?;
    }
    let asks = read_text(rt, name, ".asks")?;
    answer_all(rt, universe, &asks)
}

// A case, whose packages file has a text so many times, if it has one.
fn run_case<R: Files + AllocGlobal + Print>(
    rt: &R,
    name: &str,
    count: Option<u32>,
) -> io::Result<()> {
    println!(rt; "== {name}")?;
    let status = read_text(rt, name, ".status")?;
    let packages = read_packages(rt, name, count)?;
    match Universe::build(rt.alloc(), &status, &packages, b"amd64") {
        Ok(universe) => write_universe(rt, name, &universe, count.is_none()),
        Err(end) => write_end(rt, end),
    }
}

fn main(rt: HostRuntime) -> io::Result<()> {
    let cases = fs::read_to_string(&rt, "cases")?;
    for line in cases.as_str().lines() {
        match line.split_once(' ') {
            Some((name, count)) => run_case(&rt, name, count.parse::<u32>().ok())?,
            None => run_case(&rt, line, None)?,
        }
    }
    Ok(())
}

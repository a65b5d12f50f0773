//! Stored cases of the command line, of hint files and of prices, to be read beside values from outside.
//!
//! A line of the file `cases` has the words behind the program's name, between spaces; an empty line stands for no words at all, not
//! even that name. Of words that are taken and name files, the universe, the hints, the actions and the prices are made:
//! the marks of all choices are printed, and the amounts of each choice at the levels of the cost spec. Behind ` :: ` stand tokens,
//! of whose set the cost is printed. It is proved to be safe and to end; what it has to print is written down by hand.
#![tactic(auto)]

mod priced;
mod settings;

use priced::run_files;
use resolve_words::{SettingsEnd, read_settings};
use settings::{words_of, write_settings, write_usage};
use std::rt::Files;
use std::{fs, io};

fn run_words<R: Files + AllocGlobal + Print>(rt: &R, line: &str, set: &str) -> io::Result<()> {
    let words = words_of(rt.alloc(), line)?;
    match read_settings(rt.alloc(), &words) {
        Ok(settings) => {
            write_settings(rt, &settings)?;
            run_files(rt, &settings, set)
        }
        Err(SettingsEnd::Usage(fault)) => write_usage(rt, fault),
        Err(SettingsEnd::NoMemory) => println!(rt; "no memory"),
    }
}

fn main(rt: HostRuntime) -> io::Result<()> {
    let cases = fs::read_to_string(&rt, "cases")?;
    for line in cases.as_str().lines() {
        println!(&rt; "$ {line}")?;
        match line.split_once(" :: ") {
            Some((words, set)) => run_words(&rt, words, set)?,
            None => run_words(&rt, line, "")?,
        }
    }
    Ok(())
}

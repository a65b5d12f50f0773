//! Stored cases of cost specs. For each line of a data file it prints what the line is as a cost spec, or the place of its
//! fault; or, of a file of words, whether a word is a cost name and which number it is. It is proved to be safe and to end;
//! the answers that its stored output wants are written down by hand from the rules of docs/DEFINITIONS.md.
#![tactic(auto)]

use cost_vector::{CostSpec, Level, SpecEnd, is_cost_name, small_number};
use std::alloc::Global;
use std::{env, fs, io};

// A text as it is printed.
fn shown(bytes: &[u8]) -> &str {
    std::str::from_utf8(bytes).unwrap_or("no UTF-8")
}

// Prints a level: how it counts, and its terms.
fn print_level(rt: &impl Print, level: &Level) -> io::Result<()> {
    print!(rt; "  {}", if level.greatest { "greatest" } else { "sum" })?;
    for term in level.terms.as_slice() {
        print!(rt; " {}*{}", term.times, shown(term.name.as_slice()))?;
    }
    println!(rt)
}

// Prints what a text is as a cost spec.
fn print_spec(rt: &impl Print, alloc: Global, text: &[u8]) -> io::Result<()> {
    match CostSpec::read(alloc, text) {
        Ok(spec) => {
            for level in spec.levels() {
                print_level(rt, level)?;
            }
            Ok(())
        }
        Err(SpecEnd::SpecFault { at }) => println!(rt; "  fault at {at}"),
        Err(SpecEnd::NoMemory) => println!(rt; "  no memory"),
    }
}

// Prints the lines of a file, each as a cost spec.
fn print_specs(rt: &impl Print, alloc: Global, text: &str) -> io::Result<()> {
    for line in text.lines() {
        println!(rt; "{line:?}")?;
        print_spec(rt, alloc, line.as_bytes())?;
    }
    Ok(())
}

// Prints the lines of a file, each as a word of a cost spec.
fn print_words(rt: &impl Print, text: &str) -> io::Result<()> {
    for line in text.lines() {
        let word = line.as_bytes();
        println!(rt;
            "{line:?}: {}, {:?}",
            is_cost_name(word),
            small_number(word)
        )?;
    }
    Ok(())
}

fn main(rt: HostRuntime) -> io::Result<()> {
    let mut words = env::args(&rt)?;
    let _program = words.next();
    for name in words {
        let text = fs::read(&rt, name.as_str())?;
        println!(rt; "# {name}")?;
        if name.as_str().ends_with(".specs") {
            print_specs(&rt, rt.alloc(), shown(&text))?;
        } else {
            print_words(&rt, shown(&text))?;
        }
    }
    Ok(())
}

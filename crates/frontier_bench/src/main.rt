//! Measures the order of leaves: in a store of 189,998 leaves the first is taken, the next one is asked for, and the first is
//! given back, 200,000 times. With a number as its argument it puts so many leaves into a store and takes them all.
#![tactic(auto)]

mod problems;
mod wide;

use std::{env, io};

// A refusal that was told: the program ends with a status other than 0.
fn refuse(told: io::Result<()>) -> io::Result<()> {
    told?;
    Err(io::Error::from(io::ErrorKind::InvalidInput))
}

fn main(rt: HostRuntime) -> io::Result<()> {
    let mut words = env::args(&rt)?;
    let _program = words.next();
    let count = match words.next() {
        Some(word) => word.as_str().parse::<u32>().unwrap_or(0),
        None => 0,
    };
    match wide::measure(rt.alloc(), count) {
        Some(number) => println!(rt; "{number}"),
        None => refuse(println!(rt; "stopped")),
    }
}

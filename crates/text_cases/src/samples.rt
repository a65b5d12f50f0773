// Generated universes, each by a seed and a count of packages.
use crate::shown;
use sample_maker::make;
use std::alloc::Global;
use std::io;

fn print_sample(rt: &impl Print, alloc: Global, seed: u64, count: u32) -> io::Result<()> {
    match make(alloc, seed, count) {
        Ok((status, packages)) => {
            print!(rt; "{}", shown(&status))?;
            print!(rt; "{}", shown(&packages))
        }
        Err(_) => println!(rt; "no memory"),
    }
}

// Prints the universes of a text: a seed and a count a line.
pub fn print_samples(rt: &impl Print, alloc: Global, text: &str) -> io::Result<()> {
    for line in text.lines() {
        if let Some((seed, count)) = line.split_once(' ') {
            if let (Ok(seed), Ok(count)) = (seed.parse::<u64>(), count.parse::<u32>()) {
                print_sample(rt, alloc, seed, count)?;
            }
        }
    }
    Ok(())
}

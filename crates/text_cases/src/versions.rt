// Versions, one a line, and pairs of versions.
use crate::shown;
use deb_version::{Version, compare};
use std::cmp::Ordering;
use std::io;

fn sign(order: Ordering) -> &'static str {
    match order {
        Ordering::Less => "<",
        Ordering::Equal => "=",
        Ordering::Greater => ">",
    }
}

// Prints the order of two versions.
fn print_pair(rt: &impl Print, a: &str, b: &str) -> io::Result<()> {
    match (Version::read(a.as_bytes()), Version::read(b.as_bytes())) {
        (Ok(first), Ok(second)) => println!(rt; "{a} {} {b}", sign(compare(&first, &second))),
        _ => println!(rt; "{a} {b}: no versions"),
    }
}

// Prints the pairs of a text: two versions a line, with a space between them.
pub fn print_pairs(rt: &impl Print, text: &str) -> io::Result<()> {
    for line in text.lines() {
        if let Some((a, b)) = line.split_once(' ') {
            print_pair(rt, a, b)?;
        }
    }
    Ok(())
}

// Prints the parts of a version.
fn print_version(rt: &impl Print, text: &str) -> io::Result<()> {
    match Version::read(text.as_bytes()) {
        Ok(version) => println!(rt;
            "{text:?}: {:?} {:?} {:?}",
            shown(version.epoch),
            shown(version.upstream),
            shown(version.revision)
        ),
        Err(bad) => println!(rt; "{text:?}: refused at {}", bad.at),
    }
}

// Prints the versions of a text, one a line.
pub fn print_versions(rt: &impl Print, text: &str) -> io::Result<()> {
    for line in text.lines() {
        print_version(rt, line)?;
    }
    Ok(())
}

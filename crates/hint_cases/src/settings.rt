//! Words, and the settings that they give.

use resolve_words::{Settings, UsageFault};
use std::alloc::{AllocError, Global};
use std::io;

/// The words of a line, between spaces, behind the program's name; none at all for an empty line.
pub fn words_of(alloc: Global, line: &str) -> Result<Vec<String>, AllocError> {
    let mut words = Vec::new(alloc);
    if line.is_empty() {
        return Ok(words);
    }
    words.push(String::from_str(alloc, "aptres")?)?;
    for word in line.split(' ') {
        if !word.is_empty() {
            words.push(String::from_str(alloc, word)?)?;
        }
    }
    Ok(words)
}

/// Writes why words are refused.
pub fn write_usage(rt: &impl Print, fault: UsageFault) -> io::Result<()> {
    match fault {
        UsageFault::Words => println!(rt; "usage: words"),
        UsageFault::Cost { at } => println!(rt; "usage: cost, at byte {at}"),
        UsageFault::Arch => println!(rt; "usage: architecture"),
        UsageFault::Sample => println!(rt; "usage: sample"),
        UsageFault::Files => println!(rt; "usage: files"),
        UsageFault::Action { word } => println!(rt; "usage: action {word}"),
    }
}

fn shown(name: &Option<String>) -> &str {
    match name {
        Some(name) => name.as_str(),
        None => "-",
    }
}

/// Writes settings.
pub fn write_settings(rt: &impl Print, settings: &Settings) -> io::Result<()> {
    print!(rt;
        "status {}, packages {}, hints {}, ",
        shown(&settings.status),
        shown(&settings.packages),
        shown(&settings.hints)
    )?;
    if let Some(sample) = settings.sample {
        print!(rt; "sample {} {}, ", sample.0, sample.1)?;
    }
    println!(rt;
        "{} levels, {}, slice {}, workers {}, {} actions",
        settings.cost.levels().len(),
        settings.arch.as_str(),
        settings.slice,
        settings.workers,
        settings.actions.len()
    )
}

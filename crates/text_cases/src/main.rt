//! Stored cases of the readers of texts. It prints what they answer for each case of its data files, whose names say by
//! their endings what a case is. It is proved to be safe and to end; the answers that its stored output wants come from
//! dpkg and from the rules of Debian Policy.
#![tactic(auto)]

mod paragraphs;
mod relations;
mod samples;
mod stanzas;
mod versions;

use std::alloc::Global;
use std::{env, fs, io};

// A text as it is printed.
fn shown(bytes: &[u8]) -> &str {
    std::str::from_utf8(bytes).unwrap_or("no UTF-8")
}

// Prints the cases of a file.
fn print_file(rt: &impl Print, alloc: Global, name: &str, text: &[u8]) -> io::Result<()> {
    match name.split_once('.') {
        Some((_, "pairs")) => versions::print_pairs(rt, shown(text)),
        Some((_, "versions")) => versions::print_versions(rt, shown(text)),
        Some((_, "names")) => relations::print_names(rt, shown(text)),
        Some((_, "relations")) => relations::print_fields(rt, text),
        Some((_, "edges")) => paragraphs::print_texts(rt, text),
        Some((_, "control")) => paragraphs::print_paragraphs(rt, text),
        Some((_, "long")) => paragraphs::print_count(rt, text),
        Some((_, "status")) => stanzas::print_stanzas(rt, text, true),
        Some((_, "packages")) => stanzas::print_stanzas(rt, text, false),
        Some((_, "samples")) => samples::print_samples(rt, alloc, shown(text)),
        _ => println!(rt; "no cases"),
    }
}

fn main(rt: HostRuntime) -> io::Result<()> {
    let mut words = env::args(&rt)?;
    let _program = words.next();
    for name in words {
        let text = fs::read(&rt, name.as_str())?;
        println!(rt; "# {name}")?;
        print_file(&rt, rt.alloc(), name.as_str(), &text)?;
    }
    Ok(())
}

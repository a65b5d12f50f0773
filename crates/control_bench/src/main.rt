//! Counts the paragraphs and the fields of a control file, and how many paragraphs have a field of each name given.
#![tactic(auto)]

ghost use Rattle.std.specs.Prelude.{◌≡◌, None, Some, length, count_by, is_some, MatchResult};
ghost use Rattle.std.specs.List.{sum_by};
ghost use Rattle.control_file.specs.Text.{reading, field_named};

use control_file::{CtlFault, Paragraphs};
use std::{env, fs, io};

#[derive(Drop)]
struct Counts {
    paragraphs: u64,
    fields: u64,
}

// How many paragraphs and fields a text has, or its first fault.
fn count_all(text: &[u8]) -> Result<Counts, CtlFault>
    ensures { MatchResult result (λ counts. ((reading text.now).fault ≡ None) × (counts.paragraphs ≡ length (reading text.now).paragraphs) × (counts.fields ≡ sum_by (λ p. length p.fields) (reading text.now).paragraphs)) (λ fault. (reading text.now).fault ≡ Some fault) }
{
    let mut reader = Paragraphs::new(text);
    let mut counts = Counts {
        paragraphs: 0,
        fields: 0,
    };
    while let Some(paragraph) = reader.next()? {
        counts.paragraphs += 1;
        counts.fields += paragraph.len() as u64;
    }
    Ok(counts)
}

// How many paragraphs of a text have a field of a name, or its first fault.
fn found(text: &[u8], name: &[u8]) -> Result<u64, CtlFault>
    ensures { MatchResult result (λ count. ((reading text.now).fault ≡ None) × (count ≡ count_by (λ p. is_some (field_named name.now p.fields)) (reading text.now).paragraphs)) (λ fault. (reading text.now).fault ≡ Some fault) }
{
    let mut reader = Paragraphs::new(text);
    let mut count = 0;
    while let Some(paragraph) = reader.next()? {
        if paragraph.field(name).is_some() {
            count += 1;
        }
    }
    Ok(count)
}

// A refusal that was told: the program ends with a status other than 0.
fn refuse(told: io::Result<()>) -> io::Result<()> {
    told?;
    Err(io::Error::from(io::ErrorKind::InvalidInput))
}

fn main(rt: HostRuntime) -> io::Result<()> {
    let mut words = env::args(&rt)?;
    let _program = words.next();
    let Some(path) = words.next() else {
        return refuse(println!(rt; "usage: control_bench FILE NAME.."));
    };
    let text = fs::read(&rt, path.as_str())?;
    match count_all(&text) {
        Ok(counts) => {
            println!(rt;
                "{} paragraphs, {} fields",
                counts.paragraphs, counts.fields
            )?;
        }
        Err(fault) => return refuse(println!(rt; "line {}: {:?}", fault.line, fault.kind)),
    }
    for name in words {
        if let Ok(count) = found(&text, name.as_bytes()) {
            println!(rt; "{name} {count}")?;
        }
    }
    Ok(())
}

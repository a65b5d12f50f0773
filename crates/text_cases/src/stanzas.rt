// Stanzas of a status file or of a packages file.
use crate::shown;
use control_file::Paragraphs;
use stanza::Stanza;
use std::io;

// Prints a relationship field that is there.
fn print_relation(rt: &impl Print, name: &str, value: &[u8]) -> io::Result<()> {
    if value.is_empty() {
        return Ok(());
    }
    println!(rt; "  {name} {:?}", shown(value))
}

fn print_version(rt: &impl Print, stanza: &Stanza<'_>) -> io::Result<()> {
    match stanza.version {
        Some(version) => println!(rt; " version {}", shown(version.text)),
        None => println!(rt; " no version"),
    }
}

fn print_stanza(rt: &impl Print, stanza: &Stanza<'_>) -> io::Result<()> {
    print!(rt; "line {}: {}", stanza.line, shown(stanza.name))?;
    if let Some(arch) = stanza.arch {
        print!(rt; " {}", shown(arch))?;
    }
    if stanza.hold {
        print!(rt; " hold")?;
    }
    if stanza.essential {
        print!(rt; " essential")?;
    }
    print_version(rt, stanza)?;
    let relations = &stanza.relations;
    print_relation(rt, "Pre-Depends", relations.pre_depends.value())?;
    print_relation(rt, "Depends", relations.depends.value())?;
    print_relation(rt, "Recommends", relations.recommends.value())?;
    print_relation(rt, "Conflicts", relations.conflicts.value())?;
    print_relation(rt, "Breaks", relations.breaks.value())?;
    print_relation(rt, "Provides", relations.provides.value())
}

// Prints what the paragraphs of a text say of packages, or their faults.
pub fn print_stanzas(rt: &impl Print, text: &[u8], in_status: bool) -> io::Result<()> {
    let mut reader = Paragraphs::new(text);
    while let Ok(Some(paragraph)) = reader.next() {
        let read = if in_status {
            Stanza::of_status(&paragraph)
        } else {
            Stanza::of_package(&paragraph)
        };
        match read {
            Ok(stanza) => print_stanza(rt, &stanza)?,
            Err(fault) => println!(rt; "line {}: {:?}", fault.line, fault.kind)?,
        }
    }
    Ok(())
}

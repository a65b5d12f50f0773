// Names of packages, one a line, and relationship fields, as the fields of a control file.
use crate::shown;
use control_file::{Field, Paragraphs};
use dep_fields::{Group, Groups, Item, is_package_name};
use std::io;

// Prints which lines of a text are names of packages.
pub fn print_names(rt: &impl Print, text: &str) -> io::Result<()> {
    for line in text.lines() {
        println!(rt; "{line:?}: {}", is_package_name(line.as_bytes()))?;
    }
    Ok(())
}

// Prints an item: its name, its architecture and its version bound.
fn print_item(rt: &impl Print, item: &Item<'_>) -> io::Result<()> {
    print!(rt; "{}", shown(item.name))?;
    if let Some(arch) = item.arch {
        print!(rt; ":{}", shown(arch))?;
    }
    if let Some((op, version)) = item.rel {
        print!(rt; " {op:?} {}", shown(version.text))?;
    }
    Ok(())
}

// Prints the items of a group.
fn print_group(rt: &impl Print, group: &Group<'_>) -> io::Result<()> {
    print!(rt; "  {}:", group.len())?;
    for item in group.items() {
        print!(rt; " [")?;
        print_item(rt, &item)?;
        print!(rt; "]")?;
    }
    println!(rt)
}

// Prints the groups of a field, up to its end or its first fault, and what is left of it. Alternatives are allowed in
// `Depends` alone.
fn print_field(rt: &impl Print, field: &Field<'_>) -> io::Result<()> {
    println!(rt; "{} {:?}", shown(field.name), shown(field.value))?;
    let mut groups = Groups::new(field.value, field.name == b"Depends".as_slice());
    loop {
        match groups.next() {
            Ok(Some(group)) => print_group(rt, &group)?,
            Ok(None) => return println!(rt; "  end, rest {:?}", shown(groups.rest())),
            Err(fault) => {
                return println!(rt;
                    "  {:?} at {}, rest {:?}",
                    fault.kind,
                    fault.at,
                    shown(groups.rest())
                );
            }
        }
    }
}

// Prints the fields of a control file.
pub fn print_fields(rt: &impl Print, text: &[u8]) -> io::Result<()> {
    let mut reader = Paragraphs::new(text);
    while let Ok(Some(paragraph)) = reader.next() {
        for field in paragraph.fields() {
            print_field(rt, &field)?;
        }
    }
    Ok(())
}

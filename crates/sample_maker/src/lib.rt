//! Generated universes: a status text and a packages text of any size, by a seed.
#![tactic(auto)]

ghost use Rattle.std.specs.Prelude.{◌≡◌, ◌++◌, IfOk, OnOk};
ghost use Rattle.sample_maker.specs.Draws.{state};
ghost use Rattle.sample_maker.specs.Samples.{installed_stanza, archive_stanza, installed_draws, status_text, archive_text, packages_text};

mod generator;
mod text;

use choice_set::NoMemory;
use generator::Generator;
use std::alloc::Global;
use text::Text;

/// Writes the stanza of an installed package, at version 1.
fn add_installed(text: &mut Text, number: u32, depends: Option<u32>) -> Result<(), NoMemory>
    ensures { OnOk result (text.new ≡ text.old ++ installed_stanza number depends) }
{
    text.add("Package: p")?;
    text.add_number(number)?;
    text.add("\nStatus: install ok installed\nArchitecture: all\nVersion: 1\n")?;
    text.add_relation("Depends", depends, "")?;
    text.end_stanza()
}

/// Writes the stanza of a package as the archive has it, at version 2.
fn add_archived(
    text: &mut Text,
    number: u32,
    depends: Option<u32>,
    conflicts: Option<u32>,
) -> Result<(), NoMemory>
    ensures { OnOk result (text.new ≡ text.old ++ archive_stanza number depends conflicts) }
{
    text.add("Package: p")?;
    text.add_number(number)?;
    text.add("\nArchitecture: all\nVersion: 2\n")?;
    text.add_relation("Depends", depends, " (>= 2)")?;
    text.add_relation("Conflicts", conflicts, " (<< 2)")?;
    text.end_stanza()
}

/// The status text of the packages below `count`.
fn make_status(alloc: Global, generator: &mut Generator, count: u32) -> Result<Text, NoMemory>
    ensures text { IfOk result (λ text. text ≡ status_text generator.old.state count) }
    ensures state { OnOk result
        (generator.new.state ≡ state generator.old.state (installed_draws count)) }
{
    let mut text = Text::new(alloc);
    for number in 0..count {
        let depends = generator.draw_earlier(number);
        add_installed(&mut text, number, depends)?;
    }
    Ok(text)
}

/// The packages text of the packages below `count`.
fn make_packages(alloc: Global, generator: &mut Generator, count: u32) -> Result<Text, NoMemory>
    ensures { IfOk result (λ text. text ≡ archive_text generator.old.state count) }
{
    let mut text = Text::new(alloc);
    for number in 0..count {
        let depends = generator.draw_earlier(number);
        let conflicts = generator.draw_conflict(number);
        add_archived(&mut text, number, depends, conflicts)?;
    }
    Ok(text)
}

/// The status text and the packages text of a universe with the packages p0 to p(`count` - 1), drawn
/// by `seed`: control files as in Debian Policy 5.1, with relation fields as in 7.1. In both texts each
/// package, but the first of each ten, depends on an earlier one of its ten. The status text has each
/// package installed at version 1; the packages text offers version 2 of each, and some of these also
/// conflict with the old version of another. The only error is want of memory.
pub fn make(alloc: Global, seed: u64, count: u32) -> Result<(Vec<u8>, Vec<u8>), NoMemory>
    ensures status { IfOk result (λ texts. texts.0.items ≡ status_text seed count) }
    ensures packages { IfOk result (λ texts. texts.1.items ≡ packages_text seed count) }
{
    let mut generator = Generator::new(seed);
    let status = make_status(alloc, &mut generator, count)?;
    let packages = make_packages(alloc, &mut generator, count)?;
    Ok((status.into_bytes(), packages.into_bytes()))
}

// The greeting and the prompt.
ghost use Rattle.std.specs.Prelude.{◌≡◌, ◌++◌, IfOk, is_ok, if◌then◌else◌};
ghost use Rattle.dialogue.specs.Texts.{greeting, prompt};

use ascii::append_number;
use basis::Basis;
use choice_set::NoMemory;
use std::alloc::Global;
use universe::Universe;

/// Appends the first line of a dialogue: how many packages there are, how many versions that are not absent, how many
/// dependencies, and how many of these are open where nothing is chosen. The only error is `NoMemory`, which leaves `out`
/// as it was.
pub fn greeting_text(
    alloc: Global,
    universe: &Universe,
    basis: &Basis,
    out: &mut Vec<u8>,
) -> Result<(), NoMemory>
    ensures { out.new.items ≡ (if is_ok result then out.old.items ++ greeting basis.now.problem else out.old.items) }
{
    let _ = universe;
    let text = greeting_of(alloc, basis)?;
    out.extend_from_slice(text.as_slice())?;
    Ok(())
}

fn greeting_of(alloc: Global, basis: &Basis) -> Result<Vec<u8>, NoMemory>
    ensures { IfOk result (λ text. text.items ≡ greeting basis.now.problem) }
{
    let problem = &basis.problem;
    let packages = problem.packages();
    let mut text = Vec::new(alloc);
    text.extend_from_slice(b"aptres: ")?;
    append_number(&mut text, packages as u64)?;
    text.extend_from_slice(b" packages, ")?;
    append_number(
        &mut text,
        problem.versions().saturating_sub(packages) as u64,
    )?;
    text.extend_from_slice(b" versions, ")?;
    append_number(&mut text, problem.deps() as u64)?;
    text.extend_from_slice(b" dependencies, ")?;
    append_number(&mut text, problem.broken_at_start().len() as u64)?;
    text.extend_from_slice(b" broken\n")?;
    Ok(text)
}

/// Appends the prompt: the number of the shown solution, 0 where none is shown, and how many were delivered. The only
/// error is `NoMemory`, which leaves `out` as it was.
pub fn prompt_text(
    alloc: Global,
    cursor: u64,
    deliveries: u64,
    out: &mut Vec<u8>,
) -> Result<(), NoMemory>
    ensures { out.new.items ≡ (if is_ok result then out.old.items ++ prompt cursor deliveries else out.old.items) }
{
    let text = prompt_of(alloc, cursor, deliveries)?;
    out.extend_from_slice(text.as_slice())?;
    Ok(())
}

fn prompt_of(alloc: Global, cursor: u64, deliveries: u64) -> Result<Vec<u8>, NoMemory>
    ensures { IfOk result (λ text. text.items ≡ prompt cursor deliveries) }
{
    let mut text = Vec::new(alloc);
    text.extend_from_slice(b"[")?;
    append_number(&mut text, cursor)?;
    text.extend_from_slice(b"/")?;
    append_number(&mut text, deliveries)?;
    text.extend_from_slice(b"]> ")?;
    Ok(text)
}

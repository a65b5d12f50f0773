// Choices by their tokens.
ghost use Rattle.std.specs.Prelude.{◌≡◌, ◌++◌, IfOk, OnOk, codes};
ghost use Rattle.std.specs.List.{flat_map};
ghost use Rattle.universe_model.specs.Universes.{IsProblemOf};
ghost use Rattle.universe_model.specs.Tokens.{token};
ghost use Rattle.dialogue.specs.Texts.{choice_line, mark_line};

use crate::pieces::mark_word;
use choice_set::NoMemory;
use problem::Problem;
use resolver_model::{Mark, Marks};
use std::alloc::Global;
use universe::Universe;

// A choice on a line of its own.
fn append_choice(
    universe: &Universe,
    problem: &Problem,
    choice: u32,
    text: &mut Vec<u8>,
) -> Result<(), NoMemory>
    requires { IsProblemOf universe.now problem.now }
    ensures { OnOk result (text.new.items ≡ text.old.items ++ choice_line universe.now problem.now choice) }
{
    text.extend_from_slice(b"  ")?;
    universe.token(problem, choice, text)?;
    text.extend_from_slice(b"\n")?;
    Ok(())
}

/// Appends choices, one a line.
pub fn append_choices(
    universe: &Universe,
    problem: &Problem,
    set: &[u32],
    text: &mut Vec<u8>,
) -> Result<(), NoMemory>
    requires { IsProblemOf universe.now problem.now }
    ensures { OnOk result (text.new.items ≡ text.old.items ++ flat_map (choice_line universe.now problem.now) set.now) }
{
    for choice in set {
        append_choice(universe, problem, *choice, text)?;
    }
    Ok(())
}

// A marked choice on a line of its own.
fn append_mark(
    universe: &Universe,
    problem: &Problem,
    marked: &(u32, Mark),
    text: &mut Vec<u8>,
) -> Result<(), NoMemory>
    requires { IsProblemOf universe.now problem.now }
    ensures { OnOk result (text.new.items ≡ text.old.items ++ mark_line universe.now problem.now marked.now) }
{
    text.extend_from_slice(b"  ")?;
    text.extend_from_slice(mark_word(marked.1))?;
    universe.token(problem, marked.0, text)?;
    text.extend_from_slice(b"\n")?;
    Ok(())
}

/// Appends marked choices, one a line.
pub fn append_marks(
    universe: &Universe,
    problem: &Problem,
    marks: &Marks,
    text: &mut Vec<u8>,
) -> Result<(), NoMemory>
    requires { IsProblemOf universe.now problem.now }
    ensures { OnOk result (text.new.items ≡ text.old.items ++ flat_map (mark_line universe.now problem.now) marks.now) }
{
    for marked in marks.as_slice() {
        append_mark(universe, problem, marked, text)?;
    }
    Ok(())
}

/// The reply that names a mark against the shown solution.
pub fn ruled_out_of(
    alloc: Global,
    universe: &Universe,
    problem: &Problem,
    choice: u32,
) -> Result<Vec<u8>, NoMemory>
    requires { IsProblemOf universe.now problem.now }
    ensures { IfOk result (λ text. text.items ≡ codes "Ruled out by " ++ token universe.now problem.now choice ++ codes "\n") }
{
    let mut text = Vec::from_slice(alloc, b"Ruled out by ")?;
    universe.token(problem, choice, &mut text)?;
    text.extend_from_slice(b"\n")?;
    Ok(text)
}

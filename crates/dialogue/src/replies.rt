// The texts of replies.
ghost use Rattle.std.specs.Prelude.{◌≡◌, ◌++◌, IfOk, IsTrue, is_ok, if◌then◌else◌};
ghost use Rattle.resolver_model.specs.Problems.{is_choice_set};
ghost use Rattle.universe_model.specs.Universes.{IsProblemOf};
ghost use Rattle.dialogue.specs.Texts.{solution_text, rules_text, reply_text, HasCost};

use crate::choices::{append_choices, append_marks, ruled_out_of};
use crate::pieces::{append_caps, append_cost, append_wide, framed, misread_of, plain, summary_of};
use ascii::append_number;
use basis::Basis;
use choice_set::{ChoiceSet, NoMemory};
use problem::Problem;
use resolver_model::{Caps, Marks, Reply};
use std::alloc::Global;
use universe::Universe;

// A solution: its number, its cost, and its choices.
fn solution_of(
    alloc: Global,
    universe: &Universe,
    basis: &Basis,
    number: u64,
    set: &ChoiceSet,
) -> Result<Vec<u8>, NoMemory>
    requires beside { IsProblemOf universe.now basis.now.problem }
    requires set { IsTrue (is_choice_set basis.now.problem set.now) }
    ensures { IfOk result (λ text. text.items ≡ solution_text universe.now basis.now.problem basis.now.table number set.now) }
{
    let cost = basis.table.cost(alloc, set)?;
    let mut text = Vec::new(alloc);
    text.extend_from_slice(b"Solution ")?;
    append_number(&mut text, number)?;
    text.extend_from_slice(b" cost")?;
    append_cost(&mut text, cost.parts())?;
    text.extend_from_slice(b"\n")?;
    append_choices(universe, &basis.problem, set.as_slice(), &mut text)?;
    Ok(text)
}

// The marks and caps, with their count.
fn rules_of(
    alloc: Global,
    universe: &Universe,
    problem: &Problem,
    marks: &Marks,
    caps: &Caps,
) -> Result<Vec<u8>, NoMemory>
    requires { IsProblemOf universe.now problem.now }
    ensures { IfOk result (λ text. text.items ≡ rules_text universe.now problem.now marks.now caps.now) }
{
    let mut text = Vec::new(alloc);
    text.extend_from_slice(b"Rules ")?;
    append_wide(&mut text, marks.len() as u128 + caps.len() as u128)?;
    text.extend_from_slice(b"\n")?;
    append_marks(universe, problem, marks, &mut text)?;
    append_caps(&mut text, caps)?;
    Ok(text)
}

fn reply_of(
    alloc: Global,
    universe: &Universe,
    basis: &Basis,
    reply: &Reply,
) -> Result<Vec<u8>, NoMemory>
    requires beside { IsProblemOf universe.now basis.now.problem }
    requires cost { HasCost basis.now.problem reply.now }
    ensures { IfOk result (λ text. text.items ≡ reply_text universe.now basis.now.problem basis.now.table reply.now) }
{
    match reply {
        Reply::Solution {
            number,
            choices,
            ..
        } => solution_of(alloc, universe, basis, *number, choices),
        Reply::NoMore => plain(alloc, b"No more solutions\n"),
        Reply::NotYet { steps } => framed(alloc, b"Not yet, ", *steps, b" steps\n"),
        Reply::Marked => plain(alloc, b"Marked\n"),
        Reply::Rules { marks, caps } => rules_of(alloc, universe, &basis.problem, marks, caps),
        Reply::Summary {
            deliveries,
            choices,
        } => summary_of(alloc, *deliveries, *choices),
        Reply::NotShown => plain(alloc, b"No solution is shown\n"),
        Reply::AtFirst => plain(alloc, b"At the first solution\n"),
        Reply::RuledOut { choice } => ruled_out_of(alloc, universe, &basis.problem, *choice),
        Reply::OverCap { level } => framed(alloc, b"Over cap ", *level as u64 + 1, b"\n"),
        Reply::NoLevel => plain(alloc, b"No such level\n"),
        Reply::Accepted => plain(alloc, b"Accepted\n"),
        Reply::Ended => plain(alloc, b"Ended\n"),
        Reply::Misread { kind } => misread_of(alloc, *kind),
    }
}

/// Appends the text of a reply, which names choices of the problem alone. The set of a solution is one of the problem's
/// choice sets, so that it has a cost. The only error is `NoMemory`, which leaves `out` as it was.
pub fn reply_text(
    alloc: Global,
    universe: &Universe,
    basis: &Basis,
    reply: &Reply,
    out: &mut Vec<u8>,
) -> Result<(), NoMemory>
    requires beside { IsProblemOf universe.now basis.now.problem }
    requires cost { HasCost basis.now.problem reply.now }
    ensures { out.new.items ≡ (if is_ok result then out.old.items ++ reply_text universe.now basis.now.problem basis.now.table reply.now else out.old.items) }
{
    let text = reply_of(alloc, universe, basis, reply)?;
    out.extend_from_slice(text.as_slice())?;
    Ok(())
}

//! The search of one actor of a shared session, through its pass: a command is answered behind as many steps of its own as that
//! takes, while other actors search beside it.
#![tactic(auto)]

ghost use Rattle.std.specs.Prelude.{◌≡◌, None, IfOk, OnOk, OnErr};
ghost use mathlib.Core.List.{IsPrefix};
ghost use Rattle.resolver_model.specs.Answers.{NamesChoice};
ghost use Rattle.resolver_model.specs.Histories.{out_at};
ghost use Rattle.search_core.specs.Sessions.{IsFor};
ghost use Rattle.session_cell.specs.Passes.{IsPassOf};
ghost use Rattle.search_thread.specs.Slices.{IsSame, IsOnward};
ghost use Rattle.pass_search.specs.Answers.{IsAnswered, IsGivenUp, HasSearched};

use basis::Basis;
use choice_set::NoMemory;
use crossbeam_utils::Backoff;
use resolver_model::Command;
use search_core::{Answer, Said};
use search_thread::{OpenGate, Tried, search_one};
use session_cell::{Pass, SessionCell};
use std::alloc::Global;
use std::sync::Wait;

// Makes one step of the search, or lets others go on where there is none to be made.
fn step<H: Wait>(
    rt: &H,
    alloc: Global,
    cell: &SessionCell,
    basis: &Basis,
    pass: &mut Pass,
    backoff: &Backoff,
) -> Result<(), NoMemory>
    requires cell { IsPassOf cell.now pass.old }
    requires basis { IsFor cell.now.start basis.now.problem basis.now.table }
    requires idle { out_at pass.old.hand.actor pass.old.hand.made ≡ None }
    ensures pass { IsSame pass.old pass.new }
    ensures stop { pass.new.stop ≡ pass.old.stop }
    ensures onward { IsOnward pass.old pass.new }
    ensures done { OnOk result (HasSearched pass.old pass.new) }
    ensures undone { OnErr result (IsGivenUp pass.old pass.new) }
{
    match search_one(rt, alloc, cell, basis, pass, &OpenGate) {
        Tried::Split => backoff.reset(),
        Tried::NoMemory => return Err(NoMemory),
        // somebody has it, or it got ready in between
        Tried::Ready => backoff.snooze(),
        Tried::Done => backoff.snooze(),
        Tried::AllOut { .. } => backoff.snooze(),
    }
    Ok(())
}

/// Answers a command of the pass's actor, which has no leaf out: behind steps of its own where the search has to go on first. After
/// want of memory, the one error, nothing was said, and the leaf that was out is given back.
pub fn answer_through<H: Wait>(
    rt: &H,
    alloc: Global,
    cell: &SessionCell,
    basis: &Basis,
    pass: &mut Pass,
    command: Command,
) -> Result<Said, NoMemory>
    requires cell { IsPassOf cell.now pass.old }
    requires basis { IsFor cell.now.start basis.now.problem basis.now.table }
    requires idle { out_at pass.old.hand.actor pass.old.hand.made ≡ None }
    requires choice { NamesChoice pass.old.hand.start.setting.problem command }
    ensures pass { IsSame pass.old pass.new }
    ensures stop { pass.new.stop ≡ pass.old.stop }
    ensures begins { IsPrefix pass.old.hand.seen pass.new.hand.seen }
    ensures said { IfOk result (IsAnswered pass.old command pass.new) }
    ensures refused { OnErr result (IsGivenUp pass.old pass.new) }
{
    cell.reserve(rt, pass)?;
    let backoff = Backoff::new();
    for _ in rt.forever() {
        match cell.answer(rt, alloc, basis, pass, command)? {
            Answer::Said(said) => return Ok(said),
            Answer::Search => step(rt, alloc, cell, basis, pass, &backoff)?,
        }
    }
    unreachable!()
}

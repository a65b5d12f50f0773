// A session over a small universe, shared by two: actor 0, who may ask for a stop, and a worker.
ghost use Rattle.std.specs.Prelude.{◌≡◌, IfOk, IfSome};
ghost use Rattle.search_core.specs.Sessions.{IsFor};
ghost use Rattle.session_cell.specs.Passes.{IsPassOf};
ghost use Rattle.search_thread.specs.Slices.{CanTalk, CanWork};

use basis::Basis;
use choice_set::NoMemory;
use search_core::{Session, may_begin};
use session_cell::{Pass, SessionCell};
use std::alloc::Global;
use user_rules::Rules;

// Package a with versions 1 and 2, b with 1, 2 and 3, and c with 1. Version 1 of a needs some b, its version 2 needs b from
// version 2 on, and version 3 of b conflicts with c. The starts are a 2, b 1 and c 1; removals cost, and going back to a 1.
pub const UNIVERSE: &str =
    "packages 1 2 2\npackages 1 3 1\npackages 1 1 1\nneeds 1 4 5 6\nneeds 2 5 6\nneeds 6 7\nadds 0 1 3 1 7 1\nadds 0 1 1 1\n";

// The session, and the passes of actor 0 and of the worker.
pub fn share(alloc: Global, basis: &Basis) -> Result<Option<(SessionCell, Pass, Pass)>, NoMemory>
    ensures basis { IfOk result (λ o. IfSome o (λ s. IsFor s.0.start basis.now.problem basis.now.table)) }
    ensures actors { IfOk result (λ o. IfSome o (λ s. s.0.start.setting.actors ≡ 2)) }
    ensures talker { IfOk result (λ o. IfSome o (λ s. CanTalk s.0 1 s.1)) }
    ensures worker { IfOk result (λ o. IfSome o (λ s. CanWork s.0 s.2 × (s.2.hand.actor ≡ 1))) }
{
    let rules = Rules::new(alloc);
    if !may_begin(basis, &rules, 5000, 2) {
        return Ok(None);
    }
    let session = Session::new(alloc, basis, rules, 5000, 2)?;
    let (cell, mut passes) = SessionCell::new(alloc, session, 2)?;
    let (Some(worker), Some(talker)) = (passes.pop(), passes.pop()) else {
        return Ok(None);
    };
    Ok(Some((cell, talker, worker)))
}

// How many entries there are, once nobody shares the session any more.
pub fn count_entries(
    alloc: Global,
    cell: SessionCell,
    talker: Pass,
    worker: Pass,
) -> Result<usize, NoMemory>
    requires actors { cell.start.setting.actors ≡ 2 }
    requires talker { IsPassOf cell talker × (talker.hand.actor ≡ 0) }
    requires worker { IsPassOf cell worker × (worker.hand.actor ≡ 1) }
{
    let mut passes = Vec::with_capacity(alloc, 2)?;
    passes.push_reserved(talker);
    passes.push_reserved(worker);
    let session = cell.close(passes);
    Ok(session.history().len())
}

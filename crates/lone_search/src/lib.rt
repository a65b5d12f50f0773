//! The search of one actor alone: a command is answered behind as many steps of its own as that takes.
//!
//! A session answers a command at once, or asks for more of its search. Where nobody else searches, the one who asks does it:
//! it takes a leaf, splits it, puts the children back, and asks again, until there is a reply.
#![tactic(auto)]

ghost use Rattle.std.specs.Prelude.{◌≡◌, IfOk, OnOk, OnErr, IsTrue};
ghost use Rattle.resolver_model.specs.Answers.{NamesChoice, IsAtEnd, situation_at};
ghost use Rattle.resolver_model.specs.Trees.{is_some_wanted};
ghost use Rattle.search_core.specs.Sessions.{IsFor};
ghost use Rattle.search_core.specs.Jobs.{IsOut};
ghost use Rattle.lone_search.specs.Answers.{IsAlone, IsAnswered, IsGivenUp};
ghost use Rattle.lone_search.specs.Steps.{IsSplit, IsGivenBack, IsStep, IsTried, IsSearching};

use basis::Basis;
use choice_set::NoMemory;
use resolver_model::Command;
use search_core::{Answer, Job, Said, Session, Taken, expand};
use std::alloc::Global;

// Splits the leaf that is out, and puts its children in its place; where memory is wanting, gives it back.
fn split(alloc: Global, basis: &Basis, session: &mut Session, job: Job) -> Result<(), NoMemory>
    requires basis { IsFor session.old basis.now.problem basis.now.table }
    requires out { IsOut session.old.setting session.old.history job }
    ensures done { OnOk result (IsSplit session.old job.actor job.leaf session.new) }
    ensures undone { OnErr result (IsGivenBack session.old job.actor job.leaf session.new) }
{
    let Ok(outcome) = expand(alloc, basis, &job) else {
        session.back(job);
        return Err(NoMemory);
    };
    match session.put(alloc, basis, job, outcome) {
        Ok(()) => Ok(()),
        Err(job) => {
            session.back(job);
            Err(NoMemory)
        }
    }
}

// One step of the search, where some leaf is wanted. After want of memory the leaf is in nobody's hands.
fn step(alloc: Global, basis: &Basis, session: &mut Session) -> Result<(), NoMemory>
    requires basis { IsFor session.old basis.now.problem basis.now.table }
    requires alone { IsAlone session.old.setting session.old.history }
    requires wanted { IsTrue (is_some_wanted (situation_at session.old.setting session.old.history)) }
    ensures done { OnOk result (IsStep session.old session.new) }
    ensures undone { OnErr result (IsTried session.old session.new) }
{
    // makes known that the history is legal
    let _ = session.history();
    match session.take(alloc, basis, 0)? {
        Taken::Work(job) => split(alloc, basis, session, job),
        // not so: some leaf is wanted, and nobody has one out
        Taken::Ready { .. } => Ok(()),
        Taken::Done => Ok(()),
        Taken::AllOut { .. } => Ok(()),
    }
}

// Searches until the request for the next solution is answered.
fn search(alloc: Global, basis: &Basis, session: &mut Session) -> Result<Said, NoMemory>
    requires basis { IsFor session.old basis.now.problem basis.now.table }
    requires searching { IsSearching session.old }
    ensures said { IfOk result (IsAnswered session.old session.new Command.Next) }
    ensures refused { OnErr result (IsGivenUp session.old session.new) }
    ensures setting { session.new.setting ≡ session.old.setting }
    ensures alone { IsAlone session.new.setting session.new.history }
{
    loop {
        step(alloc, basis, session)?;
        match session.answer(alloc, basis, 0, Command::Next)? {
            Answer::Said(said) => return Ok(said),
            Answer::Search => {}
        }
    }
}

/// Answers a command of the session's only actor, which has no leaf out: behind steps of its own where the search has to go on
/// first. After want of memory, the one error, nothing was said, and the leaf that was out is given back.
pub fn answer_alone(
    alloc: Global,
    basis: &Basis,
    session: &mut Session,
    command: Command,
) -> Result<Said, NoMemory>
    requires basis { IsFor session.old basis.now.problem basis.now.table }
    requires alone { IsAlone session.old.setting session.old.history }
    requires choice { NamesChoice session.old.setting.problem command }
    ensures said { IfOk result (IsAnswered session.old session.new command) }
    ensures refused { OnErr result (IsGivenUp session.old session.new) }
    ensures setting { session.new.setting ≡ session.old.setting }
    ensures alone { IsAlone session.new.setting session.new.history }
{
    session.reserve(0)?;
    match session.answer(alloc, basis, 0, command)? {
        Answer::Said(said) => Ok(said),
        Answer::Search => search(alloc, basis, session),
    }
}

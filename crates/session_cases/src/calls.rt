// Calls of a session in which at most one job is out.
ghost use Rattle.std.specs.Prelude.{◌≡◌, ◌≢◌, ◌<◌, None, Some, IsTrue, IfSome};
ghost use Rattle.resolver_model.specs.Answers.{NamesChoice};
ghost use Rattle.session_cases.specs.Hands.{IsSeat, job_in};

use basis::Basis;
use problem::Problem;
use resolver_model::Command;
use search_core::{Answer, Job, Session, Taken, expand};
use std::alloc::Global;

/// Whether a command names a choice of the problem, if it names one.
pub fn names_choice(problem: &Problem, command: Command) -> bool
    ensures { IsTrue result → NamesChoice problem.now command }
{
    match command {
        Command::Reject(choice) => problem.is_choice(choice),
        Command::Approve(choice) => problem.is_choice(choice),
        Command::Free(choice) => problem.is_choice(choice),
        _ => true,
    }
}

/// The answer to an actor's command, for which room is kept before.
pub fn ask(
    alloc: Global,
    basis: &Basis,
    actors: u32,
    session: &mut Session,
    job: &Option<Job>,
    actor: u32,
    command: Command,
) -> Option<Answer>
    requires actor { actor < actors }
    requires choice { NamesChoice basis.now.problem command }
    requires seat { IsSeat basis.now.problem basis.now.table actors session.old job.now }
    ensures { IfSome result (λ _. IsSeat basis.now.problem basis.now.table actors session.new job.now) }
{
    let _ = actors;
    let _ = job;
    let Ok(()) = session.reserve(actor) else {
        return None;
    };
    match session.answer(alloc, basis, actor, command) {
        Ok(answer) => Some(answer),
        Err(_) => None,
    }
}

/// What an actor gets that asks for a leaf where no job is out.
pub fn take_alone(
    alloc: Global,
    basis: &Basis,
    actors: u32,
    session: &mut Session,
    actor: u32,
) -> Option<Taken>
    requires actor { actor < actors }
    requires seat { IsSeat basis.now.problem basis.now.table actors session.old None }
    ensures { IfSome result (λ taken. IsSeat basis.now.problem basis.now.table actors session.new (job_in taken)) }
{
    let _ = actors;
    match session.take(alloc, basis, actor) {
        Ok(taken) => Some(taken),
        Err(_) => None,
    }
}

/// What an actor gets that asks for a leaf beside a job that is out with another.
pub fn take_beside(
    alloc: Global,
    basis: &Basis,
    actors: u32,
    session: &mut Session,
    job: &Job,
    actor: u32,
) -> Option<Taken>
    requires actor { actor < actors }
    requires other { job.now.actor ≢ actor }
    requires seat { IsSeat basis.now.problem basis.now.table actors session.old (Some job.now) }
    ensures { IfSome result (λ taken. job_in taken ≡ None → IsSeat basis.now.problem basis.now.table actors session.new (Some job.now)) }
{
    let _ = actors;
    let _ = job;
    match session.take(alloc, basis, actor) {
        Ok(taken) => Some(taken),
        Err(_) => None,
    }
}

/// The job that an actor got.
pub fn job_in(taken: Taken) -> Option<Job>
    ensures { result ≡ job_in taken }
{
    match taken {
        Taken::Work(job) => Some(job),
        _ => None,
    }
}

/// Splits the job that is out, and puts what it is split into.
pub fn put(alloc: Global, basis: &Basis, actors: u32, session: &mut Session, job: Job) -> Option<()>
    requires { IsSeat basis.now.problem basis.now.table actors session.old (Some job) }
    ensures { IfSome result (λ _. IsSeat basis.now.problem basis.now.table actors session.new None) }
{
    let _ = actors;
    let Ok(outcome) = expand(alloc, basis, &job) else {
        return None;
    };
    match session.put(alloc, basis, job, outcome) {
        Ok(()) => Some(()),
        Err(_) => None,
    }
}

/// Gives the job back that is out.
pub fn back(basis: &Basis, actors: u32, session: &mut Session, job: Job)
    requires { IsSeat basis.now.problem basis.now.table actors session.old (Some job) }
    ensures { IsSeat basis.now.problem basis.now.table actors session.new None }
{
    let _ = basis;
    let _ = actors;
    session.back(job);
}

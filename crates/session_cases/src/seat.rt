// A session, with the job that is out.
ghost use Rattle.std.specs.Prelude.{◌<◌, None, Some, IfSome};
ghost use Rattle.search_core.specs.Jobs.{CanExpand};
ghost use Rattle.session_cases.specs.Hands.{IsSeat};
ghost use Rattle.session_cases.specs.Seats.{Sits};

use crate::calls::{ask, back, job_in, names_choice, put, take_alone, take_beside};
use crate::texts::{after_text, leaf_text, outcome_text, taken_text};
use basis::Basis;
use resolver_model::{Command, Entry};
use search_core::{Answer, Job, Session, expand};
use std::alloc::Global;
use user_rules::Rules;

/// A session over a basis, for so many actors, with the job that is out, if there is one.
#[derive(Drop)]
pub struct Seat {
    basis: Basis,
    actors: u32,
    session: Session,
    job: Option<Job>,
}

// The most leaves that one search splits.
const MOST_STEPS: u32 = 1_000_000;

// What a job is split into.
fn split_text(alloc: Global, basis: &Basis, job: &Job) -> Option<String>
    requires { CanExpand basis.now.problem job.now }
{
    let outcome = expand(alloc, basis, job).ok()?;
    outcome_text(alloc, outcome)
}

impl Seat {
    /// A session without rules; nothing where its slice or its count of actors is 0, or memory lacks.
    pub fn new(alloc: Global, basis: Basis, slice: u64, actors: u32) -> Option<Seat>
        ensures { IfSome result Sits }
    {
        if slice == 0 || actors == 0 {
            return None;
        }
        let Ok(session) = Session::new(alloc, &basis, Rules::new(alloc), slice, actors) else {
            return None;
        };
        Some(Seat {
            basis,
            actors,
            session,
            job: None,
        })
    }

    /// The entries so far.
    pub fn history(&self) -> &[Entry] {
        self.session.history()
    }

    /// Answers an actor's command; nothing where it names no choice, or memory lacks.
    pub fn ask(&mut self, alloc: Global, actor: u32, command: Command) -> Option<Answer>
        requires { Sits self.old }
        ensures { IfSome result (λ _. Sits self.new) }
    {
        if actor >= self.actors || !names_choice(&self.basis.problem, command) {
            return None;
        }
        ask(
            alloc,
            &self.basis,
            self.actors,
            &mut self.session,
            &self.job,
            actor,
            command,
        )
    }

    // Takes a leaf where no job is out.
    fn take_first(&mut self, alloc: Global, actor: u32) -> Option<String>
        requires actor { actor < self.old.actors }
        requires seat { IsSeat self.old.basis.problem self.old.basis.table self.old.actors self.old.session None }
        ensures { IfSome result (λ _. Sits self.new) }
    {
        let taken = take_alone(alloc, &self.basis, self.actors, &mut self.session, actor)?;
        let text = taken_text(alloc, &taken)?;
        self.job = job_in(taken);
        Some(text)
    }

    // Asks for a leaf beside a job that is out; nothing where the actor has it out, or gets another.
    fn take_second(&mut self, alloc: Global, job: Job, actor: u32) -> Option<String>
        requires actor { actor < self.old.actors }
        requires seat { IsSeat self.old.basis.problem self.old.basis.table self.old.actors self.old.session (Some job) }
        ensures { IfSome result (λ _. Sits self.new) }
    {
        if job.actor == actor {
            return None;
        }
        let taken = take_beside(
            alloc,
            &self.basis,
            self.actors,
            &mut self.session,
            &job,
            actor,
        )?;
        let text = taken_text(alloc, &taken)?;
        let None = job_in(taken) else {
            return None;
        };
        self.job = Some(job);
        Some(text)
    }

    /// Takes a leaf for an actor; nothing where it has a job out, or gets one beside another's.
    pub fn take(&mut self, alloc: Global, actor: u32) -> Option<String>
        requires { Sits self.old }
        ensures { IfSome result (λ _. Sits self.new) }
    {
        if actor >= self.actors {
            return None;
        }
        match self.job.take() {
            None => self.take_first(alloc, actor),
            Some(job) => self.take_second(alloc, job, actor),
        }
    }

    /// Tells what the job that is out is split into.
    pub fn show(&self, alloc: Global) -> Option<String>
        requires { Sits self.now }
    {
        match &self.job {
            None => None,
            Some(job) => split_text(alloc, &self.basis, job),
        }
    }

    /// Splits and puts the job that is out.
    pub fn put(&mut self, alloc: Global) -> Option<()>
        requires { Sits self.old }
        ensures { IfSome result (λ _. Sits self.new) }
    {
        match self.job.take() {
            None => None,
            Some(job) => put(alloc, &self.basis, self.actors, &mut self.session, job),
        }
    }

    /// Gives the job back that is out.
    pub fn back(&mut self, alloc: Global) -> Option<String>
        requires { Sits self.old }
        ensures { IfSome result (λ _. Sits self.new) }
    {
        let Some(job) = self.job.take() else {
            return None;
        };
        let leaf = job.leaf;
        back(&self.basis, self.actors, &mut self.session, job);
        leaf_text(alloc, leaf)
    }

    // Takes a leaf, splits and puts it.
    fn step(&mut self, alloc: Global, actor: u32) -> Option<()>
        requires { Sits self.old }
        ensures { IfSome result (λ _. Sits self.new) }
    {
        self.take(alloc, actor)?;
        self.put(alloc)
    }

    /// Asks for the next solution, and splits leaves until it is answered.
    pub fn search(&mut self, alloc: Global, actor: u32) -> Option<String>
        requires { Sits self.old }
        ensures { IfSome result (λ _. Sits self.new) }
    {
        for steps in 0..MOST_STEPS {
            let answer = self.ask(alloc, actor, Command::Next)?;
            if let Answer::Said(_) = answer {
                return after_text(alloc, &answer, steps);
            }
            self.step(alloc, actor)?;
        }
        None
    }
}

//! Search in threads: slices of steps through a pass of a shared session, and rounds, in which workers search while somebody
//! talks.
#![tactic(auto)]

ghost use Rattle.std.specs.Prelude.{◌≡◌, ◌<◌, ℕ, length, All, slice_index_or, None, OnOk, OnErr};
ghost use Rattle.std.specs.Borrow.{MutBor};
ghost use Rattle.std.specs.Thread.{IsSync};
ghost use Rattle.resolver_model.specs.Histories.{out_at};
ghost use Rattle.search_core.specs.Sessions.{IsFor};
ghost use Rattle.session_cell.specs.Passes.{IsPassOf, HasOut};
ghost use Rattle.search_thread.specs.Slices.{CanWork, CanTalk, Talker, IsSame, IsOnward, IsWorked, IsTried, EndsAs, IsEndedBySplit, IsEndedByBack, job_or_end, IsBegun, IsGoneOn};

use basis::Basis;
use choice_set::NoMemory;
use crossbeam_utils::Backoff;
use search_core::{Job, Taken, expand};
use session_cell::{Next, Pass, SessionCell};
use std::alloc::Global;
use std::sync::Wait;
use std::thread;
use std::thread::{Threads, join_mut};

/// What a slice calls between a leaf that it takes and what it puts in the place of the leaf.
pub trait Gate {
    /// Called with the actor that has the leaf out.
    fn between(&self, actor: u32);
}

/// The gate that does nothing.
pub struct OpenGate;

impl Gate for OpenGate {
    fn between(&self, _actor: u32) {}
}

/// How a slice ended.
#[derive(Debug, Drop, Clone, Copy, PartialEq, Eq)]
pub enum SliceEnd {
    /// All its steps were made: so many leaves were split.
    Made(u64),
    /// No leaf is wanted, and one is finished.
    Ready,
    /// Every leaf is shut.
    Done,
    /// A round was asked to stop: the greatest so far.
    Stopped { value: u64 },
    /// Every wanted leaf is with somebody; this is the first of them.
    AllOut { leaf: u64 },
    /// Memory was wanting.
    NoMemory,
}

/// What came of one try to search a leaf.
#[derive(Debug, Drop, Clone, Copy, PartialEq, Eq)]
pub enum Tried {
    /// A leaf was taken and split.
    Split,
    /// No leaf is wanted, and one is finished.
    Ready,
    /// Every leaf is shut.
    Done,
    /// Every wanted leaf is with somebody; this is the first of them.
    AllOut { leaf: u64 },
    /// Memory was wanting; what was taken is given back.
    NoMemory,
}

// Splits the leaf that is out, and puts its children in its place; where memory is wanting, gives it back.
fn end_job<H: Wait>(
    rt: &H,
    alloc: Global,
    cell: &SessionCell,
    basis: &Basis,
    pass: &mut Pass,
    job: Job,
) -> Result<(), NoMemory>
    requires cell { IsPassOf cell.now pass.old }
    requires basis { IsFor cell.now.start basis.now.problem basis.now.table }
    requires job { HasOut pass.old job }
    ensures pass { IsSame pass.old pass.new }
    ensures stop { pass.new.stop ≡ pass.old.stop }
    ensures onward { IsOnward pass.old pass.new }
    ensures done { OnOk result (IsEndedBySplit pass.old job.leaf pass.new) }
    ensures undone { OnErr result (IsEndedByBack pass.old job.leaf pass.new) }
{
    let Ok(outcome) = expand(alloc, basis, &job) else {
        cell.back(rt, pass, job);
        return Err(NoMemory);
    };
    match cell.put(rt, alloc, basis, pass, job, outcome) {
        Ok(()) => Ok(()),
        Err(job) => {
            cell.back(rt, pass, job);
            Err(NoMemory)
        }
    }
}

/// Takes a leaf and splits it, if one is free. Room that is kept for an answer stays.
pub fn search_one<H: Wait, G: Gate>(
    rt: &H,
    alloc: Global,
    cell: &SessionCell,
    basis: &Basis,
    pass: &mut Pass,
    gate: &G,
) -> Tried
    requires cell { IsPassOf cell.now pass.old }
    requires basis { IsFor cell.now.start basis.now.problem basis.now.table }
    requires idle { out_at pass.old.hand.actor pass.old.hand.made ≡ None }
    ensures pass { IsSame pass.old pass.new }
    ensures stop { pass.new.stop ≡ pass.old.stop }
    ensures onward { IsOnward pass.old pass.new }
    ensures tried { IsTried pass.old pass.new result }
{
    match cell.take(rt, alloc, basis, pass) {
        Ok(Taken::Work(job)) => {
            gate.between(pass.actor());
            match end_job(rt, alloc, cell, basis, pass, job) {
                Ok(()) => Tried::Split,
                Err(NoMemory) => Tried::NoMemory,
            }
        }
        Ok(Taken::Ready { .. }) => Tried::Ready,
        Ok(Taken::Done) => Tried::Done,
        Ok(Taken::AllOut { leaf }) => Tried::AllOut { leaf },
        Err(NoMemory) => Tried::NoMemory,
    }
}

// The job that was taken, or how a slice ends that got none.
fn job_of(next: Next) -> Result<Job, SliceEnd>
    ensures { result ≡ job_or_end next }
{
    match next {
        Next::Taken(Taken::Work(job)) => Ok(job),
        Next::Taken(Taken::Ready { .. }) => Err(SliceEnd::Ready),
        Next::Taken(Taken::Done) => Err(SliceEnd::Done),
        Next::Taken(Taken::AllOut { leaf }) => Err(SliceEnd::AllOut { leaf }),
        Next::Stopped { value } => Err(SliceEnd::Stopped { value }),
        Next::NoMemory => Err(SliceEnd::NoMemory),
    }
}

// Takes the first leaf of a slice, unless its round or a later one was asked to stop.
fn begin<H: Wait>(
    rt: &H,
    alloc: Global,
    cell: &SessionCell,
    basis: &Basis,
    pass: &mut Pass,
    round: u64,
) -> Result<Job, SliceEnd>
    requires cell { IsPassOf cell.now pass.old }
    requires basis { IsFor cell.now.start basis.now.problem basis.now.table }
    requires idle { out_at pass.old.hand.actor pass.old.hand.made ≡ None }
    ensures pass { IsSame pass.old pass.new }
    ensures begun { IsBegun pass.old pass.new round result }
{
    let asked = cell.stop_asked(pass);
    if asked >= round {
        return Err(SliceEnd::Stopped { value: asked });
    }
    match cell.take(rt, alloc, basis, pass) {
        Ok(taken) => job_of(Next::Taken(taken)),
        Err(NoMemory) => Err(SliceEnd::NoMemory),
    }
}

// Splits the leaf that is out, and in one turn puts its children in its place and takes the next leaf, unless the round or a later
// one was asked to stop.
fn go_on<H: Wait>(
    rt: &H,
    alloc: Global,
    cell: &SessionCell,
    basis: &Basis,
    pass: &mut Pass,
    job: Job,
    round: u64,
) -> Result<Job, SliceEnd>
    requires cell { IsPassOf cell.now pass.old }
    requires basis { IsFor cell.now.start basis.now.problem basis.now.table }
    requires job { HasOut pass.old job }
    requires stop { pass.old.stop < round }
    ensures pass { IsSame pass.old pass.new }
    ensures gone { IsGoneOn pass.old job.leaf pass.new round result }
{
    let Ok(outcome) = expand(alloc, basis, &job) else {
        cell.back(rt, pass, job);
        return Err(SliceEnd::NoMemory);
    };
    match cell.put_and_take(rt, alloc, basis, pass, job, outcome, round) {
        Ok(next) => job_of(next),
        Err(refused) => {
            cell.back(rt, pass, refused);
            Err(SliceEnd::NoMemory)
        }
    }
}

/// Searches: takes a leaf, splits it, puts its children in its place, and so on, up to `most` times. Before each leaf it looks
/// whether this round or a later one was asked to stop. What it takes it puts, or gives back where memory is wanting.
pub fn slice<H: Wait, G: Gate>(
    rt: &H,
    alloc: Global,
    cell: &SessionCell,
    basis: &Basis,
    pass: &mut Pass,
    gate: &G,
    round: u64,
    most: u64,
) -> SliceEnd
    requires cell { IsPassOf cell.now pass.old }
    requires basis { IsFor cell.now.start basis.now.problem basis.now.table }
    requires idle { out_at pass.old.hand.actor pass.old.hand.made ≡ None }
    requires most { 0 < most }
    ensures pass { IsSame pass.old pass.new }
    ensures ended { EndsAs pass.old pass.new round most result }
{
    let mut job = match begin(rt, alloc, cell, basis, pass, round) {
        Ok(job) => job,
        Err(end) => return end,
    };
    for _ in 1..most {
        gate.between(pass.actor());
        match go_on(rt, alloc, cell, basis, pass, job, round) {
            Ok(next) => job = next,
            Err(end) => return end,
        }
    }
    gate.between(pass.actor());
    match end_job(rt, alloc, cell, basis, pass, job) {
        Ok(()) => SliceEnd::Made(most),
        Err(NoMemory) => SliceEnd::NoMemory,
    }
}

// A worker's part of a round: slices, until there is nothing more to do, or the round was asked to stop.
fn work<H: Wait, G: Gate>(
    rt: &H,
    alloc: Global,
    cell: &SessionCell,
    basis: &Basis,
    pass: &mut Pass,
    gate: &G,
    round: u64,
)
    requires work { CanWork cell.now pass.old }
    requires basis { IsFor cell.now.start basis.now.problem basis.now.table }
    ensures { IsWorked pass.old pass.new }
{
    let backoff = Backoff::new();
    for _ in rt.forever() {
        match slice(rt, alloc, cell, basis, pass, gate, round, 64) {
            SliceEnd::Made(_) => backoff.reset(),
            // its holder needs the turn to put what it is split into
            SliceEnd::AllOut { .. } => backoff.snooze(),
            SliceEnd::Stopped { .. } => return,
            SliceEnd::Ready => return,
            SliceEnd::Done => return,
            SliceEnd::NoMemory => return,
        }
    }
}

// Each worker searches, in as many threads.
fn work_all<H: Threads + Wait + Sync, G: Gate + Sync>(
    rt: &H,
    alloc: Global,
    cell: &SessionCell,
    basis: &Basis,
    workers: &mut [Pass],
    gate: &G,
    round: u64,
)
    requires workers { All (CanWork cell.now) workers.old }
    requires basis { IsFor cell.now.start basis.now.problem basis.now.table }
    ensures { (i : ℕ) (d : Talker) → i < length workers.old → IsWorked (slice_index_or workers.old i d) (slice_index_or workers.new i d) }
{
    let count = workers.len();
    if count == 0 {
        return;
    }
    thread::for_each_mut(
        rt,
        workers,
        count,
        &|_, pass| work(rt, alloc, cell, basis, pass, gate, round),
    );
}

// Calls `talk` once, and then asks the round to stop.
fn talk_and_stop<R, F: FnMut(&mut Pass) -> R>(
    cell: &SessionCell,
    talker: &mut Pass,
    round: u64,
    talk: &mut F,
) -> R
    requires talker { CanTalk cell.now round talker.old }
    requires talk { (p : MutBor Talker) → p.now ≡ talker.old → F.pre talk.old p }
    requires leaves { (p q : MutBor Talker) (r : R) (f : F) → p.now ≡ talker.old → F.step talk.old p r q f → CanTalk cell.now round q.now }
    ensures { (p q : MutBor Talker) × (p.now ≡ talker.old) × F.step talk.old p result q talk.new × (talker.new ≡ record q.now { stop = round }) }
{
    let answer = talk(talker);
    cell.ask_stop(talker, round);
    answer
}

/// Calls `talk` once, on the talker and on this thread, while each worker searches, and then asks the round to stop. The workers add
/// no answer, and none of them has a leaf out afterwards. Where no thread can be made, one runs after the other.
pub fn round_here<H: Threads + Wait + Sync, R, F: FnMut(&mut Pass) -> R, G: Gate + Sync>(
    rt: &H,
    alloc: Global,
    cell: &SessionCell,
    basis: &Basis,
    talker: &mut Pass,
    workers: &mut [Pass],
    gate: &G,
    round: u64,
    talk: &mut F,
) -> R
    requires basis { IsFor cell.now.start basis.now.problem basis.now.table }
    requires talker { CanTalk cell.now round talker.old }
    requires workers { All (CanWork cell.now) workers.old }
    requires talk { (p : MutBor Talker) → p.now ≡ talker.old → F.pre talk.old p }
    requires leaves { (p q : MutBor Talker) (r : R) (f : F) → p.now ≡ talker.old → F.step talk.old p r q f → CanTalk cell.now round q.now }
    ensures talked { (p q : MutBor Talker) × (p.now ≡ talker.old) × F.step talk.old p result q talk.new × (talker.new ≡ record q.now { stop = round }) }
    ensures workers { (i : ℕ) (d : Talker) → i < length workers.old → IsWorked (slice_index_or workers.old i d) (slice_index_or workers.new i d) }
{
    let ((), answer) = join_mut(
        rt,
        &mut ||
            requires { IsSync H.row × IsSync G.row × IsFor cell.now.start basis.now.problem basis.now.table × All (CanWork cell.now) workers.now }
            ensures { (i : ℕ) (d : Talker) → i < length workers.entry.now → IsWorked (slice_index_or workers.entry.now i d) (slice_index_or workers.exit.now i d) }
        { work_all(rt, alloc, cell, basis, workers, gate, round) },
        &mut ||
            requires { CanTalk cell.now round talker.now × ((p : MutBor Talker) → p.now ≡ talker.now → F.pre talk.now p) × ((p q : MutBor Talker) (r : R) (f : F) → p.now ≡ talker.now → F.step talk.now p r q f → CanTalk cell.now round q.now) }
            ensures { (p q : MutBor Talker) × (p.now ≡ talker.entry.now) × F.step talk.entry.now p result q talk.exit.now × (talker.exit.now ≡ record q.now { stop = round }) }
        { talk_and_stop(cell, talker, round, talk) },
    );
    answer
}

/// As `round_here`, for a `talk` that could go to another thread.
pub fn round<H: Threads + Wait + Sync, R: Send, F: FnMut(&mut Pass) -> R + Send, G: Gate + Sync>(
    rt: &H,
    alloc: Global,
    cell: &SessionCell,
    basis: &Basis,
    talker: &mut Pass,
    workers: &mut [Pass],
    gate: &G,
    round: u64,
    talk: &mut F,
) -> R
    requires basis { IsFor cell.now.start basis.now.problem basis.now.table }
    requires talker { CanTalk cell.now round talker.old }
    requires workers { All (CanWork cell.now) workers.old }
    requires talk { (p : MutBor Talker) → p.now ≡ talker.old → F.pre talk.old p }
    requires leaves { (p q : MutBor Talker) (r : R) (f : F) → p.now ≡ talker.old → F.step talk.old p r q f → CanTalk cell.now round q.now }
    ensures talked { (p q : MutBor Talker) × (p.now ≡ talker.old) × F.step talk.old p result q talk.new × (talker.new ≡ record q.now { stop = round }) }
    ensures workers { (i : ℕ) (d : Talker) → i < length workers.old → IsWorked (slice_index_or workers.old i d) (slice_index_or workers.new i d) }
{
    round_here(rt, alloc, cell, basis, talker, workers, gate, round, talk)
}

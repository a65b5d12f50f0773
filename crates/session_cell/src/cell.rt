// The shared session.
ghost use Rattle.std.specs.Prelude.{◌≡◌, ◌<◌, ◌≤◌, ◌∷◌, [], ℕ, true, IfOk, IfErr, OnOk, OnErr, IsTrue, IsOk, vec_len, None, ⊤};
ghost use Rattle.resolver_model.specs.Histories.{History, out_at};
ghost use Rattle.resolver_model.specs.Answers.{NamesChoice};
ghost use Rattle.search_core.specs.Jobs.{outcome_of};
ghost use Rattle.search_core.specs.Sessions.{IsFor, IsTaken, IsAnswer, needs_no_memory};
ghost use Rattle.cell_rule.specs.Views.{Each};
ghost use Rattle.session_cell.specs.Calls.{taken, said, ArePut, ArePutAndTaken, HeedsStop, given_back};
ghost use Rattle.session_cell.specs.Passes.{IsPassOf, IsTurn, HasOut, HasTaken, HasNext, knowing, passes_below, hands_of, ArePassesOf, HasAll, Holds, AreStops};

use crate::inside::{
    answer_inside, back_inside, enter, leave, put_and_take_inside, put_inside, reserve_inside,
    take_inside,
};
use crate::next::Next;
use crate::pass::{Pass, deal, gather, lay, release_first};
use crate::stopping::{close_stop, lay_stop, load_stop, set_stop};
use basis::Basis;
use cell_rule::rule::TurnTable;
use cell_rule::stop::StopTable;
use choice_set::NoMemory;
use resolver_model::Command;
use search_core::{Answer, Job, Outcome, Session, Taken};
use std::alloc::Global;
use std::marker::Model;
use std::sync::Wait;

/// A session that threads share, each through a pass. Contracts see which tables it has, and the session at the start.
#[derive(Drop)]
pub struct SessionCell {
    turn: TurnTable,
    stop: StopTable,
}

impl Model for SessionCell {
    ghost use Rattle.std.specs.Prelude.{◌≡◌};
    ghost use Rattle.session_cell.specs.Passes as model;

    ghost Value = { model.Cell };

    ghost view = { λ c. record { table = c.turn.shared.table_id; stops = c.stop.shared.table_id; start = c.turn.shared.key.value } };

    ghost invariant = { λ c. (c.turn.shared.table_id.words ≡ 1) × (c.turn.shared.table_id.slots ≡ 1) × (c.stop.shared.table_id.words ≡ 1) × (c.stop.shared.table_id.slots ≡ 0) };
}

impl SessionCell {
    /// Shares a session among its actors. There is a pass for each, at its place, which has seen the session's history and made
    /// its own entries there; no round was asked to stop.
    pub fn new(
        alloc: Global,
        session: Session,
        actors: u32,
    ) -> Result<(SessionCell, Vec<Pass>), NoMemory>
        requires { session.setting.actors ≡ actors }
        ensures cell { IfOk result (λ r. r.0.start ≡ session) }
        ensures passes { IfOk result (λ r. r.1.items ≡ passes_below r.0.table r.0.stops session actors) }
    {
        let Ok(mut passes) = Vec::with_capacity(alloc, actors as usize) else {
            return Err(NoMemory);
        };
        let (turn, mut seat, count) = lay(alloc, session)?;
        let (stop, mut stop_seat) = lay_stop(alloc)?;
        deal(&turn, &stop, &mut seat, &mut stop_seat, &mut passes, actors);
        release_first(&turn, &mut seat, actors, count);
        let first = Pass {
            actor: 0,
            seat,
            stop: stop_seat,
        };
        let Ok(()) = passes.insert(0, first) else {
            return Err(NoMemory);
        };
        Ok((SessionCell { turn, stop }, passes))
    }

    /// Gives the session back for the passes of all actors. Its history begins with what each of them has seen, and has of each
    /// actor just what its pass made. No pass saw a later round asked to stop than the last one that the pass of actor 0 asked.
    pub fn close(self, mut passes: Vec<Pass>) -> Session
        requires passes { ArePassesOf self passes.items }
        requires all { HasAll self.start.setting.actors passes.items × (0 < vec_len passes) }
        ensures setting { result.setting ≡ self.start.setting }
        ensures hands { Each (Holds result.history) (hands_of passes.items) }
        ensures stops { (asked : ℕ) × AreStops asked passes.items }
    {
        let SessionCell { turn, stop } = self;
        let Some(last) = passes.pop() else {
            unreachable!()
        };
        let Pass {
            actor: _,
            mut seat,
            stop: mut stop_seat,
        } = last;
        gather(&turn, &stop, &mut seat, &mut stop_seat, &mut passes);
        close_stop(stop, stop_seat);
        let mut closed = turn.close_with(seat);
        let session = closed.take(0);
        closed.free();
        session
    }

    /// Takes a leaf for the pass's actor, which has none out.
    pub fn take<H: Wait>(
        &self,
        rt: &H,
        alloc: Global,
        basis: &Basis,
        pass: &mut Pass,
    ) -> Result<Taken, NoMemory>
        requires cell { IsPassOf self.now pass.old }
        requires basis { IsFor self.now.start basis.now.problem basis.now.table }
        requires idle { out_at pass.old.hand.actor pass.old.hand.made ≡ None }
        ensures turn { (before : History) × IsTurn pass.old before (taken pass.old.hand.actor result) pass.new × IfOk result (IsTaken pass.old.hand.start.setting before pass.old.hand.actor) }
        ensures out { IfOk result (HasTaken pass.new) }
        ensures room { pass.old.hand.reserved ≡ true → pass.new.hand.reserved ≡ true }
    {
        let actor = pass.actor;
        enter(rt, &self.turn, &mut pass.seat);
        let (taken, count) = take_inside(&self.turn, &mut pass.seat, alloc, basis, actor);
        leave(&self.turn, &mut pass.seat, count);
        taken
    }

    /// Puts what the job that the pass's actor has out was split into in the place of its leaf. After want of memory the job
    /// comes back, and is still out.
    pub fn put<H: Wait>(
        &self,
        rt: &H,
        alloc: Global,
        basis: &Basis,
        pass: &mut Pass,
        job: Job,
        outcome: Outcome,
    ) -> Result<(), Job>
        requires cell { IsPassOf self.now pass.old }
        requires basis { IsFor self.now.start basis.now.problem basis.now.table }
        requires job { HasOut pass.old job }
        requires outcome { outcome ≡ outcome_of basis.now.problem basis.now.table job }
        ensures turn { (before : History) × (entries : History) × IsTurn pass.old before entries pass.new × ArePut pass.old.hand.start.setting before job result entries }
        ensures out { OnErr result (HasOut pass.new job) }
        ensures room { pass.old.hand.reserved ≡ true → pass.new.hand.reserved ≡ true }
    {
        enter(rt, &self.turn, &mut pass.seat);
        let (put, count) = put_inside(&self.turn, &mut pass.seat, alloc, basis, job, outcome);
        leave(&self.turn, &mut pass.seat, count);
        put
    }

    /// Puts a job as `put` does, and then takes the next leaf for the same actor as `take` does, in one turn; no leaf is taken where
    /// this round or a later one was asked to stop. After want of memory for the put the job comes back, is still out, and no leaf
    /// is taken; after want of memory for the next leaf the put stands.
    pub fn put_and_take<H: Wait>(
        &self,
        rt: &H,
        alloc: Global,
        basis: &Basis,
        pass: &mut Pass,
        job: Job,
        outcome: Outcome,
        round: u64,
    ) -> Result<Next, Job>
        requires cell { IsPassOf self.now pass.old }
        requires basis { IsFor self.now.start basis.now.problem basis.now.table }
        requires job { HasOut pass.old job }
        requires outcome { outcome ≡ outcome_of basis.now.problem basis.now.table job }
        ensures turn { (before : History) × (entries : History) × IsTurn (knowing pass.old pass.new.stop) before entries pass.new × ArePutAndTaken pass.old.hand.start.setting before job result entries }
        ensures heeds { IfOk result (HeedsStop round pass.new.stop) }
        ensures unheard { OnErr result (pass.new.stop ≡ pass.old.stop) }
        ensures later { pass.old.stop ≤ pass.new.stop }
        ensures own { pass.old.hand.actor ≡ 0 → pass.new.stop ≡ pass.old.stop }
        ensures out { OnErr result (HasOut pass.new job) }
        ensures next { IfOk result (HasNext pass.new) }
        ensures room { pass.old.hand.reserved ≡ true → pass.new.hand.reserved ≡ true }
    {
        enter(rt, &self.turn, &mut pass.seat);
        let (put, count) = put_and_take_inside(
            &self.turn,
            &self.stop,
            &mut pass.seat,
            &mut pass.stop,
            alloc,
            basis,
            job,
            outcome,
            round,
        );
        leave(&self.turn, &mut pass.seat, count);
        put
    }

    /// Gives the job back that the pass's actor has out: its leaf is in nobody's hands. It takes no memory.
    pub fn back<H: Wait>(&self, rt: &H, pass: &mut Pass, job: Job)
        requires cell { IsPassOf self.now pass.old }
        requires job { HasOut pass.old job }
        ensures turn { (before : History) × IsTurn pass.old before (given_back job) pass.new }
        ensures room { pass.old.hand.reserved ≡ true → pass.new.hand.reserved ≡ true }
    {
        enter(rt, &self.turn, &mut pass.seat);
        let count = back_inside(&self.turn, &mut pass.seat, job);
        leave(&self.turn, &mut pass.seat, count);
    }

    /// Keeps room for the next answer of the pass's actor.
    pub fn reserve<H: Wait>(&self, rt: &H, pass: &mut Pass) -> Result<(), NoMemory>
        requires cell { IsPassOf self.now pass.old }
        ensures turn { (before : History) × IsTurn pass.old before [] pass.new }
        ensures room { OnOk result (pass.new.hand.reserved ≡ true) }
        ensures kept { pass.old.hand.reserved ≡ true → pass.new.hand.reserved ≡ true }
    {
        let actor = pass.actor;
        enter(rt, &self.turn, &mut pass.seat);
        let (reserved, count) = reserve_inside(&self.turn, &mut pass.seat, actor);
        leave(&self.turn, &mut pass.seat, count);
        reserved
    }

    /// Answers a command of the pass's actor, by the room that was kept through this pass. Where nothing is said, the room stays.
    pub fn answer<H: Wait>(
        &self,
        rt: &H,
        alloc: Global,
        basis: &Basis,
        pass: &mut Pass,
        command: Command,
    ) -> Result<Answer, NoMemory>
        requires cell { IsPassOf self.now pass.old }
        requires basis { IsFor self.now.start basis.now.problem basis.now.table }
        requires choice { NamesChoice pass.old.hand.start.setting.problem command }
        requires room { pass.old.hand.reserved ≡ true }
        ensures turn { (before : History) × IsTurn pass.old before (said pass.old.hand.actor command result) pass.new × IfOk result (IsAnswer pass.old.hand.start.setting before pass.old.hand.actor command) }
        ensures room { said pass.old.hand.actor command result ≡ [] → pass.new.hand.reserved ≡ true }
        ensures quick { IsTrue (needs_no_memory command) → IsOk result }
    {
        let actor = pass.actor;
        enter(rt, &self.turn, &mut pass.seat);
        let (answer, count) = answer_inside(
            &self.turn,
            &mut pass.seat,
            alloc,
            basis,
            actor,
            command,
        );
        leave(&self.turn, &mut pass.seat, count);
        answer
    }

    /// Asks all passes to stop this round, which is later than all that were asked before. Only the pass of actor 0 may ask.
    pub fn ask_stop(&self, pass: &mut Pass, round: u64)
        requires cell { IsPassOf self.now pass.old }
        requires talker { pass.old.hand.actor ≡ 0 }
        requires later { pass.old.stop < round }
        ensures { pass.new ≡ record pass.old { stop = round } }
    {
        set_stop(&self.stop, &mut pass.stop, round);
    }

    /// The greatest round that was asked to stop, as far as this pass sees: it never falls, and is 0 at first. For actor 0 it is
    /// the one that it asked last.
    pub fn stop_asked(&self, pass: &mut Pass) -> u64
        requires { IsPassOf self.now pass.old }
        ensures pass { pass.new ≡ record pass.old { stop = result } }
        ensures later { pass.old.stop ≤ result }
        ensures own { pass.old.hand.actor ≡ 0 → result ≡ pass.old.stop }
    {
        load_stop(&self.stop, &mut pass.stop)
    }
}

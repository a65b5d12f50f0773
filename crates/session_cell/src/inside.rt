// The turn, and the session's calls while a seat has it.
ghost use Rattle.std.specs.Prelude.{◌≡◌, ◌^◌, ◌<◌, ◌≤◌, ◌*◌, ◌∷◌, [], List, Bool, true, ℕ, length, IfOk, IfErr, OnOk, OnErr, IsTrue, IsOk, None};
ghost use Rattle.resolver_model.specs.Histories.{History, out_at};
ghost use Rattle.resolver_model.specs.Answers.{NamesChoice};
ghost use Rattle.resolver_model.specs.Legal.{IsLegal, IsSetting};
ghost use Rattle.search_core.specs.Jobs.{IsOut, outcome_of};
ghost use Rattle.search_core.specs.Sessions.{Session, IsFor, IsTaken, IsJobOut, IsAnswer, needs_no_memory};
ghost use Rattle.cell_rule.specs.Views.{waiting, holding, informed, returned, IsKeptFor};
ghost use Rattle.cell_rule.specs.Turns.{Took, HasSession, HasTurn, MayReturn, session_of, Called};
ghost use Rattle.cell_rule.specs.Stops.{stop_view};
ghost use Rattle.session_cell.specs.Calls.{taken, said, ArePut, ArePutAndTaken, next_taken, IsNext, IsNextOut, HeedsStop, given_back, WasOut};

use crate::next::Next;
use crate::stopping::load_stop;
use basis::Basis;
use cell_rule::rule::{Claim, Release, TurnSeat, TurnTable};
use cell_rule::stop::{StopSeat, StopTable};
use choice_set::NoMemory;
use crossbeam_utils::Backoff;
use resolver_model::Command;
use search_core::{Answer, Job, Outcome, Session, Taken};
use std::alloc::Global;
use std::sync::Wait;

// How many entries the session has.
pub(crate) fn count_entries(session: &Session) -> u64
    ensures count { result ≡ length session.now.history }
    ensures short { result < 2 ^ 63 }
    ensures legal { IsLegal session.now.setting session.now.history }
    ensures setting { IsSetting session.now.setting }
{
    session.history().len() as u64
}

// A job stays out while its actor makes no entry.
fn is_still_out(session: &Session, job: &Job)
    requires { WasOut session.now.setting session.now.history job.now }
    ensures { IsOut session.now.setting session.now.history job.now }
{
    // makes known that the history is legal
    let _ = session.history();
}

// How often a thread that waits for the turn lets others run before it parks: a park and its wake cost more than some turns.
const PATIENCE: u32 = 1_000;

// Waits for the turn, and takes the session with it. A turn is short: it spins at first, then lets other threads run, and parks last.
pub(crate) fn enter<H: Wait>(rt: &H, turn: &TurnTable, seat: &mut TurnSeat)
    requires table { (seat.old.table_id ≡ turn.now.shared.table_id) × (turn.now.shared.table_id.words ≡ 1) × (turn.now.shared.table_id.slots ≡ 1) }
    requires waits { seat.old.me ≡ (waiting seat.old.me.0.own, []) }
    ensures seat { seat.new.table_id ≡ seat.old.table_id }
    ensures took { (y : Session) × (seat.new.me ≡ (holding y.rooms (informed seat.old.me.0.own y), (0, y) ∷ [])) × Took seat.old.me.0.own y }
{
    let backoff = Backoff::new();
    let mut patience = PATIENCE;
    let shared = &turn.shared;
    for _ in rt.forever() {
        let word = shared.peek(0);
        if word % 2 == 0 {
            let found = shared.compare_exchange::<Claim>(seat, 0, word, word + 1);
            if found == word {
                return;
            }
        } else if patience == 0 {
            shared.park(rt, 0, (word % (1 << 32)) as u32);
            backoff.reset();
            patience = PATIENCE;
        } else {
            backoff.snooze();
            patience -= 1;
        }
    }
    unreachable!()
}

// Gives the session back with the turn, and wakes a thread that waits.
pub(crate) fn leave(turn: &TurnTable, seat: &mut TurnSeat, count: u64)
    requires table { (seat.old.table_id ≡ turn.now.shared.table_id) × (turn.now.shared.table_id.words ≡ 1) × (turn.now.shared.table_id.slots ≡ 1) }
    requires turn { (rooms : List Bool) × (entries : History) × HasTurn rooms seat.old.me × MayReturn seat.old.me.0.own rooms (session_of seat.old.me) entries }
    requires count { (count ≡ length (session_of seat.old.me).history) × (count < 2 ^ 63) }
    ensures seat { seat.new.table_id ≡ seat.old.table_id }
    ensures returned { seat.new.me ≡ (waiting (returned seat.old.me.0.own (session_of seat.old.me)), []) }
{
    turn.shared.store::<Release>(seat, 0, 2 * count);
    turn.shared.wake_one(0);
}

// `take` on the session in hands, and how many entries there are then.
pub(crate) fn take_inside(
    turn: &TurnTable,
    seat: &mut TurnSeat,
    alloc: Global,
    basis: &Basis,
    actor: u32,
) -> (Result<Taken, NoMemory>, u64)
    requires table { seat.old.table_id ≡ turn.now.shared.table_id }
    requires session { HasSession seat.old.me }
    requires basis { IsFor (session_of seat.old.me) basis.now.problem basis.now.table }
    requires actor { actor < (session_of seat.old.me).setting.actors }
    requires idle { out_at actor (session_of seat.old.me).history ≡ None }
    ensures seat { seat.new.table_id ≡ seat.old.table_id }
    ensures called { Called actor seat.old.me (taken actor result.0) seat.new.me }
    ensures kept { (session_of seat.new.me).rooms ≡ (session_of seat.old.me).rooms }
    ensures answer { IfOk result.0 (IsTaken (session_of seat.old.me).setting (session_of seat.old.me).history actor) }
    ensures out { IfOk result.0 (IsJobOut (session_of seat.new.me)) }
    ensures count { (result.1 ≡ length (session_of seat.new.me).history) × (result.1 < 2 ^ 63) }
    ensures legal { IsLegal (session_of seat.new.me).setting (session_of seat.new.me).history }
{
    let session = seat.slot_mut(&turn.shared, 0);
    let taken = session.take(alloc, basis, actor);
    let count = count_entries(session);
    (taken, count)
}

// `put` on the session in hands.
pub(crate) fn put_inside(
    turn: &TurnTable,
    seat: &mut TurnSeat,
    alloc: Global,
    basis: &Basis,
    job: Job,
    outcome: Outcome,
) -> (Result<(), Job>, u64)
    requires table { seat.old.table_id ≡ turn.now.shared.table_id }
    requires session { HasSession seat.old.me }
    requires basis { IsFor (session_of seat.old.me) basis.now.problem basis.now.table }
    requires job { WasOut (session_of seat.old.me).setting (session_of seat.old.me).history job }
    requires outcome { outcome ≡ outcome_of basis.now.problem basis.now.table job }
    ensures seat { seat.new.table_id ≡ seat.old.table_id }
    ensures called { (entries : History) × Called job.actor seat.old.me entries seat.new.me × ArePut (session_of seat.old.me).setting (session_of seat.old.me).history job result.0 entries }
    ensures kept { (session_of seat.new.me).rooms ≡ (session_of seat.old.me).rooms }
    ensures out { OnErr result.0 (IsOut (session_of seat.new.me).setting (session_of seat.new.me).history job) }
    ensures count { (result.1 ≡ length (session_of seat.new.me).history) × (result.1 < 2 ^ 63) }
    ensures legal { IsLegal (session_of seat.new.me).setting (session_of seat.new.me).history }
{
    let session = seat.slot_mut(&turn.shared, 0);
    is_still_out(session, &job);
    let put = session.put(alloc, basis, job, outcome);
    let count = count_entries(session);
    (put, count)
}

// `take` on the session in hands, unless this round or a later one was asked to stop.
fn next_inside(
    turn: &TurnTable,
    stop: &StopTable,
    seat: &mut TurnSeat,
    stop_seat: &mut StopSeat,
    alloc: Global,
    basis: &Basis,
    actor: u32,
    round: u64,
    count: u64,
) -> (Next, u64)
    requires table { seat.old.table_id ≡ turn.now.shared.table_id }
    requires session { HasSession seat.old.me }
    requires basis { IsFor (session_of seat.old.me) basis.now.problem basis.now.table }
    requires actor { actor < (session_of seat.old.me).setting.actors }
    requires idle { out_at actor (session_of seat.old.me).history ≡ None }
    requires count { (count ≡ length (session_of seat.old.me).history) × (count < 2 ^ 63) }
    requires legal { IsLegal (session_of seat.old.me).setting (session_of seat.old.me).history }
    requires stops { (stop_seat.old.table_id ≡ stop.now.shared.table_id) × (stop.now.shared.table_id.words ≡ 1) }
    requires single { stop_seat.old.me ≡ (stop_view stop_seat.old.me.0.own.value stop_seat.old.me.0.own.marked, []) }
    ensures seat { seat.new.table_id ≡ seat.old.table_id }
    ensures called { Called actor seat.old.me (next_taken actor result.0) seat.new.me }
    ensures kept { (session_of seat.new.me).rooms ≡ (session_of seat.old.me).rooms }
    ensures answer { IsNext (session_of seat.old.me).setting (session_of seat.old.me).history actor result.0 }
    ensures out { IsNextOut (session_of seat.new.me) result.0 }
    ensures count { (result.1 ≡ length (session_of seat.new.me).history) × (result.1 < 2 ^ 63) }
    ensures legal { IsLegal (session_of seat.new.me).setting (session_of seat.new.me).history }
    ensures stops { stop_seat.new.table_id ≡ stop_seat.old.table_id }
    ensures single { stop_seat.new.me ≡ (stop_view stop_seat.new.me.0.own.value stop_seat.old.me.0.own.marked, []) }
    ensures heeds { HeedsStop round stop_seat.new.me.0.own.value result.0 }
    ensures later { stop_seat.old.me.0.own.value ≤ stop_seat.new.me.0.own.value }
    ensures marked { stop_seat.old.me.0.own.marked ≡ true → stop_seat.new.me.0.own.value ≡ stop_seat.old.me.0.own.value }
{
    let asked = load_stop(stop, stop_seat);
    if asked >= round {
        return (Next::Stopped { value: asked }, count);
    }
    let (taken, count) = take_inside(turn, seat, alloc, basis, actor);
    match taken {
        Ok(taken) => (Next::Taken(taken), count),
        Err(NoMemory) => (Next::NoMemory, count),
    }
}

// `put` on the session in hands, and then `take`, unless this round or a later one was asked to stop.
pub(crate) fn put_and_take_inside(
    turn: &TurnTable,
    stop: &StopTable,
    seat: &mut TurnSeat,
    stop_seat: &mut StopSeat,
    alloc: Global,
    basis: &Basis,
    job: Job,
    outcome: Outcome,
    round: u64,
) -> (Result<Next, Job>, u64)
    requires table { seat.old.table_id ≡ turn.now.shared.table_id }
    requires session { HasSession seat.old.me }
    requires basis { IsFor (session_of seat.old.me) basis.now.problem basis.now.table }
    requires job { WasOut (session_of seat.old.me).setting (session_of seat.old.me).history job }
    requires actor { job.actor < (session_of seat.old.me).setting.actors }
    requires outcome { outcome ≡ outcome_of basis.now.problem basis.now.table job }
    requires stops { (stop_seat.old.table_id ≡ stop.now.shared.table_id) × (stop.now.shared.table_id.words ≡ 1) }
    requires single { stop_seat.old.me ≡ (stop_view stop_seat.old.me.0.own.value stop_seat.old.me.0.own.marked, []) }
    ensures seat { seat.new.table_id ≡ seat.old.table_id }
    ensures called { (entries : History) × Called job.actor seat.old.me entries seat.new.me × ArePutAndTaken (session_of seat.old.me).setting (session_of seat.old.me).history job result.0 entries }
    ensures kept { (session_of seat.new.me).rooms ≡ (session_of seat.old.me).rooms }
    ensures out { OnErr result.0 (IsOut (session_of seat.new.me).setting (session_of seat.new.me).history job) }
    ensures next { IfOk result.0 (IsNextOut (session_of seat.new.me)) }
    ensures count { (result.1 ≡ length (session_of seat.new.me).history) × (result.1 < 2 ^ 63) }
    ensures legal { IsLegal (session_of seat.new.me).setting (session_of seat.new.me).history }
    ensures stops { stop_seat.new.table_id ≡ stop_seat.old.table_id }
    ensures single { stop_seat.new.me ≡ (stop_view stop_seat.new.me.0.own.value stop_seat.old.me.0.own.marked, []) }
    ensures heeds { IfOk result.0 (HeedsStop round stop_seat.new.me.0.own.value) }
    ensures unheard { OnErr result.0 (stop_seat.new.me ≡ stop_seat.old.me) }
    ensures later { stop_seat.old.me.0.own.value ≤ stop_seat.new.me.0.own.value }
    ensures marked { stop_seat.old.me.0.own.marked ≡ true → stop_seat.new.me.0.own.value ≡ stop_seat.old.me.0.own.value }
{
    let actor = job.actor;
    let (put, count) = put_inside(turn, seat, alloc, basis, job, outcome);
    match put {
        Ok(()) => {
            let (next, count) = next_inside(
                turn, stop, seat, stop_seat, alloc, basis, actor, round, count,
            );
            (Ok(next), count)
        }
        Err(job) => (Err(job), count),
    }
}

// `back` on the session in hands.
pub(crate) fn back_inside(turn: &TurnTable, seat: &mut TurnSeat, job: Job) -> u64
    requires table { seat.old.table_id ≡ turn.now.shared.table_id }
    requires session { HasSession seat.old.me }
    requires job { WasOut (session_of seat.old.me).setting (session_of seat.old.me).history job }
    ensures seat { seat.new.table_id ≡ seat.old.table_id }
    ensures called { Called job.actor seat.old.me (given_back job) seat.new.me }
    ensures kept { (session_of seat.new.me).rooms ≡ (session_of seat.old.me).rooms }
    ensures count { (result ≡ length (session_of seat.new.me).history) × (result < 2 ^ 63) }
    ensures legal { IsLegal (session_of seat.new.me).setting (session_of seat.new.me).history }
{
    let session = seat.slot_mut(&turn.shared, 0);
    is_still_out(session, &job);
    session.back(job);
    count_entries(session)
}

// `reserve` on the session in hands.
pub(crate) fn reserve_inside(
    turn: &TurnTable,
    seat: &mut TurnSeat,
    actor: u32,
) -> (Result<(), NoMemory>, u64)
    requires table { seat.old.table_id ≡ turn.now.shared.table_id }
    requires session { HasSession seat.old.me }
    requires actor { actor < (session_of seat.old.me).setting.actors }
    ensures seat { seat.new.table_id ≡ seat.old.table_id }
    ensures called { Called actor seat.old.me [] seat.new.me }
    ensures kept { IsKeptFor (session_of seat.old.me).rooms actor → IsKeptFor (session_of seat.new.me).rooms actor }
    ensures room { OnOk result.0 (IsKeptFor (session_of seat.new.me).rooms actor) }
    ensures count { (result.1 ≡ length (session_of seat.new.me).history) × (result.1 < 2 ^ 63) }
    ensures legal { IsLegal (session_of seat.new.me).setting (session_of seat.new.me).history }
{
    let session = seat.slot_mut(&turn.shared, 0);
    let reserved = session.reserve(actor);
    let count = count_entries(session);
    (reserved, count)
}

// `answer` on the session in hands.
pub(crate) fn answer_inside(
    turn: &TurnTable,
    seat: &mut TurnSeat,
    alloc: Global,
    basis: &Basis,
    actor: u32,
    command: Command,
) -> (Result<Answer, NoMemory>, u64)
    requires table { seat.old.table_id ≡ turn.now.shared.table_id }
    requires session { HasSession seat.old.me }
    requires basis { IsFor (session_of seat.old.me) basis.now.problem basis.now.table }
    requires choice { NamesChoice (session_of seat.old.me).setting.problem command }
    requires room { IsKeptFor (session_of seat.old.me).rooms actor }
    ensures seat { seat.new.table_id ≡ seat.old.table_id }
    ensures called { Called actor seat.old.me (said actor command result.0) seat.new.me }
    ensures kept { said actor command result.0 ≡ [] → IsKeptFor (session_of seat.new.me).rooms actor }
    ensures answer { IfOk result.0 (IsAnswer (session_of seat.old.me).setting (session_of seat.old.me).history actor command) }
    ensures quick { IsTrue (needs_no_memory command) → IsOk result.0 }
    ensures count { (result.1 ≡ length (session_of seat.new.me).history) × (result.1 < 2 ^ 63) }
    ensures legal { IsLegal (session_of seat.new.me).setting (session_of seat.new.me).history }
{
    let session = seat.slot_mut(&turn.shared, 0);
    let answer = session.answer(alloc, basis, actor, command);
    let count = count_entries(session);
    (answer, count)
}

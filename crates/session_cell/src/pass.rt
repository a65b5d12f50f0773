// A pass, and how passes are dealt out and gathered.
ghost use Rattle.std.specs.Prelude.{◌≡◌, ◌+◌, ◌-◌, ◌*◌, ◌^◌, ◌<◌, ◌≤◌, ◌++◌, ◌∷◌, [], List, length, true, IfOk, vec_len, vec_capacity};
ghost use Rattle.cell_rule.specs.declared.view.Hand.{Hand};
ghost use Rattle.cell_rule.specs.Views.{first_view, opening, waiting, gathered, newcomer};
ghost use Rattle.cell_rule.specs.Stops.{stop_view, stop_gathered};
ghost use Rattle.cell_rule.specs.declared.stop.StopHand.{StopHand};
ghost use Rattle.session_cell.specs.Passes.{passes_from_one, hands_of, stop_hands_of, AreOfTable, AreOfStops};

use crate::inside::count_entries;
use crate::stopping::{split_stop, unite_stop};
use atomic_table::Refused;
use cell_rule::rule::{Deal, Gather, Open, TurnSeat, TurnTable};
use cell_rule::stop::{StopSeat, StopTable};
use choice_set::NoMemory;
use search_core::Session;
use std::alloc::Global;
use std::marker::Model;
use std::snapshot::Snapshot;

/// The right of one actor to call the session. Contracts see what it has seen and made, and the greatest stop round that it
/// set or loaded.
#[derive(Drop)]
pub struct Pass {
    pub(crate) actor: u32,
    pub(crate) seat: TurnSeat,
    pub(crate) stop: StopSeat,
}

impl Model for Pass {
    ghost use Rattle.std.specs.Prelude.{◌≡◌, ◌==◌, []};
    ghost use Rattle.cell_rule.specs.Stops.{stop_view};
    ghost use Rattle.cell_rule.specs.Views.{waiting, entries_by};
    ghost use Rattle.session_cell.specs.Passes as model;

    ghost Value = { model.Pass };

    ghost view = { λ p. record { table = p.seat.table_id; stops = p.stop.table_id; hand = p.seat.me.0.own; stop = p.stop.me.0.own.value } };

    ghost invariant = { λ p. (p.seat.me ≡ (waiting p.seat.me.0.own, [])) × (p.actor ≡ p.seat.me.0.own.actor) × (p.stop.me ≡ (stop_view p.stop.me.0.own.value (p.seat.me.0.own.actor == 0), [])) × (p.seat.me.0.own.made ≡ entries_by p.seat.me.0.own.actor p.seat.me.0.own.seen) };
}

impl Pass {
    /// The actor that the pass stands for.
    pub fn actor(&self) -> u32
        ensures { result ≡ self.now.hand.actor }
    {
        self.actor
    }
}

// The table with the session, held by its first seat, and how many entries the history has.
pub(crate) fn lay(alloc: Global, session: Session) -> Result<(TurnTable, TurnSeat, u64), NoMemory>
    ensures table { IfOk result (λ t. (t.0.shared.table_id.words ≡ 1) × (t.0.shared.table_id.slots ≡ 1) × (t.0.shared.key.value ≡ session)) }
    ensures seat { IfOk result (λ t. (t.1.table_id ≡ t.0.shared.table_id) × (t.1.me ≡ (first_view session, []))) }
    ensures count { IfOk result (λ t. (t.2 ≡ length session.history) × (t.2 < 2 ^ 63)) }
    ensures actors { IfOk result (λ _. 0 < session.setting.actors) }
{
    let about = Snapshot::of(&session);
    let count = count_entries(&session);
    let Ok(mut slots) = Vec::with_capacity(alloc, 1) else {
        return Err(NoMemory);
    };
    slots.push_reserved(session);
    match TurnTable::new(alloc, &[2 * count + 1], slots, &about) {
        Ok((turn, seat)) => Ok((turn, seat, count)),
        Err(Refused { slots: _ }) => Err(NoMemory),
    }
}

// Frees the turn for the first time.
pub(crate) fn release_first(turn: &TurnTable, seat: &mut TurnSeat, next: u32, count: u64)
    requires table { (seat.old.table_id ≡ turn.now.shared.table_id) × (turn.now.shared.table_id.words ≡ 1) × (turn.now.shared.table_id.slots ≡ 1) }
    requires seat { seat.old.me ≡ (opening next seat.old.me.0.own, []) }
    requires count { (count ≡ length seat.old.me.0.own.seen) × (count < 2 ^ 63) }
    ensures table { seat.new.table_id ≡ seat.old.table_id }
    ensures seat { seat.new.me ≡ (waiting seat.old.me.0.own, []) }
{
    let _ = next;
    turn.shared.store::<Open>(seat, 0, 2 * count);
}

// Takes in the other seats of both tables.
pub(crate) fn gather(
    turn: &TurnTable,
    stop: &StopTable,
    seat: &mut TurnSeat,
    stop_seat: &mut StopSeat,
    passes: &mut Vec<Pass>,
)
    requires table { (seat.old.table_id ≡ turn.now.shared.table_id) × (turn.now.shared.table_id.words ≡ 1) }
    requires seat { seat.old.me ≡ (waiting seat.old.me.0.own, []) }
    requires passes { AreOfTable turn.now.shared.table_id passes.old.items × AreOfStops stop.now.shared.table_id passes.old.items }
    requires stops { (stop_seat.old.table_id ≡ stop.now.shared.table_id) × (stop.now.shared.table_id.words ≡ 1) }
    requires stop_seat { stop_seat.old.me ≡ (stop_gathered stop_seat.old.me.0.own [], []) }
    ensures table { (seat.new.table_id ≡ seat.old.table_id) × (stop_seat.new.table_id ≡ stop_seat.old.table_id) }
    ensures stops { (h : StopHand) × (js : List StopHand) × (stop_seat.new.me ≡ (stop_gathered h js, [])) × (stop_hands_of passes.old.items ++ stop_seat.old.me.0.own ∷ [] ≡ h ∷ js) }
    ensures seat { (h : Hand) × (js : List Hand) × (seat.new.me ≡ (gathered h js, [])) × (hands_of passes.old.items ++ seat.old.me.0.own ∷ [] ≡ h ∷ js) }
{
    while let Some(pass) = passes.pop() {
        let Pass {
            actor: _,
            seat: other,
            stop: other_stop,
        } = pass;
        turn.shared.join_seat::<Gather>(seat, other);
        unite_stop(stop, stop_seat, other_stop);
    }
}

// Deals seats of both tables to each actor from 1 on.
pub(crate) fn deal(
    turn: &TurnTable,
    stop: &StopTable,
    seat: &mut TurnSeat,
    stop_seat: &mut StopSeat,
    passes: &mut Vec<Pass>,
    actors: u32,
)
    requires table { (seat.old.table_id ≡ turn.now.shared.table_id) × (turn.now.shared.table_id.words ≡ 1) }
    requires stops { (stop_seat.old.table_id ≡ stop.now.shared.table_id) × (stop.now.shared.table_id.words ≡ 1) }
    requires seat { (seat.old.me ≡ (first_view turn.now.shared.key.value, [])) × (stop_seat.old.me ≡ (stop_view 0 true, [])) }
    requires actors { (0 < actors) × (actors ≡ turn.now.shared.key.value.setting.actors) }
    requires passes { (passes.old.items ≡ []) × (actors ≤ vec_capacity passes.old) }
    ensures table { (seat.new.table_id ≡ seat.old.table_id) × (stop_seat.new.table_id ≡ stop_seat.old.table_id) }
    ensures seat { seat.new.me ≡ (opening actors (newcomer turn.now.shared.key.value turn.now.shared.key.value.history 0), []) }
    ensures stop { stop_seat.new.me ≡ (stop_view 0 true, []) }
    ensures passes { passes.new.items ≡ passes_from_one turn.now.shared.table_id stop.now.shared.table_id turn.now.shared.key.value (actors - 1) }
    ensures room { vec_len passes.new < vec_capacity passes.new }
{
    for actor in 1..actors {
        let other = turn.shared.split_seat::<Deal>(seat);
        let other_stop = split_stop(stop, stop_seat);
        passes.push_reserved(Pass {
            actor,
            seat: other,
            stop: other_stop,
        });
    }
}

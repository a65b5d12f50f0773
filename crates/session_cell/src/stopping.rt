// The stop word.
ghost use Rattle.std.specs.Prelude.{◌≡◌, ◌<◌, ◌≤◌, ◌∷◌, [], ℕ, true, false, IfOk};
ghost use Rattle.cell_rule.specs.Stops.{stop_view, stop_gathered, EachStop, FitsStop};

use cell_rule::stop::{Ask, See, StopSeat, StopTable, Tell, Unite};
use choice_set::NoMemory;
use std::alloc::Global;

// The table, and the marked seat.
pub(crate) fn lay_stop(alloc: Global) -> Result<(StopTable, StopSeat), NoMemory>
    ensures table { IfOk result (λ t. (t.0.shared.table_id.words ≡ 1) × (t.1.table_id ≡ t.0.shared.table_id)) }
    ensures slots { IfOk result (λ t. t.0.shared.table_id.slots ≡ 0) }
    ensures seat { IfOk result (λ t. t.1.me ≡ (stop_view 0 true, [])) }
{
    match StopTable::of_words(alloc, &[0], &()) {
        Ok(made) => Ok(made),
        Err(_) => Err(NoMemory),
    }
}

// Sets the word to a greater round.
pub(crate) fn set_stop(stop: &StopTable, seat: &mut StopSeat, round: u64)
    requires table { (seat.old.table_id ≡ stop.now.shared.table_id) × (stop.now.shared.table_id.words ≡ 1) }
    requires marked { seat.old.me ≡ (stop_view seat.old.me.0.own.value true, []) }
    requires later { seat.old.me.0.own.value < round }
    ensures table { seat.new.table_id ≡ seat.old.table_id }
    ensures seat { seat.new.me ≡ (stop_view round true, []) }
{
    stop.shared.store::<Ask>(seat, 0, round);
}

// Loads the word, which the marked seat knows.
pub(crate) fn load_stop(stop: &StopTable, seat: &mut StopSeat) -> u64
    requires table { (seat.old.table_id ≡ stop.now.shared.table_id) × (stop.now.shared.table_id.words ≡ 1) }
    requires single { seat.old.me ≡ (stop_view seat.old.me.0.own.value seat.old.me.0.own.marked, []) }
    ensures table { seat.new.table_id ≡ seat.old.table_id }
    ensures seat { seat.new.me ≡ (stop_view result seat.old.me.0.own.marked, []) }
    ensures later { seat.old.me.0.own.value ≤ result }
    ensures marked { seat.old.me.0.own.marked ≡ true → result ≡ seat.old.me.0.own.value }
{
    stop.shared.load::<See>(seat, 0)
}

// A seat for another actor, which knows as much.
pub(crate) fn split_stop(stop: &StopTable, seat: &mut StopSeat) -> StopSeat
    requires table { (seat.old.table_id ≡ stop.now.shared.table_id) × (stop.now.shared.table_id.words ≡ 1) }
    requires single { seat.old.me ≡ (stop_view seat.old.me.0.own.value seat.old.me.0.own.marked, []) }
    ensures table { (seat.new.table_id ≡ seat.old.table_id) × (result.table_id ≡ seat.old.table_id) }
    ensures same { seat.new.me ≡ seat.old.me }
    ensures new { result.me ≡ (stop_view seat.old.me.0.own.value false, []) }
{
    stop.shared.split_seat::<Tell>(seat)
}

// Takes in another seat.
pub(crate) fn unite_stop(stop: &StopTable, seat: &mut StopSeat, other: StopSeat)
    requires table { (seat.old.table_id ≡ stop.now.shared.table_id) × (stop.now.shared.table_id.words ≡ 1) × (other.table_id ≡ stop.now.shared.table_id) }
    requires gathered { seat.old.me ≡ (stop_gathered seat.old.me.0.own seat.old.me.0.joined, []) }
    requires single { other.me ≡ (stop_view other.me.0.own.value other.me.0.own.marked, []) }
    ensures table { seat.new.table_id ≡ seat.old.table_id }
    ensures seat { seat.new.me ≡ (stop_gathered other.me.0.own (seat.old.me.0.own ∷ seat.old.me.0.joined), []) }
{
    stop.shared.join_seat::<Unite>(seat, other);
}

// Gives the table up: what the seat's actors saw is at most what was asked, which actor 0 knows.
pub(crate) fn close_stop(stop: StopTable, seat: StopSeat)
    requires table { (seat.table_id ≡ stop.shared.table_id) × (stop.shared.table_id.slots ≡ 0) }
    requires gathered { seat.me ≡ (stop_gathered seat.me.0.own seat.me.0.joined, []) }
    ensures { (asked : ℕ) × EachStop (FitsStop asked) (seat.me.0.own ∷ seat.me.0.joined) }
{
    let closed = stop.close_with(seat);
    closed.free();
}

//! The table of the turn: its word says whether the turn is held, its one slot has the session. The steps are types, of which no value is made.
use crate::view::View;
use atomic_table::{Join, Play, Seat, Split, Table, TableRule};
use search_core::Session;
use std::alloc::Global;
use std::snapshot::Snapshot;

/// The rule of the table. Its key is the session at the start.
pub struct Turns;

impl TableRule<Session, View, Snapshot<Session>> for Turns {
    ghost use Rattle.cell_rule.specs.Turns.{IsKept};
    ghost use Rattle.cell_rule.specs.Views.{first_view};

    ghost holds = { λ key. IsKept key.value };

    ghost first = { λ key. first_view key.value };
}

/// A seat tries to take the turn, and with it the session.
pub struct Claim;

impl Play<Session, View> for Claim {
    ghost use Rattle.cell_rule.specs.Turns.{Claims};

    ghost then = { Claims };
}

/// A seat gives the session back, and with it the turn.
pub struct Release;

impl Play<Session, View> for Release {
    ghost use Rattle.cell_rule.specs.Turns.{Releases};

    ghost then = { Releases };
}

/// The first seat frees the turn, once all actors have seats.
pub struct Open;

impl Play<Session, View> for Open {
    ghost use Rattle.cell_rule.specs.Turns.{Opened};

    ghost then = { Opened };
}

/// The first seat gives the next actor a seat of its own.
pub struct Deal;

impl Split<View> for Deal {
    ghost use Rattle.cell_rule.specs.Views.{left_of, right_of};

    ghost left = { left_of };

    ghost right = { right_of };
}

/// A seat stands for another's actors too.
pub struct Gather;

impl Join<View> for Gather {
    ghost use Rattle.cell_rule.specs.Views.{both_of, spent_view};

    ghost both = { both_of };

    ghost spent = { spent_view };
}

pub type TurnTable = Table<Session, View, Snapshot<Session>, Turns, Global>;

pub type TurnSeat = Seat<Session, View>;

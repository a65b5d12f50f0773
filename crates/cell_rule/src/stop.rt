//! The table of the stop word, which has no slot. The seat of actor 0 is marked: it alone sets the word.
use atomic_table::{Join, Play, Seat, Split, Table, TableRule};
use std::alloc::Global;
use std::collections::LinkedList;

/// Of one actor: the greatest round that it set or loaded, and whether it is actor 0. No value of it is made.
pub struct StopHand {
    pub value: u64,
    pub marked: bool,
}

/// What a seat knows of its own actor, and of those whose seats were joined into it. No value of it is made.
pub struct StopView {
    pub own: StopHand,
    pub joined: LinkedList<StopHand>,
    /// Its hands were joined into another's.
    pub spent: bool,
}

/// The rule of the table.
pub struct Stops;

impl TableRule<(), StopView, ()> for Stops {
    ghost use Rattle.std.specs.Prelude.{true};
    ghost use Rattle.cell_rule.specs.Stops.{IsStop, stop_view};

    ghost holds = { λ _. IsStop };

    ghost first = { λ _. stop_view 0 true };
}

/// The marked seat sets the word.
pub struct Ask;

impl Play<(), StopView> for Ask {
    ghost use Rattle.cell_rule.specs.Stops.{Asks};

    ghost then = { Asks };
}

/// A seat loads the word.
pub struct See;

impl Play<(), StopView> for See {
    ghost use Rattle.cell_rule.specs.Stops.{Sees};

    ghost then = { Sees };
}

/// A seat gives another actor a seat of its own, which is not marked.
pub struct Tell;

impl Split<StopView> for Tell {
    ghost use Rattle.std.specs.Prelude.{false};
    ghost use Rattle.cell_rule.specs.Stops.{stop_view};

    ghost left = { λ v. v };

    ghost right = { λ v. stop_view v.own.value false };
}

/// A seat stands for another's actor too.
pub struct Unite;

impl Join<StopView> for Unite {
    ghost use Rattle.cell_rule.specs.Stops.{both_stops, spent_stop};

    ghost both = { both_stops };

    ghost spent = { spent_stop };
}

pub type StopTable = Table<(), StopView, (), Stops, Global>;

pub type StopSeat = Seat<(), StopView>;

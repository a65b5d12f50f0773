//! What a seat at the table knows. No value of these types is made.
use resolver_model::Entry;
use search_core::Session;
use std::collections::LinkedList;

/// Of one actor: the session at the start, what it has seen and made, and whether room is kept for its next answer.
pub struct Hand {
    pub start: Session,
    pub actor: u32,
    pub seen: LinkedList<Entry>,
    pub made: LinkedList<Entry>,
    pub reserved: bool,
}

/// Where a seat stands.
pub enum Stage {
    /// Its hands were joined into another's.
    Spent,
    /// It is between two calls.
    Waits,
    /// It has the turn and the session, which had these rooms.
    Holds(LinkedList<bool>),
    /// It has the turn before the session is shared; this is the number of the next actor.
    Opens(u32),
}

/// What a seat knows of its own actor, and of those whose seats were joined into it.
pub struct View {
    pub stage: Stage,
    pub own: Hand,
    pub joined: LinkedList<Hand>,
}

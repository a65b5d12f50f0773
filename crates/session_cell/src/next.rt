// What comes after a put.
use search_core::Taken;

/// What an actor gets that puts a job and asks for the next leaf in the same turn.
#[derive(Debug, Drop)]
pub enum Next {
    /// The answer to an actor that asks for a leaf.
    Taken(Taken),
    /// The round was asked to stop, or a later one: the greatest so far. No leaf was taken.
    Stopped { value: u64 },
    /// Memory was wanting to take a leaf, and none was taken.
    NoMemory,
}

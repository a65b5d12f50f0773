//! The bytes that the resolver reads and writes: sources, sinks and shelves of files, whose faults are counted.
#![tactic(auto)]

mod adapters;
mod asked;
mod calls;
mod file_shelf;
mod lines;
mod mem_shelf;
mod mem_sink;
mod mem_source;
mod moves;
mod plan;
mod whole;

pub use adapters::{StdinSource, StdoutSink};
pub use calls::{Failed, OpenEnd, Shelf, Sink, Source};
pub use choice_set::NoMemory;
pub use file_shelf::FileShelf;
pub use lines::{LineEnd, LineReader};
pub use mem_shelf::MemShelf;
pub use mem_sink::MemSink;
pub use mem_source::MemSource;
pub use whole::{ReadEnd, WriteFault, read_whole, write_all};

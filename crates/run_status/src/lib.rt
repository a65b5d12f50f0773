//! How a run of the program ends, and how that is told: a line on standard error, and the exit status. A new end begins in
//! `Status` and `specs/Faults.antt`.
#![tactic(auto)]

mod faults;

pub use choice_set::NoMemory;
pub use faults::{exit_number, fault_text};
pub use problem::Which;
pub use resolve_words::UsageFault;
pub use universe_model::{FileKind, InputKind};

/// How a run of the program ends.
#[derive(Clone, Copy, Debug, PartialEq, Eq)]
pub enum Status {
    /// The shown solution was accepted.
    Accepted,
    /// The user quit, or the input ended.
    Ended,
    /// The words of the command line are refused.
    Usage(UsageFault),
    /// A file's text is refused. Lines are counted from 1.
    BadInput {
        file: FileKind,
        line: u64,
        kind: InputKind,
    },
    /// A file or the input could not be read.
    ReadFault,
    /// The output could not be written.
    WriteFault,
    /// There was not enough memory.
    NoMemory,
    /// There is more of something than the program takes; `count` is the least count that exceeds the limit.
    Limit {
        which: Which,
        count: u64,
    },
}

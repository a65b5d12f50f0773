//! All that the program does: from the words of its command line to a report, over a shelf of files, an input and an output. The
//! program itself only makes the real ones. What a run promises stands in `specs/Reports.antt`, and why it ends before its session
//! in `specs/Beginnings.antt`.
#![tactic(auto)]

mod beside;
mod prepared;
mod preparing;
mod run;

pub use beside::{answers_are_free_of_schedule, run_session};
pub use prepared::Prepared;
pub use preparing::prepare;
pub use run::{Report, deliveries_are_minimal, run_alone};
pub use run_status::{
    FileKind, InputKind, NoMemory, Status, UsageFault, Which, exit_number, fault_text,
};

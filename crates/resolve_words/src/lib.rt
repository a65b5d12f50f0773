//! The words of the program's command line, read as its settings by one command of `clap`, or refused.
//!
//! The command's options, defaults and ranges stand in `specs/ProgramCommand.antt` and `src/program_command.rt`, and are proved to
//! be the same.
#![tactic(auto)]

mod ends;
mod program_command;
mod reading;
mod samples;
mod settings;

pub use ends::{SettingsEnd, UsageFault};
pub use reading::read_settings;
pub use settings::Settings;

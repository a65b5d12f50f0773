//! From the settings to the texts that a run stands on: those of the files that they name, or of a generated universe.
//! What the texts are, which files are asked for and why a text was not had stands in `specs/Sources.antt`.
#![tactic(auto)]

mod reading;

pub use reading::read_sources;

/// The texts that a run stands on. The hint file's is empty where none is named.
#[derive(Debug, Drop)]
pub struct Sources {
    pub status: Vec<u8>,
    pub packages: Vec<u8>,
    pub hints: Vec<u8>,
}

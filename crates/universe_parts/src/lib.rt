//! The parts from which the packages, versions and dependencies of a dpkg status file and a packages file are made: the
//! numbers of package names, and whether a version meets an item of a relationship field (Debian Policy, chapters 5 and 7).
#![tactic(auto)]

mod listed;
mod meeting;
mod names;
mod text_table;

pub use listed::{ListedVersion, ReadStanza};
pub use meeting::{is_counted, is_plain, is_provided_by, is_provided_within, is_within};
pub use names::Names;

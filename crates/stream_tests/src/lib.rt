//! A happy path of each public call on files, input and output, and on generated universes.
//!
//! They stand here, and not beside the calls, since a crate that has tests is proved a second time for them.
#![tactic(auto)]

#[cfg(test)]
mod samples;
#[cfg(test)]
mod streams;

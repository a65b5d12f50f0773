//! A happy path of each public call of the program's floor that no stored case shows.
//!
//! They stand here, and not beside the calls, since a crate that has tests is proved a second time for them.
#![tactic(auto)]

#[cfg(test)]
mod asking;
#[cfg(test)]
mod running;

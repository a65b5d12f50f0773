//! A happy path of each public call of the search.
//!
//! They stand here, and not beside the calls, since a crate that has tests is proved a second time for them.
#![tactic(auto)]

#[cfg(test)]
mod alone;
#[cfg(test)]
mod laws;
#[cfg(test)]
mod learning;

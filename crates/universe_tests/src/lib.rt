//! A happy path of each public call on universes, their laws, and the actions over them.
//!
//! They stand here, and not beside the calls, since a crate that has tests is proved a second time for them.
#![tactic(auto)]

#[cfg(test)]
mod actions;
#[cfg(test)]
mod ends;
#[cfg(test)]
mod laws;
#[cfg(test)]
mod universes;

//! A happy path of each public call on lists of stanzas, versions and requirements.
//!
//! They stand here, and not beside the calls, since a crate that has tests is proved a second time for them.
#![tactic(auto)]

#[cfg(test)]
mod crowded;
#[cfg(test)]
mod listed_stanzas;
#[cfg(test)]
mod listed_versions;
#[cfg(test)]
mod meetings;
#[cfg(test)]
mod parts;
#[cfg(test)]
mod requirements;

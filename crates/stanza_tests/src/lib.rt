//! A happy path of each public call on paragraphs, relationship fields, versions and stanzas.
//!
//! They stand here, and not beside the calls, since a crate that has tests is proved a second time for them.
#![tactic(auto)]

#[cfg(test)]
mod paragraphs;
#[cfg(test)]
mod relations;
#[cfg(test)]
mod stanzas;
#[cfg(test)]
mod versions;

//! A happy path of each public call of the crates below the search: texts, sets, problems, costs and rules.
//!
//! They stand here, and not beside the calls, since a crate that has tests is proved a second time for them.
#![tactic(auto)]

#[cfg(test)]
mod choice_sets;
#[cfg(test)]
mod marks_and_caps;
#[cfg(test)]
mod plain_items;
#[cfg(test)]
mod small_problem;
#[cfg(test)]
mod specs;
#[cfg(test)]
mod tables;
#[cfg(test)]
mod words_of_texts;

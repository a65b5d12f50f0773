//! The lowest room: words and lemmas on truth values, lists, rising lists of numbers and orders, which the crates above share.
//!
//! A crate for definitions and proofs alone: no function computes anything. A definition or lemma that two crates need, and
//! that std has not, belongs here.
#![tactic(auto)]

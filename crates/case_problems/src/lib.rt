//! Problems, and what their choices cost, as the stored cases of the search write them: one line each.
//!
//! ```text
//! packages COUNT PRESENT START   so many packages, each with so many versions beside the absent one; START is the place of
//!                                the start version among them, where 0 is absent
//! needs SOURCE TARGET ..         a dependency of a version on one of others
//! wants SOURCE TARGET ..         the same, soft
//! fan SOURCE FIRST LAST STEP     a dependency of a version on each STEPth version from FIRST to LAST
//! chain FIRST LAST TIMES STEP    so many dependencies of each STEPth version from FIRST to before LAST on the one STEP behind it
//! adds CHOICE AMOUNT ..          a level of costs that adds these amounts; all others are 0
//! takes CHOICE AMOUNT ..         the same, of a level that takes the greatest
//! ```
//!
//! Packages come first in the problem wherever their lines stand. Other lines are passed over.
#![tactic(auto)]

mod lines;
mod packages;
mod tables;

pub use basis::Basis;
pub use lines::{at, numbers, set_of};
use packages::read_problem;
use std::alloc::Global;
use tables::read_table;

/// The problem of a text with its costs; nothing where a number is out of range, or memory lacks.
pub fn read_basis(alloc: Global, text: &str) -> Option<Basis> {
    let problem = read_problem(alloc, text)?;
    let choices = problem.versions().checked_add(problem.deps())?;
    let table = read_table(alloc, text, choices)?;
    Some(Basis { problem, table })
}

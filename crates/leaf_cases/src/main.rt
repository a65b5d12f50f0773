//! Stored cases of splits, of open dependencies, and of the order of leaves. A case is a file with a problem in the form of
//! `case_problems`, and with steps `STEP = WANTED`, which are done one after the other; what comes out of each is printed
//! (`nothing` where it cannot be done), and beside it what was wanted, where that is something else. The wanted values come from the definitions, by hand.
//!
//! Steps on the problem alone, where a SET is numbers between blanks:
//!
//! ```text
//! first SET               the least dependency that is open at the set
//! after SET / CHOICE      the same at the set with one more choice, from the list at the set
//! split SET / SET / DEP   the nodes that the node which takes the first set and bars the second is split into
//! branch SET / SET / CHOICE   the same, by a choice
//! ```
//!
//! Steps on the leaves, beginning with leaf 0 and no rules:
//!
//! ```text
//! pick                    what comes next
//! take                    takes the wanted leaf: its number, the leaf that it was split from, what it takes and bars
//! look                    takes the wanted leaf, looks at what comes next, and gives it back
//! back                    gives the first leaf back, where all that are wanted are out
//! expand, expand CHOICE   splits the wanted leaf by its least open dependency, or by the choice
//! reject CHOICE, approve CHOICE, free CHOICE, cap LEVEL MOST, uncap LEVEL   changes the rules
//! shut SET / SET          whether rules and deliveries shut the node
//! give SET                delivers a set
//! line SET / BOUND        learns a line, where BOUND is `given`, `impossible`, or the numbers of a cost
//! bound SET               the strongest bound of the lines within the set
//! search MOST             expands wanted leaves until none is wanted, or so many have been
//! ```
#![tactic(auto)]

mod scene;
mod splits;
mod steps;

use case_problems::read_basis;
use scene::Scene;
use std::alloc::Global;
use std::rt::Files;
use std::{env, fs, io};
use steps::do_step;

// Prints what came out of a step, and what was wanted.
fn print_step(rt: &impl Print, step: &str, found: &str, wanted: &str) -> io::Result<()> {
    if found == wanted {
        println!(rt; "{step} = {found}")
    } else {
        println!(rt; "{step} = {found}, but wanted is {wanted}")
    }
}

// Does the steps of a case.
fn run_steps(rt: &impl Print, alloc: Global, text: &str, mut scene: Scene) -> io::Result<()> {
    for line in text.lines() {
        let Some((step, wanted)) = line.split_once(" = ") else {
            continue;
        };
        match do_step(alloc, &mut scene, step) {
            Some(found) => print_step(rt, step, found.as_str(), wanted)?,
            None => print_step(rt, step, "nothing", wanted)?,
        }
    }
    Ok(())
}

fn run_case<R: Files + AllocGlobal + Print>(rt: &R, name: &str) -> io::Result<()> {
    println!(rt; "== {name}")?;
    let text = fs::read_to_string(rt, name)?;
    let Some(basis) = read_basis(rt.alloc(), text.as_str()) else {
        return println!(rt; "no problem");
    };
    match Scene::new(rt.alloc(), basis) {
        Some(scene) => run_steps(rt, rt.alloc(), text.as_str(), scene),
        None => println!(rt; "no memory"),
    }
}

fn main(rt: HostRuntime) -> io::Result<()> {
    let mut words = env::args(&rt)?;
    let _program = words.next();
    for name in words {
        run_case(&rt, name.as_str())?;
    }
    Ok(())
}

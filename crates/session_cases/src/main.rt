//! Stored cases of sessions. A case is a file with a problem in the form of `case_problems`, with a line `session SLICE ACTORS`,
//! and with steps `STEP = WANTED`, which are done one after the other; what comes out of each is printed (`nothing` where it
//! cannot be done), and beside it what was wanted, where that is something else. The wanted values come from worked examples.
//!
//! ```text
//! take ACTOR              the actor asks for a leaf; one job at most may be out
//! expand                  what the job that is out is split into: what the children take, of the first five and the last
//! put                     it is split and put
//! back                    it is given back
//! next ACTOR, prev ACTOR, rules ACTOR, summary ACTOR, accept ACTOR, quit ACTOR   the actor's command is answered
//! reject ACTOR CHOICE, approve ACTOR CHOICE, free ACTOR CHOICE                   the same
//! cap ACTOR LEVEL MOST, uncap ACTOR LEVEL                                        the same
//! search ACTOR            the actor asks for the next solution, and takes, splits and puts leaves until it is answered
//! entries                 the kinds of all entries of the history
//! lines                   the lines that were learned
//! ```
#![tactic(auto)]

mod calls;
mod seat;
mod steps;
mod texts;

ghost use Rattle.session_cases.specs.Seats.{Sits};

use case_problems::{at, numbers, read_basis};
use seat::Seat;
use std::alloc::Global;
use std::rt::Files;
use std::{env, fs, io};
use steps::do_step;

// Prints what came out of a step, and what was wanted.
fn print_step(rt: &impl Print, step: &str, found: &str, wanted: &str) -> io::Result<()> {
    if found == wanted {
        println!(rt; "{step} = {found}")
    } else {
        println!(rt; "{step} = {found}, but wanted is {wanted}")
    }
}

// Does the steps of a case, up to the first that cannot be done.
fn run_steps(rt: &impl Print, alloc: Global, text: &str, mut seat: Seat) -> io::Result<()>
    requires { Sits seat }
{
    for line in text.lines() {
        let Some((step, wanted)) = line.split_once(" = ") else {
            continue;
        };
        let Some(found) = do_step(alloc, &mut seat, step) else {
            return print_step(rt, step, "nothing", wanted);
        };
        print_step(rt, step, found.as_str(), wanted)?;
    }
    Ok(())
}

// The slice and the count of actors that a text gives.
fn session_of(alloc: Global, text: &str) -> Option<(u64, u32)> {
    for line in text.lines() {
        if let Some(rest) = line.strip_prefix("session ") {
            let list = numbers(alloc, rest).ok()?;
            return Some((u64::from(at(&list, 0)), at(&list, 1)));
        }
    }
    None
}

fn run_case<R: Files + AllocGlobal + Print>(rt: &R, name: &str) -> io::Result<()> {
    println!(rt; "== {name}")?;
    let text = fs::read_to_string(rt, name)?;
    let text = text.as_str();
    let Some(basis) = read_basis(rt.alloc(), text) else {
        return println!(rt; "no problem");
    };
    let Some((slice, actors)) = session_of(rt.alloc(), text) else {
        return println!(rt; "no session");
    };
    match Seat::new(rt.alloc(), basis, slice, actors) {
        Some(seat) => run_steps(rt, rt.alloc(), text, seat),
        None => println!(rt; "no memory"),
    }
}

fn main(rt: HostRuntime) -> io::Result<()> {
    let mut words = env::args(&rt)?;
    let _program = words.next();
    for name in words {
        run_case(&rt, name.as_str())?;
    }
    Ok(())
}

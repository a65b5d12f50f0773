// The steps of a case.
ghost use Rattle.std.specs.Prelude.{IfSome};
ghost use Rattle.session_cases.specs.Seats.{Sits};

use crate::seat::Seat;
use crate::texts::{answer_text, entries_text, lines_text, put_text};
use case_problems::{at, numbers};
use resolver_model::Command;
use std::alloc::Global;

// The command of a word and the numbers behind it, of which the first is the actor.
fn command_of(word: &str, list: &[u32]) -> Option<Command> {
    match word {
        "next" => Some(Command::Next),
        "prev" => Some(Command::Prev),
        "reject" => Some(Command::Reject(at(list, 1))),
        "approve" => Some(Command::Approve(at(list, 1))),
        "free" => Some(Command::Free(at(list, 1))),
        "cap" => Some(Command::Cap {
            level: at(list, 1),
            most: Some(u64::from(at(list, 2))),
        }),
        "uncap" => Some(Command::Cap {
            level: at(list, 1),
            most: None,
        }),
        "rules" => Some(Command::Rules),
        "summary" => Some(Command::Summary),
        "accept" => Some(Command::Accept),
        "quit" => Some(Command::Quit),
        _ => None,
    }
}

// Answers a command.
fn answer_step(alloc: Global, seat: &mut Seat, actor: u32, command: Command) -> Option<String>
    requires { Sits seat.old }
    ensures { IfSome result (λ _. Sits seat.new) }
{
    let answer = seat.ask(alloc, actor, command)?;
    answer_text(alloc, &answer)
}

// Splits and puts the job that is out.
fn put_step(alloc: Global, seat: &mut Seat) -> Option<String>
    requires { Sits seat.old }
    ensures { IfSome result (λ _. Sits seat.new) }
{
    seat.put(alloc)?;
    put_text(alloc)
}

/// Does a step; nothing where there is no such step, or it cannot be done, and then the seat is not to be used again.
pub fn do_step(alloc: Global, seat: &mut Seat, step: &str) -> Option<String>
    requires { Sits seat.old }
    ensures { IfSome result (λ _. Sits seat.new) }
{
    let (word, rest) = step.split_once(' ').unwrap_or((step, ""));
    let list = numbers(alloc, rest).ok()?;
    let actor = at(&list, 0);
    match word {
        "take" => seat.take(alloc, actor),
        "expand" => seat.show(alloc),
        "put" => put_step(alloc, seat),
        "back" => seat.back(alloc),
        "search" => seat.search(alloc, actor),
        "entries" => entries_text(alloc, seat.history()),
        "lines" => lines_text(alloc, seat.history()),
        _ => {
            let command = command_of(word, &list)?;
            answer_step(alloc, seat, actor, command)
        }
    }
}

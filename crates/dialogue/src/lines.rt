// Lines of the dialogue.
ghost use Rattle.std.specs.Prelude.{◌≡◌, ◌∷◌, []};
ghost use Rattle.ascii.specs.Texts.{words};
ghost use Rattle.resolver_model.specs.Answers.{NamesChoice};
ghost use Rattle.universe_model.specs.Universes.{IsProblemOf};
ghost use Rattle.universe_model.specs.Tokens.{choice_of};
ghost use Rattle.dialogue.specs.Lines.{command_of, command_by, said_by, alone, with_token, marking, marking_of, bad_token, cap_of, cap_with, level_of, most_of};

use crate::numbers::{read_level, read_most};
use crate::verbs::{Verb, read_verb};
use ascii::next_word;
use problem::Problem;
use resolver_model::{BadLine, Command, Mark};
use universe::{TokenFault, Universe};

// The command, if no word follows.
fn alone(said: Command, rest: &[u8]) -> Command
    ensures { result ≡ alone said (words rest.now) }
{
    match next_word(rest) {
        None => said,
        Some(_) => Command::Bad(BadLine::Words),
    }
}

fn marking(mark: Mark, choice: u32) -> Command
    ensures { result ≡ marking mark choice }
{
    match mark {
        Mark::Free => Command::Free(choice),
        Mark::Approved => Command::Approve(choice),
        Mark::Rejected => Command::Reject(choice),
    }
}

fn bad_token(fault: TokenFault) -> BadLine
    ensures { result ≡ bad_token fault }
{
    match fault {
        TokenFault::NotAToken => BadLine::NotAToken,
        TokenFault::NoSuchPackage => BadLine::NoSuchPackage,
        TokenFault::NoSuchVersion => BadLine::NoSuchVersion,
        TokenFault::NotAChoice => BadLine::NotAChoice,
    }
}

// A mark on the choice that was found, or why none was.
fn marking_of(mark: Mark, found: Result<u32, TokenFault>) -> Command
    ensures { result ≡ marking_of mark found }
{
    match found {
        Ok(choice) => marking(mark, choice),
        Err(fault) => Command::Bad(bad_token(fault)),
    }
}

// A mark on the choice that the one following word names.
fn with_token(universe: &Universe, problem: &Problem, mark: Mark, rest: &[u8]) -> Command
    requires { IsProblemOf universe.now problem.now }
    ensures { result ≡ with_token universe.now problem.now mark (words rest.now) }
{
    let Some((token, behind)) = next_word(rest) else {
        return Command::Bad(BadLine::Words);
    };
    match next_word(behind) {
        None => marking_of(mark, universe.choice_of(problem, token)),
        Some(_) => Command::Bad(BadLine::Words),
    }
}

// A cap by its two words.
fn cap_by(level: &[u8], most: &[u8]) -> Command
    ensures { result ≡ cap_of (level.now ∷ most.now ∷ []) }
{
    match (read_level(level), read_most(most)) {
        (Some(level), Some(most)) => Command::Cap { level, most },
        _ => Command::Bad(BadLine::NotACap),
    }
}

// A cap by the two following words.
fn cap_of(rest: &[u8]) -> Command
    ensures { result ≡ cap_of (words rest.now) }
{
    let Some((level, behind)) = next_word(rest) else {
        return Command::Bad(BadLine::Words);
    };
    let Some((most, end)) = next_word(behind) else {
        return Command::Bad(BadLine::Words);
    };
    match next_word(end) {
        None => cap_by(level, most),
        Some(_) => Command::Bad(BadLine::Words),
    }
}

fn said_by(universe: &Universe, problem: &Problem, verb: Verb, rest: &[u8]) -> Command
    requires { IsProblemOf universe.now problem.now }
    ensures { result ≡ said_by universe.now problem.now verb (words rest.now) }
{
    match verb {
        Verb::Plain(said) => alone(said, rest),
        Verb::Marking(mark) => with_token(universe, problem, mark, rest),
        Verb::Capping => cap_of(rest),
    }
}

// The command of a line, by its first word and what stands behind it.
fn command_of(universe: &Universe, problem: &Problem, line: &[u8]) -> Command
    requires { IsProblemOf universe.now problem.now }
    ensures { result ≡ command_of universe.now problem.now line.now }
{
    let Some((word, rest)) = next_word(line) else {
        return Command::Bad(BadLine::Unknown);
    };
    match read_verb(word) {
        Some(verb) => said_by(universe, problem, verb, rest),
        None => Command::Bad(BadLine::Unknown),
    }
}

/// The command that a line is, without its newline: its words stand between spaces and tabs. `next`, `prev`, `rules`,
/// `summary`, `accept` and `quit` stand alone; `reject`, `approve` and `free` take the token of a choice of the problem;
/// `cap` takes a level of the cost, counted from 1, and a number or `off`. Any other line is `Bad` with the first kind of
/// `BadLine` that applies. A command names choices of the problem alone. Takes no memory.
pub fn read_command(universe: &Universe, problem: &Problem, line: &[u8]) -> Command
    requires { IsProblemOf universe.now problem.now }
    ensures command { result ≡ command_of universe.now problem.now line.now }
    ensures choice { NamesChoice problem.now result }
{
    command_of(universe, problem, line)
}

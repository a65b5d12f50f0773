// The first words of lines.
ghost use Rattle.std.specs.Prelude.{◌≡◌};
ghost use Rattle.dialogue.specs.Lines.{verb_of};

use resolver_model::{Command, Mark};

/// What the first word of a line asks for.
#[derive(Clone, Copy, Debug, PartialEq, Eq)]
pub enum Verb {
    /// A command that stands alone.
    Plain(Command),
    /// A mark on the choice that a token names.
    Marking(Mark),
    /// A cap on a level of the cost.
    Capping,
}

/// The verb that a word is, if it is one.
pub fn read_verb(word: &[u8]) -> Option<Verb>
    ensures { result ≡ verb_of word.now }
{
    if word == b"next".as_slice() {
        Some(Verb::Plain(Command::Next))
    } else if word == b"prev".as_slice() {
        Some(Verb::Plain(Command::Prev))
    } else if word == b"rules".as_slice() {
        Some(Verb::Plain(Command::Rules))
    } else if word == b"summary".as_slice() {
        Some(Verb::Plain(Command::Summary))
    } else if word == b"accept".as_slice() {
        Some(Verb::Plain(Command::Accept))
    } else if word == b"quit".as_slice() {
        Some(Verb::Plain(Command::Quit))
    } else if word == b"reject".as_slice() {
        Some(Verb::Marking(Mark::Rejected))
    } else if word == b"approve".as_slice() {
        Some(Verb::Marking(Mark::Approved))
    } else if word == b"free".as_slice() {
        Some(Verb::Marking(Mark::Free))
    } else if word == b"cap".as_slice() {
        Some(Verb::Capping)
    } else {
        None
    }
}

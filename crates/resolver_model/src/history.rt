// The entries of a session's history.
use crate::lines::Lines;
use crate::marks::{Caps, Marks};
use choice_set::ChoiceSet;

/// What a leaf of the tree is split by.
#[derive(Clone, Copy, Debug, PartialEq, Eq)]
pub enum By {
    /// A dependency that is open at the leaf, by its number: one child for each resolver that the leaf does not bar.
    Dep(u32),
    /// A choice, by its number: one child takes it, and one bars it.
    Choice(u32),
}

/// Why a line of the dialogue is no command. The first of these that applies is the one that is told.
#[derive(Clone, Copy, Debug, PartialEq, Eq)]
pub enum BadLine {
    /// Its first word names no command.
    Unknown,
    /// The command takes another number of words.
    Words,
    /// The word for a choice has not the form of one.
    NotAToken,
    /// The problem has no package of that name.
    NoSuchPackage,
    /// The package has no such version.
    NoSuchVersion,
    /// The word names no choice: the start version of its package, or a soft dependency that is not there.
    NotAChoice,
    /// The words for a cap have not the form of one.
    NotACap,
}

/// What a user asks of a session, after the "next solution" dialogue of aptitude. Choices are named by their numbers.
#[derive(Clone, Copy, Debug, PartialEq, Eq)]
pub enum Command {
    /// Show the next solution.
    Next,
    /// Show the solution before the shown one.
    Prev,
    /// From now on no solution may have this choice.
    Reject(u32),
    /// From now on each solution has to have this choice.
    Approve(u32),
    /// Take a mark off this choice.
    Free(u32),
    /// From now on a cost may have at most `most` at this level, counted from 0; `None` takes a cap off.
    Cap { level: u32, most: Option<u64> },
    /// Show the marks and the caps.
    Rules,
    /// Show how much has been delivered.
    Summary,
    /// Take the shown solution.
    Accept,
    /// End the dialogue.
    Quit,
    /// A line that is no command.
    Bad(BadLine),
}

/// What a session answers.
#[derive(Debug, Drop)]
pub enum Reply {
    /// A solution is shown: its number, counted from 1 in the order of delivery, and its choices. It is fresh if this
    /// reply delivers it, and else it was delivered before.
    Solution {
        number: u64,
        choices: ChoiceSet,
        fresh: bool,
    },
    /// No solution is left that keeps the rules and has no delivery as a subset.
    NoMore,
    /// The search has not come to an answer in this many steps.
    NotYet {
        steps: u64,
    },
    /// The mark or the cap is set.
    Marked,
    /// The choices that are not free with their marks, and the caps.
    Rules {
        marks: Marks,
        caps: Caps,
    },
    /// How many solutions have been delivered, and how many choices they have in all.
    Summary {
        deliveries: u64,
        choices: u128,
    },
    /// No solution is shown yet.
    NotShown,
    /// The shown solution is the first one.
    AtFirst,
    /// The shown solution breaks the mark on this choice, the least one against it.
    RuledOut {
        choice: u32,
    },
    /// The cost of the shown solution is over the cap of this level, the least such one.
    OverCap {
        level: u32,
    },
    /// The cost has no such level.
    NoLevel,
    /// The shown solution is taken.
    Accepted,
    /// The dialogue ends.
    Ended,
    /// The line was no command, for this reason.
    Misread {
        kind: BadLine,
    },
}

/// One atomic step of a session, by one of its actors. Actors and leaves are named by numbers from 0.
#[derive(Debug, Drop)]
pub enum Entry {
    /// The actor's command was answered.
    Say {
        actor: u32,
        command: Command,
        reply: Reply,
    },
    /// The actor took this leaf of the search tree to work on it.
    Take {
        actor: u32,
        leaf: u64,
    },
    /// The actor split the leaf that it had out, and learned these lines.
    Put {
        actor: u32,
        leaf: u64,
        by: By,
        learned: Lines,
    },
    /// The actor gave the leaf that it had out back unsplit.
    Back {
        actor: u32,
        leaf: u64,
    },
}

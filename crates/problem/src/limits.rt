//! How much one problem may have, and the ends of calls that meet a limit.

use choice_set::NoMemory;

/// How many packages a problem may have.
pub const MOST_PACKAGES: usize = 200_000;

/// How many versions a problem may have, the absent ones included.
pub const MOST_VERSIONS: usize = 1_000_000;

/// How many dependencies a problem may have.
pub const MOST_DEPENDENCIES: usize = 4_000_000;

/// How many targets all dependencies of a problem may have together.
pub const MOST_TARGETS: usize = 16_000_000;

/// What a limit counts.
#[derive(Clone, Copy, Debug, PartialEq, Eq)]
pub enum Which {
    /// The bytes of one file.
    FileBytes,
    /// The packages of a problem.
    Packages,
    /// The versions of a problem, the absent ones included.
    Versions,
    /// The dependencies of a problem.
    Dependencies,
    /// The targets of all dependencies of a problem.
    Targets,
    /// The amount of one choice at one level of a cost.
    LevelAmount,
    /// The bytes of one line.
    LineBytes,
    /// The lines of a dialogue.
    DialogueLines,
}

/// Why a call that makes a part of a problem stopped.
#[derive(Clone, Copy, Debug, PartialEq, Eq)]
pub enum ProblemEnd {
    /// A count would exceed its limit; `count` is the least count that does.
    Limit { which: Which, count: u64 },
    /// There was not enough memory.
    NoMemory,
}

impl From<NoMemory> for ProblemEnd {
    ghost use Rattle.std.specs.Prelude.{◌≡◌};
    ghost use Rattle.problem.specs.declared.limits.ProblemEnd.TheVariants as problem_end;

    ghost from_gives = { λ _ end. end ≡ problem_end.NoMemory };

    fn from(_error: NoMemory) -> ProblemEnd {
        ProblemEnd::NoMemory
    }
}

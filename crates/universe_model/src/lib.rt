//! The words of the contracts that make a dependency problem of a dpkg status file and a packages file, and the faults
//! of what is read for it.
//!
//! The definitions of `specs/` say which packages, versions and dependencies two texts have (Debian Policy, chapters 5
//! and 7), and which text stands for which choice. They judge whole lists of stanzas and versions, and know no table.
#![tactic(auto)]

ghost use Rattle.std.specs.Prelude.{◌≡◌};
ghost use Rattle.universe_model.specs.Faults.{build_end};
ghost use Rattle.universe_model.specs.declared.BuildEnd.TheVariants as ends;

pub use choice_set::NoMemory;
pub use control_file::CtlKind;
pub use problem::{ProblemEnd, Which};
pub use stanza::StanzaKind;
use std::alloc::{AllocError, AllocFailed};

/// The texts that may have a fault.
#[derive(Clone, Copy, Debug, PartialEq, Eq)]
pub enum FileKind {
    /// dpkg's status file.
    Status,
    /// A packages file (Debian Policy 5.3).
    Packages,
    /// A file of hints.
    Hints,
}

/// What a fault of a text is.
#[derive(Clone, Copy, Debug, PartialEq, Eq)]
pub enum InputKind {
    /// A line is none of a control file (Debian Policy 5.1).
    Ctl(CtlKind),
    /// A paragraph is no stanza.
    Stanza(StanzaKind),
    /// A line is no hint.
    Hint(HintKind),
}

/// Why a line is no hint.
#[derive(Clone, Copy, Debug, PartialEq, Eq)]
pub enum HintKind {
    /// Its first word is unknown, or the number of its words is wrong.
    BadHint,
    /// The word that has to be an amount is none.
    BadNumber,
    /// The word that has to be the name of a cost is none.
    BadCostName,
    /// It approves a package, and not one of its versions.
    NeedsVersion,
    /// The word that has to be a token is none.
    NotAToken,
    /// It names no package.
    NoSuchPackage,
    /// It names no version of its package.
    NoSuchVersion,
}

/// Why no problem was made of two texts.
#[derive(Clone, Copy, Debug, PartialEq, Eq)]
pub enum BuildEnd {
    /// A text has a fault, at this line, counted from 1.
    BadInput {
        file: FileKind,
        line: u64,
        kind: InputKind,
    },
    /// A count exceeds its limit; `count` is the least count that does.
    Limit {
        which: Which,
        count: u64,
    },
    /// There was not enough memory.
    NoMemory,
}

impl From<NoMemory> for BuildEnd {
    ghost from_gives = { λ _ end. end ≡ ends.NoMemory };

    fn from(_end: NoMemory) -> BuildEnd {
        BuildEnd::NoMemory
    }
}

impl From<AllocError> for BuildEnd {
    ghost from_gives = { λ _ end. end ≡ ends.NoMemory };

    fn from(_error: AllocError) -> BuildEnd {
        BuildEnd::NoMemory
    }
}

impl<T: Drop> From<AllocFailed<T>> for BuildEnd {
    ghost from_gives = { λ _ end. end ≡ ends.NoMemory };

    fn from(_error: AllocFailed<T>) -> BuildEnd {
        BuildEnd::NoMemory
    }
}

impl From<ProblemEnd> for BuildEnd {
    fn from(end: ProblemEnd) -> BuildEnd
        ensures { result ≡ build_end end }
    {
        match end {
            ProblemEnd::Limit { which, count } => BuildEnd::Limit { which, count },
            ProblemEnd::NoMemory => BuildEnd::NoMemory,
        }
    }
}

/// Why a text names no choice of a problem, in the order in which these are looked for.
#[derive(Clone, Copy, Debug, PartialEq, Eq)]
pub enum TokenFault {
    /// It is none of `name=version`, `name-` and `name=version/K`.
    NotAToken,
    /// No package has the name.
    NoSuchPackage,
    /// The package has no such version.
    NoSuchVersion,
    /// It names a start version, or a group of Recommends that is not there or gave no dependency.
    NotAChoice,
}

// Why a text has no hints, and why choices have no prices.
ghost use Rattle.std.specs.Prelude.{◌≡◌};
ghost use Rattle.hint_file.specs.declared.ends.HintEnd.TheVariants as hint_end;
ghost use Rattle.hint_file.specs.declared.ends.PriceEnd.TheVariants as price_end;

use choice_set::NoMemory;
use problem::Which;
use std::alloc::{AllocError, AllocFailed};
use universe_model::HintKind;

/// Why a text has no hints.
#[derive(Clone, Copy, Debug, PartialEq, Eq)]
pub enum HintEnd {
    /// The first faulty line, counted from 1.
    HintFault { line: u64, kind: HintKind },
    /// There is not enough memory.
    NoMemory,
}

impl From<NoMemory> for HintEnd {
    ghost from_gives = { λ _ end. end ≡ hint_end.NoMemory };

    fn from(_end: NoMemory) -> HintEnd {
        HintEnd::NoMemory
    }
}

impl<T: Drop> From<AllocFailed<T>> for HintEnd {
    ghost from_gives = { λ _ end. end ≡ hint_end.NoMemory };

    fn from(_error: AllocFailed<T>) -> HintEnd {
        HintEnd::NoMemory
    }
}

/// Why choices have no prices.
#[derive(Clone, Copy, Debug, PartialEq, Eq)]
pub enum PriceEnd {
    /// A choice has more at a level than may be; `count` is the least that is too much.
    Limit { which: Which, count: u64 },
    /// There is not enough memory.
    NoMemory,
}

impl From<NoMemory> for PriceEnd {
    ghost from_gives = { λ _ end. end ≡ price_end.NoMemory };

    fn from(_end: NoMemory) -> PriceEnd {
        PriceEnd::NoMemory
    }
}

impl From<AllocError> for PriceEnd {
    ghost from_gives = { λ _ end. end ≡ price_end.NoMemory };

    fn from(_error: AllocError) -> PriceEnd {
        PriceEnd::NoMemory
    }
}

impl<T: Drop> From<AllocFailed<T>> for PriceEnd {
    ghost from_gives = { λ _ end. end ≡ price_end.NoMemory };

    fn from(_error: AllocFailed<T>) -> PriceEnd {
        PriceEnd::NoMemory
    }
}

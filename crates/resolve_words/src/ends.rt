// Why words are refused.
ghost use Rattle.std.specs.Prelude.{◌≡◌};
ghost use Rattle.resolve_words.specs.declared.ends.SettingsEnd.TheVariants as ends;

use choice_set::NoMemory;
use std::alloc::{AllocError, AllocFailed};

/// What is wrong with the words of the command line, in the order in which it is looked for.
#[derive(Clone, Copy, Debug, PartialEq, Eq)]
pub enum UsageFault {
    /// They are not understood.
    Words,
    /// The cost spec is none; its first `at` bytes are its longest prefix that is a prefix of a spec.
    Cost { at: usize },
    /// The architecture is none.
    Arch,
    /// The sample is none.
    Sample,
    /// Neither both files are given and no sample, nor a sample and no file.
    Files,
    /// A word, counted from 0 among the actions, is no action.
    Action { word: usize },
}

/// Why words give no settings.
#[derive(Clone, Copy, Debug, PartialEq, Eq)]
pub enum SettingsEnd {
    /// They are refused.
    Usage(UsageFault),
    /// There is not enough memory.
    NoMemory,
}

impl From<NoMemory> for SettingsEnd {
    ghost from_gives = { λ _ end. end ≡ ends.NoMemory };

    fn from(_end: NoMemory) -> SettingsEnd {
        SettingsEnd::NoMemory
    }
}

impl From<AllocError> for SettingsEnd {
    ghost from_gives = { λ _ end. end ≡ ends.NoMemory };

    fn from(_error: AllocError) -> SettingsEnd {
        SettingsEnd::NoMemory
    }
}

impl<T: Drop> From<AllocFailed<T>> for SettingsEnd {
    ghost from_gives = { λ _ end. end ≡ ends.NoMemory };

    fn from(_error: AllocFailed<T>) -> SettingsEnd {
        SettingsEnd::NoMemory
    }
}

//! Why an automaton file is refused.

ghost use Rattle.std.specs.Prelude.{◌≡◌};
ghost use Rattle.ta_syntax.specs.declared.fault.FileFault.TheVariants.{Memory};

use std::alloc::{AllocError, AllocFailed};
use thiserror::Error;

/// Why an automaton file is refused. The number is the offset of a byte, and that of a rule, counted from 0, for `CycleUpdates`.
#[derive(Clone, Copy, Debug, PartialEq, Eq, Error)]
pub enum FileFault {
    /// F1: a byte at which no token begins.
    #[error("Byte")]
    Byte(u32),
    /// F2: a token with which no text of the grammar goes on, or the file's length where the text ends too early.
    #[error("Syntax")]
    Syntax(u32),
    /// F3: a name that is declared twice in one set, or twice in one list.
    #[error("Duplicate")]
    Duplicate(u32),
    /// F4: a name that is not declared.
    #[error("Unknown")]
    Unknown(u32),
    /// F5: a declared name of a kind that may not stand there.
    #[error("WrongKind")]
    WrongKind(u32),
    /// F6: a number, a coefficient, a constant or a name above its limit.
    #[error("TooLarge")]
    TooLarge(u32),
    /// F7: the token with which a list goes past its limit.
    #[error("TooMany")]
    TooMany(u32),
    /// F8: an opening parenthesis inside 32 open ones.
    #[error("TooDeep")]
    TooDeep(u32),
    /// F9: a guard that is no threshold guard.
    #[error("NotThreshold")]
    NotThreshold(u32),
    /// F11: a rule on a cycle that updates a shared variable. A rule from a location to itself is a cycle.
    #[error("CycleUpdates")]
    CycleUpdates(u32),
    /// F12: no location is initial.
    #[error("NoInitial")]
    NoInitial(u32),
    /// There was no memory.
    #[error("Memory")]
    Memory,
}

impl From<AllocError> for FileFault {
    ghost from_gives = { λ _ e. e ≡ Memory };

    fn from(_e: AllocError) -> FileFault {
        FileFault::Memory
    }
}

impl<T: Drop> From<AllocFailed<T>> for FileFault {
    ghost from_gives = { λ _ e. e ≡ Memory };

    fn from(_e: AllocFailed<T>) -> FileFault {
        FileFault::Memory
    }
}

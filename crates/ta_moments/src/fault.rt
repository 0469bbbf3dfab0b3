//! Why names may not be silent.

ghost use Rattle.std.specs.Prelude.{◌≡◌};
ghost use Rattle.ta_moments.specs.declared.fault.SilentFault.TheVariants.{Memory};

use std::alloc::{AllocError, AllocFailed};
use thiserror::Error;

/// Why names may not be silent. Guards are numbered with the rise guards first.
#[derive(Clone, Copy, Debug, Drop, PartialEq, Eq, Error)]
pub enum SilentFault {
    /// F4: a name that the file doesn't declare.
    #[error("Unknown")]
    Unknown,
    /// F5: the name of a location.
    #[error("WrongKind")]
    WrongKind,
    /// F15: this guard subtracts a silent name, so that it may hold without the name and fail with it.
    #[error("Subtracted")]
    Subtracted(u32),
    /// There was no memory.
    #[error("Memory")]
    Memory,
}

impl From<AllocError> for SilentFault {
    ghost from_gives = { λ _ e. e ≡ Memory };

    fn from(_: AllocError) -> SilentFault {
        SilentFault::Memory
    }
}

impl<T: Drop> From<AllocFailed<T>> for SilentFault {
    ghost from_gives = { λ _ e. e ≡ Memory };

    fn from(_: AllocFailed<T>) -> SilentFault {
        SilentFault::Memory
    }
}

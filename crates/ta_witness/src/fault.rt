//! Why a solution's run can't be given.

ghost use Rattle.std.specs.Prelude.{◌≡◌};
ghost use Rattle.ta_witness.specs.declared.fault.WitnessFault.TheVariants.{Memory};

use std::alloc::{AllocError, AllocFailed};

/// Why a solution's run can't be given.
#[derive(Clone, Copy, Debug, Drop, PartialEq, Eq)]
pub enum WitnessFault {
    /// A number of the run's replay leaves the range.
    Overflow,
    /// There was no memory.
    Memory,
}

impl From<AllocError> for WitnessFault {
    ghost from_gives = { λ _ e. e ≡ Memory };

    fn from(_e: AllocError) -> WitnessFault {
        WitnessFault::Memory
    }
}

impl<T: Drop> From<AllocFailed<T>> for WitnessFault {
    ghost from_gives = { λ _ e. e ≡ Memory };

    fn from(_e: AllocFailed<T>) -> WitnessFault {
        WitnessFault::Memory
    }
}

//! Why solving was given up.
#![tactic(auto)]

use std::alloc::{AllocError, AllocFailed};

/// Why solving was given up: a pivot left the range, or memory ran out.
#[derive(Clone, Copy, Debug, PartialEq, Eq)]
pub enum SolveFault {
    /// The number of the pivot, which stands still at its type's end.
    Overflow(u64),
    Memory,
}

impl From<AllocError> for SolveFault {
    ghost use Rattle.std.specs.Prelude.{◌≡◌};
    ghost use Rattle.ta_simplex.specs.declared.fault.SolveFault.TheVariants.{Memory};

    ghost from_gives = { λ _ e. e ≡ Memory };

    fn from(_e: AllocError) -> SolveFault {
        SolveFault::Memory
    }
}

impl<T: Drop> From<AllocFailed<T>> for SolveFault {
    ghost use Rattle.std.specs.Prelude.{◌≡◌};
    ghost use Rattle.ta_simplex.specs.declared.fault.SolveFault.TheVariants.{Memory};

    ghost from_gives = { λ _ e. e ≡ Memory };

    fn from(_e: AllocFailed<T>) -> SolveFault {
        SolveFault::Memory
    }
}

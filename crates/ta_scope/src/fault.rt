//! Why a file is out of scope.
#![tactic(auto)]

ghost use Rattle.std.specs.Prelude.{◌≡◌};
ghost use Rattle.ta_scope.specs.declared.fault.ScopeFault.TheVariants.{Memory};

use std::alloc::{AllocError, AllocFailed};

/// Why a file is out of scope. `CycleUpdates` has the number of the first rule in file order that
/// lies on a cycle and has an update, counted from 0.
#[derive(Clone, Copy, Debug, Drop, PartialEq, Eq)]
pub enum ScopeFault {
    CycleUpdates(u32),
    Memory,
}

impl From<AllocError> for ScopeFault {
    ghost from_gives = { λ _ e. e ≡ Memory };

    fn from(_e: AllocError) -> ScopeFault {
        ScopeFault::Memory
    }
}

impl<T: Drop> From<AllocFailed<T>> for ScopeFault {
    ghost from_gives = { λ _ e. e ≡ Memory };

    fn from(_e: AllocFailed<T>) -> ScopeFault {
        ScopeFault::Memory
    }
}

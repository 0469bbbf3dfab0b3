//! Why runs of an automaton need not reach a deadlock.
#![tactic(auto)]

ghost use Rattle.std.specs.Prelude.{◌≡◌};
ghost use Rattle.ta_rest.specs.declared.fault.RestFault.TheVariants.{Memory};

use std::alloc::{AllocError, AllocFailed};

/// Why a file has no endings. `Cycle` has the number of the first rule in file order that lies on a
/// cycle of two or more locations, counted from 0.
#[derive(Clone, Copy, Debug, Drop, PartialEq, Eq)]
pub enum RestFault {
    Cycle(u32),
    Memory,
}

impl From<AllocError> for RestFault {
    ghost from_gives = { λ _ e. e ≡ Memory };

    fn from(_e: AllocError) -> RestFault {
        RestFault::Memory
    }
}

impl<T: Drop> From<AllocFailed<T>> for RestFault {
    ghost from_gives = { λ _ e. e ≡ Memory };

    fn from(_e: AllocFailed<T>) -> RestFault {
        RestFault::Memory
    }
}

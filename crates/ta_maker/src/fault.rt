//! Why an automaton of the family can't be made.
#![tactic(auto)]

ghost use Rattle.std.specs.Prelude.{◌≡◌};
ghost use Rattle.ta_maker.specs.declared.fault.MakerFault.TheVariants.{Memory};

use std::alloc::AllocError;
use thiserror::Error;

/// Why an automaton of the family can't be made.
#[derive(Clone, Copy, Debug, Drop, Error)]
pub enum MakerFault {
    /// The number is none of 1 to 7.
    #[error("Range")]
    Range,
    /// There was no memory.
    #[error("Memory")]
    Memory,
}

impl From<AllocError> for MakerFault {
    ghost from_gives = { λ _ e. e ≡ Memory };

    fn from(_e: AllocError) -> MakerFault {
        MakerFault::Memory
    }
}

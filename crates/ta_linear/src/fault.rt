//! The errors of this crate.
#![tactic(auto)]

use std::alloc::{AllocError, AllocFailed};
use thiserror::Error;

/// Why a form or a row couldn't be made.
#[derive(Debug, Drop, Error)]
pub enum LinearFault {
    #[error("Overflow")]
    /// A number of the result leaves the range.
    Overflow,
    /// There was no memory.
    #[error("Memory")]
    Memory,
}

/// A number left the range on the way to a value.
#[derive(Debug, Clone, Copy, Drop)]
pub struct OutOfRange;

impl<T: Drop> From<AllocFailed<T>> for LinearFault {
    ghost use Rattle.std.specs.Prelude.{◌≡◌};
    ghost use Rattle.ta_linear.specs.declared.fault.LinearFault.TheVariants.{Memory};

    ghost from_gives = { λ _ e. e ≡ Memory };

    fn from(_e: AllocFailed<T>) -> LinearFault {
        LinearFault::Memory
    }
}

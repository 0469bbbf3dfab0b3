//! Why a run isn't compressed.
#![tactic(auto)]

ghost use Rattle.std.specs.Prelude.{◌≡◌};
ghost use Rattle.ta_compress.specs.declared.fault.CompressFault.TheVariants.{Memory};

use std::alloc::{AllocError, AllocFailed};
use ta_replay::RunFault;

/// Why a run isn't compressed.
#[derive(Clone, Copy, Debug, Drop)]
pub enum CompressFault {
    /// An error of the replay, or N11 for a guard of the file that the replay may not need.
    Replay(RunFault),
    /// N13: the factors add up to more than 1,000,000. It has the sum, or 2^127 - 1 where the sum is larger.
    TooManySteps(i128),
    /// There was no memory.
    Memory,
}

impl From<AllocError> for CompressFault {
    ghost from_gives = { λ _ e. e ≡ Memory };

    fn from(_e: AllocError) -> CompressFault {
        CompressFault::Memory
    }
}

impl<T: Drop> From<AllocFailed<T>> for CompressFault {
    ghost from_gives = { λ _ e. e ≡ Memory };

    fn from(_e: AllocFailed<T>) -> CompressFault {
        CompressFault::Memory
    }
}

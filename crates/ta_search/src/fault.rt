//! Why a text is no template.

ghost use Rattle.std.specs.Prelude.{◌≡◌};
ghost use Rattle.ta_search.specs.declared.fault.TemplateFault.TheVariants.{Memory};

use std::alloc::{AllocError, AllocFailed};
use thiserror::Error;

/// Why a text is no template. Lines are counted from 1.
#[derive(Clone, Copy, Debug, PartialEq, Eq, Error)]
pub enum TemplateFault {
    /// S1: a line up to `begin` of another form, or the line that is unfinished or absent where the text ends before the line feed of `begin`.
    #[error("Line")]
    Line(u32),
    /// S2: the line of a hole whose name stands before.
    #[error("Repeated")]
    Repeated(u32),
    /// S3: the line of a hole whose lower number is above its upper one, or whose upper number is above 1,000,000,000.
    #[error("Range")]
    Range(u32),
    /// S4: the line of a fifth hole, or the one with which the number of choices passes 10,000.
    #[error("TooMany")]
    TooMany(u32),
    /// S5: the offset, in the whole text, of the first `$` of the body without a hole's name behind it.
    #[error("UnknownHole")]
    UnknownHole(u32),
    /// There was no memory.
    #[error("Memory")]
    Memory,
}

impl From<AllocError> for TemplateFault {
    ghost from_gives = { λ _ e. e ≡ Memory };

    fn from(_e: AllocError) -> TemplateFault {
        TemplateFault::Memory
    }
}

impl<T: Drop> From<AllocFailed<T>> for TemplateFault {
    ghost from_gives = { λ _ e. e ≡ Memory };

    fn from(_e: AllocFailed<T>) -> TemplateFault {
        TemplateFault::Memory
    }
}

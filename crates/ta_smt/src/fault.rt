//! Why a file hasn't a word, and why values give no run.

ghost use Rattle.std.specs.Prelude.{◌≡◌};
ghost use Rattle.ta_smt.specs.declared.fault.AdmitFault.TheVariants.{Memory};

use std::alloc::{AllocError, AllocFailed};

/// Why a file hasn't a word that is spelled by names and numbers.
#[derive(Clone, Copy, Debug, Drop, PartialEq, Eq)]
pub enum WordFault {
    /// No pattern has the name.
    Pattern,
    /// The start set names a fall guard that isn't there.
    Start,
    /// This element, from 0, is no child of those before it.
    Element(u32),
    /// The word has not each event of the pattern.
    Incomplete,
}

/// Why values give no run. Lines are counted from 1, rows from 0.
#[derive(Clone, Copy, Debug, Drop, PartialEq, Eq)]
pub enum AdmitFault {
    /// The word has not each event of the pattern.
    Incomplete,
    /// This line is no natural number below 2^127 without zeros in front, or isn't finished.
    Line(u64),
    /// There are so many lines, not one for each unknown.
    Count(u64),
    /// This row is false.
    Row(u32),
    /// A number of this row's evaluation leaves the range.
    Overflow(u32),
    /// A number of the run's replay leaves the range.
    Run,
    /// There was no memory.
    Memory,
}

impl From<AllocError> for AdmitFault {
    ghost from_gives = { λ _ e. e ≡ Memory };

    fn from(_e: AllocError) -> AdmitFault {
        AdmitFault::Memory
    }
}

impl<T: Drop> From<AllocFailed<T>> for AdmitFault {
    ghost from_gives = { λ _ e. e ≡ Memory };

    fn from(_e: AllocFailed<T>) -> AdmitFault {
        AdmitFault::Memory
    }
}

//! Why a run is refused.

ghost use Rattle.std.specs.Prelude.{◌≡◌};
ghost use Rattle.ta_replay.specs.declared.fault.RunFault.TheVariants.{Memory};

use std::alloc::{AllocError, AllocFailed};
use thiserror::Error;

/// Why a run is refused. A line is counted from 1; guards are numbered with the rise guards first.
#[derive(Clone, Copy, Debug, Drop, Error)]
pub enum RunFault {
    /// N1: a line of another form or out of its place, a text that ends before the line feed of `end`, or a byte after it.
    #[error("Line")]
    Line(u64),
    /// N2: a name that isn't the one expected, or no pattern, rule or event of the file.
    #[error("Name")]
    Name(u64),
    /// N3: this comparison of the resilience condition is false.
    #[error("Resilience")]
    Resilience(u32),
    /// N4: the start counts don't add up to the number of processes.
    #[error("Processes")]
    Processes,
    /// N5: this comparison of the start condition is false.
    #[error("Start")]
    Start(u32),
    /// N6: a location that is to be kept empty isn't.
    #[error("NotEmpty")]
    NotEmpty(u64),
    /// N7: a guard of the rule is false.
    #[error("Guard")]
    Guard { line: u64, guard: u32 },
    /// N8: too few processes are at the rule's source.
    #[error("Count")]
    Count(u64),
    /// N9: the condition of a marked event is false.
    #[error("Event")]
    Event(u64),
    /// N10: this event has no mark.
    #[error("MissingEvent")]
    MissingEvent(u32),
    /// N11: a number leaves the range.
    #[error("Overflow")]
    Overflow(u64),
    /// N12: an event is marked twice, or before one that it comes after.
    #[error("Order")]
    Order(u64),
    /// There was no memory.
    #[error("Memory")]
    Memory,
}

impl From<AllocError> for RunFault {
    ghost from_gives = { λ _ e. e ≡ Memory };

    fn from(_e: AllocError) -> RunFault {
        RunFault::Memory
    }
}

impl<T: Drop> From<AllocFailed<T>> for RunFault {
    ghost from_gives = { λ _ e. e ≡ Memory };

    fn from(_e: AllocFailed<T>) -> RunFault {
        RunFault::Memory
    }
}

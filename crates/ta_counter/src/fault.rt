//! Why a configuration couldn't be made, or a step taken.
#![tactic(auto)]

ghost use Rattle.std.specs.Prelude.{◌≡◌};
ghost use Rattle.ta_counter.specs.declared.fault.StartFault.TheVariants.{OutOfRange};

/// Why there is no configuration to start with. `Resilience` has the number of the first comparison
/// of the resilience condition that is false; `Processes` says that the start counts don't add up to
/// the number of processes; `OutOfRange`, that a number of the checks leaves the range. A configuration
/// takes no memory.
#[derive(Clone, Copy, Debug, Drop, PartialEq, Eq)]
pub enum StartFault {
    Resilience(u32),
    Processes,
    OutOfRange,
}

/// Why a step isn't taken. `Count` says that too few processes are at the rule's source; `OutOfRange`
/// has the place of an updated shared variable, or the number of all places plus a guard's number;
/// `Guard` has a guard's number. Rise guards are numbered first, then fall guards.
#[derive(Clone, Copy, Debug, Drop, PartialEq, Eq)]
pub enum StepFault {
    Count,
    OutOfRange(u32),
    Guard(u32),
}

impl From<ta_linear::OutOfRange> for StartFault {
    ghost from_gives = { λ _ e. e ≡ OutOfRange };

    fn from(_e: ta_linear::OutOfRange) -> StartFault {
        StartFault::OutOfRange
    }
}

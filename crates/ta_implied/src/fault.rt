//! Why a pair of guards is refused.
#![tactic(auto)]

use std::alloc::AllocError;
use ta_farkas::LeafFault;

/// A pair of guards doesn't join others.
#[derive(Clone, Copy, Debug, PartialEq, Eq)]
pub enum OrderFault {
    /// One of the two is no rise guard, they are the same, the pair stands already, or it closes a
    /// chain of pairs.
    Pair,
    /// The multipliers are no leaf of the pair's system, or a leaf whose check leaves the range.
    Leaf(LeafFault),
    Memory,
}

impl From<AllocError> for OrderFault {
    ghost use Rattle.std.specs.Prelude.{◌≡◌};
    ghost use Rattle.ta_implied.specs.declared.fault.OrderFault.TheVariants.{Memory};

    ghost from_gives = { λ _ e. e ≡ Memory };

    fn from(_e: AllocError) -> OrderFault {
        OrderFault::Memory
    }
}

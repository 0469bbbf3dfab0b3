//! How a visit of moments ends.
#![tactic(auto)]

use crate::PlaceKind;
use ta_replay::Run;

/// How a visit of the moments of a pattern ends whose nodes were handed on as they came. Nodes are
/// counted from 1, over all candidates, in the order of the visit.
#[derive(Drop)]
pub enum MomentEnd {
    /// The trees have so many nodes, of which so many are leaves, and they are a proof of the pattern.
    Refuted { count: u64, leaves: u64 },
    /// The node of this number is the first whole one, and this is its run, which shows the pattern.
    Found { count: u64, run: Run },
    /// These many nodes were visited, and the trees have more.
    Spent { count: u64 },
    /// At the node of this number a number left 128 bits.
    Overflow { node: u64, kind: PlaceKind },
}

//! The tree of a claim on a pattern: its schemas, for safety or for safety at rest.
#![tactic(auto)]

use crate::claim::Claim;
use ta_implied::Orders;
use ta_words::NarrowTask;

/// The words that are refuted for a claim on a pattern, and their systems: the pattern's words under
/// pairs of rise guards, or its words of rest, which are under none.
#[derive(Clone, Copy)]
pub struct ClaimTree<'a> {
    pub(crate) claim: Claim,
    /// The pattern's number, from 0, in its file.
    pub number: u32,
    pub(crate) task: NarrowTask<'a>,
    pub(crate) orders: &'a Orders,
}

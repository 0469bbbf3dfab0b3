//! Where a certificate is being read: all that the checker knows behind a line.
//!
//! In the definitions a standing has the list of the nodes that are left to be refuted. Here the
//! next node and the open nodes above it (ta_encode) stand for that list, so a deep tree costs
//! memory for its depth alone. The rows of the last leaf are kept, and those of the next one
//! written on from them; no result depends on them.
#![tactic(auto)]

ghost use Rattle.ta_check.specs.Lines.{first_standing};
ghost use Rattle.ta_check.specs.Positions.{IsPositionAt};
ghost use Rattle.ta_check.specs.Subjects.{Subject};

use std::alloc::Global;
use ta_encode::{Encoding, Place};
use ta_implied::Orders;
use ta_moment_tree::MomentKept;
use ta_moments::Fact;
use ta_words::Element;

/// Where a certificate is being read.
#[derive(Drop)]
pub(crate) struct Position<'a> {
    /// The version in the first line, or 3 before it.
    pub version: u8,
    /// The pairs of rise guards that were shown.
    pub orders: Orders,
    /// The pair, the guard before and the one after, whose leaf is still to come.
    pub waiting: Option<(u32, u32)>,
    /// The patterns whose proofs began, in the certificate's order.
    pub proved: Vec<u32>,
    /// The pattern whose proof is being read.
    pub current: Option<u32>,
    /// The node whose line comes next, where proofs are of words. Between two proofs it is any.
    pub words: Place<Element>,
    /// The rows of the word of the last leaf of the proof that is being read, so that those of the
    /// next are written on from them. No answer depends on them.
    pub encoding: Encoding,
    /// The node whose line comes next, where proofs are of moments.
    pub moments: Place<Fact>,
    /// The node of moments of the last leaf.
    pub kept: MomentKept<'a>,
}

impl<'a> Position<'a> {
    /// The position before the first line. It takes no memory.
    pub fn new(alloc: Global) -> Position<'a>
        ensures { (subject : Subject) → IsPositionAt subject result first_standing }
    {
        Position {
            version: 3,
            orders: Orders::new(),
            waiting: None,
            proved: Vec::new(alloc),
            current: None,
            words: Place::new(alloc),
            encoding: Encoding::new(alloc),
            moments: Place::new(alloc),
            kept: MomentKept::nothing(alloc),
        }
    }
}

//! What is kept of the node whose system was written last: its facts, rows and marks.
#![tactic(auto)]

ghost use Rattle.std.specs.Prelude.{◌≡◌, None, option_copied};

use crate::{MomentEncoding, NodeMark};
use std::alloc::Global;
use ta_base::List;
use ta_linear::System;
use ta_moments::Fact;

/// The node whose system was written last, with its facts and the marks of the nodes above it, so that
/// another node is written on from what both share. At first there is none.
#[derive(Drop)]
pub struct MomentKept<'a> {
    pub(crate) start: u8,
    pub(crate) facts: Vec<Fact>,
    /// The marks after so many facts, from none on.
    pub(crate) marks: Vec<NodeMark>,
    pub(crate) node: Option<MomentEncoding<'a>>,
    pub system: System,
}

impl<'a> MomentKept<'a> {
    /// No node, and the system of nothing. It takes no memory.
    pub fn nothing(alloc: Global) -> MomentKept<'a>
        ensures { result.node ≡ None }
    {
        MomentKept {
            start: 0,
            facts: Vec::new(alloc),
            marks: Vec::new(alloc),
            node: None,
            system: System {
                unknowns: 0,
                rows: List::from_vec(Vec::new(alloc)),
            },
        }
    }

    /// The node, without bounds.
    pub fn node(&self) -> Option<&MomentEncoding<'a>>
        ensures { option_copied result ≡ self.now.node }
    {
        self.node.as_ref()
    }
}

//! A cursor: the node that comes next in one tree, and the open nodes above it.
//!
//! The facts and the bounds of the next node are two lists that grow and shrink like stacks. A
//! frame has their lengths at its node, so going back to an open node cuts both.
#![tactic(auto)]

ghost use Rattle.std.specs.Prelude.{◌≡◌, []};
ghost use Rattle.ta_encode.specs.Cursors.{IsAtRoot, node_at};

use crate::Bound;
use crate::ask::Inner;
use std::alloc::Global;

/// An inner node that is open: some of its trees are still to come.
#[derive(Clone, Copy)]
pub struct Frame {
    /// What it does.
    pub inner: Inner,
    /// The number of its facts.
    pub length: usize,
    /// The number of its bounds.
    pub bounds: usize,
    /// The number, from 0, of the child that is being read.
    pub next: u32,
}

/// Where the tree of a search is being read or made, its nodes in preorder. The start, the facts and
/// the bounds are those of the node that comes next.
#[derive(Drop)]
pub struct Cursor<F: Copy + Drop> {
    pub(crate) start: u8,
    /// The facts, in the order in which they were added.
    pub(crate) facts: Vec<F>,
    pub(crate) bounds: Vec<Bound>,
    /// The inner nodes that are open, the innermost last.
    pub(crate) frames: Vec<Frame>,
}

impl<F: Copy + Drop> Cursor<F> {
    /// The cursor at the first node of the tree of a start, without facts. It takes no memory.
    pub fn new(alloc: Global, start: u8) -> Cursor<F>
        ensures { IsAtRoot result (node_at start [] []) }
    {
        Cursor {
            start,
            facts: Vec::new(alloc),
            bounds: Vec::new(alloc),
            frames: Vec::new(alloc),
        }
    }

    /// The start of the node that comes next: of words, the fall guards that are false at the start,
    /// bit j for fall guard j.
    pub fn start(&self) -> u8
        ensures { result ≡ self.now.start }
    {
        self.start
    }

    /// The facts of the node that comes next.
    pub fn facts(&self) -> &[F]
        ensures { result.now ≡ self.now.facts.items }
    {
        self.facts.as_slice()
    }

    /// The bounds of the node that comes next.
    pub fn bounds(&self) -> &[Bound]
        ensures { result.now ≡ self.now.bounds.items }
    {
        self.bounds.as_slice()
    }

    /// The facts of the node that comes next, as a value.
    pub fn into_facts(self) -> Vec<F>
        ensures { result ≡ self.facts }
    {
        self.facts
    }
}

//! What the tree of a search is: what the walk and the judge ask of the nodes that are refuted.
#![tactic(auto)]

use crate::Bound;
use crate::ask::Ask;
use std::alloc::{AllocError, Global};
use ta_linear::System;

/// A system as it is kept, and how many of its rows, from the first on, are those of the one that
/// was kept before.
#[derive(Drop)]
pub struct Written<K: Drop> {
    pub kept: K,
    pub same: usize,
}

/// The nodes of a search, and their systems. A node has a start and facts, each of which answers what
/// a node above it asked.
pub trait Tree {
    ghost use Rattle.std.specs.Prelude.{ℕ, ◌<◌, ◌≤◌, ◌≡◌, ◌^◌, ◌∷◌, [], true, IfOk, IfSome, List, reverse, slice_get};
    ghost use Rattle.ta_linear.specs.declared.row.System.{System};
    ghost use Rattle.ta_encode.specs.Code.{SystemAt};
    ghost use Rattle.ta_encode.specs.Lines.{BoundsWithin};
    ghost use Rattle.ta_encode.specs.Marks.{SameRows};
    ghost use Rattle.ta_encode.specs.Search.{Comes, Search, answered};
    ghost use Rattle.ta_encode.specs.Asking.{ask_node};
    ghost use Rattle.ta_encode.specs.Cursors.{node_at};
    ghost use Rattle.ta_encode.specs.TreeCalls.{AnswerIs, IsRoot, IsSmall, TellsMayAsk};

    /// What is added to a node at a time: of words, an element.
    type Fact: Copy + Drop;

    /// The system that was written last, with what it takes to write another from it.
    type Kept: Drop;

    ghost search: { Self → Search Self.Fact };

    ghost is_kept: { Self → Self.Kept → Type 0 };

    // what is kept is of the node of this start with these facts, the newest first
    ghost is_at: { Self → ℕ → List Self.Fact → Self.Kept → Type 0 };

    ghost system_of: { Self.Kept → System };

    /// The start of this number, from 0, with which the search begins.
    fn root(&self, number: usize) -> Option<u8>
        ensures { IsRoot (search self.now) number result };

    /// Whether a node may ask this.
    fn may_ask(&self, start: u8, facts: &[Self::Fact], ask: Ask) -> bool
        requires { Comes (search self.now) start (reverse facts.now) }
        ensures { TellsMayAsk (search self.now) start (reverse facts.now) (ask_node ask) result };

    /// The answer of this number, from 0, to what a node asks.
    fn answer(&self, start: u8, facts: &[Self::Fact], ask: Ask, number: usize) -> Option<Self::Fact>
        requires { Comes (search self.now) start (reverse facts.now) }
        ensures { AnswerIs (search self.now) start (reverse facts.now) (ask_node ask) number result };

    /// How many unknowns a node's system has.
    fn unknown_count(&self, start: u8, facts: &[Self::Fact]) -> u32
        requires { Comes (search self.now) start (reverse facts.now) }
        ensures { result ≡ (search self.now).unknowns start (reverse facts.now) };

    /// The system of nothing. It takes no memory.
    fn nothing(&self, alloc: Global) -> Self::Kept
        ensures { is_kept self.now result };

    /// The system of a node with bounds, written on from the one that is kept.
    fn encode(
        &self,
        alloc: Global,
        start: u8,
        facts: &[Self::Fact],
        bounds: &[Bound],
        kept: Self::Kept,
    ) -> Result<Written<Self::Kept>, AllocError>
        requires comes { Comes (search self.now) start (reverse facts.now) }
        requires bounds { BoundsWithin ((search self.now).unknowns start (reverse facts.now)) bounds.now }
        requires kept { is_kept self.now kept }
        ensures kept { IfOk result (λ written. is_kept self.now written.kept) }
        ensures at { IfOk result (λ written. is_at self.now start (reverse facts.now) written.kept) }
        ensures system { IfOk result (λ written. SystemAt (search self.now) (node_at start facts.now bounds.now) (system_of written.kept)) }
        ensures same { IfOk result (λ written. SameRows (system_of kept).rows written.same (system_of written.kept).rows) }
        ensures small { IfOk result (λ written. IsSmall bounds.now (system_of written.kept)) };

    /// The system that is kept.
    fn system<'k>(&self, kept: &'k Self::Kept) -> &'k System
        ensures { result.now ≡ system_of kept.now };
}

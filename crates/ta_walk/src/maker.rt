//! What a maker of proofs does at a basic feasible solution: the trait `Maker`, and schemas as its
//! instance.
//!
//! One loop visits every kind of search; kinds differ in what happens where a system is feasible.
//! `question` says what the node asks there. Where it asks nothing and a value is not integral,
//! `scaled` may give natural numbers in place of the values; else the walk branches. A schema asks
//! for its next element until it is complete, whatever the values are, and has no scaled values. A
//! node of moments asks what its values leave open (asked_next.rt).
#![tactic(auto)]

use std::alloc::{AllocError, Global};
use ta_base::List;
use ta_encode::{Ask, Bound, Encoding, Tree};
use ta_rest::ClaimTree;
use ta_simplex::Fraction;
use ta_words::Element;

/// The nodes of a search, and what is done at each whose system has a vertex: what it asks, and the
/// whole values that are taken in place of the vertex's where it asks nothing and these aren't all
/// whole.
pub trait Maker: Tree {
    ghost use Rattle.std.specs.Prelude.{◌≡◌, [], IfOk, List, reverse};
    ghost use Rattle.ta_encode.specs.Cursors.{node_at};
    ghost use Rattle.ta_encode.specs.Search.{Comes};
    ghost use Rattle.ta_encode.specs.declared.meaning.Bound.{Bound};
    ghost use Rattle.ta_walk.specs.Visit.{IsAsked, IsSettled, VertexAt, parts_of};

    /// What a node asks at a vertex of its system with some bounds, of which these are the values.
    /// What is kept is of this node.
    fn question(
        &self,
        alloc: Global,
        start: u8,
        facts: &[Self::Fact],
        kept: &Self::Kept,
        values: &[Fraction],
    ) -> Result<Option<Ask>, AllocError>
        requires comes { Comes (Self.search self.now) start (reverse facts.now) }
        requires kept { Self.is_kept self.now kept.now }
        requires at { Self.is_at self.now start (reverse facts.now) kept.now }
        requires vertex { (bounds : List Bound) × VertexAt (Self.search self.now) (node_at start facts.now bounds) values.now }
        ensures { IfOk result (IsAsked (Self.search self.now) (node_at start facts.now []) values.now) };

    /// The whole values that are taken in place of those of a vertex, where nothing is asked there.
    fn scaled(
        &self,
        alloc: Global,
        start: u8,
        facts: &[Self::Fact],
        bounds: &[Bound],
        kept: &Self::Kept,
        values: &[Fraction],
    ) -> Result<Option<List<i128>>, AllocError>
        requires comes { Comes (Self.search self.now) start (reverse facts.now) }
        requires kept { Self.is_kept self.now kept.now }
        requires at { Self.is_at self.now start (reverse facts.now) kept.now }
        requires vertex { VertexAt (Self.search self.now) (node_at start facts.now bounds.now) values.now }
        requires settled { IsSettled (Self.search self.now) (node_at start facts.now bounds.now) values.now }
        ensures { IfOk result (λ numbers. numbers ≡ (Self.search self.now).scaled (node_at start facts.now bounds.now) (parts_of values.now)) };
}

impl<'a> Maker for ClaimTree<'a> {
    fn question(
        &self,
        alloc: Global,
        start: u8,
        facts: &[Element],
        kept: &Encoding,
        values: &[Fraction],
    ) -> Result<Option<Ask>, AllocError> {
        let _alloc = alloc;
        let _kept = kept;
        let _values = values;
        if self.may_ask(start, facts, Ask::Extend) {
            Ok(Some(Ask::Extend))
        } else {
            Ok(None)
        }
    }

    fn scaled(
        &self,
        alloc: Global,
        start: u8,
        facts: &[Element],
        bounds: &[Bound],
        kept: &Encoding,
        values: &[Fraction],
    ) -> Result<Option<List<i128>>, AllocError> {
        let _alloc = alloc;
        let _start = start;
        let _facts = facts;
        let _bounds = bounds;
        let _kept = kept;
        let _values = values;
        Ok(None)
    }
}

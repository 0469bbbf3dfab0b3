//! The trees of questions of a pattern as a maker visits them.
#![tactic(auto)]

use crate::Maker;
use crate::question::{asked_at, newest_first};
use crate::scaling::{own_rows, scaled_at};
use std::alloc::{AllocError, Global};
use ta_base::List;
use ta_encode::{Ask, Bound, Tree, Written};
use ta_linear::System;
use ta_moment_tree::{MomentKept, MomentTree};
use ta_moments::Fact;
use ta_simplex::Fraction;

/// The trees of questions of a pattern, and what is done at a vertex of a node.
#[derive(Clone, Copy)]
pub struct MomentMaker<'a> {
    pub tree: MomentTree<'a>,
}

impl<'a> Tree for MomentMaker<'a> {
    ghost use Rattle.ta_moment_tree.specs.Trees.{IsAt, IsKeptFor, search_of_moments};

    type Fact = Fact;

    type Kept = MomentKept<'a>;

    ghost search = { λ m. search_of_moments m.tree };

    ghost is_kept = { λ m kept. IsKeptFor m.tree kept };

    ghost is_at = { λ m start past kept. IsAt m.tree start past kept };

    ghost system_of = { λ kept. kept.system };

    fn root(&self, number: usize) -> Option<u8> {
        self.tree.root(number)
    }

    fn may_ask(&self, start: u8, facts: &[Fact], ask: Ask) -> bool {
        self.tree.may_ask(start, facts, ask)
    }

    fn answer(&self, start: u8, facts: &[Fact], ask: Ask, number: usize) -> Option<Fact> {
        self.tree.answer(start, facts, ask, number)
    }

    fn unknown_count(&self, start: u8, facts: &[Fact]) -> u32 {
        self.tree.unknown_count(start, facts)
    }

    fn nothing(&self, alloc: Global) -> MomentKept<'a> {
        self.tree.nothing(alloc)
    }

    fn encode(
        &self,
        alloc: Global,
        start: u8,
        facts: &[Fact],
        bounds: &[Bound],
        kept: MomentKept<'a>,
    ) -> Result<Written<MomentKept<'a>>, AllocError> {
        self.tree.encode(alloc, start, facts, bounds, kept)
    }

    fn system<'k>(&self, kept: &'k MomentKept<'a>) -> &'k System {
        self.tree.system(kept)
    }
}

impl<'a> Maker for MomentMaker<'a> {
    fn question(
        &self,
        alloc: Global,
        start: u8,
        facts: &[Fact],
        kept: &MomentKept<'a>,
        values: &[Fraction],
    ) -> Result<Option<Ask>, AllocError> {
        match kept.node() {
            None => Ok(None),
            Some(node) => asked_at(alloc, self.tree, start, facts, node, values),
        }
    }

    fn scaled(
        &self,
        alloc: Global,
        start: u8,
        facts: &[Fact],
        bounds: &[Bound],
        kept: &MomentKept<'a>,
        values: &[Fraction],
    ) -> Result<Option<List<i128>>, AllocError> {
        let _start = start;
        match kept.node() {
            None => Ok(None),
            Some(node) => {
                let past = newest_first(alloc, facts)?;
                let rows = own_rows(kept, node);
                scaled_at(
                    alloc,
                    self.tree,
                    past.as_slice(),
                    bounds,
                    node,
                    rows,
                    values,
                )
            }
        }
    }
}

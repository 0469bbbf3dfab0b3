//! The trees of questions as those of a search.
#![tactic(auto)]

use crate::ask::question_in;
use crate::count::unknown_count;
use crate::kept::MomentKept;
use crate::moment_tree::MomentTree;
use crate::start::start_at;
use std::alloc::{AllocError, Global};
use ta_encode::{Ask, Bound, Tree, Written};
use ta_linear::System;
use ta_moments::Fact;

impl<'a> Tree for MomentTree<'a> {
    ghost use Rattle.ta_moment_tree.specs.Trees.{IsAt, IsKeptFor, search_of_moments};

    type Fact = Fact;

    type Kept = MomentKept<'a>;

    ghost search = { λ t. search_of_moments t };

    ghost is_kept = { λ t kept. IsKeptFor t kept };

    ghost is_at = { λ t start past kept. IsAt t start past kept };

    ghost system_of = { λ kept. kept.system };

    fn root(&self, number: usize) -> Option<u8> {
        start_at(self.task.pattern, number)
    }

    fn may_ask(&self, start: u8, facts: &[Fact], ask: Ask) -> bool {
        let _start = start;
        match question_in(ask) {
            None => false,
            Some(question) => self.may_be_asked(facts, question),
        }
    }

    fn answer(&self, start: u8, facts: &[Fact], ask: Ask, number: usize) -> Option<Fact> {
        let _start = start;
        match question_in(ask) {
            Some(question) if self.may_be_asked(facts, question) => {
                self.answer_at(facts, question, number)
            }
            _ => None,
        }
    }

    fn unknown_count(&self, start: u8, facts: &[Fact]) -> u32 {
        let _start = start;
        unknown_count(self.task, facts)
    }

    fn nothing(&self, alloc: Global) -> MomentKept<'a> {
        MomentKept::nothing(alloc)
    }

    fn encode(
        &self,
        alloc: Global,
        start: u8,
        facts: &[Fact],
        bounds: &[Bound],
        kept: MomentKept<'a>,
    ) -> Result<Written<MomentKept<'a>>, AllocError> {
        self.written(alloc, start, facts, bounds, kept)
    }

    fn system<'k>(&self, kept: &'k MomentKept<'a>) -> &'k System {
        &kept.system
    }
}

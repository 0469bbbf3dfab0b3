//! The sample system as a search: one node without facts, which asks nothing and may only branch.
#![tactic(auto)]

use crate::maker::Maker;
use std::alloc::{AllocError, Global};
use ta_automaton::File;
use ta_base::List;
use ta_encode::{Ask, Bound, Tree, Written, encode_sample};
use ta_linear::System;
use ta_simplex::Fraction;
use ta_words::Element;

/// The search for a sample: one node, which has no facts and asks nothing, and the sample system.
#[derive(Clone, Copy)]
pub(crate) struct SampleTree<'a> {
    pub file: &'a File,
}

impl<'a> Tree for SampleTree<'a> {
    ghost use Rattle.ta_encode.specs.Sample.{sample_search};

    type Fact = Element;

    type Kept = System;

    ghost search = { λ tree. sample_search tree.file.now.automaton };

    ghost is_kept = { λ tree kept. Unit {0} };

    ghost is_at = { λ tree start past kept. Unit {0} };

    ghost system_of = { λ kept. kept };

    fn root(&self, number: usize) -> Option<u8> {
        if number == 0 { Some(0) } else { None }
    }

    fn may_ask(&self, start: u8, facts: &[Element], ask: Ask) -> bool {
        let _start = start;
        let _facts = facts;
        let _ask = ask;
        false
    }

    fn answer(&self, start: u8, facts: &[Element], ask: Ask, number: usize) -> Option<Element> {
        let _start = start;
        let _facts = facts;
        let _ask = ask;
        let _number = number;
        None
    }

    fn unknown_count(&self, start: u8, facts: &[Element]) -> u32 {
        let _start = start;
        let _facts = facts;
        let automaton = &self.file.automaton;
        (automaton.parameters.as_slice().len() + automaton.initial.as_slice().len()) as u32
    }

    fn nothing(&self, alloc: Global) -> System {
        System {
            unknowns: 0,
            rows: List::from_vec(Vec::new(alloc)),
        }
    }

    fn encode(
        &self,
        alloc: Global,
        start: u8,
        facts: &[Element],
        bounds: &[Bound],
        kept: System,
    ) -> Result<Written<System>, AllocError> {
        let _start = start;
        let _facts = facts;
        drop(kept);
        let encoded = encode_sample(alloc, self.file, bounds)?;
        Ok(Written {
            kept: encoded.system,
            same: 0,
        })
    }

    fn system<'k>(&self, kept: &'k System) -> &'k System {
        kept
    }
}

impl<'a> Maker for SampleTree<'a> {
    fn question(
        &self,
        alloc: Global,
        start: u8,
        facts: &[Element],
        kept: &System,
        values: &[Fraction],
    ) -> Result<Option<Ask>, AllocError> {
        let _alloc = alloc;
        let _start = start;
        let _facts = facts;
        let _kept = kept;
        let _values = values;
        Ok(None)
    }

    fn scaled(
        &self,
        alloc: Global,
        start: u8,
        facts: &[Element],
        bounds: &[Bound],
        kept: &System,
        values: &[Fraction],
    ) -> Result<Option<List<i128>>, AllocError> {
        let _alloc = alloc;
        let _start = start;
        let _facts = facts;
        let _bounds = bounds;
        let _kept = kept;
        let _values = values;
        Ok(None)
    }
}

//! The schemas of a claim on a pattern.
#![tactic(auto)]

ghost use Rattle.std.specs.Prelude.{◌≡◌, ◌<◌, ◌↔◌, IfOk, length, reverse};
ghost use Rattle.ta_automaton.specs.Narrow.{IsNarrow};
ghost use Rattle.ta_automaton.specs.Numbered.{OfPattern};
ghost use Rattle.ta_rest.specs.Claims.{search_for};
ghost use Rattle.ta_rest.specs.Trees.{IsKeptFor, search_of_claim};
ghost use Rattle.ta_cert.specs.declared.line.Node.TheVariants.{Extend};
ghost use Rattle.ta_encode.specs.TreeCalls.{AnswerIs};
ghost use Rattle.ta_encode.specs.Cursors.{node_at};
ghost use Rattle.ta_encode.specs.Code.{SystemAt};
ghost use Rattle.ta_encode.specs.Lines.{BoundsWithin};
ghost use Rattle.ta_encode.specs.Marks.{IsEncoding, SameRows};
ghost use Rattle.ta_encode.specs.Unknowns.{meanings};
ghost use Rattle.ta_encode.specs.declared.growing.Encoding.{Encoding};
ghost use Rattle.ta_words.specs.Words.{LegalWord};

use crate::children::child;
use crate::claim::Claim;
use crate::claim_tree::ClaimTree;
use crate::rest_end::rest_end;
use std::alloc::{AllocError, Global};
use ta_automaton::File;
use ta_encode::{Ask, Bound, Encoding, Grown, Tree, Written, unknown_count};
use ta_implied::Orders;
use ta_linear::System;
use ta_words::{Element, NarrowTask, is_complete};

impl<'a> ClaimTree<'a> {
    /// The tree of a claim on the pattern of this number, from 0, of a file within the narrow limits,
    /// under pairs of rise guards. Words of rest are under no pairs.
    pub fn new(claim: Claim, file: &'a File, number: u32, orders: &'a Orders) -> ClaimTree<'a>
        requires number { number < length file.now.patterns }
        requires narrow { IsNarrow file.now.automaton }
        ensures number { result.number ≡ number }
        ensures search { OfPattern file.now number (λ p. search_of_claim result ≡ search_for claim file.now.automaton p orders.now) }
        ensures kept { OfPattern file.now number (λ p. (kept : Encoding) → IsKeptFor result kept ↔ IsEncoding file.now.automaton p kept) }
    {
        let task = NarrowTask::of(file, number);
        ClaimTree {
            claim,
            number,
            task,
            orders,
        }
    }

    /// The element of a number, from 0, among those that may follow others.
    fn child(&self, start_mask: u8, elements: &[Element], number: usize) -> Option<Element>
        ensures { AnswerIs (search_of_claim self.now) start_mask (reverse elements.now) Extend number result }
    {
        match self.claim {
            Claim::Safe => child(self.task, start_mask, self.orders, elements, number),
            Claim::RestSafe => child(self.task, start_mask, &Orders::new(), elements, number),
        }
    }

    /// The system of a word, with what the claim asks of its end.
    fn grown(
        &self,
        alloc: Global,
        start_mask: u8,
        elements: &[Element],
        bounds: &[Bound],
        kept: Encoding,
    ) -> Result<Grown, AllocError>
        requires legal { LegalWord self.now.task.automaton.now self.now.task.pattern.now start_mask (reverse elements.now) }
        requires bounds { BoundsWithin (length (meanings self.now.task.automaton.now self.now.task.pattern.now start_mask (reverse elements.now))) bounds.now }
        requires kept { IsKeptFor self.now kept }
        ensures kept { IfOk result (λ grown. IsKeptFor self.now grown.encoding) }
        ensures system { IfOk result (λ grown. SystemAt (search_of_claim self.now) (node_at start_mask elements.now bounds.now) grown.encoding.system) }
        ensures same { IfOk result (λ grown. SameRows kept.system.rows grown.same grown.encoding.system.rows) }
    {
        match self.claim {
            Claim::Safe => kept.grown(alloc, self.task, start_mask, elements, bounds),
            Claim::RestSafe => {
                let end = rest_end(self.task, start_mask, elements);
                kept.grown_to(alloc, self.task, start_mask, elements, end, bounds)
            }
        }
    }
}

impl<'a> Tree for ClaimTree<'a> {
    ghost use Rattle.ta_rest.specs.Trees.{IsKeptFor, search_of_claim};

    type Fact = Element;

    type Kept = Encoding;

    ghost search = { λ t. search_of_claim t };

    ghost is_kept = { λ t kept. IsKeptFor t kept };

    ghost is_at = { λ t start past kept. Unit {0} };

    ghost system_of = { λ kept. kept.system };

    fn root(&self, number: usize) -> Option<u8> {
        if number < 1 << self.task.automaton.fall.as_slice().len() {
            Some(number as u8)
        } else {
            None
        }
    }

    fn may_ask(&self, start: u8, facts: &[Element], ask: Ask) -> bool {
        let _start = start;
        match ask {
            Ask::Extend => !is_complete(self.task, facts),
            Ask::Guard(_) | Ask::Order { .. } | Ask::Stuck(_) => false,
        }
    }

    fn answer(&self, start: u8, facts: &[Element], ask: Ask, number: usize) -> Option<Element> {
        match ask {
            Ask::Extend => self.child(start, facts, number),
            Ask::Guard(_) | Ask::Order { .. } | Ask::Stuck(_) => None,
        }
    }

    fn unknown_count(&self, start: u8, facts: &[Element]) -> u32 {
        unknown_count(self.task, start, facts)
    }

    fn nothing(&self, alloc: Global) -> Encoding {
        Encoding::new(alloc)
    }

    fn encode(
        &self,
        alloc: Global,
        start: u8,
        facts: &[Element],
        bounds: &[Bound],
        kept: Encoding,
    ) -> Result<Written<Encoding>, AllocError> {
        let Grown { encoding, same } = self.grown(alloc, start, facts, bounds, kept)?;
        Ok(Written {
            kept: encoding,
            same,
        })
    }

    fn system<'k>(&self, kept: &'k Encoding) -> &'k System {
        &kept.system
    }
}

//! The system of a node, written on from that of the node before.
//!
//! Each fact writes behind what is there, so two nodes of one candidate share what their common
//! first facts have written. A mark after each fact says how much that was: the node before is cut
//! to the mark of the last fact that both share, and the other facts are written behind it. How
//! many rows stayed is handed on, for the dictionaries (`Branch` of ta_simplex), and so many of the
//! system before are taken over as they are. Rows of bounds stand last and are written anew.
#![tactic(auto)]

ghost use Rattle.std.specs.Prelude.{◌≡◌, ◌≤◌, ◌↔◌, IfOk, IsTrue, List, length, reverse, take};
ghost use Rattle.ta_encode.specs.Code.{SystemAt};
ghost use Rattle.ta_encode.specs.Lines.{BoundsWithin};
ghost use Rattle.ta_encode.specs.Marks.{SameRows};
ghost use Rattle.ta_encode.specs.Search.{Comes};
ghost use Rattle.ta_encode.specs.Cursors.{node_at};
ghost use Rattle.ta_moments.specs.Searched.{candidate_of};
ghost use Rattle.ta_moment_tree.specs.Kept.{IsPart};
ghost use Rattle.ta_moment_tree.specs.Trees.{IsAt, IsKeptFor, search_of_moments};

use crate::kept::MomentKept;
use crate::moment_tree::MomentTree;
use crate::start::candidate_of;
use crate::{MomentEncoding, NodeMark};
use std::alloc::{AllocError, Global};
use ta_encode::{Bound, Written};
use ta_linear::System;
use ta_moments::Fact;

/// What is written already of a node.
#[derive(Drop)]
pub(crate) struct Part<'a> {
    node: MomentEncoding<'a>,
    marks: Vec<NodeMark>,
    /// How many of its facts are written.
    from: usize,
    /// The system of the node before.
    system: System,
    /// How many of its rows are those of that system.
    same: usize,
}

/// Whether two facts are the same.
fn is_same(left: Fact, right: Fact) -> bool
    ensures { IsTrue result ↔ left ≡ right }
{
    left == right
}

/// How many of the facts with which a list begins are those with which another does.
fn shared_length(left: &[Fact], right: &[Fact]) -> usize
    ensures left { result ≤ length left.now }
    ensures right { result ≤ length right.now }
    ensures same { take result left.now ≡ take result right.now }
{
    let least = left.len().min(right.len());
    for number in 0..least {
        if !is_same(left[number], right[number]) {
            return number;
        }
    }
    least
}

impl<'a> MomentTree<'a> {
    /// What is written at the start.
    fn begin(&self, alloc: Global, start: u8, system: System) -> Result<Part<'a>, AllocError>
        requires { (facts : List Fact) × Comes (search_of_moments self.now) start facts }
        ensures part { IfOk result (λ part. (facts : List Fact) → IsPart self.now.task.automaton.now self.now.task.pattern.now self.now.silent.now start facts part) }
        ensures before { IfOk result (λ part. part.system.rows ≡ system.rows) }
    {
        let node = MomentEncoding::first(alloc, self.task, candidate_of(start))?;
        let mut marks = Vec::new(alloc);
        marks.push(node.mark())?;
        Ok(Part {
            node,
            marks,
            from: 0,
            system,
            same: 0,
        })
    }

    /// What is written already of a node: what it shares with the node before, or the start.
    fn part_of(
        &self,
        alloc: Global,
        start: u8,
        facts: &[Fact],
        kept: MomentKept<'a>,
    ) -> Result<Part<'a>, AllocError>
        requires comes { Comes (search_of_moments self.now) start (reverse facts.now) }
        requires kept { IsKeptFor self.now kept }
        ensures part { IfOk result (IsPart self.now.task.automaton.now self.now.task.pattern.now self.now.silent.now start facts.now) }
        ensures before { IfOk result (λ part. part.system.rows ≡ kept.entry.system.rows) }
    {
        let MomentKept {
            start: was,
            facts: written,
            mut marks,
            node,
            system,
        } = kept;
        let shared = shared_length(written.as_slice(), facts);
        match node {
            Some(node) if was == start && shared < marks.len() => {
                let mark = marks[shared];
                marks.truncate(shared + 1);
                Ok(Part {
                    node: node.cut(mark),
                    marks,
                    from: shared,
                    system,
                    same: mark.rows,
                })
            }
            _ => self.begin(alloc, start, system),
        }
    }

    /// The node with all its facts, and a mark after each.
    fn grown(&self, start: u8, facts: &[Fact], part: Part<'a>) -> Result<Part<'a>, AllocError>
        requires comes { Comes (search_of_moments self.now) start (reverse facts.now) }
        requires part { IsPart self.now.task.automaton.now self.now.task.pattern.now self.now.silent.now start facts.now part }
        ensures from { IfOk result (λ grown. grown.from ≡ length facts.now) }
        ensures part { IfOk result (IsPart self.now.task.automaton.now self.now.task.pattern.now self.now.silent.now start facts.now) }
        ensures before { IfOk result (λ grown. (grown.system.rows ≡ part.entry.system.rows) × (grown.same ≡ part.entry.same)) }
    {
        let Part {
            mut node,
            mut marks,
            from,
            system,
            same,
        } = part;
        for number in from..facts.len() {
            node = node.with_fact(self.silent, facts[number])?;
            marks.push(node.mark())?;
        }
        Ok(Part {
            node,
            marks,
            from: facts.len(),
            system,
            same,
        })
    }

    /// The system of a node with bounds, written on from the one that is kept.
    pub(crate) fn written(
        &self,
        alloc: Global,
        start: u8,
        facts: &[Fact],
        bounds: &[Bound],
        kept: MomentKept<'a>,
    ) -> Result<Written<MomentKept<'a>>, AllocError>
        requires comes { Comes (search_of_moments self.now) start (reverse facts.now) }
        requires bounds { BoundsWithin ((search_of_moments self.now).unknowns start (reverse facts.now)) bounds.now }
        requires kept { IsKeptFor self.now kept }
        ensures kept { IfOk result (λ written. IsKeptFor self.now written.kept) }
        ensures at { IfOk result (λ written. IsAt self.now start (reverse facts.now) written.kept) }
        ensures system { IfOk result (λ written. SystemAt (search_of_moments self.now) (node_at start facts.now bounds.now) written.kept.system) }
        ensures same { IfOk result (λ written. SameRows kept.entry.system.rows written.same written.kept.system.rows) }
    {
        let part = self.part_of(alloc, start, facts, kept)?;
        let Part {
            node,
            marks,
            from: _,
            system: before,
            same,
        } = self.grown(start, facts, part)?;
        let system = node.system_from(before, same, bounds)?;
        let kept = MomentKept {
            start,
            facts: Vec::from_slice(alloc, facts)?,
            marks,
            node: Some(node),
            system,
        };
        Ok(Written { kept, same })
    }
}

//! Which line may come next: the version, pairs of guards with their leaves, proofs, the end.
//!
//! A line `o` is read alike in every version. Only here it is known whether it may come: in version
//! 2 it is a pair before the first proof, and its leaf comes next; in version 3 it is a question
//! inside a proof.
#![tactic(auto)]

ghost use Rattle.std.specs.Prelude.{ℕ, ◌≡◌, ◌↔◌, IsTrue, None, Some, reverse, ◌≢◌, IfErr};
ghost use Rattle.ta_automaton.specs.Narrow.{IsNarrow};
ghost use Rattle.ta_base.specs.Masks.{In};
ghost use Rattle.ta_cert.specs.Lines.{ArePairs, IsLine, IsNode};
ghost use Rattle.ta_cert.specs.declared.line.Line.TheVariants.{End, Header, Tree};
ghost use Rattle.ta_cert.specs.declared.line.Node.TheVariants.{Leaf, Order};
ghost use Rattle.ta_check.specs.Subjects.{Subject, claiming_with, version_for};
ghost use Rattle.ta_check.specs.Lines.{NothingIsLeft, Standing, TakesOrder};
ghost use Rattle.ta_check.specs.Positions.{IsPositionAt, IsSomewhere, LineAnswers};

use crate::leaf::fault_in;
use crate::position::Position;
use std::alloc::Global;
use ta_automaton::{Automaton, File};
use ta_cert::{CertFault, Line, Node};
use ta_implied::OrderFault;
use ta_rest::Claim;

impl<'a> Position<'a> {
    /// Takes the line of a number, where it may follow the lines before it.
    pub fn take_line(
        &mut self,
        alloc: Global,
        claim: Claim,
        file: &'a File,
        silent: &'a [u32],
        number: u64,
        line: &Line,
    ) -> Result<(), CertFault>
        requires somewhere { IsSomewhere (claiming_with claim file.now silent.now) self.old }
        requires form { IsLine line.now }
        ensures { (limit : ℕ) (at : Standing) → IsPositionAt (claiming_with claim file.now silent.now limit) self.old at → LineAnswers (claiming_with claim file.now silent.now limit) at number line.now self.new result }
    {
        match line {
            Line::Header(version) => self.take_header(claim, file, silent, number, *version),
            Line::Pattern(pattern) => self.begin(alloc, claim, file, silent, number, *pattern),
            Line::Tree(node) => self.take_tree(alloc, claim, file, silent, number, node),
            Line::End => self.end(number),
        }
    }

    /// Takes the first line.
    fn take_header(
        &mut self,
        claim: Claim,
        file: &'a File,
        silent: &'a [u32],
        number: u64,
        version: u8,
    ) -> Result<(), CertFault>
        ensures taken { (limit : ℕ) (at : Standing) → IsPositionAt (claiming_with claim file.now silent.now limit) self.old at → LineAnswers (claiming_with claim file.now silent.now limit) at number (Header version) self.new result }
        ensures no_memory { IfErr result (λ fault. fault ≢ CertFault.Memory) }
    {
        if !may_open(claim, &file.automaton, silent, version) {
            return Err(CertFault::Line(number));
        }
        self.version = version;
        self.current = None;
        Ok(())
    }

    /// Whether a pair may come: in version 2, where none waits and no proof began.
    fn takes_order(&self) -> bool
        ensures { (subject : Subject) (at : Standing) → IsPositionAt subject self.now at → IsTrue result ↔ TakesOrder at }
    {
        self.version == 2 && self.waiting.is_none() && self.proved.is_empty()
    }

    /// Whether a proof or the end may come: no pair waits, no proof is being read, and version 2
    /// has a pair.
    pub fn is_free(&self) -> bool
        ensures { (subject : Subject) (at : Standing) → IsPositionAt subject self.now at → IsTrue result ↔ NothingIsLeft at }
    {
        if self.waiting.is_some() || self.current.is_some() {
            return false;
        }
        self.version != 2 || !self.orders.is_empty()
    }

    /// Takes the line of a pair.
    fn take_order(
        &mut self,
        claim: Claim,
        file: &'a File,
        silent: &'a [u32],
        number: u64,
        before: u32,
        after: u32,
    ) -> Result<(), CertFault>
        requires none { self.old.waiting ≡ None }
        requires nowhere { self.old.current ≡ None }
        ensures taken { (limit : ℕ) (at : Standing) → IsPositionAt (claiming_with claim file.now silent.now limit) self.old at → LineAnswers (claiming_with claim file.now silent.now limit) at number (Tree (Order before after)) self.new result }
        ensures no_memory { IfErr result (λ fault. fault ≢ CertFault.Memory) }
    {
        let _silent = silent;
        if !self.takes_order() {
            return Err(CertFault::Line(number));
        }
        if !self.orders.takes(&file.automaton, before, after) {
            return Err(CertFault::Pair(number));
        }
        self.waiting = Some((before, after));
        Ok(())
    }

    /// Takes the line of a node: the leaf of the pair that waits, a node of the proof that is being
    /// read, or a pair.
    fn take_tree(
        &mut self,
        alloc: Global,
        claim: Claim,
        file: &'a File,
        silent: &'a [u32],
        number: u64,
        node: &Node,
    ) -> Result<(), CertFault>
        requires somewhere { IsSomewhere (claiming_with claim file.now silent.now) self.old }
        requires form { IsNode node.now }
        ensures { (limit : ℕ) (at : Standing) → IsPositionAt (claiming_with claim file.now silent.now limit) self.old at → LineAnswers (claiming_with claim file.now silent.now limit) at number (Tree node.now) self.new result }
    {
        let Some(pair) = self.waiting else {
            return match self.current {
                Some(pattern) => self.take_node(alloc, claim, file, silent, number, pattern, node),
                None => self.take_pair(claim, file, silent, number, node),
            };
        };
        match node {
            Node::Leaf(multipliers) => {
                self.take_shown(
                    alloc,
                    claim,
                    file,
                    silent,
                    number,
                    pair,
                    multipliers.as_slice(),
                )
            }
            Node::Extend
            | Node::Split { .. }
            | Node::Guard(_)
            | Node::Order { .. }
            | Node::Stuck(_) => Err(CertFault::Line(number)),
        }
    }

    /// Takes the line of a node where no pair waits and no proof is being read: that of a pair.
    fn take_pair(
        &mut self,
        claim: Claim,
        file: &'a File,
        silent: &'a [u32],
        number: u64,
        node: &Node,
    ) -> Result<(), CertFault>
        requires none { self.old.waiting ≡ None }
        requires nowhere { self.old.current ≡ None }
        ensures { (limit : ℕ) (at : Standing) → IsPositionAt (claiming_with claim file.now silent.now limit) self.old at → LineAnswers (claiming_with claim file.now silent.now limit) at number (Tree node.now) self.new result }
    {
        match node {
            Node::Order { before, after } => self.take_order(
                claim, file, silent, number, *before, *after,
            ),
            Node::Extend | Node::Split { .. } | Node::Leaf(_) | Node::Guard(_) | Node::Stuck(_) =>
                Err(CertFault::Line(number)),
        }
    }

    /// Takes the leaf of the pair that waits.
    fn take_shown(
        &mut self,
        alloc: Global,
        claim: Claim,
        file: &'a File,
        silent: &'a [u32],
        number: u64,
        pair: (u32, u32),
        multipliers: &[(u32, i128)],
    ) -> Result<(), CertFault>
        requires somewhere { IsSomewhere (claiming_with claim file.now silent.now) self.old }
        requires waits { self.old.waiting ≡ Some pair }
        requires form { ArePairs 0 multipliers.now }
        ensures { (limit : ℕ) (at : Standing) → IsPositionAt (claiming_with claim file.now silent.now limit) self.old at
            → LineAnswers (claiming_with claim file.now silent.now limit) at number (Tree (Leaf multipliers.now)) self.new result }
    {
        let _silent = silent;
        let (before, after) = pair;
        match self
            .orders
            .push(alloc, &file.automaton, before, after, multipliers)
        {
            Ok(()) => {
                self.waiting = None;
                Ok(())
            }
            Err(OrderFault::Leaf(fault)) => Err(fault_in(number, fault)),
            Err(OrderFault::Memory) => Err(CertFault::Memory),
            // (the pair's own line was taken, so this doesn't come)
            Err(OrderFault::Pair) => Err(CertFault::Pair(number)),
        }
    }

    /// Whether the proof of a pattern began.
    pub fn is_begun(&self, pattern: u32) -> bool
        ensures { IsTrue result ↔ In pattern (reverse self.now.proved.items) }
    {
        self.proved.contains(&pattern)
    }

    /// Takes the last line.
    fn end(&self, number: u64) -> Result<(), CertFault>
        ensures taken { (subject : Subject) (at : Standing) → IsPositionAt subject self.now at → LineAnswers subject at number End self.now result }
        ensures no_memory { IfErr result (λ fault. fault ≢ CertFault.Memory) }
    {
        if self.is_free() {
            Ok(())
        } else {
            Err(CertFault::Line(number))
        }
    }
}

/// Whether a certificate of a claim on an automaton may have a version.
fn may_open(claim: Claim, automaton: &Automaton, silent: &[u32], version: u8) -> bool
    ensures { IsTrue result ↔ (version_for claim silent.now version × (version ≢ 3 → IsNarrow automaton.now)) }
{
    if version != 3 && !automaton.is_narrow() {
        return false;
    }
    has_version(claim, silent, version)
}

/// Whether a certificate of a claim may have a version.
fn has_version(claim: Claim, silent: &[u32], version: u8) -> bool
    ensures { IsTrue result ↔ version_for claim silent.now version }
{
    match claim {
        Claim::Safe => version <= 3,
        Claim::RestSafe => match silent {
            [] => version == 1 || version == 3,
            [_, ..] => version == 3,
        },
    }
}

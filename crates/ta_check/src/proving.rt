//! The proofs of a certificate: where one begins, and its nodes.
//!
//! In version 3 proofs are over moments, else over schemas. Both are trees of a search, so one
//! function takes a node of either (reading.rt); here the tree is chosen, and what kinds of nodes
//! it may have.
#![tactic(auto)]

ghost use Rattle.std.specs.Prelude.{ℕ, ◌≡◌, ◌<◌, ◌↔◌, IsTrue, None, Some, length, reverse};
ghost use Rattle.ta_base.specs.Masks.{In};
ghost use Rattle.ta_cert.specs.Lines.{IsNode};
ghost use Rattle.ta_cert.specs.declared.line.Line.TheVariants.{Pattern, Tree};
ghost use Rattle.ta_automaton.specs.Narrow.{IsNarrow};
ghost use Rattle.ta_automaton.specs.Numbered.{OfPattern};
ghost use Rattle.ta_moment_tree.specs.Kept.{IsKept};
ghost use Rattle.ta_moment_tree.specs.Trees.{IsKeptFor, search_of_moments};
ghost use Rattle.ta_moment_tree.specs.declared.kept.MomentKept.{MomentKept};
ghost use Rattle.ta_check.specs.Subjects.{Moments, Words, asking_for, claiming_with, kind_of, moments_of};
ghost use Rattle.ta_check.specs.Forms.{HasForm};
ghost use Rattle.ta_check.specs.Lines.{NothingIsLeft, Standing};
ghost use Rattle.ta_check.specs.Positions.{IsPositionAt, IsSomewhere, LineAnswers};

use crate::position::Position;
use crate::reading::read_node;
use std::alloc::Global;
use ta_automaton::File;
use ta_cert::{CertFault, Node};
use ta_encode::{Encoding, Place, Tree as Trees};
use ta_moment_tree::MomentTree;
use ta_rest::{Claim, ClaimTree};

impl<'a> Position<'a> {
    /// Takes the line that begins the proof of a pattern.
    pub fn begin(
        &mut self,
        alloc: Global,
        claim: Claim,
        file: &'a File,
        silent: &'a [u32],
        number: u64,
        pattern: u32,
    ) -> Result<(), CertFault>
        requires { IsSomewhere (claiming_with claim file.now silent.now) self.old }
        ensures { (limit : ℕ) (at : Standing) → IsPositionAt (claiming_with claim file.now silent.now limit) self.old at → LineAnswers (claiming_with claim file.now silent.now limit) at number (Pattern pattern) self.new result }
    {
        if !self.is_free() {
            return Err(CertFault::Line(number));
        }
        if pattern as usize >= file.patterns.as_slice().len() {
            return Err(CertFault::UnknownPattern(number));
        }
        if self.is_begun(pattern) {
            return Err(CertFault::RepeatedPattern(number));
        }
        if self.version == 3 {
            self.begin_moments(alloc, claim, file, silent, number, pattern)
        } else {
            self.begin_words(alloc, claim, file, silent, number, pattern)
        }
    }

    /// Begins the proof of a pattern over its words.
    fn begin_words(
        &mut self,
        alloc: Global,
        claim: Claim,
        file: &'a File,
        silent: &'a [u32],
        number: u64,
        pattern: u32,
    ) -> Result<(), CertFault>
        requires exists { pattern < length file.now.patterns }
        requires narrow { IsNarrow file.now.automaton }
        requires kind { kind_of self.old.version ≡ Words }
        requires fresh { In pattern (reverse self.old.proved.items) → ⊥ }
        ensures { (limit : ℕ) (at : Standing) → IsPositionAt (claiming_with claim file.now silent.now limit) self.old at → NothingIsLeft at → LineAnswers (claiming_with claim file.now silent.now limit) at number (Pattern pattern) self.new result }
    {
        let _silent = silent;
        let _number = number;
        self.proved.push(pattern)?;
        let tree = ClaimTree::new(claim, file, pattern, &self.orders);
        match Place::first(alloc, &tree) {
            None => Ok(()),
            Some(place) => {
                self.current = Some(pattern);
                self.words = place;
                self.encoding = Encoding::new(alloc);
                Ok(())
            }
        }
    }

    /// Begins the proof of a pattern over its moments.
    fn begin_moments(
        &mut self,
        alloc: Global,
        claim: Claim,
        file: &'a File,
        silent: &'a [u32],
        number: u64,
        pattern: u32,
    ) -> Result<(), CertFault>
        requires exists { pattern < length file.now.patterns }
        requires kind { kind_of self.old.version ≡ Moments }
        requires fresh { In pattern (reverse self.old.proved.items) → ⊥ }
        ensures { (limit : ℕ) (at : Standing) → IsPositionAt (claiming_with claim file.now silent.now limit) self.old at → NothingIsLeft at → LineAnswers (claiming_with claim file.now silent.now limit) at number (Pattern pattern) self.new result }
    {
        let _number = number;
        self.proved.push(pattern)?;
        let tree = moment_tree(claim, file, silent, pattern);
        match Place::first(alloc, &tree) {
            None => Ok(()),
            Some(place) => {
                self.current = Some(pattern);
                self.moments = place;
                self.kept = tree.nothing(alloc);
                Ok(())
            }
        }
    }

    /// Takes the line of a node in the proof of a pattern.
    pub fn take_node(
        &mut self,
        alloc: Global,
        claim: Claim,
        file: &'a File,
        silent: &'a [u32],
        number: u64,
        pattern: u32,
        node: &Node,
    ) -> Result<(), CertFault>
        requires somewhere { IsSomewhere (claiming_with claim file.now silent.now) self.old }
        requires none { self.old.waiting ≡ None }
        requires current { self.old.current ≡ Some pattern }
        requires form { IsNode node.now }
        ensures { (limit : ℕ) (at : Standing) → IsPositionAt (claiming_with claim file.now silent.now limit) self.old at → LineAnswers (claiming_with claim file.now silent.now limit) at number (Tree node.now) self.new result }
    {
        if !has_form(self.version, claim, node) {
            return Err(CertFault::Line(number));
        }
        if self.version == 3 {
            self.take_moment(alloc, claim, file, silent, number, pattern, node)
        } else {
            self.take_word(alloc, claim, file, silent, number, pattern, node)
        }
    }

    /// Takes the line of a node in the proof of a pattern over its words.
    fn take_word(
        &mut self,
        alloc: Global,
        claim: Claim,
        file: &'a File,
        silent: &'a [u32],
        number: u64,
        pattern: u32,
        node: &Node,
    ) -> Result<(), CertFault>
        requires somewhere { IsSomewhere (claiming_with claim file.now silent.now) self.old }
        requires none { self.old.waiting ≡ None }
        requires current { self.old.current ≡ Some pattern }
        requires form { IsNode node.now }
        requires kind { kind_of self.old.version ≡ Words }
        requires has { HasForm Words claim node.now }
        ensures { (limit : ℕ) (at : Standing) → IsPositionAt (claiming_with claim file.now silent.now limit) self.old at → LineAnswers (claiming_with claim file.now silent.now limit) at number (Tree node.now) self.new result }
    {
        let _silent = silent;
        let tree = ClaimTree::new(claim, file, pattern, &self.orders);
        if !read_node(
            alloc,
            &tree,
            &mut self.words,
            &mut self.encoding,
            number,
            node,
        )? {
            self.current = None;
        }
        Ok(())
    }

    /// Takes the line of a node in the proof of a pattern over its moments.
    fn take_moment(
        &mut self,
        alloc: Global,
        claim: Claim,
        file: &'a File,
        silent: &'a [u32],
        number: u64,
        pattern: u32,
        node: &Node,
    ) -> Result<(), CertFault>
        requires somewhere { IsSomewhere (claiming_with claim file.now silent.now) self.old }
        requires none { self.old.waiting ≡ None }
        requires current { self.old.current ≡ Some pattern }
        requires form { IsNode node.now }
        requires kind { kind_of self.old.version ≡ Moments }
        requires has { HasForm Moments claim node.now }
        ensures { (limit : ℕ) (at : Standing) → IsPositionAt (claiming_with claim file.now silent.now limit) self.old at → LineAnswers (claiming_with claim file.now silent.now limit) at number (Tree node.now) self.new result }
    {
        let moments = moment_tree(claim, file, silent, pattern);
        if !read_node(
            alloc,
            &moments,
            &mut self.moments,
            &mut self.kept,
            number,
            node,
        )? {
            self.current = None;
        }
        Ok(())
    }
}

/// The trees of a pattern's moments, with what may be asked for a claim.
fn moment_tree<'a>(claim: Claim, file: &'a File, silent: &'a [u32], pattern: u32) -> MomentTree<'a>
    requires { pattern < length file.now.patterns }
    ensures search { OfPattern file.now pattern (λ p. search_of_moments result ≡ moments_of file.now.automaton p (asking_for claim silent.now)) }
    ensures kept { OfPattern file.now pattern (λ p. (kept : MomentKept) → IsKeptFor result kept ↔ IsKept file.now.automaton p (asking_for claim silent.now).silent kept) }
{
    match claim {
        Claim::Safe => MomentTree::new(file, pattern, false, &[]),
        Claim::RestSafe => MomentTree::new(file, pattern, true, silent),
    }
}

/// Whether the proofs of a version have nodes of a form.
fn has_form(version: u8, claim: Claim, node: &Node) -> bool
    ensures { IsTrue result ↔ HasForm (kind_of version) claim node.now }
{
    match node {
        Node::Leaf(_) | Node::Split { .. } => true,
        Node::Extend => version != 3,
        Node::Guard(_) | Node::Order { .. } => version == 3,
        Node::Stuck(_) => match claim {
            Claim::Safe => false,
            Claim::RestSafe => version == 3,
        },
    }
}

//! How a cursor goes on from a node to its children, and behind a leaf.
//!
//! A node that asks or splits pushes its frame, and the fact or bound of its first child. Behind a
//! leaf the innermost frame is taken back, and the next child of its node is entered; if there is
//! none, the frame above it is next. So a child costs one push and one pop, besides the computing
//! of its answer.
#![tactic(auto)]

ghost use Rattle.std.specs.Prelude.{◌+◌, ◌++◌, ◌∷◌, ◌<◌, ◌≡◌, ◌⊎◌, IfOk, List, [], MatchBool, MatchOption, Some, drop, length, reverse};
ghost use Rattle.ta_cert.specs.Lines.{IsSplit};
ghost use Rattle.ta_cert.specs.declared.line.Node.TheVariants.{Split};
ghost use Rattle.ta_encode.specs.Search.{Pending, Search, parts};
ghost use Rattle.ta_encode.specs.Asking.{ask_node, node_of};
ghost use Rattle.ta_encode.specs.declared.ask.Inner.TheVariants.{Splits};
ghost use Rattle.ta_encode.specs.declared.meaning.Side.TheVariants.{High, Low};
ghost use Rattle.ta_encode.specs.Cursors.{GoesOn, Inside, IsInside, IsWithin, SplitFits, Within, WentOn, here};

use crate::ask::{Ask, Inner};
use crate::cursor::{Cursor, Frame};
use crate::tree::Tree;
use crate::{Bound, Side};
use std::alloc::AllocError;

/// A side of a split by its number: 0 for the low one, 1 for the high one.
fn side_of(number: u32) -> Side
    requires { number < 2 }
    ensures { ((number ≡ 0) × (result ≡ Low)) ⊎ ((number ≡ 1) × (result ≡ High)) }
{
    if number == 0 { Side::Low } else { Side::High }
}

impl<F: Copy + Drop> Cursor<F> {
    /// Goes on behind the node: to the next child of an open node. Says whether there is one; else
    /// the tree ends.
    pub fn leave<T: Tree<Fact = F>>(&mut self, tree: &T) -> Result<bool, AllocError>
        requires { IsInside (T.search tree.now) self.old }
        ensures { (words : List (Pending F)) → Inside (T.search tree.now) self.old words → GoesOn (T.search tree.now) self.new words result }
    {
        'frames: while let Some(frame) = self.pop_frame() {
            if self.enter_next(tree, frame)? {
                return Ok(true);
            }
        }
        Ok(false)
    }

    /// Goes on to the answers of what the node asks. Says whether a node comes.
    pub fn ask<T: Tree<Fact = F>>(&mut self, tree: &T, ask: Ask) -> Result<bool, AllocError>
        requires { IsWithin (T.search tree.now) self.old }
        ensures { (w : Pending F) (words : List (Pending F)) → Within (T.search tree.now) self.old (w ∷ words) → GoesOn (T.search tree.now) self.new (parts (T.search tree.now) w (ask_node ask) ++ words) result }
    {
        if self.enter_child(tree, ask, 0)? {
            Ok(true)
        } else {
            self.leave(tree)
        }
    }

    /// Goes on to the sides of a split of the node's system.
    pub fn split(&mut self, unknown: u32, floor: i128) -> Result<(), AllocError>
        requires { IsSplit unknown floor }
        ensures { (s : Search F) (w : Pending F) (words : List (Pending F)) → Within s self.old (w ∷ words) → unknown < s.unknowns self.old.start (reverse self.old.facts.items) → WentOn s self.new (parts s w (Split unknown floor) ++ words) result }
    {
        self.enter_side(0, unknown, floor)
    }

    /// Goes on to the node with the answer of a number, from 0, to what the node asks, and says whether
    /// there is one.
    fn enter_child<T: Tree<Fact = F>>(
        &mut self,
        tree: &T,
        ask: Ask,
        number: usize,
    ) -> Result<bool, AllocError>
        requires { IsWithin (T.search tree.now) self.old }
        ensures { (w : Pending F) (words : List (Pending F)) → Within (T.search tree.now) self.old (w ∷ words) → IfOk result (λ entered. MatchBool entered
            (Within (T.search tree.now) self.new (drop number (parts (T.search tree.now) w (ask_node ask)) ++ words))
            ((drop number (parts (T.search tree.now) w (ask_node ask)) ≡ []) × (self.new ≡ self.old))) }
    {
        let Some(fact) = tree.answer(self.start, self.facts.as_slice(), ask, number) else {
            return Ok(false);
        };
        self.frames.push(Frame {
            inner: Inner::Asks(ask),
            length: self.facts.len(),
            bounds: self.bounds.len(),
            next: number as u32,
        })?;
        self.facts.push(fact)?;
        Ok(true)
    }

    /// Goes on to a side of a split of the node's system: 0 for the low one, 1 for the high one.
    fn enter_side(&mut self, number: u32, unknown: u32, floor: i128) -> Result<(), AllocError>
        requires { number < 2 }
        ensures { (s : Search F) (w : Pending F) (words : List (Pending F)) → Within s self.old (w ∷ words)
            → SplitFits (s.unknowns self.old.start (reverse self.old.facts.items)) (Splits unknown floor)
            → WentOn s self.new (drop number (parts s w (Split unknown floor)) ++ words) result }
    {
        self.frames.push(Frame {
            inner: Inner::Splits { unknown, floor },
            length: self.facts.len(),
            bounds: self.bounds.len(),
            next: number,
        })?;
        self.bounds.push(Bound {
            unknown,
            floor,
            side: side_of(number),
        })?;
        Ok(())
    }

    /// Takes the innermost open node away and goes back to it, where a node is open.
    fn pop_frame(&mut self) -> Option<Frame>
        requires { (s : Search F) × IsInside s self.old }
        ensures { (s : Search F) (words : List (Pending F)) → Inside s self.old words → MatchOption result
            (words ≡ [])
            (λ frame. (rest : List (Pending F))
            × (words ≡ drop (frame.next + 1) (parts s (here self.new) (node_of frame.inner)) ++ rest)
            × Within s self.new (here self.new ∷ rest)
            × SplitFits (s.unknowns self.new.start (reverse self.new.facts.items)) frame.inner
            × (length self.new.frames.items < length self.old.frames.items)) }
    {
        let frame = self.frames.pop()?;
        self.facts.truncate(frame.length);
        self.bounds.truncate(frame.bounds);
        Some(frame)
    }

    /// Goes on to the part of an open node behind the one that was read, and says whether there is
    /// one.
    fn enter_next<T: Tree<Fact = F>>(&mut self, tree: &T, frame: Frame) -> Result<bool, AllocError>
        requires within { IsWithin (T.search tree.now) self.old }
        requires split { SplitFits ((T.search tree.now).unknowns self.old.start (reverse self.old.facts.items)) frame.inner }
        ensures { (w : Pending F) (words : List (Pending F)) → Within (T.search tree.now) self.old (w ∷ words) → IfOk result (λ entered. MatchBool entered
            (Within (T.search tree.now) self.new (drop (frame.next + 1) (parts (T.search tree.now) w (node_of frame.inner)) ++ words))
            ((drop (frame.next + 1) (parts (T.search tree.now) w (node_of frame.inner)) ≡ []) × (self.new ≡ self.old))) }
    {
        match frame.inner {
            Inner::Asks(ask) => self.enter_child(tree, ask, frame.next as usize + 1),
            Inner::Splits { unknown, floor } => {
                if frame.next == 0 {
                    self.enter_side(1, unknown, floor)?;
                    Ok(true)
                } else {
                    Ok(false)
                }
            }
        }
    }
}

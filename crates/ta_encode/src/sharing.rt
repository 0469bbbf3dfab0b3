//! How a cursor gives the last of its nodes to another one, for another thread.
//!
//! The nodes that are left come from the open nodes, the innermost first. Those of the outermost
//! ones come last, and their trees are the largest. So the fewest outermost frames that leave any
//! node become the frames of the new cursor, which stands at the first of these nodes, and this
//! cursor keeps the inner frames. The list of nodes left is cut in two; its order stays.
#![tactic(auto)]

ghost use Rattle.std.specs.Prelude.{◌≡◌, ◌≤◌, [], IfOk, MatchOption, length, reverse, slice_get, take};
ghost use Rattle.ta_encode.specs.Search.{Search};
ghost use Rattle.ta_encode.specs.Cursors.{Inside, IsBeforeWords, IsWithin, Shares, all_behind};

use crate::cursor::Cursor;
use crate::tree::Tree;
use std::alloc::{AllocError, Global};

impl<F: Copy + Drop> Cursor<F> {
    /// Gives the words that the outermost open nodes leave to a cursor of their own, where any are
    /// left: those of the fewest such nodes. This cursor keeps the words before them. Gives none
    /// only where no open node leaves a word: then this cursor is as before, and only the word at
    /// which it stands is left.
    pub fn share<T: Tree<Fact = F>>(
        &mut self,
        alloc: Global,
        tree: &T,
    ) -> Result<Option<Cursor<F>>, AllocError>
        requires { IsWithin (T.search tree.now) self.old }
        ensures { IfOk result (Shares (T.search tree.now) self.old self.new) }
    {
        for outer in 0..self.frames.len() {
            if let Some(later) = self.behind(alloc, tree, outer + 1)? {
                self.frames = self.frames.split_off(outer + 1)?;
                return Ok(Some(later));
            }
        }
        Ok(None)
    }

    /// The cursor at the first of the words that so many open nodes leave, counted from the
    /// outermost; none only where none is left.
    fn behind<T: Tree<Fact = F>>(
        &self,
        alloc: Global,
        tree: &T,
        outer: usize,
    ) -> Result<Option<Cursor<F>>, AllocError>
        requires within { IsWithin (T.search tree.now) self.now }
        requires most { outer ≤ length self.now.frames.items }
        ensures { IfOk result (λ later. MatchOption later
            (all_behind (T.search tree.now) self.now (reverse (take outer self.now.frames.items)) ≡ [])
            (IsBeforeWords (T.search tree.now) (all_behind (T.search tree.now) self.now (reverse (take outer self.now.frames.items))))) }
    {
        let mut later = self.outermost(alloc, outer)?;
        if later.leave(tree)? {
            Ok(Some(later))
        } else {
            Ok(None)
        }
    }

    /// A cursor with so many nodes open, counted from the outermost, which stands where the next of
    /// the open nodes does, or where this one does.
    fn outermost(&self, alloc: Global, outer: usize) -> Result<Cursor<F>, AllocError>
        requires within { (s : Search F) × IsWithin s self.now }
        requires most { outer ≤ length self.now.frames.items }
        ensures { (s : Search F) → IsWithin s self.now → IfOk result (λ later. Inside s later (all_behind s self.now (reverse (take outer self.now.frames.items)))) }
    {
        let (length, count) = self.lengths_at(outer);
        let mut facts = Vec::from_slice(alloc, self.facts.as_slice())?;
        facts.truncate(length);
        let mut bounds = Vec::from_slice(alloc, self.bounds.as_slice())?;
        bounds.truncate(count);
        let frames = Vec::from_slice(alloc, &self.frames[..outer])?;
        Ok(Cursor {
            start: self.start,
            facts,
            bounds,
            frames,
        })
    }

    /// How many facts and bounds there are at an open node, counted from the outermost, or where this
    /// cursor stands.
    fn lengths_at(&self, outer: usize) -> (usize, usize)
        ensures { MatchOption (slice_get self.now.frames.items outer)
            ((result.0 ≡ length self.now.facts.items) × (result.1 ≡ length self.now.bounds.items))
            (λ frame. (result.0 ≡ frame.length) × (result.1 ≡ frame.bounds)) }
    {
        match self.frames.get(outer) {
            None => (self.facts.len(), self.bounds.len()),
            Some(frame) => (frame.length, frame.bounds),
        }
    }
}

//! How a place goes on from tree to tree.
#![tactic(auto)]

ghost use Rattle.std.specs.Prelude.{◌≡◌, ◌+◌, ◌^◌, ◌++◌, ◌∷◌, ◌<◌, IfOk, List, [], drop, reverse};
ghost use Rattle.ta_cert.specs.Lines.{IsSplit};
ghost use Rattle.ta_cert.specs.declared.line.Node.TheVariants.{Split};
ghost use Rattle.ta_encode.specs.Search.{Pending, parts};
ghost use Rattle.ta_encode.specs.Asking.{ask_node};
ghost use Rattle.ta_encode.specs.Cursors.{IsAtRoot, node_at};
ghost use Rattle.ta_encode.specs.InTrees.{AllGoOn, AllWithin, BeginsAll, IsAllWithin};

use crate::ask::Ask;
use crate::cursor::Cursor;
use crate::cursor_place::Place;
use crate::tree::Tree;
use std::alloc::{AllocError, Global};

impl<F: Copy + Drop> Place<F> {
    /// The place at the node of the start 0 without facts, before any search. It takes no memory.
    pub fn new(alloc: Global) -> Place<F>
        ensures { IsAtRoot result.cursor (node_at 0 [] []) }
    {
        Place {
            cursor: Cursor::new(alloc, 0),
            root: 0,
        }
    }

    /// The place at the first node of the first tree, where the search begins with any start.
    /// It takes no memory.
    pub fn first<T: Tree<Fact = F>>(alloc: Global, tree: &T) -> Option<Place<F>>
        ensures { BeginsAll (T.search tree.now) result }
    {
        match tree.root(0) {
            None => None,
            Some(start) => Some(Place {
                cursor: Cursor::new(alloc, start),
                root: 0,
            }),
        }
    }

    /// Where the tree is being read.
    pub fn cursor(&self) -> &Cursor<F>
        ensures { result.now ≡ self.now.cursor }
    {
        &self.cursor
    }

    /// The facts of the node that comes next, as a value.
    pub fn into_facts(self) -> Vec<F>
        ensures { result ≡ self.cursor.facts }
    {
        self.cursor.into_facts()
    }

    /// Goes on behind a leaf, and says whether a node comes.
    pub fn leave<T: Tree<Fact = F>>(&mut self, alloc: Global, tree: &T) -> Result<bool, AllocError>
        requires { IsAllWithin (T.search tree.now) self.old }
        ensures { (w : Pending F) (words : List (Pending F)) → AllWithin (T.search tree.now) self.old (w ∷ words) → AllGoOn (T.search tree.now) self.new words result }
    {
        if self.cursor.leave(tree)? {
            Ok(true)
        } else {
            Ok(self.next_root(alloc, tree))
        }
    }

    /// Goes on to the answers of what the node asks, and says whether a node comes.
    pub fn ask<T: Tree<Fact = F>>(
        &mut self,
        alloc: Global,
        tree: &T,
        ask: Ask,
    ) -> Result<bool, AllocError>
        requires { IsAllWithin (T.search tree.now) self.old }
        ensures { (w : Pending F) (words : List (Pending F)) → AllWithin (T.search tree.now) self.old (w ∷ words) → AllGoOn (T.search tree.now) self.new (parts (T.search tree.now) w (ask_node ask) ++ words) result }
    {
        if self.cursor.ask(tree, ask)? {
            Ok(true)
        } else {
            Ok(self.next_root(alloc, tree))
        }
    }

    /// Goes on to the sides of a split of the node's system.
    pub fn split<T: Tree<Fact = F>>(
        &mut self,
        tree: &T,
        unknown: u32,
        floor: i128,
    ) -> Result<(), AllocError>
        requires within { IsAllWithin (T.search tree.now) self.old }
        requires floor { IsSplit unknown floor }
        requires unknown { unknown < (T.search tree.now).unknowns self.old.cursor.start (reverse self.old.cursor.facts.items) }
        ensures { (w : Pending F) (words : List (Pending F)) → AllWithin (T.search tree.now) self.old (w ∷ words) → IfOk result (λ _. AllWithin (T.search tree.now) self.new (parts (T.search tree.now) w (Split unknown floor) ++ words)) }
    {
        let _tree = tree;
        self.cursor.split(unknown, floor)
    }

    /// Goes on to the next tree, and says whether there is one.
    fn next_root<T: Tree<Fact = F>>(&mut self, alloc: Global, tree: &T) -> bool
        requires { self.old.root < 2 ^ 31 }
        ensures { AllGoOn (T.search tree.now) self.new (drop (self.old.root + 1) (T.search tree.now).roots) (Ok result) }
    {
        let next = self.root + 1;
        match tree.root(next) {
            None => false,
            Some(start) => {
                self.cursor = Cursor::new(alloc, start);
                self.root = next;
                true
            }
        }
    }
}

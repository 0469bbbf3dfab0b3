//! Solves the systems of a branch by full dictionaries, each from the dictionary of one above it.
//!
//! A child's system begins with its parent's rows; its new unknowns have coefficient 0 there, and
//! its new slacks have greater numbers. So the pivots of the parent are the first pivots of the
//! child (`prefixes_go_first`), and the child goes on from the parent's last dictionary, extended
//! by the new rows, with the result that it has from nothing. The branch keeps the dictionaries of
//! the nodes that ended at a basic feasible solution, and one list of pivots for all: those that
//! led to a node are the first of the list.
//!
//! The caller says how many rows of a system are those of the system before. Dictionaries with more
//! rows than these are given up, and the last one left is extended; where none is left, the system
//! begins with its slacks. All together hold about 48 MB at most; beyond that the outermost are
//! given up. No result depends on which are at hand.
#![tactic(auto)]

ghost use Rattle.std.specs.Prelude.{ℕ, ◌≡◌, ◌<◌, ◌^◌, List, IfOk, IfErr, IsTrue, length, map, reverse, []};
ghost use Rattle.std.specs.Bool.{OnFalse, OnTrue};
ghost use Rattle.ta_dense.specs.Slack.{slack_tableau, variables};
ghost use Rattle.ta_linear.specs.declared.row.Row.{Row};
ghost use Rattle.ta_simplex.specs.Ends.{IsEnd, IsSolveFault};
ghost use Rattle.ta_simplex.specs.Follows.{Follows};
ghost use Rattle.ta_simplex.specs.FullBranch.{IsFullBranch, LastFits, SharesFullRows};

use crate::End;
use crate::effort::Effort;
use crate::fault::SolveFault;
use crate::solving::{Ended, resume};
use std::alloc::{AllocError, Global};
use ta_dense::{Dictionary, ExtendFault};
use ta_linear::System;

/// The bytes that dictionaries may hold together.
pub(crate) const LIMIT: usize = 48_000_000;

/// A system that ended at a vertex: how many unknowns and rows it has, its dictionary there, how many
/// pivots led to it, and about how many bytes the dictionary holds alone.
#[derive(Drop)]
pub struct Standing<D: Dictionary> {
    pub(crate) unknowns: u32,
    pub(crate) rows: usize,
    pub(crate) dictionary: D,
    pub(crate) pivots: usize,
    pub(crate) bytes: usize,
}

/// The systems of a branch of a tree, each of which begins with the rows of the one before, with the
/// pivots that led to the last of their dictionaries. A system that begins with the rows of one of
/// them goes on from there; no answer depends on which are at hand.
#[derive(Drop)]
pub struct FullBranch<D: Dictionary> {
    pub(crate) systems: Vec<Standing<D>>,
    pub(crate) kept: Vec<D::Kept>,
    pub(crate) effort: Effort,
}

impl<D: Dictionary> FullBranch<D> {
    /// A branch of no system. It takes no memory.
    pub fn new(alloc: Global) -> FullBranch<D>
        ensures { (rows : List Row) → IsFullBranch D.tableau D.pivot_of rows result }
    {
        FullBranch {
            systems: Vec::new(alloc),
            kept: Vec::new(alloc),
            effort: Effort::default(),
        }
    }

    /// Whether no system is left.
    pub fn is_empty(&self) -> bool {
        self.systems.len() == 0
    }

    /// What the solving of its systems took so far.
    pub fn effort(&self) -> Effort
        ensures { result ≡ self.now.effort }
    {
        self.effort
    }

    /// Solves a system, so many of whose first rows are those of the systems of the branch, as
    /// `solve` does. It goes on from the last system of the branch all of whose rows are among these;
    /// the ones after that are given up; where none is left, it begins with its slacks. A system that
    /// ends at a vertex becomes the last of the branch.
    pub fn solve(&mut self, alloc: Global, system: &System, same: usize) -> Result<End, SolveFault>
        requires room { variables system.now < 2 ^ 32 }
        requires branch { SharesFullRows D.tableau D.pivot_of self.old same system.now.rows }
        ensures ok { IfOk result (IsEnd system.now) }
        ensures branch { IfOk result (λ end. IsFullBranch D.tableau D.pivot_of system.now.rows self.new) }
        ensures fault { IfErr result (IsSolveFault system.now) }
    {
        self.give_up_last(system, same);
        let first = self.first_dictionary(alloc, system)?;
        let before = self.kept.len();
        let Ended { end, dictionary } = resume(alloc, system, first, &mut self.kept)?;
        let pivots = self.kept.len().saturating_sub(before);
        self.effort.add_full(pivots);
        match end {
            End::Refuted(multipliers) => Ok(End::Refuted(multipliers)),
            End::Vertex(values) => {
                self.stand(system, dictionary)?;
                Ok(End::Vertex(values))
            }
        }
    }

    /// Gives up the last systems, as long as they have more rows than are the same.
    pub(crate) fn give_up_last(&mut self, system: &System, same: usize)
        requires { SharesFullRows D.tableau D.pivot_of self.old same system.now.rows }
        ensures branch { IsFullBranch D.tableau D.pivot_of system.now.rows self.new }
        ensures fits { LastFits system.now.unknowns same (reverse self.new.systems.items) }
    {
        while self.last_is_apart(system.unknowns, same) {
            let _given_up = self.systems.pop();
        }
    }

    // Whether there is a last system and it has more unknowns, or more rows than are the same.
    fn last_is_apart(&self, unknowns: u32, same: usize) -> bool
        ensures apart { OnTrue result (0 < length self.now.systems.items) }
        ensures fits { OnFalse result (LastFits unknowns same (reverse self.now.systems.items)) }
    {
        match self.systems.as_slice().split_last() {
            None => false,
            Some((last, _)) => last.unknowns > unknowns || last.rows > same,
        }
    }

    // The dictionary of a system after the pivots of the last system.
    fn first_dictionary(&mut self, alloc: Global, system: &System) -> Result<D, SolveFault>
        requires room { variables system.now < 2 ^ 32 }
        requires branch { IsFullBranch D.tableau D.pivot_of system.now.rows self.old }
        requires fits { (same : ℕ) × LastFits system.now.unknowns same (reverse self.old.systems.items) }
        ensures follows { IfOk result (λ d. Follows (slack_tableau system.now) (map D.pivot_of self.new.kept.items) (length self.new.kept.items) (D.tableau d)) }
        ensures branch { IfOk result (λ d. IsFullBranch D.tableau D.pivot_of system.now.rows self.new) }
        ensures fault { IfErr result (IsSolveFault system.now) }
    {
        match self.systems.as_slice().split_last() {
            None => {
                self.effort.begin();
                self.kept.truncate(0);
                Ok(D::from_system(alloc, system)?)
            }
            Some((last, _)) => {
                self.kept.truncate(last.pivots);
                match last.dictionary.extend(alloc, system, self.kept.as_slice()) {
                    Ok(first) => Ok(first),
                    Err(ExtendFault::Overflow { pivot, .. }) => Err(SolveFault::Overflow(
                        (pivot as u64).saturating_add(1),
                    )),
                    Err(ExtendFault::Memory) => Err(SolveFault::Memory),
                }
            }
        }
    }

    // Takes a system that ended at a vertex as the last one, and gives up the first ones where the
    // dictionaries hold too much together.
    fn stand(&mut self, system: &System, dictionary: D) -> Result<(), AllocError>
        requires follows { Follows (slack_tableau system.now) (map D.pivot_of self.old.kept.items) (length self.old.kept.items) (D.tableau dictionary) }
        requires branch { IsFullBranch D.tableau D.pivot_of system.now.rows self.old }
        ensures { IfOk result (λ done. IsFullBranch D.tableau D.pivot_of system.now.rows self.new) }
    {
        let pivots = self.kept.len();
        let bytes = dictionary.bytes();
        self.systems.push(Standing {
            unknowns: system.unknowns,
            rows: system.row_count(),
            dictionary,
            pivots,
            bytes,
        })?;
        self.give_up_first();
        Ok(())
    }

    // Gives up the first systems as long as the dictionaries hold too much.
    fn give_up_first(&mut self)
        ensures { (rows : List Row) → IsFullBranch D.tableau D.pivot_of rows self.old → IsFullBranch D.tableau D.pivot_of rows self.new }
    {
        while self.systems.len() > 0 && bytes_of(self.systems.as_slice()) > LIMIT {
            let _given_up = self.systems.remove(0);
            self.effort.give_up();
        }
    }
}

// About how many bytes dictionaries hold together.
fn bytes_of<D: Dictionary>(systems: &[Standing<D>]) -> usize {
    let mut bytes: usize = 0;
    for standing in systems {
        bytes = bytes.saturating_add(standing.bytes);
    }
    bytes
}

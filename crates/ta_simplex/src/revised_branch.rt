//! Solves the systems of a branch by revised dictionaries, each from the dictionary of one above it.
//!
//! The pivots that led to the dictionary of a parent are the first pivots of its child, whose new
//! rows change none of the unknowns' rows. So the child begins with its parent's rows, and no pivot
//! is made again. That the new rows stay in range in the parent's pivots is shown by bounds: all
//! dictionaries that led there were modest.
#![tactic(auto)]

ghost use Rattle.std.specs.Prelude.{ℕ, ◌≡◌, ◌<◌, ◌^◌, List, IfOk, IfSome, length, reverse};
ghost use Rattle.std.specs.Bool.{OnFalse, OnTrue};
ghost use Rattle.ta_dense.specs.Slack.{variables};
ghost use Rattle.ta_linear.specs.declared.row.Row.{Row};
ghost use Rattle.ta_revised.specs.Negative.{NoneNegativeAt};
ghost use Rattle.ta_revised.specs.ShortRows.{AreShort};
ghost use Rattle.ta_simplex.specs.Ends.{IsEnd};
ghost use Rattle.ta_simplex.specs.RevisedRuns.{Begins, IsRevisedBranch, IsUnderWay, RevisedFits, SharesRevisedRows};

use crate::End;
use crate::effort::Effort;
use crate::full_branch::LIMIT;
use crate::revised_run::{Beginning, Ran, run_revised};
use std::alloc::{AllocError, Global};
use ta_linear::System;
use ta_revised::{RevisedDictionary, ShortRows};

/// A system that ended at a vertex: how many unknowns and rows it has, its dictionary there, and
/// about how many bytes that holds alone.
#[derive(Drop)]
pub struct RevisedStanding {
    pub(crate) unknowns: u32,
    pub(crate) rows: usize,
    pub(crate) dictionary: RevisedDictionary,
    pub(crate) bytes: usize,
}

/// The systems of a branch of a tree, each of which begins with the rows of the one before, and the
/// rows of the last one in short numbers, as far as these were written.
#[derive(Drop)]
pub struct RevisedBranch {
    pub(crate) systems: Vec<RevisedStanding>,
    pub(crate) short: ShortRows,
}

impl RevisedBranch {
    /// A branch of no system. It takes no memory.
    pub(crate) fn new(alloc: Global) -> RevisedBranch
        ensures { (rows : List Row) → IsRevisedBranch rows result }
    {
        RevisedBranch {
            systems: Vec::new(alloc),
            short: ShortRows::new(alloc),
        }
    }

    /// Gives up the last systems, as long as they have more rows than are the same, and the rows that
    /// aren't.
    pub(crate) fn give_up_last(&mut self, system: &System, same: usize)
        requires { SharesRevisedRows self.old same system.now.rows }
        ensures branch { IsRevisedBranch system.now.rows self.new }
        ensures fits { RevisedFits system.now.unknowns same (reverse self.new.systems.items) }
    {
        while self.last_is_apart(system.unknowns, same) {
            let _given_up = self.systems.pop();
        }
        self.short.cut(same);
    }

    // Whether there is a last system and it has more unknowns, or more rows than are the same.
    fn last_is_apart(&self, unknowns: u32, same: usize) -> bool
        ensures apart { OnTrue result (0 < length self.now.systems.items) }
        ensures fits { OnFalse result (RevisedFits unknowns same (reverse self.now.systems.items)) }
    {
        match self.systems.as_slice().split_last() {
            None => false,
            Some((last, _)) => last.unknowns > unknowns || last.rows > same,
        }
    }

    /// Solves a system that begins with the rows of the last one, where the bounds of revised
    /// dictionaries suffice. One that ends at a vertex becomes the last of the branch.
    pub(crate) fn solve(
        &mut self,
        alloc: Global,
        system: &System,
        effort: &mut Effort,
    ) -> Result<Option<End>, AllocError>
        requires room { variables system.now < 2 ^ 32 }
        requires branch { IsRevisedBranch system.now.rows self.old }
        requires fits { (same : ℕ) × RevisedFits system.now.unknowns same (reverse self.old.systems.items) }
        ensures end { IfOk result (λ o. IfSome o (IsEnd system.now)) }
        ensures branch { IfOk result (λ o. IsRevisedBranch system.now.rows self.new) }
    {
        let Some(first) = self.beginning(alloc, system, effort)? else {
            return Ok(None);
        };
        let Some(ran) = run_revised(alloc, system, &self.short, first)? else {
            return Ok(None);
        };
        let Ran {
            end,
            dictionary,
            pivots,
        } = ran;
        effort.add(pivots);
        match end {
            End::Refuted(multipliers) => Ok(Some(End::Refuted(multipliers))),
            End::Vertex(values) => {
                self.stand(system, dictionary, effort)?;
                Ok(Some(End::Vertex(values)))
            }
        }
    }

    // The unknowns' rows of a system after the pivots of the last system, where its rows are modest.
    // These are written in short numbers then, and those of the last system hold.
    fn beginning(
        &mut self,
        alloc: Global,
        system: &System,
        effort: &mut Effort,
    ) -> Result<Option<Beginning>, AllocError>
        requires room { variables system.now < 2 ^ 32 }
        requires branch { IsRevisedBranch system.now.rows self.old }
        requires fits { (same : ℕ) × RevisedFits system.now.unknowns same (reverse self.old.systems.items) }
        ensures first { IfOk result (λ o. IfSome o (Begins system.now)) }
        ensures short { IfOk result (λ o. IfSome o (λ b. AreShort self.new.short system.now.rows)) }
        ensures branch { IfOk result (λ o. IsRevisedBranch system.now.rows self.new) }
    {
        if !self.short.extend(system.rows.as_slice())? {
            return Ok(None);
        }
        match self.systems.as_slice().split_last() {
            None => {
                effort.begin();
                Ok(Some(Beginning {
                    dictionary: RevisedDictionary::first(alloc, system.unknowns)?,
                    hold: 0,
                }))
            }
            Some((last, _)) => Ok(Some(Beginning {
                dictionary: last.dictionary.grown(alloc, system.unknowns)?,
                hold: last.rows,
            })),
        }
    }

    // Takes a system that ended at a vertex as the last one, and gives up the first ones where the
    // dictionaries hold too much together.
    fn stand(
        &mut self,
        system: &System,
        dictionary: RevisedDictionary,
        effort: &mut Effort,
    ) -> Result<(), AllocError>
        requires dictionary { IsUnderWay system.now dictionary }
        requires holds { NoneNegativeAt system.now dictionary }
        requires branch { IsRevisedBranch system.now.rows self.old }
        ensures { IfOk result (λ done. IsRevisedBranch system.now.rows self.new) }
    {
        let bytes = dictionary.bytes();
        self.systems.push(RevisedStanding {
            unknowns: system.unknowns,
            rows: system.row_count(),
            dictionary,
            bytes,
        })?;
        self.give_up_first(effort);
        Ok(())
    }

    // Gives up the first systems as long as the dictionaries hold too much.
    fn give_up_first(&mut self, effort: &mut Effort)
        ensures { (rows : List Row) → IsRevisedBranch rows self.old → IsRevisedBranch rows self.new }
    {
        while self.systems.len() > 0 && bytes_of(self.systems.as_slice()) > LIMIT {
            let _given_up = self.systems.remove(0);
            effort.give_up();
        }
    }
}

// About how many bytes dictionaries hold together.
fn bytes_of(systems: &[RevisedStanding]) -> usize {
    let mut bytes: usize = 0;
    for standing in systems {
        bytes = bytes.saturating_add(standing.bytes);
    }
    bytes
}

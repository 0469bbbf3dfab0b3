//! Solves the systems of a branch of a tree, each from what stands of one above it.
//!
//! A system is solved by revised dictionaries (revised_branch.rt), which keep the rows of the
//! unknowns alone. Where their bounds don't suffice, full dictionaries are taken (full_branch.rt),
//! for this system and for those below it. Both come to the end that the rule has, and no result
//! depends on which was taken.
#![tactic(auto)]

ghost use Rattle.std.specs.Prelude.{◌≡◌, ◌<◌, ◌^◌, List, IfOk, IfErr};
ghost use Rattle.ta_dense.specs.Slack.{variables};
ghost use Rattle.ta_linear.specs.declared.row.Row.{Row};
ghost use Rattle.ta_simplex.specs.Ends.{IsEnd, IsSolveFault};
ghost use Rattle.ta_simplex.specs.Branch.{IsBranch, SharesRows};

use crate::End;
use crate::effort::Effort;
use crate::fault::SolveFault;
use crate::full_branch::FullBranch;
use crate::revised_branch::RevisedBranch;
use std::alloc::Global;
use ta_dense::Dictionary;
use ta_linear::System;

/// The systems of a branch of a tree, each of which begins with the rows of the one before. A system
/// that begins with the rows of one of them goes on from there; no answer depends on which are at
/// hand.
#[derive(Drop)]
pub struct Branch<D: Dictionary> {
    pub(crate) revised: RevisedBranch,
    pub(crate) full: FullBranch<D>,
}

impl<D: Dictionary> Branch<D> {
    /// A branch of no system. It takes no memory.
    pub fn new(alloc: Global) -> Branch<D>
        ensures { (rows : List Row) → IsBranch D.tableau D.pivot_of rows result }
    {
        Branch {
            revised: RevisedBranch::new(alloc),
            full: FullBranch::new(alloc),
        }
    }

    /// What the solving of its systems took so far.
    pub fn effort(&self) -> Effort
        ensures { result ≡ self.now.full.effort }
    {
        self.full.effort()
    }

    /// Solves a system, so many of whose first rows are those of the systems of the branch, as
    /// `solve` does. It goes on from the last system of the branch all of whose rows are among these;
    /// the ones after that are given up; where none is left, it begins with its slacks. A system that
    /// ends at a vertex becomes the last of the branch.
    pub fn solve(&mut self, alloc: Global, system: &System, same: usize) -> Result<End, SolveFault>
        requires room { variables system.now < 2 ^ 32 }
        requires branch { SharesRows D.tableau D.pivot_of self.old same system.now.rows }
        ensures ok { IfOk result (IsEnd system.now) }
        ensures branch { IfOk result (λ end. IsBranch D.tableau D.pivot_of system.now.rows self.new) }
        ensures fault { IfErr result (IsSolveFault system.now) }
    {
        self.full.give_up_last(system, same);
        self.revised.give_up_last(system, same);
        if self.full.is_empty() {
            if let Some(end) = self.revised.solve(alloc, system, &mut self.full.effort)? {
                return Ok(end);
            }
        }
        self.full.solve(alloc, system, same)
    }
}

//! Nodes that are cut to a node above them.
//!
//! Facts write behind what is there, so a node begins with the unknowns, moments and rows of each
//! node above it. A mark has the numbers of these.
#![tactic(auto)]

ghost use Rattle.std.specs.Prelude.{ℕ, ◌≡◌, ◌++◌, List, Option, length, take};
ghost use Rattle.ta_moments.specs.declared.fact.Fact.{Fact};
ghost use Rattle.ta_moments.specs.Moments.{known};
ghost use Rattle.ta_moment_tree.specs.Cuts.{IsMark};
ghost use Rattle.ta_moment_tree.specs.Nodes.{IsNode};

use crate::draft::Draft;
use crate::encoding::MomentEncoding;

/// How many unknowns, moments and rows a node has.
#[derive(Clone, Copy, Debug, PartialEq, Eq)]
pub struct NodeMark {
    pub unknowns: usize,
    pub moments: usize,
    pub rows: usize,
}

impl<'a> MomentEncoding<'a> {
    /// The node's mark.
    pub fn mark(&self) -> NodeMark
        ensures mark { (silent : List ℕ) (candidate : Option ℕ) (past : List Fact) → IsNode silent candidate past self.now → IsMark (known self.now.plan.task.automaton.now self.now.plan.task.pattern.now silent candidate past) result }
        ensures rows { result.rows ≡ length self.now.draft.rows.items }
    {
        NodeMark {
            unknowns: self.draft.unknowns,
            moments: self.draft.moments.len(),
            rows: self.draft.rows.len(),
        }
    }

    /// The node above that has this mark.
    pub fn cut(self, mark: NodeMark) -> MomentEncoding<'a>
        ensures task { result.plan.task ≡ self.entry.plan.task }
        ensures node { (silent : List ℕ) (candidate : Option ℕ) (newer past : List Fact) → IsNode silent candidate (newer ++ past) self.entry → IsMark (known self.entry.plan.task.automaton.now self.entry.plan.task.pattern.now silent candidate past) mark
            → IsNode silent candidate past result }
        ensures rows { result.draft.rows.items ≡ take mark.rows self.entry.draft.rows.items }
    {
        let MomentEncoding { plan, draft } = self;
        let Draft {
            unknowns: _,
            end,
            mut moments,
            mut rows,
        } = draft;
        moments.truncate(mark.moments);
        rows.truncate(mark.rows);
        MomentEncoding {
            plan,
            draft: Draft {
                unknowns: mark.unknowns,
                end,
                moments,
                rows,
            },
        }
    }
}

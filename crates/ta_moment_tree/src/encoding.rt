//! The unknowns, moments and rows of a node of the tree of questions, fact by fact.
#![tactic(auto)]

ghost use Rattle.std.specs.Prelude.{ℕ, ◌<◌, ◌^◌, ◌≡◌, ◌∷◌, [], IfOk, List, Option};
ghost use Rattle.ta_base.specs.Masks.{In};
ghost use Rattle.ta_moments.specs.Facts.{candidates};
ghost use Rattle.ta_moments.specs.declared.fact.Fact.{Fact};
ghost use Rattle.ta_encode.specs.Inside.Lines.{IsBehind};
ghost use Rattle.ta_moment_tree.specs.Nodes.{IsNode, IsSomeNode};

use crate::draft::Draft;
use crate::facts::with_fact;
use crate::first::first;
use crate::plan::Plan;
use std::alloc::{AllocError, Global};
use ta_automaton::Task;
use ta_moments::Fact;

/// A node of a pattern's tree of questions, without bounds: how many unknowns it has, its moments and
/// its rows.
#[derive(Drop)]
pub struct MomentEncoding<'a> {
    pub(crate) plan: Plan<'a>,
    pub(crate) draft: Draft,
}

impl<'a> MomentEncoding<'a> {
    /// The node of a candidate without facts. Only want of memory is an error.
    pub fn first(
        alloc: Global,
        task: Task<'a>,
        candidate: Option<u32>,
    ) -> Result<MomentEncoding<'a>, AllocError>
        requires { In candidate (candidates task.pattern.now) }
        ensures task { IfOk result (λ node. node.plan.task ≡ task.entry) }
        ensures node { IfOk result (λ node. (silent : List ℕ) → IsNode silent candidate [] node) }
    {
        let (plan, draft) = first(alloc, task, candidate)?;
        Ok(MomentEncoding { plan, draft })
    }

    /// The node with one more fact, with these silent places. What the node had comes first. Only
    /// want of memory is an error.
    pub fn with_fact(self, silent: &[u32], fact: Fact) -> Result<MomentEncoding<'a>, AllocError>
        requires node { IsSomeNode silent.now self }
        requires room { self.draft.unknowns < 2 ^ 31 }
        ensures task { IfOk result (λ node. node.plan.task ≡ self.entry.plan.task) }
        ensures node { (candidate : Option ℕ) (past : List Fact) → IsNode silent.now candidate past self.entry → IfOk result (IsNode silent.now candidate (fact ∷ past)) }
        ensures rows { IfOk result (λ node. IsBehind self.entry.draft.rows.items node.draft.rows.items) }
        ensures moments { IfOk result (λ node. IsBehind self.entry.draft.moments.items node.draft.moments.items) }
    {
        let MomentEncoding { plan, draft } = self;
        let draft = with_fact(&plan, silent, fact, draft)?;
        Ok(MomentEncoding { plan, draft })
    }
}

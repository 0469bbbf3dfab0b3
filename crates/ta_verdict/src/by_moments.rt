//! The verdict on a pattern by its moments.
#![tactic(auto)]

ghost use Rattle.std.specs.Prelude.{◌<◌, ◌≤◌, IfOk, length, true};
ghost use Rattle.ta_automaton.specs.Numbered.{OfPattern};
ghost use Rattle.ta_report.specs.Report.{VerdictFits};
ghost use Rattle.ta_verdict.specs.Certificates.{tree_by};
ghost use Rattle.ta_verdict.specs.Drafts.{DraftHasTree};
ghost use Rattle.ta_verdict.specs.Verdicts.{holds_by};

use crate::draft::Draft;
use crate::sampling::report_kind;
use std::alloc::{AllocError, Global};
use ta_base::limits::MOST_NODES;
use ta_dense::DenseDictionary;
use ta_report::Verdict;
use ta_scope::ScopedFile;
use ta_walk::{MomentEnd, visit_moments};

/// The verdict on the pattern of a number by its moments. The lines of its tree, if it is safe, stand
/// at the end of a draft then.
pub fn moments_verdict(
    alloc: Global,
    scoped: &ScopedFile,
    pattern: u32,
    nodes: u64,
    draft: &mut Draft,
) -> Result<Verdict, AllocError>
    requires limit { nodes ≤ MOST_NODES }
    requires exists { pattern < length scoped.now.file.patterns }
    ensures holds { IfOk result (λ verdict. OfPattern scoped.now.file pattern (λ p. holds_by true scoped.now.file nodes pattern p verdict)) }
    ensures fits { IfOk result (VerdictFits scoped.now.file) }
    ensures drafted { IfOk result (λ verdict. OfPattern scoped.now.file pattern (λ p. DraftHasTree (tree_by true scoped.now.file nodes) p verdict draft.old draft.new)) }
{
    match visit_moments::<DenseDictionary, Draft>(
        alloc,
        scoped,
        pattern,
        false,
        &[],
        nodes,
        draft,
    )? {
        MomentEnd::Refuted { count, leaves } => Ok(Verdict::Safe {
            nodes: count,
            leaves,
        }),
        MomentEnd::Found { count, run } => Ok(Verdict::Unsafe { nodes: count, run }),
        MomentEnd::Spent { count } => Ok(Verdict::Spent { nodes: count }),
        MomentEnd::Overflow { node, kind } => Ok(Verdict::Overflow {
            node,
            kind: report_kind(kind),
        }),
    }
}

//! What words, their systems and their refutations say of runs. The functions do nothing: their
//! contracts state the laws.
#![tactic(auto)]

ghost use Rattle.ta_encode.specs.InPreorder.{ProofsAreDetermined, ProofsReadInOrder};
ghost use Rattle.ta_encode.specs.Refutes.{IsLeaf};
ghost use Rattle.ta_encode.specs.Laws.{ProofsLeaveNoSolution, ProofsShowSafety, RunsReorder, RunsReorderTo, SolutionsBecomeRuns, StepsOfSolutionsRun};

/// Every run in which a pattern occurs is described by a word whose system it solves, under any good
/// pairs of rise guards: within one moment a fall comes first, then the rises in an order that keeps
/// the pairs, then the events, those of a lower number first.
pub fn runs_reorder()
    ensures word { RunsReorder }
    ensures end { RunsReorderTo }
{}

/// A pattern that has a proof under good pairs of rise guards occurs in no run.
pub fn proofs_show_safety()
    ensures { ProofsShowSafety }
{}

/// Where a pattern has a proof, no complete legal word has a natural solution.
pub fn proofs_leave_no_solution()
    ensures { ProofsLeaveNoSolution }
{}

/// A complete legal word with a natural solution gives a run in which the pattern occurs: any steps
/// that go forward make one, and where no rule with an update lies on a cycle there are such steps.
pub fn solutions_become_runs()
    ensures these { StepsOfSolutionsRun }
    ensures some { SolutionsBecomeRuns }
{}

/// A proof may be judged node by node, and a list of nodes is that of at most one proof.
pub fn proofs_read_in_order<E>()
    ensures in_order { ProofsReadInOrder {E = E} IsLeaf }
    ensures determined { ProofsAreDetermined E }
{}

//! What refuted trees of moments say. The functions do nothing: their contracts state the laws.
#![tactic(auto)]

ghost use Rattle.ta_walk.specs.Deciding.{BudgetsOfConesSuffice, ConesAreDecided, ConesAreNotSplit};
ghost use Rattle.ta_walk.specs.Laws.{FoundNodesHaveOneRun, RefutedMomentsHold, RefutedRestMomentsHold};

use ta_moments::questions_may_be_asked;

/// The nodes of a whole tree of moments are a proof that a judge accepts, and the pattern is safe; at
/// rest, no run in which it occurs comes to quiet rest.
pub fn refuted_moments_hold()
    ensures safe { RefutedMomentsHold }
    ensures rest { RefutedRestMomentsHold }
{}

/// A whole node has one run.
pub fn found_nodes_have_one_run()
    ensures { FoundNodesHaveOneRun }
{}

/// Where no guard falls and no condition has a positive constant, a node is split, and a budget for each
/// answer of each question is spent, only where a number leaves the range. So each end of a visit says
/// that the pattern is safe, that a run shows it, or that a number leaves the range.
pub fn moments_decide_cones()
    ensures split { ConesAreNotSplit }
    ensures spent { BudgetsOfConesSuffice }
    ensures ends { ConesAreDecided }
{
    questions_may_be_asked();
}

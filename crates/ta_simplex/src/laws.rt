//! Laws of the least-index rule, each the contract of a function that does nothing.
#![tactic(auto)]

ghost use Rattle.ta_simplex.specs.Answers.{RunsHaveEnds, SystemsHaveEnds};
ghost use Rattle.ta_simplex.specs.Laws.{EndsAreDetermined, MultipliersAreFew, PrefixesGoFirst, RunsAreDetermined, ScaledVerticesSolve, WholeVerticesSolve};

/// The rule leaves no choice: a system has one list of bases and at most one end.
pub fn runs_are_determined()
    ensures { RunsAreDetermined }
{}

/// However a system is written, it has one end: one list of multipliers, or one of values. It has none
/// where a pivot leaves 128 bits, and that pivot has one number.
pub fn ends_are_determined()
    ensures { EndsAreDetermined }
{}

/// A vertex whose values are all whole is a solution.
pub fn whole_vertices_solve()
    ensures { WholeVerticesSolve }
{}

/// A vertex of rows without positive constants is a solution, once it is multiplied by its scale.
pub fn scaled_vertices_solve()
    ensures { ScaledVerticesSolve }
{}

/// A refutation has at most one multiplier more than the system has unknowns.
pub fn multipliers_are_few()
    ensures { MultipliersAreFew }
{}

/// The pivots of a system are the first pivots of each longer system that begins with it.
pub fn prefixes_go_first()
    ensures { PrefixesGoFirst }
{}

/// The rule's run ends for each system, and the system is refuted or has a vertex; or some pivot
/// leaves the range.
pub fn runs_have_ends()
    ensures runs { RunsHaveEnds }
    ensures systems { SystemsHaveEnds }
{}

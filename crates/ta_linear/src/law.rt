//! Laws of forms, rows and systems.
#![tactic(auto)]

ghost use Rattle.ta_linear.specs.Laws.{LeavesHaveNoSolution, MultiplesScaleValues, MultiplesStayInRange, NegatedRowsExclude, NegationsStayInRange, SumsAddValues, SumsStayInRange};

/// It does nothing: its contract says that where a form is the result of a sum, a multiple or a
/// negation, nothing left the range, so that Overflow comes exactly where something does.
pub fn results_stay_in_range()
    ensures sums { SumsStayInRange }
    ensures multiples { MultiplesStayInRange }
    ensures negations { NegationsStayInRange }
{}

/// It does nothing: its contract says how values go with sums, multiples and negated rows.
pub fn values_follow()
    ensures sums { SumsAddValues }
    ensures multiples { MultiplesScaleValues }
    ensures negated { NegatedRowsExclude }
{}

/// It does nothing: its contract says that a leaf refutes each natural solution.
pub fn leaf_has_no_solution()
    ensures { LeavesHaveNoSolution }
{}

//! Laws of revised dictionaries, each the contract of a function that does nothing.
#![tactic(auto)]

ghost use Rattle.ta_revised.specs.Laws.{ModestPivotsStay, NegativesLeave, PivotsKeepRevised, RowsAreRevised, SlacksAreRevised};

/// Where every slack is basic, each unknown belongs to its own column.
pub fn slacks_are_revised()
    ensures { SlacksAreRevised }
{}

/// The least variable with a negative value leaves; where none is negative, none leaves.
pub fn negatives_leave()
    ensures { NegativesLeave }
{}

/// The rows of a dictionary are those of the unknowns, and for slacks the sums of these.
pub fn rows_are_revised()
    ensures { RowsAreRevised }
{}

/// A pivot of the dictionary changes each unknown's row as `pivot` does.
pub fn pivots_keep_revised()
    ensures { PivotsKeepRevised }
{}

/// Where the unknowns' rows and the system's are modest, no number of the pivot leaves 128 bits.
pub fn modest_pivots_stay_in_range()
    ensures { ModestPivotsStay }
{}

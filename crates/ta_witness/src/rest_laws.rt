//! What the runs of solutions of systems of rest say. The functions do nothing: their contracts state the laws.
#![tactic(auto)]

ghost use Rattle.ta_witness.specs.Laws.{OwnRunsRest, RestSolutionsSolve, RestWitnessesAreDetermined, RestWitnessesRest};

/// A solution of a word's system of rest solves the word's system.
pub fn rest_solutions_solve()
    ensures { RestSolutionsSolve }
{}

/// The run of a solution of a system of rest ends at rest.
pub fn rest_witnesses_rest()
    ensures { RestWitnessesRest }
{}

/// A run of an ending that comes to rest is one of the pattern itself, less the mark of an added event.
pub fn own_runs_rest()
    ensures { OwnRunsRest }
{}

/// A solution has one run less the mark.
pub fn rest_witnesses_are_determined()
    ensures { RestWitnessesAreDetermined }
{}

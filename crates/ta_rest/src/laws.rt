//! What the systems of rest say of runs. The functions do nothing: their contracts state the laws.
#![tactic(auto)]

ghost use Rattle.ta_rest.specs.Laws.{EndingsRestAlike, EndsOfSolutionsRest, RefutedEndingsRest, RefutedEndingsShow, RestingRunsSolve, SolutionsComeToRest, StepsOfSolutionsRest};
ghost use Rattle.ta_rest.specs.Moves.{MovesAreBounded};

/// A run comes to rest for a pattern exactly where it does for the pattern's ending.
pub fn endings_rest_alike()
    ensures { EndingsRestAlike }
{}

/// In an automaton whose cycles are self-loops every run has few steps between locations: at most as
/// many as the number of processes times the number of locations but one.
pub fn moves_are_bounded()
    ensures { MovesAreBounded }
{}

/// Every run that has come to rest where the pattern's last event happens is described by a complete
/// word whose system of rest it solves.
pub fn resting_runs_solve()
    ensures { RestingRunsSolve }
{}

/// Where the words of rest of a pattern are refuted, no run comes to rest so; where those of its
/// ending are, no run in which the pattern occurs comes to rest.
pub fn refuted_endings_rest()
    ensures own { RefutedEndingsRest }
    ensures show { RefutedEndingsShow }
{}

/// The run of a solution of a complete word's system of rest comes to rest.
pub fn solutions_come_to_rest()
    ensures these { StepsOfSolutionsRest }
    ensures some { SolutionsComeToRest }
    ensures ends { EndsOfSolutionsRest }
{}

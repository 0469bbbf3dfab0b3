//! How a solution of a node becomes an execution. The functions do nothing: their contracts state the laws.
#![tactic(auto)]

ghost use Rattle.ta_moments.specs.Chains.{ChainsBecomeRuns, LinksLeadOn, PicturesBecomeRuns, PicturesShowPatterns, SettledPositionsAreAChain};
ghost use Rattle.ta_moments.specs.Nodes.{SettledMomentsBecomeRuns, SettledMomentsStandApart, StartsBecomeConfigurations, VerticesOfConesBecomeRuns, WholeNodesBecomeRuns, WholeNodesComeToRest, WholeNodesHaveShortRuns, WholeNodesOfFilesBecomeRuns};

/// Counts that are comparable two by two are a chain in the order of their sums.
pub fn settled_positions_are_a_chain()
    ensures { SettledPositionsAreAChain }
{}

/// From counts to the next ones of a chain lead steps of the automaton.
pub fn links_lead_on()
    ensures { LinksLeadOn }
{}

/// A chain of counts is a run that comes through them in order.
pub fn chains_become_runs()
    ensures { ChainsBecomeRuns }
{}

/// Positions that are settled two by two, whose rules' guards hold at first and last uses, are a run.
pub fn pictures_become_runs()
    ensures { PicturesBecomeRuns }
{}

/// Such positions, with one for each event, are a run in which the pattern occurs.
pub fn pictures_show_patterns()
    ensures { PicturesShowPatterns }
{}

/// Natural values that meet the rows at the start are an initial configuration, and a form over
/// places has at a vector the value that it has after the vector's counts.
pub fn starts_become_configurations()
    ensures { StartsBecomeConfigurations }
{}

/// Of two settled moments neither has a position inside the other, and their positions are comparable.
pub fn settled_moments_stand_apart()
    ensures { SettledMomentsStandApart }
{}

/// Natural values that meet the rows at the start, with settled moments at which the needed guards
/// hold, are a run in which the pattern occurs, with the values' parameters and start counts.
pub fn settled_moments_become_runs()
    ensures { SettledMomentsBecomeRuns }
{}

/// Natural values that meet a node's rows, and at which no question is left, are a run in which the
/// pattern occurs, with the values' parameters and start counts.
pub fn whole_nodes_become_runs()
    ensures runs { WholeNodesBecomeRuns }
    ensures of_files { WholeNodesOfFilesBecomeRuns }
    ensures short { WholeNodesHaveShortRuns }
{}

/// At rest such values, for a pattern's ending, are a run that comes to quiet rest where the pattern's
/// last event happens.
pub fn whole_nodes_come_to_rest()
    ensures { WholeNodesComeToRest }
{}

/// Where no condition has a positive constant and no guard falls, a vertex of a node that leaves no
/// question is a run, once it is multiplied by its denominator.
pub fn vertices_of_cones_become_runs()
    ensures { VerticesOfConesBecomeRuns }
{}

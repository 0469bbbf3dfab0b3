//! What the ends of walks say. The functions do nothing: their contracts state the laws.
#![tactic(auto)]

ghost use Rattle.ta_walk.specs.Answers.{SearchesHaveEnds, WalksHaveEnds, WordsHaveSystems};
ghost use Rattle.ta_walk.specs.Ends.{EndingsAreDetermined, WalksAreDetermined, FoundWordsAreSolved, RefutedClaimsHold, WholeNodesSolve};
ghost use Rattle.ta_walk.specs.Samples.{SampleEndsAreDetermined, SamplesAreReal};
ghost use Rattle.ta_walk.specs.Splits.{SpentNeedsSplits};

/// A search has one tree, and one end within a budget.
pub fn endings_are_determined<E>()
    ensures { EndingsAreDetermined E }
{}

/// The values of a whole node of a search solve its word's system.
pub fn whole_nodes_solve<E>()
    ensures { WholeNodesSolve E }
{}

/// A pattern has one tree, and its walk within a budget one end.
pub fn ends_are_determined()
    ensures { WalksAreDetermined }
{}

/// The nodes of a claim's whole tree are a proof of it, which can be written in lines, and the claim
/// holds.
pub fn refuted_claims_hold()
    ensures { RefutedClaimsHold }
{}

/// What a walk finds is a complete word with a solution.
pub fn found_words_are_solved()
    ensures { FoundWordsAreSolved }
{}

/// The search for a sample has one end within a budget.
pub fn sample_ends_are_determined()
    ensures { SampleEndsAreDetermined }
{}

/// A sample has an initial configuration, and where there is none, no parameters have one.
pub fn samples_are_real()
    ensures { SamplesAreReal }
{}

/// A search whose words have systems ends within each budget.
pub fn searches_have_ends<E>()
    ensures { SearchesHaveEnds E }
{}

/// The walk of each pattern of a file ends within each budget, whatever is claimed of it, and so does the
/// search for a sample: the words of all have systems.
pub fn walks_have_ends()
    ensures systems { WordsHaveSystems }
    ensures ends { WalksHaveEnds }
{}

/// Where there are no more pairs of a start set and a word that is legal under the pairs of rise guards
/// than the budget allows nodes, the visit spends it only where it split a node: without splits no two
/// nodes have the same start set and word.
pub fn spent_needs_splits()
    ensures { SpentNeedsSplits }
{}

//! The bounds that every node keeps. The functions do nothing: their contracts state the laws.
#![tactic(auto)]

ghost use Rattle.ta_moment_tree.specs.Sizes.{NodesStaySmall, SearchStaysSmall};

/// A node whose facts answer questions that could be asked has fewer unknowns and rows than 40,000,000
/// and its bounds; so has each node that the search comes to.
pub fn nodes_stay_small()
    ensures nodes { NodesStaySmall }
    ensures search { SearchStaysSmall }
{}

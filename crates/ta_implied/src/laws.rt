//! What pairs of guards say of configurations. The function does nothing: its contract states the laws.
#![tactic(auto)]

ghost use Rattle.ta_implied.specs.Implied.{GuardsComeAfter, LeavesImply};
ghost use Rattle.ta_implied.specs.Orders.{GuardsCanBeOrdered};

/// Where a pair's system has a leaf, the guard that comes before holds wherever the one that comes
/// after does; so a guard that holds has all true from which a chain of such pairs leads to it.
pub fn guards_come_after()
    ensures one { LeavesImply }
    ensures chain { GuardsComeAfter }
{}

/// Under pairs without a circle any guards can be put into an order in which of each pair the one
/// before stands earlier.
pub fn guards_can_be_ordered()
    ensures { GuardsCanBeOrdered }
{}

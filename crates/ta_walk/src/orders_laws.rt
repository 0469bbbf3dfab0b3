//! What the orders say that the maker finds. The functions do nothing: their contracts state the laws.
#![tactic(auto)]

ghost use Rattle.ta_walk.specs.FoundOrders.{FoundOrdersAreDetermined, FoundOrdersAreSound};

/// The orders of an automaton that are found are one list.
pub fn found_orders_are_determined()
    ensures { FoundOrdersAreDetermined }
{}

/// Each order that is found has a leaf that a judge accepts, no chain of them leads from a guard back
/// to itself, and they can be written as lines.
pub fn found_orders_are_sound()
    ensures { FoundOrdersAreSound }
{}

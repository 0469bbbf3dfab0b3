//! The children of a word by their numbers.
#![tactic(auto)]

ghost use Rattle.std.specs.Prelude.{◌≡◌, reverse, slice_get};
ghost use Rattle.ta_words.specs.Words.{children};

use ta_implied::Orders;
use ta_words::{Element, NarrowTask, children};

/// The element that may follow others under pairs of rise guards and has a number, from 0, among
/// those that may.
pub(crate) fn child(
    task: NarrowTask<'_>,
    start_mask: u8,
    orders: &Orders,
    elements: &[Element],
    number: usize,
) -> Option<Element>
    ensures { result ≡ slice_get (children task.entry.automaton.now task.entry.pattern.now orders.now start_mask (reverse elements.now)) number }
{
    children(task, start_mask, orders, elements)
        .elements()
        .get(number)
        .copied()
}

//! What is asked of the end of a complete schema where runs are to end in a deadlock.
#![tactic(auto)]

ghost use Rattle.std.specs.Prelude.{ℕ, ◌≡◌, ◌||◌, Some, length, reverse, slice_get};
ghost use Rattle.ta_base.specs.Masks.{has_bit, any_below};
ghost use Rattle.ta_automaton.specs.Shape.{RuleWithin};
ghost use Rattle.ta_rest.specs.RestSearch.{leads_out};
ghost use Rattle.ta_rest.specs.RestEnds.{IsEndOf, IsRestEnd};

use ta_automaton::{Automaton, Rule};
use ta_encode::WordEnd;
use ta_words::{Element, NarrowTask, is_complete, is_unlocked, risen_after};

/// What is asked of a word's end where the word is complete: the rise guards that aren't in it fail,
/// and nobody is in a location out of which a rule could lead.
pub(crate) fn rest_end(
    task: NarrowTask<'_>,
    start_mask: u8,
    elements: &[Element],
) -> Option<WordEnd>
    ensures { IsRestEnd task.entry.automaton.now task.entry.pattern.now start_mask (reverse elements.now) result }
{
    if !is_complete(task, elements) {
        return None;
    }
    Some(end_of(task, start_mask, elements))
}

/// What is asked at the end of a complete word of these elements.
fn end_of(task: NarrowTask<'_>, start_mask: u8, elements: &[Element]) -> WordEnd
    ensures { IsEndOf task.entry.automaton.now task.entry.pattern.now start_mask (reverse elements.now) result }
{
    let left = left_after(task.automaton, start_mask, elements);
    WordEnd {
        failing: !risen_after(elements),
        inhabited: !(!task.pattern.empty & left),
    }
}

/// The locations out of which a rule leads to another, with guards that hold after some elements:
/// bit l for location l.
fn left_after(automaton: &Automaton, start_mask: u8, elements: &[Element]) -> u128
    ensures { (l : ℕ) → has_bit result l ≡ any_below (length automaton.now.rules) (λ r. leads_out automaton.now start_mask (reverse elements.now) l (slice_get automaton.now.rules r)) }
{
    let mut left = 0u128;
    for rule in automaton.rules.as_slice() {
        left = with_left(automaton, start_mask, elements, rule, left);
    }
    left
}

/// The locations, with that out of which a rule leads so.
fn with_left(
    automaton: &Automaton,
    start_mask: u8,
    elements: &[Element],
    rule: &Rule,
    left: u128,
) -> u128
    requires { RuleWithin (length automaton.now.shared) (length automaton.now.locations) (length automaton.now.rise) (length automaton.now.fall) rule.now }
    ensures { (l : ℕ) → has_bit result l ≡ (leads_out automaton.now start_mask (reverse elements.now) l (Some rule.now) || has_bit left l) }
{
    if rule.from != rule.to && is_unlocked(automaton, start_mask, elements, rule) {
        return left | 1 << rule.from;
    }
    left
}

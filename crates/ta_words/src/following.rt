//! What may follow a word: its children, and the rules that may fire behind it.
//!
//! Children come in one order: events, rises, falls, each by number. A proof has one tree for each,
//! so the automaton determines how a certificate is read. An Event may follow if the events that it
//! comes after are in the word, a Rise if the guards that its pairs put before it are, a Fall if
//! each of its guards still holds. A rule may fire if its rise guards are in the word, none of its
//! fall guards has fallen, and it leads from one location to another, none of them kept empty: a
//! self-loop changes nothing. All of this depends on three masks (seen.rt) and not on the order of
//! the word.
#![tactic(auto)]

ghost use Rattle.std.specs.Prelude.{ℕ, ◌≡◌, ◌<◌, ◌&&◌, length, not, reverse, slice_get};
ghost use Rattle.ta_base.specs.Masks.{all_below, has_bit, implies};
ghost use Rattle.ta_automaton.specs.Shape.{RuleWithin};
ghost use Rattle.ta_words.specs.Words.{children, has_fallen, has_rise, is_complete, may_fire};

use crate::child_list::Children;
use crate::element::Element;
use crate::narrow_task::NarrowTask;
use crate::seen::Seen;
use crate::word::Word;
use ta_automaton::{Automaton, Rule};
use ta_implied::Orders;

/// The elements that may follow others under pairs of rise guards, in order; a complete word has
/// none.
pub fn children(
    task: NarrowTask<'_>,
    start_mask: u8,
    orders: &Orders,
    elements: &[Element],
) -> Children
    ensures { result ≡ children task.entry.automaton.now task.entry.pattern.now orders.now start_mask (reverse elements.now) }
{
    let seen = Seen::of(start_mask, elements);
    let mut children = Children::new();
    if !seen.is_complete(task.pattern) {
        children.push_events(task.pattern, seen);
        children.push_rises(task.automaton, orders, seen);
        children.push_falls(task.automaton, seen);
    }
    children
}

/// Whether each event of the pattern is among some elements.
pub fn is_complete(task: NarrowTask<'_>, elements: &[Element]) -> bool
    ensures { result ≡ is_complete task.entry.pattern.now (reverse elements.now) }
{
    Seen::of(0, elements).is_complete(task.pattern)
}

/// The rules that are allowed after a word: bit r for rule r.
pub fn allowed_rules(task: NarrowTask<'_>, start_mask: u8, word: &Word) -> u128
    ensures { (r : ℕ) → has_bit result r ≡ may_fire task.entry.automaton.now task.entry.pattern.now start_mask (reverse word.now) (slice_get task.entry.automaton.now.rules r) }
{
    allowed_after(task, start_mask, word.elements())
}

/// The rules that are allowed after some elements: bit r for rule r.
pub fn allowed_after(task: NarrowTask<'_>, start_mask: u8, elements: &[Element]) -> u128
    ensures { (r : ℕ) → has_bit result r ≡ may_fire task.entry.automaton.now task.entry.pattern.now start_mask (reverse elements.now) (slice_get task.entry.automaton.now.rules r) }
{
    let seen = Seen::of(start_mask, elements);
    let mut allowed = 0u128;
    for (number, rule) in task.automaton.rules.as_slice().iter().enumerate() {
        if seen.may_fire(task.automaton, task.pattern, rule) {
            allowed |= 1 << number;
        }
    }
    allowed
}

/// The fall guards that are in the start set or have fallen in some elements: bit j for fall guard j.
pub fn fallen_after(start_mask: u8, elements: &[Element]) -> u128
    ensures { (j : ℕ) → has_bit result j ≡ has_fallen start_mask (reverse elements.now) j }
{
    Seen::of(start_mask, elements).fallen
}

/// The rise guards that are in some elements: bit i for rise guard i.
pub fn risen_after(elements: &[Element]) -> u128
    ensures { (i : ℕ) → i < 128 → has_bit result i ≡ has_rise (reverse elements.now) i }
{
    Seen::of(0, elements).rises
}

/// Whether the rise guards of a rule are in some elements, and none of its fall guards is in the
/// start set or has fallen.
pub fn is_unlocked(automaton: &Automaton, start_mask: u8, elements: &[Element], rule: &Rule) -> bool
    requires { RuleWithin (length automaton.now.shared) (length automaton.now.locations) (length automaton.now.rise) (length automaton.now.fall) rule.now }
    ensures { result ≡ (all_below (length automaton.now.rise) (λ i. implies (has_bit rule.now.rise i) (has_rise (reverse elements.now) i))
        && all_below (length automaton.now.fall) (λ j. implies (has_bit rule.now.fall j) (not (has_fallen start_mask (reverse elements.now) j)))) }
{
    Seen::of(start_mask, elements).is_unlocked(automaton, rule)
}

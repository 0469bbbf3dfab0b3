//! What a word says of events and guards, as three masks.
#![tactic(auto)]

ghost use Rattle.std.specs.Prelude.{ℕ, ◌<◌, ◌≤◌, ◌^◌, ◌≡◌, ◌∷◌, ◌==◌, ◌&&◌, List, Some, length, not, reverse};
ghost use Rattle.ta_automaton.specs.Shape.{RuleWithin};
ghost use Rattle.ta_base.specs.Masks.{all_below, has_bit, implies};
ghost use Rattle.ta_words.specs.Seen.{EventsNamed, IsSeen, NamesBefore};
ghost use Rattle.ta_words.specs.Words.{has_event, has_fallen, has_rise, is_complete, is_standing, may_fire, may_rise};

use crate::element::Element;
use ta_automaton::{Automaton, Pattern, Rule};
use ta_base::masks;

/// The masks of a word's events and rise guards, and of the fall guards that are in the start set or have fallen.
#[derive(Clone, Copy)]
pub(crate) struct Seen {
    pub(crate) events: u128,
    pub(crate) rises: u128,
    pub(crate) fallen: u128,
}

impl Seen {
    /// The masks of a word.
    pub(crate) fn of(start_mask: u8, word: &[Element]) -> Seen
        ensures { IsSeen result start_mask (reverse word.now) }
    {
        let mut seen = Seen {
            events: 0,
            rises: 0,
            fallen: u128::from(start_mask),
        };
        for element in word {
            seen = seen.with(*element);
        }
        seen
    }

    fn with(self, element: Element) -> Seen
        ensures { (start : ℕ) (past : List Element) → IsSeen self start past → IsSeen result start (element ∷ past) }
    {
        match element {
            Element::Event(event) => Seen {
                events: masks::with(self.events, event),
                ..self
            },
            Element::Rise(rise) => Seen {
                rises: masks::with(self.rises, rise),
                ..self
            },
            Element::Fall(fall) => Seen {
                fallen: masks::union(self.fallen, u128::from(fall)),
                ..self
            },
        }
    }

    /// Whether the word has each event of a pattern.
    pub(crate) fn is_complete(self, pattern: &Pattern) -> bool
        requires { length pattern.now.events ≤ 8 }
        ensures { (start : ℕ) (past : List Element) → IsSeen self start past → result ≡ is_complete pattern.now past }
    {
        let all = (1u128 << pattern.events.as_slice().len()) - 1;
        masks::is_subset(all, self.events)
    }

    /// Whether an event is not in the word, and those that it comes after are.
    pub(crate) fn is_ready(self, event: u32, after: u8) -> bool
        requires { event < 128 }
        ensures { (start : ℕ) (past : List Element) (n : ℕ) → IsSeen self start past → after < 2 ^ n → n ≤ 128
            → result ≡ (not (has_event past event) && all_below n (λ f. implies (has_bit after f) (has_event past f))) }
    {
        !masks::contains(self.events, event) && masks::is_subset(u128::from(after), self.events)
    }

    /// Whether a rise guard is not in the word, and the set of those that come before it is.
    pub(crate) fn may_rise(self, rise: u32, before: u64) -> bool
        requires { rise < 128 }
        ensures { (start : ℕ) (past : List Element) (pairs : List (ℕ × ℕ)) → IsSeen self start past → NamesBefore pairs rise before
            → result ≡ may_rise pairs past rise }
    {
        !masks::contains(self.rises, rise) && masks::is_subset(u128::from(before), self.rises)
    }

    /// Whether no fall guard of a set is in the start set or has fallen.
    pub(crate) fn is_standing(self, automaton: &Automaton, falls: u8) -> bool
        requires { falls < 2 ^ length automaton.now.fall }
        ensures { (start : ℕ) (past : List Element) → IsSeen self start past → result ≡ is_standing automaton.now start past falls }
    {
        masks::is_disjoint(u128::from(falls), self.fallen)
    }

    /// Whether a rule is allowed after the word.
    pub(crate) fn may_fire(self, automaton: &Automaton, pattern: &Pattern, rule: &Rule) -> bool
        requires { RuleWithin (length automaton.now.shared) (length automaton.now.locations) (length automaton.now.rise) (length automaton.now.fall) rule.now }
        ensures { (start : ℕ) (past : List Element) → IsSeen self start past → result ≡ may_fire automaton.now pattern.now start past (Some rule.now) }
    {
        moves_outside(rule, pattern.empty) && self.is_unlocked(automaton, rule)
    }

    /// Whether the rise guards of a rule are in the word, and none of its fall guards has fallen.
    pub(crate) fn is_unlocked(self, automaton: &Automaton, rule: &Rule) -> bool
        requires { RuleWithin (length automaton.now.shared) (length automaton.now.locations) (length automaton.now.rise) (length automaton.now.fall) rule.now }
        ensures { (start : ℕ) (past : List Element) → IsSeen self start past
            → result ≡ (all_below (length automaton.now.rise) (λ i. implies (has_bit rule.now.rise i) (has_rise past i))
            && all_below (length automaton.now.fall) (λ j. implies (has_bit rule.now.fall j) (not (has_fallen start past j)))) }
    {
        masks::is_subset(u128::from(rule.rise), self.rises)
            && masks::is_disjoint(u128::from(rule.fall), self.fallen)
    }
}

/// Whether a rule leads to another location, and neither is in a set.
fn moves_outside(rule: &Rule, locations: u128) -> bool
    requires from { rule.now.from < 128 }
    requires to { rule.now.to < 128 }
    ensures { result ≡ (not (rule.now.from == rule.now.to) && (not (has_bit locations rule.now.from) && not (has_bit locations rule.now.to))) }
{
    if rule.from == rule.to {
        return false;
    }
    !masks::contains(locations, rule.from) && !masks::contains(locations, rule.to)
}

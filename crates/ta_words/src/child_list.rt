//! Lists of elements that may follow a word.
#![tactic(auto)]

ghost use Rattle.std.specs.Prelude.{ℕ, ◌+◌, ◌-◌, ◌≡◌, ◌≤◌, ◌<◌, ◌^◌, ◌++◌, ◌∷◌, ◌↔◌, IsTrue, List, [], filter, length, map};
ghost use Rattle.ta_words.specs.declared.element.Element.TheVariants.{Event, Fall, Rise};
ghost use Rattle.ta_automaton.specs.Narrow.{IsNarrow};
ghost use Rattle.ta_base.specs.Masks.{In};
ghost use Rattle.std.specs.List.{range_with_len};
ghost use Rattle.ta_words.specs.Seen.{EventsNamed, IsSeen};
ghost use Rattle.ta_words.specs.Words.{is_ready, is_standing, may_rise};

use crate::element::Element;
use crate::seen::Seen;
use arrayvec::ArrayVec;
use std::marker::Model;
use ta_automaton::{Automaton, Pattern};
use ta_base::limits::{MOST_CHILDREN, MOST_EVENTS, MOST_FALL_SETS, MOST_RISES};
use ta_implied::Orders;

/// A list of at most 87 elements: 8 events, 16 rise guards and 63 sets of fall guards. Contracts
/// see it as that list.
#[derive(Drop)]
pub struct Children {
    elements: ArrayVec<Element, MOST_CHILDREN>,
}

impl Model for Children {
    ghost use Rattle.std.specs.Prelude.{List};
    ghost use Rattle.ta_words.specs.declared.element.Element.{Element};

    ghost Value = { List Element };

    ghost view = { λ s. s.elements.items };
}

impl Children {
    /// The elements, in order.
    pub fn elements(&self) -> &[Element]
        ensures { result.now ≡ self.now }
    {
        self.elements.as_slice()
    }

    pub(crate) fn contains(&self, element: Element) -> bool
        ensures { IsTrue result ↔ In element self.now }
    {
        for child in self.elements() {
            if child.is(element) {
                return true;
            }
        }
        false
    }

    pub(crate) fn new() -> Children
        ensures { result ≡ [] }
    {
        Children {
            elements: ArrayVec::new(),
        }
    }

    fn push(&mut self, element: Element)
        requires { length self.old < MOST_CHILDREN }
        ensures { self.new ≡ self.old ++ element ∷ [] }
    {
        self.elements.push(element);
    }

    pub(crate) fn push_events(&mut self, pattern: &Pattern, seen: Seen)
        requires named { EventsNamed pattern.now }
        requires room { length self.old + MOST_EVENTS ≤ MOST_CHILDREN }
        ensures { (start : ℕ) (past : List Element) → IsSeen seen start past
            → self.new ≡ self.old ++ map Event (filter (is_ready pattern.now past) (range_with_len 0 (length pattern.now.events))) }
    {
        for (number, event) in pattern.events.as_slice().iter().enumerate() {
            if seen.is_ready(number as u32, event.after) {
                self.push(Element::Event(number as u32));
            }
        }
    }

    pub(crate) fn push_rises(&mut self, automaton: &Automaton, orders: &Orders, seen: Seen)
        requires narrow { IsNarrow automaton.now }
        requires room { length self.old + MOST_RISES ≤ MOST_CHILDREN }
        ensures { (start : ℕ) (past : List Element) → IsSeen seen start past
            → self.new ≡ self.old ++ map Rise (filter (may_rise orders.now past) (range_with_len 0 (length automaton.now.rise))) }
    {
        for rise in 0..automaton.rise.as_slice().len() {
            if seen.may_rise(rise as u32, orders.mask(rise as u32)) {
                self.push(Element::Rise(rise as u32));
            }
        }
    }

    pub(crate) fn push_falls(&mut self, automaton: &Automaton, seen: Seen)
        requires narrow { IsNarrow automaton.now }
        requires room { length self.old + MOST_FALL_SETS ≤ MOST_CHILDREN }
        ensures { (start : ℕ) (past : List Element) → IsSeen seen start past
            → self.new ≡ self.old ++ map Fall (filter (is_standing automaton.now start past) (range_with_len 1 (2 ^ length automaton.now.fall - 1))) }
    {
        for falls in 1..1u8 << automaton.fall.as_slice().len() {
            if seen.is_standing(automaton, falls) {
                self.push(Element::Fall(falls));
            }
        }
    }
}

//! Words: lists of at most 30 elements.
#![tactic(auto)]

ghost use Rattle.std.specs.Prelude.{◌≡◌, ◌≤◌, ◌++◌, ◌∷◌, ◌↔◌, IsTrue, [], if◌then◌else◌, length as list_length, reverse, take};
ghost use Rattle.ta_base.specs.Masks.{In};
ghost use Rattle.ta_words.specs.Words.{LegalWord, children};

use crate::element::Element;
use crate::following::children;
use crate::narrow_task::NarrowTask;
use arrayvec::ArrayVec;
use std::marker::Model;
use ta_base::limits::LONGEST_WORD;
use ta_implied::Orders;

/// A list of at most 30 elements, which contracts see as that list. It is legal for a pattern and
/// a start set if each element is a child of the elements before it.
#[derive(Drop)]
pub struct Word {
    elements: ArrayVec<Element, LONGEST_WORD>,
}

impl Model for Word {
    ghost use Rattle.std.specs.Prelude.{List, ◌≤◌, length};
    ghost use Rattle.ta_base.specs.declared.limits.TheConstants.{LONGEST_WORD};
    ghost use Rattle.ta_words.specs.declared.element.Element.{Element};

    ghost Value = { List Element };

    ghost view = { λ s. s.elements.items };

    ghost invariant = { λ s. length s.elements.items ≤ LONGEST_WORD };
}

impl Word {
    /// The empty word.
    pub fn new() -> Word
        ensures { result ≡ [] }
    {
        Word {
            elements: ArrayVec::new(),
        }
    }

    /// The same word once more.
    pub fn again(&self) -> Word
        ensures { result ≡ self.now }
    {
        let all = self.elements.as_slice();
        let mut elements = ArrayVec::new();
        match elements.try_extend_from_slice(all) {
            Ok(()) => Word { elements },
            Err(_) => unreachable!(),
        }
    }

    /// The word of these elements.
    pub fn of(elements: &[Element]) -> Word
        requires { list_length elements.now ≤ LONGEST_WORD }
        ensures { result ≡ elements.now }
    {
        let mut copies = ArrayVec::new();
        match copies.try_extend_from_slice(elements) {
            Ok(()) => Word { elements: copies },
            Err(_) => unreachable!(),
        }
    }

    /// The elements, in order.
    pub fn elements(&self) -> &[Element]
        ensures { result.now ≡ self.now }
    {
        self.elements.as_slice()
    }

    /// Keeps the first `length` elements.
    pub fn cut(&mut self, length: usize)
        requires { length ≤ list_length self.old }
        ensures { self.new ≡ take length self.old }
    {
        self.elements.truncate(length);
    }

    /// Appends an element if it may follow the word under pairs of rise guards, and says whether it
    /// may.
    pub fn push(
        &mut self,
        task: NarrowTask<'_>,
        start_mask: u8,
        orders: &Orders,
        element: Element,
    ) -> bool
        requires { LegalWord task.automaton.now task.pattern.now start_mask (reverse self.old) }
        ensures child { IsTrue result ↔ In element (children task.entry.automaton.now task.entry.pattern.now orders.now start_mask (reverse self.old)) }
        ensures word { self.new ≡ (if result then self.old ++ element ∷ [] else self.old) }
    {
        let is_child = children(task, start_mask, orders, self.elements()).contains(element);
        if is_child {
            self.elements.push(element);
        }
        is_child
    }
}

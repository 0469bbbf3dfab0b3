//! The unknowns and rows of a word, element by element.
#![tactic(auto)]

ghost use Rattle.std.specs.Prelude.{ℕ, ◌+◌, ◌^◌, ◌≤◌, ◌<◌, ◌∷◌, [], IfOk, OnOk, filter, length, reverse, map};
ghost use Rattle.ta_base.specs.Masks.{has_bit};
ghost use Rattle.std.specs.List.{range_with_len};
ghost use Rattle.ta_encode.specs.Inside.Draft.{AddsUnknowns, Continues, IsDraft};
ghost use Rattle.ta_encode.specs.Inside.Firings.{firing};

use crate::draft::Draft;
use crate::origin::Origin;
use crate::unknowns::push_firings;
use std::alloc::{AllocError, Global};
use ta_automaton::Task;
use ta_base::limits::LONGEST_WORD;
use ta_words::{Element, NarrowTask, allowed_after, fallen_after};

impl<'a> Draft<'a> {
    /// The unknowns and rows at the start.
    pub(crate) fn start(alloc: Global, origin: &Origin<'a>) -> Result<Draft<'a>, AllocError>
        ensures { IfOk result (IsDraft origin.now []) }
    {
        let NarrowTask { automaton, pattern } = origin.task;
        let mut draft = Draft::begin(alloc, Task { automaton, pattern })?;
        draft.push_start_guards(origin.start_mask)?;
        Ok(draft)
    }

    /// A Count before an element for each rule in a set, or a Single.
    fn push_firings(&mut self, allowed: u128, element: u32, single: bool) -> Result<(), AllocError>
        requires narrow { length self.old.automaton.now.rules ≤ 128 }
        requires room { length self.old.meanings.items + 128 < 2 ^ 32 }
        ensures { OnOk result (AddsUnknowns (map (firing single element) (filter (has_bit allowed) (range_with_len 0 (length self.old.automaton.now.rules)))) self.old self.new) }
    {
        let rules = self.automaton.rules.as_slice().len();
        push_firings(rules, allowed, element, single, &mut self.meanings)?;
        Ok(())
    }

    /// The unknowns and rows of an element after others.
    pub(crate) fn push_element(
        &mut self,
        origin: &Origin,
        before: &[Element],
        element: Element,
    ) -> Result<(), AllocError>
        requires few { length before.now < LONGEST_WORD }
        requires drafted { IsDraft origin.now (reverse before.now) self.old }
        ensures { OnOk result (Continues origin.now (element ∷ reverse before.now) self.old self.new) }
    {
        let number = before.len() as u32;
        let pattern = origin.task.pattern;
        let empty = pattern.empty;
        let allowed = allowed_after(origin.task, origin.start_mask, before);
        let fallen = fallen_after(origin.start_mask, before);
        self.push_firings(allowed, number, false)?;
        match element {
            Element::Rise(rise) => self.push_rise(empty, fallen, rise)?,
            Element::Event(event) => self.push_event(pattern, fallen, event)?,
            Element::Fall(falls) => {
                let from = self.meanings.len();
                let after = fallen | u128::from(falls);
                self.push_falling(empty, falls)?;
                self.push_firings(allowed, number, true)?;
                self.push_singles(from)?;
                self.push_fallen(empty, falls, after)?;
            }
        }
        Ok(())
    }

    /// The unknowns and rows of elements, from those at the start on.
    pub(crate) fn push_elements(
        &mut self,
        origin: &Origin,
        elements: &[Element],
    ) -> Result<(), AllocError>
        requires few { length elements.now ≤ LONGEST_WORD }
        requires drafted { IsDraft origin.now [] self.old }
        ensures { OnOk result (IsDraft origin.now (reverse elements.now) self.new) }
    {
        for (number, element) in elements.iter().enumerate() {
            self.push_element(origin, &elements[..number], *element)?;
        }
        Ok(())
    }
}

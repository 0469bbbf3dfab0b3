//! How many unknowns a word has.
#![tactic(auto)]

ghost use Rattle.std.specs.Prelude.{ℕ, ◌+◌, ◌≡◌, ◌≤◌, ◌∷◌, filter, length, not, reverse};
ghost use Rattle.ta_base.specs.Masks.{has_bit};
ghost use Rattle.std.specs.List.{range_with_len};
ghost use Rattle.ta_words.specs.Words.{LegalWord};
ghost use Rattle.ta_encode.specs.Unknowns.{meanings, start_meanings};

use ta_automaton::{Automaton, Pattern};
use ta_words::{Element, NarrowTask, allowed_after};

/// How many unknowns the system of the word of these elements has. It takes no memory.
pub fn unknown_count(task: NarrowTask<'_>, start_mask: u8, elements: &[Element]) -> u32
    requires { LegalWord task.automaton.now task.pattern.now start_mask (reverse elements.now) }
    ensures { result ≡ length (meanings task.entry.automaton.now task.entry.pattern.now start_mask (reverse elements.now)) }
{
    let mut count = start_count(task.automaton, task.pattern);
    for (number, element) in elements.iter().enumerate() {
        count += element_count(task, start_mask, &elements[..number], *element);
    }
    count
}

/// How many unknowns there are at the start.
pub fn start_count(automaton: &Automaton, pattern: &Pattern) -> u32
    ensures value { result ≡ length (start_meanings automaton.now pattern.now) }
    ensures few { result ≤ 160 }
{
    let mut count = automaton.parameters.as_slice().len() as u32;
    for location in automaton.initial.as_slice() {
        if pattern.empty & (1 << *location) == 0 {
            count += 1;
        }
    }
    count
}

/// How many unknowns an element adds.
fn element_count(task: NarrowTask<'_>, start_mask: u8, before: &[Element], element: Element) -> u32
    ensures value { length (meanings task.entry.automaton.now task.entry.pattern.now start_mask (element ∷ reverse before.now)) ≡ length (meanings task.entry.automaton.now task.entry.pattern.now start_mask (reverse before.now)) + result }
    ensures few { result ≤ 256 }
{
    let rules = task.automaton.rules.as_slice().len();
    let allowed = firing_count(rules, allowed_after(task, start_mask, before));
    match element {
        Element::Event(_) => allowed,
        Element::Rise(_) => allowed,
        Element::Fall(_) => 2 * allowed,
    }
}

/// How many rules are in a set.
fn firing_count(rules: usize, allowed: u128) -> u32
    requires { rules ≤ 128 }
    ensures value { result ≡ length (filter (has_bit allowed) (range_with_len 0 rules)) }
    ensures few { result ≤ 128 }
{
    let mut count = 0;
    for rule in 0..rules {
        if allowed & (1 << rule) != 0 {
            count += 1;
        }
    }
    count
}

//! The unknowns of a word.
#![tactic(auto)]

ghost use Rattle.std.specs.Prelude.{ℕ, ◌+◌, ◌≡◌, ◌≤◌, ◌++◌, IfOk, OnOk, filter, length, map, not};
ghost use Rattle.ta_base.specs.Masks.{has_bit};
ghost use Rattle.std.specs.List.{range_with_len};
ghost use Rattle.ta_encode.specs.Unknowns.{Parameter, Start, start_meanings};
ghost use Rattle.ta_encode.specs.Inside.Firings.{firing};

use crate::meaning::Meaning;
use std::alloc::{AllocError, Global};
use ta_automaton::{Automaton, Pattern};

/// The unknowns at the start.
pub(crate) fn start_meanings(
    alloc: Global,
    automaton: &Automaton,
    pattern: &Pattern,
) -> Result<Vec<Meaning>, AllocError>
    ensures { IfOk result (λ meanings. meanings.items ≡ start_meanings automaton.now pattern.now) }
{
    let mut meanings = Vec::new(alloc);
    push_parameters(automaton.parameters.as_slice().len(), &mut meanings)?;
    push_starts(automaton, pattern.empty, &mut meanings)?;
    Ok(meanings)
}

pub(crate) fn push_parameters(count: usize, meanings: &mut Vec<Meaning>) -> Result<(), AllocError>
    requires { count ≤ 32 }
    ensures { OnOk result (meanings.new.items ≡ meanings.old.items ++ map Parameter (range_with_len 0 count)) }
{
    for parameter in 0..count {
        meanings.push(Meaning::Parameter(parameter as u32))?;
    }
    Ok(())
}

pub(crate) fn push_starts(
    automaton: &Automaton,
    empty: u128,
    meanings: &mut Vec<Meaning>,
) -> Result<(), AllocError>
    ensures { OnOk result (meanings.new.items ≡ meanings.old.items ++ map Start (filter (λ l. not (has_bit empty l)) automaton.now.initial)) }
{
    for location in automaton.initial.as_slice() {
        if empty & (1 << *location) == 0 {
            meanings.push(Meaning::Start(*location))?;
        }
    }
    Ok(())
}

/// A Count before an element for each rule in a set, or a Single.
pub(crate) fn push_firings(
    rules: usize,
    allowed: u128,
    element: u32,
    single: bool,
    meanings: &mut Vec<Meaning>,
) -> Result<(), AllocError>
    requires { rules ≤ 128 }
    ensures items { OnOk result (meanings.new.items ≡ meanings.old.items ++ map (firing single element) (filter (has_bit allowed) (range_with_len 0 rules))) }
    ensures most { length meanings.new.items ≤ length meanings.old.items + rules }
{
    for rule in 0..rules {
        if allowed & (1 << rule) != 0 {
            meanings.push(firing(single, element, rule as u32))?;
        }
    }
    Ok(())
}

fn firing(single: bool, element: u32, rule: u32) -> Meaning
    ensures { result ≡ firing single element rule }
{
    if single {
        Meaning::Single { element, rule }
    } else {
        Meaning::Count { element, rule }
    }
}

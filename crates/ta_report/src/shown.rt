//! Lists whose items have numbers, sums and masks.
#![tactic(auto)]

ghost use Rattle.std.specs.Prelude.{◌≡◌, ◌==◌, ◌∷◌, ◌++◌, [], ℕ, OnOk, string_bytes, decimal, length, unsigned_abs};
ghost use Rattle.ta_automaton.specs.declared.automaton.Automaton.{Automaton};
ghost use Rattle.ta_report.specs.Show.{amount_text, constant_text, each, first_sign, first_text, listed, mask_text, name_at, next_sign, numbered, place_name, sum_text, term_text};

use std::alloc::AllocError;
use ta_automaton::Automaton;
use ta_base::masks::contains;
use ta_base::{List, Text};
use ta_linear::Form;

/// What a list of a file has.
pub trait Shown {
    ghost use Rattle.std.specs.Prelude.{List};

    ghost shown: { Automaton → Self → List ℕ };

    /// Writes an item behind what is there.
    fn show(&self, automaton: &Automaton, text: &mut String) -> Result<(), AllocError>
        ensures { OnOk result (string_bytes text.new ≡ string_bytes text.old ++ shown automaton.now self.now) };
}

/// Writes items with their numbers.
fn show_numbered<T: Shown>(
    items: &[T],
    automaton: &Automaton,
    text: &mut String,
) -> Result<(), AllocError>
    ensures { OnOk result (string_bytes text.new ≡ string_bytes text.old ++ numbered (T.shown automaton.now) 0 items.now) }
{
    'items: for (number, item) in items.iter().enumerate() {
        write!(text, "{}: ", number)?;
        item.show(automaton, text)?;
    }
    Ok(())
}

/// Writes a list: its word, how many items there are, and the items with their numbers.
pub fn show_listed<T: Shown>(
    word: &str,
    items: &List<T>,
    automaton: &Automaton,
    text: &mut String,
) -> Result<(), AllocError>
    ensures { OnOk result (string_bytes text.new ≡ string_bytes text.old ++ listed word.now (T.shown automaton.now) items.now) }
{
    let items = items.as_slice();
    write!(text, "{}{}\n", word, items.len())?;
    show_numbered(items, automaton, text)
}

/// The name with a number; there are only names of numbers below that of names.
pub fn name_at(names: &[Text], number: u32) -> &str
    ensures { result.now ≡ name_at names.now number }
{
    match names.get(number as usize) {
        Some(name) => name.as_str(),
        None => "",
    }
}

/// The name of a place.
pub fn place_name(automaton: &Automaton, place: u32) -> &str
    ensures { result.now ≡ place_name automaton.now place }
{
    let parameters = automaton.parameters.as_slice();
    let shared = automaton.shared.as_slice();
    let place = place as usize;
    if let Some(name) = parameters.get(place) {
        return name.as_str();
    }
    let behind = place - parameters.len();
    if let Some(name) = shared.get(behind) {
        return name.as_str();
    }
    match automaton.locations.as_slice().get(behind - shared.len()) {
        Some(name) => name.as_str(),
        None => "",
    }
}

/// The sign of what stands first in a sum.
fn first_sign(number: i128) -> &'static str
    ensures { result.now ≡ first_sign number }
{
    if number < 0 { "-" } else { "" }
}

/// The sign of what stands behind something in a sum.
fn next_sign(number: i128) -> &'static str
    ensures { result.now ≡ next_sign number }
{
    if number < 0 { "- " } else { "+ " }
}

/// Writes so many of a place, without the sign.
fn show_amount(
    term: &(u32, i128),
    automaton: &Automaton,
    text: &mut String,
) -> Result<(), AllocError>
    ensures { OnOk result (string_bytes text.new ≡ string_bytes text.old ++ amount_text automaton.now term.now) }
{
    let name = place_name(automaton, term.0);
    let size = term.1.unsigned_abs();
    if size == 1 {
        return write!(text, "{} ", name);
    }
    write!(text, "{}*{} ", size, name)
}

/// Writes the term that stands first.
fn show_first(
    term: &(u32, i128),
    automaton: &Automaton,
    text: &mut String,
) -> Result<(), AllocError>
    ensures { OnOk result (string_bytes text.new ≡ string_bytes text.old ++ first_text automaton.now term.now) }
{
    text.push_str(first_sign(term.1))?;
    show_amount(term, automaton, text)
}

/// Writes a term behind something.
fn show_term(term: &(u32, i128), automaton: &Automaton, text: &mut String) -> Result<(), AllocError>
    ensures { OnOk result (string_bytes text.new ≡ string_bytes text.old ++ term_text automaton.now term.now) }
{
    text.push_str(next_sign(term.1))?;
    show_amount(term, automaton, text)
}

/// Writes the terms behind the first.
fn show_terms(
    terms: &[(u32, i128)],
    automaton: &Automaton,
    text: &mut String,
) -> Result<(), AllocError>
    ensures { OnOk result (string_bytes text.new ≡ string_bytes text.old ++ each (term_text automaton.now) terms.now) }
{
    for term in terms {
        show_term(term, automaton, text)?;
    }
    Ok(())
}

/// Writes the constant behind terms, where it isn't 0.
fn show_constant(number: i128, text: &mut String) -> Result<(), AllocError>
    ensures { OnOk result (string_bytes text.new ≡ string_bytes text.old ++ constant_text (unsigned_abs number == 0) number) }
{
    let size = number.unsigned_abs();
    if size == 0 {
        return Ok(());
    }
    write!(text, "{}{} ", next_sign(number), size)
}

/// Writes a sum.
pub fn show_sum(form: &Form, automaton: &Automaton, text: &mut String) -> Result<(), AllocError>
    ensures { OnOk result (string_bytes text.new ≡ string_bytes text.old ++ sum_text automaton.now form.now) }
{
    let Some((first, others)) = form.terms.as_slice().split_first() else {
        return write!(text, "{} ", form.constant);
    };
    show_first(first, automaton, text)?;
    show_terms(others, automaton, text)?;
    show_constant(form.constant, text)
}

/// Writes the numbers of a mask.
pub fn show_mask(mask: u128, text: &mut String) -> Result<(), AllocError>
    ensures { OnOk result (string_bytes text.new ≡ string_bytes text.old ++ mask_text mask) }
{
    for number in 0..128_u32 {
        if contains(mask, number) {
            write!(text, " {}", number)?;
        }
    }
    Ok(())
}

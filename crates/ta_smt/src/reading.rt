//! The texts by which a word is named.
#![tactic(auto)]

ghost use Rattle.std.specs.Prelude.{◌≡◌, ◌==◌, ◌≤◌, ◌≤ℤ◌, pos, is_some, true, IfOk, MatchOption};
ghost use Rattle.std.specs.List.{list_all, list_any, slice_split};
ghost use Rattle.std.specs.Str.{bytes_eq};
ghost use Rattle.ta_counter.specs.Values.{Value};
ghost use Rattle.ta_base.specs.Bytes.{is_letter, is_word};
ghost use Rattle.ta_smt.specs.Inside.Elements.{those_elements};
ghost use Rattle.ta_smt.specs.WordText.{are_names, begins_by_letter, element_by, element_of, elements_in, elements_of, is_name, keywords, number_up_to};

use std::alloc::{AllocError, Global};
use ta_base::bytes::{are_word_bytes, is_letter};
use ta_replay::read_number;
use ta_words::Element;

/// Whether a text is a name of the grammar: a letter or `_`, then letters, digits and `_`, and no
/// keyword.
pub fn is_name(text: &str) -> bool
    ensures { result ≡ is_name text.now }
{
    begins_by_letter(text.as_bytes()) && are_word_bytes(text.as_bytes()) && !is_keyword(text)
}

/// Whether a text is names of the grammar with a comma between.
pub fn are_names(text: &str) -> bool
    ensures { result ≡ are_names text.now }
{
    text.split(',').all(|name| is_name(name))
}

/// Whether a letter or `_` stands first.
fn begins_by_letter(bytes: &[u8]) -> bool
    ensures { result ≡ begins_by_letter bytes.now }
{
    match bytes.split_first() {
        Some((first, _)) => is_letter(*first),
        None => false,
    }
}

/// Whether a text is one of the words of the grammar that are no names.
fn is_keyword(text: &str) -> bool
    ensures { result ≡ list_any (bytes_eq text.now) keywords }
{
    matches!(
        text,
        "automaton"
            | "parameters"
            | "shared"
            | "locations"
            | "initial"
            | "processes"
            | "resilience"
            | "rule"
            | "when"
            | "do"
            | "pattern"
            | "start"
            | "empty"
            | "event"
            | "after"
    )
}

/// The set of fall guards that a text is: a number from 0 to 63, in which bit j stands for guard j.
pub fn start_of(text: &str) -> Option<u8>
    ensures { result ≡ number_up_to 63 text.now }
{
    number_up_to(63, text.as_bytes())
}

/// The number up to a limit that is written so.
fn number_up_to(limit: u8, digits: &[u8]) -> Option<u8>
    ensures { result ≡ number_up_to limit digits.now }
{
    match read_number(digits) {
        Some(value) => small(value, limit),
        None => None,
    }
}

/// A natural number up to a limit.
fn small(value: i128, limit: u8) -> Option<u8>
    requires { Value value }
    ensures { MatchOption result (¬ (value ≤ℤ pos limit)) (λ n. (value ≡ pos n) × (n ≤ limit)) }
{
    if value <= i128::from(limit) {
        Some(value as u8)
    } else {
        None
    }
}

/// The element that a text is: `eN`, `rN` or `fN`, with N from 0 to 255.
fn element_of(text: &[u8]) -> Option<Element>
    ensures { result ≡ element_of text.now }
{
    match text.split_first() {
        Some((letter, digits)) => match number_up_to(255, digits) {
            Some(number) => element_by(*letter, number),
            None => None,
        },
        None => None,
    }
}

/// The element of a letter and a number.
fn element_by(letter: u8, number: u8) -> Option<Element>
    ensures { result ≡ element_by letter number }
{
    match letter {
        b'e' => Some(Element::Event(u32::from(number))),
        b'r' => Some(Element::Rise(u32::from(number))),
        b'f' => Some(Element::Fall(number)),
        _ => None,
    }
}

/// Whether a text is `-`, or elements with a comma between.
pub fn are_elements(text: &str) -> bool
    ensures { result ≡ is_some (elements_of text.now) }
{
    text == "-" || are_spelled(text)
}

/// Whether each part of a text between commas is an element.
fn are_spelled(text: &str) -> bool
    ensures { result ≡ list_all (λ part. is_some (element_of part)) (slice_split (λ c. c == 44) text.now) }
{
    text.split(',').all(|part| is_element(part))
}

/// Whether a text is an element.
fn is_element(text: &str) -> bool
    ensures { result ≡ is_some (element_of text.now) }
{
    element_of(text.as_bytes()).is_some()
}

/// The elements of a text.
pub fn read_elements(alloc: Global, text: &str) -> Result<Vec<Element>, AllocError>
    requires { is_some (elements_of text.now) ≡ true }
    ensures { IfOk result (λ elements. elements.items ≡ elements_in text.now) }
{
    if text == "-" {
        return Ok(Vec::new(alloc));
    }
    let elements = read_parts(alloc, text)?;
    Ok(elements)
}

/// The elements of the parts of a text between commas that are some.
fn read_parts(alloc: Global, text: &str) -> Result<Vec<Element>, AllocError>
    ensures { IfOk result (λ elements. elements.items ≡ those_elements (slice_split (λ c. c == 44) text.now)) }
{
    let mut elements = Vec::new(alloc);
    for part in text.split(',') {
        if let Some(element) = element_of(part.as_bytes()) {
            elements.push(element)?;
        }
    }
    Ok(elements)
}

//! The lines of a template's holes.
#![tactic(auto)]

ghost use Rattle.std.specs.Prelude.{◌≡◌, ◌≤◌, ◌<◌, ◌^◌, ◌↔◌, ℕ, IfOk, IfErr, MatchOption, List, [], ◌∷◌, ◌++◌, codes, IsTrue};
ghost use Rattle.std.specs.List.{AllByRecursion};
ghost use Rattle.ta_base.specs.Decimals.{IsDecimal, NoDecimal};
ghost use Rattle.ta_search.specs.declared.template.Hole.{Hole};
ghost use Rattle.ta_search.specs.Holes.{AreHoles, AreTooMany, HoleInRange, IsSpelledHole, hole_line, is_among, vector_count, value_count};
ghost use Rattle.ta_search.specs.Inside.Lines.{AddsHole, Declares, IsHoleName, LineRefused};

use crate::fault::TemplateFault;
use crate::template::Hole;
use std::alloc::Global;
use std::str;
use ta_base::Text;
use ta_base::bytes::{after, split_at_byte};
use ta_base::decimals::whole_decimal;
use ta_base::limits::{LARGEST_VALUE, MOST_HOLES, MOST_VECTORS};
use ta_smt::is_name;

/// Numbers of at most 10 digits are below this.
const TEN_DIGITS: u128 = 10_000_000_000;

/// The number of at most 10 digits that the bytes are.
fn short_number(digits: &[u8]) -> Option<u64>
    ensures { MatchOption result (NoDecimal (10 ^ 10) digits.now) (λ value. IsDecimal (10 ^ 10) digits.now value) }
{
    let value = whole_decimal(digits, TEN_DIGITS)?;
    Some(value as u64)
}

/// The name of at most 64 bytes that the bytes are.
fn hole_name(bytes: &[u8]) -> Option<&str>
    ensures { MatchOption result (¬ (IsHoleName bytes.now)) (λ name. (name.now ≡ bytes.now) × IsHoleName bytes.now) }
{
    if bytes.len() > 64 {
        return None;
    }
    let Ok(text) = str::from_utf8(bytes) else {
        return None;
    };
    if is_name(text) { Some(text) } else { None }
}

/// The name of a hole and its lowest and greatest value, where a line declares one.
fn declared(line: &[u8]) -> Option<(&str, u64, u64)>
    ensures { MatchOption result ((h : Hole) → IsSpelledHole h → line.now ≡ hole_line h → ⊥) (λ x. Declares line.now x.0.now x.1 x.2) }
{
    let rest = after(line, b"hole ")?;
    let (name, numbers) = split_at_byte(rest, b' ')?;
    let (low, high) = split_at_byte(numbers, b' ')?;
    Some((hole_name(name)?, short_number(low)?, short_number(high)?))
}

/// Whether a hole has this name.
pub(crate) fn is_among(holes: &[Hole], word: &[u8]) -> bool
    ensures { result ≡ is_among holes.now word.now }
{
    holes
        .iter()
        .any(|hole| word == hole.name.as_str().as_bytes())
}

/// How many values a hole has.
fn value_count(low: u32, high: u32) -> u64
    requires { (low ≤ high) × (high ≤ LARGEST_VALUE) }
    ensures count { (h : Hole) → h.low ≡ low → h.high ≡ high → result ≡ value_count h }
    ensures small { result ≤ 1000000001 }
{
    u64::from(high - low) + 1
}

/// How many choices of values there are.
pub(crate) fn vector_count(holes: &[Hole]) -> u64
    requires { AllByRecursion HoleInRange holes.now × (vector_count holes.now ≤ MOST_VECTORS) }
    ensures { result ≡ vector_count holes.now }
{
    match holes.split_first() {
        Some((first, rest)) => value_count(first.low, first.high) * vector_count(rest),
        None => 1,
    }
}

/// Whether a hole with these numbers is a fifth one, or makes too many choices.
fn are_too_many(holes: &[Hole], low: u32, high: u32) -> bool
    requires { AreHoles holes.now × (low ≤ high) × (high ≤ LARGEST_VALUE) }
    ensures { (h : Hole) → h.low ≡ low → h.high ≡ high → IsTrue result ↔ AreTooMany (holes.now ++ (h ∷ [])) }
{
    if holes.len() >= MOST_HOLES {
        return true;
    }
    vector_count(holes) * value_count(low, high) > MOST_VECTORS
}

/// The hole that a line adds to those before it.
pub(crate) fn next_hole(
    alloc: Global,
    holes: &[Hole],
    line: &[u8],
    number: u32,
) -> Result<Hole, TemplateFault>
    requires { AreHoles holes.now }
    ensures adds { IfOk result (λ hole. AddsHole holes.now line.now hole) }
    ensures refused { IfErr result (λ e. LineRefused holes.now line.now number e) }
{
    let Some((name, low, high)) = declared(line) else {
        return Err(TemplateFault::Line(number));
    };
    if is_among(holes, name.as_bytes()) {
        return Err(TemplateFault::Repeated(number));
    }
    if low > high || high > LARGEST_VALUE {
        return Err(TemplateFault::Range(number));
    }
    let (low, high) = (low as u32, high as u32);
    if are_too_many(holes, low, high) {
        return Err(TemplateFault::TooMany(number));
    }
    Ok(Hole {
        name: Text::from_string(String::from_str(alloc, name)?),
        low,
        high,
    })
}

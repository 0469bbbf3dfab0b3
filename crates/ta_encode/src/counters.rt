//! The rows of all counters at a moment, unknown by unknown.
//!
//! A firing of a rule stands in two counters, that of the location which it leaves and that of the
//! location to which it leads, and a start count stands in one. So each unknown is read once and
//! added to the rows in which it stands, in place of asking each row for its coefficient.
#![tactic(auto)]

ghost use Rattle.std.specs.Prelude.{ℕ, ◌^◌, ◌≡◌, ◌≢◌, ◌≤◌, ◌<◌, ◌-ℤ◌, ◌++◌, ◌∷◌, [], IfOk, OnOk, cond, filter, length, map, not, pos, slice_get, unsigned_abs};
ghost use Rattle.std.specs.List.{range_with_len};
ghost use Rattle.ta_automaton.specs.Places.{location_place, rule_change};
ghost use Rattle.ta_base.specs.Masks.{has_bit};
ghost use Rattle.ta_base.specs.Sums.{one_if};
ghost use Rattle.ta_encode.specs.Inside.Counters.{AreCounters, Gains, counter_coefficient, terms_at};
ghost use Rattle.ta_encode.specs.Inside.Draft.{Adds};
ghost use Rattle.ta_encode.specs.Inside.Sparse.{Sparse};
ghost use Rattle.ta_encode.specs.System.{counter_row};
ghost use Rattle.ta_encode.specs.Unknowns.{place_coefficient};
ghost use Rattle.ta_linear.specs.Terms.{IsNormal};

use crate::draft::Draft;
use crate::meaning::Meaning;
use crate::place::first_location;
use std::alloc::{AllocError, Global};
use ta_automaton::{Automaton, Rule};
use ta_base::List;
use ta_base::masks::contains;
use ta_linear::{Form, Row};

/// For how many terms a counter has room at first: few have more.
const ROOM: usize = 64;

/// The terms of a location's counter so far.
#[derive(Drop)]
pub(crate) struct Counter {
    terms: Vec<(u32, i128)>,
}

/// Adds a term at the end of a counter.
fn push_term(counter: &mut Counter, unknown: u32, coefficient: i128) -> Result<(), AllocError>
    requires { unsigned_abs coefficient ≤ 1 }
    ensures { OnOk result (counter.new.terms.items ≡ counter.old.terms.items ++ (unknown, coefficient) ∷ []) }
{
    counter.terms.push((unknown, coefficient))?;
    Ok(())
}

/// Adds a term at the end of the counter of a location, if it has one.
fn push_at(
    counters: &mut Vec<Counter>,
    location: u32,
    unknown: u32,
    coefficient: i128,
) -> Result<(), AllocError>
    requires { unsigned_abs coefficient ≤ 1 }
    ensures long { length counters.new.items ≡ length counters.old.items }
    ensures here { OnOk result (location < length counters.old.items → terms_at counters.new.items location ≡ terms_at counters.old.items location ++ (unknown, coefficient) ∷ []) }
    ensures others { OnOk result ((l : ℕ) → l ≢ location → terms_at counters.new.items l ≡ terms_at counters.old.items l) }
{
    let at = location as usize;
    if at < counters.len() {
        push_term(&mut counters[at], unknown, coefficient)?;
    }
    Ok(())
}

/// Adds the firings of a rule: they leave a location and lead to another.
fn push_firing(counters: &mut Vec<Counter>, rule: &Rule, unknown: u32) -> Result<(), AllocError>
    ensures long { length counters.new.items ≡ length counters.old.items }
    ensures gains { OnOk result ((l : ℕ) → l < length counters.old.items → Gains unknown (one_if rule.now.to l -ℤ one_if rule.now.from l) (terms_at counters.old.items l) (terms_at counters.new.items l)) }
{
    if rule.from != rule.to {
        push_at(counters, rule.from, unknown, -1)?;
        push_at(counters, rule.to, unknown, 1)?;
    }
    Ok(())
}

/// Adds the firings of a rule by its number, if there is one.
fn push_fired(
    counters: &mut Vec<Counter>,
    automaton: &Automaton,
    rule: u32,
    unknown: u32,
) -> Result<(), AllocError>
    ensures long { length counters.new.items ≡ length counters.old.items }
    ensures gains { OnOk result ((l : ℕ) → l < length counters.old.items → Gains unknown (rule_change automaton.now (slice_get automaton.now.rules rule) (location_place automaton.now l)) (terms_at counters.old.items l) (terms_at counters.new.items l)) }
{
    match automaton.rules.as_slice().get(rule as usize) {
        None => Ok(()),
        Some(rule) => {
            push_firing(counters, rule, unknown)?;
            Ok(())
        }
    }
}

/// Adds an unknown that is a part of a location's start count.
fn push_start(counters: &mut Vec<Counter>, location: u32, unknown: u32) -> Result<(), AllocError>
    ensures long { length counters.new.items ≡ length counters.old.items }
    ensures gains { OnOk result ((l : ℕ) → l < length counters.old.items → Gains unknown (one_if location l) (terms_at counters.old.items l) (terms_at counters.new.items l)) }
{
    push_at(counters, location, unknown, 1)?;
    Ok(())
}

/// Adds an unknown that is the value of a place, where this place is a location's.
fn push_placed(
    counters: &mut Vec<Counter>,
    automaton: &Automaton,
    place: u32,
    unknown: u32,
) -> Result<(), AllocError>
    ensures long { length counters.new.items ≡ length counters.old.items }
    ensures gains { OnOk result ((l : ℕ) → l < length counters.old.items → Gains unknown (one_if place (location_place automaton.now l)) (terms_at counters.old.items l) (terms_at counters.new.items l)) }
{
    let first = first_location(automaton);
    if place >= first {
        push_start(counters, place - first, unknown)?;
    }
    Ok(())
}

/// Adds an unknown to the counters in which it stands.
fn push_unknown(
    counters: &mut Vec<Counter>,
    automaton: &Automaton,
    meaning: Meaning,
    unknown: u32,
) -> Result<(), AllocError>
    ensures long { length counters.new.items ≡ length counters.old.items }
    ensures gains { OnOk result ((l : ℕ) → l < length counters.old.items → Gains unknown (place_coefficient automaton.now meaning (location_place automaton.now l)) (terms_at counters.old.items l) (terms_at counters.new.items l)) }
{
    match meaning {
        Meaning::Parameter(parameter) => push_placed(counters, automaton, parameter, unknown)?,
        Meaning::Start(location) => push_start(counters, location, unknown)?,
        Meaning::Count { element: _, rule } => push_fired(counters, automaton, rule, unknown)?,
        Meaning::Single { element: _, rule } => push_fired(counters, automaton, rule, unknown)?,
    }
    Ok(())
}

/// Counters without terms, with room for some.
fn no_terms(alloc: Global, count: usize, room: usize) -> Result<Vec<Counter>, AllocError>
    ensures long { IfOk result (λ counters. length counters.items ≡ count) }
    ensures none { IfOk result (λ counters. (l : ℕ) → terms_at counters.items l ≡ []) }
{
    let mut counters = Vec::with_capacity(alloc, count)?;
    for _ in 0..count {
        counters.push(Counter {
            terms: Vec::with_capacity(alloc, room)?,
        })?;
    }
    Ok(counters)
}

/// The counters of all locations at the moment of these unknowns.
fn counters_at(
    alloc: Global,
    automaton: &Automaton,
    meanings: &[Meaning],
) -> Result<Vec<Counter>, AllocError>
    requires few { length meanings.now < 2 ^ 32 }
    ensures long { IfOk result (λ counters. length counters.items ≡ length automaton.now.locations) }
    ensures are { IfOk result (λ counters. AreCounters automaton.now meanings.now (length meanings.now) counters.items) }
{
    let locations = automaton.locations.as_slice().len();
    let mut counters = no_terms(alloc, locations, meanings.len().min(ROOM))?;
    for (unknown, meaning) in meanings.iter().enumerate() {
        push_unknown(&mut counters, automaton, *meaning, unknown as u32)?;
    }
    Ok(counters)
}

/// The row of a counter.
fn row_of(counter: Counter) -> Row
    requires { IsNormal 0 (2 ^ 32) counter.terms.items }
    ensures constant { result.form.constant ≡ pos 0 }
    ensures terms { result.form.terms ≡ counter.terms.items }
{
    Row {
        form: Form {
            constant: 0,
            terms: List::from_vec(counter.terms),
        },
    }
}

impl<'a> Draft<'a> {
    /// The row of a location's counter, unless the location is in a set.
    fn push_written(
        &mut self,
        empty: u128,
        location: u32,
        counter: Counter,
    ) -> Result<(), AllocError>
        requires location { location < 128 }
        requires written { Sparse (counter_coefficient self.old.automaton.now location) self.old.meanings.items (length self.old.meanings.items) counter.terms.items }
        ensures { OnOk result (Adds (λ a ms. cond (not (has_bit empty location)) (counter_row a ms location ∷ []) []) self.old self.new) }
    {
        if contains(empty, location) {
            return Ok(());
        }
        self.push_row(row_of(counter))
    }

    /// The counters of the locations outside a set.
    pub(crate) fn push_all_counters(&mut self, empty: u128) -> Result<(), AllocError>
        ensures { OnOk result (Adds (λ a ms. map (counter_row a ms) (filter (λ l. not (has_bit empty l)) (range_with_len 0 (length a.locations)))) self.old self.new) }
    {
        let automaton = self.automaton;
        let counters = counters_at(self.alloc, automaton, self.meanings.as_slice())?;
        let mut location = 0;
        for counter in counters {
            self.push_written(empty, location, counter)?;
            location += 1;
        }
        Ok(())
    }
}

//! A row from terms over places, which are parameters, shared variables and counters.
//!
//! The coefficient of an unknown is the sum over the terms of what one of it adds at the term's
//! place. For firings that depends on the rule and not on the element, so it is computed once for
//! each rule. A row costs the unknowns so far, plus the rules times its terms (at most 64) and, for
//! a shared variable, the updates (at most 16).
#![tactic(auto)]

ghost use Rattle.std.specs.Prelude.{ℕ, pos, ◌*◌, ◌^◌, ◌≡◌, ◌≤◌, ◌<◌, IfOk, if◌then◌else◌, length, unsigned_abs};
ghost use Rattle.ta_linear.specs.Numbers.{InRange};
ghost use Rattle.ta_linear.specs.Terms.{IsNormal};
ghost use Rattle.ta_linear.specs.Values.{terms_value};
ghost use Rattle.ta_encode.specs.Code.{IsRowOf};
ghost use Rattle.ta_encode.specs.Inside.Rules.{AreOfRules};
ghost use Rattle.ta_encode.specs.Lines.{SmallTerms, coefficient_in_sense, line_coefficient, line_row};
ghost use Rattle.ta_encode.specs.System.{start_coefficient};
ghost use Rattle.ta_encode.specs.Unknowns.{place_coefficient};

use crate::draft::Draft;
use crate::meaning::Meaning;
use crate::place::place_coefficient;
use std::alloc::{AllocError, Global};
use ta_automaton::Automaton;
use ta_base::List;
use ta_linear::{Form, Row};

/// For how many terms a row has room at first: few rows have more.
const ROOM: usize = 64;

/// How a row is written.
#[derive(Clone, Copy)]
pub(crate) enum Sense {
    /// As it is.
    Plain,
    /// As `-row`.
    Opposite,
    /// As `-row - 1`, which is the negation of `row >= 0`.
    Negated,
}

/// Terms over places, and how they are written.
#[derive(Clone, Copy)]
pub(crate) struct Line<'a> {
    pub(crate) terms: &'a [(u32, i128)],
    /// Whether the start counts are taken away.
    pub(crate) less_starts: bool,
    pub(crate) sense: Sense,
}

impl<'a> Draft<'a> {
    /// The row of `constant` and of terms over places, at the moment whose unknowns are the draft's.
    pub(crate) fn row_of(&self, line: &Line, constant: i128) -> Result<Row, AllocError>
        requires small { SmallTerms line.now.terms.now }
        requires fits { InRange constant }
        ensures row { IfOk result (IsRowOf (line_row self.now.automaton.now self.now.meanings.items line.now.terms.now line.now.less_starts line.now.sense constant)) }
        ensures below { IfOk result (λ row. IsNormal 0 (length self.now.meanings.items) row.form.terms) }
    {
        let automaton = self.automaton;
        let of_rules = coefficients_of_rules(self.alloc, automaton, line)?;
        let meanings = self.meanings.as_slice();
        let mut written = Vec::with_capacity(self.alloc, meanings.len().min(ROOM))?;
        for (unknown, meaning) in meanings.iter().enumerate() {
            let coefficient = coefficient_of(automaton, *meaning, line, &of_rules);
            if coefficient != 0 {
                written.push((unknown as u32, coefficient))?;
            }
        }
        Ok(Row {
            form: Form {
                constant,
                terms: List::from_vec(written),
            },
        })
    }
}

/// The coefficient of the firings of each rule, which is the same before each element.
fn coefficients_of_rules(
    alloc: Global,
    automaton: &Automaton,
    line: &Line,
) -> Result<Vec<i128>, AllocError>
    requires { SmallTerms line.now.terms.now }
    ensures { IfOk result (λ v. AreOfRules automaton.now line.now.terms.now line.now.less_starts line.now.sense v.items) }
{
    let rules = automaton.rules.as_slice().len();
    let mut coefficients = Vec::with_capacity(alloc, rules)?;
    for rule in 0..rules {
        let meaning = Meaning::Count {
            element: 0,
            rule: rule as u32,
        };
        let coefficient = line_coefficient(automaton, meaning, line);
        coefficients.push(coefficient)?;
    }
    Ok(coefficients)
}

/// The coefficient of an unknown, from those of the rules' firings.
fn coefficient_of(automaton: &Automaton, meaning: Meaning, line: &Line, of_rules: &[i128]) -> i128
    requires small { SmallTerms line.now.terms.now }
    requires rules { AreOfRules automaton.now line.now.terms.now line.now.less_starts line.now.sense of_rules.now }
    ensures value { result ≡ line_coefficient automaton.now line.now.terms.now line.now.less_starts line.now.sense meaning }
    ensures fits { InRange result }
{
    match meaning {
        Meaning::Count { element: _, rule } | Meaning::Single { element: _, rule } => {
            match of_rules.get(rule as usize) {
                Some(coefficient) => *coefficient,
                None => line_coefficient(automaton, meaning, line),
            }
        }
        Meaning::Parameter(_) | Meaning::Start(_) => { line_coefficient(automaton, meaning, line) }
    }
}

fn line_coefficient(automaton: &Automaton, meaning: Meaning, line: &Line) -> i128
    requires { SmallTerms line.now.terms.now }
    ensures value { result ≡ line_coefficient automaton.now line.now.terms.now line.now.less_starts line.now.sense meaning }
    ensures fits { InRange result }
{
    let value = value_in(automaton, meaning, line.terms);
    turn(line.sense, value - starts_in(meaning, line.less_starts))
}

/// A coefficient of a row that is written so.
pub(crate) fn turn(sense: Sense, value: i128) -> i128
    requires { unsigned_abs value ≤ 2 ^ 126 }
    ensures value { result ≡ coefficient_in_sense sense value }
    ensures small { unsigned_abs result ≤ 2 ^ 126 }
{
    match sense {
        Sense::Plain => value,
        Sense::Opposite | Sense::Negated => -value,
    }
}

/// 1 for a start count, if these are wanted.
fn starts_in(meaning: Meaning, wanted: bool) -> i128
    ensures value { result ≡ (if wanted then start_coefficient meaning else pos 0) }
    ensures small { unsigned_abs result ≤ 1 }
{
    match meaning {
        Meaning::Start(_) if wanted => 1,
        _ => 0,
    }
}

/// The value of terms over places where each place has the unknown's coefficient.
fn value_in(automaton: &Automaton, meaning: Meaning, terms: &[(u32, i128)]) -> i128
    requires { SmallTerms terms.now }
    ensures value { result ≡ terms_value (place_coefficient automaton.now meaning) terms.now }
    ensures small { unsigned_abs result ≤ 224 * 17000000000000000000 }
{
    let mut total = 0;
    for (place, coefficient) in terms {
        total += *coefficient * place_coefficient(automaton, meaning, *place);
    }
    total
}

//! How often each rule fired before a position of the run, by the values of a node.
#![tactic(auto)]

ghost use Rattle.std.specs.Prelude.{pos, ◌≡◌, cond, IfErr, IfOk, OnOk, length, slice_get};
ghost use Rattle.ta_moments.specs.Facts.{is_moving};
ghost use Rattle.ta_scope.specs.Arranged.{count_at};
ghost use Rattle.ta_witness.specs.Given.{VectorStays};
ghost use Rattle.ta_witness.specs.Inside.Stops.{VectorFault, VectorWithin, form_values, moving_counts};

use crate::WitnessFault;
use std::alloc::{AllocError, Global};
use ta_automaton::{Automaton, Pattern};
use ta_linear::Form;
use ta_moment_tree::is_moving;

/// The values of forms.
fn form_values(alloc: Global, forms: &[Form], values: &[i128]) -> Result<Vec<i128>, WitnessFault>
    requires { VectorWithin (length values.now) forms.now }
    ensures are { IfOk result (λ numbers. numbers.items ≡ form_values values.now forms.now) }
    ensures stays { OnOk result (VectorStays values.now forms.now) }
    ensures fault { IfErr result (VectorFault values.now forms.now) }
{
    let mut numbers = Vec::new(alloc);
    for form in forms {
        let Ok(number) = form.value_at(values) else {
            return Err(WitnessFault::Overflow);
        };
        numbers.push(number)?;
    }
    Ok(numbers)
}

/// The numbers of the moving rules, and 0 for each other rule.
pub(crate) fn moving_counts(
    alloc: Global,
    automaton: &Automaton,
    pattern: &Pattern,
    numbers: &[i128],
) -> Result<Vec<i128>, AllocError>
    ensures { IfOk result (λ counts. counts.items ≡ moving_counts automaton.now pattern.now numbers.now) }
{
    let mut counts = Vec::new(alloc);
    for rule in 0..automaton.rules.as_slice().len() {
        counts.push(count_of(automaton, pattern, numbers, rule))?;
    }
    Ok(counts)
}

/// The number of a rule, 0 where it doesn't move.
fn count_of(automaton: &Automaton, pattern: &Pattern, numbers: &[i128], rule: usize) -> i128
    ensures { result ≡ cond (is_moving pattern.now (slice_get automaton.now.rules rule)) (count_at numbers.now rule) (pos 0) }
{
    if is_moving(automaton, pattern, rule) {
        number_at(numbers, rule)
    } else {
        0
    }
}

/// The number of a rule, 0 where there is none.
pub(crate) fn number_at(numbers: &[i128], rule: usize) -> i128
    ensures { result ≡ count_at numbers.now rule }
{
    if rule < numbers.len() {
        numbers[rule]
    } else {
        0
    }
}

/// How often each rule fired before the position of a vector.
pub(crate) fn counts_at(
    alloc: Global,
    automaton: &Automaton,
    pattern: &Pattern,
    forms: &[Form],
    values: &[i128],
) -> Result<Vec<i128>, WitnessFault>
    requires { VectorWithin (length values.now) forms.now }
    ensures are { IfOk result (λ counts. counts.items ≡ moving_counts automaton.now pattern.now (form_values values.now forms.now)) }
    ensures stays { OnOk result (VectorStays values.now forms.now) }
    ensures fault { IfErr result (VectorFault values.now forms.now) }
{
    let numbers = form_values(alloc, forms, values)?;
    Ok(moving_counts(alloc, automaton, pattern, numbers.as_slice())?)
}

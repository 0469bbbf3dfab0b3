//! The values of a solution, by what its unknowns stand for.
#![tactic(auto)]

ghost use Rattle.std.specs.Prelude.{ℕ, pos, ◌<◌, ◌≤◌, ◌≡◌, IfOk, map};
ghost use Rattle.std.specs.List.{range_with_len};
ghost use Rattle.ta_counter.specs.Values.{Value};
ghost use Rattle.ta_encode.specs.declared.meaning.Meaning.TheVariants.{Parameter, Start, Count, Single};
ghost use Rattle.ta_witness.specs.Values.{same_meaning, unknown_value};
ghost use Rattle.ta_witness.specs.Inside.Making.{AreValues, AreNaturals};

use std::alloc::{AllocError, Global};
use ta_encode::Meaning;

/// The value of the unknown that stands for something, 0 where there is no such unknown.
pub(crate) fn value_of(meanings: &[Meaning], values: &[i128], meaning: Meaning) -> i128
    requires { AreNaturals meanings.now values.now }
    ensures is { result ≡ unknown_value meanings.now values.now meaning }
    ensures natural { Value result }
{
    for (number, other) in meanings.iter().enumerate() {
        if is_same(*other, meaning) {
            return values[number];
        }
    }
    0
}

/// Whether two unknowns stand for the same.
fn is_same(one: Meaning, other: Meaning) -> bool
    ensures { result ≡ same_meaning one other }
{
    one == other
}

/// The values of the parameters.
pub fn parameters_of(
    alloc: Global,
    count: usize,
    meanings: &[Meaning],
    values: &[i128],
) -> Result<Vec<i128>, AllocError>
    requires few { count ≤ 32 }
    requires known { AreNaturals meanings.now values.now }
    ensures { IfOk result (λ numbers. AreValues (map (λ i. unknown_value meanings.now values.now (Parameter i)) (range_with_len 0 count)) numbers.items) }
{
    let mut numbers = Vec::new(alloc);
    for parameter in 0..count {
        let meaning = Meaning::Parameter(parameter as u32);
        numbers.push(value_of(meanings, values, meaning))?;
    }
    Ok(numbers)
}

/// The start counts of some locations.
pub fn starts_of(
    alloc: Global,
    locations: &[u32],
    meanings: &[Meaning],
    values: &[i128],
) -> Result<Vec<i128>, AllocError>
    requires { AreNaturals meanings.now values.now }
    ensures { IfOk result (λ numbers. AreValues (map (λ l. unknown_value meanings.now values.now (Start l)) locations.now) numbers.items) }
{
    let mut numbers = Vec::new(alloc);
    for location in locations {
        let meaning = Meaning::Start(*location);
        numbers.push(value_of(meanings, values, meaning))?;
    }
    Ok(numbers)
}

/// How often each rule fires before an element.
pub(crate) fn counts_of(
    alloc: Global,
    rules: usize,
    meanings: &[Meaning],
    values: &[i128],
    element: u32,
) -> Result<Vec<i128>, AllocError>
    requires few { rules ≤ 1024 }
    requires known { AreNaturals meanings.now values.now }
    ensures { IfOk result (λ numbers. AreValues (map (λ r. unknown_value meanings.now values.now (Count element r)) (range_with_len 0 rules)) numbers.items) }
{
    let mut numbers = Vec::new(alloc);
    for rule in 0..rules {
        let meaning = Meaning::Count {
            element,
            rule: rule as u32,
        };
        numbers.push(value_of(meanings, values, meaning))?;
    }
    Ok(numbers)
}

/// The first rule whose Single is 1.
pub(crate) fn single_of(rules: usize, meanings: &[Meaning], values: &[i128], element: u32) -> u32
    requires few { rules ≤ 1024 }
    requires known { AreNaturals meanings.now values.now }
    requires some { (r : ℕ) × (r < rules) × (unknown_value meanings.now values.now (Single element r) ≡ pos 1) }
    ensures exists { result < rules }
    ensures one { unknown_value meanings.now values.now (Single element result) ≡ pos 1 }
{
    for rule in 0..rules {
        let meaning = Meaning::Single {
            element,
            rule: rule as u32,
        };
        if value_of(meanings, values, meaning) == 1 {
            return rule as u32;
        }
    }
    unreachable!()
}

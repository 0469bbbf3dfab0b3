//! Sums and conditions over the first places of a file.
#![tactic(auto)]

ghost use Rattle.ta_base.specs.Lists.{Pairwise};
ghost use Rattle.std.specs.Prelude.{◌≡◌, ◌≤◌, ◌^◌, ◌∷◌, [], pos, length, take, map, MatchResult};
ghost use Rattle.ta_syntax.specs.PlainSums.{plain_sum};
ghost use Rattle.ta_syntax.specs.PlainTrees.{plain_comparison};
ghost use Rattle.ta_meaning.specs.Linear.{linear_sum, is_large_linear};
ghost use Rattle.ta_meaning.specs.Faults.{Judges, Answers, else_, where_, sum_faults, comparison_faults, condition_faults};
ghost use Rattle.ta_meaning.specs.Inside.Resolved.{first_places, ResolvedForm, ResolvedComparison, ResolvedCondition};
ghost use Rattle.ta_meaning.specs.SumParts.{FormWithin};
ghost use Rattle.ta_meaning.specs.Inside.SumParts.{any_large_row, form_minus, form_differences, RowOfDifference};

use crate::forms::{difference, is_large_form};
use crate::places::Places;
use crate::sums::{small_form, sum_form};
use std::alloc::Global;
use ta_automaton::{Comparison, Condition};
use ta_base::List;
use ta_linear::{Form, Row};
use ta_syntax::{FileFault, Relation, TreeComparison, TreeSum};

/// The form of a sum over the first places, with numbers of at most 1,000,000,000; `at` is the offset
/// of the sum's first token.
pub fn resolve_sum(
    alloc: Global,
    places: &Places,
    allowed: u32,
    at: u32,
    sum: &TreeSum,
) -> Result<Form, FileFault>
    requires { allowed ≤ length places.now.names }
    ensures { Answers (else_ (sum_faults (first_places places.now.names allowed) sum.now) (where_ (is_large_linear (linear_sum (take allowed places.now.names) (plain_sum sum.now))) (FileFault.TooLarge at))) (λ form. ResolvedForm (take allowed places.now.names) (plain_sum sum.now) form) result }
{
    let form = sum_form(alloc, places, allowed, sum)?;
    small_form(form, at)
}

/// The row of the difference of two small forms and a number, alone.
fn one_row(alloc: Global, greater: &Form, less: &Form, shift: u32) -> Result<Vec<Row>, FileFault>
    requires greater { FormWithin (2 ^ 93) greater.now }
    requires less { FormWithin (2 ^ 93) less.now }
    requires shift { shift ≤ 1 }
    ensures { MatchResult result (λ rows. Pairwise RowOfDifference (form_minus greater.now less.now (pos shift) ∷ []) rows.items) (λ e. e ≡ FileFault.Memory) }
{
    let row = difference(alloc, greater, less, shift)?;
    let mut rows = Vec::new(alloc);
    rows.push(row)?;
    Ok(rows)
}

/// The rows of the differences of two small forms, each less the other.
fn both_rows(alloc: Global, left: &Form, right: &Form) -> Result<Vec<Row>, FileFault>
    requires left { FormWithin (2 ^ 93) left.now }
    requires right { FormWithin (2 ^ 93) right.now }
    ensures { MatchResult result (λ rows. Pairwise RowOfDifference (form_minus left.now right.now (pos 0) ∷ form_minus right.now left.now (pos 0) ∷ []) rows.items) (λ e. e ≡ FileFault.Memory) }
{
    let mut rows = one_row(alloc, left, right, 0)?;
    rows.push(difference(alloc, right, left, 0)?)?;
    Ok(rows)
}

/// The normal rows of the comparison of two small forms.
fn normal_rows(
    alloc: Global,
    left: &Form,
    relation: Relation,
    right: &Form,
) -> Result<Vec<Row>, FileFault>
    requires left { FormWithin (2 ^ 93) left.now }
    requires right { FormWithin (2 ^ 93) right.now }
    ensures { MatchResult result (λ rows. Pairwise RowOfDifference (form_differences relation left.now right.now) rows.items) (λ e. e ≡ FileFault.Memory) }
{
    match relation {
        Relation::Less => one_row(alloc, right, left, 1),
        Relation::AtMost => one_row(alloc, right, left, 0),
        Relation::Equal => both_rows(alloc, left, right),
        Relation::AtLeast => one_row(alloc, left, right, 0),
        Relation::More => one_row(alloc, left, right, 1),
    }
}

/// Rows, or F6 at an offset where one of their numbers is too large.
fn small_rows(rows: Vec<Row>, at: u32) -> Result<Vec<Row>, FileFault>
    ensures { Judges (where_ (any_large_row rows.items) (FileFault.TooLarge at)) (λ small. small ≡ rows) result }
{
    'rows: for row in &rows {
        if is_large_form(&row.form) {
            return Err(FileFault::TooLarge(at));
        }
    }
    Ok(rows)
}

/// The normal rows of a comparison over the first places.
pub fn resolve_comparison(
    alloc: Global,
    places: &Places,
    allowed: u32,
    comparison: &TreeComparison,
) -> Result<Comparison, FileFault>
    requires { allowed ≤ length places.now.names }
    ensures { Answers (comparison_faults (first_places places.now.names allowed) comparison.now) (λ rows. ResolvedComparison (take allowed places.now.names) (plain_comparison comparison.now) rows) result }
{
    let left = sum_form(alloc, places, allowed, &comparison.left)?;
    let right = sum_form(alloc, places, allowed, &comparison.right)?;
    let rows = normal_rows(alloc, &left, comparison.relation, &right)?;
    let small = small_rows(rows, comparison.at)?;
    Ok(Comparison {
        rows: List::from_vec(small),
    })
}

/// The condition that comparisons over the first places mean.
pub fn resolve_condition(
    alloc: Global,
    places: &Places,
    allowed: u32,
    comparisons: &[TreeComparison],
) -> Result<Condition, FileFault>
    requires allowed { allowed ≤ length places.now.names }
    requires few { length comparisons.now ≤ 16 }
    ensures { Answers (condition_faults (first_places places.now.names allowed) comparisons.now) (λ condition. ResolvedCondition (take allowed places.now.names) (map plain_comparison comparisons.now) condition) result }
{
    let mut resolved = Vec::new(alloc);
    'comparisons: for comparison in comparisons {
        resolved.push(resolve_comparison(alloc, places, allowed, comparison)?)?;
    }
    Ok(Condition {
        comparisons: List::from_vec(resolved),
    })
}

//! Leaves of one system, and their first errors.

ghost use Rattle.std.specs.Prelude.{◌^◌};
ghost use Rattle.ta_linear.specs.Leaf.{AreMultipliers};
ghost use Rattle.ta_linear.specs.Numbers.{InRange};
ghost use Rattle.ta_linear.specs.Terms.{IsNormal};

use crate::expecting::{expect, list_of};
use std::alloc::Global;
use std::process::Abort;
use ta_base::List;
use ta_farkas::{LeafFault, check_leaf};
use ta_linear::{Form, Row, System};

const M: i128 = i128::MAX;

/// A row over three unknowns.
pub(crate) fn row(rt: &impl Abort, alloc: Global, constant: i128, terms: &[(u32, i128)]) -> Row
    requires constant { InRange constant }
    requires terms { IsNormal 0 3 terms.now }
    ensures { IsNormal 0 3 result.form.terms }
{
    row_over(rt, alloc, 3, constant, terms)
}

// A row over this many unknowns.
fn row_over(
    rt: &impl Abort,
    alloc: Global,
    unknowns: u32,
    constant: i128,
    terms: &[(u32, i128)],
) -> Row
    requires constant { InRange constant }
    requires terms { IsNormal 0 unknowns terms.now }
    ensures { IsNormal 0 unknowns result.form.terms }
{
    let form = Form {
        constant,
        terms: list_of(rt, alloc, terms),
    };
    Row { form }
}

// Some n processes all start in A, of which r left: A and what came after it are more than n.
fn kept(rt: &impl Abort, alloc: Global) -> System {
    let rows = vec![in alloc;
        row(rt, alloc, -1, &[(0, 1)]),
        row(rt, alloc, 0, &[(0, 1), (1, -1)]),
        row(rt, alloc, 0, &[(0, -1), (1, 1)]),
        row(rt, alloc, 0, &[(1, 1), (2, -1)]),
        row(rt, alloc, 0, &[(2, 1)]),
        row(rt, alloc, -1, &[(0, -1), (1, 1)]),
    ]
    .expect(rt, "memory");
    System {
        unknowns: 3,
        rows: List::from_vec(rows),
    }
}

// Rows on both sides of the end of the first 64 columns.
fn wide(rt: &impl Abort, alloc: Global) -> System {
    let rows = vec![in alloc;
        row_over(rt, alloc, 70, 0, &[(63, -1), (64, -1)]),
        row_over(rt, alloc, 70, 0, &[(64, -1), (65, 1)]),
        row_over(rt, alloc, 70, -1, &[(65, -1), (69, -1)]),
    ]
    .expect(rt, "memory");
    System {
        unknowns: 70,
        rows: List::from_vec(rows),
    }
}

/// Compares the answer on a leaf.
fn expect_leaf(
    rt: &impl Abort,
    system: &System,
    multipliers: &[(u32, i128)],
    want: Result<(), LeafFault>,
    name: &str,
)
    requires { AreMultipliers 0 (2 ^ 32) multipliers.now }
{
    expect(rt, check_leaf(system, multipliers) == want, name);
}

#[test]
fn judges(rt: HostRuntime) {
    let system = kept(&rt, rt.alloc());
    let positive = Err(LeafFault::Positive(1));
    let not_negative = Err(LeafFault::NotNegative);
    expect_leaf(&rt, &system, &[(1, 1), (5, 1)], Ok(()), "refutes");
    expect_leaf(&rt, &system, &[(1, M), (5, M)], Ok(()), "at the edge");
    expect_leaf(&rt, &system, &[(1, 1), (5, 2)], positive, "row 5 twice");
    expect_leaf(&rt, &system, &[(5, 1)], positive, "row 5 alone");
    expect_leaf(&rt, &system, &[(1, 1), (2, 1)], not_negative, "rows 1, 2");
    expect_leaf(&rt, &system, &[], not_negative, "no rows");
    let row_number = Err(LeafFault::RowNumber(9));
    expect_leaf(&rt, &system, &[(0, 1), (9, 1)], row_number, "no row 9");
    let overflow = Err(LeafFault::Overflow(0));
    expect_leaf(&rt, &system, &[(0, M), (1, M)], overflow, "a sum leaves");
}

#[test]
fn judges_more_than_64_columns(rt: HostRuntime) {
    let system = wide(&rt, rt.alloc());
    expect_leaf(&rt, &system, &[(0, 1), (1, 1), (2, 1)], Ok(()), "refutes");
    let positive = Err(LeafFault::Positive(65));
    expect_leaf(&rt, &system, &[(0, 1), (1, 1)], positive, "rows 0 and 1");
    let overflow = Err(LeafFault::Overflow(64));
    expect_leaf(&rt, &system, &[(0, M), (1, M)], overflow, "a sum leaves");
    let not_negative = Err(LeafFault::NotNegative);
    expect_leaf(&rt, &system, &[(0, 1)], not_negative, "row 0 alone");
}

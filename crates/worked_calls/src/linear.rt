//! One table for each call, with numbers at the edges of the range.

ghost use Rattle.std.specs.Prelude.{◌^◌, length};
ghost use Rattle.ta_linear.specs.Numbers.{InRange};
ghost use Rattle.ta_linear.specs.Terms.{IsNormal};

use crate::expecting::{expect, list_of};
use std::alloc::Global;
use std::process::Abort;
use ta_linear::{Form, LinearFault, Row, floor_div, gcd, minus, multiply, plus};

/// A constant, and terms.
type Numbers = (i128, &'static [(u32, i128)]);

/// The greatest number of the range.
const MOST: i128 = i128::MAX;

/// The first number beyond it is twice this.
const HALF: i128 = 1 << 126;

/// A number of 63 bits.
const FITS: i128 = 1 << 62;

/// The sum of a form and one term.
fn with_term(
    rt: &impl Abort,
    alloc: Global,
    form: &Form,
    variable: u32,
    coefficient: i128,
) -> Form {
    assert!(rt; coefficient != 0 && coefficient > i128::MIN);
    let term = Form {
        constant: 0,
        terms: list_of(rt, alloc, &[(variable, coefficient)]),
    };
    form.add(alloc, &term).expect(rt, "a form of a table")
}

/// The form of a constant and terms, added one after the other.
fn form(rt: &impl Abort, alloc: Global, numbers: &Numbers) -> Form {
    let (constant, terms) = *numbers;
    assert!(rt; constant > i128::MIN);
    let mut form = Form::constant_of(alloc, constant);
    for (variable, coefficient) in terms {
        form = with_term(rt, alloc, &form, *variable, *coefficient);
    }
    form
}

/// Compares a form with a constant and terms, and Overflow with `None`.
fn expect_form(
    rt: &impl Abort,
    form: Result<Form, LinearFault>,
    want: Option<Numbers>,
    name: &str,
) {
    let same = match &form {
        Ok(form) => Some((form.constant, form.terms.as_slice())) == want,
        Err(LinearFault::Overflow) => want.is_none(),
        Err(LinearFault::Memory) => false,
    };
    expect(rt, same, name);
}

/// Forms, and their sum.
const SUMS: &[(&str, Numbers, Numbers, Option<Numbers>)] = &[
    (
        "terms that cancel",
        (1, &[(0, 2), (3, 4)]),
        (2, &[(0, -2), (1, 5)]),
        Some((3, &[(1, 5), (3, 4)])),
    ),
    (
        "all terms cancel",
        (MOST, &[(7, MOST)]),
        (-MOST, &[(7, -MOST)]),
        Some((0, &[])),
    ),
    (
        "at the edge",
        (MOST, &[(7, MOST)]),
        (0, &[(8, 1)]),
        Some((MOST, &[(7, MOST), (8, 1)])),
    ),
    ("the constant leaves", (MOST, &[(7, MOST)]), (1, &[]), None),
    (
        "a coefficient leaves",
        (MOST, &[(7, MOST)]),
        (0, &[(7, 1)]),
        None,
    ),
    (
        "both leave downwards",
        (-MOST, &[(7, -MOST)]),
        (-MOST, &[(7, -MOST)]),
        None,
    ),
];

/// The sum of two forms.
fn sum(
    rt: &impl Abort,
    alloc: Global,
    left: &Numbers,
    right: &Numbers,
) -> Result<Form, LinearFault> {
    let left = form(rt, alloc, left);
    left.add(alloc, &form(rt, alloc, right))
}

#[test]
fn sums(rt: HostRuntime) {
    for (name, left, right, want) in SUMS {
        let found = sum(&rt, rt.alloc(), left, right);
        expect_form(&rt, found, *want, name);
    }
}

/// Forms with a factor, and their product.
const MULTIPLES: &[(&str, Numbers, i128, Option<Numbers>)] = &[
    (
        "turned round",
        (3, &[(1, 5), (9, -1)]),
        -2,
        Some((-6, &[(1, -10), (9, 2)])),
    ),
    (
        "at the edge",
        (1, &[(0, 1), (7, MOST)]),
        -1,
        Some((-1, &[(0, -1), (7, -MOST)])),
    ),
    (
        "no terms are left",
        (1, &[(0, 1), (7, MOST)]),
        0,
        Some((0, &[])),
    ),
    ("the constant leaves", (HALF, &[]), 2, None),
    (
        "a coefficient leaves at the type's least number",
        (0, &[(4, HALF)]),
        -2,
        None,
    ),
    (
        "a coefficient leaves the type",
        (1, &[(0, 1), (7, MOST)]),
        MOST,
        None,
    ),
];

/// The product of a form and a factor.
fn multiple(
    rt: &impl Abort,
    alloc: Global,
    numbers: &Numbers,
    factor: i128,
) -> Result<Form, LinearFault> {
    form(rt, alloc, numbers).scale(alloc, factor)
}

#[test]
fn multiples(rt: HostRuntime) {
    for (name, numbers, factor, want) in MULTIPLES {
        let found = multiple(&rt, rt.alloc(), numbers, *factor);
        expect_form(&rt, found, *want, name);
    }
}

/// Rows, and their negations.
const NEGATED: &[(&str, Numbers, Option<Numbers>)] = &[
    (
        "a row",
        (3, &[(1, 5), (9, -MOST)]),
        Some((-4, &[(1, -5), (9, MOST)])),
    ),
    ("the least", (-MOST, &[]), Some((MOST - 1, &[]))),
    ("at the edge", (MOST - 1, &[]), Some((-MOST, &[]))),
    ("the constant leaves", (MOST, &[]), None),
];

/// The form of a row's negation.
fn negated(rt: &impl Abort, alloc: Global, numbers: &Numbers) -> Result<Form, LinearFault> {
    let form = form(rt, alloc, numbers);
    Ok(Row { form }.negated(alloc)?.form)
}

#[test]
fn negated_rows(rt: HostRuntime) {
    for (name, numbers, want) in NEGATED {
        let found = negated(&rt, rt.alloc(), numbers);
        expect_form(&rt, found, *want, name);
    }
}

/// Compares the value of a form of these terms, and a number that leaves the range with `None`.
fn expect_value(
    rt: &impl Abort,
    alloc: Global,
    terms: &[(u32, i128)],
    constant: i128,
    values: &[i128],
    want: Option<i128>,
    name: &str,
)
    requires constant { InRange constant }
    requires normal { IsNormal 0 (2 ^ 32) terms.now }
    requires within { IsNormal 0 (length values.now) terms.now }
{
    let form = Form {
        constant,
        terms: list_of(rt, alloc, terms),
    };
    expect(rt, form.value_at(values).ok() == want, name);
}

#[test]
fn values(rt: HostRuntime) {
    let alloc = rt.alloc();
    expect_value(
        &rt,
        alloc,
        &[(0, 2), (2, -3)],
        1,
        &[5, 9, 4],
        Some(-1),
        "a value",
    );
    // a partial sum leaves, though the value would fit; in the other order the same terms stay
    expect_value(
        &rt,
        alloc,
        &[(0, 1), (1, -1)],
        MOST,
        &[1, 1],
        None,
        "a sum leaves",
    );
    expect_value(
        &rt,
        alloc,
        &[(0, -1), (1, 1)],
        MOST,
        &[1, 1],
        Some(MOST),
        "sums stay",
    );
    // a product leaves, though the sum would fit
    expect_value(&rt, alloc, &[(0, 2)], -MOST, &[HALF], None, "a product");
    expect_value(&rt, alloc, &[], 7, &[], Some(7), "no terms");
}

/// Pairs of numbers, each with its sum, difference and product.
const NUMBERS: &[(&str, i128, i128, Option<i128>, Option<i128>, Option<i128>)] = &[
    ("3 and -4", 3, -4, Some(-1), Some(7), Some(-12)),
    ("most and 0", MOST, 0, Some(MOST), Some(MOST), Some(0)),
    ("most and 1", MOST, 1, None, Some(MOST - 1), Some(MOST)),
    ("least and 1", -MOST, 1, Some(1 - MOST), None, Some(-MOST)),
    ("least and least", -MOST, -MOST, None, Some(0), None),
    (
        "2^126 and -2",
        HALF,
        -2,
        Some(HALF - 2),
        Some(HALF + 2),
        None,
    ),
    ("2^126 and 2^126", HALF, HALF, None, Some(0), None),
    (
        "2^64 - 1 and 2^63",
        4 * FITS - 1,
        2 * FITS,
        Some(6 * FITS - 1),
        Some(2 * FITS - 1),
        Some(MOST - 2 * FITS + 1),
    ),
    (
        "-2^63 and -2^63",
        -2 * FITS,
        -2 * FITS,
        Some(-4 * FITS),
        Some(0),
        Some(HALF),
    ),
];

#[test]
fn numbers(rt: HostRuntime) {
    for (name, a, b, sum, difference, product) in NUMBERS {
        expect(&rt, plus(*a, *b) == *sum, name);
        expect(&rt, minus(*a, *b) == *difference, name);
        expect(&rt, multiply(*a, *b) == *product, name);
    }
}

/// Pairs of numbers, each with its greatest common divisor.
const DIVISORS: &[(&str, i128, i128, i128)] = &[
    ("0 and 0", 0, 0, 0),
    ("0 and -7", 0, -7, 7),
    ("12 and -18", 12, -18, 6),
    ("most and 1", MOST, 1, 1),
    ("most and least", MOST, -MOST, MOST),
    ("2^126 and 3 * 2^60", HALF, 3 << 60, 1 << 60),
];

#[test]
fn divisors(rt: HostRuntime) {
    for (name, a, b, divisor) in DIVISORS {
        let (a, b) = (*a, *b);
        assert!(rt; a > i128::MIN && b > i128::MIN);
        expect(&rt, gcd(a, b) == *divisor, name);
    }
}

/// Pairs of numbers, each with its quotient, rounded down.
const QUOTIENTS: &[(&str, i128, i128, i128)] = &[
    ("7 by 2", 7, 2, 3),
    ("-7 by 2", -7, 2, -4),
    ("-8 by 2", -8, 2, -4),
    ("0 by most", 0, MOST, 0),
    ("-1 by most", -1, MOST, -1),
    ("most by 1", MOST, 1, MOST),
    ("least by 2", -MOST, 2, -HALF),
];

#[test]
fn quotients(rt: HostRuntime) {
    for (name, a, b, quotient) in QUOTIENTS {
        assert!(rt; *b > 0);
        expect(&rt, floor_div(*a, *b) == *quotient, name);
    }
}

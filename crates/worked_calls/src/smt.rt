//! Texts for other solvers, of systems that no file gives.

ghost use Rattle.std.specs.Prelude.{◌≡◌, []};
ghost use Rattle.ta_linear.specs.Numbers.{InRange};

use crate::expecting::expect;
use crate::farkas::row;
use std::alloc::Global;
use std::process::Abort;
use ta_base::List;
use ta_linear::{Form, Row, System};
use ta_smt::smt_text;

/// The first number above those of 64 bits.
const WIDE: i128 = 1 << 64;

/// The greatest number of the range.
const MOST: i128 = i128::MAX;

const NOTHING: &str = "(set-logic QF_LIA)\n(check-sat)\n";

const CONSTANTS: &str = "(set-logic QF_LIA)
(assert (>= 0 0))
(assert (>= 0 1))
(assert (>= 170141183460469231731687303715884105727 0))
(check-sat)
";

const WIDE_ROWS: &str = "(set-logic QF_LIA)
(declare-fun u0 () Int)
(declare-fun u1 () Int)
(declare-fun u2 () Int)
(assert (>= u0 0))
(assert (>= u1 0))
(assert (>= u2 0))
(assert (>= 0 0))
(assert (>= u0 u2))
(assert (>= (* 18446744073709551616 u0) (+ u1 (* 18446744073709551616 u2) 1)))
(assert (>= (+ u1 170141183460469231731687303715884105727) (* 170141183460469231731687303715884105727 u2)))
(check-sat)
";

/// A row without terms.
fn constant_row(alloc: Global, constant: i128) -> Row
    requires { InRange constant }
    ensures { result.form.terms ≡ [] }
{
    Row {
        form: Form::constant_of(alloc, constant),
    }
}

/// Compares the text of a system.
fn expect_script(rt: &impl Abort, alloc: Global, system: System, want: &str) {
    let text = smt_text(alloc, &system).expect(rt, "memory");
    expect(rt, text.as_str() == want, want);
}

#[test]
fn writes_systems_without_unknowns(rt: HostRuntime) {
    let alloc = rt.alloc();
    let empty = System {
        unknowns: 0,
        rows: List::empty(alloc),
    };
    expect_script(&rt, alloc, empty, NOTHING);
    let rows = vec![in alloc;
        constant_row(alloc, 0),
        constant_row(alloc, -1),
        constant_row(alloc, MOST),
    ]
    .expect(&rt, "memory");
    let system = System {
        unknowns: 0,
        rows: List::from_vec(rows),
    };
    expect_script(&rt, alloc, system, CONSTANTS);
}

#[test]
fn writes_wide_numbers(rt: HostRuntime) {
    let alloc = rt.alloc();
    let rows = vec![in alloc;
        constant_row(alloc, 0),
        row(&rt, alloc, 0, &[(0, 1), (2, -1)]),
        row(&rt, alloc, -1, &[(0, WIDE), (1, -1), (2, -WIDE)]),
        row(&rt, alloc, MOST, &[(1, 1), (2, -MOST)]),
    ]
    .expect(&rt, "memory");
    let system = System {
        unknowns: 3,
        rows: List::from_vec(rows),
    };
    expect_script(&rt, alloc, system, WIDE_ROWS);
}

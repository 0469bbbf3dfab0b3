//! The system without unknowns and rows, and what a branch counts.

ghost use Rattle.std.specs.Prelude.{◌≢◌, ◌<◌, ◌^◌, pos};
ghost use Rattle.ta_linear.specs.Numbers.{InRange};
ghost use Rattle.ta_dense.specs.Slack.{variables};

use crate::expecting::expect;
use crate::farkas::row;
use std::alloc::Global;
use std::process::Abort;
use ta_base::List;
use ta_dense::DenseDictionary;
use ta_linear::System;
use ta_links::LinkedDictionary;
use ta_simplex::{Branch, Effort, End, SolveFault, solve};

/// Expects a vertex of no values.
fn expect_no_values(rt: &impl Abort, end: Result<End, SolveFault>, name: &str) {
    let none = match &end {
        Ok(End::Vertex(values)) => values.as_slice().is_empty(),
        _ => false,
    };
    expect(rt, none, name);
}

#[test]
fn ends(rt: HostRuntime) {
    let system = System {
        unknowns: 0,
        rows: List::empty(rt.alloc()),
    };
    let dense = solve::<DenseDictionary>(rt.alloc(), &system);
    expect_no_values(&rt, dense, "dense rows");
    let linked = solve::<LinkedDictionary>(rt.alloc(), &system);
    expect_no_values(&rt, linked, "linked rows");
}

// So many times the first of three unknowns is at least 1.
fn multiple(rt: &impl Abort, alloc: Global, times: i128) -> System
    requires some { times ≢ pos 0 }
    requires fits { InRange times }
    ensures { variables result < 2 ^ 32 }
{
    let rows = vec![in alloc; row(rt, alloc, -1, &[(0, times)])].expect(rt, "memory");
    System {
        unknowns: 3,
        rows: List::from_vec(rows),
    }
}

// What a branch counts of two systems, each of one pivot, that share no row. The
// numbers of the second have more than 16 bits.
fn counted(rt: &impl Abort, alloc: Global) -> Effort {
    let mut branch: Branch<DenseDictionary> = Branch::new(alloc);
    let small = multiple(rt, alloc, 2);
    let large = multiple(rt, alloc, 1_099_511_627_776);
    branch.solve(alloc, &small, 0).expect(rt, "small numbers");
    branch.solve(alloc, &large, 0).expect(rt, "large numbers");
    branch.effort()
}

#[test]
fn counts(rt: HostRuntime) {
    let effort = Effort {
        pivots: 2,
        begun: 2,
        full: 1,
        given_up: 0,
    };
    expect(&rt, counted(&rt, rt.alloc()) == effort, "counts");
}

// Whether the end is a vertex whose first value is a half.
fn is_half(end: &Result<End, SolveFault>) -> bool {
    match end {
        Ok(End::Vertex(values)) => match values.as_slice().first() {
            Some(value) => value.top == 1 && value.bottom == 2,
            None => false,
        },
        _ => false,
    }
}

// A branch, which takes revised dictionaries, comes to the end to which full ones come.
#[test]
fn a_branch_agrees(rt: HostRuntime) {
    let system = multiple(&rt, rt.alloc(), 2);
    let mut branch: Branch<DenseDictionary> = Branch::new(rt.alloc());
    let revised = branch.solve(rt.alloc(), &system, 0);
    let full = solve::<DenseDictionary>(rt.alloc(), &system);
    expect(&rt, is_half(&revised), "revised rows");
    expect(&rt, is_half(&full), "full rows");
}

//! The words of each verdict.

use crate::expecting::expect_text;
use ta_report::{ReportKind, Verdict};

/// That a number left 128 bits at node 7.
fn overflow(kind: ReportKind) -> Verdict {
    Verdict::Overflow { node: 7, kind }
}

#[test]
fn tells_verdicts(rt: HostRuntime) {
    let alloc = rt.alloc();
    let safe = Verdict::Safe {
        nodes: 12,
        leaves: 3,
    };
    expect_text(&rt, alloc, safe, "safe, 12 nodes, 3 leaves");
    let spent = Verdict::Spent { nodes: 1000 };
    expect_text(&rt, alloc, spent, "unknown, 1000 nodes spent");
    let pivot = overflow(ReportKind::Pivot(0));
    let words = "unknown, outside 128 bits at node 7, pivot 0";
    expect_text(&rt, alloc, pivot, words);
    let leaf = overflow(ReportKind::Leaf);
    let words = "unknown, outside 128 bits at node 7, leaf";
    expect_text(&rt, alloc, leaf, words);
    let run = overflow(ReportKind::Run);
    let words = "unknown, outside 128 bits at node 7, run";
    expect_text(&rt, alloc, run, words);
}

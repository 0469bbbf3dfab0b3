//! What a report says of a pattern.
#![tactic(auto)]

ghost use Rattle.std.specs.Prelude.{Some};
ghost use Rattle.ta_report.specs.Report.{place_text, verdict_text};

use std::fmt;
use ta_base::List;
use ta_replay::Run;

/// Where a number left 128 bits.
#[derive(Clone, Copy)]
pub enum ReportKind {
    /// In the pivot of this number of the node's solving.
    Pivot(u64),
    /// In the check of the leaf that the node is.
    Leaf,
    /// In the replay of the node's run.
    Run,
}

/// What is said of a pattern, within a budget of nodes. Nodes are counted from 1.
#[derive(Drop)]
pub enum Verdict {
    /// It occurs in no run: its tree has these many nodes, of which so many are leaves.
    Safe { nodes: u64, leaves: u64 },
    /// It occurs in this run: that of the node of this number, the first whose word has a solution.
    Unsafe { nodes: u64, run: Run },
    /// These many nodes were visited, and the tree has more.
    Spent { nodes: u64 },
    /// At the node of this number a number left 128 bits.
    Overflow { node: u64, kind: ReportKind },
}

/// What is said of the parameters, within a budget of nodes.
#[derive(Drop)]
pub enum ReportSample {
    /// These values, one for each parameter, meet the resilience condition and have an initial
    /// configuration.
    Sample(List<i128>),
    /// No values do.
    Empty,
    /// These many nodes were visited, and the tree has more.
    Spent { count: u64 },
    /// At the node of this number a number left 128 bits.
    Overflow { node: u64, kind: ReportKind },
}

impl fmt::Display for ReportKind {
    ghost output = { λ kind. Some (place_text kind) };

    fn fmt<W: fmt::Write>(&self, f: &mut fmt::Formatter<W>) -> fmt::Result {
        match self {
            ReportKind::Pivot(pivot) => write!(f, "pivot {pivot}"),
            ReportKind::Leaf => write!(f, "leaf"),
            ReportKind::Run => write!(f, "run"),
        }
    }
}

impl fmt::Display for Verdict {
    ghost output = { λ verdict. Some (verdict_text verdict) };

    fn fmt<W: fmt::Write>(&self, f: &mut fmt::Formatter<W>) -> fmt::Result {
        match self {
            Verdict::Safe { nodes, leaves } => write!(f, "safe, {nodes} nodes, {leaves} leaves"),
            Verdict::Unsafe { nodes, .. } => write!(f, "unsafe, {nodes} nodes"),
            Verdict::Spent { nodes } => write!(f, "unknown, {nodes} nodes spent"),
            Verdict::Overflow { node, kind } => {
                write!(f, "unknown, outside 128 bits at node {node}, {kind}")
            }
        }
    }
}

//! How a walk ends.
#![tactic(auto)]

use ta_base::List;
use ta_cert::Node;
use ta_encode::Solution;

/// Where a number left 128 bits.
#[derive(Clone, Copy, Debug, PartialEq, Eq)]
pub enum PlaceKind {
    /// In the pivot of this number of the node's solving, from 1; the number stands still at
    /// 2^64 - 1.
    Pivot(u64),
    /// In the check of the leaf that the node is.
    Leaf,
    /// In the replay of the node's run.
    Run,
}

/// How a visit of a tree ends whose nodes were handed on as they came. Nodes are counted from 1, over
/// all starts with which the search begins, in the order of the visit.
#[derive(Drop)]
pub enum TreeEnd<F: Copy + Drop> {
    /// The tree has so many nodes, of which so many are leaves.
    Refuted {
        count: u64,
        leaves: u64,
    },
    /// The node of this number, which has this start and these facts, in order, asks nothing, and
    /// whole values solve its system.
    Found {
        count: u64,
        start: u8,
        facts: List<F>,
        values: List<i128>,
    },
    /// These many nodes were visited, and the tree has more.
    Spent {
        count: u64,
    },
    /// At the node of this number a number left 128 bits.
    Overflow {
        node: u64,
        kind: PlaceKind,
    },
}

impl<F: Copy + Drop> TreeEnd<F> {
    ghost use Rattle.std.specs.Prelude.{◌≡◌};
    ghost use Rattle.ta_walk.specs.Ends.{node_count};

    /// How many nodes were visited.
    pub fn node_count(&self) -> u64
        ensures { result ≡ node_count self.now }
    {
        match self {
            TreeEnd::Refuted { count, .. }
            | TreeEnd::Found { count, .. }
            | TreeEnd::Spent { count } => *count,
            TreeEnd::Overflow { node, .. } => *node,
        }
    }
}

/// How a visit of a pattern's tree ends whose nodes were handed on as they came. Nodes are counted as
/// those of a walk.
#[derive(Drop)]
pub enum VisitEnd {
    /// The tree has so many nodes, of which so many are leaves, and they are a proof of the pattern.
    Refuted { count: u64, leaves: u64 },
    /// The node of this number has a complete word and whole values that solve its system.
    Found { count: u64, solution: Solution },
    /// These many nodes were visited, and the tree has more.
    Spent { count: u64 },
    /// At the node of this number a number left 128 bits.
    Overflow { node: u64, kind: PlaceKind },
}

/// How the walk of a pattern ends. Nodes are counted from 1, over all start sets, in the order of the
/// visit.
#[derive(Drop)]
pub enum WalkEnd {
    /// The tree has these nodes, and they are a proof of the pattern.
    Refuted { nodes: List<Node>, count: u64 },
    /// The node of this number has a complete word and whole values that solve its system.
    Found { count: u64, solution: Solution },
    /// These many nodes were visited, and the tree has more.
    Spent { count: u64 },
    /// At the node of this number a number left 128 bits.
    Overflow { node: u64, kind: PlaceKind },
}

/// How the search for a sample of the parameters ends. Nodes are counted from 1.
#[derive(Drop)]
pub enum SampleEnd {
    /// These values, one for each parameter in the order of the file, meet the resilience condition
    /// and have an initial configuration.
    Sample(ta_base::List<i128>),
    /// No values do.
    Empty,
    /// These many nodes were visited, and the tree has more.
    Spent { count: u64 },
    /// At the node of this number a number left 128 bits.
    Overflow { node: u64, kind: PlaceKind },
}

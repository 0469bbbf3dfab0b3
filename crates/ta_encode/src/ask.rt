//! What an inner node of a tree does.
#![tactic(auto)]

ghost use Rattle.std.specs.Prelude.{◌≡◌, IfNone, IfSome};
ghost use Rattle.ta_encode.specs.Asking.{AsksNothing, ask_node};

use ta_cert::Node;

/// What a node asks.
#[derive(Clone, Copy)]
pub enum Ask {
    /// Which element comes next.
    Extend,
    /// How a guard, by number, is used.
    Guard(u32),
    /// Which of two moments, by number, comes first.
    Order { before: u32, after: u32 },
    /// Why a rule, by number, can't fire in the end.
    Stuck(u32),
}

/// An inner node.
#[derive(Clone, Copy)]
pub enum Inner {
    /// It asks: one tree follows for each answer.
    Asks(Ask),
    /// It splits an unknown at a floor: two trees follow.
    Splits { unknown: u32, floor: i128 },
}

/// What a node asks, unless it is a leaf or a split.
pub fn ask_of(node: &Node) -> Option<Ask>
    ensures some { IfSome result (λ ask. node.now ≡ ask_node ask) }
    ensures none { IfNone result (AsksNothing node.now) }
{
    match node {
        Node::Extend => Some(Ask::Extend),
        Node::Guard(guard) => Some(Ask::Guard(*guard)),
        Node::Order { before, after } => Some(Ask::Order {
            before: *before,
            after: *after,
        }),
        Node::Stuck(rule) => Some(Ask::Stuck(*rule)),
        Node::Leaf(_) | Node::Split { .. } => None,
    }
}

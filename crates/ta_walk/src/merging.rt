//! How the ends of two parts of a visit become one, in order.
//!
//! If the first part is not refuted, its end is that of both. Else the nodes of the second part
//! come behind those of the first: their numbers rise by its count, and if they then exceed the
//! budget, both together have spent it. So the second part need not know how many nodes the first
//! one takes.
#![tactic(auto)]

ghost use Rattle.std.specs.Prelude.{ℕ, ◌+◌, ◌-◌, ◌<◌, ◌≤◌, ◌≡◌, ◌++◌, IfNone, IfOk, IfSome, List};
ghost use Rattle.ta_encode.specs.Search.{Pending, Search};
ghost use Rattle.ta_walk.specs.declared.end.TreeEnd.TheVariants.{Refuted};
ghost use Rattle.ta_walk.specs.Inside.Counted.{IsCounted, RoseBy};
ghost use Rattle.ta_walk.specs.Inside.Parts.{IsLaterKeeper, IsNotRefuted, IsSmallEnd, IsWholeEnd, PartVisited, beginning, behind};
ghost use Rattle.ta_words.specs.declared.element.Element.{Element};

use crate::end::TreeEnd;
use crate::keeper::{Keeper, PartKeeper};
use crate::part::Part;
use std::alloc::{AllocError, Global};
use ta_base::limits::MOST_NODES;
use ta_words::Element;

/// Two parts that were visited beside each other as one: the ends in order, and the nodes one after
/// the other.
pub(crate) fn merge<K: PartKeeper>(
    alloc: Global,
    nodes: u64,
    first: Part<K>,
    second: Part<K>,
) -> Result<Part<K>, AllocError>
    requires limit { nodes ≤ MOST_NODES }
    requires first { IsSmallEnd nodes first.end }
    requires second { IsSmallEnd nodes second.end }
    ensures visited { (s : Search Element) (ws vs : List (Pending Element)) (begun late : K)
        → PartVisited K.keeps (beginning s ws) nodes begun first.keeper first.end → PartVisited K.keeps (beginning s vs) nodes late second.keeper second.end → IsLaterKeeper K.begins K.keeps begun late
        → IfOk result (λ whole. PartVisited K.keeps (beginning s (ws ++ vs)) nodes begun whole.keeper whole.end) }
    ensures small { IfOk result (λ whole. IsSmallEnd nodes whole.end) }
    ensures whole { IsWholeEnd nodes first.end → IsWholeEnd nodes second.end → IfOk result (λ whole. IsWholeEnd nodes whole.end) }
    ensures begun { IfOk result (λ whole. RoseBy first.begun second.begun whole.begun) }
    ensures counted { (low high : ℕ) → IsCounted nodes low first.end first.begun → IsCounted nodes high second.end second.begun → IfOk result (λ whole. IsCounted nodes (low + high + 1) whole.end whole.begun) }
{
    let begun = first.begun;
    let Some((count, leaves)) = refuted(&first.end) else {
        return Ok(Part {
            end: first.end,
            keeper: first.keeper,
            begun: begun.saturating_add(second.begun),
        });
    };
    add(alloc, nodes, count, leaves, begun, first.keeper, second)
}

/// Two parts that were visited beside each other as one, as `merge` does, where memory sufficed for both.
pub(crate) fn merge_both<K: PartKeeper>(
    alloc: Global,
    nodes: u64,
    first: Result<Part<K>, AllocError>,
    second: Result<Part<K>, AllocError>,
) -> Result<Part<K>, AllocError>
    requires limit { nodes ≤ MOST_NODES }
    requires first { IfOk first (λ part. IsSmallEnd nodes part.end) }
    requires second { IfOk second (λ part. IsSmallEnd nodes part.end) }
    ensures visited { (s : Search Element) (ws vs : List (Pending Element)) (begun late : K)
        → IfOk first (λ part. PartVisited K.keeps (beginning s ws) nodes begun part.keeper part.end)
        → IfOk second (λ part. PartVisited K.keeps (beginning s vs) nodes late part.keeper part.end) → IsLaterKeeper K.begins K.keeps begun late
        → IfOk result (λ whole. PartVisited K.keeps (beginning s (ws ++ vs)) nodes begun whole.keeper whole.end) }
    ensures small { IfOk result (λ whole. IsSmallEnd nodes whole.end) }
    ensures whole { IfOk first (λ part. IsWholeEnd nodes part.end) → IfOk second (λ part. IsWholeEnd nodes part.end) → IfOk result (λ whole. IsWholeEnd nodes whole.end) }
    ensures counted { (low high : ℕ) → IfOk first (λ part. IsCounted nodes low part.end part.begun) → IfOk second (λ part. IsCounted nodes high part.end part.begun)
        → IfOk result (λ whole. IsCounted nodes (low + high + 1) whole.end whole.begun) }
{
    merge(alloc, nodes, first?, second?)
}

/// A refuted part, which began so many nodes, and one behind it, as one.
pub(crate) fn add<K: PartKeeper>(
    alloc: Global,
    nodes: u64,
    count: u64,
    leaves: u64,
    begun: u64,
    keeper: K,
    second: Part<K>,
) -> Result<Part<K>, AllocError>
    requires limit { nodes ≤ MOST_NODES }
    requires within { count ≤ nodes }
    requires leaves { leaves ≤ count }
    requires small { (later : ℕ) × IsSmallEnd later second.end }
    ensures visited { (s : Search Element) (ws vs : List (Pending Element)) (later : ℕ) (begun late : K)
        → PartVisited K.keeps (beginning s ws) nodes begun keeper (Refuted count leaves) → PartVisited K.keeps (beginning s vs) later late second.keeper second.end → IsLaterKeeper K.begins K.keeps begun late
        → IfOk result (λ whole. PartVisited K.keeps (beginning s (ws ++ vs)) nodes begun whole.keeper whole.end) }
    ensures small { IfOk result (λ whole. IsSmallEnd nodes whole.end) }
    ensures whole { (later : ℕ) → nodes ≤ later + count → IsWholeEnd later second.end → IfOk result (λ whole. IsWholeEnd nodes whole.end) }
    ensures end { IfOk result (λ whole. whole.end ≡ behind nodes count leaves second.end) }
    ensures begun { IfOk result (λ whole. RoseBy begun second.begun whole.begun) }
{
    let begun = begun.saturating_add(second.begun);
    let mut keeper = keeper;
    keeper.append(alloc, second.keeper)?;
    Ok(Part {
        end: end_behind(nodes, count, leaves, second.end),
        keeper,
        begun,
    })
}

/// How many nodes and leaves a part has that is refuted.
pub(crate) fn refuted(end: &TreeEnd<Element>) -> Option<(u64, u64)>
    ensures some { IfSome result (λ size. end.now ≡ Refuted size.0 size.1) }
    ensures none { IfNone result (IsNotRefuted end.now) }
{
    match end {
        TreeEnd::Refuted { count, leaves } => Some((*count, *leaves)),
        TreeEnd::Found { .. } | TreeEnd::Spent { .. } | TreeEnd::Overflow { .. } => None,
    }
}

/// The end of a part that came to some words behind so many nodes, of which so many are leaves, where
/// the part of these words ended so: the budget is spent where these are too many.
pub(crate) fn end_behind(
    nodes: u64,
    count: u64,
    leaves: u64,
    end: TreeEnd<Element>,
) -> TreeEnd<Element>
    requires limit { nodes ≤ MOST_NODES }
    requires within { count ≤ nodes }
    requires leaves { leaves ≤ count }
    requires small { (later : ℕ) × IsSmallEnd later end }
    ensures is { result ≡ behind nodes count leaves end }
    ensures small { IsSmallEnd nodes result }
    ensures whole { (later : ℕ) → nodes ≤ later + count → IsWholeEnd later end → IsWholeEnd nodes result }
{
    if end.node_count() > nodes - count {
        return TreeEnd::Spent { count: nodes };
    }
    match end {
        TreeEnd::Refuted {
            count: more,
            leaves: others,
        } => TreeEnd::Refuted {
            count: count + more,
            leaves: leaves + others,
        },
        TreeEnd::Found {
            count: more,
            start,
            facts,
            values,
        } => TreeEnd::Found {
            count: count + more,
            start,
            facts,
            values,
        },
        TreeEnd::Spent { count: more } => TreeEnd::Spent {
            count: count + more,
        },
        TreeEnd::Overflow { node: more, kind } => TreeEnd::Overflow {
            node: count + more,
            kind,
        },
    }
}

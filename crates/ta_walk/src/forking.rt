//! Explores the trees of a claim in parallel.
//!
//! A part of the visit is the visit of a search that begins with other nodes (`beginning`), so each
//! function here has the contract of the whole visit. The list of start sets is cut into halves
//! (`visit_list`): two threads visit them by `join` where a processor is free, else one thread
//! visits one after the other. Inside a tree a part looks for a free processor now and then
//! (`Watch`). Then the nodes that its outermost open nodes leave, whose trees are the largest,
//! become a cursor of their own (`Cursor::share`), which another thread visits from nothing, while
//! the first thread goes on from its dictionaries.
//!
//! Why the result is that of one thread: a part depends on its first nodes and on its budget alone.
//! A later part does not know how many nodes the earlier ones need, so both have the budget that
//! was left at the fork, and merging.rt puts the ends together in order: what comes behind an end
//! that decides is dropped, and the numbers of the later nodes rise by the count of the earlier
//! part. A part that is abandoned (part.rt) ends with a budget that is spent too early; if that
//! reaches the whole visit, it is repeated without abandoning any (forked.rt).
//!
//! Cost: later parts may visit nodes that one thread would not reach, and each part keeps
//! dictionaries of its own. Both halves of a fork have the budget that is left, so a fork adds at
//! most one budget to the nodes that are begun. A part may fork only so often (`forks` of `Watch`),
//! and the halves of a fork share what is left: inside a tree, the second half, whose trees are
//! larger, has two thirds. So a part with f forks begins at most the nodes of its end and f budgets.
#![tactic(auto)]

ghost use Rattle.std.specs.Prelude.{◌+◌, ◌-◌, ◌<◌, ◌≤◌, ◌^◌, ◌≡◌, ◌++◌, IfOk, map, true, vec_len};
ghost use Rattle.std.specs.List.{AllByRecursion};
ghost use denote.Param.Send.{IsSend, IsSync};
ghost use Rattle.ta_rest.specs.Trees.{IsKeptFor, search_of_claim};
ghost use Rattle.ta_encode.specs.Cursors.{left_at};
ghost use Rattle.ta_simplex.specs.Branch.{IsBranch};
ghost use Rattle.ta_walk.specs.Inside.Counted.{IsCounted};
ghost use Rattle.ta_walk.specs.Inside.Parts.{IsLaterKeeper, ComesTo, IsSmallEnd, IsWholeEnd, PartVisited, HasFewLeft, beginning, root_node};

use crate::end::TreeEnd;
use crate::gate::Gate;
use crate::keeper::{Keeper, PartKeeper};
use crate::merging::{add, end_behind, merge_both, refuted};
use crate::part::{Part, Watch};
use crate::visiting::{Frontier, Stretch, visit_stretch};
use crate::work::Work;
use std::alloc::{AllocError, Global};
use std::sync::atomic::AtomicU64;
use std::thread::{Threads, join};
use ta_base::limits::MOST_NODES;
use ta_dense::Dictionary;
use ta_encode::{Cursor, Encoding, Tree};
use ta_rest::ClaimTree;
use ta_simplex::Branch;
use ta_words::Element;

/// What all parts of a visit work with.
#[derive_where(Clone, Copy)]
pub(crate) struct Setting<'a, R, G> {
    /// What starts threads.
    pub rt: &'a R,
    /// What gives memory.
    pub alloc: Global,
    /// The tree that is visited.
    pub tree: &'a ClaimTree<'a>,
    /// What each half of a fork goes through before its first node.
    pub gate: &'a G,
}

/// Visits the trees of the starts of a list, at most so many nodes of them: a list of several starts is
/// cut into halves.
#[cycle(forks)]
pub(crate) fn visit_list<D: Dictionary, K: PartKeeper, R: Threads + Sync, G: Gate>(
    setting: Setting<'_, R, G>,
    watch: Watch<'_>,
    starts: Vec<u8>,
    nodes: u64,
    keeper: K,
) -> Result<Part<K>, AllocError>
    requires come { AllByRecursion (ComesTo (search_of_claim setting.tree.now)) starts.items }
    requires few { vec_len starts ≤ 2 ^ 31 }
    requires limit { nodes ≤ MOST_NODES }
    ensures visited { IfOk result (λ part. PartVisited K.keeps
        (beginning (search_of_claim setting.entry.tree.now) (map root_node starts.items)) nodes keeper part.keeper part.end) }
    ensures small { IfOk result (λ part. IsSmallEnd nodes part.end) }
    ensures patient { watch.entry.patient ≡ true → IfOk result (λ part. IsWholeEnd nodes part.end) }
    ensures counted { IfOk result (λ part. IsCounted nodes watch.entry.forks part.end part.begun) }
{
    let mut starts = starts;
    if starts.len() < 2 {
        let Some(start) = starts.pop() else {
            return Ok(Part {
                end: TreeEnd::Refuted {
                    count: 0,
                    leaves: 0,
                },
                keeper,
                begun: 0,
            });
        };
        let cursor = Cursor::new(setting.alloc, start);
        let at = frontier_at(setting.alloc, setting.tree, cursor);
        return visit_on::<D, K, R, G>(setting, watch, at, nodes, keeper);
    }
    let others = starts.split_off(starts.len() / 2)?;
    visit_halves::<D, K, R, G>(setting, watch, starts, others, nodes, keeper)
}

/// Visits the starts of the halves of a list, beside each other where that may be. Elsewhere the second
/// half has the budget that the first one left.
#[cycle(forks)]
fn visit_halves<D: Dictionary, K: PartKeeper, R: Threads + Sync, G: Gate>(
    setting: Setting<'_, R, G>,
    watch: Watch<'_>,
    starts: Vec<u8>,
    others: Vec<u8>,
    nodes: u64,
    keeper: K,
) -> Result<Part<K>, AllocError>
    requires first { AllByRecursion (ComesTo (search_of_claim setting.tree.now)) starts.items }
    requires second { AllByRecursion (ComesTo (search_of_claim setting.tree.now)) others.items }
    requires some { (0 < vec_len starts) × (0 < vec_len others) }
    requires few { vec_len starts + vec_len others ≤ 2 ^ 31 }
    requires limit { nodes ≤ MOST_NODES }
    ensures visited { IfOk result (λ part. PartVisited K.keeps
        (beginning (search_of_claim setting.entry.tree.now) (map root_node starts.items ++ map root_node others.items)) nodes keeper part.keeper part.end) }
    ensures small { IfOk result (λ part. IsSmallEnd nodes part.end) }
    ensures patient { watch.entry.patient ≡ true → IfOk result (λ part. IsWholeEnd nodes part.end) }
    ensures counted { IfOk result (λ part. IsCounted nodes watch.entry.forks part.end part.begun) }
{
    let late = keeper.later(setting.alloc)?;
    if watch.goes_beside() {
        return visit_beside::<D, K, R, G>(setting, watch, starts, others, keeper, late, nodes);
    }
    visit_in_turn::<D, K, R, G>(setting, watch, starts, others, keeper, late, nodes)
}

/// Visits the starts of the halves of a list one after the other: the second half has the budget that
/// the first one left.
#[cycle(forks)]
fn visit_in_turn<D: Dictionary, K: PartKeeper, R: Threads + Sync, G: Gate>(
    setting: Setting<'_, R, G>,
    watch: Watch<'_>,
    starts: Vec<u8>,
    others: Vec<u8>,
    keeper: K,
    late: K,
    nodes: u64,
) -> Result<Part<K>, AllocError>
    requires first { AllByRecursion (ComesTo (search_of_claim setting.tree.now)) starts.items }
    requires second { AllByRecursion (ComesTo (search_of_claim setting.tree.now)) others.items }
    requires some { (0 < vec_len starts) × (0 < vec_len others) }
    requires few { vec_len starts + vec_len others ≤ 2 ^ 31 }
    requires limit { nodes ≤ MOST_NODES }
    requires fresh { IsLaterKeeper K.begins K.keeps keeper late }
    ensures visited { IfOk result (λ part. PartVisited K.keeps
        (beginning (search_of_claim setting.entry.tree.now) (map root_node starts.items ++ map root_node others.items)) nodes keeper part.keeper part.end) }
    ensures small { IfOk result (λ part. IsSmallEnd nodes part.end) }
    ensures patient { watch.entry.patient ≡ true → IfOk result (λ part. IsWholeEnd nodes part.end) }
    ensures counted { IfOk result (λ part. IsCounted nodes watch.entry.forks part.end part.begun) }
{
    let low = watch.first_half(watch.forks / 2);
    let high = watch.second_half(watch.forks / 2);
    let first = visit_list::<D, K, R, G>(setting, low, starts, nodes, keeper)?;
    let Some((count, leaves)) = refuted(&first.end) else {
        return Ok(first);
    };
    let left = nodes - count;
    let second = visit_list::<D, K, R, G>(setting, high, others, left, late)?;
    add(
        setting.alloc,
        nodes,
        count,
        leaves,
        first.begun,
        first.keeper,
        second,
    )
}

/// Visits the starts of the halves of a list beside each other.
#[cycle(forks)]
fn visit_beside<D: Dictionary, K: PartKeeper, R: Threads + Sync, G: Gate>(
    setting: Setting<'_, R, G>,
    watch: Watch<'_>,
    starts: Vec<u8>,
    others: Vec<u8>,
    keeper: K,
    late: K,
    nodes: u64,
) -> Result<Part<K>, AllocError>
    requires first { AllByRecursion (ComesTo (search_of_claim setting.tree.now)) starts.items }
    requires second { AllByRecursion (ComesTo (search_of_claim setting.tree.now)) others.items }
    requires some { (0 < vec_len starts) × (0 < vec_len others) }
    requires few { vec_len starts + vec_len others ≤ 2 ^ 31 }
    requires limit { nodes ≤ MOST_NODES }
    requires fresh { IsLaterKeeper K.begins K.keeps keeper late }
    requires forks { 0 < watch.forks }
    ensures visited { IfOk result (λ part. PartVisited K.keeps
        (beginning (search_of_claim setting.entry.tree.now) (map root_node starts.items ++ map root_node others.items)) nodes keeper part.keeper part.end) }
    ensures small { IfOk result (λ part. IsSmallEnd nodes part.end) }
    ensures patient { watch.entry.patient ≡ true → IfOk result (λ part. IsWholeEnd nodes part.end) }
    ensures counted { IfOk result (λ part. IsCounted nodes watch.entry.forks part.end part.begun) }
{
    let low = watch.first_half(watch.forks / 2);
    let high = watch.half_beside((watch.forks - 1) / 2);
    let ended = AtomicU64::new(0);
    let ended = &ended;
    let front = move || -> Result<Part<K>, AllocError>
        requires { IsSync R.row × IsSync G.row × IsSend K.row × AllByRecursion (ComesTo (search_of_claim setting.tree.now)) starts.items
            × (vec_len starts ≤ 2 ^ 31) × (nodes ≤ MOST_NODES) }
        ensures visited { IfOk result (λ part. PartVisited K.keeps
            (beginning (search_of_claim setting.entry.tree.now) (map root_node starts.items)) nodes keeper part.keeper part.end) }
        ensures small { IfOk result (λ part. IsSmallEnd nodes part.end) }
        ensures patient { low.entry.patient ≡ true → IfOk result (λ part. IsWholeEnd nodes part.end) }
        ensures counted { IfOk result (λ part. IsCounted nodes low.entry.forks part.end part.begun) }
    {
        setting.gate.enter();
        let part = visit_list::<D, K, R, G>(setting, low, starts, nodes, keeper);
        low.came_back(ended);
        part
    };
    let back = move || -> Result<Part<K>, AllocError>
        requires { IsSync R.row × IsSync G.row × IsSend K.row × AllByRecursion (ComesTo (search_of_claim setting.tree.now)) others.items
            × (vec_len others ≤ 2 ^ 31) × (nodes ≤ MOST_NODES) }
        ensures visited { IfOk result (λ part. PartVisited K.keeps
            (beginning (search_of_claim setting.entry.tree.now) (map root_node others.items)) nodes late part.keeper part.end) }
        ensures small { IfOk result (λ part. IsSmallEnd nodes part.end) }
        ensures patient { high.entry.patient ≡ true → IfOk result (λ part. IsWholeEnd nodes part.end) }
        ensures counted { IfOk result (λ part. IsCounted nodes high.entry.forks part.end part.begun) }
    {
        setting.gate.enter();
        let part = visit_list::<D, K, R, G>(setting, high, others, nodes, late);
        high.came_back(ended);
        part
    };
    let (first, second) = join(setting.rt, front, back);
    watch.takes_in(high);
    merge_both(setting.alloc, nodes, first, second)
}

/// What a visit goes on from at a cursor where no system is written and no dictionary made yet.
fn frontier_at<D: Dictionary>(
    alloc: Global,
    tree: &ClaimTree<'_>,
    cursor: Cursor<Element>,
) -> Frontier<D, Element, Encoding>
    ensures cursor { result.cursor ≡ cursor }
    ensures kept { IsKeptFor tree.now result.kept }
    ensures branch { IsBranch D.tableau D.pivot_of result.kept.system.rows result.branch }
{
    Frontier {
        cursor,
        kept: tree.nothing(alloc),
        branch: Branch::new(alloc),
    }
}

/// Visits the words that are left at a cursor, going on from a branch. Where a processor is free, the
/// last of them are visited beside the others.
#[cycle(shares)]
fn visit_on<D: Dictionary, K: PartKeeper, R: Threads + Sync, G: Gate>(
    setting: Setting<'_, R, G>,
    watch: Watch<'_>,
    at: Frontier<D, Element, Encoding>,
    nodes: u64,
    keeper: K,
) -> Result<Part<K>, AllocError>
    requires stands { HasFewLeft (search_of_claim setting.tree.now) nodes at.cursor }
    requires limit { nodes ≤ MOST_NODES }
    requires kept { IsKeptFor setting.tree.now at.kept }
    requires branch { IsBranch D.tableau D.pivot_of at.kept.system.rows at.branch }
    ensures visited { IfOk result (λ part. PartVisited K.keeps
        (beginning (search_of_claim setting.entry.tree.now) (left_at (search_of_claim setting.entry.tree.now) at.cursor)) nodes keeper part.keeper part.end) }
    ensures small { IfOk result (λ part. IsSmallEnd nodes part.end) }
    ensures patient { watch.entry.patient ≡ true → IfOk result (λ part. IsWholeEnd nodes part.end) }
    ensures counted { IfOk result (λ part. IsCounted nodes watch.entry.forks part.end part.begun) }
{
    let mut at = at;
    let mut keeper = keeper;
    let mut work = Work::new();
    match visit_stretch::<D, ClaimTree<'_>, K>(
        setting.alloc,
        setting.tree,
        watch,
        &mut at,
        nodes,
        &mut keeper,
        &mut work,
    )? {
        Stretch::Ended(end) => {
            watch.tell(&end);
            Ok(Part {
                end,
                keeper,
                begun: work.begun,
            })
        }
        Stretch::Shared {
            count,
            leaves,
            later,
        } => {
            let left = nodes - count;
            let part = visit_shared::<D, K, R, G>(setting, watch, at, later, left, keeper)?;
            work.add(part.begun);
            Ok(Part {
                end: end_behind(nodes, count, leaves, part.end),
                keeper: part.keeper,
                begun: work.begun,
            })
        }
    }
}

/// Visits the words of two cursors beside each other: those of the second come behind those of the
/// first, which goes on from a branch in this thread.
#[cycle(shares)]
fn visit_shared<D: Dictionary, K: PartKeeper, R: Threads + Sync, G: Gate>(
    setting: Setting<'_, R, G>,
    watch: Watch<'_>,
    at: Frontier<D, Element, Encoding>,
    later: Cursor<Element>,
    nodes: u64,
    keeper: K,
) -> Result<Part<K>, AllocError>
    requires stands { HasFewLeft (search_of_claim setting.tree.now) nodes at.cursor }
    requires later { HasFewLeft (search_of_claim setting.tree.now) nodes later }
    requires forks { 0 < watch.forks }
    requires limit { nodes ≤ MOST_NODES }
    requires kept { IsKeptFor setting.tree.now at.kept }
    requires branch { IsBranch D.tableau D.pivot_of at.kept.system.rows at.branch }
    ensures visited { IfOk result (λ part. PartVisited K.keeps
        (beginning (search_of_claim setting.entry.tree.now)
        (left_at (search_of_claim setting.entry.tree.now) at.cursor ++ left_at (search_of_claim setting.entry.tree.now) later))
        nodes keeper part.keeper part.end) }
    ensures small { IfOk result (λ part. IsSmallEnd nodes part.end) }
    ensures patient { watch.entry.patient ≡ true → IfOk result (λ part. IsWholeEnd nodes part.end) }
    ensures counted { IfOk result (λ part. IsCounted nodes watch.entry.forks part.end part.begun) }
{
    let late = keeper.later(setting.alloc)?;
    let low = watch.first_half(watch.forks / 3);
    let high = watch.half_beside(watch.forks - 1 - watch.forks / 3);
    let ended = AtomicU64::new(0);
    let ended = &ended;
    let back = move || -> Result<Part<K>, AllocError>
        requires { IsSync R.row × IsSync G.row × IsSend K.row × HasFewLeft (search_of_claim setting.tree.now) nodes later × (nodes ≤ MOST_NODES) }
        ensures visited { IfOk result (λ part. PartVisited K.keeps
            (beginning (search_of_claim setting.entry.tree.now) (left_at (search_of_claim setting.entry.tree.now) later)) nodes late part.keeper part.end) }
        ensures small { IfOk result (λ part. IsSmallEnd nodes part.end) }
        ensures patient { high.entry.patient ≡ true → IfOk result (λ part. IsWholeEnd nodes part.end) }
        ensures counted { IfOk result (λ part. IsCounted nodes high.entry.forks part.end part.begun) }
    {
        setting.gate.enter();
        let at = frontier_at(setting.alloc, setting.tree, later);
        let part = visit_on::<D, K, R, G>(setting, high, at, nodes, late);
        high.came_back(ended);
        part
    };
    let front = move || -> Result<Part<K>, AllocError>
        requires { IsSync R.row × IsSync G.row × IsSend K.row × HasFewLeft (search_of_claim setting.tree.now) nodes at.cursor × (nodes ≤ MOST_NODES)
            × IsKeptFor setting.tree.now at.kept × IsBranch D.tableau D.pivot_of at.kept.system.rows at.branch }
        ensures visited { IfOk result (λ part. PartVisited K.keeps
            (beginning (search_of_claim setting.entry.tree.now) (left_at (search_of_claim setting.entry.tree.now) at.cursor))
            nodes keeper part.keeper part.end) }
        ensures small { IfOk result (λ part. IsSmallEnd nodes part.end) }
        ensures patient { low.entry.patient ≡ true → IfOk result (λ part. IsWholeEnd nodes part.end) }
        ensures counted { IfOk result (λ part. IsCounted nodes low.entry.forks part.end part.begun) }
    {
        setting.gate.enter();
        let part = visit_on::<D, K, R, G>(setting, low, at, nodes, keeper);
        low.came_back(ended);
        part
    };
    let (second, first) = join(setting.rt, back, front);
    watch.takes_in(high);
    merge_both(setting.alloc, nodes, first, second)
}

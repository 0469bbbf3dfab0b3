//! Finds which rise guard implies which: the pairs under which schemas are explored.
//!
//! For two rise guards a system says that the later one holds and the earlier one fails under the
//! resilience condition (ta_implied). If it is infeasible, the pair is taken with its Farkas
//! certificate, unless a chain of the pairs taken so far leads back. Without such a circle the
//! guards that rise at one moment can be put into an order that keeps all pairs, so schemas in
//! other orders need not be explored.
//!
//! Cost: a small system for each ordered pair of rise guards; no node of the budget is spent. A pair
//! whose system leaves 128 bits is not taken: the tree is larger then, and the proof as sound.
#![tactic(auto)]

ghost use Rattle.std.specs.Prelude.{ℕ, ℤ, ◌≡◌, ◌<◌, ◌+◌, ◌^◌, IfOk, List as Items, MatchOption, OnOk, length, map};
ghost use Rattle.ta_cert.specs.Certificates.{pair_of};
ghost use Rattle.ta_implied.specs.Implied.{IsPair};
ghost use Rattle.ta_walk.specs.FoundOrders.{FoundOrders, RefutedPair};
ghost use Rattle.ta_walk.specs.Inside.Sought.{GuardTried, MasksAgree, PairTried};

use std::alloc::{AllocError, Global};
use ta_automaton::Automaton;
use ta_base::List;
use ta_cert::Order;
use ta_dense::Dictionary;
use ta_farkas::check_leaf;
use ta_implied::{Orders, imply_system};
use ta_scope::ScopedFile;
use ta_simplex::{End, SolveFault, solve};

/// The orders that were found, with their leaves, and the same as the pairs by which words are ordered.
#[derive(Drop)]
pub struct OrdersFound {
    pub list: List<Order>,
    pub orders: Orders,
}

/// The orders so far.
#[derive(Drop)]
struct Sought {
    list: Vec<Order>,
    orders: Orders,
}

/// Finds which rise guard comes before which. Each guard is tried before each other: the pair is taken
/// where its system is refuted, no number leaves 128 bits, and it closes no chain with the pairs that
/// were taken before. It spends no nodes.
pub fn find_orders<D: Dictionary>(
    alloc: Global,
    scoped: &ScopedFile,
) -> Result<OrdersFound, AllocError>
    ensures found { IfOk result (λ found. FoundOrders scoped.now.file.automaton found.list) }
    ensures same { IfOk result (λ found. found.orders ≡ map pair_of found.list) }
{
    let automaton = &scoped.file.automaton;
    let mut sought = Sought {
        list: Vec::new(alloc),
        orders: Orders::new(),
    };
    for after in 0..rise_count(automaton) {
        try_before::<D>(alloc, automaton, after, &mut sought)?;
    }
    Ok(OrdersFound {
        list: List::from_vec(sought.list),
        orders: sought.orders,
    })
}

/// How many rise guards there are.
fn rise_count(automaton: &Automaton) -> u32
    ensures { result ≡ length automaton.now.rise }
{
    automaton.rise.as_slice().len() as u32
}

/// Tries each guard before one.
fn try_before<D: Dictionary>(
    alloc: Global,
    automaton: &Automaton,
    after: u32,
    sought: &mut Sought,
) -> Result<(), AllocError>
    requires { MasksAgree 0 after sought.old }
    ensures { OnOk result (GuardTried automaton.now (length automaton.now.rise) after sought.old sought.new) }
{
    for before in 0..rise_count(automaton) {
        try_pair::<D>(alloc, automaton, before, after, sought)?;
    }
    Ok(())
}

/// Tries one guard before another.
fn try_pair<D: Dictionary>(
    alloc: Global,
    automaton: &Automaton,
    before: u32,
    after: u32,
    sought: &mut Sought,
) -> Result<(), AllocError>
    requires { MasksAgree before after sought.old }
    ensures { OnOk result (PairTried automaton.now before after sought.old sought.new) }
{
    if !sought.orders.takes(automaton, before, after) {
        return Ok(());
    }
    let Some(multipliers) = refute_pair::<D>(alloc, automaton, before, after)? else {
        return Ok(());
    };
    sought.list.push(Order {
        before,
        after,
        multipliers,
    })?;
    sought.orders.insert(automaton, before, after);
    Ok(())
}

/// The multipliers that refute a pair's system, where it is refuted and no number leaves 128 bits.
fn refute_pair<D: Dictionary>(
    alloc: Global,
    automaton: &Automaton,
    before: u32,
    after: u32,
) -> Result<Option<List<(u32, i128)>>, AllocError>
    requires { IsPair automaton.now (before, after) }
    ensures { IfOk result (λ found. MatchOption found ((ts : Items (ℕ × ℤ)) → ¬ RefutedPair automaton.now before after ts) (λ ts. RefutedPair automaton.now before after ts)) }
{
    let system = imply_system(alloc, automaton, before, after)?;
    match solve::<D>(alloc, &system) {
        Err(SolveFault::Memory) => Err(AllocError),
        Err(SolveFault::Overflow(_)) => Ok(None),
        Ok(End::Vertex(_)) => Ok(None),
        Ok(End::Refuted(multipliers)) => match check_leaf(&system, multipliers.as_slice()) {
            Ok(()) => Ok(Some(multipliers)),
            Err(_) => Ok(None),
        },
    }
}

//! Rows of walks.
#![tactic(auto)]

ghost use Rattle.std.specs.Prelude.{◌<◌, length};
ghost use Rattle.std.specs.Bool.{OnTrue};
ghost use Rattle.ta_automaton.specs.Narrow.{IsNarrow};

use crate::beside::Beside;
use crate::given::Given;
use std::alloc::AllocError;
use std::thread::Threads;
use ta_automaton::File;
use ta_base::limits::MOST_NODES;
use ta_cert::{Order, Proof, write_cert};
use ta_dense::DenseDictionary;
use ta_rest::{Claim, ClaimTree};
use ta_scope::ScopedFile;
use ta_walk::{PlaceKind, WalkEnd, find_orders, walk};

/// Whether a file has words of pattern 0.
pub fn has_words(file: &File) -> bool
    ensures narrow { OnTrue result (IsNarrow file.now.automaton) }
    ensures some { OnTrue result (0 < length file.now.patterns) }
{
    file.automaton.is_narrow() && !file.patterns.as_slice().is_empty()
}

/// How the walk of pattern 0 ends under the orders that are found, and the certificate of a refutation.
pub fn end<R: Threads + Sync>(
    rt: &R,
    given: &mut Given,
    scoped: &ScopedFile,
    nodes: u64,
    narrow: bool,
) -> Result<(), AllocError> {
    if !has_words(scoped.file()) || nodes == 0 || nodes > MOST_NODES {
        return given.end("no such walk");
    }
    let found = find_orders::<DenseDictionary>(given.alloc, scoped)?;
    let tree = ClaimTree::new(Claim::Safe, scoped.file(), 0, &found.orders);
    let end = if narrow {
        walk::<DenseDictionary, R>(rt, given.alloc, &tree, nodes)
    } else {
        walk::<Beside, R>(rt, given.alloc, &tree, nodes)
    };
    describe(given, found.list.as_slice(), end)
}

fn describe(
    given: &mut Given,
    orders: &[Order],
    end: Result<WalkEnd, AllocError>,
) -> Result<(), AllocError> {
    match end? {
        WalkEnd::Refuted { count, nodes } => {
            given.number("refuted ", count);
            let proofs = [Proof { pattern: 0, nodes }];
            let text = write_cert(given.alloc, orders, proofs.as_slice());
            drop(proofs);
            given.say("\n");
            given.say(text?.as_str());
        }
        WalkEnd::Found { count, .. } => given.number("found ", count),
        WalkEnd::Spent { count } => given.number("spent ", count),
        WalkEnd::Overflow { node, kind } => {
            given.number("overflow ", node);
            match kind {
                PlaceKind::Pivot(pivot) => given.number(" pivot ", pivot),
                PlaceKind::Leaf => given.say(" leaf"),
                PlaceKind::Run => given.say(" run"),
            }
        }
    }
    Ok(())
}

/// The values of the solution that the walk of pattern 0 finds.
pub fn solution<R: Threads + Sync>(
    rt: &R,
    given: &mut Given,
    scoped: &ScopedFile,
) -> Result<(), AllocError> {
    given.say("values");
    if !has_words(scoped.file()) {
        return Ok(());
    }
    let orders = find_orders::<DenseDictionary>(given.alloc, scoped)?.orders;
    let tree = ClaimTree::new(Claim::Safe, scoped.file(), 0, &orders);
    say_solution(
        given,
        walk::<DenseDictionary, R>(rt, given.alloc, &tree, MOST_NODES)?,
    );
    Ok(())
}

fn say_solution(given: &mut Given, end: WalkEnd) {
    if let WalkEnd::Found { solution, .. } = end {
        for value in solution.values.as_slice() {
            given.number(" ", *value);
        }
    }
}

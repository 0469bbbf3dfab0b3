//! Walks over a dictionary for which there is never memory, through a gate, and over words of rest.

use std::alloc::{AllocError, Global};
use std::process::Abort;
use std::sync::atomic::{AtomicU64, Ordering};
use std::thread::Threads;
use ta_base::limits::Limits;
use ta_dense::{DenseDictionary, DensePivot, Dictionary, ExtendFault, PivotFault};
use ta_implied::Orders;
use ta_linear::System;
use ta_maker::make_family;
use ta_meaning::read_file;
use ta_rest::{Claim, ClaimTree, RestFile, rest_scope};
use ta_scope::ScopedFile;
use ta_syntax::print_tree;
use ta_walk::{Gate, WalkEnd, walk, walk_gated};

// Its resilience condition is beyond what revised dictionaries take.
const GREAT: &[u8] =
    b"automaton first; parameters n; shared; locations A initial, B; processes n; resilience 100000 * n >= 1; rule r: A -> B; pattern reached { event done: B >= 1; }";

const LEFT: &[u8] =
    b"automaton first; parameters n; shared; locations A initial, B; processes n; resilience n >= 1; rule r: A -> B; pattern left { event stuck: A >= 1; }";

/// Dense rows that are never made of a system.
#[derive(Drop)]
struct NoRoom {
    dense: DenseDictionary,
}

impl Dictionary for NoRoom {
    type Kept = DensePivot;

    ghost tableau = { λ d. d.dense };

    ghost pivot_of = { λ k. k };

    fn from_system(alloc: Global, system: &System) -> Result<Self, AllocError> {
        let (_alloc, _system) = (alloc, system);
        Err(AllocError)
    }

    fn rows(&self) -> u32 {
        self.dense.rows()
    }

    fn basic(&self, row: u32) -> u32 {
        self.dense.basic(row)
    }

    fn non_basic_variables(&self) -> &[u32] {
        self.dense.non_basic_variables()
    }

    fn denominator(&self, row: u32) -> i128 {
        self.dense.denominator(row)
    }

    fn constant(&self, row: u32) -> i128 {
        self.dense.constant(row)
    }

    fn cell(&self, row: u32, column: u32) -> i128 {
        self.dense.cell(row, column)
    }

    fn bytes(&self) -> usize {
        self.dense.bytes()
    }

    fn leaving(&self) -> Option<u32> {
        self.dense.leaving()
    }

    fn entering(&self, row: u32) -> Option<u32> {
        self.dense.entering(row)
    }

    fn keep(&self, alloc: Global, row: u32, column: u32) -> Result<DensePivot, AllocError> {
        self.dense.keep(alloc, row, column)
    }

    fn pivot(self, alloc: Global, row: u32, column: u32) -> Result<Self, PivotFault> {
        match self.dense.pivot(alloc, row, column) {
            Ok(dense) => Ok(NoRoom { dense }),
            Err(fault) => Err(fault),
        }
    }

    fn extend(
        &self,
        alloc: Global,
        longer: &System,
        kept: &[DensePivot],
    ) -> Result<Self, ExtendFault> {
        match self.dense.extend(alloc, longer, kept) {
            Ok(dense) => Ok(NoRoom { dense }),
            Err(fault) => Err(fault),
        }
    }
}

/// The file of a text. It has no contract, so that what the crates below promise of it doesn't
/// lengthen the proof of its caller.
fn scoped_of<R: Abort>(rt: &R, alloc: Global, text: &[u8]) -> ScopedFile {
    assert!(rt; text.len() <= 1_048_576);
    read_file(alloc, text, &Limits::narrow()).expect(rt, "a file")
}

/// Whether a walk of the first pattern of a file ends.
fn is_walked<D: Dictionary, R: Abort + Threads + Sync>(
    rt: &R,
    alloc: Global,
    scoped: &ScopedFile,
) -> bool {
    let file = scoped.file();
    assert!(rt; !file.patterns.as_slice().is_empty() && file.automaton.is_narrow());
    let orders = Orders::new();
    let tree = ClaimTree::new(Claim::Safe, file, 0, &orders);
    walk::<D, R>(rt, alloc, &tree, 10).is_ok()
}

#[test]
fn walks_without_room(rt: HostRuntime) {
    let scoped = scoped_of(&rt, rt.alloc(), GREAT);
    let without = is_walked::<NoRoom, HostRuntime>(&rt, rt.alloc(), &scoped);
    let with = is_walked::<DenseDictionary, HostRuntime>(&rt, rt.alloc(), &scoped);
    drop(scoped);
    assert!(rt; !without && with);
}

/// A gate at which each half waits until another one came, for so long that it may be said that none
/// comes.
#[derive(Drop)]
struct Meeting {
    came: AtomicU64,
    vain: AtomicU64,
}

impl Gate for Meeting {
    fn enter(&self) {
        let _before = self.came.fetch_add(1, Ordering::SeqCst);
        for _look in 0..1_073_741_824u64 {
            if self.came.load(Ordering::SeqCst) >= 2 {
                return;
            }
        }
        let _before = self.vain.fetch_add(1, Ordering::SeqCst);
    }
}

/// The file of the family with two guards.
fn family<R: Abort>(rt: &R, alloc: Global) -> ScopedFile {
    let tree = make_family(alloc, 2).expect(rt, "a tree");
    let text = print_tree(alloc, &tree).expect(rt, "memory");
    scoped_of(rt, alloc, text.as_str().as_bytes())
}

/// How many nodes refute the first pattern of a file, where each half of a fork goes through a gate.
fn refuting_count<R: Abort + Threads + Sync>(
    rt: &R,
    alloc: Global,
    scoped: &ScopedFile,
    gate: &Meeting,
) -> Option<u64> {
    let file = scoped.file();
    assert!(rt; !file.patterns.as_slice().is_empty() && file.automaton.is_narrow());
    let orders = Orders::new();
    let tree = ClaimTree::new(Claim::Safe, file, 0, &orders);
    count_of(&walk_gated::<DenseDictionary, R, Meeting>(rt, alloc, &tree, 1_000, gate))
}

/// The count of a walk that refutes.
fn count_of(walked: &Result<WalkEnd, AllocError>) -> Option<u64> {
    match walked {
        Ok(WalkEnd::Refuted { count, .. }) => Some(*count),
        _ => None,
    }
}

// Halves that are visited one after the other never meet.
#[test]
fn halves_meet(rt: HostRuntime) {
    let scoped = family(&rt, rt.alloc());
    let gate = Meeting {
        came: AtomicU64::new(0),
        vain: AtomicU64::new(0),
    };
    let count = refuting_count::<HostRuntime>(&rt, rt.alloc(), &scoped, &gate);
    drop(scoped);
    assert!(rt; count == Some(10));
    assert!(rt; gate.vain.load(Ordering::SeqCst) == 0);
}

/// The scope of rest of a file.
fn left<R: Abort>(rt: &R, alloc: Global) -> RestFile {
    let scoped = scoped_of(rt, alloc, LEFT);
    rest_scope(alloc, scoped).expect(rt, "the scope of rest")
}

/// How many nodes refute that the first pattern of a scope of rest occurs.
fn rest_count<R: Abort + Threads + Sync>(rt: &R, alloc: Global, rest: &RestFile) -> Option<u64> {
    let file = rest.ending().file();
    assert!(rt; !file.patterns.as_slice().is_empty() && file.automaton.is_narrow());
    let orders = Orders::new();
    let tree = ClaimTree::new(Claim::RestSafe, file, 0, &orders);
    count_of(&walk::<DenseDictionary, R>(rt, alloc, &tree, 10))
}

// At rest nobody is in A, so the word of the event is refuted.
#[test]
fn words_of_rest_are_walked(rt: HostRuntime) {
    let rest = left(&rt, rt.alloc());
    let count = rest_count::<HostRuntime>(&rt, rt.alloc(), &rest);
    drop(rest);
    assert!(rt; count == Some(2));
}

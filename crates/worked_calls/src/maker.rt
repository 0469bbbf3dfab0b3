//! Numbers at the edges of the family of test automata.

use crate::expecting::expect;
use ta_maker::{MakerFault, make_family};

/// How many rules the automaton of a number has, or that it is none of the family.
fn rules_of(rt: &HostRuntime, k: u32) -> Option<usize> {
    match make_family(rt.alloc(), k) {
        Ok(tree) => Some(tree.rules.as_slice().len()),
        Err(MakerFault::Range) => None,
        Err(MakerFault::Memory) => Some(0),
    }
}

/// Numbers, each with how many rules its automaton has.
const RULES: &[(&str, u32, Option<usize>)] = &[
    ("0", 0, None),
    ("1", 1, Some(2)),
    ("3", 3, Some(6)),
    ("7", 7, Some(14)),
    ("8", 8, None),
];

#[test]
fn family_is_of_1_to_7(rt: HostRuntime) {
    for (name, k, want) in RULES {
        expect(&rt, rules_of(&rt, *k) == *want, name);
    }
}

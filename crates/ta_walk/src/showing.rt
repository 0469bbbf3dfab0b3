//! The run of the whole node that a visit of moments finds. The node is written anew, since the
//! visit keeps no system of the node with which it ends.
#![tactic(auto)]

ghost use Rattle.std.specs.Prelude.{ℕ, pos, ◌≡◌, ◌<ℤ◌, ◌^◌, IfOk, Some, reverse};
ghost use Rattle.std.specs.List.{AllByRecursion};
ghost use Rattle.ta_encode.specs.Search.{Comes};
ghost use Rattle.ta_moment_tree.specs.declared.encoding.MomentEncoding.{MomentEncoding};
ghost use Rattle.ta_witness.specs.Given.{EncodesSomeWhole};
ghost use Rattle.ta_moment_tree.specs.Trees.{IsAt, search_of_moments};
ghost use Rattle.ta_walk.specs.MomentEnds.{EndFits};
ghost use Rattle.ta_walk.specs.Inside.Showing.{EndsAtNode};

use crate::PlaceKind;
use crate::moment_end::MomentEnd;
use std::alloc::{AllocError, Global};
use ta_encode::Tree;
use ta_moment_tree::{MomentEncoding, MomentKept, MomentTree};
use ta_moments::Fact;
use ta_scope::ScopedFile;
use ta_witness::{WitnessFault, moment_run};

/// Reads the values, so that it is known of each that it is a number of the program.
pub(crate) fn read_all(values: &[i128])
    ensures { AllByRecursion (λ z. z <ℤ pos (2 ^ 127)) values.now }
{
    for value in values {
        let _value = *value;
    }
}

/// The node of a start with these facts, written anew: a visit keeps no system of the node with which
/// it ends.
pub(crate) fn node_again<'a>(
    alloc: Global,
    tree: &MomentTree<'a>,
    start: u8,
    facts: &[Fact],
) -> Result<MomentKept<'a>, AllocError>
    requires { Comes (search_of_moments tree.now) start (reverse facts.now) }
    ensures { IfOk result (IsAt tree.now start (reverse facts.now)) }
{
    let nothing = tree.nothing(alloc);
    let written = tree.encode(alloc, start, facts, &[], nothing)?;
    Ok(written.kept)
}

/// The end at a whole node of this number, which is kept.
pub(crate) fn end_at(
    alloc: Global,
    scoped: &ScopedFile,
    number: u32,
    count: u64,
    kept: &MomentKept<'_>,
    values: &[i128],
) -> Result<MomentEnd, AllocError>
    requires { (node : MomentEncoding) → kept.now.node ≡ Some node → EncodesSomeWhole scoped.now.file number node values.now }
    ensures ends { (node : MomentEncoding) → kept.now.node ≡ Some node → IfOk result (EndsAtNode scoped.now.file number node values.now count) }
    ensures fits { IfOk result (EndFits scoped.now.file) }
{
    match kept.node() {
        // A node that is kept is there.
        None => Err(AllocError),
        Some(node) => end_of(alloc, scoped, number, count, node, values),
    }
}

/// The end at a whole node of this number: its run, or the overflow of a number of the run.
fn end_of(
    alloc: Global,
    scoped: &ScopedFile,
    number: u32,
    count: u64,
    node: &MomentEncoding<'_>,
    values: &[i128],
) -> Result<MomentEnd, AllocError>
    requires { EncodesSomeWhole scoped.now.file number node.now values.now }
    ensures ends { IfOk result (EndsAtNode scoped.now.file number node.now values.now count) }
    ensures fits { IfOk result (EndFits scoped.now.file) }
{
    match moment_run(alloc, scoped, number, node, values) {
        Ok(run) => Ok(MomentEnd::Found { count, run }),
        Err(WitnessFault::Overflow) => Ok(MomentEnd::Overflow {
            node: count,
            kind: PlaceKind::Run,
        }),
        Err(WitnessFault::Memory) => Err(AllocError),
    }
}

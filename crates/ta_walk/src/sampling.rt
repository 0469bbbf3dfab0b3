//! The sample: parameters that meet the resilience condition and have an initial configuration.
#![tactic(auto)]

ghost use Rattle.std.specs.Prelude.{◌≡◌, ◌<◌, ◌≤◌, IfOk, length, take};
ghost use Rattle.ta_walk.specs.Samples.{IsSampleEnd};

use crate::end::{SampleEnd, TreeEnd};
use crate::keeper::Nothing;
use crate::sample_tree::SampleTree;
use crate::walking::visit_tree;
use std::alloc::{AllocError, Global};
use ta_automaton::File;
use ta_base::List;
use ta_base::limits::MOST_NODES;
use ta_dense::Dictionary;

/// Searches for parameters that meet the resilience condition and have an initial configuration, in
/// at most so many nodes. A node is the sample system with bounds: it is refuted, or its vertex is
/// whole, or the least unknown that isn't whole is split.
pub fn sample<D: Dictionary>(
    alloc: Global,
    file: &File,
    nodes: u64,
) -> Result<SampleEnd, AllocError>
    requires some { 0 < nodes }
    requires limit { nodes ≤ MOST_NODES }
    ensures { IfOk result (IsSampleEnd file.now.automaton nodes) }
{
    let tree = SampleTree { file };
    match visit_tree::<D, SampleTree<'_>, Nothing>(alloc, &tree, nodes, &mut Nothing {})? {
        TreeEnd::Refuted { .. } => Ok(SampleEnd::Empty),
        TreeEnd::Found { values, .. } => Ok(SampleEnd::Sample(first_values(file, values))),
        TreeEnd::Spent { count } => Ok(SampleEnd::Spent { count }),
        TreeEnd::Overflow { node, kind } => Ok(SampleEnd::Overflow { node, kind }),
    }
}

/// The values of the parameters, which are the first unknowns.
fn first_values(file: &File, values: List<i128>) -> List<i128>
    ensures { result ≡ take (length file.now.automaton.parameters) values }
{
    let mut items = values.into_vec();
    items.truncate(file.automaton.parameters.as_slice().len());
    List::from_vec(items)
}

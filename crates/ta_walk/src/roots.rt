//! The starts of a search as a list.
#![tactic(auto)]

ghost use Rattle.std.specs.Prelude.{◌≡◌, ◌<◌, ◌≤◌, ◌^◌, [], ◌∷◌, ◌++◌, IfOk, List, Some, None, drop, map, true, vec_len};
ghost use Rattle.std.specs.List.{AllByRecursion};
ghost use Rattle.ta_walk.specs.Inside.Parts.{ComesTo, root_node};

use std::alloc::{AllocError, Global};
use ta_encode::Tree;

/// The starts with which a search begins.
pub(crate) fn roots_of<T: Tree>(alloc: Global, tree: &T) -> Result<Vec<u8>, AllocError>
    ensures nodes { IfOk result (λ roots. map root_node roots.items ≡ (T.search tree.now).roots) }
    ensures come { IfOk result (λ roots. AllByRecursion (ComesTo (T.search tree.now)) roots.items) }
    ensures few { IfOk result (λ roots. vec_len roots ≤ 2 ^ 31) }
{
    let mut roots = Vec::new(alloc);
    'roots: while let Some(root) = tree.root(roots.len()) {
        roots.push(root)?;
    }
    Ok(roots)
}

//! Reading what was printed.
#![tactic(auto)]

ghost use Rattle.std.specs.Prelude.{◌≡◌, ◌≤◌, IfErr, IfOk, length};
ghost use Rattle.ta_syntax.specs.Grammar.{file_kinds};
ghost use Rattle.ta_syntax.specs.Limits.{IsTreeWithin};
ghost use Rattle.ta_syntax.specs.PlainTrees.{plain_tree};
ghost use Rattle.ta_syntax.specs.Printed.{printed};
ghost use Rattle.ta_syntax.specs.declared.fault.FileFault.{FileFault};

use crate::fault::FileFault;
use crate::file::read_tree;
use crate::printing::print_tree;
use crate::tree::Tree;
use std::alloc::Global;
use ta_base::limits::{FILE_BYTES, Limits};

/// Prints a tree and reads its text: the same tree, but for offsets, where it is within the limits.
pub fn print_then_read(alloc: Global, tree: &Tree, limits: &Limits) -> Result<Tree, FileFault>
    requires { length (printed (file_kinds (plain_tree tree.now))) ≤ FILE_BYTES }
    ensures same { IfOk result (λ t. plain_tree t ≡ plain_tree tree.now) }
    ensures only { IsTreeWithin limits.now (plain_tree tree.now) → IfErr result (λ e. e ≡ FileFault.Memory) }
{
    let text = print_tree(alloc, tree)?;
    let again = read_tree(alloc, text.as_str().as_bytes(), limits)?;
    Ok(again)
}

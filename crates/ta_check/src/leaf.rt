//! Judges the leaves of a certificate.
//!
//! The rows of a leaf's node are written on from those of the leaf before. Rows of bounds are not
//! written with them but only where the leaf names one: so n nested branchings cost n and not n².
//! The rows that are named, in the order of the leaf, are a small system whose sum ta_farkas forms.
#![tactic(auto)]

ghost use Rattle.std.specs.Prelude.{◌≡◌, ◌≤◌, IfOk, OnOk};
ghost use Rattle.ta_cert.specs.Lines.{ArePairs};
ghost use Rattle.ta_encode.specs.Cursors.{IsWord, here};
ghost use Rattle.ta_check.specs.Inside.Leaves.{WithoutBounds, renumbered};
ghost use Rattle.ta_check.specs.Positions.{LeafTaken, fault_at};

use std::alloc::{AllocError, Global};
use std::mem;
use ta_cert::CertFault;
use ta_encode::{Cursor, Named, Tree, Written, named_rows};
use ta_farkas::{LeafFault, check_leaf};

/// Judges a leaf at the cursor's word, in the line of this number. The rows of the word are written
/// on from those of the leaf before; a bound's row is written where the leaf names it.
pub(crate) fn judge_leaf<T: Tree>(
    alloc: Global,
    tree: &T,
    cursor: &Cursor<T::Fact>,
    kept: &mut T::Kept,
    number: u64,
    multipliers: &[(u32, i128)],
) -> Result<(), CertFault>
    requires word { IsWord (T.search tree.now) (here cursor.now) }
    requires kept { T.is_kept tree.now kept.old }
    requires pairs { ArePairs 0 multipliers.now }
    ensures kept { OnOk result (T.is_kept tree.now kept.new) }
    ensures taken { LeafTaken (T.search tree.now) (here cursor.now) number multipliers.now result }
{
    grow(alloc, tree, cursor, kept)?;
    let system = tree.system(kept);
    match named_rows(alloc, system, cursor.bounds(), multipliers)? {
        Named::Absent(row) => Err(CertFault::Row { line: number, row }),
        Named::Rows(rows) => {
            let again = renumbered(alloc, multipliers)?;
            match check_leaf(&rows, again.as_slice()) {
                Ok(()) => Ok(()),
                Err(fault) => Err(fault_in(number, fault)),
            }
        }
    }
}

/// Writes the rows of the cursor's word, without bounds, on from those of another word.
fn grow<T: Tree>(
    alloc: Global,
    tree: &T,
    cursor: &Cursor<T::Fact>,
    kept: &mut T::Kept,
) -> Result<(), AllocError>
    requires word { IsWord (T.search tree.now) (here cursor.now) }
    requires kept { T.is_kept tree.now kept.old }
    ensures kept { OnOk result (T.is_kept tree.now kept.new) }
    ensures system { OnOk result (WithoutBounds (T.search tree.now) (here cursor.now) (T.system_of kept.new)) }
    ensures small { OnOk result ((T.system_of kept.new).unknowns ≤ 40000000) }
{
    let before = mem::replace(kept, tree.nothing(alloc));
    let start = cursor.start();
    let Written {
        kept: after,
        same: _,
    } = tree.encode(alloc, start, cursor.facts(), &[], before)?;
    *kept = after;
    Ok(())
}

/// The multipliers of a list, numbered from 0 by their places.
fn renumbered(alloc: Global, multipliers: &[(u32, i128)]) -> Result<Vec<(u32, i128)>, AllocError>
    requires { ArePairs 0 multipliers.now }
    ensures { IfOk result (λ again. again.items ≡ renumbered 0 multipliers.now) }
{
    let mut again = Vec::new(alloc);
    for (place, (_, multiplier)) in multipliers.iter().enumerate() {
        again.push((place as u32, *multiplier))?;
    }
    Ok(again)
}

/// The error of a leaf in the line of this number.
pub(crate) fn fault_in(line: u64, fault: LeafFault) -> CertFault
    ensures { result ≡ fault_at line fault }
{
    match fault {
        LeafFault::RowNumber(row) => CertFault::Row { line, row },
        LeafFault::Overflow(column) => CertFault::Overflow { line, column },
        LeafFault::Positive(unknown) => CertFault::Positive { line, unknown },
        LeafFault::NotNegative => CertFault::NotNegative(line),
    }
}

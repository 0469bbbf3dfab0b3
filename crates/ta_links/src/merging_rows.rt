//! Rows that are merged with a chosen one, head and cells.

ghost use Rattle.std.specs.Prelude.{◌≡◌, ◌≢◌, ◌<◌, pos, set, true, false, ◌<ℤ◌, length, IfOk, IfSome, IfNone};
ghost use Rattle.ta_linear.specs.Numbers.{InRange};
ghost use Rattle.ta_dense.specs.Merge.{MergesInRange};
ghost use Rattle.ta_links.specs.Values.{value_in};
ghost use Rattle.ta_links.specs.Gaps.{AreSound};
ghost use Rattle.ta_links.specs.Linked.{AreProperHeads};
ghost use Rattle.ta_links.specs.Merging.{MayMerge, HeadsMerge, MergedHead, RowMerged, row_in};

use crate::linked_cells::LinkedCells;
use crate::merging::{Merge, divisor_of_merged, quotient, write_merged};
use crate::reading::{head_of, number};
use crate::row_head::RowHead;
use std::alloc::AllocError;
use ta_dense::{combined, factors};
use ta_linear::{gcd_natural, multiply};

// The merged denominator and constant, and what the column gets.
fn merged_head(p: i128, q: i128, head: RowHead, chosen: RowHead) -> Option<(i128, i128, i128)>
    requires { InRange head.constant }
    ensures some { IfSome result (MergedHead p q head chosen) }
    ensures none { IfNone result (¬ (HeadsMerge p q head chosen)) }
{
    let Some(denominator) = multiply(p, head.denominator) else {
        return None;
    };
    let Some(constant) = combined(p, head.constant, q, chosen.constant) else {
        return None;
    };
    let Some(turned) = multiply(q, chosen.denominator) else {
        return None;
    };
    Some((denominator, constant, turned))
}

// Writes the head of a row.
pub(crate) fn write_head(heads: &mut Vec<RowHead>, at: u32, head: RowHead)
    requires { at < length heads.old.items }
    ensures { heads.new.items ≡ set heads.old.items at head }
{
    heads[at as usize] = head;
}

// Merges row `row` into row `at`, or tells that a product or difference leaves the range.
pub(crate) fn merge_row(
    heads: &mut Vec<RowHead>,
    links: &mut LinkedCells,
    columns: u32,
    row: u32,
    at: u32,
    column: u32,
) -> Result<bool, AllocError>
    requires may { MayMerge columns row at column heads.old.items links.old }
    requires apart { value_in links.old.cells.items at column ≢ pos 0 }
    ensures done { IfOk result (λ b. b ≡ true → RowMerged columns row at column heads.old.items links.old heads.new.items links.new) }
    ensures refused { IfOk result (λ b. b ≡ false → ¬ (MergesInRange column (row_in heads.old.items links.old columns row) (row_in heads.old.items links.old columns at))) }
{
    let c = number(links, row, column);
    let a = number(links, at, column);
    let (p, q) = factors(c, a);
    let chosen = head_of(heads, row);
    let head = head_of(heads, at);
    let Some((denominator, constant, turned)) = merged_head(p, q, head, chosen) else {
        return Ok(false);
    };
    let first = gcd_natural(denominator.unsigned_abs(), constant.unsigned_abs());
    let merge = Merge {
        row,
        at,
        p,
        q,
        column,
        turned,
    };
    let Some(common) = divisor_of_merged(links, columns, merge, first) else {
        return Ok(false);
    };
    let divisor = common as i128;
    write_merged(links, columns, merge, divisor)?;
    let merged = RowHead {
        basic: head.basic,
        denominator: quotient(denominator, divisor),
        constant: quotient(constant, divisor),
    };
    write_head(heads, at, merged);
    Ok(true)
}

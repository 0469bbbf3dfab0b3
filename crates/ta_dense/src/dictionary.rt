//! What a dictionary is: the trait on which all solving stands.
//!
//! Rows stand in the order of the system, columns in that of its unknowns; a pivot exchanges the
//! variables of a row and a column and leaves all places as they are. `leaving` and `entering` are
//! the two choices of Bland's rule. `keep` gives what later rows need of a pivot: its column and
//! the chosen row as it stood before. A pivot changes another row by the chosen row alone, so a row
//! that comes later can be carried through kept pivots and comes out as if it had been there
//! (`extend`).

ghost use Rattle.std.specs.Prelude.{◌≡◌, ◌<◌, ◌^◌, pos, ◌<ℤ◌, length, map, IfOk, IfErr, IfSome, IfNone};
ghost use Rattle.ta_linear.specs.Numbers.{InRange};
ghost use Rattle.ta_dense.specs.Tableau.{Tableau, row_of, cell_of, pivoted, basic_of, non_basic_of};
ghost use Rattle.ta_dense.specs.Leaving.{Leaves, NoneLeaves};
ghost use Rattle.ta_dense.specs.Entering.{Enters, NoneEnters};
ghost use Rattle.ta_dense.specs.Slack.{slack_tableau, variables};
ghost use Rattle.ta_dense.specs.Merge.{AllMergeInRange};
ghost use Rattle.ta_dense.specs.Fault.{IsPivotFault};
ghost use Rattle.ta_dense.specs.Kept.{KeptPivot, AreKept, StayInRange, pivot_in};
ghost use Rattle.ta_dense.specs.Extending.{MayBegin, IsExtendFault, extended, new_rows};

use std::alloc::{AllocError, Global};
use ta_linear::System;

/// Why a pivot was refused.
#[derive(Debug, Drop)]
pub enum PivotFault {
    /// A product or difference of this row leaves the range, and of no row before it.
    Overflow { row: u32 },
    Memory,
}

/// Why a dictionary wasn't extended to a longer system.
#[derive(Debug, Drop)]
pub enum ExtendFault {
    /// A product or difference of this row leaves the range in the kept pivot of this number, counted
    /// from 0, and in no pivot before it, nor in a row before it.
    Overflow { pivot: usize, row: u32 },
    Memory,
}

impl From<AllocError> for ExtendFault {
    ghost use Rattle.ta_dense.specs.declared.dictionary.ExtendFault.TheVariants.{Memory};

    ghost from_gives = { λ _ e. e ≡ Memory };

    fn from(_e: AllocError) -> ExtendFault {
        ExtendFault::Memory
    }
}

/// Rows `d*v = b + sum of c*(non-basic)` in lowest terms, with d positive. The variables are the
/// unknowns of a system, and then one slack per row of the system.
pub trait Dictionary: Sized + Drop + Send {
    /// A pivot as it is kept: what rows that come later need to be carried through it.
    type Kept: Drop + Send;

    ghost tableau: { Self → Tableau };

    ghost pivot_of: { Self.Kept → KeptPivot };

    /// The dictionary in which every slack is basic, with its row's form.
    fn from_system(alloc: Global, system: &System) -> Result<Self, AllocError>
        requires { variables system.now < 2 ^ 32 }
        ensures { IfOk result (λ d. tableau d ≡ slack_tableau system.now) };

    fn rows(&self) -> u32
        ensures { result ≡ length (tableau self.now).rows };

    fn columns(&self) -> u32
        ensures { result ≡ length (tableau self.now).non_basic }
    {
        self.non_basic_variables().len() as u32
    }

    fn basic(&self, row: u32) -> u32
        requires { row < length (tableau self.now).rows }
        ensures { result ≡ basic_of (tableau self.now) row };

    /// The variable of each column.
    fn non_basic_variables(&self) -> &[u32]
        ensures value { result.now ≡ (tableau self.now).non_basic }
        ensures fits { length (tableau self.now).non_basic < 2 ^ 32 };

    fn non_basic(&self, column: u32) -> u32
        requires { column < length (tableau self.now).non_basic }
        ensures { result ≡ non_basic_of (tableau self.now) column }
    {
        self.non_basic_variables()[column as usize]
    }

    fn denominator(&self, row: u32) -> i128
        requires { row < length (tableau self.now).rows }
        ensures value { result ≡ (row_of (tableau self.now) row).denominator }
        ensures positive { pos 0 <ℤ result }
        ensures fits { InRange result };

    fn constant(&self, row: u32) -> i128
        requires { row < length (tableau self.now).rows }
        ensures value { result ≡ (row_of (tableau self.now) row).constant }
        ensures fits { InRange result };

    fn cell(&self, row: u32, column: u32) -> i128
        requires row { row < length (tableau self.now).rows }
        requires column { column < length (tableau self.now).non_basic }
        ensures value { result ≡ cell_of (row_of (tableau self.now) row) column }
        ensures fits { InRange result };

    /// About how many bytes the dictionary holds: what its keeper may go by where memory is scarce.
    fn bytes(&self) -> usize;

    /// The row of the least basic variable with a negative constant. It takes no memory.
    fn leaving(&self) -> Option<u32>
        ensures found { IfSome result (Leaves (tableau self.now)) }
        ensures none { IfNone result (NoneLeaves (tableau self.now)) }
    {
        let mut least = None;
        for row in 0..self.rows() {
            if self.constant(row) < 0 {
                least = match least {
                    Some(best) if self.basic(best) < self.basic(row) => Some(best),
                    _ => Some(row),
                };
            }
        }
        least
    }

    /// The column of the least non-basic variable with a positive cell in the row.
    fn entering(&self, row: u32) -> Option<u32>
        requires { row < length (tableau self.now).rows }
        ensures found { IfSome result (Enters (tableau self.now) row) }
        ensures none { IfNone result (NoneEnters (tableau self.now) row) }
    {
        let mut least = None;
        for column in 0..self.columns() {
            if self.cell(row, column) > 0 {
                least = match least {
                    Some(best) if self.non_basic(best) < self.non_basic(column) => Some(best),
                    _ => Some(column),
                };
            }
        }
        least
    }

    /// The pivot in the row and the column, as it is kept before it is made.
    fn keep(&self, alloc: Global, row: u32, column: u32) -> Result<Self::Kept, AllocError>
        requires row { row < length (tableau self.now).rows }
        requires column { column < length (tableau self.now).non_basic }
        ensures { IfOk result (λ k. pivot_of k ≡ pivot_in (tableau self.now) row column) };

    /// The variable of the column enters the basis, and that of the row leaves it. After a refusal
    /// the dictionary is gone.
    fn pivot(self, alloc: Global, row: u32, column: u32) -> Result<Self, PivotFault>
        requires row { row < length (tableau self).rows }
        requires column { column < length (tableau self).non_basic }
        requires positive { pos 0 <ℤ cell_of (row_of (tableau self) row) column }
        ensures ok { IfOk result (λ d. tableau d ≡ pivoted (tableau self) row column) }
        ensures in_range { IfOk result (λ d. AllMergeInRange (tableau self) row column) }
        ensures fault { IfErr result (IsPivotFault (tableau self) row column) };

    /// The dictionary of a longer system whose first unknowns and first rows are those of this one's,
    /// after the kept pivots, which led from that system's slacks to this dictionary: the one to which
    /// the same pivots lead from the longer system's slacks. The new unknowns are new columns at the
    /// end, the numbers of the old slacks rise by as many, and the new rows are carried through each
    /// kept pivot in turn. Overflow exactly at the first of these in which a new row leaves the range.
    fn extend(
        &self,
        alloc: Global,
        longer: &System,
        kept: &[Self::Kept],
    ) -> Result<Self, ExtendFault>
        requires room { variables longer.now < 2 ^ 32 }
        requires longer { MayBegin (tableau self.now) longer.now }
        requires kept { AreKept (length (tableau self.now).non_basic) (map pivot_of kept.now) }
        ensures ok { IfOk result (λ d. tableau d ≡ extended (tableau self.now) (map pivot_of kept.now) longer.now) }
        ensures in_range { IfOk result (λ d. StayInRange longer.now.unknowns (map pivot_of kept.now) (length kept.now) (new_rows (tableau self.now) longer.now)) }
        ensures fault { IfErr result (IsExtendFault (tableau self.now) (map pivot_of kept.now) longer.now) };
}

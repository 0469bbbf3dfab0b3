//! Linked rows, and dense ones beside them.

ghost use Rattle.std.specs.Prelude.{◌≡◌, ◌<◌, ◌^◌, IfOk};
ghost use Rattle.ta_dense.specs.Tableau.{pivoted};
ghost use Rattle.ta_dense.specs.Slack.{variables};

use std::alloc::{AllocError, Global};
use ta_dense::{DenseDictionary, Dictionary, ExtendFault, PivotFault};
use ta_linear::System;
use ta_links::{LinkedDictionary, LinkedPivot};

/// Linked rows of a system and dense ones beside them, whose numbers, variables and next choices are the
/// same: where a step makes these differ, it answers that memory ran out. So what is solved over them ends
/// over both alike. The linked rows are extended to a longer system as they are; the dense ones begin with
/// the longer system, and all pivots are made again.
#[derive(Drop)]
pub struct Beside {
    first: LinkedDictionary,
    second: DenseDictionary,
    made: Vec<(u32, u32)>,
}

// Whether a row's numbers are the same in both, and the column that enters there.
fn same_row<A: Dictionary, B: Dictionary>(first: &A, second: &B, row: u32) -> bool {
    if row >= first.rows() || row >= second.rows() || first.columns() != second.columns() {
        return false;
    }
    for column in 0..first.columns() {
        if first.cell(row, column) != second.cell(row, column)
            || first.non_basic(column) != second.non_basic(column)
        {
            return false;
        }
    }
    first.basic(row) == second.basic(row)
        && first.denominator(row) == second.denominator(row)
        && first.constant(row) == second.constant(row)
        && first.entering(row) == second.entering(row)
}

/// Whether the rows of both, their basic and non-basic variables and the next choices are the same.
pub fn are_same<A: Dictionary, B: Dictionary>(first: &A, second: &B) -> bool {
    for row in 0..first.rows() {
        if !same_row(first, second, row) {
            return false;
        }
    }
    first.rows() == second.rows() && first.leaving() == second.leaving()
}

// Both, where they are the same.
fn compared(
    first: LinkedDictionary,
    second: DenseDictionary,
    made: Vec<(u32, u32)>,
) -> Result<Beside, AllocError>
    ensures { IfOk result (λ both. both.first ≡ first) }
{
    if are_same(&first, &second) {
        Ok(Beside {
            first,
            second,
            made,
        })
    } else {
        Err(AllocError)
    }
}

/// The pivot in a row and a column. Where there is no such place, or its cell isn't positive, memory is
/// said to have run out.
pub fn pivot_at<D: Dictionary>(
    alloc: Global,
    dictionary: D,
    row: u32,
    column: u32,
) -> Result<D, PivotFault>
    ensures { IfOk result (λ d. D.tableau d ≡ pivoted (D.tableau dictionary) row column) }
{
    if row >= dictionary.rows() || column >= dictionary.columns() {
        return Err(PivotFault::Memory);
    }
    if dictionary.cell(row, column) <= 0 {
        return Err(PivotFault::Memory);
    }
    dictionary.pivot(alloc, row, column)
}

// The dictionary of a system after pivots.
fn after_pivots<D: Dictionary>(
    alloc: Global,
    system: &System,
    made: &[(u32, u32)],
) -> Result<D, ExtendFault>
    requires { variables system.now < 2 ^ 32 }
{
    let mut now = D::from_system(alloc, system)?;
    for (pivot, (row, column)) in made.iter().enumerate() {
        match pivot_at(alloc, now, *row, *column) {
            Ok(next) => now = next,
            Err(PivotFault::Overflow { row }) => return Err(ExtendFault::Overflow { pivot, row }),
            Err(PivotFault::Memory) => return Err(ExtendFault::Memory),
        }
    }
    Ok(now)
}

impl Beside {
    /// The linked rows.
    pub fn linked(&self) -> &LinkedDictionary {
        &self.first
    }
}

impl Dictionary for Beside {
    type Kept = LinkedPivot;

    ghost tableau = { λ d. d.first.tableau };

    ghost pivot_of = { λ k. k };

    fn from_system(alloc: Global, system: &System) -> Result<Self, AllocError> {
        let first = LinkedDictionary::from_system(alloc, system)?;
        let second = DenseDictionary::from_system(alloc, system)?;
        compared(first, second, Vec::new(alloc))
    }

    fn rows(&self) -> u32 {
        self.first.rows()
    }

    fn basic(&self, row: u32) -> u32 {
        self.first.basic(row)
    }

    fn non_basic_variables(&self) -> &[u32] {
        self.first.non_basic_variables()
    }

    fn denominator(&self, row: u32) -> i128 {
        self.first.denominator(row)
    }

    fn constant(&self, row: u32) -> i128 {
        self.first.constant(row)
    }

    fn cell(&self, row: u32, column: u32) -> i128 {
        self.first.cell(row, column)
    }

    fn bytes(&self) -> usize {
        self.first.bytes()
    }

    fn leaving(&self) -> Option<u32> {
        self.first.leaving()
    }

    fn entering(&self, row: u32) -> Option<u32> {
        self.first.entering(row)
    }

    fn keep(&self, alloc: Global, row: u32, column: u32) -> Result<LinkedPivot, AllocError> {
        self.first.keep(alloc, row, column)
    }

    fn pivot(self, alloc: Global, row: u32, column: u32) -> Result<Self, PivotFault> {
        let Beside {
            first,
            second,
            mut made,
        } = self;
        let other = pivot_at(alloc, second, row, column);
        match (first.pivot(alloc, row, column), other) {
            (Ok(next), Ok(other)) => {
                if made.push((row, column)).is_err() {
                    return Err(PivotFault::Memory);
                }
                compared(next, other, made).map_err(|_| PivotFault::Memory)
            }
            (Err(PivotFault::Overflow { row: at }), Err(PivotFault::Overflow { row: other }))
                if at == other => { Err(PivotFault::Overflow { row: at }) }
            _ => Err(PivotFault::Memory),
        }
    }

    fn extend(
        &self,
        alloc: Global,
        longer: &System,
        kept: &[Self::Kept],
    ) -> Result<Self, ExtendFault> {
        let made = Vec::from_slice(alloc, &self.made)?;
        let other = after_pivots::<DenseDictionary>(alloc, longer, &made);
        match (self.first.extend(alloc, longer, kept), other) {
            (Ok(next), Ok(other)) => Ok(compared(next, other, made)?),
            (
                Err(ExtendFault::Overflow { pivot, row }),
                Err(
                    ExtendFault::Overflow {
                        pivot: also,
                        row: other,
                    },
                ),
            ) if pivot == also && row == other => Err(ExtendFault::Overflow { pivot, row }),
            _ => Err(ExtendFault::Memory),
        }
    }
}

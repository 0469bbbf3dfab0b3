//! Judges a leaf: whether rows, each taken so many times, sum up to a contradiction.
//!
//! At natural values each row is at least 0, and so is their sum. If the sum has no positive
//! coefficient, it is at most its constant; if that is negative too, no natural values solve the
//! system (Farkas' lemma, the direction that a refutation rests on). The sum is formed column by
//! column, so the first error is the same for every reader of a certificate.
//!
//! Most rows have no term in most columns, so 64 columns are added up side by side: one pass over
//! the listed rows adds each term to the sum of its column. A row without a term in a column would
//! add 0 there, which changes neither the sum nor whether it is in range. Hence the errors are those
//! of the columns one after the other.
//!
//! Cost: for each 64 unknowns one pass over the terms of the listed rows up to these unknowns.
#![tactic(auto)]

ghost use Rattle.std.specs.Prelude.{ℕ, ◌≡◌, ◌^◌, ◌+◌, ◌<◌, ◌≤◌, ◌*ℤ◌, ◌↔◌, min, length, get_or, IsOk, IfErr, IfSome, IfNone, OnOk};
ghost use Rattle.std.specs.Option.{SomeIff};
ghost use Rattle.ta_linear.specs.Terms.{coefficient, IsNormal};
ghost use Rattle.ta_linear.specs.Leaf.{AreMultipliers, LeafOf};
ghost use Rattle.ta_farkas.specs.Columns.{column_sum, entry, ColumnStays, CheckStays};
ghost use Rattle.ta_farkas.specs.Blocks.{AreSums, IsAdded};
ghost use Rattle.ta_farkas.specs.Faults.{FineBefore, FirstMissing, IsFirstFaultOfLeaf, RowsExist};

use ta_linear::{System, plus_product};

/// The first error of a list of multipliers: rows come before columns, and the columns are the
/// unknowns by rising number and then the constant, which is numbered as one unknown more.
#[derive(Clone, Copy, Debug, PartialEq, Eq)]
pub enum LeafFault {
    /// There is no row of this number.
    RowNumber(u32),
    /// A product or a partial sum of this column leaves the range.
    Overflow(u32),
    /// The sum of this unknown's coefficients is above 0.
    Positive(u32),
    /// The sum of the constants is 0 or more.
    NotNegative,
}

// How many columns one pass over the rows adds up.
const BLOCK: u32 = 64;

// The sums of a block's columns: none once a product or a partial sum left the range.
type Block = [Option<i128>; BLOCK as usize];

/// Judges a list of row numbers with their multipliers: by Farkas' lemma a system has no natural
/// solution where the sum of the multiplied rows has no positive coefficient and a negative
/// constant. Each column is added up in the order of the list.
pub fn check_leaf(system: &System, multipliers: &[(u32, i128)]) -> Result<(), LeafFault>
    requires { AreMultipliers 0 (2 ^ 32) multipliers.now }
    ensures ok { IsOk result ↔ (LeafOf system.now multipliers.now × CheckStays system.now multipliers.now) }
    ensures fault { IfErr result (IsFirstFaultOfLeaf system.now multipliers.now) }
{
    if let Some(row) = missing_row(system, multipliers) {
        return Err(LeafFault::RowNumber(row));
    }
    for block in 0..system.unknowns.div_ceil(BLOCK) {
        judge_block(system, multipliers, block * BLOCK)?;
    }
    match sum_of_constants(system, multipliers) {
        None => Err(LeafFault::Overflow(system.unknowns)),
        Some(sum) => {
            if sum >= 0 {
                Err(LeafFault::NotNegative)
            } else {
                Ok(())
            }
        }
    }
}

// The first row that does not exist.
fn missing_row(system: &System, multipliers: &[(u32, i128)]) -> Option<u32>
    ensures missing { IfSome result (FirstMissing system.now multipliers.now) }
    ensures exist { IfNone result (RowsExist system.now multipliers.now) }
{
    let rows = system.rows.as_slice().len();
    for &(row, _) in multipliers {
        if row as usize >= rows {
            return Some(row);
        }
    }
    None
}

// Judges the columns of the unknowns from this one on, at most a block of them.
fn judge_block(system: &System, multipliers: &[(u32, i128)], first: u32) -> Result<(), LeafFault>
    requires first { first ≤ system.now.unknowns }
    requires before { FineBefore system.now multipliers.now first }
    ensures ok { OnOk result (FineBefore system.now multipliers.now (min (first + 64) system.now.unknowns)) }
    ensures fault { IfErr result (IsFirstFaultOfLeaf system.now multipliers.now) }
{
    let sums = block_sums(system, multipliers, first);
    let count = BLOCK.min(system.unknowns - first);
    for at in 0..count {
        match sums[at as usize] {
            None => return Err(LeafFault::Overflow(first + at)),
            Some(sum) => {
                if sum > 0 {
                    return Err(LeafFault::Positive(first + at));
                }
            }
        }
    }
    Ok(())
}

// The sums of the columns from this one on.
fn block_sums(system: &System, multipliers: &[(u32, i128)], first: u32) -> Block
    requires { RowsExist system.now multipliers.now }
    ensures { AreSums system.now multipliers.now first result }
{
    let mut sums = [Some(0); BLOCK as usize];
    for &(row, multiplier) in multipliers {
        add_terms(&mut sums, multiplier, terms_at(system, row), first);
    }
    sums
}

// The sum of the constants, which is the column after the unknowns.
fn sum_of_constants(system: &System, multipliers: &[(u32, i128)]) -> Option<i128>
    requires { RowsExist system.now multipliers.now }
    ensures { let column = system.now.unknowns in
        SomeIff result (ColumnStays system.now multipliers.now column) (column_sum system.now multipliers.now column) }
{
    let mut sum = Some(0);
    for &(row, multiplier) in multipliers {
        sum = add(sum, multiplier, constant_at(system, row));
    }
    sum
}

// Adds the multiplied terms of a row to the sums of the columns from this one on. It ends at the
// first term behind the block, since unknowns rise.
fn add_terms(sums: &mut Block, multiplier: i128, terms: &[(u32, i128)], first: u32)
    requires { IsNormal 0 (2 ^ 32) terms.now }
    ensures { (j : ℕ) → j < 64 → IsAdded (get_or sums.old j None) (multiplier *ℤ coefficient terms.now (first + j)) (get_or sums.new j None) }
{
    for &(unknown, coefficient) in terms {
        if unknown >= first {
            let at = unknown - first;
            if at >= BLOCK {
                return;
            }
            sums[at as usize] = add(sums[at as usize], multiplier, coefficient);
        }
    }
}

// A sum with a product added.
fn add(sum: Option<i128>, factor: i128, number: i128) -> Option<i128>
    ensures { IsAdded sum (factor *ℤ number) result }
{
    plus_product(sum?, factor, number)
}

// The terms of a row.
fn terms_at<'a>(system: &'a System, row: u32) -> &'a [(u32, i128)]
    requires { row < length system.now.rows }
    ensures entries { (x : ℕ) → x < system.now.unknowns → coefficient result.now x ≡ entry system.now x row }
    ensures normal { IsNormal 0 (2 ^ 32) result.now }
{
    system.rows.as_slice()[row as usize].form.terms.as_slice()
}

// The constant of a row.
fn constant_at(system: &System, row: u32) -> i128
    requires { row < length system.now.rows }
    ensures { result ≡ entry system.now system.now.unknowns row }
{
    system.rows.as_slice()[row as usize].form.constant
}

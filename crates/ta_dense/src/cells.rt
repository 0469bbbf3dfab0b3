//! Lists of cells.

ghost use Rattle.std.specs.Prelude.{◌≡◌, ◌<◌, ◌^◌, ℕ, pos, ◌*ℤ◌, ◌-ℤ◌, ◌<ℤ◌, unsigned_abs, int_div, neg_ℤ, length, map, set, All, IsTrue, IsSome, IfSome, ◌↔◌};
ghost use Rattle.ta_linear.specs.Numbers.{InRange};
ghost use Rattle.std.specs.Bool.{OnTrue};
ghost use Rattle.std.specs.Option.{SomeIff};
ghost use Rattle.ta_dense.specs.Tableau.{combine, gcd_with};
ghost use Rattle.ta_dense.specs.Merge.{CombinesInRange, AllCombineInRange};

use ta_linear::{gcd_natural, minus, multiply};

// `p * a`, where it is in range.
fn scaled(p: i128, a: i128) -> Option<i128>
    requires { InRange a }
    ensures { SomeIff result (InRange (p *ℤ a)) (p *ℤ a) }
{
    if p == 1 { Some(a) } else { multiply(p, a) }
}

/// `p * a - q * c`, where each part is in range.
pub fn combined(p: i128, a: i128, q: i128, c: i128) -> Option<i128>
    requires { InRange a }
    ensures { SomeIff result (CombinesInRange p a q c) (p *ℤ a -ℤ q *ℤ c) }
{
    let left = scaled(p, a)?;
    if c == 0 {
        return Some(left);
    }
    let right = multiply(q, c)?;
    minus(left, right)
}

// Writes the combined cells, and `turned` into the column's.
pub(crate) fn combine_cells(
    p: i128,
    q: i128,
    cells: &mut [i128],
    chosen: &[i128],
    column: usize,
    turned: i128,
) -> bool
    requires long { length cells.old ≡ length chosen.now }
    requires cells { All InRange cells.old }
    ensures within { IsTrue result ↔ AllCombineInRange p q cells.old chosen.now column }
    ensures value { OnTrue result (cells.new ≡ set (combine p q cells.old chosen.now) column turned) }
{
    for j in 0..cells.len() {
        if j == column {
            cells[j] = turned;
        } else {
            match combined(p, cells[j], q, chosen[j]) {
                Some(cell) => cells[j] = cell,
                None => return false,
            }
        }
    }
    true
}

// The greatest common divisor of a natural number and cells.
pub(crate) fn gcd_of_cells(start: u128, cells: &[i128]) -> u128
    requires start { start < 2 ^ 127 }
    requires cells { All InRange cells.now }
    ensures value { result ≡ gcd_with start cells.now }
    ensures bound { result < 2 ^ 127 }
{
    let mut divisor = start;
    for cell in cells {
        if divisor == 1 {
            return 1;
        }
        divisor = gcd_natural(divisor, cell.unsigned_abs());
    }
    divisor
}

// Divides each cell.
pub(crate) fn divide_cells(cells: &mut [i128], divisor: i128)
    requires { pos 0 <ℤ divisor }
    ensures { cells.new ≡ map (λ z. int_div z divisor) cells.old }
{
    for cell in cells.iter_mut() {
        *cell = *cell / divisor;
    }
}

// Negates each cell.
pub(crate) fn negate_cells(cells: &mut [i128])
    requires { All InRange cells.old }
    ensures { cells.new ≡ map neg_ℤ cells.old }
{
    for j in 0..cells.len() {
        cells[j] = -cells[j];
    }
}

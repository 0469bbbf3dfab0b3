//! Lists of cells of 16 bits.
#![tactic(auto)]

ghost use Rattle.std.specs.Prelude.{◌≡◌, ◌<◌, ◌≤◌, ◌^◌, ℕ, pos, ◌<ℤ◌, ◌*ℤ◌, unsigned_abs, int_div, neg_ℤ, length, map, get_or, IfSome, FitsSigned};
ghost use Rattle.std.specs.Int.{IsGcd, w16};
ghost use Rattle.ta_linear.specs.Gcd.{gcd_of};
ghost use Rattle.ta_dense.specs.Tableau.{combine, gcd_with};
ghost use Rattle.ta_revised.specs.Bounds.{AllCombineIn16, AreBounded, AreSmall};

// `p` times the first list minus `q` times the second, place by place.
#[inline(always)]
fn combine_by(p: i16, q: i16, cells: &mut [i16], chosen: &[i16])
    requires long { length cells.old ≡ length chosen.now }
    requires fit { AllCombineIn16 p q cells.old chosen.now }
    ensures { cells.new ≡ combine p q cells.old chosen.now }
{
    for j in 0..cells.len() {
        cells[j] = p * cells[j] - q * chosen[j];
    }
}

// The same, by a loop of its own for each kind of factors that comes often.
pub(crate) fn combine_narrow(p: i16, q: i16, cells: &mut [i16], chosen: &[i16])
    requires long { length cells.old ≡ length chosen.now }
    requires fit { AllCombineIn16 p q cells.old chosen.now }
    ensures { cells.new ≡ combine p q cells.old chosen.now }
{
    match (p, q) {
        (1, 1) => combine_by(1, 1, cells, chosen),
        (1, -1) => combine_by(1, -1, cells, chosen),
        (1, 2) => combine_by(1, 2, cells, chosen),
        (1, -2) => combine_by(1, -2, cells, chosen),
        (1, _) => combine_by(1, q, cells, chosen),
        (2, 1) => combine_by(2, 1, cells, chosen),
        (2, -1) => combine_by(2, -1, cells, chosen),
        (_, 1) => combine_by(p, 1, cells, chosen),
        (_, -1) => combine_by(p, -1, cells, chosen),
        _ => combine_by(p, q, cells, chosen),
    }
}

// `p` times each cell.
pub(crate) fn scale_narrow(p: i16, cells: &mut [i16])
    requires { (j : ℕ) → j < length cells.old → FitsSigned w16 (p *ℤ get_or cells.old j (pos 0)) }
    ensures { cells.new ≡ map (λ z. p *ℤ z) cells.old }
{
    if p != 1 {
        for j in 0..cells.len() {
            cells[j] = p * cells[j];
        }
    }
}

// The greatest of a number and the absolute values of cells.
pub(crate) fn greatest_of(start: u16, cells: &[i16]) -> u16
    requires start { start < 2 ^ 15 }
    requires cells { AreSmall cells.now }
    ensures above { start ≤ result }
    ensures bound { AreBounded result cells.now }
    ensures below { result < 2 ^ 15 }
    ensures least { (b : ℕ) → start ≤ b → AreBounded b cells.now → result ≤ b }
{
    let mut greatest = start;
    for cell in cells {
        greatest = greatest.max(cell.unsigned_abs());
    }
    greatest
}

// The greatest common divisor; 0 for 0 and 0.
pub(crate) fn gcd_narrow(a: u16, b: u16) -> u16
    ensures { IsGcd a b result }
{
    if b == 0 { a } else { gcd_narrow(b, a % b) }
}

// The greatest common divisor of a divisor and a number, which is often 1.
fn gcd_with_size(divisor: u16, size: u16) -> u16
    ensures { result ≡ gcd_of divisor size }
{
    if size == 1 {
        1
    } else {
        gcd_narrow(size, divisor)
    }
}

// The greatest common divisor of a divisor and a cell; most cells are 0, and few are less than it.
fn gcd_with_cell(divisor: u16, cell: i16) -> u16
    ensures { result ≡ gcd_of divisor (unsigned_abs cell) }
{
    if cell == 0 {
        divisor
    } else {
        gcd_with_size(divisor, cell.unsigned_abs())
    }
}

// The greatest common divisor of 1 or 2 and a cell.
#[inline(always)]
fn halved(divisor: u16, cell: i16) -> u16
    requires some { 0 < divisor }
    requires few { divisor < 3 }
    ensures value { result ≡ gcd_of divisor (unsigned_abs cell) }
    ensures some { 0 < result }
    ensures few { result < 3 }
{
    if cell.unsigned_abs() % 2 == 1 {
        1
    } else {
        divisor
    }
}

// The greatest common divisor of 2 and cells, without a division.
fn gcd_with_two(cells: &[i16]) -> u16
    ensures { result ≡ gcd_with 2 cells.now }
{
    let mut divisor = 2;
    for cell in cells {
        divisor = halved(divisor, *cell);
    }
    divisor
}

// The greatest common divisor of a natural number and cells; it is 2 that comes most often.
pub(crate) fn gcd_of_narrow(start: u16, cells: &[i16]) -> u16
    ensures { result ≡ gcd_with start cells.now }
{
    if start == 2 {
        gcd_with_two(cells)
    } else {
        gcd_by_cells(start, cells)
    }
}

// The same, cell by cell.
fn gcd_by_cells(start: u16, cells: &[i16]) -> u16
    ensures { result ≡ gcd_with start cells.now }
{
    let mut divisor = start;
    for cell in cells {
        if divisor == 1 {
            return 1;
        }
        divisor = gcd_with_cell(divisor, *cell);
    }
    divisor
}

// The quotient; many cells are 0, and a division takes long.
#[inline(always)]
fn quotient(cell: i16, divisor: i16) -> i16
    requires { pos 0 <ℤ divisor }
    ensures { result ≡ int_div cell divisor }
{
    if cell == 0 { 0 } else { cell / divisor }
}

// Divides each cell.
#[inline(always)]
fn divide_by(cells: &mut [i16], divisor: i16)
    requires { pos 0 <ℤ divisor }
    ensures { cells.new ≡ map (λ z. int_div z divisor) cells.old }
{
    for cell in cells.iter_mut() {
        *cell = quotient(*cell, divisor);
    }
}

// The same, by a loop of its own for each divisor that comes often: it needs no division.
pub(crate) fn divide_narrow(cells: &mut [i16], divisor: i16)
    requires { pos 0 <ℤ divisor }
    ensures { cells.new ≡ map (λ z. int_div z divisor) cells.old }
{
    match divisor {
        2 => divide_by(cells, 2),
        3 => divide_by(cells, 3),
        4 => divide_by(cells, 4),
        5 => divide_by(cells, 5),
        _ => divide_by(cells, divisor),
    }
}

// Negates each cell.
pub(crate) fn negate_narrow(cells: &mut [i16])
    requires { AreSmall cells.old }
    ensures { cells.new ≡ map neg_ℤ cells.old }
{
    for j in 0..cells.len() {
        cells[j] = -cells[j];
    }
}

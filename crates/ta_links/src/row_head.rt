//! What a row keeps beside its cells.

/// The basic variable of the row `denominator * basic = constant + sum of cells * non-basic`, and
/// its numbers that aren't cells.
#[derive(Clone, Copy)]
pub(crate) struct RowHead {
    pub(crate) basic: u32,
    pub(crate) denominator: i128,
    pub(crate) constant: i128,
}

//! Linear forms over numbered unknowns, with whole numbers below 2^127 in absolute value.
#![tactic(auto)]

mod arithmetic;
mod fault;
mod form;
mod law;
mod number;
mod row;

pub use fault::{LinearFault, OutOfRange};
pub use form::Form;
pub use law::{leaf_has_no_solution, results_stay_in_range, values_follow};
pub use number::{floor_div, gcd, gcd_natural, minus, multiply, plus, plus_product};
pub use row::{Row, System};

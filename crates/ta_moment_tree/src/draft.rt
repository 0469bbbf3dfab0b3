//! What is written of a node so far.
#![tactic(auto)]

use crate::moment::Moment;
use ta_linear::{Form, Row};

/// The unknowns, moments and rows of a node, and the vector of its end.
#[derive(Drop)]
pub(crate) struct Draft {
    pub(crate) unknowns: usize,
    pub(crate) end: Vec<Form>,
    pub(crate) moments: Vec<Moment>,
    pub(crate) rows: Vec<Row>,
}

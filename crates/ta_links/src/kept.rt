//! Pivots that are kept.

ghost use Rattle.std.specs.Prelude.{◌≡◌, ℕ, pos, length, get_or};
ghost use Rattle.ta_linear.specs.Terms.{IsNormal, coefficient};
ghost use Rattle.ta_dense.specs.Slack.{coefficients};
ghost use Rattle.ta_links.specs.Linked.{IsProperHead};

use crate::row_head::RowHead;
use std::marker::Model;
use ta_base::List;
use ta_linear::Form;

/// A pivot of a dictionary of linked rows: its row and column, how many columns there were, and the
/// chosen row as it was before it, by its numbers that aren't 0.
#[derive(Drop)]
pub struct LinkedPivot {
    pub(crate) row: u32,
    pub(crate) column: u32,
    pub(crate) columns: u32,
    pub(crate) denominator: i128,
    pub(crate) chosen: Form,
}

impl Model for LinkedPivot {
    ghost use Rattle.ta_dense.specs.Kept.{KeptPivot};

    ghost Value = { KeptPivot };

    ghost use Rattle.ta_links.specs.KeptRows.{sparse_pivot_view, IsSoundSparsePivot};

    ghost view = { sparse_pivot_view };

    ghost invariant = { IsSoundSparsePivot };
}

impl LinkedPivot {
    pub(crate) fn of_row(
        row: u32,
        column: u32,
        columns: u32,
        head: RowHead,
        list: Vec<(u32, i128)>,
    ) -> LinkedPivot
        requires head { IsProperHead head }
        requires list { IsNormal 0 columns list.items }
        ensures { result ≡ record { row = row; column = column; denominator = head.denominator; constant = head.constant; cells = coefficients columns list.items } }
    {
        LinkedPivot {
            row,
            column,
            columns,
            denominator: head.denominator,
            chosen: Form {
                constant: head.constant,
                terms: List::from_vec(list),
            },
        }
    }

    /// The row of the variable that left.
    pub fn row(&self) -> u32
        ensures { result ≡ self.now.row }
    {
        self.row
    }

    /// The column of the variable that entered.
    pub fn column(&self) -> u32
        ensures { result ≡ self.now.column }
    {
        self.column
    }

    /// The chosen row's denominator and constant; its variable is of no account to other rows.
    pub(crate) fn head(&self) -> RowHead
        ensures value { result ≡ record { basic = 0; denominator = self.now.denominator; constant = self.now.constant } }
        ensures proper { IsProperHead result }
    {
        RowHead {
            basic: 0,
            denominator: self.denominator,
            constant: self.chosen.constant,
        }
    }

    /// The chosen row's constant and cells.
    pub(crate) fn form(&self) -> &Form
        ensures normal { IsNormal 0 (length self.now.cells) result.now.terms }
        ensures numbers { (c : ℕ) → coefficient result.now.terms c ≡ get_or self.now.cells c (pos 0) }
    {
        &self.chosen
    }
}

//! Rows, and systems of rows over natural unknowns.
#![tactic(auto)]

ghost use Rattle.ta_linear.specs.Rows.{AllBelow, AllBelow-prop};

use crate::fault::LinearFault;
use crate::form::Form;
use crate::number::minus;
use std::alloc::Global;
use ta_base::List;

/// Means `form >= 0`.
#[derive(Drop)]
pub struct Row {
    pub form: Form,
}

/// Rows over natural unknowns; each variable of a row is below `unknowns`.
#[derive(Drop)]
pub struct System {
    pub unknowns: u32,
    pub rows: List<Row>,
    pub ghost within: { AllBelow unknowns rows } by { AllBelow-prop unknowns rows },
}

impl Row {
    ghost use Rattle.std.specs.Prelude.{pos, neg_ℤ, ◌-ℤ◌, IfOk};
    ghost use Rattle.std.specs.Result.{IsErrOf};
    ghost use Rattle.ta_linear.specs.Numbers.{InRange};
    ghost use Rattle.ta_linear.specs.Forms.{IsNegation};

    /// The row `-form - 1 >= 0`, which holds exactly where this one doesn't. Overflow exactly where
    /// its constant leaves the range.
    pub fn negated(&self, alloc: Global) -> Result<Row, LinearFault>
        ensures ok { IfOk result (λ row. IsNegation row.form self.now.form) }
        ensures overflow { IsErrOf result LinearFault.Overflow → ¬ InRange (neg_ℤ self.now.form.constant -ℤ pos 1) }
    {
        let negative = self.form.scale(alloc, -1)?;
        let constant = minus(negative.constant, 1).ok_or(LinearFault::Overflow)?;
        Ok(Row {
            form: Form {
                constant,
                terms: negative.terms,
            },
        })
    }
}

impl System {
    ghost use Rattle.std.specs.Prelude.{◌≡◌, length};

    /// How many rows there are.
    pub fn row_count(&self) -> usize
        ensures { result ≡ length self.now.rows }
    {
        self.rows.as_slice().len()
    }
}

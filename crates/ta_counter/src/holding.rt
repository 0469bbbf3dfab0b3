//! Which guards hold in a configuration.
#![tactic(auto)]

ghost use Rattle.std.specs.Prelude.{ℕ, ◌≡◌, ◌<◌, ◌≤◌, ◌⊎◌, ◌↔◌, length, IfOk, IsErr, IsTrue, IsBitSet};
ghost use Rattle.ta_linear.specs.Values.{point_of};
ghost use Rattle.ta_counter.specs.Checks.{RowsOver};
ghost use Rattle.ta_counter.specs.Configs.{IsOf};
ghost use Rattle.ta_counter.specs.Holding.{GuardsAnswer, MaskAt, RowsStay};

use crate::condition::row_holds;
use crate::config::Config;
use ta_automaton::Automaton;
use ta_linear::{OutOfRange, Row};

/// Guards of an automaton: bit i of `rise` names rise guard i, bit j of `fall` fall guard j.
#[derive(Clone, Copy, Debug, Drop, PartialEq, Eq)]
pub struct Guards {
    pub rise: u128,
    pub fall: u128,
}

/// The guards that hold in a configuration. All guards of the automaton are evaluated.
pub fn guards_at(automaton: &Automaton, config: &Config) -> Result<Guards, OutOfRange>
    requires { IsOf automaton.now config.now }
    ensures { GuardsAnswer automaton.now (point_of config.now.values.items) result }
{
    let values = config.values.as_slice();
    let rise = mask_at(automaton.rise.as_slice(), values)?;
    let fall = mask_at(automaton.fall.as_slice(), values)?;
    Ok(Guards { rise, fall })
}

/// The rows that hold, as a mask.
fn mask_at(rows: &[Row], values: &[i128]) -> Result<u128, OutOfRange>
    requires count { length rows.now ≤ 64 }
    requires over { RowsOver (length values.now) rows.now }
    ensures mask { IfOk result (λ mask. MaskAt (point_of values.now) rows.now mask) }
    ensures stay { IfOk result (λ _. RowsStay (point_of values.now) rows.now) }
    ensures leaves { IsErr result → ¬ RowsStay (point_of values.now) rows.now }
{
    let mut mask = 0u128;
    for (number, row) in rows.iter().enumerate() {
        let holds = row_holds(row, values)?;
        mask = with_bit(mask, number as u32, holds);
    }
    Ok(mask)
}

/// A mask, with one more number where it belongs to it.
fn with_bit(mask: u128, number: u32, belongs: bool) -> u128
    requires { number < 128 }
    ensures { (i : ℕ) → IsBitSet result i ↔ (IsBitSet mask i ⊎ ((i ≡ number) × IsTrue belongs)) }
{
    if belongs {
        return mask | (1 << number);
    }
    mask
}

//! The Farkas multipliers of a row in which nothing can enter.
//!
//! The row says `d*v = b + sum of c*x` with b negative and no c positive. So d times v plus each -c
//! times its x is b, a sum of nonnegative parts that is negative. A slack has the value of its row,
//! so the multiplier of a row is what its slack has in that sum: d for v, -c for x. The sum of the
//! rows is then b less what the unknowns have in it: no coefficient is positive, and the constant
//! is b.
#![tactic(auto)]

ghost use Rattle.std.specs.Prelude.{◌≡◌, ◌+◌, ◌^◌, ◌<◌, ◌≤◌, length, IfOk};
ghost use Rattle.ta_linear.specs.Terms.{coefficient};
ghost use Rattle.ta_dense.specs.Slack.{variables};
ghost use Rattle.ta_dense.specs.Laws.{DictionaryOf};
ghost use Rattle.ta_simplex.specs.LeastIndex.{Stuck};
ghost use Rattle.ta_simplex.specs.Inside.Slots.{put, AreNatural, FillSlots, ListsSlots};
ghost use Rattle.ta_simplex.specs.Refuted.{AreLeafMultipliers};

use std::alloc::{AllocError, Global};
use ta_base::List;
use ta_dense::Dictionary;
use ta_linear::System;

// The multipliers of the system's rows for a row for which nothing can enter.
pub(crate) fn multipliers_of<D: Dictionary>(
    alloc: Global,
    system: &System,
    dictionary: &D,
    row: u32,
) -> Result<List<(u32, i128)>, AllocError>
    requires room { variables system.now < 2 ^ 32 }
    requires dictionary { DictionaryOf system.now (D.tableau dictionary.now) }
    requires stuck { Stuck (D.tableau dictionary.now) row }
    ensures { IfOk result (AreLeafMultipliers system.now (D.tableau dictionary.now) row) }
{
    let multipliers = slack_multipliers(alloc, system, dictionary, row)?;
    let terms = terms_of(alloc, &multipliers)?;
    Ok(List::from_vec(terms))
}

// The multiplier of each row of the system.
fn slack_multipliers<D: Dictionary>(
    alloc: Global,
    system: &System,
    dictionary: &D,
    row: u32,
) -> Result<Vec<i128>, AllocError>
    requires room { variables system.now < 2 ^ 32 }
    requires dictionary { DictionaryOf system.now (D.tableau dictionary.now) }
    requires stuck { Stuck (D.tableau dictionary.now) row }
    ensures { IfOk result (λ ms. FillSlots system.now.unknowns (length system.now.rows) (D.tableau dictionary.now) row ms.items) }
{
    let unknowns = system.unknowns;
    let mut multipliers = vec![in alloc; 0; system.row_count()]?;
    put_slack(
        &mut multipliers,
        unknowns,
        dictionary.basic(row),
        dictionary.denominator(row),
    );
    for column in 0..dictionary.columns() {
        let variable = dictionary.non_basic(column);
        let multiplier = -dictionary.cell(row, column);
        put_slack(&mut multipliers, unknowns, variable, multiplier);
    }
    Ok(multipliers)
}

// Puts a number at the row of a slack.
pub(crate) fn put_slack(multipliers: &mut [i128], unknowns: u32, variable: u32, multiplier: i128)
    requires { variable < unknowns + length multipliers.old }
    ensures { multipliers.new ≡ put unknowns multipliers.old variable multiplier }
{
    if variable >= unknowns {
        multipliers[(variable - unknowns) as usize] = multiplier;
    }
}

// The multipliers that are not 0, each with its row.
pub(crate) fn terms_of(alloc: Global, multipliers: &[i128]) -> Result<Vec<(u32, i128)>, AllocError>
    requires room { length multipliers.now < 2 ^ 32 }
    requires natural { AreNatural multipliers.now }
    ensures { IfOk result (λ ts. ListsSlots multipliers.now (length multipliers.now) ts.items) }
{
    let mut terms = Vec::new(alloc);
    for row in 0..multipliers.len() {
        if multipliers[row] != 0 {
            terms.push((row as u32, multipliers[row]))?;
        }
    }
    Ok(terms)
}

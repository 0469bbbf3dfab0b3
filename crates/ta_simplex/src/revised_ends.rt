//! The values of a vertex and the multipliers of a refutation, from a revised dictionary.
#![tactic(auto)]

ghost use Rattle.std.specs.Prelude.{ℕ, ◌≡◌, ◌<◌, ◌^◌, length, IfOk};
ghost use Rattle.ta_dense.specs.Tableau.{Tableau};
ghost use Rattle.ta_revised.specs.Narrow.{narrow_view, IsNarrow};
ghost use Rattle.ta_dense.specs.Slack.{variables};
ghost use Rattle.ta_simplex.specs.Inside.Slots.{FillSlots};
ghost use Rattle.ta_simplex.specs.Refuted.{AreLeafMultipliers};
ghost use Rattle.ta_simplex.specs.RevisedRuns.{AreRevisedValues, IsStuckAt};

use crate::fraction::Fraction;
use crate::multipliers::{put_slack, terms_of};
use std::alloc::{AllocError, Global};
use ta_base::List;
use ta_linear::System;
use ta_revised::{NarrowRow, RevisedDictionary};

// The value of each unknown.
pub(crate) fn revised_vertex(
    alloc: Global,
    system: &System,
    dictionary: &RevisedDictionary,
) -> Result<List<Fraction>, AllocError>
    requires { length dictionary.now.rows ≡ system.now.unknowns }
    ensures { IfOk result (AreRevisedValues dictionary.now system.now.unknowns) }
{
    let mut values = Vec::with_capacity(alloc, system.unknowns as usize)?;
    for unknown in 0..system.unknowns {
        let (top, bottom) = dictionary.value_at(unknown);
        values.push(Fraction {
            top: top as i128,
            bottom: bottom as i128,
        })?;
    }
    Ok(List::from_vec(values))
}

// The multiplier of each row of the system.
fn revised_slots(
    alloc: Global,
    system: &System,
    dictionary: &RevisedDictionary,
    chosen: &NarrowRow,
) -> Result<Vec<i128>, AllocError>
    requires room { variables system.now < 2 ^ 32 }
    requires narrow { IsNarrow (length dictionary.now.non_basic) chosen.now }
    requires stuck { (t : Tableau) × (row : ℕ) × IsStuckAt system.now dictionary.now (narrow_view chosen.now) t row }
    ensures long { IfOk result (λ ms. length ms.items ≡ length system.now.rows) }
    ensures fills { IfOk result (λ ms. (t : Tableau) (row : ℕ) → IsStuckAt system.now dictionary.now (narrow_view chosen.now) t row →
        FillSlots system.now.unknowns (length system.now.rows) t row ms.items) }
{
    let unknowns = system.unknowns;
    let mut multipliers = vec![in alloc; 0; system.row_count()]?;
    put_slack(
        &mut multipliers,
        unknowns,
        chosen.basic,
        chosen.denominator as i128,
    );
    let non_basic = dictionary.non_basic_variables();
    for column in 0..non_basic.len() {
        let multiplier = -(chosen.cells.at(column) as i128);
        put_slack(&mut multipliers, unknowns, non_basic[column], multiplier);
    }
    Ok(multipliers)
}

// The multipliers of the system's rows for a row for which nothing can enter.
pub(crate) fn revised_multipliers(
    alloc: Global,
    system: &System,
    dictionary: &RevisedDictionary,
    chosen: &NarrowRow,
) -> Result<List<(u32, i128)>, AllocError>
    requires room { variables system.now < 2 ^ 32 }
    requires narrow { IsNarrow (length dictionary.now.non_basic) chosen.now }
    requires stuck { (t : Tableau) × (row : ℕ) × IsStuckAt system.now dictionary.now (narrow_view chosen.now) t row }
    ensures { IfOk result (λ ts. (t : Tableau) (row : ℕ) → IsStuckAt system.now dictionary.now (narrow_view chosen.now) t row →
        AreLeafMultipliers system.now t row ts) }
{
    let multipliers = revised_slots(alloc, system, dictionary, chosen)?;
    let terms = terms_of(alloc, &multipliers)?;
    Ok(List::from_vec(terms))
}

//! Rows at a moment of a word, given by the unknowns so far.
#![tactic(auto)]

ghost use Rattle.std.specs.Prelude.{ℕ, ◌+◌, ◌*◌, ◌^◌, ◌≡◌, ◌≤◌, ◌<◌, ◌≤ℤ◌, ◌<ℤ◌, ◌∷◌, [], IfOk, List, OnOk, filter, length, map, negsuc, not, pos, unsigned_abs};
ghost use Rattle.ta_automaton.specs.Places.{location_place};
ghost use Rattle.ta_automaton.specs.declared.automaton.Automaton.{Automaton};
ghost use Rattle.ta_base.specs.Masks.{has_bit};
ghost use Rattle.std.specs.List.{range_with_len};
ghost use Rattle.ta_encode.specs.Code.{IsRowOf};
ghost use Rattle.ta_encode.specs.Inside.Draft.{Adds};
ghost use Rattle.ta_encode.specs.Inside.Lines.{AddsRows, SmallCondition, SmallForm, SmallRows, block_row, bound_constant, bound_sense, constant_in_sense, in_sense, start_sense};
ghost use Rattle.ta_encode.specs.Lines.{BoundWithin, BoundsWithin, SmallTerms, line_row};
ghost use Rattle.ta_encode.specs.declared.line.Sense.TheVariants.{Opposite, Plain};
ghost use Rattle.ta_encode.specs.declared.meaning.Meaning.{Meaning};
ghost use Rattle.ta_encode.specs.System.{LinearRow, bound_row, condition_rows, counter_row, form_row, guard_rows, opposite, processes_row, start_guard_rows};
ghost use Rattle.ta_linear.specs.Numbers.{InRange};
ghost use Rattle.ta_linear.specs.Terms.{IsNormal};

use crate::draft::Draft;
use crate::line::{Line, Sense, turn};
use crate::meaning::{Bound, Side};
use crate::place::first_location;
use std::alloc::{AllocError, Global};
use ta_automaton::Condition;
use ta_base::List;
use ta_base::limits::LARGEST_NUMBER;
use ta_linear::{Form, Row};

/// The constant of a row that is written so.
fn constant_in(sense: Sense, constant: i128) -> i128
    requires { unsigned_abs constant ≤ LARGEST_NUMBER }
    ensures value { result ≡ constant_in_sense sense constant }
    ensures fits { InRange result }
{
    match sense {
        Sense::Plain => constant,
        Sense::Opposite => -constant,
        Sense::Negated => -constant - 1,
    }
}

/// Negated for the fall guards of the start set.
fn sense_at_start(start_mask: u8, number: usize) -> Sense
    requires { number < 8 }
    ensures { result ≡ start_sense (has_bit start_mask number) }
{
    if start_mask & (1 << number) != 0 {
        Sense::Negated
    } else {
        Sense::Plain
    }
}

impl<'a> Draft<'a> {
    /// Adds a row over the unknowns so far.
    pub(crate) fn push_row(&mut self, row: Row) -> Result<(), AllocError>
        requires { IsNormal 0 (length self.old.meanings.items) row.form.terms }
        ensures { OnOk result ((line : Automaton → List Meaning → LinearRow) → IsRowOf (line self.old.automaton.now self.old.meanings.items) row → Adds (λ a ms. line a ms ∷ []) self.old self.new) }
    {
        self.rows.push(row)?;
        Ok(())
    }

    /// The row of a constant and of terms over places.
    fn push_line(&mut self, line: &Line, constant: i128) -> Result<(), AllocError>
        requires terms { SmallTerms line.now.terms.now }
        requires constant { unsigned_abs constant ≤ LARGEST_NUMBER }
        ensures { OnOk result (Adds (λ a ms. in_sense line.now.sense (line_row a ms line.now.terms.now line.now.less_starts Plain constant) ∷ []) self.old self.new) }
    {
        let row = self.row_of(line, constant_in(line.sense, constant))?;
        self.push_row(row)
    }

    /// The row of a form, written in a sense.
    fn push_form(&mut self, form: &Form, sense: Sense) -> Result<(), AllocError>
        requires small { SmallForm form.now }
        ensures { OnOk result (Adds (λ a ms. in_sense sense (form_row a ms form.now) ∷ []) self.old self.new) }
    {
        let line = Line {
            terms: form.terms.as_slice(),
            less_starts: false,
            sense,
        };
        self.push_line(&line, form.constant)?;
        Ok(())
    }

    /// The rows of some rows over places.
    fn push_rows(&mut self, some: &[Row]) -> Result<(), AllocError>
        requires small { SmallRows some.now }
        ensures { OnOk result (Adds (λ a ms. map (λ (r : Row). form_row a ms r.form) some.now) self.old self.new) }
    {
        for row in some {
            self.push_form(&row.form, Sense::Plain)?;
        }
        Ok(())
    }

    /// The rows of a condition.
    pub(crate) fn push_condition(&mut self, condition: &Condition) -> Result<(), AllocError>
        requires small { SmallCondition condition.now }
        ensures { OnOk result (Adds (λ a ms. condition_rows a ms condition.now.comparisons) self.old self.new) }
    {
        for comparison in condition.comparisons.as_slice() {
            self.push_rows(comparison.rows.as_slice())?;
        }
        Ok(())
    }

    /// The rows of the guards in a set, written in a sense.
    fn push_guards(&mut self, guards: &[Row], mask: u128, sense: Sense) -> Result<(), AllocError>
        requires small { SmallRows guards.now }
        requires few { length guards.now ≤ 64 }
        ensures { OnOk result (Adds (λ a ms. map (in_sense sense) (guard_rows a ms (has_bit mask) 0 guards.now)) self.old self.new) }
    {
        for (number, guard) in guards.iter().enumerate() {
            if mask & (1 << number) != 0 {
                self.push_form(&guard.form, sense)?;
            }
        }
        Ok(())
    }

    /// The rows of the rise guards in a set, written in a sense.
    pub(crate) fn push_rises(&mut self, mask: u128, sense: Sense) -> Result<(), AllocError>
        ensures { OnOk result (Adds (λ a ms. map (in_sense sense) (guard_rows a ms (has_bit mask) 0 a.rise)) self.old self.new) }
    {
        let automaton = self.automaton;
        self.push_guards(automaton.rise.as_slice(), mask, sense)?;
        Ok(())
    }

    /// The rows of the fall guards in a set, written in a sense.
    pub(crate) fn push_falls(&mut self, mask: u128, sense: Sense) -> Result<(), AllocError>
        ensures { OnOk result (Adds (λ a ms. map (in_sense sense) (guard_rows a ms (has_bit mask) 0 a.fall)) self.old self.new) }
    {
        let automaton = self.automaton;
        self.push_guards(automaton.fall.as_slice(), mask, sense)?;
        Ok(())
    }

    /// The rows of the fall guards at the start, negated for those in the start set.
    pub(crate) fn push_start_guards(&mut self, start_mask: u8) -> Result<(), AllocError>
        requires narrow { length self.old.automaton.now.fall ≤ 6 }
        ensures { OnOk result (Adds (λ a ms. start_guard_rows a ms start_mask 0 a.fall) self.old self.new) }
    {
        let automaton = self.automaton;
        for (number, guard) in automaton.fall.as_slice().iter().enumerate() {
            self.push_form(&guard.form, sense_at_start(start_mask, number))?;
        }
        Ok(())
    }

    /// The counters of the locations outside a set, written in a sense.
    pub(crate) fn push_counters(&mut self, empty: u128, sense: Sense) -> Result<(), AllocError>
        ensures { OnOk result (Adds (λ a ms. map (λ l. in_sense sense (counter_row a ms l)) (filter (λ l. not (has_bit empty l)) (range_with_len 0 (length a.locations)))) self.old self.new) }
    {
        match sense {
            Sense::Plain => self.push_all_counters(empty),
            Sense::Opposite | Sense::Negated => self.push_each_counter(empty, sense),
        }
    }

    /// The counters of the locations outside a set, row by row.
    fn push_each_counter(&mut self, empty: u128, sense: Sense) -> Result<(), AllocError>
        ensures { OnOk result (Adds (λ a ms. map (λ l. in_sense sense (counter_row a ms l)) (filter (λ l. not (has_bit empty l)) (range_with_len 0 (length a.locations)))) self.old self.new) }
    {
        let automaton = self.automaton;
        for location in 0..automaton.locations.as_slice().len() {
            if empty & (1 << location) == 0 {
                let place = first_location(automaton) + location as u32;
                self.push_counter(place, sense)?;
            }
        }
        Ok(())
    }

    /// The counter of a location, by its place, written in a sense.
    fn push_counter(&mut self, place: u32, sense: Sense) -> Result<(), AllocError>
        ensures { OnOk result ((l : ℕ) → place ≡ location_place self.old.automaton.now l → Adds (λ a ms. in_sense sense (counter_row a ms l) ∷ []) self.old self.new) }
    {
        let line = Line {
            terms: &[(place, 1)],
            less_starts: false,
            sense,
        };
        self.push_line(&line, 0)?;
        Ok(())
    }

    /// The number of processes minus the start counts, and the opposite.
    pub(crate) fn push_processes(&mut self) -> Result<(), AllocError>
        ensures { OnOk result (Adds (λ a ms. processes_row a ms ∷ opposite (processes_row a ms) ∷ []) self.old self.new) }
    {
        self.push_processes_in(Sense::Plain)?;
        self.push_processes_in(Sense::Opposite)?;
        Ok(())
    }

    fn push_processes_in(&mut self, sense: Sense) -> Result<(), AllocError>
        ensures { OnOk result (Adds (λ a ms. in_sense sense (processes_row a ms) ∷ []) self.old self.new) }
    {
        let automaton = self.automaton;
        let processes = &automaton.processes;
        let line = Line {
            terms: processes.terms.as_slice(),
            less_starts: true,
            sense,
        };
        self.push_line(&line, processes.constant)?;
        Ok(())
    }

    /// The Singles of a Fall minus 1, and the opposite: the unknowns from a number on.
    pub(crate) fn push_singles(&mut self, from: usize) -> Result<(), AllocError>
        requires order { from ≤ length self.old.meanings.items }
        ensures { OnOk result (Adds (λ a ms. block_row (negsuc 0) from (length ms) Plain ∷ block_row (pos 1) from (length ms) Opposite ∷ []) self.old self.new) }
    {
        self.push_block(-1, from, Sense::Plain)?;
        self.push_block(1, from, Sense::Opposite)?;
        Ok(())
    }

    /// The row of a constant and of the sum of the unknowns from a number on, or its opposite.
    fn push_block(&mut self, constant: i128, from: usize, sense: Sense) -> Result<(), AllocError>
        requires order { from ≤ length self.old.meanings.items }
        requires constant { InRange constant }
        ensures { OnOk result (Adds (λ a ms. block_row constant from (length ms) sense ∷ []) self.old self.new) }
    {
        let row = block(self.alloc, constant, from, self.meanings.len(), sense)?;
        self.push_row(row)
    }
}

/// The row of a constant and of the sum of the unknowns from one number to another, or its
/// opposite.
fn block(
    alloc: Global,
    constant: i128,
    from: usize,
    to: usize,
    sense: Sense,
) -> Result<Row, AllocError>
    requires order { from ≤ to }
    requires numbers { to < 2 ^ 32 }
    requires constant { InRange constant }
    ensures row { IfOk result (IsRowOf (block_row constant from to sense)) }
    ensures below { IfOk result (λ row. IsNormal 0 to row.form.terms) }
{
    let coefficient = turn(sense, 1);
    let mut terms = Vec::new(alloc);
    for unknown in from..to {
        terms.push((unknown as u32, coefficient))?;
    }
    Ok(Row {
        form: Form {
            constant,
            terms: List::from_vec(terms),
        },
    })
}

/// The rows of bounds.
pub(crate) fn push_bounds(
    alloc: Global,
    unknowns: usize,
    bounds: &[Bound],
    rows: &mut Vec<Row>,
) -> Result<(), AllocError>
    requires numbers { unknowns < 2 ^ 32 }
    requires bounds { BoundsWithin unknowns bounds.now }
    ensures { OnOk result (AddsRows (map bound_row bounds.now) unknowns rows.old.items rows.new.items) }
{
    for bound in bounds {
        push_bound(alloc, unknowns, *bound, rows)?;
    }
    Ok(())
}

/// The row of a bound.
pub(crate) fn push_bound(
    alloc: Global,
    unknowns: usize,
    bound: Bound,
    rows: &mut Vec<Row>,
) -> Result<(), AllocError>
    requires numbers { unknowns < 2 ^ 32 }
    requires bound { BoundWithin unknowns bound }
    ensures { OnOk result (AddsRows (bound_row bound ∷ []) unknowns rows.old.items rows.new.items) }
{
    let unknown = bound.unknown as usize;
    let constant = bound_constant(bound.side, bound.floor);
    let sense = bound_sense(bound.side);
    rows.push(block(alloc, constant, unknown, unknown + 1, sense)?)?;
    Ok(())
}

fn bound_constant(side: Side, floor: i128) -> i128
    requires least { pos 0 ≤ℤ floor }
    requires most { floor <ℤ pos (2 ^ 126) }
    ensures value { result ≡ bound_constant side floor }
    ensures fits { InRange result }
{
    match side {
        Side::Low => floor,
        Side::High => -floor - 1,
    }
}

fn bound_sense(side: Side) -> Sense
    ensures { result ≡ bound_sense side }
{
    match side {
        Side::Low => Sense::Opposite,
        Side::High => Sense::Plain,
    }
}

//! The system of a node with bounds.
#![tactic(auto)]

ghost use Rattle.std.specs.Prelude.{ℕ, ◌^◌, ◌<◌, ◌≡◌, ◌≤ℤ◌, ◌<ℤ◌, ◌≤◌, IfOk, List as Items, OnOk, Option, length, pos, take, unsigned_abs};
ghost use Rattle.ta_encode.specs.Code.{SystemAt};
ghost use Rattle.ta_encode.specs.Inside.Lines.{IsBehind, bound_constant, bound_sense};
ghost use Rattle.ta_encode.specs.Lines.{BoundsWithin, coefficient_in_sense};
ghost use Rattle.ta_encode.specs.Marks.{SameRows};
ghost use Rattle.ta_linear.specs.Numbers.{InRange};
ghost use Rattle.ta_linear.specs.declared.row.Row.{Row as WrittenRow};
ghost use Rattle.ta_moments.specs.Code.{NodeSystem};
ghost use Rattle.ta_moments.specs.declared.fact.Fact.{Fact};
ghost use Rattle.ta_moments.specs.Refutes.{Asking};
ghost use Rattle.ta_moments.specs.Searched.{Maker, moment_search, pending_of};
ghost use Rattle.ta_moment_tree.specs.Forms.{form_of};
ghost use Rattle.ta_moment_tree.specs.Nodes.{IsAnyNode, IsNode};
ghost use Rattle.ta_moment_tree.specs.Rows.{AddsForms};
ghost use Rattle.ta_moment_tree.specs.Systems.{FloorsWithin, bound_form, bound_forms, bounded_node};

use crate::encoding::MomentEncoding;
use std::alloc::{AllocError, Global};
use ta_base::List;
use ta_encode::{Bound, Side};
use ta_linear::{Form, Row, System};

/// A row once more.
fn copy_row(alloc: Global, row: &Row) -> Result<Row, AllocError>
    ensures { IfOk result (λ copy. copy ≡ row.now) }
{
    let terms = row.form.terms.as_slice().to_vec(alloc)?;
    Ok(Row {
        form: Form {
            constant: row.form.constant,
            terms: List::from_vec(terms),
        },
    })
}

/// Copies of the rows from a number on, behind the first of them.
fn push_copies(
    alloc: Global,
    some: &[Row],
    from: usize,
    rows: &mut Vec<Row>,
) -> Result<(), AllocError>
    requires from { from ≤ length some.now }
    requires first { rows.old.items ≡ take from some.now }
    ensures { OnOk result (rows.new.items ≡ some.now) }
{
    for number in from..some.len() {
        rows.push(copy_row(alloc, &some[number])?)?;
    }
    Ok(())
}

/// What stands before the unknown of a bound.
fn bound_sign(side: Side) -> i128
    ensures value { result ≡ coefficient_in_sense (bound_sense side) (pos 1) }
    ensures small { unsigned_abs result ≤ 1 }
{
    match side {
        Side::Low => -1,
        Side::High => 1,
    }
}

/// The constant of the row of a bound.
fn bound_constant(side: Side, floor: i128) -> i128
    requires least { pos 0 ≤ℤ floor }
    requires most { floor <ℤ pos (2 ^ 126) }
    ensures value { result ≡ bound_constant side floor }
    ensures fits { InRange result }
{
    match side {
        Side::Low => floor,
        Side::High => -floor - 1,
    }
}

/// The form of a bound's row.
fn bound_form(alloc: Global, bound: Bound) -> Result<Form, AllocError>
    requires least { pos 0 ≤ℤ bound.floor }
    requires most { bound.floor <ℤ pos (2 ^ 126) }
    ensures { IfOk result (λ form. form_of form ≡ bound_form bound) }
{
    let constant = bound_constant(bound.side, bound.floor);
    let sign = bound_sign(bound.side);
    let mut terms = Vec::new(alloc);
    terms.push((bound.unknown, sign))?;
    Ok(Form {
        constant,
        terms: List::from_vec(terms),
    })
}

/// The rows of bounds.
fn push_bounds(alloc: Global, bounds: &[Bound], rows: &mut Vec<Row>) -> Result<(), AllocError>
    requires { FloorsWithin bounds.now }
    ensures { OnOk result (AddsForms (bound_forms bounds.now) rows.old.items rows.new.items) }
{
    for bound in bounds {
        let form = bound_form(alloc, *bound)?;
        rows.push(Row { form })?;
    }
    Ok(())
}

impl<'a> MomentEncoding<'a> {
    /// How many unknowns the node has.
    pub fn unknown_count(&self) -> usize
        ensures { result ≡ self.now.draft.unknowns }
    {
        self.draft.unknowns
    }

    /// How many rows the node has without bounds.
    pub fn row_count(&self) -> usize
        ensures { result ≡ length self.now.draft.rows.items }
    {
        self.draft.rows.len()
    }

    /// The node's system with bounds, whose rows come last. The rows of each node above it come first,
    /// as they stand there. Only want of memory is an error.
    pub fn system(&self, bounds: &[Bound]) -> Result<System, AllocError>
        requires node { IsAnyNode self.now }
        requires room { self.now.draft.unknowns < 2 ^ 32 }
        requires bounds { BoundsWithin self.now.draft.unknowns bounds.now }
        ensures system { IfOk result (λ system. (asking : Asking) (candidate : Option ℕ) (past : Items Fact) → IsNode asking.silent candidate past self.now
            → NodeSystem self.now.plan.task.automaton.now self.now.plan.task.pattern.now asking (bounded_node candidate past bounds.now) system) }
        ensures search { IfOk result (λ system. (asking : Asking) (maker : Maker) (candidate : Option ℕ) (past : Items Fact) → IsNode asking.silent candidate past self.now
            → SystemAt (moment_search self.now.plan.task.automaton.now self.now.plan.task.pattern.now asking maker) (pending_of (bounded_node candidate past bounds.now)) system) }
        ensures rows { IfOk result (λ system. IsBehind self.now.draft.rows.items system.rows) }
        ensures same { IfOk result (λ system. (above before : Items WrittenRow) → IsBehind above self.now.draft.rows.items → IsBehind above before → SameRows before (length above) system.rows) }
    {
        let nothing = System {
            unknowns: 0,
            rows: List::from_vec(Vec::new(self.plan.alloc)),
        };
        self.system_from(nothing, 0, bounds)
    }

    /// As `system`, written on from another system whose first rows, this many, are the node's: these
    /// aren't copied.
    pub fn system_from(
        &self,
        before: System,
        same: usize,
        bounds: &[Bound],
    ) -> Result<System, AllocError>
        requires node { IsAnyNode self.now }
        requires room { self.now.draft.unknowns < 2 ^ 32 }
        requires bounds { BoundsWithin self.now.draft.unknowns bounds.now }
        requires first { SameRows before.rows same self.now.draft.rows.items }
        ensures system { IfOk result (λ system. (asking : Asking) (candidate : Option ℕ) (past : Items Fact) → IsNode asking.silent candidate past self.now
            → NodeSystem self.now.plan.task.automaton.now self.now.plan.task.pattern.now asking (bounded_node candidate past bounds.now) system) }
        ensures search { IfOk result (λ system. (asking : Asking) (maker : Maker) (candidate : Option ℕ) (past : Items Fact) → IsNode asking.silent candidate past self.now
            → SystemAt (moment_search self.now.plan.task.automaton.now self.now.plan.task.pattern.now asking maker) (pending_of (bounded_node candidate past bounds.now)) system) }
        ensures rows { IfOk result (λ system. IsBehind self.now.draft.rows.items system.rows) }
    {
        let alloc = self.plan.alloc;
        let System { unknowns: _, rows } = before;
        let mut rows = rows.into_vec();
        rows.truncate(same);
        push_copies(alloc, self.draft.rows.as_slice(), same, &mut rows)?;
        push_bounds(alloc, bounds, &mut rows)?;
        Ok(System {
            unknowns: self.draft.unknowns as u32,
            rows: List::from_vec(rows),
        })
    }
}

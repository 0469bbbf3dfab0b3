//! Rows of pivots, over linked and dense rows side by side and over the rows of the unknowns.

ghost use Rattle.std.specs.Prelude.{IsTrue, ◌≡◌, ◌≢◌, ◌<◌, ◌+◌, ◌^◌, pos, length, IfOk, OnOk};
ghost use Rattle.ta_linear.specs.Numbers.{InRange};
ghost use Rattle.ta_linear.specs.Terms.{IsNormal};
ghost use Rattle.ta_linear.specs.Rows.{AllBelow};
ghost use Rattle.ta_dense.specs.Slack.{variables};

use crate::beside::Beside;
use crate::given::Given;
use crate::table::cut;
use std::alloc::{AllocError, Global};
use ta_base::List;
use ta_dense::{DenseDictionary, Dictionary, PivotFault};
use ta_linear::{Form, Row, System};
use ta_simplex::{Branch, End as Solved, SolveFault};

#[derive(Clone, Copy, Debug, PartialEq, Eq)]
enum End {
    Vertex,
    Stuck,
    Overflow(u32),
    Memory,
    Apart,
}

/// How many pivots were made, how it ended, and whether a branch took full dictionaries.
#[derive(Clone, Copy)]
struct Course {
    pivots: u32,
    end: End,
    full: bool,
}

#[derive(Drop)]
enum Step<D: Drop> {
    Next(D),
    Ended(End),
}

// Adds a row.
fn push_row(
    rows: &mut Vec<Row>,
    unknowns: u32,
    constant: i128,
    terms: Vec<(u32, i128)>,
) -> Result<(), AllocError>
    requires constant { InRange constant }
    requires terms { IsNormal 0 unknowns terms.items }
    requires rows { AllBelow unknowns rows.old.items }
    ensures below { OnOk result (AllBelow unknowns rows.new.items) }
    ensures long { OnOk result (length rows.new.items ≡ length rows.old.items + 1) }
{
    let form = Form {
        constant,
        terms: List::from_vec(terms),
    };
    rows.push(Row { form })?;
    Ok(())
}

// Parameters, each `up` times the one before, and as many processes as the first is.
fn tower(alloc: Global, levels: u32, up: i128, down: i128) -> Result<System, AllocError>
    requires levels { levels < 50 }
    requires up { up ≢ pos 0 }
    requires up_fits { InRange up }
    requires down { down ≢ pos 0 }
    requires down_fits { InRange down }
    ensures { IfOk result (λ s. variables s < 2 ^ 32) }
{
    let unknowns = levels + 2;
    let mut rows = Vec::new(alloc);
    push_row(&mut rows, unknowns, -1, vec![in alloc; (0, 1)]?)?;
    for lower in 0..levels {
        let first = vec![in alloc; (lower, down), (lower + 1, 1)]?;
        push_row(&mut rows, unknowns, 0, first)?;
        let second = vec![in alloc; (lower, up), (lower + 1, -1)]?;
        push_row(&mut rows, unknowns, 0, second)?;
    }
    let last = unknowns - 1;
    push_row(&mut rows, unknowns, 0, vec![in alloc; (0, 1), (last, -1)]?)?;
    push_row(&mut rows, unknowns, 0, vec![in alloc; (0, -1), (last, 1)]?)?;
    Ok(System {
        unknowns,
        rows: List::from_vec(rows),
    })
}

// One pivot of the least-index rule.
fn next_step<D: Dictionary>(alloc: Global, dictionary: D) -> Step<D> {
    let Some(row) = dictionary.leaving() else {
        return Step::Ended(End::Vertex);
    };
    let Some(column) = dictionary.entering(row) else {
        return Step::Ended(End::Stuck);
    };
    match dictionary.pivot(alloc, row, column) {
        Ok(next) => Step::Next(next),
        Err(PivotFault::Overflow { row }) => Step::Ended(End::Overflow(row)),
        Err(PivotFault::Memory) => Step::Ended(End::Memory),
    }
}

// The pivots of the least-index rule over linked rows and dense ones beside them, and how they end.
fn steps_of(alloc: Global, system: &System) -> Result<(u32, End), AllocError>
    requires { variables system.now < 2 ^ 32 }
{
    let mut dictionary = Beside::from_system(alloc, system)?;
    for pivots in 0..50 {
        match next_step(alloc, dictionary) {
            Step::Next(next) => dictionary = next,
            Step::Ended(end) => return Ok((pivots, end)),
        }
    }
    Ok((50, End::Apart))
}

// Whether a branch comes to an end of the same kind by as many pivots.
fn agrees(solved: &Result<Solved, SolveFault>, made: u64, pivots: u32, end: End) -> bool {
    match (solved, end) {
        (Ok(Solved::Vertex(_)), End::Vertex) => made == pivots as u64,
        (Ok(Solved::Refuted(_)), End::Stuck) => made == pivots as u64,
        (Err(SolveFault::Overflow(at)), End::Overflow(_)) => *at == pivots as u64 + 1,
        _ => false,
    }
}

// The same with the end of a branch, which takes the rows of the unknowns as long as these suffice.
fn course_of(alloc: Global, system: &System) -> Result<Course, AllocError>
    requires { variables system.now < 2 ^ 32 }
{
    let (pivots, end) = steps_of(alloc, system)?;
    let mut branch: Branch<DenseDictionary> = Branch::new(alloc);
    let solved = branch.solve(alloc, system, 0);
    let effort = branch.effort();
    let same = agrees(&solved, effort.pivots, pivots, end);
    Ok(Course {
        pivots,
        end: if same { end } else { End::Apart },
        full: effort.full > 0 || solved.is_err(),
    })
}

/// The pivots of a tower: how many were made, how it ended, and whether a branch took full
/// dictionaries. The words are the number of levels and the two coefficients of each.
pub fn pivots(given: &mut Given, rest: &str) -> Result<(), AllocError> {
    let (levels, rest) = cut(rest);
    let (up, down) = cut(rest);
    let levels = levels.parse::<u32>().unwrap_or(50);
    let (up, down) = (coefficient_of(up), coefficient_of(down));
    if levels >= 50 || !is_coefficient(up) || !is_coefficient(down) {
        return given.end("no such tower");
    }
    let system = tower(given.alloc, levels, up, down)?;
    let made = course_of(given.alloc, &system);
    drop(system);
    let made = made?;
    given.number("", made.pivots);
    given.say(" pivots, ");
    given.value(&made.end);
    if made.full {
        given.say(", full rows");
    }
    Ok(())
}

fn coefficient_of(word: &str) -> i128 {
    word.parse::<i128>().unwrap_or(0)
}

fn is_coefficient(number: i128) -> bool
    ensures { IsTrue result → (number ≢ pos 0) × InRange number }
{
    number != 0 && number > i128::MIN
}

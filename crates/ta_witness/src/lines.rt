//! The lines of a run, element by element.
#![tactic(auto)]

ghost use Rattle.std.specs.Prelude.{pos, ◌≡◌, ◌≤◌, ◌<ℤ◌, ◌^◌, ◌++◌, IfOk, OnOk, length, map};
ghost use Rattle.std.specs.List.{AllByRecursion};
ghost use Rattle.ta_replay.specs.Pieces.{step_line};
ghost use Rattle.ta_witness.specs.Values.{unknown_value};
ghost use Rattle.ta_witness.specs.Inside.Making.{AddsPiece, EachMayEnd, AddsPieceEnd, AreNaturals, AddsPieces, MayEnd};

use crate::known::{counts_of, single_of};
use std::alloc::{AllocError, Global};
use ta_automaton::{Automaton, Pattern};
use ta_base::limits::LONGEST_WORD;
use ta_encode::Meaning;
use ta_replay::RunLine;
use ta_scope::ScopedFile;
use ta_words::Element;

/// The lines of a word's pieces.
pub(crate) fn lines_of(
    alloc: Global,
    scoped: &ScopedFile,
    pattern: &Pattern,
    meanings: &[Meaning],
    values: &[i128],
    elements: &[Element],
) -> Result<Vec<RunLine>, AllocError>
    requires few { length elements.now ≤ LONGEST_WORD }
    requires known { AreNaturals meanings.now values.now }
    requires ends { EachMayEnd scoped.now.file.automaton pattern.now (unknown_value meanings.now values.now) elements.now }
    ensures { IfOk result (λ lines. AddsPieces scoped.now.file.automaton pattern.now (unknown_value meanings.now values.now) elements.now lines.items) }
{
    let mut lines = Vec::new(alloc);
    for (number, element) in elements.iter().enumerate() {
        push_piece(
            alloc,
            scoped,
            pattern,
            meanings,
            values,
            number as u32,
            *element,
            &mut lines,
        )?;
    }
    Ok(lines)
}

/// Adds the lines of an element's piece: its arranged steps, and its end.
fn push_piece(
    alloc: Global,
    scoped: &ScopedFile,
    pattern: &Pattern,
    meanings: &[Meaning],
    values: &[i128],
    number: u32,
    element: Element,
    lines: &mut Vec<RunLine>,
) -> Result<(), AllocError>
    requires known { AreNaturals meanings.now values.now }
    requires ends { MayEnd scoped.now.file.automaton pattern.now (unknown_value meanings.now values.now) number element }
    ensures { OnOk result (AddsPiece scoped.now.file.automaton pattern.now (unknown_value meanings.now values.now) number element lines.old.items lines.new.items) }
{
    let automaton = &scoped.file.automaton;
    let rules = automaton.rules.as_slice().len();
    let counts = counts_of(alloc, rules, meanings, values, number)?;
    let arranged = scoped.arrange(alloc, counts.as_slice())?;
    push_steps(arranged.steps.as_slice(), lines)?;
    push_end(lines, automaton, pattern, meanings, values, number, element)?;
    Ok(())
}

/// Adds steps, each a rule with its factor.
pub fn push_steps(steps: &[(u32, i128)], lines: &mut Vec<RunLine>) -> Result<(), AllocError>
    ensures added { OnOk result (lines.new.items ≡ lines.old.items ++ map step_line steps.now) }
    ensures fit { OnOk result (AllByRecursion (λ step. step.1 <ℤ pos (2 ^ 127)) steps.now) }
{
    for step in steps {
        lines.push(RunLine::Step {
            rule: step.0,
            factor: step.1,
        })?;
    }
    Ok(())
}

/// Adds the end of an element: the mark of an event, nothing for a rise, the single step of a fall.
fn push_end(
    lines: &mut Vec<RunLine>,
    automaton: &Automaton,
    pattern: &Pattern,
    meanings: &[Meaning],
    values: &[i128],
    number: u32,
    element: Element,
) -> Result<(), AllocError>
    requires known { AreNaturals meanings.now values.now }
    requires ends { MayEnd automaton.now pattern.now (unknown_value meanings.now values.now) number element }
    ensures { OnOk result (AddsPieceEnd automaton.now pattern.now (unknown_value meanings.now values.now) number element lines.old.items lines.new.items) }
{
    match element {
        Element::Event(event) => lines.push(RunLine::Mark { event })?,
        Element::Rise(_) => {}
        Element::Fall(_) => {
            let rules = automaton.rules.as_slice().len();
            let rule = single_of(rules, meanings, values, number);
            lines.push(RunLine::Step { rule, factor: 1 })?;
        }
    }
    Ok(())
}

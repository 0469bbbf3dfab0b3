//! The run that values stand for.
#![tactic(auto)]

ghost use Rattle.std.specs.Prelude.{◌≡◌, ◌≤◌, ◌<◌, ◌^◌, length, reverse, IfOk, IfErr, OnOk};
ghost use Rattle.ta_linear.specs.Terms.{IsNormal};
ghost use Rattle.ta_linear.specs.Values.{point_of};
ghost use Rattle.ta_counter.specs.Checks.{RowPasses, RowsOver, RowsPass};
ghost use Rattle.ta_automaton.specs.Narrow.{IsNarrow};
ghost use Rattle.ta_automaton.specs.Numbered.{OfPattern};
ghost use Rattle.ta_words.specs.Words.{LegalWord};
ghost use Rattle.ta_witness.specs.Witness.{IsSolution};
ghost use Rattle.ta_smt.specs.Admit.{AdmitFaultOf, Admits, asked, solution_of};
ghost use Rattle.ta_smt.specs.Inside.Checking.{BadRow, IsChecked, CheckFault, PassesCheck, RowFault, RunFault, IsRunOfValues, WordFault};

use crate::fault::AdmitFault;
use crate::spelling::word_of;
use crate::values::read_values;
use std::alloc::Global;
use ta_automaton::File;
use ta_base::List;
use ta_encode::{Solution, encode};
use ta_linear::{Row, System};
use ta_replay::Run;
use ta_scope::ScopedFile;
use ta_witness::{WitnessFault, witness};
use ta_words::{NarrowTask, Word, is_complete};

/// The run that the values of a text stand for, one for each unknown of a complete word's system. The
/// errors come in the order of their names.
pub fn admit(
    alloc: Global,
    scoped: &ScopedFile,
    pattern: u32,
    start_mask: u8,
    word: &Word,
    bytes: &[u8],
) -> Result<Run, AdmitFault>
    requires exists { pattern < length scoped.now.file.patterns }
    requires legal { OfPattern scoped.now.file pattern (λ p. LegalWord scoped.now.file.automaton p start_mask (reverse word.now)) }
    requires narrow { IsNarrow scoped.now.file.automaton }
    ensures run { IfOk result (λ run. Admits scoped.now.file (asked pattern start_mask word.now) bytes.now run) }
    ensures fault { IfErr result (AdmitFaultOf scoped.now.file (asked pattern start_mask word.now) bytes.now) }
{
    if !is_complete(NarrowTask::of(&scoped.file, pattern), word.elements()) {
        return Err(AdmitFault::Incomplete);
    }
    let values = read_values(alloc, bytes)?;
    check_word(
        alloc,
        &scoped.file,
        pattern,
        start_mask,
        word,
        values.as_slice(),
    )?;
    let run = run_of(alloc, scoped, pattern, start_mask, word, values)?;
    Ok(run)
}

/// Whether values are as many as the unknowns of a word's system, and each row holds at them.
fn check_word(
    alloc: Global,
    file: &File,
    pattern: u32,
    start_mask: u8,
    word: &Word,
    values: &[i128],
) -> Result<(), AdmitFault>
    requires exists { pattern < length file.now.patterns }
    requires legal { OfPattern file.now pattern (λ p. LegalWord file.now.automaton p start_mask (reverse word.now)) }
    requires narrow { IsNarrow file.now.automaton }
    ensures passes { OnOk result (PassesCheck file.now (asked pattern start_mask word.now) values.now) }
    ensures fault { IfErr result (WordFault file.now (asked pattern start_mask word.now) values.now) }
{
    let task = NarrowTask::of(file, pattern);
    let encoded = encode(alloc, task, start_mask, word, &[])?;
    check_values(&encoded.system, values)?;
    Ok(())
}

/// Whether values are as many as a system's unknowns, and each row holds at them.
fn check_values(system: &System, values: &[i128]) -> Result<(), AdmitFault>
    requires { length system.now.rows ≤ 2 ^ 32 }
    ensures passes { OnOk result (IsChecked system.now values.now) }
    ensures fault { IfErr result (CheckFault system.now values.now) }
{
    if values.len() != system.unknowns as usize {
        return Err(AdmitFault::Count(values.len() as u64));
    }
    check_rows(system.rows.as_slice(), values)?;
    Ok(())
}

/// Whether each row holds at values, in order.
fn check_rows(rows: &[Row], values: &[i128]) -> Result<(), AdmitFault>
    requires over { RowsOver (length values.now) rows.now }
    requires few { length rows.now ≤ 2 ^ 32 }
    ensures passes { OnOk result (RowsPass (point_of values.now) rows.now) }
    ensures fault { IfErr result (RowFault (point_of values.now) rows.now) }
{
    for (number, row) in rows.iter().enumerate() {
        check_row(row, values, number as u32)?;
    }
    Ok(())
}

/// Whether the row of a number holds at values.
fn check_row(row: &Row, values: &[i128], number: u32) -> Result<(), AdmitFault>
    requires { IsNormal 0 (length values.now) row.now.form.terms }
    ensures passes { OnOk result (RowPasses (point_of values.now) row.now) }
    ensures fault { IfErr result (BadRow (point_of values.now) row.now number) }
{
    match row.form.value_at(values) {
        Ok(value) if value >= 0 => Ok(()),
        Ok(_) => Err(AdmitFault::Row(number)),
        Err(_) => Err(AdmitFault::Overflow(number)),
    }
}

/// The run of values that solve a word's system.
fn run_of(
    alloc: Global,
    scoped: &ScopedFile,
    pattern: u32,
    start_mask: u8,
    word: &Word,
    values: Vec<i128>,
) -> Result<Run, AdmitFault>
    requires exists { pattern < length scoped.now.file.patterns }
    requires solves { IsSolution scoped.now.file (solution_of (asked pattern start_mask word.now) values.items) }
    requires narrow { IsNarrow scoped.now.file.automaton }
    ensures run { IfOk result (λ run. IsRunOfValues scoped.now.file (asked pattern start_mask word.now) values.items run) }
    ensures fault { IfErr result (RunFault scoped.now.file (asked pattern start_mask word.now) values.items) }
{
    let task = NarrowTask::of(&scoped.file, pattern);
    let Ok(word) = word_of(task, start_mask, word.elements()) else {
        unreachable!()
    };
    let solution = Solution {
        pattern,
        start_mask,
        word,
        values: List::from_vec(values),
    };
    match witness(alloc, scoped, &solution) {
        Ok(run) => Ok(run),
        Err(WitnessFault::Overflow) => Err(AdmitFault::Run),
        Err(WitnessFault::Memory) => Err(AdmitFault::Memory),
    }
}

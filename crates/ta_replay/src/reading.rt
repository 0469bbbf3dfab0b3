//! Reading a run from its text.
#![tactic(auto)]

ghost use Rattle.std.specs.Prelude.{◌≡◌, ◌≢◌, ◌+◌, ◌<◌, ◌≤◌, ◌^◌, ◌++◌, ◌∷◌, [], length, codes, slice_get, ℕ, ◌↔◌, ◌⊎◌, IsTrue, IfOk, IfErr, IsErrAnd, MatchOption};
ghost use Rattle.ta_replay.specs.RunText.{IsRunText, name_at, parameter_slots, start_slots};
ghost use Rattle.ta_replay.specs.TextFaults.{IsMalformedRun, IsMisnamed, TextFault};
ghost use Rattle.ta_replay.specs.Inside.Reading.{HeadRead, ValueRead, ValueRefused, ValuesRead, ValuesFault, IsStatement, StatementRefused, StepRead, StepRefused, StepsRead, StepsFault};

use crate::fault::RunFault;
use crate::names::{find_event, find_pattern, find_rule};
use crate::run::{Run, RunLine};
use crate::words::{read_named, read_valued};
use std::alloc::Global;
use ta_automaton::{Automaton, File, Pattern};
use ta_base::List;
use ta_base::bytes::split_at_byte;

/// A step fires its rule at least so often.
const LEAST: i128 = 1;

/// Reads the text of a run: a line for its pattern, one for each parameter and each initial
/// location in file order, its steps and marks, and `end`. The first wrong line is refused by N1
/// where its form may not stand there, and else by N2 where no run goes on with its name.
pub fn read_run(alloc: Global, file: &File, bytes: &[u8]) -> Result<Run, RunFault>
    ensures text { IfOk result (λ run. IsRunText file.now run bytes.now) }
    ensures one { IfOk result (λ run. (other : Run) → IsRunText file.now other bytes.now → other ≡ run) }
    ensures fault { IfErr result (λ fault. TextFault file.now bytes.now fault) }
    ensures only { (run : Run) → IsRunText file.now run bytes.now → IfErr result (λ fault. fault ≡ RunFault.Memory) }
    ensures malformed { (number : ℕ) → IsMalformedRun file.now bytes.now number → IsErrAnd result (λ fault. (fault ≡ RunFault.Line number) ⊎ (fault ≡ RunFault.Memory)) }
    ensures misnamed { (number : ℕ) → IsMisnamed file.now bytes.now number → IsErrAnd result (λ fault. (fault ≡ RunFault.Name number) ⊎ (fault ≡ RunFault.Memory)) }
{
    let run = run_of(alloc, file, bytes)?;
    Ok(run)
}

/// The run that a text says, or the first fault of the text.
fn run_of(alloc: Global, file: &File, bytes: &[u8]) -> Result<Run, RunFault>
    ensures text { IfOk result (λ run. IsRunText file.now run bytes.now) }
    ensures fault { IfErr result (λ fault. TextFault file.now bytes.now fault) }
{
    let (number, rest) = read_head(file, bytes)?;
    let automaton = &file.automaton;
    let (parameters, rest) = read_parameters(alloc, automaton, rest)?;
    let first = 2 + parameters.len() as u64;
    let (counts, rest) = read_counts(alloc, automaton, rest, first)?;
    let first = first + counts.len() as u64;
    let place = number as usize;
    let pattern = &file.patterns.as_slice()[place];
    let lines = read_steps(alloc, automaton, pattern, rest, first)?;
    Ok(Run {
        pattern: number,
        parameters: List::from_vec(parameters),
        counts: List::from_vec(counts),
        lines: List::from_vec(lines),
    })
}

/// The pattern that the first line names, and the bytes behind that line.
fn read_head<'a>(file: &File, bytes: &'a [u8]) -> Result<(u32, &'a [u8]), RunFault>
    ensures read { IfOk result (λ x. HeadRead file.now bytes.now x.0 x.1.now) }
    ensures fault { IfErr result (λ e. TextFault file.now bytes.now e) }
    ensures no_memory { IfErr result (λ e. e ≢ RunFault.Memory) }
{
    let Some((line, behind)) = split_at_byte(bytes, b'\n') else {
        return Err(RunFault::Line(1));
    };
    let Some(name) = read_named(b"run ", line) else {
        return Err(RunFault::Line(1));
    };
    match find_pattern(file.patterns.as_slice(), name) {
        Some(number) => Ok((number, behind)),
        None => Err(RunFault::Name(1)),
    }
}

/// The value that the first line gives under this name, and the bytes behind that line.
fn read_value<'a>(
    word: &[u8],
    name: &[u8],
    bytes: &'a [u8],
    number: u64,
) -> Result<(i128, &'a [u8]), RunFault>
    ensures read { IfOk result (λ x. ValueRead word.now name.now bytes.now x.0 x.1.now) }
    ensures fault { IfErr result (λ e. ValueRefused word.now name.now bytes.now number e) }
{
    let Some((line, behind)) = split_at_byte(bytes, b'\n') else {
        return Err(RunFault::Line(number));
    };
    let Some((found, value)) = read_valued(word, line) else {
        return Err(RunFault::Line(number));
    };
    if found == name {
        Ok((value, behind))
    } else {
        Err(RunFault::Name(number))
    }
}

/// The values of the parameters, whose lines begin with line 2.
fn read_parameters<'a>(
    alloc: Global,
    automaton: &Automaton,
    bytes: &'a [u8],
) -> Result<(Vec<i128>, &'a [u8]), RunFault>
    ensures read { IfOk result (λ x. ValuesRead (parameter_slots automaton.now) bytes.now x.0.items x.1.now) }
    ensures fault { IfErr result (λ e. ValuesFault (parameter_slots automaton.now) bytes.now 2 e) }
{
    let mut values = Vec::new(alloc);
    let mut rest = bytes;
    for name in automaton.parameters.as_slice() {
        let number = 2 + values.len() as u64;
        let (value, behind) = read_value(b"parameter ", name.as_str().as_bytes(), rest, number)?;
        values.push(value)?;
        rest = behind;
    }
    Ok((values, rest))
}

/// The name of a location.
pub fn location_name(automaton: &Automaton, location: u32) -> &str
    requires { location < length automaton.now.locations }
    ensures { result.now ≡ name_at automaton.now.locations location }
{
    automaton.locations.as_slice()[location as usize].as_str()
}

/// The counts at the initial locations, whose lines begin with this line.
fn read_counts<'a>(
    alloc: Global,
    automaton: &Automaton,
    bytes: &'a [u8],
    first: u64,
) -> Result<(Vec<i128>, &'a [u8]), RunFault>
    requires { first < 2 ^ 32 }
    ensures read { IfOk result (λ x. ValuesRead (start_slots automaton.now) bytes.now x.0.items x.1.now) }
    ensures fault { IfErr result (λ e. ValuesFault (start_slots automaton.now) bytes.now first e) }
{
    let mut values = Vec::new(alloc);
    let mut rest = bytes;
    for location in automaton.initial.as_slice() {
        let number = first + values.len() as u64;
        let name = location_name(automaton, *location);
        let (value, behind) = read_value(b"start ", name.as_bytes(), rest, number)?;
        values.push(value)?;
        rest = behind;
    }
    Ok((values, rest))
}

/// Whether a line is the last.
fn is_end(line: &[u8]) -> bool
    ensures { IsTrue result ↔ (line.now ≡ codes "end") }
{
    line == b"end".as_slice()
}

/// Whether nothing is left.
fn is_over(behind: &[u8]) -> bool
    ensures { IsTrue result ↔ (behind.now ≡ []) }
{
    behind.is_empty()
}

/// The step or the mark of a line, or none where it is the end.
fn read_statement(
    automaton: &Automaton,
    pattern: &Pattern,
    line: &[u8],
    number: u64,
) -> Result<Option<RunLine>, RunFault>
    requires { length pattern.now.events ≤ 8 }
    ensures read { IfOk result (λ found. IsStatement automaton.now pattern.now line.now found) }
    ensures fault { IfErr result (λ e. StatementRefused automaton.now pattern.now line.now number e) }
{
    if is_end(line) {
        return Ok(None);
    }
    if let Some(name) = read_named(b"mark ", line) {
        return match find_event(pattern.events.as_slice(), name) {
            Some(event) => Ok(Some(RunLine::Mark { event })),
            None => Err(RunFault::Name(number)),
        };
    }
    let Some((name, factor)) = read_valued(b"step ", line) else {
        return Err(RunFault::Line(number));
    };
    if factor < LEAST {
        return Err(RunFault::Line(number));
    }
    match find_rule(automaton.rules.as_slice(), name) {
        Some(rule) => Ok(Some(RunLine::Step { rule, factor })),
        None => Err(RunFault::Name(number)),
    }
}

/// The step or the mark of the first line and the bytes behind it, or none where the bytes are the end.
fn read_step<'a>(
    automaton: &Automaton,
    pattern: &Pattern,
    bytes: &'a [u8],
    number: u64,
) -> Result<Option<(RunLine, &'a [u8])>, RunFault>
    requires events { length pattern.now.events ≤ 8 }
    requires room { number + 1 < 2 ^ 64 }
    ensures read { IfOk result (λ found. MatchOption found (bytes.now ≡ codes "end" ++ (10 ∷ [])) (λ x. StepRead automaton.now pattern.now bytes.now x.0 x.1.now)) }
    ensures fault { IfErr result (λ e. StepRefused automaton.now pattern.now bytes.now number e) }
{
    let Some((line, behind)) = split_at_byte(bytes, b'\n') else {
        return Err(RunFault::Line(number));
    };
    match read_statement(automaton, pattern, line, number)? {
        Some(step) => Ok(Some((step, behind))),
        None if is_over(behind) => Ok(None),
        None => Err(RunFault::Line(number + 1)),
    }
}

/// The steps and marks up to the end, whose lines begin with this line.
fn read_steps(
    alloc: Global,
    automaton: &Automaton,
    pattern: &Pattern,
    bytes: &[u8],
    first: u64,
) -> Result<Vec<RunLine>, RunFault>
    requires events { length pattern.now.events ≤ 8 }
    requires room { first < 2 ^ 33 }
    ensures read { IfOk result (λ lines. StepsRead automaton.now pattern.now bytes.now lines.items) }
    ensures fault { IfErr result (λ e. StepsFault automaton.now pattern.now bytes.now first e) }
{
    let mut lines = Vec::new(alloc);
    let mut rest = bytes;
    'lines: while let Some((step, behind)) = read_step(
        automaton,
        pattern,
        rest,
        first + lines.len() as u64,
    )? {
        lines.push(step)?;
        rest = behind;
    }
    Ok(lines)
}

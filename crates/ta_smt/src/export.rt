//! The text of a system, for other solvers.
#![tactic(auto)]

ghost use Rattle.std.specs.Prelude.{◌≡◌, ◌==◌, ◌≤◌, ◌++◌, ◌∷◌, [], flat_map, if◌then◌else◌, length, map, string_bytes, IfOk, OnOk};
ghost use Rattle.std.specs.List.{range_with_len};
ghost use Rattle.ta_replay.specs.RunText.{lines_text};
ghost use Rattle.ta_smt.specs.Export.{DenotesSolutions, constant, multiple, natural_claim, on_side, part, row_claim, summed_term, summands, system_text};
ghost use Rattle.ta_smt.specs.Script.{assert_line, declare_line, term_text};
ghost use Rattle.ta_smt.specs.Inside.Leads.{led_text};

use crate::side::Side;
use std::alloc::{AllocError, Global};
use ta_base::Text;
use ta_linear::{Form, Row, System};

/// The text of a system as a script of SMT-LIB 2.6 in the logic QF_LIA: whole unknowns `uK`, each at
/// least 0, a line for each row, and the question whether there is a solution.
pub fn smt_text(alloc: Global, system: &System) -> Result<Text, AllocError>
    ensures text { IfOk result (λ text. text ≡ system_text system.now) }
    ensures denotes { IfOk result (λ text. DenotesSolutions system.now text) }
{
    let mut text = String::new(alloc);
    text.push_str("(set-logic QF_LIA)\n")?;
    push_declarations(&mut text, system.unknowns)?;
    push_naturals(&mut text, system.unknowns)?;
    push_rows(&mut text, system.rows.as_slice())?;
    text.push_str("(check-sat)\n")?;
    Ok(Text::from_string(text))
}

/// Adds a line that declares each unknown.
fn push_declarations(text: &mut String, unknowns: u32) -> Result<(), AllocError>
    ensures { OnOk result (string_bytes text.new ≡ string_bytes text.old ++ lines_text (map declare_line (range_with_len 0 unknowns))) }
{
    for number in 0..unknowns {
        write!(text, "(declare-fun u{} () Int)\n", number)?;
    }
    Ok(())
}

/// Adds a line that says that each unknown is at least 0.
fn push_naturals(text: &mut String, unknowns: u32) -> Result<(), AllocError>
    ensures { OnOk result (string_bytes text.new ≡ string_bytes text.old ++ lines_text (map assert_line (map natural_claim (range_with_len 0 unknowns)))) }
{
    for number in 0..unknowns {
        write!(text, "(assert (>= u{} 0))\n", number)?;
    }
    Ok(())
}

/// Adds a line for each row.
fn push_rows(text: &mut String, rows: &[Row]) -> Result<(), AllocError>
    ensures { OnOk result (string_bytes text.new ≡ string_bytes text.old ++ lines_text (map assert_line (map row_claim rows.now))) }
{
    for row in rows {
        push_row(text, row)?;
    }
    Ok(())
}

/// Adds the line of a row.
fn push_row(text: &mut String, row: &Row) -> Result<(), AllocError>
    ensures { OnOk result (string_bytes text.new ≡ string_bytes text.old ++ lines_text (assert_line (row_claim row.now) ∷ [])) }
{
    text.push_str("(assert (>= ")?;
    push_side(text, Side::Left, &row.form)?;
    text.push_str(" ")?;
    push_side(text, Side::Right, &row.form)?;
    text.push_str("))\n")?;
    Ok(())
}

/// Adds what stands on a side of a row.
fn push_side(text: &mut String, side: Side, form: &Form) -> Result<(), AllocError>
    ensures { OnOk result (string_bytes text.new ≡ string_bytes text.old ++ term_text (summed_term (summands side form.now))) }
{
    match count_summands(side, form) {
        0 => {
            text.push_str("0")?;
            Ok(())
        }
        1 => {
            push_summands(text, side, form, "")?;
            Ok(())
        }
        _ => push_sum(text, side, form),
    }
}

/// Adds the sum of two summands or more.
fn push_sum(text: &mut String, side: Side, form: &Form) -> Result<(), AllocError>
    requires { 2 ≤ length (summands side form.now) }
    ensures { OnOk result (string_bytes text.new ≡ string_bytes text.old ++ term_text (summed_term (summands side form.now))) }
{
    text.push_str("(+")?;
    push_summands(text, side, form, " ")?;
    text.push_str(")")?;
    Ok(())
}

/// How many summands stand on a side.
fn count_summands(side: Side, form: &Form) -> usize
    ensures { result ≡ length (summands side form.now) }
{
    let count = count_terms(side, form.terms.as_slice());
    count + count_of(part(side, form.constant))
}

/// How many terms stand on a side.
fn count_terms(side: Side, terms: &[(u32, i128)]) -> usize
    ensures count { result ≡ length (flat_map (on_side side) terms.now) }
    ensures few { result ≤ length terms.now }
{
    let mut count = 0;
    for term in terms {
        count += count_of(part(side, term.1));
    }
    count
}

/// How many summands a number makes: none for 0.
fn count_of(value: u128) -> usize
    ensures number { result ≡ (if value == 0 then 0 else 1) }
    ensures few { result ≤ 1 }
{
    if value == 0 { 0 } else { 1 }
}

/// Adds the summands of a side, with a text before each.
fn push_summands(text: &mut String, side: Side, form: &Form, lead: &str) -> Result<(), AllocError>
    ensures { OnOk result (string_bytes text.new ≡ string_bytes text.old ++ led_text lead.now (summands side form.now)) }
{
    push_terms(text, side, form.terms.as_slice(), lead)?;
    push_constant(text, part(side, form.constant), lead)?;
    Ok(())
}

/// Adds the terms of a side, with a text before each.
fn push_terms(
    text: &mut String,
    side: Side,
    terms: &[(u32, i128)],
    lead: &str,
) -> Result<(), AllocError>
    ensures { OnOk result (string_bytes text.new ≡ string_bytes text.old ++ led_text lead.now (flat_map (on_side side) terms.now)) }
{
    for term in terms {
        push_multiple(text, part(side, term.1), term.0, lead)?;
    }
    Ok(())
}

/// Adds a constant.
fn push_constant(text: &mut String, value: u128, lead: &str) -> Result<(), AllocError>
    ensures { OnOk result (string_bytes text.new ≡ string_bytes text.old ++ led_text lead.now (constant value)) }
{
    match value {
        0 => Ok(()),
        _ => write!(text, "{}{}", lead, value),
    }
}

/// Adds so many times an unknown.
fn push_multiple(text: &mut String, factor: u128, number: u32, lead: &str) -> Result<(), AllocError>
    ensures { OnOk result (string_bytes text.new ≡ string_bytes text.old ++ led_text lead.now (multiple factor number)) }
{
    match factor {
        0 => Ok(()),
        1 => write!(text, "{}u{}", lead, number),
        _ => write!(text, "{}(* {} u{})", lead, factor, number),
    }
}

/// What of a number stands on a side.
fn part(side: Side, value: i128) -> u128
    ensures { result ≡ part side value }
{
    match side {
        Side::Left if value > 0 => value.unsigned_abs(),
        Side::Right if value < 0 => value.unsigned_abs(),
        _ => 0,
    }
}

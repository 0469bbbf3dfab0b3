//! Values from their text.
#![tactic(auto)]

ghost use Rattle.std.specs.Prelude.{◌≡◌, ◌+◌, ◌<◌, ◌^◌, [], IfOk, IfErr, MatchOption};
ghost use Rattle.ta_smt.specs.Values.{IsValuesText};
ghost use Rattle.ta_smt.specs.Inside.Reading.{LineFault, NextValue, ValueFault};

use crate::fault::AdmitFault;
use std::alloc::Global;
use ta_base::bytes::split_at_byte;
use ta_replay::read_number;

/// The values of a text, one a line.
pub(crate) fn read_values(alloc: Global, bytes: &[u8]) -> Result<Vec<i128>, AdmitFault>
    ensures values { IfOk result (λ values. IsValuesText values.items bytes.now) }
    ensures fault { IfErr result (λ fault. LineFault bytes.now fault) }
{
    let mut values = Vec::new(alloc);
    let mut rest = bytes;
    'lines: while let Some((value, behind)) = read_value(rest, values.len() as u64)? {
        values.push(value)?;
        rest = behind;
    }
    Ok(values)
}

/// The value of the first line and the bytes behind it, or none where no line is left; so many lines
/// stand before it.
fn read_value(bytes: &[u8], before: u64) -> Result<Option<(i128, &[u8])>, AdmitFault>
    requires { before + 1 < 2 ^ 64 }
    ensures read { IfOk result (λ found. MatchOption found (bytes.now ≡ []) (λ x. NextValue bytes.now x.0 x.1.now)) }
    ensures fault { IfErr result (λ fault. ValueFault bytes.now before fault) }
{
    if bytes.is_empty() {
        return Ok(None);
    }
    let Some((line, behind)) = split_at_byte(bytes, b'\n') else {
        return Err(AdmitFault::Line(before + 1));
    };
    match read_number(line) {
        Some(value) => Ok(Some((value, behind))),
        None => Err(AdmitFault::Line(before + 1)),
    }
}

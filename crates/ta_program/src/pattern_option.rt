//! The pattern that a report is about, where one is asked for alone.
#![tactic(auto)]

ghost use Rattle.std.specs.Prelude.{◌≡◌, IfErr, IfOk, Some, option_map};
ghost use Rattle.ta_program.specs.Inside.Found.{PickRefused};
ghost use Rattle.ta_program.specs.PatternOption.{IsPick, PicksNamed};

use crate::limits::FILE_NUMBER;
use ta_automaton::File;
use ta_report::Pick;
use ta_shelf::{Phrase, Refusal};
use ta_smt::pattern_named;

/// The patterns of the file of a name that are picked: all, or the one with the name that is given.
pub(crate) fn find_pick<'a>(
    name: &'a str,
    file: &File,
    pattern: Option<&str>,
) -> Result<Pick, Refusal<'a>>
    ensures pick { IfOk result (IsPick file.now (option_map (λ w. w.now) pattern.entry)) }
    ensures refusal { IfErr result (PickRefused name.now file.now (option_map (λ w. w.now) pattern.entry)) }
{
    match pattern {
        None => Ok(Pick::All),
        Some(text) => find_named(name, file, text),
    }
}

/// The pattern of a name alone.
fn find_named<'a>(name: &'a str, file: &File, pattern: &str) -> Result<Pick, Refusal<'a>>
    ensures pick { IfOk result (PicksNamed file.now pattern.now) }
    ensures refusal { IfErr result (PickRefused name.now file.now (Some pattern.now)) }
{
    match pattern_named(file.patterns.as_slice(), pattern) {
        Some(number) => Ok(Pick::One(number)),
        None => Err(Refusal::Refused {
            number: FILE_NUMBER,
            name,
            why: Phrase::Plain("F4 unknown name at offset 0"),
        }),
    }
}

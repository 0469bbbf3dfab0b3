//! The endings of a file's patterns, for the commands on runs that end in a deadlock.
#![tactic(auto)]

ghost use Rattle.std.specs.Prelude.{◌≡◌, IfErr, IfOk};
ghost use Rattle.ta_shelf.specs.Lines.{phrase_text};
ghost use Rattle.ta_program.specs.Inside.Found.{EndsRefused};
ghost use Rattle.ta_program.specs.RestEnds.{IsEnds, cycle_text, ends_of};

use crate::limits::FILE_NUMBER;
use std::alloc::Global;
use ta_rest::{RestFault, RestFile, rest_scope};
use ta_scope::ScopedFile;
use ta_shelf::{Phrase, Refusal};

/// The endings of the patterns of a file of a name, where its cycles of rules are self-loops.
pub(crate) fn find_ends<'a>(
    alloc: Global,
    name: &'a str,
    scoped: ScopedFile,
) -> Result<RestFile, Refusal<'a>>
    ensures ends { IfOk result (λ rest. IsEnds scoped.file (ends_of rest)) }
    ensures refusal { IfErr result (EndsRefused name.now scoped.file) }
{
    match rest_scope(alloc, scoped) {
        Ok(rest) => Ok(rest),
        Err(RestFault::Cycle(rule)) => Err(Refusal::Refused {
            number: FILE_NUMBER,
            name,
            why: cycle_phrase(rule),
        }),
        Err(RestFault::Memory) => Err(Refusal::Memory),
    }
}

/// Why a file has no endings.
fn cycle_phrase(rule: u32) -> Phrase
    ensures { phrase_text result ≡ cycle_text rule }
{
    Phrase::One {
        head: "F14 longer cycle at rule ",
        number: u128::from(rule),
        tail: "",
    }
}

//! That no output destroys what was read, or what is written to another output.
#![tactic(auto)]

ghost use Rattle.std.specs.Prelude.{◌≡◌, ◌<◌, ◌^◌, ◌∷◌, [], length, option_map};
ghost use Rattle.ta_shelf.specs.Calls.{Grew};
ghost use Rattle.ta_shelf.specs.Lines.{holds_read};
ghost use Rattle.ta_shelf.specs.Puts.{may_put, output_names};
ghost use Rattle.ta_shelf.specs.Reading.{ReadCause};
ghost use Rattle.ta_shelf.specs.Sparing.{Compares, Parts, Protects};

use crate::answer::{Outputs, Refusal};
use crate::phrase::Phrase;
use crate::{Shelf, ShelfFault, holds};

/// Compares what the files of a command's outputs hold with bytes that were read, and asks whether two
/// outputs lead to the same place: no output destroys these bytes, by whatever name they were read, nor
/// what is written to the other.
pub fn spare_read<'a, S: Shelf>(
    shelf: &mut S,
    outputs: &Outputs<'a>,
    read: &[u8],
) -> Result<(), Refusal<'a>>
    requires { length read.now < 2 ^ 63 }
    ensures spares { Grew (Protects (S.files shelf.old) (output_names outputs.now) read.now result) (S.calls shelf.old) (S.calls shelf.new) }
    ensures cause { ReadCause result (S.faults shelf.old) (S.faults shelf.new) }
    ensures kept { S.files shelf.new ≡ S.files shelf.old }
{
    let spared = spare_each(shelf, outputs, read);
    match spared {
        Ok(()) => part_outputs(shelf, outputs),
        Err(_) => spared,
    }
}

/// Asks whether outputs lead to the same place, where there are two.
fn part_outputs<'a, S: Shelf>(shelf: &mut S, outputs: &Outputs<'a>) -> Result<(), Refusal<'a>>
    ensures parts { Grew (Parts (S.files shelf.old) (output_names outputs.now) result) (S.calls shelf.old) (S.calls shelf.new) }
    ensures cause { ReadCause result (S.faults shelf.old) (S.faults shelf.new) }
    ensures kept { S.files shelf.new ≡ S.files shelf.old }
{
    match (outputs.first, outputs.second) {
        (Some(first), Some(second)) => part(shelf, first, second),
        _ => Ok(()),
    }
}

/// Asks whether the second of two outputs leads to the same place as the first.
fn part<'a, S: Shelf>(shelf: &mut S, first: &'a str, second: &'a str) -> Result<(), Refusal<'a>>
    ensures parts { Grew (Parts (S.files shelf.old) (first.now ∷ second.now ∷ []) result) (S.calls shelf.old) (S.calls shelf.new) }
    ensures cause { ReadCause result (S.faults shelf.old) (S.faults shelf.new) }
    ensures kept { S.files shelf.new ≡ S.files shelf.old }
{
    match shelf.same_place(second, first) {
        Ok(false) => Ok(()),
        Ok(true) => Err(Refusal::Refused {
            number: 4,
            name: second,
            why: Phrase::Plain("holds what was written"),
        }),
        Err(ShelfFault::Memory) => Err(Refusal::Memory),
        Err(ShelfFault::Failed) => Err(Refusal::ReadFailed { name: second }),
        Err(ShelfFault::Missing) => unreachable!(),
    }
}

/// Compares what the files of a command's outputs hold with bytes that were read.
fn spare_each<'a, S: Shelf>(
    shelf: &mut S,
    outputs: &Outputs<'a>,
    read: &[u8],
) -> Result<(), Refusal<'a>>
    requires { length read.now < 2 ^ 63 }
    ensures spares { Grew (Compares (S.files shelf.old) (output_names outputs.now) read.now holds_read result) (S.calls shelf.old) (S.calls shelf.new) }
    ensures cause { ReadCause result (S.faults shelf.old) (S.faults shelf.new) }
    ensures kept { S.files shelf.new ≡ S.files shelf.old }
{
    let first = spare_given(shelf, outputs.first, read);
    match first {
        Ok(()) => spare_given(shelf, outputs.second, read),
        Err(_) => first,
    }
}

/// The same of one name, where it is given.
fn spare_given<'a, S: Shelf>(
    shelf: &mut S,
    name: Option<&'a str>,
    read: &[u8],
) -> Result<(), Refusal<'a>>
    requires { length read.now < 2 ^ 63 }
    ensures spares { Grew (Compares (S.files shelf.old) (may_put (option_map (λ w. w.now) name.entry)) read.now holds_read result) (S.calls shelf.old) (S.calls shelf.new) }
    ensures cause { ReadCause result (S.faults shelf.old) (S.faults shelf.new) }
    ensures kept { S.files shelf.new ≡ S.files shelf.old }
{
    match name {
        None => Ok(()),
        Some(name) => spare(shelf, name, read, "holds what was read"),
    }
}

/// Compares what the file of a name holds with bytes; where it holds just these, that is told in these
/// words.
fn spare<'a, S: Shelf>(
    shelf: &mut S,
    name: &'a str,
    bytes: &[u8],
    words: &'static str,
) -> Result<(), Refusal<'a>>
    requires { length bytes.now < 2 ^ 63 }
    ensures spares { Grew (Compares (S.files shelf.old) (name.now ∷ []) bytes.now words.now result) (S.calls shelf.old) (S.calls shelf.new) }
    ensures cause { ReadCause result (S.faults shelf.old) (S.faults shelf.new) }
    ensures kept { S.files shelf.new ≡ S.files shelf.old }
{
    match holds(shelf, name, bytes) {
        Ok(false) => Ok(()),
        Ok(true) => Err(Refusal::Refused {
            number: 4,
            name,
            why: Phrase::Plain(words),
        }),
        Err(ShelfFault::Memory) => Err(Refusal::Memory),
        // a name without a file holds no bytes, and that is no error
        Err(ShelfFault::Missing | ShelfFault::Failed) => Err(Refusal::ReadFailed { name }),
    }
}

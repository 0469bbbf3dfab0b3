//! The one line on standard error. It takes no memory.
#![tactic(auto)]

ghost use Rattle.std.specs.Prelude.{◌≡◌, ◌++◌, decimal};
ghost use Rattle.ta_shelf.specs.WriteWhole.{AddsWhole, HasCause};
ghost use Rattle.ta_shelf.specs.Ends.{SinkState, Tells};
ghost use Rattle.ta_shelf.specs.Lines.{file_line, halt_line, halt_number, refusal_line, refusal_number, phrase_text, piece_text, pieces_text};

use crate::answer::Refusal;
use crate::phrase::{Phrase, Piece};
use crate::putting::Halt;
use crate::{Sink, SinkFault, write_whole};
use itoa::Buffer;

/// Writes a line, or as much of it as the sink takes.
pub fn tell_line<E: Sink>(err: &mut E, line: &str)
    ensures { Tells line.now (record { written = E.written err.old; faults = E.faults err.old; stalls = E.stalls err.old })
        (record { written = E.written err.new; faults = E.faults err.new; stalls = E.stalls err.new }) }
{
    let _ = write_whole(err, line.as_bytes());
}

/// Tells what hinders, and answers its number.
pub(crate) fn tell_refusal<E: Sink>(refusal: &Refusal<'_>, err: &mut E) -> u8
    ensures number { result ≡ refusal_number refusal.now }
    ensures told { Tells (refusal_line refusal.now) (record { written = E.written err.old; faults = E.faults err.old; stalls = E.stalls err.old })
        (record { written = E.written err.new; faults = E.faults err.new; stalls = E.stalls err.new }) }
{
    match refusal {
        Refusal::Refused { number, name, why } => {
            tell_of_file(err, name, why);
            *number
        }
        Refusal::ReadFailed { name } => {
            tell_of_file(err, name, &Phrase::Plain("read failed"));
            6
        }
        Refusal::PutFailed { name } => {
            tell_of_file(err, name, &Phrase::Plain("write failed"));
            6
        }
        Refusal::Memory => {
            tell_line(err, "tav: out of memory\n");
            7
        }
    }
}

/// Tells why files or a text weren't put, and answers the number.
pub(crate) fn tell_halt<E: Sink>(halt: &Halt<'_>, err: &mut E) -> u8
    ensures number { result ≡ halt_number halt.now }
    ensures told { Tells (halt_line halt.now) (record { written = E.written err.old; faults = E.faults err.old; stalls = E.stalls err.old })
        (record { written = E.written err.new; faults = E.faults err.new; stalls = E.stalls err.new }) }
{
    match halt {
        Halt::Unwritten => {
            tell_line(err, "tav: output failed\n");
            6
        }
        Halt::Unput { name } => {
            tell_of_file(err, name, &Phrase::Plain("write failed"));
            6
        }
        Halt::Memory => {
            tell_line(err, "tav: out of memory\n");
            7
        }
    }
}

/// Tells something of a file.
fn tell_of_file<E: Sink>(err: &mut E, name: &str, why: &Phrase)
    ensures { Tells (file_line name.now (phrase_text why.now)) (record { written = E.written err.old; faults = E.faults err.old; stalls = E.stalls err.old })
        (record { written = E.written err.new; faults = E.faults err.new; stalls = E.stalls err.new }) }
{
    match *why {
        Phrase::Plain(words) => tell_pieces(err, &plain_pieces(name, words)),
        Phrase::One { head, number, tail } => {
            tell_pieces(err, &pieces_of_one(name, head, number, tail));
        }
        Phrase::Two {
            head,
            first,
            middle,
            second,
            tail,
        } => tell_pieces(err, &pieces_of_two(name, head, first, middle, second, tail)),
    }
}

/// The pieces of the line about a file that says these words.
fn plain_pieces<'a>(name: &'a str, words: &'a str) -> [Piece<'a>; 5]
    ensures { pieces_text result ≡ file_line name.now words.now }
{
    [
        Piece::Words("tav: "),
        Piece::Words(name),
        Piece::Words(": "),
        Piece::Words(words),
        Piece::Words("\n"),
    ]
}

/// The pieces of the line about a file that says a number.
fn pieces_of_one<'a>(name: &'a str, head: &'a str, number: u128, tail: &'a str) -> [Piece<'a>; 7]
    ensures { pieces_text result ≡ file_line name.now (head.now ++ (decimal number ++ tail.now)) }
{
    [
        Piece::Words("tav: "),
        Piece::Words(name),
        Piece::Words(": "),
        Piece::Words(head),
        Piece::Number(number),
        Piece::Words(tail),
        Piece::Words("\n"),
    ]
}

/// The pieces of the line about a file that says two numbers.
fn pieces_of_two<'a>(
    name: &'a str,
    head: &'a str,
    first: u64,
    middle: &'a str,
    second: u64,
    tail: &'a str,
) -> [Piece<'a>; 9]
    ensures { pieces_text result ≡ file_line name.now (head.now ++ (decimal first ++ (middle.now ++ (decimal second ++ tail.now)))) }
{
    [
        Piece::Words("tav: "),
        Piece::Words(name),
        Piece::Words(": "),
        Piece::Words(head),
        Piece::Number(u128::from(first)),
        Piece::Words(middle),
        Piece::Number(u128::from(second)),
        Piece::Words(tail),
        Piece::Words("\n"),
    ]
}

/// Writes pieces one after the other, or as much of them as the sink takes.
fn tell_pieces<E: Sink>(err: &mut E, pieces: &[Piece<'_>])
    ensures { Tells (pieces_text pieces.now) (record { written = E.written err.old; faults = E.faults err.old; stalls = E.stalls err.old })
        (record { written = E.written err.new; faults = E.faults err.new; stalls = E.stalls err.new }) }
{
    for piece in pieces {
        match write_piece(err, piece) {
            Ok(()) => {}
            Err(_) => return,
        }
    }
}

/// Writes a piece.
fn write_piece<E: Sink>(err: &mut E, piece: &Piece<'_>) -> Result<(), SinkFault>
    ensures adds { AddsWhole result (piece_text piece.now) (E.written err.old) (E.written err.new) }
    ensures cause { HasCause result (E.faults err.old) (E.faults err.new) (E.stalls err.old) (E.stalls err.new) }
{
    match piece {
        Piece::Words(words) => write_whole(err, words.as_bytes()),
        Piece::Number(number) => {
            let mut buffer = Buffer::new();
            write_whole(err, buffer.format(*number).as_bytes())
        }
    }
}

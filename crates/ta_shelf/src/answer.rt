//! What a command answers.
#![tactic(auto)]

ghost use Rattle.std.specs.Prelude.{◌≡◌, ◌∷◌, [], IfOk, option_map};
ghost use Rattle.ta_shelf.specs.Puts.{may_put, output_names};
ghost use Rattle.ta_shelf.specs.Stages.{Writes};

use crate::phrase::Phrase;
use std::alloc::{AllocError, Global};
use ta_base::{List, Text};

/// What a file is to hold.
#[derive(Drop)]
pub enum Content {
    /// A text in pieces. So a long text, which grew in pieces, is never copied.
    Pieces(List<Text>),
    /// Bytes, which need not be a text.
    Bytes(List<u8>),
}

/// A file to be put on the shelf: its name, and what it is to hold.
#[derive(Drop)]
pub struct Put {
    pub name: Text,
    pub content: Content,
}

/// The names of the files that a command may put on the shelf.
#[derive(Clone, Copy, Debug, Drop)]
pub struct Outputs<'a> {
    pub first: Option<&'a str>,
    pub second: Option<&'a str>,
}

impl<'a> Outputs<'a> {
    /// None.
    pub fn none() -> Outputs<'a>
        ensures { output_names result ≡ [] }
    {
        Outputs {
            first: None,
            second: None,
        }
    }

    /// One, where it is given.
    pub fn one(name: Option<&'a str>) -> Outputs<'a>
        ensures { output_names result ≡ may_put (option_map (λ w. w.now) name.entry) }
    {
        Outputs {
            first: None,
            second: name,
        }
    }
}

/// A text, and the number that the process ends with once it is written. The files are made before, and
/// put in their places behind it, the last one first.
#[derive(Drop)]
pub struct Answer {
    pub number: u8,
    pub text: Text,
    pub puts: List<Put>,
}

/// What hinders a command; `name` is the file's word.
#[derive(Clone, Copy, Drop)]
pub enum Refusal<'a> {
    /// A file is no use, and the process ends with this number.
    Refused {
        number: u8,
        name: &'a str,
        why: Phrase,
    },
    /// The shelf failed at reading a file.
    ReadFailed {
        name: &'a str,
    },
    /// The shelf failed at putting a file.
    PutFailed {
        name: &'a str,
    },
    /// There was no memory.
    Memory,
}

impl Answer {
    /// The answer that writes a text and puts no file. It takes no memory.
    pub fn writing(alloc: Global, number: u8, text: Text) -> Answer
        ensures { Writes number text result }
    {
        Answer {
            number,
            text,
            puts: List::from_vec(Vec::new(alloc)),
        }
    }

    /// The answer that puts a file and then writes a text.
    pub fn putting(alloc: Global, number: u8, text: Text, put: Put) -> Result<Answer, AllocError>
        ensures { IfOk result (λ answer. (answer.number ≡ number) × (answer.text ≡ text) × (answer.puts ≡ put ∷ [])) }
    {
        let mut puts = Vec::new(alloc);
        puts.push(put)?;
        Ok(Answer {
            number,
            text,
            puts: List::from_vec(puts),
        })
    }
}

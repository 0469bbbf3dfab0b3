//! Words with numbers among them. They take no memory.
#![tactic(auto)]

/// What is said of a file, with up to two numbers in it.
#[derive(Clone, Copy, Debug, Drop)]
pub enum Phrase {
    /// Words alone.
    Plain(&'static str),
    /// A number between words.
    One {
        head: &'static str,
        number: u128,
        tail: &'static str,
    },
    /// Two numbers among words.
    Two {
        head: &'static str,
        first: u64,
        middle: &'static str,
        second: u64,
        tail: &'static str,
    },
}

impl Phrase {
    ghost use Rattle.std.specs.Prelude.{◌≡◌, ◌++◌, decimal};
    ghost use Rattle.ta_shelf.specs.Lines.{phrase_text};

    /// A number between words.
    pub fn between(head: &'static str, number: u64, tail: &'static str) -> Phrase
        ensures { phrase_text result ≡ head.now ++ (decimal number ++ tail.now) }
    {
        Phrase::One {
            head,
            number: u128::from(number),
            tail,
        }
    }
}

/// A piece of a line.
#[derive(Clone, Copy, Drop)]
pub enum Piece<'a> {
    Words(&'a str),
    Number(u128),
}

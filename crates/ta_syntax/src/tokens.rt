//! The tokens of a text.
#![tactic(auto)]

use ta_base::Text;

/// A sign or a keyword.
#[derive(Clone, Copy, Debug, PartialEq, Eq)]
pub enum Mark {
    Semicolon,
    Comma,
    Colon,
    OpenBrace,
    CloseBrace,
    Open,
    Close,
    Star,
    Plus,
    Minus,
    PlusEquals,
    Arrow,
    Less,
    AtMost,
    Equal,
    AtLeast,
    More,
    Automaton,
    Parameters,
    Shared,
    Locations,
    Initial,
    Processes,
    Resilience,
    Rule,
    When,
    Do,
    Pattern,
    Start,
    Empty,
    Event,
    After,
}

/// What a token is.
#[derive(Drop)]
pub enum Kind {
    Name(Text),
    Number(Text),
    Fixed(Mark),
}

/// How the two sums of a comparison are compared.
#[derive(Clone, Copy, Debug, PartialEq, Eq)]
pub enum Relation {
    Less,
    AtMost,
    Equal,
    AtLeast,
    More,
}

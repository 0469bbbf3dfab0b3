//! What a row gives, as it is written.
#![tactic(auto)]

use std::alloc::{AllocError, Global};
use std::fmt::{Debug, Display};

/// A text, and whether memory ran out as it was written.
#[derive(Drop)]
pub struct Given {
    pub alloc: Global,
    text: String,
    ended: Result<(), AllocError>,
}

impl Given {
    pub fn new(alloc: Global) -> Given {
        Given {
            alloc,
            text: String::new(alloc),
            ended: Ok(()),
        }
    }

    /// The text so far.
    pub fn as_str(&self) -> &str {
        self.text.as_str()
    }

    /// The text, unless memory ran out.
    pub fn whole(&self) -> Result<&str, AllocError> {
        self.ended.and(Ok(self.text.as_str()))
    }

    /// Notes whether memory ran out.
    pub fn note(&mut self, ended: Result<(), AllocError>) {
        self.ended = self.ended.and(ended);
    }

    pub fn say(&mut self, word: &str) {
        let ended = self.text.push_str(word);
        self.note(ended);
    }

    /// Writes the last word. An error says that memory ran out.
    pub fn end(&mut self, word: &str) -> Result<(), AllocError> {
        self.say(word);
        self.ended
    }

    /// Writes a number behind a word.
    pub fn number<N: Display + Drop>(&mut self, before: &str, number: N) {
        self.say(before);
        let ended = write!(self.text, "{number}");
        self.note(ended);
    }

    /// Writes a value as its type's derived text.
    pub fn value<T: Debug>(&mut self, value: &T) {
        let ended = write!(self.text, "{value:?}");
        self.note(ended);
    }

    /// Writes pairs, each behind a space.
    pub fn pairs(&mut self, between: &str, pairs: &[(u32, i128)]) {
        for &(first, second) in pairs {
            self.number(" ", first);
            self.number(between, second);
        }
    }

    /// Writes another text.
    pub fn add(&mut self, other: &Given) {
        self.say(other.as_str());
        self.note(other.ended);
    }

    /// Whether another text is the same. One that isn't is written behind how it came.
    pub fn is_same(&mut self, other: &Given, how: &str, number: usize) -> bool {
        let is_same = self.as_str() == other.as_str();
        if !is_same {
            self.say("\nbut ");
            self.number(how, number);
            self.say(": ");
            self.add(other);
        }
        is_same
    }
}

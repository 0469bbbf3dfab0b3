//! Automaton files: tokens, trees, reading and printing.
//!
//! The grammar is one function from trees to tokens for each production, so that tokens are of the
//! grammar is an equation (`file_kinds`). The same grammar stands as data in `FileGrammar`, and
//! `parse` is one parser for all such grammars, with one token of lookahead: each reader answers
//! what `parse` does. A limit is a part that is barred: its texts are texts of the grammar, but the
//! parser stops before them. The limits of a file's lists are an argument of `read_tree`, and what
//! is proved holds for every row of them. How the first parse error is proved: which tokens may
//! begin and follow a part is computed, and no two choices begin alike, so a token at which `parse`
//! stops is wrong in every text; every part has some text, so the tokens before it always begin a
//! file.
#![tactic(auto)]

mod answers;
mod blocks;
mod clauses;
mod fault;
mod file;
mod items;
mod laws;
mod lists;
mod marks;
mod names;
mod placed;
mod printing;
mod reading;
mod reading_back;
mod relations;
mod rules;
mod scanner;
mod sums;
mod tokens;
mod tree;

pub use answers::{texts_have_tokens, texts_have_trees, tokens_have_answers};
pub use fault::FileFault;
pub use file::read_tree;
pub use laws::{printed_has_tokens, tokens_are_unique};
pub use names::{Digits, Spelled};
pub use placed::Token;
pub use printing::print_tree;
pub use reading_back::print_then_read;
pub use sums::{Sign, TreeFactor, TreeSum, TreeTerm};
pub use tokens::{Kind, Mark, Relation};
pub use tree::{Tree, TreeComparison, TreeEvent, TreeLocation, TreePattern, TreeRule, TreeUpdate};

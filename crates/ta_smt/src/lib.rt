//! Systems as texts for other solvers, and runs from the values that they find.
#![tactic(auto)]

mod admitting;
mod export;
mod fault;
mod laws;
mod named;
mod reading;
mod side;
mod spelling;
mod values;

pub use admitting::admit;
pub use export::smt_text;
pub use fault::{AdmitFault, WordFault};
pub use laws::{admits_are_exact, faults_are_determined, scripts_are_determined, words_are_exact};
pub use named::{NamedWord, named_word, pattern_named, whole_word, word_text};
pub use reading::{are_elements, are_names, is_name, read_elements, start_of};
pub use spelling::word_of;

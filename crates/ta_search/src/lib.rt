//! Templates: automaton files with holes for coefficients, and the search for values with which
//! every pattern is safe.
//!
//! Vectors of values are tried in lexicographic order. A filled text is read, sampled and judged
//! like any file; the first one whose patterns are all safe ends the search.
#![tactic(auto)]

mod beside;
mod certificate;
mod fault;
mod filling;
mod laws;
mod lines;
mod object;
mod outcome;
mod printing;
mod reading;
mod searching;
mod template;
mod terms;
mod vector;

pub use certificate::CertificateText;
pub use fault::TemplateFault;
pub use filling::fill;
pub use laws::{
    searches_are_determined, searches_are_read, template_faults_are_determined,
    templates_are_determined, texts_are_templates, vectors_are_choices,
};
pub use object::{search_json, search_told};
pub use outcome::{Outcome, SearchEnd, Tried};
pub use printing::search_text;
pub use reading::read_template;
pub use searching::search;
pub use template::{Hole, Template};
pub use terms::Terms;

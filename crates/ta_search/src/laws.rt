//! What templates and their searches are sure of. The functions do nothing but cite the laws of the
//! crates below: their contracts state the laws.
#![tactic(auto)]

ghost use Rattle.ta_search.specs.Laws.{OneTemplate, OneTemplateFault, TemplatesHaveAnswers};
ghost use Rattle.ta_search.specs.SearchJson.{SearchIsRead};
ghost use Rattle.ta_search.specs.Searching.{SearchesAreDetermined};
ghost use Rattle.ta_search.specs.Vectors.{VectorsAreChoices};

use ta_meaning::meanings_are_unique;
use ta_verdict::{certificates_are_determined, verdicts_are_determined};

/// A text is that of one template at most.
pub fn templates_are_determined()
    ensures { OneTemplate }
{}

/// A template's text has no error, and another text one at most.
pub fn template_faults_are_determined()
    ensures { OneTemplateFault }
{}

/// Each text is that of a template, or has a first error.
pub fn texts_are_templates()
    ensures { TemplatesHaveAnswers }
{}

/// A template has one end of its search for a budget and by a row of limits, and so one text.
pub fn searches_are_determined()
    ensures { SearchesAreDetermined }
{
    meanings_are_unique();
    verdicts_are_determined();
    certificates_are_determined()
}

/// The line of JSON of a search is read as what it says.
pub fn searches_are_read()
    ensures { SearchIsRead }
{}

/// The vectors of a template are just the choices of a value for each hole, in lexicographic order.
pub fn vectors_are_choices()
    ensures { VectorsAreChoices }
{}

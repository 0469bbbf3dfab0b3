//! What the files that a command refuses have to do with what it tells. The functions do nothing
//! but cite the laws of the crates below: their contracts state the laws.
#![tactic(auto)]

ghost use Rattle.ta_automaton.specs.declared.file.File.{File};
ghost use Rattle.ta_base.specs.declared.limits.Limits.{Limits};
ghost use Rattle.ta_smt.specs.Admit.{AskedWord};
ghost use Rattle.ta_program.specs.Admit.{values_kind};
ghost use Rattle.ta_program.specs.Compress.{long_kind};
ghost use Rattle.ta_program.specs.Faults.{FaultsAreNamed, OneFault};
ghost use Rattle.ta_program.specs.Laws.{CompressNamesTheRange};
ghost use Rattle.ta_check.specs.Subjects.{Subject};
ghost use Rattle.ta_program.specs.Kinds.{certificate_kind, file_kind, run_kind};
ghost use Rattle.ta_program.specs.Search.{template_kind};

use ta_meaning::meanings_are_unique;

/// The bytes of FILE, of CERT, of RUN for `replay` and for `compress`, of VALUES and of a template have
/// one error at most, which is the first.
pub fn faults_are_determined()
    ensures file { (l : Limits) → OneFault (file_kind l) }
    ensures certificate { (subject : Subject) → OneFault (certificate_kind subject) }
    ensures replayed { (file : File) → OneFault (run_kind file) }
    ensures compressed { (file : File) → OneFault (long_kind file) }
    ensures values { (file : File) (word : AskedWord) → OneFault (values_kind file word) }
    ensures template { (l : Limits) → OneFault (template_kind l) }
{
    meanings_are_unique()
}

/// Told files hinder a command with one number and one line at most, and its run ends with that number
/// and tells that line, 6 and 7 aside.
pub fn faults_are_named()
    ensures { FaultsAreNamed }
{
    meanings_are_unique()
}

/// A run whose guards leave the range on its way is refused by `compress` with N11 and the line of the
/// first that does, 6 and 7 aside.
pub fn compress_names_the_range()
    ensures { CompressNamesTheRange }
{
    meanings_are_unique()
}

//! What a text tells. The functions do nothing: their contracts state the laws.
#![tactic(auto)]

ghost use Rattle.ta_report.specs.CheckJson.{ProofsAreRead, ToldProved};
ghost use Rattle.ta_report.specs.Json.{JsonIsDistinct, JsonIsRead, JsonRuns, JsonSafe, JsonUnsafe};
ghost use Rattle.ta_report.specs.Printed.{PrintedRestSafe, PrintedRestUnsafe, PrintedSafe, PrintedUnsafe};
ghost use Rattle.ta_report.specs.PrintedRuns.{PrintedRuns, RunsArePrinted};
ghost use Rattle.ta_report.specs.Report.{ReportsAreDistinct};

/// It does nothing: its contract states that two reports of a file with one text have the same
/// sample and the same verdicts, and the same runs inside, and so have two lines of JSON.
pub fn reports_are_distinct()
    ensures text { ReportsAreDistinct }
    ensures json { JsonIsDistinct }
{}

/// It does nothing: its contract states that a pattern that is printed as safe has the verdict
/// Safe, and one printed as unsafe the verdict Unsafe.
pub fn lines_tell()
    ensures safe { PrintedSafe }
    ensures unsafe_ { PrintedUnsafe }
{}

/// It does nothing: its contract states the same of the reports of `rest`.
pub fn rest_lines_tell()
    ensures safe { PrintedRestSafe }
    ensures unsafe_ { PrintedRestUnsafe }
{}

/// It does nothing: its contract states that the lines behind that of an unsafe pattern, up to the
/// next pattern's or the end, are the text of its run, in a report and in that of `rest`.
pub fn runs_are_printed()
    ensures there { RunsArePrinted }
    ensures only { PrintedRuns }
{}

/// It does nothing: its contract states that a pattern that the text of `check` or `rest-check`
/// calls proved is among the proved ones, and that its line of JSON is read as what it says.
pub fn proofs_tell()
    ensures proved { ToldProved }
    ensures read { ProofsAreRead }
{}

/// It does nothing: its contract states that the line of JSON is read as the report, that a pattern
/// that it says is safe has the verdict Safe, that one that it says is unsafe has the verdict Unsafe
/// and the lines of its run, and that nothing else is there as its run.
pub fn json_tells()
    ensures read { JsonIsRead }
    ensures safe { JsonSafe }
    ensures unsafe_ { JsonUnsafe }
    ensures runs { JsonRuns }
{}

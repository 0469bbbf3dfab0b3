//! What is wrong in a file, a certificate or a run, in words. It takes no memory.
#![tactic(auto)]

ghost use Rattle.std.specs.Prelude.{◌≡◌, ◌++◌, decimal};
ghost use Rattle.ta_shelf.specs.Lines.{phrase_text};
ghost use Rattle.ta_report.specs.Faults.{cert_fault_text, file_fault_text, run_fault_text};

use ta_cert::CertFault;
use ta_replay::RunFault;
use ta_shelf::Phrase;
use ta_syntax::FileFault;

/// The words for a file's error; a number is an offset in bytes from 0, or a rule's number.
pub fn file_fault_phrase(fault: &FileFault) -> Phrase
    ensures { phrase_text result ≡ file_fault_text fault.now }
{
    match fault {
        FileFault::Byte(at) => one("F1 byte at offset ", u64::from(*at)),
        FileFault::Syntax(at) => one("F2 syntax at offset ", u64::from(*at)),
        FileFault::Duplicate(at) => one("F3 duplicate name at offset ", u64::from(*at)),
        FileFault::Unknown(at) => one("F4 unknown name at offset ", u64::from(*at)),
        FileFault::WrongKind(at) => one("F5 wrong kind of name at offset ", u64::from(*at)),
        FileFault::TooLarge(at) => one("F6 too large at offset ", u64::from(*at)),
        FileFault::TooMany(at) => one("F7 too many at offset ", u64::from(*at)),
        FileFault::TooDeep(at) => one("F8 too deep at offset ", u64::from(*at)),
        FileFault::NotThreshold(at) => one("F9 not a threshold guard at offset ", u64::from(*at)),
        FileFault::CycleUpdates(rule) => one("F11 cycle with updates at rule ", u64::from(*rule)),
        FileFault::NoInitial(at) => one("F12 no initial location at offset ", u64::from(*at)),
        FileFault::Memory => Phrase::Plain("out of memory"),
    }
}

/// The words for a certificate's error; lines count from 1, rows, unknowns and columns from 0.
pub fn cert_fault_phrase(fault: &CertFault) -> Phrase
    ensures { phrase_text result ≡ cert_fault_text fault.now }
{
    match *fault {
        CertFault::Line(line) => one("C1 malformed at line ", line),
        CertFault::Truncated(line) => one("C2 truncated at line ", line),
        CertFault::UnknownPattern(line) => one("C3 unknown pattern at line ", line),
        CertFault::Row { line, row } => two("C4 no row ", row, " at line ", line),
        CertFault::Positive { line, unknown } => two(
            "C5 positive at unknown ",
            unknown,
            " at line ",
            line,
        ),
        CertFault::NotNegative(line) => one("C6 constant not negative at line ", line),
        CertFault::Overflow { line, column } => two(
            "C7 outside 128 bits in column ",
            column,
            " at line ",
            line,
        ),
        CertFault::ExtendComplete(line) => one("C8 extension of a complete word at line ", line),
        CertFault::SplitVariable(line) => one("C9 no such unknown at line ", line),
        CertFault::Trailing(line) => one("C10 trailing text at line ", line),
        CertFault::RepeatedPattern(line) => one("C11 repeated pattern at line ", line),
        CertFault::Pair(line) => one("C14 no such order at line ", line),
        CertFault::Question(line) => one("C15 no such question at line ", line),
        CertFault::Failed => Phrase::Plain("C12 failed"),
        CertFault::Memory => Phrase::Plain("out of memory"),
    }
}

/// The words for a run's error; lines count from 1, comparisons, guards and events from 0.
pub fn run_fault_phrase(fault: &RunFault) -> Phrase
    ensures { phrase_text result ≡ run_fault_text fault.now }
{
    match *fault {
        RunFault::Line(line) => one("N1 malformed at line ", line),
        RunFault::Name(line) => one("N2 name at line ", line),
        RunFault::Resilience(comparison) => Phrase::between(
            "N3 resilience comparison ",
            u64::from(comparison),
            " is false",
        ),
        RunFault::Processes => Phrase::Plain("N4 wrong number of processes"),
        RunFault::Start(comparison) => Phrase::between(
            "N5 start comparison ",
            u64::from(comparison),
            " is false",
        ),
        RunFault::NotEmpty(line) => one("N6 not empty at line ", line),
        RunFault::Guard { line, guard } => two("N7 guard ", guard, " is false at line ", line),
        RunFault::Count(line) => one("N8 too few processes at line ", line),
        RunFault::Event(line) => one("N9 event is false at line ", line),
        RunFault::MissingEvent(event) => {
            Phrase::between("N10 event ", u64::from(event), " has no mark")
        }
        RunFault::Overflow(line) => one("N11 outside 128 bits at line ", line),
        RunFault::Order(line) => one("N12 order of marks at line ", line),
        RunFault::Memory => Phrase::Plain("out of memory"),
    }
}

/// Words and a number behind them.
fn one(head: &'static str, number: u64) -> Phrase
    ensures { phrase_text result ≡ head.now ++ decimal number }
{
    Phrase::One {
        head,
        number: u128::from(number),
        tail: "",
    }
}

/// A number among words, and one behind them.
fn two(head: &'static str, first: u32, middle: &'static str, second: u64) -> Phrase
    ensures { phrase_text result ≡ head.now ++ (decimal first ++ (middle.now ++ decimal second)) }
{
    Phrase::Two {
        head,
        first: u64::from(first),
        middle,
        second,
        tail: "",
    }
}

//! The message of each error: its name.

use crate::expecting::expect_text;
use std::alloc::Global;
use std::fmt::Display;
use std::process::Abort;
use ta_cert::CertFault;
use ta_linear::LinearFault;
use ta_maker::MakerFault;
use ta_replay::RunFault;
use ta_syntax::FileFault;

/// Compares the message of each error of a table with the one beside it.
fn expect_messages<F: Display>(rt: &impl Abort, alloc: Global, faults: &[(F, &str)]) {
    for (fault, message) in faults {
        expect_text(rt, alloc, fault, message);
    }
}

const FILE_FAULTS: &[(FileFault, &str)] = &[
    (FileFault::Byte(7), "Byte"),
    (FileFault::Syntax(7), "Syntax"),
    (FileFault::Duplicate(7), "Duplicate"),
    (FileFault::Unknown(7), "Unknown"),
    (FileFault::WrongKind(7), "WrongKind"),
    (FileFault::TooLarge(7), "TooLarge"),
    (FileFault::TooMany(7), "TooMany"),
    (FileFault::TooDeep(7), "TooDeep"),
    (FileFault::NotThreshold(7), "NotThreshold"),
    (FileFault::CycleUpdates(7), "CycleUpdates"),
    (FileFault::NoInitial(7), "NoInitial"),
    (FileFault::Memory, "Memory"),
];

#[test]
fn names_faults_of_files(rt: HostRuntime) {
    expect_messages(&rt, rt.alloc(), FILE_FAULTS);
}

const CERT_FAULTS: &[(CertFault, &str)] = &[
    (CertFault::Line(1), "Line"),
    (CertFault::Truncated(1), "Truncated"),
    (CertFault::UnknownPattern(1), "UnknownPattern"),
    (CertFault::Row { line: 1, row: 2 }, "Row"),
    (
        CertFault::Positive {
            line: 1,
            unknown: 3,
        },
        "Positive",
    ),
    (CertFault::NotNegative(1), "NotNegative"),
    (CertFault::Overflow { line: 1, column: 4 }, "Overflow"),
    (CertFault::ExtendComplete(1), "ExtendComplete"),
    (CertFault::SplitVariable(1), "SplitVariable"),
    (CertFault::Trailing(1), "Trailing"),
    (CertFault::RepeatedPattern(1), "RepeatedPattern"),
    (CertFault::Pair(1), "Pair"),
    (CertFault::Question(1), "Question"),
    (CertFault::Failed, "Failed"),
    (CertFault::Memory, "Memory"),
];

#[test]
fn names_faults_of_certificates(rt: HostRuntime) {
    expect_messages(&rt, rt.alloc(), CERT_FAULTS);
}

const RUN_FAULTS: &[(RunFault, &str)] = &[
    (RunFault::Line(1), "Line"),
    (RunFault::Name(1), "Name"),
    (RunFault::Resilience(1), "Resilience"),
    (RunFault::Processes, "Processes"),
    (RunFault::Start(1), "Start"),
    (RunFault::NotEmpty(1), "NotEmpty"),
    (RunFault::Guard { line: 1, guard: 2 }, "Guard"),
    (RunFault::Count(1), "Count"),
    (RunFault::Event(1), "Event"),
    (RunFault::MissingEvent(1), "MissingEvent"),
    (RunFault::Overflow(1), "Overflow"),
    (RunFault::Order(1), "Order"),
    (RunFault::Memory, "Memory"),
];

#[test]
fn names_faults_of_runs(rt: HostRuntime) {
    expect_messages(&rt, rt.alloc(), RUN_FAULTS);
}

const LINEAR_FAULTS: &[(LinearFault, &str)] = &[
    (LinearFault::Overflow, "Overflow"),
    (LinearFault::Memory, "Memory"),
];

const MAKER_FAULTS: &[(MakerFault, &str)] = &[
    (MakerFault::Range, "Range"),
    (MakerFault::Memory, "Memory"),
];

#[test]
fn names_other_faults(rt: HostRuntime) {
    expect_messages(&rt, rt.alloc(), LINEAR_FAULTS);
    expect_messages(&rt, rt.alloc(), MAKER_FAULTS);
}

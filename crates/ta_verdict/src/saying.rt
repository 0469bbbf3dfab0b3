//! What a verdict says of a pattern.
#![tactic(auto)]

ghost use Rattle.std.specs.Prelude.{◌≡◌, IfErr, IfOk, is_some};
ghost use Rattle.ta_report.specs.declared.verdict.ReportKind.TheVariants.{Run};
ghost use Rattle.ta_report.specs.declared.verdict.Verdict.TheVariants.{Overflow};
ghost use Rattle.ta_verdict.specs.Certificates.{tree_size};
ghost use Rattle.ta_verdict.specs.Verdicts.{is_unknown, is_unsafe};
ghost use Rattle.ta_witness.specs.declared.fault.WitnessFault.TheVariants as why;

use std::alloc::AllocError;
use ta_report::{ReportKind, Verdict};
use ta_witness::WitnessFault;

/// Whether a verdict says that a pattern is safe.
pub fn is_safe(verdict: &Verdict) -> bool
    ensures { result ≡ is_some (tree_size verdict.now) }
{
    matches!(verdict, Verdict::Safe { .. })
}

/// Whether a pattern occurs in a run.
pub fn is_unsafe(verdict: &Verdict) -> bool
    ensures { result ≡ is_unsafe verdict.now }
{
    matches!(verdict, Verdict::Unsafe { .. })
}

/// Whether a pattern is neither safe nor unsafe.
pub fn is_unknown(verdict: &Verdict) -> bool
    ensures { result ≡ is_unknown verdict.now }
{
    matches!(verdict, Verdict::Spent { .. } | Verdict::Overflow { .. })
}

/// The verdict where the node of a number is the first whole one and its solution has no run: a number
/// of the run's replay left the range.
pub fn unwitnessed(node: u64, fault: WitnessFault) -> Result<Verdict, AllocError>
    ensures overflow { IfOk result (λ verdict. (fault ≡ why.Overflow) × (verdict ≡ Overflow node Run)) }
    ensures memory { IfErr result (λ none. fault ≡ why.Memory) }
{
    match fault {
        WitnessFault::Overflow => Ok(Verdict::Overflow {
            node,
            kind: ReportKind::Run,
        }),
        WitnessFault::Memory => Err(AllocError),
    }
}

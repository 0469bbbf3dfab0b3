//! Judging a certificate.
#![tactic(auto)]

ghost use Rattle.std.specs.Prelude.{◌≡◌, ◌≢◌, ℕ, List, [], IfErr, IfOk};
ghost use Rattle.ta_automaton.specs.declared.file.File.{File as FileValue};
ghost use Rattle.ta_cert.specs.Streams.{IsErrOrMemory};
ghost use Rattle.ta_cert.specs.declared.fault.CertFault.{CertFault as AnyFault};
ghost use Rattle.ta_cert.specs.declared.fault.CertFault.TheVariants.{Memory};
ghost use Rattle.ta_rest.specs.declared.claim.Claim.TheVariants.{RestSafe, Safe};
ghost use Rattle.ta_rest.specs.Faults.{EndingsOf};
ghost use Rattle.ta_check.specs.Certificate.{AllClaimsHold, AllQuietRestSafe, AllRestSafe, AllSafe, AllUnsolved, Certificate, CertificateFor, QuietRestCertificate, RestCertificate};
ghost use Rattle.ta_check.specs.Checkers.{CheckerStandsFor, subject_of};
ghost use Rattle.ta_check.specs.Faults.{IsFirstFault, IsFirstFaultFor};
ghost use Rattle.ta_check.specs.Subjects.{Subject, claiming, claiming_with};

use crate::accepted::Accepted;
use crate::checker::Checker;
use std::alloc::Global;
use ta_cert::CertFault;
use ta_rest::RestFile;
use ta_scope::ScopedFile;

/// Judges a certificate of a file, whose proofs are of words or, in version 3, of moments. What is
/// accepted is proved: the patterns that it names happen in no run, of any length and any number of
/// processes. An error is that of the first refused line. A line has at most `line_bytes` bytes, its line
/// feed aside.
pub fn check(
    alloc: Global,
    scoped: &ScopedFile,
    text: &[u8],
    line_bytes: usize,
) -> Result<Accepted, CertFault>
    ensures accepted { IfOk result (λ accepted. Certificate scoped.now.file line_bytes text.now accepted.patterns) }
    ensures refused { IfErr result (λ fault. fault ≢ Memory → (numbers : List ℕ) → ¬ Certificate scoped.now.file line_bytes text.now numbers) }
    ensures fault { IfErr result (λ fault. fault ≢ Memory → IsFirstFault scoped.now.file line_bytes text.now fault) }
    ensures exact { (fault : AnyFault) → IsFirstFault scoped.now.file line_bytes text.now fault → IsErrOrMemory result fault }
    ensures safe { IfOk result (λ accepted. AllSafe scoped.now.file accepted.patterns) }
    ensures unsolved { IfOk result (λ accepted. AllUnsolved scoped.now.file accepted.patterns) }
{
    judge_whole(Checker::new(alloc, scoped, line_bytes), text)
}

/// Judges a certificate that patterns are safe at rest: no run, of any length and any number of
/// processes, comes to rest where the last event of a pattern that it names happens. It has no pairs.
/// Its proofs are of words or, in version 3, of moments. An error is that of the first refused line,
/// over the systems of rest of the endings.
pub fn rest_check(
    alloc: Global,
    rest: &RestFile,
    text: &[u8],
    line_bytes: usize,
) -> Result<Accepted, CertFault>
    ensures accepted { IfOk result (λ accepted. RestCertificate rest.now.ending.file line_bytes text.now accepted.patterns) }
    ensures refused { IfErr result (λ fault. fault ≢ Memory → (numbers : List ℕ) → ¬ RestCertificate rest.now.ending.file line_bytes text.now numbers) }
    ensures fault { IfErr result (λ fault. fault ≢ Memory → IsFirstFaultFor (claiming RestSafe rest.now.ending.file line_bytes) text.now fault) }
    ensures exact { (fault : AnyFault) → IsFirstFaultFor (claiming RestSafe rest.now.ending.file line_bytes) text.now fault → IsErrOrMemory result fault }
    ensures safe { IfOk result (λ accepted. AllRestSafe rest.now.ending.file accepted.patterns) }
    ensures own { IfOk result (λ accepted. (file : FileValue) → EndingsOf file rest.now.ending.file rest.now.added → AllRestSafe file accepted.patterns) }
{
    judge_whole(Checker::resting(alloc, rest, line_bytes), text)
}

/// The same where these places are silent: no run comes to quiet rest where the last event of a
/// pattern that the certificate names happens. Its proofs are of moments.
pub fn rest_check_silently(
    alloc: Global,
    rest: &RestFile,
    silent: &[u32],
    text: &[u8],
    line_bytes: usize,
) -> Result<Accepted, CertFault>
    ensures accepted { IfOk result (λ accepted. QuietRestCertificate rest.now.ending.file silent.now line_bytes text.now accepted.patterns) }
    ensures refused { IfErr result (λ fault. fault ≢ Memory → (numbers : List ℕ) → ¬ QuietRestCertificate rest.now.ending.file silent.now line_bytes text.now numbers) }
    ensures fault { IfErr result (λ fault. fault ≢ Memory → IsFirstFaultFor (claiming_with RestSafe rest.now.ending.file silent.now line_bytes) text.now fault) }
    ensures exact { (fault : AnyFault) → IsFirstFaultFor (claiming_with RestSafe rest.now.ending.file silent.now line_bytes) text.now fault → IsErrOrMemory result fault }
    ensures safe { IfOk result (λ accepted. AllQuietRestSafe rest.now.ending.file silent.now accepted.patterns) }
    ensures own { IfOk result (λ accepted. (file : FileValue) → EndingsOf file rest.now.ending.file rest.now.added → AllQuietRestSafe file silent.now accepted.patterns) }
{
    judge_whole(
        Checker::resting_silently(alloc, rest, silent, line_bytes),
        text,
    )
}

/// Judges a whole certificate.
fn judge_whole(checker: Checker<'_>, text: &[u8]) -> Result<Accepted, CertFault>
    requires { CheckerStandsFor checker [] }
    ensures accepted { IfOk result (λ accepted. CertificateFor (subject_of checker.entry) text.now accepted.patterns) }
    ensures refused { IfErr result (λ fault. fault ≢ Memory → (numbers : List ℕ) → ¬ CertificateFor (subject_of checker.entry) text.now numbers) }
    ensures fault { IfErr result (λ fault. fault ≢ Memory → IsFirstFaultFor (subject_of checker.entry) text.now fault) }
    ensures exact { (fault : AnyFault) → IsFirstFaultFor (subject_of checker.entry) text.now fault → IsErrOrMemory result fault }
    ensures holds { IfOk result (λ accepted. AllClaimsHold (subject_of checker.entry) accepted.patterns) }
    ensures unsolved { checker.entry.claim ≡ Safe → IfOk result (λ accepted. AllUnsolved checker.entry.scoped.now.file accepted.patterns) }
{
    let mut checker = checker;
    checker.feed(text)?;
    checker.finish()
}

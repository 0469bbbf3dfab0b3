//! The verdicts on the patterns of a file where runs are to end in a deadlock.
#![tactic(auto)]

ghost use Rattle.std.specs.Prelude.{ℕ, ◌≡◌, ◌<◌, ◌≤◌, [], IfErr, IfOk, false, length, List, true};
ghost use Rattle.std.specs.List.{AllByRecursion, concat};
ghost use Rattle.ta_base.specs.declared.limits.Limits.{Limits};
ghost use Rattle.ta_check.specs.Certificate.{QuietRestCertificate};
ghost use Rattle.ta_report.specs.Picked.{picked};
ghost use Rattle.ta_report.specs.Report.{VerdictFits};
ghost use Rattle.ta_shelf.specs.Staging.{Begun};
ghost use Rattle.ta_automaton.specs.Narrow.{IsNarrow, IsWithin};
ghost use Rattle.ta_automaton.specs.Numbered.{OfPattern};
ghost use Rattle.ta_verdict.specs.Certificates.{safe_among, safe_picked};
ghost use Rattle.ta_verdict.specs.Drafts.{AddsTree, HasProofs, HasText, HasTrees};
ghost use Rattle.ta_verdict.specs.Rest.Budgets.{resting};
ghost use Rattle.ta_verdict.specs.Rest.Certificates.{RestCertificateOf, RestCertified, rest_head, rest_tree};
ghost use Rattle.ta_verdict.specs.Rest.Verdicts.{OwnVerdict, OwnVerdicts};

use crate::picking::picked_range;
use crate::rest::quiet_verdict::verdict_by_moments;
use crate::rest::verdict::rest_verdict;
use crate::{Budget, Draft, Judged, Target, is_safe};
use std::alloc::{AllocError, Global};
use std::thread::Threads;
use ta_base::List;
use ta_base::limits::MOST_NODES;
use ta_cert::Line;
use ta_dense::DenseDictionary;
use ta_report::{Pick, Verdict};
use ta_rest::RestFile;

/// Gives a verdict on each picked pattern of a file whose runs are to come to rest, and the certificate
/// of those that are safe, where one is wanted, in memory. For each pattern at most the budget is spent.
/// By moments, rest does not count on the silent places.
pub fn judge_rest<R: Threads + Sync>(
    rt: &R,
    alloc: Global,
    rest: &RestFile,
    pick: Pick,
    budget: Budget,
    silent: &[u32],
    wanted: bool,
) -> Result<Judged, AllocError>
    requires some { 0 < budget.nodes }
    requires limit { budget.nodes ≤ MOST_NODES }
    requires narrow { budget.lazy ≡ false → IsNarrow rest.now.ending.file.automaton }
    requires words { budget.lazy ≡ false → silent.now ≡ [] }
    ensures verdicts { IfOk result (λ judged. OwnVerdicts rest.now pick (resting budget silent.now) judged.verdicts) }
    ensures all { IfOk result (λ judged. length judged.verdicts ≡ length (picked pick rest.now.ending.file.patterns)) }
    ensures fit { IfOk result (λ judged. AllByRecursion (VerdictFits rest.now.ending.file) judged.verdicts) }
    ensures certificate { wanted ≡ true → IfOk result (λ judged. RestCertificateOf rest.now.ending.file pick (resting budget silent.now) judged.verdicts (concat judged.certificate)) }
    ensures accepted { (l : Limits) → IsWithin l rest.now.ending.file.automaton → wanted ≡ true → IfOk result (λ judged. QuietRestCertificate rest.now.ending.file silent.now l.line_bytes (concat judged.certificate) (safe_among rest.now.ending.file pick judged.verdicts)) }
    ensures unwanted { wanted ≡ false → IfOk result (λ judged. judged.certificate ≡ []) }
{
    let mut draft = Draft::new(alloc, wanted);
    let verdicts = judge_rest_to(rt, alloc, rest, pick, budget, silent, &mut (), &mut draft)?;
    let certificate = draft.into_pieces(alloc)?;
    Ok(Judged {
        verdicts,
        certificate,
    })
}

/// The same, where the certificate goes to a target, the proof of a pattern as soon as it is judged. So
/// only the proof of the pattern at hand is in memory.
pub fn judge_rest_to<R: Threads + Sync, P, T: Target<P>>(
    rt: &R,
    alloc: Global,
    rest: &RestFile,
    pick: Pick,
    budget: Budget,
    silent: &[u32],
    place: &mut P,
    target: &mut T,
) -> Result<List<Verdict>, AllocError>
    requires some { 0 < budget.nodes }
    requires limit { budget.nodes ≤ MOST_NODES }
    requires narrow { budget.lazy ≡ false → IsNarrow rest.now.ending.file.automaton }
    requires words { budget.lazy ≡ false → silent.now ≡ [] }
    ensures verdicts { IfOk result (OwnVerdicts rest.now pick (resting budget silent.now)) }
    ensures all { IfOk result (λ verdicts. length verdicts ≡ length (picked pick rest.now.ending.file.patterns)) }
    ensures fit { IfOk result (AllByRecursion (VerdictFits rest.now.ending.file)) }
    ensures certificate { (begun : Begun) → T.has begun target.old place.old [] → IfOk result (λ verdicts. RestCertified rest.now.ending.file pick (resting budget silent.now) verdicts (T.has begun target.new place.new)) }
    ensures stops { (begun : Begun) → T.has begun target.old place.old [] → IfErr result (λ _. T.stopped begun target.new place.new) }
    ensures wanted { IfOk result (λ _. T.wants target.new ≡ T.wants target.old) }
{
    let head = begun(alloc, budget.lazy, target.wanted())?;
    target.add(alloc, place, head)?;
    let verdicts = verdicts_picked(rt, alloc, rest, pick, budget, silent, place, target)?;
    let end = Draft::begin(alloc, target.wanted(), &Line::End)?;
    target.add(alloc, place, end)?;
    Ok(List::from_vec(verdicts))
}

/// A draft of a certificate of either tree, with its first line.
fn begun(alloc: Global, lazy: bool, wanted: bool) -> Result<Draft, AllocError>
    ensures wanted { IfOk result (λ draft. draft.wanted ≡ wanted) }
    ensures text { IfOk result (λ draft. HasText draft (rest_head lazy)) }
{
    if lazy {
        return Draft::begin(alloc, wanted, &Line::Header(3));
    }
    Draft::certificate(alloc, wanted, &[])
}

/// A verdict on each picked pattern of a file, in order. The trees of those that are safe are added to
/// a target.
fn verdicts_picked<R: Threads + Sync, P, T: Target<P>>(
    rt: &R,
    alloc: Global,
    rest: &RestFile,
    pick: Pick,
    budget: Budget,
    silent: &[u32],
    place: &mut P,
    target: &mut T,
) -> Result<Vec<Verdict>, AllocError>
    requires limit { budget.nodes ≤ MOST_NODES }
    requires narrow { budget.lazy ≡ false → IsNarrow rest.now.ending.file.automaton }
    ensures verdicts { IfOk result (λ verdicts. OwnVerdicts rest.now pick (resting budget silent.now) verdicts.items) }
    ensures all { IfOk result (λ verdicts. length verdicts.items ≡ length (picked pick rest.now.ending.file.patterns)) }
    ensures fit { IfOk result (λ verdicts. AllByRecursion (VerdictFits rest.now.ending.file) verdicts.items) }
    ensures trees { (begun : Begun) (head : List ℕ) → HasProofs (T.has begun target.old place.old) head [] → IfOk result (λ verdicts. HasTrees (rest_tree rest.now.ending.file (resting budget silent.now)) head (safe_picked rest.now.ending.file pick verdicts.items) (T.has begun target.new place.new)) }
    ensures stops { (begun : Begun) (text : List ℕ) → T.has begun target.old place.old text → IfErr result (λ _. T.stopped begun target.new place.new) }
    ensures wanted { IfOk result (λ verdicts. T.wants target.new ≡ T.wants target.old) }
{
    let (first, end) = picked_range(&rest.ending.file, pick);
    let mut verdicts = Vec::new(alloc);
    for pattern in first..end {
        verdicts.push(next_verdict(rt, alloc, rest, pattern, budget, silent, place, target)?)?;
    }
    Ok(verdicts)
}

/// The verdict on the pattern of a number, whose tree is added to a target where it is safe.
fn next_verdict<R: Threads + Sync, P, T: Target<P>>(
    rt: &R,
    alloc: Global,
    rest: &RestFile,
    pattern: u32,
    budget: Budget,
    silent: &[u32],
    place: &mut P,
    target: &mut T,
) -> Result<Verdict, AllocError>
    requires limit { budget.nodes ≤ MOST_NODES }
    requires narrow { budget.lazy ≡ false → IsNarrow rest.now.ending.file.automaton }
    requires exists { pattern < length rest.now.ending.file.patterns }
    ensures holds { IfOk result (λ verdict. OfPattern rest.now.ending.file pattern (λ p. OwnVerdict rest.now (resting budget silent.now) pattern p verdict)) }
    ensures fits { IfOk result (VerdictFits rest.now.ending.file) }
    ensures adds { (begun : Begun) → IfOk result (λ verdict. OfPattern rest.now.ending.file pattern (λ p. AddsTree (rest_tree rest.now.ending.file (resting budget silent.now)) pattern p verdict (T.has begun target.old place.old) (T.has begun target.new place.new))) }
    ensures stops { (begun : Begun) (text : List ℕ) → T.has begun target.old place.old text → IfErr result (λ _. T.stopped begun target.new place.new) }
    ensures wanted { IfOk result (λ verdict. T.wants target.new ≡ T.wants target.old) }
{
    let mut proof = Draft::begin(alloc, target.wanted(), &Line::Pattern(pattern))?;
    let nodes = budget.nodes;
    let verdict = if budget.lazy {
        verdict_by_moments::<DenseDictionary, Draft>(
            alloc, rest, pattern, silent, nodes, &mut proof,
        )?
    } else {
        rest_verdict::<DenseDictionary, Draft, R>(rt, alloc, rest, pattern, nodes, &mut proof)?
    };
    if !is_safe(&verdict) {
        return Ok(verdict);
    }
    target.add(alloc, place, proof)?;
    Ok(verdict)
}

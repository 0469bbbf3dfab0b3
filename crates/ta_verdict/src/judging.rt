//! The verdicts on the patterns of a file, and the certificate of those that are safe.
#![tactic(auto)]

ghost use Rattle.std.specs.List.{concat};
ghost use Rattle.std.specs.Prelude.{ℕ, ◌≡◌, ◌<◌, ◌≤◌, [], IfErr, IfOk, false, length, List, true};
ghost use Rattle.ta_automaton.specs.Narrow.{IsNarrow, IsWithin};
ghost use Rattle.ta_automaton.specs.Numbered.{OfPattern};
ghost use Rattle.ta_base.specs.declared.limits.Limits.{Limits};
ghost use Rattle.ta_check.specs.Certificate.{Certificate};
ghost use Rattle.ta_report.specs.Report.{VerdictFits};
ghost use Rattle.ta_shelf.specs.Staging.{Begun};
ghost use Rattle.ta_verdict.specs.Certificates.{CertificateOf, Certified, safe_numbers, safe_picked, tree_under};
ghost use Rattle.ta_verdict.specs.Drafts.{AddsTree, HasProofs, HasTrees};
ghost use Rattle.ta_verdict.specs.Trees.{AreTreesOfFile, is_lazy};
ghost use Rattle.ta_verdict.specs.Verdicts.{AreVerdicts, AreVerdictsOn, VerdictHolds};

use crate::budget::Budget;
use crate::by_moments::moments_verdict;
use crate::by_words::words_verdict;
use crate::draft::Draft;
use crate::picking::picked_range;
use crate::saying::is_safe;
use crate::target::Target;
use crate::trees::Trees;
use std::alloc::{AllocError, Global};
use std::thread::Threads;
use ta_base::limits::MOST_NODES;
use ta_base::{List, Text};
use ta_cert::Line;
use ta_report::{Pick, Verdict};
use ta_scope::ScopedFile;

/// What is said of the patterns of a file, within a budget of nodes for each.
#[derive(Drop)]
pub struct Judged {
    /// A verdict on each picked pattern, in order.
    pub verdicts: List<Verdict>,
    /// The pieces of the certificate of the patterns that are safe; none where no certificate is
    /// wanted.
    pub certificate: List<Text>,
}

/// Gives a verdict on each pattern of a file, and the certificate of those that are safe, where one
/// is wanted, in memory. For each pattern at most the budget is spent.
pub fn judge_file<R: Threads + Sync>(
    rt: &R,
    alloc: Global,
    scoped: &ScopedFile,
    budget: Budget,
    wanted: bool,
) -> Result<Judged, AllocError>
    requires some { 0 < budget.nodes }
    requires limit { budget.nodes ≤ MOST_NODES }
    requires narrow { budget.lazy ≡ false → IsNarrow scoped.now.file.automaton }
    ensures verdicts { IfOk result (λ judged. AreVerdicts scoped.now.file budget judged.verdicts) }
    ensures certificate { wanted ≡ true → IfOk result (λ judged. CertificateOf scoped.now.file budget judged.verdicts (concat judged.certificate)) }
    ensures accepted { (l : Limits) → IsWithin l scoped.now.file.automaton → wanted ≡ true → IfOk result (λ judged. Certificate scoped.now.file l.line_bytes (concat judged.certificate) (safe_numbers scoped.now.file judged.verdicts)) }
    ensures unwanted { wanted ≡ false → IfOk result (λ judged. judged.certificate ≡ []) }
{
    let mut draft = Draft::new(alloc, wanted);
    let verdicts = judge_picked_to(rt, alloc, scoped, Pick::All, budget, &mut (), &mut draft)?;
    let certificate = draft.into_pieces(alloc)?;
    Ok(Judged {
        verdicts,
        certificate,
    })
}

/// Gives a verdict on each picked pattern of a file. The certificate of those that are safe goes to a
/// target, the proof of a pattern as soon as it is judged: only the proof of the pattern at hand is in
/// memory. The certificate names a pattern by its number in the file.
pub fn judge_picked_to<R: Threads + Sync, P, T: Target<P>>(
    rt: &R,
    alloc: Global,
    scoped: &ScopedFile,
    pick: Pick,
    budget: Budget,
    place: &mut P,
    target: &mut T,
) -> Result<List<Verdict>, AllocError>
    requires some { 0 < budget.nodes }
    requires limit { budget.nodes ≤ MOST_NODES }
    requires narrow { budget.lazy ≡ false → IsNarrow scoped.now.file.automaton }
    ensures verdicts { IfOk result (AreVerdictsOn scoped.now.file pick budget) }
    ensures certificate { (begun : Begun) → T.has begun target.old place.old [] → IfOk result (λ verdicts. Certified scoped.now.file pick budget verdicts (T.has begun target.new place.new)) }
    ensures stops { (begun : Begun) → T.has begun target.old place.old [] → IfErr result (λ _. T.stopped begun target.new place.new) }
    ensures wanted { IfOk result (λ _. T.wants target.new ≡ T.wants target.old) }
{
    let trees = Trees::find(alloc, scoped, budget.lazy)?;
    let head = trees.begin(alloc, target.wanted())?;
    target.add(alloc, place, head)?;
    let verdicts = verdicts_picked(rt, alloc, scoped, &trees, pick, budget, place, target)?;
    let end = Draft::begin(alloc, target.wanted(), &Line::End)?;
    target.add(alloc, place, end)?;
    Ok(List::from_vec(verdicts))
}

/// A verdict on each picked pattern of a file, in order, by such trees. Those of the patterns that are
/// safe are added to a target.
fn verdicts_picked<R: Threads + Sync, P, T: Target<P>>(
    rt: &R,
    alloc: Global,
    scoped: &ScopedFile,
    trees: &Trees,
    pick: Pick,
    budget: Budget,
    place: &mut P,
    target: &mut T,
) -> Result<Vec<Verdict>, AllocError>
    requires some { 0 < budget.nodes }
    requires limit { budget.nodes ≤ MOST_NODES }
    requires narrow { budget.lazy ≡ false → IsNarrow scoped.now.file.automaton }
    requires known { AreTreesOfFile scoped.now.file trees.now }
    requires lazy { is_lazy trees.now ≡ budget.lazy }
    ensures verdicts { IfOk result (λ verdicts. AreVerdictsOn scoped.now.file pick budget verdicts.items) }
    ensures trees { (begun : Begun) (head : List ℕ) → HasProofs (T.has begun target.old place.old) head [] → IfOk result (λ verdicts. HasTrees (tree_under scoped.now.file budget) head (safe_picked scoped.now.file pick verdicts.items) (T.has begun target.new place.new)) }
    ensures stops { (begun : Begun) (text : List ℕ) → T.has begun target.old place.old text → IfErr result (λ _. T.stopped begun target.new place.new) }
    ensures wanted { IfOk result (λ verdicts. T.wants target.new ≡ T.wants target.old) }
{
    let (first, end) = picked_range(&scoped.file, pick);
    let mut verdicts = Vec::new(alloc);
    for pattern in first..end {
        verdicts.push(next_verdict(rt, alloc, scoped, trees, pattern, budget, place, target)?)?;
    }
    Ok(verdicts)
}

/// The verdict on the pattern of a number, whose tree is added to a target where it is safe.
fn next_verdict<R: Threads + Sync, P, T: Target<P>>(
    rt: &R,
    alloc: Global,
    scoped: &ScopedFile,
    trees: &Trees,
    pattern: u32,
    budget: Budget,
    place: &mut P,
    target: &mut T,
) -> Result<Verdict, AllocError>
    requires some { 0 < budget.nodes }
    requires limit { budget.nodes ≤ MOST_NODES }
    requires narrow { budget.lazy ≡ false → IsNarrow scoped.now.file.automaton }
    requires exists { pattern < length scoped.now.file.patterns }
    requires known { AreTreesOfFile scoped.now.file trees.now }
    requires lazy { is_lazy trees.now ≡ budget.lazy }
    ensures holds { IfOk result (λ verdict. OfPattern scoped.now.file pattern (λ p. VerdictHolds scoped.now.file budget pattern p verdict)) }
    ensures fits { IfOk result (VerdictFits scoped.now.file) }
    ensures adds { (begun : Begun) → IfOk result (λ verdict. OfPattern scoped.now.file pattern (λ p. AddsTree (tree_under scoped.now.file budget) pattern p verdict (T.has begun target.old place.old) (T.has begun target.new place.new))) }
    ensures stops { (begun : Begun) (text : List ℕ) → T.has begun target.old place.old text → IfErr result (λ _. T.stopped begun target.new place.new) }
    ensures wanted { IfOk result (λ verdict. T.wants target.new ≡ T.wants target.old) }
{
    let mut proof = Draft::begin(alloc, target.wanted(), &Line::Pattern(pattern))?;
    let nodes = budget.nodes;
    let verdict = match trees {
        Trees::Words(found) => words_verdict(rt, alloc, scoped, found, pattern, nodes, &mut proof)?,
        Trees::Moments => moments_verdict(alloc, scoped, pattern, nodes, &mut proof)?,
    };
    if !is_safe(&verdict) {
        return Ok(verdict);
    }
    target.add(alloc, place, proof)?;
    Ok(verdict)
}

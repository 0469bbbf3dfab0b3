//! The command `bench`.
#![tactic(auto)]

ghost use Rattle.std.specs.List.{AllByRecursion, concat};
ghost use Rattle.std.specs.Prelude.{◌≡◌, ◌≤◌, [], IfOk, IfSome, length, map, option_map, Option};
ghost use Rattle.ta_automaton.specs.Runs as runs;
ghost use Rattle.ta_check.specs.Certificate.{Certificate};
ghost use Rattle.ta_maker.specs.Family.{family};
ghost use Rattle.ta_maker.specs.Made.{IsFamilyNumber};
ghost use Rattle.ta_automaton.specs.Narrow.{IsNarrow};
ghost use Rattle.ta_base.specs.LimitRows.{narrow};
ghost use Rattle.ta_meaning.specs.Reading.{Legal};
ghost use Rattle.ta_shelf.specs.Put.{Told};
ghost use Rattle.ta_shelf.specs.Commands.{Says};
ghost use Rattle.ta_shelf.specs.Reading.{ReadCause};
ghost use Rattle.ta_shelf.specs.Stages.{Writes};
ghost use Rattle.ta_syntax.specs.PlainTrees.{plain_tree};
ghost use Rattle.ta_verdict.specs.Certificates.{CertificateOf, safe_numbers};
ghost use Rattle.ta_verdict.specs.Verdicts.{AreVerdicts};
ghost use Rattle.ta_program.specs.Bench.{BUDGET, IsCertified, SaysBench, bench_meaning, bench_status, bench_text, bench_words, family_number, family_text};

use crate::request::Request;
use crate::words::take_words;
use std::alloc::{AllocError, Global};
use std::thread::Threads;
use ta_automaton::Pattern;
use ta_base::Text;
use ta_base::limits::{DEFAULT_NODES, Limits};
use ta_cert::CertFault;
use ta_check::{Accepted, Checker};
use ta_maker::{MakerFault, family_is_flawless, make_family};
use ta_meaning::read_file;
use ta_report::Verdict;
use ta_scope::ScopedFile;
use ta_shelf::{Answer, Command, Outputs, Refusal, Shelf};
use ta_syntax::{FileFault, Tree, print_tree};
use ta_verdict::{Budget, Judged, is_unknown, judge_file};

/// What `bench` is asked for: a number of the family.
#[derive(Drop)]
pub(crate) struct Bench {
    k: u32,
    ghost low: { 1 ≤ k },
    ghost high: { k ≤ 7 },
}

impl<'a> Request<'a> for Bench {
    ghost use Rattle.ta_program.specs.Bench.{bench_asked};

    ghost asked = { bench_asked };

    fn read(words: &[&'a str]) -> Option<Bench> {
        read_bench(words)
    }
}

impl Command for Bench {
    ghost use Rattle.ta_program.specs.Bench.{bench_meaning};

    ghost meaning = { λ command. bench_meaning command.k };

    fn outputs(&self) -> Outputs<'_> {
        Outputs::none()
    }

    fn judge<R: Threads + Sync, S: Shelf>(
        &self,
        rt: &R,
        alloc: Global,
        shelf: &mut S,
    ) -> Result<Answer, Refusal<'_>> {
        let _ = shelf;
        answer_bench(rt, alloc, self.k)
    }
}

/// Reads the words of `bench`.
fn read_bench(words: &[&str]) -> Option<Bench>
    ensures { option_map (λ command. command.k) result ≡ bench_words (map (λ w. w.now) words.now) }
{
    let taken = take_words(1, &[], words)?;
    let k = family_number(taken.plain(0))?;
    Some(Bench { k })
}

/// The number that a word is: `1` to `7`.
fn family_number(word: &str) -> Option<u32>
    ensures value { result ≡ family_number word.now }
    ensures low { IfSome result (λ k. 1 ≤ k) }
    ensures high { IfSome result (λ k. k ≤ 7) }
{
    match word.as_bytes() {
        [digit] if b'1' <= *digit && *digit <= b'7' => Some(u32::from(*digit - b'0')),
        _ => None,
    }
}

/// The answer of `bench`.
fn answer_bench<'a, R: Threads + Sync>(rt: &R, alloc: Global, k: u32) -> Result<Answer, Refusal<'a>>
    requires { IsFamilyNumber k }
    ensures says { (files : Option Told) → Says (bench_meaning k) files result [] }
    ensures cause { ReadCause result 0 0 }
{
    match bench_family(rt, alloc, k) {
        Ok(answer) => Ok(answer),
        Err(AllocError) => Err(Refusal::Memory),
    }
}

/// Makes the automaton of a number, prints and reads it, verifies it, and checks its certificate. Only
/// want of memory hinders: its text has no error, its pattern is safe, and its certificate is accepted.
fn bench_family<R: Threads + Sync>(rt: &R, alloc: Global, k: u32) -> Result<Answer, AllocError>
    requires { IsFamilyNumber k }
    ensures { IfOk result (SaysBench k) }
{
    let scoped = read_family(alloc, k)?;
    let answer = judge_family(rt, alloc, k, &scoped);
    drop(scoped);
    answer
}

/// Verifies the file of the automaton of a number, and checks its certificate.
fn judge_family<R: Threads + Sync>(
    rt: &R,
    alloc: Global,
    k: u32,
    scoped: &ScopedFile,
) -> Result<Answer, AllocError>
    requires number { IsFamilyNumber k }
    requires legal { Legal narrow (family_text k) scoped.now.file }
    requires one { length scoped.now.file.patterns ≡ 1 }
    requires safe { AllByRecursion (runs.Safe scoped.now.file.automaton) scoped.now.file.patterns }
    requires narrow { IsNarrow scoped.now.file.automaton }
    ensures { IfOk result (SaysBench k) }
{
    let budget = Budget {
        nodes: DEFAULT_NODES,
        lazy: false,
    };
    let judged = judge_file(rt, alloc, scoped, budget, true)?;
    let answer = answer_judged(alloc, k, scoped, &judged);
    drop(judged);
    answer
}

/// Checks the certificate of the verdicts on the file of the automaton of a number, and answers with the
/// first verdict.
fn answer_judged(
    alloc: Global,
    k: u32,
    scoped: &ScopedFile,
    judged: &Judged,
) -> Result<Answer, AllocError>
    requires number { IsFamilyNumber k }
    requires legal { Legal narrow (family_text k) scoped.now.file }
    requires one { length scoped.now.file.patterns ≡ 1 }
    requires safe { AllByRecursion (runs.Safe scoped.now.file.automaton) scoped.now.file.patterns }
    requires verdicts { AreVerdicts scoped.now.file BUDGET judged.now.verdicts }
    requires certificate { CertificateOf scoped.now.file BUDGET judged.now.verdicts (concat judged.now.certificate) }
    requires accepted { Certificate scoped.now.file narrow.line_bytes (concat judged.now.certificate) (safe_numbers scoped.now.file judged.now.verdicts) }
    ensures { IfOk result (SaysBench k) }
{
    let _ = accept(alloc, scoped, judged.certificate.as_slice())?;
    let Some(pattern) = scoped.file.patterns.as_slice().first() else {
        unreachable!()
    };
    let Some(verdict) = judged.verdicts.as_slice().first() else {
        unreachable!()
    };
    answer_text(alloc, k, pattern, verdict)
}

/// The file of the automaton of a number.
fn read_family(alloc: Global, k: u32) -> Result<ScopedFile, AllocError>
    requires { IsFamilyNumber k }
    ensures legal { IfOk result (λ scoped. Legal narrow (family_text k) scoped.file) }
    ensures narrow { IfOk result (λ scoped. IsNarrow scoped.file.automaton) }
    ensures one { IfOk result (λ scoped. length scoped.file.patterns ≡ 1) }
    ensures safe { IfOk result (λ scoped. AllByRecursion (runs.Safe scoped.file.automaton) scoped.file.patterns) }
{
    // the law of the family; the call does nothing
    family_is_flawless();
    let text = print_family(alloc, k)?;
    match read_file(alloc, text.as_str().as_bytes(), &Limits::narrow()) {
        Ok(scoped) => Ok(scoped),
        Err(fault) => Err(file_memory(&fault)),
    }
}

/// The text of the automaton of a number.
fn print_family(alloc: Global, k: u32) -> Result<Text, AllocError>
    requires { IsFamilyNumber k }
    ensures { IfOk result (λ text. text ≡ family_text k) }
{
    let tree = made_family(alloc, k)?;
    let text = print_tree(alloc, &tree);
    drop(tree);
    text
}

/// The automaton of a number.
fn made_family(alloc: Global, k: u32) -> Result<Tree, AllocError>
    requires { IsFamilyNumber k }
    ensures { IfOk result (λ tree. plain_tree tree ≡ family k) }
{
    match make_family(alloc, k) {
        Ok(tree) => Ok(tree),
        Err(fault) => Err(maker_memory(&fault)),
    }
}

/// Want of memory, the one error of making an automaton of the family.
fn maker_memory(fault: &MakerFault) -> AllocError
    requires { fault.now ≡ MakerFault.Memory }
{
    let _ = fault;
    AllocError
}

/// Want of memory, the one error of reading a text that has no error.
fn file_memory(fault: &FileFault) -> AllocError
    requires { fault.now ≡ FileFault.Memory }
{
    let _ = fault;
    AllocError
}

/// Want of memory, the one error of judging a certificate that is one.
fn certificate_memory(fault: &CertFault) -> AllocError
    requires { fault.now ≡ CertFault.Memory }
{
    let _ = fault;
    AllocError
}

/// Judges a certificate that comes in pieces, and is one.
fn accept(alloc: Global, scoped: &ScopedFile, pieces: &[Text]) -> Result<Accepted, AllocError>
    requires { IsCertified scoped.now.file (concat pieces.now) }
    ensures { IfOk result (λ accepted. Certificate scoped.now.file narrow.line_bytes (concat pieces.now) accepted.patterns) }
{
    let mut checker = Checker::new(alloc, scoped, Limits::narrow().line_bytes);
    for piece in pieces {
        match checker.feed(piece.as_str().as_bytes()) {
            Ok(()) => {}
            Err(fault) => {
                drop(checker);
                return Err(certificate_memory(&fault));
            }
        }
    }
    match checker.finish() {
        Ok(accepted) => Ok(accepted),
        Err(fault) => Err(certificate_memory(&fault)),
    }
}

/// The answer with the lines.
fn answer_text(
    alloc: Global,
    k: u32,
    pattern: &Pattern,
    verdict: &Verdict,
) -> Result<Answer, AllocError>
    requires { IsFamilyNumber k }
    ensures { IfOk result (Writes (bench_status verdict.now) (bench_text k pattern.now verdict.now)) }
{
    let mut text = format!(in alloc;
        "bench {k}\nrules {}\npattern {}: {verdict}\n",
        2 * k,
        pattern.name.as_str()
    )?;
    if is_unknown(verdict) {
        return Ok(Answer::writing(alloc, 2, Text::from_string(text)));
    }
    text.push_str("certificate: accepted\n")?;
    Ok(Answer::writing(alloc, 0, Text::from_string(text)))
}

//! The answers of the commands that make certificates.

ghost use Rattle.std.specs.Prelude.{◌≡◌, ◌<◌, ◌≤◌, List, length, map, IfOk, IfErr, OnOk};
ghost use Rattle.std.specs.Io.KnownBytes.{Appends};
ghost use Rattle.og_cert_text.specs.Shown.{shown};
ghost use Rattle.og_cert_read.specs.Shared.{shared_text};
ghost use Rattle.og_cond.specs.Condition as condition;
ghost use Rattle.og_cond.specs.Limits.{condition_limit};
ghost use Rattle.og_cond.specs.Seen.{seen};
ghost use Rattle.og_find_all.specs.Written.{IsText};
ghost use Rattle.og_io.specs.Written.{AppendsFront};
ghost use Rattle.og_pool.specs.declared.fault.PoolFault.TheVariants.{Spawn};
ghost use Rattle.og_judge.specs.NotJudged.{OnInput};
ghost use Rattle.og_judge.specs.declared.refusal.Refusal.TheVariants as refusals;
ghost use Rattle.og_report_text.specs.InputErrors.{OnFault, IsFaultOfCount};
ghost use Rattle.og_command_check.specs.Making.{text_of, status_of_found, IsLength, IsSecond, IsSearched, IsFound, IsMigrated, IsFaultOfCerts};

use og_cert_read::write_certs_2;
use og_cert_text::CertFile;
use og_cond::{Condition, conditions};
use og_find::Missing;
use og_find_all::{Certificates, FoundText, examine_all, find_all};
use og_io::{Budget, CertVersion, OutputFault, Workers, write_whole};
use og_judge::{Refusal, migrate};
use og_pool::{Gate, PoolFault};
use og_report_text::{Answer, InputError};
use og_typed::Outline;
use std::alloc::{AllocError, Global};
use std::io::Write;
use std::sync::Wait;
use std::thread::Threads;

/// The text of certificates.
#[derive(Drop)]
pub enum CertificateText {
    /// In version 1, written as it is made.
    First(Certificates),
    /// In version 2.
    Second(Vec<u8>),
}

impl CertificateText {
    // Writes the text.
    fn write<W: Write>(&self, alloc: Global, out: &mut W) -> Result<(), OutputFault>
        ensures written { OnOk result
            (Appends (W.contents out.old) (W.contents out.new) (text_of self.now)) }
        ensures unfinished { IfErr result (λ _.
            AppendsFront (W.contents out.old) (W.contents out.new) (text_of self.now)) }
    {
        match self {
            CertificateText::First(certificates) => certificates.write(alloc, out),
            CertificateText::Second(text) => Ok(write_whole(out, text)?),
        }
    }
}

/// Certificates of the conditions of an outline, as searches found them. Nothing of them is written
/// yet.
#[derive(Drop)]
pub struct FoundCertificates {
    /// Their text.
    pub text: CertificateText,
    /// How many conditions have none.
    pub missing: Missing,
}

impl FoundCertificates {
    // The status: 0 where each condition has a certificate, 1 where some has none.
    fn status(&self) -> u8
        ensures { result ≡ status_of_found self.now }
    {
        if self.missing.count == 0 { 0 } else { 1 }
    }

    /// Writes the text of the certificates, and returns the status: 0 where each condition has one,
    /// 1 where some has none.
    ///
    /// # Errors
    ///
    /// An allocation was refused, or the writer failed; a front of the text may have been written
    /// then.
    pub fn write<W: Write>(&self, alloc: Global, out: &mut W) -> Result<u8, OutputFault>
        ensures written { OnOk result
            (Appends (W.contents out.old) (W.contents out.new) (text_of self.now.text)) }
        ensures status { IfOk result (λ status. status ≡ status_of_found self.now) }
        ensures unfinished { IfErr result (λ _.
            AppendsFront (W.contents out.old) (W.contents out.new) (text_of self.now.text)) }
    {
        self.text.write(alloc, out)?;
        Ok(self.status())
    }
}

/// A text of certificates that would have more bytes than it may have.
#[derive(Clone, Copy, PartialEq, Eq)]
pub struct LongText {
    /// How many bytes it may have.
    pub limit: usize,
    /// How many it has in version 2, where these are no more.
    pub second: Option<usize>,
}

/// The certificates of a source that searches find.
#[derive(Drop)]
pub enum FindReply {
    /// Those that were found.
    Found(FoundCertificates),
    /// Their text would be too long.
    TooLong(LongText),
}

/// Which certificates are wanted, and how they are searched.
#[derive(Clone, Copy, PartialEq, Eq)]
pub struct Wanted {
    /// The budget of each search, as in `og_find::find`.
    pub budget: Budget,
    /// How many workers search.
    pub workers: Workers,
    /// The version of the text.
    pub version: CertVersion,
    /// How many bytes the text may have.
    pub limit: usize,
}

// The number of bytes, where they are no more than the limit.
fn within(bytes: usize, limit: usize) -> Option<usize>
    ensures { IsLength limit bytes result }
{
    if bytes <= limit { Some(bytes) } else { None }
}

// The answer for certificates whose text in version 1 is too long.
fn of_long(alloc: Global, file: &CertFile, limit: usize) -> Result<LongText, AllocError>
    ensures limit { IfOk result (λ long. long.limit ≡ limit) }
    ensures second { IfOk result (λ long.
        IsLength limit (length (shared_text (shown file.now))) long.second) }
{
    let text = write_certs_2(alloc, file)?;
    let second = within(text.len(), limit);
    Ok(LongText { limit, second })
}

// The text in version 2 of a file of the certificates of this many conditions, where it is within
// the limit.
fn of_file(
    alloc: Global,
    file: &CertFile,
    conditions: u32,
    limit: usize,
) -> Result<FindReply, AllocError>
    ensures { IfOk result (IsSecond limit conditions (shown file.now)) }
{
    let text = write_certs_2(alloc, file)?;
    if text.len() > limit {
        let second = None;
        return Ok(FindReply::TooLong(LongText { limit, second }));
    }
    let text = CertificateText::Second(text);
    let missing = Missing::of(file, conditions);
    Ok(FindReply::Found(FoundCertificates { text, missing }))
}

// A text in version 1, or the answer for certificates for which it is too long.
fn of_text(alloc: Global, text: FoundText, limit: usize) -> Result<FindReply, AllocError>
    ensures { IfOk result (λ found.
        (cs : List condition.Condition) → IsText limit cs text → IsSearched 1 limit cs found) }
{
    match text {
        FoundText::Within(written) => {
            let text = CertificateText::First(written.certificates);
            let missing = written.missing;
            Ok(FindReply::Found(FoundCertificates { text, missing }))
        }
        FoundText::TooLong(file) => {
            let long = of_long(alloc, &file, limit)?;
            Ok(FindReply::TooLong(long))
        }
    }
}

// The certificates that are found for conditions.
fn of_search<G: Gate, H: Threads + Wait + Sync>(
    rt: &H,
    alloc: Global,
    conditions: &[Condition],
    wanted: Wanted,
    gate: &G,
) -> Result<FindReply, PoolFault>
    requires { length conditions.now ≤ condition_limit }
    ensures found { IfOk result (IsSearched wanted.version wanted.limit (map seen conditions.now)) }
    ensures spawn { IfErr result (λ e. e ≡ Spawn → 1 < wanted.workers) }
{
    let (budget, workers) = (wanted.budget.facts(), wanted.workers.count());
    if wanted.version.is_second() {
        let file = find_all(rt, alloc, conditions, budget, workers, gate)?;
        let second = of_file(alloc, &file, conditions.len() as u32, wanted.limit)?;
        return Ok(second);
    }
    let findings = examine_all(rt, alloc, conditions, budget, workers, gate)?;
    let text = findings.text(rt, alloc, workers, wanted.limit)?;
    let first = of_text(alloc, text, wanted.limit)?;
    Ok(first)
}

/// The certificates that searches find for the conditions of an outline, in the wanted version of
/// their text, and how many conditions have none; or that this text would have more bytes than it
/// may have. The text is the same for every number of workers. The gate hears of the searches as by
/// `og_find_all::examine_all`.
///
/// # Errors
///
/// `Input` where the outline has more than 4,000,000 conditions. `Spawn`, of two workers or more,
/// where a thread could not be started. `Memory` where an allocation was refused.
pub fn found<G: Gate, H: Threads + Wait + Sync>(
    rt: &H,
    alloc: Global,
    outline: &Outline,
    wanted: Wanted,
    gate: &G,
) -> Result<FindReply, Refusal>
    ensures found { IfOk result (IsFound wanted.version wanted.limit outline.now) }
    ensures refused { IfErr result (OnInput (IsFaultOfCount outline.now)) }
    ensures spawn { IfErr result (λ e. e ≡ refusals.Spawn → 1 < wanted.workers) }
{
    let conditions = conditions(alloc, outline)?;
    Ok(of_search(rt, alloc, &conditions, wanted, gate)?)
}

/// A text of certificates in version 2, as `og_judge::migrate` makes it, and status 0.
///
/// # Errors
///
/// `Fault`, why the text is not read. `Memory` where an allocation was refused.
pub fn migrated(alloc: Global, certs: &[u8]) -> Result<Answer, InputError>
    ensures migrated { IfOk result (IsMigrated certs.now) }
    ensures refused { IfErr result (OnFault (IsFaultOfCerts certs.now)) }
{
    let text = migrate(alloc, certs)?;
    Ok(Answer { text, status: 0 })
}

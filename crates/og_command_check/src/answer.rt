//! The answer of a check.

ghost use Rattle.std.specs.Prelude.{◌≡◌, ◌<◌, ◌≤◌, ◌^◌, length, true, IfOk, IfErr};
ghost use Rattle.og_judge.specs.Entries.{is_unblocked};
ghost use Rattle.og_judge.specs.Proven.{IsProvenSource};
ghost use Rattle.og_judge.specs.NeverStuck.{IsNeverStuckSource};
ghost use Rattle.og_judge.specs.Shown.{outline_of, entries_of};
ghost use Rattle.og_report_text.specs.Yes.{SaysUnblocked};
ghost use Rattle.og_pool.specs.declared.fault.PoolFault.TheVariants.{Spawn};
ghost use Rattle.og_judge.specs.NotJudged.{IsNotJudged};
ghost use Rattle.og_judge.specs.declared.refusal.Refusal.TheVariants as refusals;
ghost use Rattle.og_command_check.specs.Promised.{Promises};
ghost use Rattle.og_command_check.specs.Answers.{report_in, missing_in, Reports, IsReported, IsChecked};

use crate::engines::Options;
use og_find::Missing;
use og_judge::{Entry, Judgement, Refusal, judge};
use og_pool::{Gate, PoolFault, Status};
use og_report::{json, text};
use og_report_text::Answer;
use std::alloc::{AllocError, Global};
use std::sync::Wait;
use std::thread::Threads;

/// The report of a check.
#[derive(Drop)]
pub struct CheckReply {
    /// The report, and the status.
    pub answer: Answer,
    /// How many conditions have no certificate.
    pub missing: Missing,
}

// The report in JSON with an LF, or as text.
fn report(
    alloc: Global,
    judgement: &Judgement,
    source: &[u8],
    in_json: bool,
) -> Result<Vec<u8>, AllocError>
    requires { length source.now ≤ 2 ^ 20 }
    ensures report { IfOk result (λ t.
        t.items ≡ report_in in_json source.now (entries_of judgement.now)) }
    ensures unblocked { IfOk result (λ t.
        SaysUnblocked in_json t.items → is_unblocked (entries_of judgement.now) ≡ true) }
{
    if !in_json {
        return text(alloc, judgement, source);
    }
    let mut line = json(alloc, judgement, source)?;
    line.push(b'\n')?;
    Ok(line)
}

// How many entries have no certificate, of how many.
fn missing_of(entries: &[Entry]) -> Missing
    requires { length entries.now < 2 ^ 32 }
    ensures { result ≡ missing_in entries.now }
{
    let count = entries
        .iter()
        .filter(|entry| matches!(entry.status, Status::Missing))
        .count() as u32;
    let conditions = entries.len() as u32;
    Missing { count, conditions }
}

// The answer to a judgement: status 0 where it is safe, else 1.
fn of_judgement(
    alloc: Global,
    judgement: &Judgement,
    source: &[u8],
    in_json: bool,
) -> Result<CheckReply, AllocError>
    requires short { length source.now ≤ 2 ^ 20 }
    requires few { length (entries_of judgement.now) < 2 ^ 32 }
    ensures reports { IfOk result (Reports in_json source.now (entries_of judgement.now)) }
    ensures promises { IfOk result (λ c. Promises in_json (outline_of judgement.now) c.answer) }
{
    let text = report(alloc, judgement, source, in_json)?;
    // Asked for its clause alone: what it says of the runs.
    judgement.unblocked();
    let status = if judgement.safe() { 0 } else { 1 };
    let answer = Answer { text, status };
    let missing = missing_of(judgement.entries());
    Ok(CheckReply { answer, missing })
}

/// The report of a source by certificates. Status 0 where the outline is safe, 1 where it is not.
/// Status 0 says that every run of the outline is as promised, with its auxiliaries and without
/// them; and a report that says then that it is unblocked, that none gets stuck.
///
/// # Errors
///
/// `Input`, the first fault of the source, the number of its conditions and the certificates.
/// `Spawn`, of two workers or more, where a thread could not be started. `Memory` where an
/// allocation was refused.
pub fn checked<G: Gate, H: Threads + Wait + Sync>(
    rt: &H,
    alloc: Global,
    source: &[u8],
    certs: &[u8],
    options: Options,
    gate: &G,
) -> Result<CheckReply, Refusal>
    ensures report { IfOk result (IsReported options.json source.now certs.now) }
    ensures sound { IfOk result (λ c. c.answer.status ≡ 0 → IsProvenSource source.now) }
    ensures unblocked { IfOk result (λ c. c.answer.status ≡ 0
        → SaysUnblocked options.json c.answer.text.items → IsNeverStuckSource source.now) }
    ensures refused { IfErr result (IsNotJudged source.now certs.now) }
    ensures spawn { IfErr result (λ e. e ≡ refusals.Spawn → 1 < options.workers) }
{
    let workers = options.workers.count();
    let judgement = judge(rt, alloc, source, certs, workers, gate)?;
    let checked = of_judgement(alloc, &judgement, source, options.json);
    drop(judgement);
    Ok(checked?)
}

/// What a check is made with: threads, memory, the gate of the workers, and how it is made.
#[derive(Clone, Copy)]
pub(crate) struct Checker<'r, G, H> {
    pub(crate) rt: &'r H,
    pub(crate) alloc: Global,
    pub(crate) gate: &'r G,
    pub(crate) options: Options,
}

impl<'r, G: Gate, H: Threads + Wait + Sync> Checker<'r, G, H> {
    /// The answer of `checked`, or the line of a refusal, with status 2.
    ///
    /// # Errors
    ///
    /// `Spawn` and `Memory` as `checked`.
    pub(crate) fn answer(&self, source: &[u8], certs: &[u8]) -> Result<Answer, PoolFault>
        ensures answer { IfOk result (IsChecked self.now.options.json source.now certs.now) }
        ensures sound { IfOk result (λ answer. answer.status ≡ 0 → IsProvenSource source.now) }
        ensures unblocked { IfOk result (λ answer. answer.status ≡ 0
            → SaysUnblocked self.now.options.json answer.text.items → IsNeverStuckSource source.now) }
        ensures spawn { IfErr result (λ e. e ≡ Spawn → 1 < self.now.options.workers) }
    {
        let alloc = self.alloc;
        match checked(self.rt, alloc, source, certs, self.options, self.gate) {
            Ok(checked) => Ok(checked.answer),
            Err(refusal) => refusal.answer(alloc, source),
        }
    }
}

//! From the bytes of a source and of its certificates to a judgement.

ghost use Rattle.std.specs.Prelude.{◌≡◌, ◌<◌, ◌≤◌, ◌^◌, length, map, IfOk, IfErr};
ghost use Rattle.og_cond.specs.Seen.{seen};
ghost use Rattle.og_judge.specs.Entries.{entry_of, AreEntries, is_safe, is_unblocked};
ghost use Rattle.og_judge.specs.NotJudged.{AreNotFound, IsNotJudged};
ghost use Rattle.og_judge.specs.Report.{IsReport};
ghost use Rattle.og_judge.specs.Parts.{AreListed, listed_from};
ghost use Rattle.og_judge.specs.Shown.{looked_at, found_of, outline_of, entries_of};
ghost use Rattle.og_judge.specs.declared.refusal.Refusal.TheVariants.{Spawn};

use crate::entry::Entry;
use crate::findings::Findings;
use crate::judgement::Judgement;
use crate::refusal::Refusal;
use crate::verdict::Verdict;
use og_cert::replay_laws;
use og_cert_read::read_certs;
use og_cond::{Condition, conditions};
use og_io::Workers;
use og_pool::{Gate, Status, check_all};
use og_report_text::InputFault;
use og_typed::{Outline, Source};
use std::alloc::{AllocError, Global};
use std::sync::Wait;
use std::thread::Threads;

// The entry of a condition.
fn entry_of(condition: &Condition, status: Status) -> Entry
    ensures { result ≡ entry_of (seen condition.now) status }
{
    Entry {
        kind: condition.kind,
        at: condition.at,
        action_at: condition.action_at,
        status,
    }
}

// An entry for each condition, with its status.
fn listed(
    alloc: Global,
    conditions: &[Condition],
    statuses: &[Status],
) -> Result<Vec<Entry>, AllocError>
    requires { length statuses.now ≡ length conditions.now }
    ensures { IfOk result (λ v. v.items ≡ listed_from (map seen conditions.now) statuses.now) }
{
    let mut entries = Vec::with_capacity(alloc, conditions.len())?;
    for index in 0..conditions.len() {
        entries.push(entry_of(&conditions[index], statuses[index]))?;
    }
    Ok(entries)
}

// How many conditions there are.
fn count_of(conditions: &[Condition]) -> u32
    requires { length conditions.now < 2 ^ 32 }
    ensures { result ≡ length conditions.now }
{
    conditions.len() as u32
}

// Whether every entry but the last is proved.
fn all_but_the_last(entries: &[Entry]) -> bool
    ensures { result ≡ is_safe entries.now }
{
    match entries {
        [] => true,
        [most @ .., _] => most.iter().all(|entry| entry.is_proved()),
    }
}

// Whether the last entry is proved.
fn the_last(entries: &[Entry]) -> bool
    ensures { result ≡ is_unblocked entries.now }
{
    match entries {
        [] => false,
        [.., last] => last.is_proved(),
    }
}

// What these entries say of the outline whose conditions have them.
fn concluded(outline: &Outline, entries: Vec<Entry>) -> Findings
    requires { AreListed outline.now entries.items }
    ensures outline { looked_at result ≡ outline.now }
    ensures entries { found_of result ≡ entries.items }
{
    replay_laws();
    let safe = all_but_the_last(&entries);
    let unblocked = the_last(&entries);
    Findings::new(Verdict::new(outline, safe, unblocked), entries)
}

/// The findings on an outline by the certificates of a text and by this many workers. They are the
/// same for every number of workers.
///
/// # Errors
///
/// `Input` with the first that applies: `Conditions` where there are more than 4,000,000
/// conditions; `Certs`, why the text of the certificates is not read; `Stray` with the least number
/// that has a certificate and no condition. `Spawn`, of two workers or more, where a thread could
/// not be started, and `Memory` where an allocation was refused, may stand in place of any answer.
pub fn judge_outline<G: Gate, R: Threads + Wait + Sync>(
    rt: &R,
    alloc: Global,
    outline: &Outline,
    certs: &[u8],
    workers: Workers,
    gate: &G,
) -> Result<Findings, Refusal>
    ensures outline { IfOk result (λ f. looked_at f ≡ outline.now) }
    ensures entries { IfOk result (λ f. AreEntries certs.now outline.now (found_of f)) }
    ensures refused { IfErr result (AreNotFound certs.now outline.now) }
    ensures spawn { IfErr result (λ e. e ≡ Spawn → 1 < workers) }
{
    let conditions = conditions(alloc, outline)?;
    let file = read_certs(alloc, certs)?;
    if let Some(number) = file.least_above(count_of(&conditions)) {
        return Err(Refusal::Input(InputFault::Stray(number)));
    }
    let statuses = check_all(rt, alloc, &conditions, &file, workers.count(), gate)?;
    let entries = listed(alloc, &conditions, &statuses)?;
    Ok(concluded(outline, entries))
}

/// The judgement of a source by the certificates of a text, found by this many workers, from 1 to
/// 64. It is the same for every number of workers.
///
/// # Errors
///
/// `Input` with the first that applies: `Source`, why the source has no outline; else as
/// `judge_outline`. `Spawn`, of two workers or more, where a thread could not be started, and
/// `Memory` where an allocation was refused, may stand in place of any answer.
pub fn judge<G: Gate, R: Threads + Wait + Sync>(
    rt: &R,
    alloc: Global,
    source: &[u8],
    certs: &[u8],
    workers: u32,
    gate: &G,
) -> Result<Judgement, Refusal>
    requires { (0 < workers) × (workers ≤ 64) }
    ensures report { IfOk result (λ j. IsReport source.now certs.now (outline_of j) (entries_of j)) }
    ensures refused { IfErr result (IsNotJudged source.now certs.now) }
    ensures spawn { IfErr result (λ e. e ≡ Spawn → 1 < workers) }
{
    let Some(workers) = Workers::new(workers) else {
        unreachable!()
    };
    let source = Source::read(alloc, source)?;
    match judge_outline(rt, alloc, source.outline(), certs, workers, gate) {
        Ok(findings) => Ok(Judgement::new(source.into_outline(), findings)),
        Err(refusal) => {
            drop(source);
            Err(refusal)
        }
    }
}

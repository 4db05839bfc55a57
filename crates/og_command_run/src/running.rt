//! The answers of `run`.

ghost use Rattle.std.specs.Prelude.{◌≡◌, ◌↔◌, true, map, None, Err, IfOk, IfErr, codes};
ghost use Rattle.og_report_text.specs.Answers.{Says};
ghost use Rattle.og_pool.specs.declared.fault.PoolFault.TheVariants.{Spawn};
ghost use Rattle.og_run.specs.declared.fault.RunFault.TheVariants as faults;
ghost use Rattle.og_run.specs.declared.fault.RunError.TheVariants as errors;
ghost use Rattle.og_judge.specs.Entries.{is_safe};
ghost use Rattle.og_judge.specs.NotJudged.{AreNotFound};
ghost use Rattle.og_judge.specs.declared.refusal.Refusal.TheVariants as refusals;
ghost use Rattle.og_judge.specs.Shown.{looked_at, found_of};
ghost use Rattle.og_step.specs.Starts.{start_fault};
ghost use Rattle.og_command_run.specs.Texts.{outcome_text, finish_status};
ghost use Rattle.og_command_run.specs.Running.{given, program_of, fault_line, IsFaultAnswer, IsProven, IsQuiet, IsAnswer, IsAnswerProved, IsAnswerJudged, IsJudged, IsRan, IsRanProved, IsOfRun};
ghost use Rattle.og_command_run.specs.Starts.{IsSafeBy, HasStart, HasProvedStart};

use crate::asking::{copy_of, note_on};
use crate::outcome::{finish_status, outcome_text};
use crate::reply::{Ran, Reply};
use crate::words::{WordsError, values};
use og_erase::erase;
use og_io::{RunLimit, Workers};
use og_judge::{Findings, Proved, Refusal, judge_outline};
use og_linear::State;
use og_pool::PoolFault;
use og_report_text::{Answer, put_opening};
use og_run::{Gate, OpenGate, Outcome, RunError, RunFault, run, run_proved};
use og_typed::{Outline, Source};
use std::alloc::{AllocError, Global};
use std::sync::Wait;
use std::thread::Threads;

// The line of a start that is refused.
fn fault_text(alloc: Global, fault: RunFault) -> Result<Vec<u8>, AllocError>
    ensures { IfOk result (λ t. t.items ≡ fault_line fault) }
{
    let mut text = Vec::new(alloc);
    put_opening(&mut text, fault.number(), fault.name())?;
    text.extend_from_slice(b"\n")?;
    Ok(text)
}

/// The text of what came of a run, and the status.
pub(crate) fn of_run(
    alloc: Global,
    outline: &Outline,
    ended: Result<Outcome, RunError>,
) -> Result<Answer, PoolFault>
    ensures outcome { IfOk ended (λ r.
        IfOk result (Says (outcome_text outline.now r) (finish_status r.finish))) }
    ensures refused { IfErr ended (λ e. IfOk result (IsFaultAnswer e)) }
    ensures spawn { (result ≡ Err Spawn) ↔ (ended ≡ Err (errors.Fault faults.Spawn)) }
{
    match ended {
        Ok(outcome) => Ok(Answer {
            text: outcome_text(alloc, outline, &outcome)?,
            status: finish_status(outcome.finish),
        }),
        Err(RunError::Memory) => Err(PoolFault::Memory),
        Err(RunError::Fault(RunFault::Spawn)) => Err(PoolFault::Spawn),
        Err(RunError::Fault(fault)) => Ok(Answer {
            text: fault_text(alloc, fault)?,
            status: 2,
        }),
    }
}

// The report of an outline that is not safe.
fn not_safe(alloc: Global) -> Result<Ran, AllocError>
    ensures { IfOk result (IsQuiet (Says (codes "not safe\n") 1)) }
{
    let answer = Answer {
        text: Vec::from_slice(alloc, b"not safe\n")?,
        status: 1,
    };
    Ok(Ran { answer, note: None })
}

/// What each run needs, whatever runs.
#[derive(Clone, Copy)]
pub struct Runner<'r, G, H> {
    /// Starts threads.
    pub rt: &'r H,
    /// Gives memory.
    pub alloc: Global,
    /// The most steps of a run.
    pub limit: RunLimit,
    /// Hears of the moves, as by `og_run::run`.
    pub gate: &'r G,
}

impl<'r, G: Gate, H: Threads + Wait + Sync> Runner<'r, G, H> {
    // Runs an outline.
    fn run(&self, source: &Source, outline: &Outline, values: State) -> Result<Ran, PoolFault>
        ensures answered { IfOk result (IsAnswer source.now.bytes
            (given outline.now values self.now.limit)) }
        ensures spawn { IfErr result (λ e. e ≡ Spawn → start_fault outline.now values ≡ None) }
    {
        let kept = copy_of(self.alloc, &values)?;
        let limit = self.limit.steps();
        let ended = run(self.rt, self.alloc, outline, values, limit, self.gate);
        let note = note_on(self.alloc, source, outline, &kept, &ended)?;
        let answer = of_run(self.alloc, outline, ended)?;
        Ok(Ran { answer, note })
    }

    // Runs an outline, or its program without auxiliaries.
    fn run_program(
        &self,
        source: &Source,
        outline: &Outline,
        erased: bool,
        values: State,
    ) -> Result<Ran, PoolFault>
        ensures answered { IfOk result (IsAnswer source.now.bytes
            (given (program_of erased outline.now) values self.now.limit)) }
        ensures spawn { IfErr result
            (λ e. e ≡ Spawn → start_fault (program_of erased outline.now) values ≡ None) }
    {
        if !erased {
            return self.run(source, outline, values);
        }
        let program = erase(self.alloc, outline)?;
        self.run(source, program.outline(), values)
    }

    // Runs an outline that was proved: no assertion is false along its runs.
    fn run_proved(
        &self,
        source: &Source,
        proved: &Proved<'_>,
        values: State,
    ) -> Result<Ran, PoolFault>
        ensures answered { IfOk result (IsAnswerProved source.now.bytes
            (given proved.now.0 values self.now.limit) proved.now.1) }
        ensures proven { IsProven proved.now.0 }
        ensures spawn { IfErr result (λ e. e ≡ Spawn → start_fault proved.now.0 values ≡ None) }
    {
        let limit = self.limit.steps();
        let ended = run_proved(self.rt, self.alloc, proved, values, limit, self.gate);
        let outline = proved.outline();
        let answer = of_run(self.alloc, outline, ended)?;
        Ok(Ran { answer, note: None })
    }

    // Runs an outline where what was found of it says that it is safe.
    fn run_judged(
        &self,
        source: &Source,
        outline: &Outline,
        findings: &Findings,
        values: State,
    ) -> Result<Ran, PoolFault>
        requires { outline.now ≡ looked_at findings.now }
        ensures answered { IfOk result (IsAnswerJudged source.now.bytes (found_of findings.now)
            (given outline.now values self.now.limit)) }
        ensures spawn { IfErr result (λ e. e ≡ Spawn → (is_safe (found_of findings.now) ≡ true)
            × (start_fault outline.now values ≡ None)) }
    {
        match findings.proved(outline) {
            Some(proved) => self.run_proved(source, &proved, values),
            None => Ok(not_safe(self.alloc)?),
        }
    }

    // Judges the outline of a source by the certificates, and runs it where it is safe.
    fn run_by_certs(&self, source: &Source, certs: &[u8], values: State) -> Result<Ran, Refusal>
        ensures answered { IfOk result (IsJudged source.now.bytes certs.now source.now.outline
            values self.now.limit) }
        ensures refused { IfErr result (AreNotFound certs.now source.now.outline) }
        ensures spawn { IfErr result (λ e. e ≡ refusals.Spawn → IsSafeBy certs.now source.now.outline
            × (start_fault source.now.outline values ≡ None)) }
    {
        let outline = source.outline();
        let findings = judge_outline(self.rt, self.alloc, outline, certs, Workers::ONE, &OpenGate)?;
        Ok(self.run_judged(source, outline, &findings, values)?)
    }
}

/// Runs the program of a source, each process in a thread of its own, until nothing more can happen
/// or the history is as long as the limit. The words, each `NAME=INT`, give values to variables
/// that are no auxiliaries; the others are 0. With `erased` it is the program without auxiliary
/// variables.
///
/// The answer is the history, how the run ended and the state, with status 0 where all processes
/// have ended and else 1; or the line of a start that is refused, with status 2. The note says
/// which assertion of what was run is false first along the history, where one is. `BadValue` holds
/// the first word that gives no value: one without `=`, or whose name is no variable's, an
/// auxiliary's, or one that a word before it has, or whose number is no `i64` in digits with or
/// without a `-`.
///
/// The gate hears of the run as by `og_run::run`.
///
/// # Errors
///
/// `Spawn` where a thread could not be started: each word gives a value then, and the values are a
/// start. `Memory` where an allocation was refused.
pub fn ran<'a, G: Gate, H: Threads + Wait + Sync>(
    runner: &Runner<'_, G, H>,
    source: &Source,
    words: &[&'a str],
    erased: bool,
) -> Result<Reply<'a>, PoolFault>
    ensures answered { IfOk result (IsRan erased runner.now.limit source.now.outline source.now.bytes
        (map (λ w. w.now) words.now)) }
    ensures spawn { IfErr result
        (λ e. e ≡ Spawn → HasStart erased source.now.outline (map (λ w. w.now) words.now)) }
{
    let outline = source.outline();
    match values(runner.alloc, outline, words) {
        Ok(values) => {
            let ran = runner.run_program(source, outline, erased, values)?;
            Ok(Reply::Ran(ran))
        }
        Err(WordsError::Bad(word)) => Ok(Reply::BadValue(word)),
        Err(WordsError::Memory) => Err(PoolFault::Memory),
    }
}

/// Runs the program of a source as `ran`, where the certificates prove it safe: then all that is
/// promised of a proved outline holds of the run, and every run of the source's outline is as
/// promised. Where they do not, the answer is `not safe` and status 1, before a precondition that
/// is false.
///
/// # Errors
///
/// `Input`, the number of conditions or the fault of the certificates, after a bad value. `Spawn`
/// and `Memory` as `ran`; where a thread could not be started, the certificates prove the outline
/// safe.
pub fn ran_proved<'a, G: Gate, H: Threads + Wait + Sync>(
    runner: &Runner<'_, G, H>,
    source: &Source,
    certs: &[u8],
    words: &[&'a str],
) -> Result<Reply<'a>, Refusal>
    ensures answered { IfOk result (IsRanProved runner.now.limit source.now.outline source.now.bytes
        certs.now (map (λ w. w.now) words.now)) }
    ensures proven { IfOk result (λ reply. IsOfRun reply → IsProven source.now.outline) }
    ensures refused { IfErr result (AreNotFound certs.now source.now.outline) }
    ensures spawn { IfErr result (λ e. e ≡ refusals.Spawn
        → HasProvedStart source.now.outline certs.now (map (λ w. w.now) words.now)) }
{
    match values(runner.alloc, source.outline(), words) {
        Ok(values) => {
            let ran = runner.run_by_certs(source, certs, values)?;
            Ok(Reply::Ran(ran))
        }
        Err(WordsError::Bad(word)) => Ok(Reply::BadValue(word)),
        Err(WordsError::Memory) => Err(Refusal::Memory),
    }
}

//! From the conditions of an outline to the findings on them: by searches, and by runs where these
//! are asked for and a condition is false.

ghost use Rattle.std.specs.Prelude.{◌≡◌, ◌<◌, ◌≤◌, true, None, Some, is_some, length, map, IfOk, IfErr, OnOk};
ghost use Rattle.og_cond.specs.Limits.{condition_limit};
ghost use Rattle.og_cond.specs.Seen.{seen};
ghost use Rattle.og_find_all.specs.Findings.{AreVerdicts};
ghost use Rattle.og_pool.specs.declared.fault.PoolFault.TheVariants.{Spawn};
ghost use Rattle.og_report_findings.specs.Verdicts.{has_false};
ghost use Rattle.og_command_prove.specs.Found.{IsReach, IsAsked, AreFoundOf, AreFound};
ghost use Rattle.og_command_prove.specs.Moments.{lists_of, AreMoments, IsDiagnoser};

use crate::diagnoser::{Diagnoser, Moments};
use crate::finding::Findings;
use crate::prover::Prover;
use crate::starting::starts;
use og_cond::Condition;
use og_explore::{Range, Safety, gather};
use og_find_all::{Findings as Verdicts, examine_all};
use og_io::MomentLimit;
use og_pool::{Gate, PoolFault};
use og_report_prove::Diagnosis;
use og_report_runs::{Explored, Run};
use og_typed::{Index, Outline};
use std::alloc::{AllocError, Global};
use std::sync::Wait;
use std::thread::Threads;

// How many steps a search for runs tries.
const MOST_STEPS: u64 = 2_000_000;

/// The runs that are asked for.
#[derive(Clone, Copy)]
pub(crate) struct AskedRuns<'s> {
    /// The ranges within which they start, for each variable that is no auxiliary. Where none is
    /// given, the starts are those of an exploration, and for each false condition two more, up to 63.
    pub(crate) given: &'s [Option<Range>],
    /// At most how many moments are looked at.
    pub(crate) limit: MomentLimit,
}

// Whether a condition is false.
fn has_false(diagnoses: &[Diagnosis]) -> bool
    ensures { result ≡ has_false diagnoses.now }
{
    for diagnosis in diagnoses {
        if diagnosis.is_false() {
            return true;
        }
    }
    false
}

// What is found of each condition by the verdict on it.
fn found_by<'a>(
    diagnoser: Diagnoser<'_, 'a>,
    conditions: Vec<Condition<'a>>,
    verdicts: &Verdicts,
) -> Result<Findings<'a>, AllocError>
    requires diagnoser { IsDiagnoser diagnoser }
    requires verdicts { AreVerdicts (map seen conditions.items) verdicts.now }
    ensures conditions { IfOk result (λ f. f.conditions ≡ conditions.entry) }
    ensures found { IfOk result (λ f. AreFoundOf diagnoser.entry.outline.now None
        (map seen conditions.entry.items) f.diagnoses.items f.runs.items) }
    ensures explored { IfOk result (λ f. f.explored ≡ None) }
{
    let mut diagnoses = Vec::with_capacity(diagnoser.alloc, conditions.len())?;
    let mut runs = Vec::with_capacity(diagnoser.alloc, conditions.len())?;
    for index in 0..conditions.len() {
        let verdict = verdicts.verdict(index);
        diagnoses.push(diagnoser.diagnosed_by(&conditions[index], verdict)?)?;
        runs.push(Run::Open)?;
    }
    Ok(Findings {
        conditions,
        diagnoses,
        runs,
        explored: None,
    })
}

// Puts in what is known of the runs.
fn follow_all<'a>(
    diagnoser: Diagnoser<'_, 'a>,
    moments: &Moments<'a>,
    conditions: &[Condition<'a>],
    diagnoses: &mut [Diagnosis<'a>],
    runs: &mut [Run],
) -> Result<(), AllocError>
    requires diagnoser { IsDiagnoser diagnoser }
    requires moments { AreMoments diagnoser.outline.now moments.now }
    requires found { AreFoundOf diagnoser.outline.now None (map seen conditions.now)
        diagnoses.old runs.old }
    ensures { OnOk result (AreFoundOf diagnoser.entry.outline.now (Some (lists_of moments.now))
        (map seen conditions.now) diagnoses.new runs.new) }
{
    for index in 0..conditions.len() {
        let (diagnosis, run) = (&mut diagnoses[index], &mut runs[index]);
        diagnoser.follow(moments, &conditions[index], diagnosis, run)?;
    }
    Ok(())
}

// The moments of the runs that are asked for, of this many conditions.
fn moments_of<'a>(
    alloc: Global,
    outline: &'a Outline,
    conditions: usize,
    verdicts: &Verdicts,
    asked: &AskedRuns<'_>,
) -> Result<Moments<'a>, AllocError>
    ensures { IfOk result (AreMoments outline.now) }
{
    let lists = starts(alloc, outline, conditions, asked.given, verdicts)?;
    let reach = gather(alloc, outline, &lists, asked.limit.moments(), MOST_STEPS)?;
    Ok(Moments { lists, reach })
}

// How far runs were followed, and what is wrong at the end of one.
fn explored_of(outline: &Outline, moments: &Moments) -> Explored
    requires { AreMoments outline.now moments.now }
    ensures { IsReach outline.now (lists_of moments.now) result }
{
    let reach = &moments.reach;
    let (wrong, complete) = match &reach.safety {
        Safety::Violated(violation) => (Some(violation.wrong), reach.complete),
        Safety::Safe => (None, reach.complete),
        Safety::Unknown => (None, false),
    };
    Explored {
        starts: reach.starts,
        moments: reach.moments.len(),
        complete,
        wrong,
    }
}

// The findings by the runs that are asked for, where a condition is false.
fn followed<'a>(
    diagnoser: Diagnoser<'_, 'a>,
    findings: Findings<'a>,
    verdicts: &Verdicts,
    asked: &AskedRuns<'_>,
) -> Result<Findings<'a>, AllocError>
    requires diagnoser { IsDiagnoser diagnoser }
    requires found { AreFoundOf diagnoser.outline.now None (map seen findings.conditions.items)
        findings.diagnoses.items findings.runs.items }
    requires explored { findings.explored ≡ None }
    ensures conditions { IfOk result (λ f. f.conditions ≡ findings.entry.conditions) }
    ensures found { IfOk result (λ f. AreFound diagnoser.entry.outline.now
        (map seen findings.entry.conditions.items) f.diagnoses.items f.runs.items f.explored) }
    ensures looked { IfOk result (λ f. has_false f.diagnoses.items ≡ true
        → is_some f.explored ≡ true) }
{
    if !has_false(&findings.diagnoses) {
        return Ok(findings);
    }
    let (alloc, outline) = (diagnoser.alloc, diagnoser.outline);
    let Findings {
        conditions,
        mut diagnoses,
        mut runs,
        explored: _,
    } = findings;
    let moments = moments_of(alloc, outline, conditions.len(), verdicts, asked)?;
    let explored = explored_of(outline, &moments);
    follow_all(diagnoser, &moments, &conditions, &mut diagnoses, &mut runs)?;
    Ok(Findings {
        conditions,
        diagnoses,
        runs,
        explored: Some(explored),
    })
}

// What is found by the verdicts, and by the runs that are asked for.
fn findings_of<'a>(
    alloc: Global,
    outline: &'a Outline,
    conditions: Vec<Condition<'a>>,
    verdicts: &Verdicts,
    asked: Option<&AskedRuns<'_>>,
) -> Result<Findings<'a>, AllocError>
    requires { AreVerdicts (map seen conditions.items) verdicts.now }
    ensures conditions { IfOk result (λ f. f.conditions ≡ conditions.entry) }
    ensures found { IfOk result (λ f. AreFound outline.now (map seen conditions.entry.items)
        f.diagnoses.items f.runs.items f.explored) }
    ensures asked { IfOk result (λ f.
        IsAsked (is_some asked.entry) f.diagnoses.items f.explored) }
{
    let index = Index::new(alloc, outline)?;
    let diagnoser = Diagnoser {
        alloc,
        outline,
        index: &index,
    };
    let findings = found_by(diagnoser, conditions, verdicts)?;
    match asked {
        None => Ok(findings),
        Some(asked) => followed(diagnoser, findings, verdicts, asked),
    }
}

impl<'r, G: Gate, H: Threads + Wait + Sync> Prover<'r, G, H> {
    /// What searches find of each condition of an outline; and where one is false and runs are asked
    /// for, of each false one whether a run gets to such a state: among the moments of the runs from
    /// some starts, by at most 2,000,000 steps that are tried (`og_explore::gather`). Where no
    /// condition is found false, no run is followed. What is found is the same for every number of
    /// workers.
    ///
    /// # Errors
    ///
    /// `Spawn`, of two workers or more, where a thread could not be started. `Memory` where an
    /// allocation was refused.
    pub(crate) fn findings<'a>(
        &self,
        outline: &'a Outline,
        conditions: Vec<Condition<'a>>,
        asked: Option<&AskedRuns<'_>>,
    ) -> Result<Findings<'a>, PoolFault>
        requires { length conditions.items ≤ condition_limit }
        ensures conditions { IfOk result (λ f. f.conditions ≡ conditions.entry) }
        ensures found { IfOk result (λ f. AreFound outline.now (map seen conditions.entry.items)
            f.diagnoses.items f.runs.items f.explored) }
        ensures asked { IfOk result (λ f.
            IsAsked (is_some asked.entry) f.diagnoses.items f.explored) }
        ensures spawn { IfErr result (λ e. e ≡ Spawn → 1 < self.now.search.workers) }
    {
        let (budget, workers) = (self.search.budget.facts(), self.search.workers.count());
        let verdicts = examine_all(self.rt, self.alloc, &conditions, budget, workers, self.gate)?;
        let findings = findings_of(self.alloc, outline, conditions, &verdicts, asked)?;
        Ok(findings)
    }
}

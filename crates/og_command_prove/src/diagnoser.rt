//! The diagnosis of a condition by the verdict on it, or by a run that gets to a state in which it is
//! false.

ghost use Rattle.std.specs.Prelude.{◌≡◌, ◌⊎◌, None, Some, IfOk, OnOk, IfSome, MatchOption};
ghost use Rattle.og_cond.specs.Seen.{seen};
ghost use Rattle.og_find.specs.Found.{IsVerdict};
ghost use Rattle.og_report_prove.specs.Diagnosis.{IsDiagnosis, IsAllowed, Follows};
ghost use Rattle.og_report_runs.specs.Runs.{IsRun};
ghost use Rattle.og_report_runs.specs.RunDiagnosis.{LeadsTo, IsDiagnosisBy};
ghost use Rattle.og_command_prove.specs.Found.{IsOfRun, IsFound};
ghost use Rattle.og_command_prove.specs.Moments.{lists_of, AreMoments, IsDiagnoser};

use crate::finding::Finding;
use og_cond::Condition;
use og_explore::{Range, Reach};
use og_find::Verdict;
use og_report_prove::{Diagnosis, diagnose};
use og_report_runs::{Run, Witness, diagnose_by_run, find_run};
use og_typed::{Index, Outline};
use std::alloc::{AllocError, Global};
use std::mem;

/// What was reached by the runs from some starts.
#[derive(Drop)]
pub(crate) struct Moments<'a> {
    /// The lists of ranges within which the runs start.
    pub(crate) lists: Vec<Vec<Range>>,
    pub(crate) reach: Reach<'a>,
}

/// What diagnoses of an outline's conditions are made with.
#[derive(Clone, Copy)]
pub(crate) struct Diagnoser<'s, 'a> {
    pub(crate) alloc: Global,
    pub(crate) outline: &'a Outline,
    pub(crate) index: &'s Index<'a>,
}

// The finding with the run, where the condition is false by the diagnosis.
fn finding_with<'a>(
    outline: &Outline,
    diagnosis: Diagnosis<'a>,
    witness: Box<Witness>,
) -> Finding<'a>
    requires { IsDiagnosisBy outline.now witness.value diagnosis }
    ensures diagnosis { result.diagnosis ≡ diagnosis.entry }
    ensures run { (result.run ≡ Run.Reached witness) ⊎ (result.run ≡ Run.Open) }
    ensures of { IsOfRun outline.now result.run result.diagnosis }
{
    match diagnosis {
        Diagnosis::False(block) => Finding {
            diagnosis: Diagnosis::False(block),
            run: Run::Reached(witness),
        },
        other => Finding {
            diagnosis: other,
            run: Run::Open,
        },
    }
}

impl<'s, 'a> Diagnoser<'s, 'a> {
    /// The diagnosis of a condition by the verdict on it, as by `og_report_prove::diagnose`; open
    /// where there is none.
    ///
    /// # Errors
    ///
    /// An allocation was refused.
    pub(crate) fn diagnosed_by(
        &self,
        condition: &Condition,
        verdict: Option<&Verdict>,
    ) -> Result<Diagnosis<'a>, AllocError>
        requires diagnoser { IsDiagnoser self.now }
        requires verdict { IfSome verdict (λ v. IsVerdict (seen condition.now) v.now) }
        ensures diagnosis { IfOk result (IsDiagnosis self.now.outline.now (seen condition.now)) }
        ensures allowed { IfOk result (IsAllowed self.now.outline.now) }
        ensures follows { IfOk result (λ t.
            MatchOption verdict.entry (t ≡ Diagnosis.Open) (λ v. Follows v.now t)) }
    {
        match verdict {
            Some(verdict) => diagnose(self.alloc, self.outline, self.index, condition, verdict),
            None => Ok(Diagnosis::Open),
        }
    }

    // The finding on a condition, with the diagnosis by the run.
    fn finding_of(
        &self,
        condition: &Condition<'a>,
        witness: Box<Witness>,
    ) -> Result<Finding<'a>, AllocError>
        requires diagnoser { IsDiagnoser self.now }
        requires run { LeadsTo self.now.outline.now (seen condition.now) witness.value }
        ensures diagnosis { IfOk result (λ f.
            IsDiagnosis self.now.outline.now (seen condition.now) f.diagnosis) }
        ensures run { IfOk result (λ f. (f.run ≡ Run.Reached witness) ⊎ (f.run ≡ Run.Open)) }
        ensures of { IfOk result (λ f. IsOfRun self.now.outline.now f.run f.diagnosis) }
    {
        let diagnosis = diagnose_by_run(self.alloc, self.outline, self.index, condition, &witness)?;
        Ok(finding_with(self.outline, diagnosis, witness))
    }

    // The finding on a condition that is false, by what is known of the runs.
    fn finding_by_run(
        &self,
        moments: &Moments<'a>,
        condition: &Condition<'a>,
        diagnosis: Diagnosis<'a>,
        run: Run,
    ) -> Result<Finding<'a>, AllocError>
        requires diagnoser { IsDiagnoser self.now }
        requires diagnosis { IsDiagnosis self.now.outline.now (seen condition.now) diagnosis }
        requires allowed { IsAllowed self.now.outline.now diagnosis }
        requires run { IsRun self.now.outline.now (lists_of moments.now) (seen condition.now) run }
        ensures { IfOk result (λ f. IsFound self.now.outline.now (Some (lists_of moments.now))
            (seen condition.now) f.diagnosis f.run) }
    {
        match run {
            Run::Reached(witness) => self.finding_of(condition, witness),
            Run::Never => Ok(Finding {
                diagnosis,
                run: Run::Never,
            }),
            Run::Open => Ok(Finding {
                diagnosis,
                run: Run::Open,
            }),
        }
    }

    /// Puts in what is known of the runs to a condition: a run that gets to a state in which it is
    /// false gives the diagnosis, as `og_report_runs::diagnose_by_run`. Of one that is not false no
    /// run is sought.
    ///
    /// # Errors
    ///
    /// An allocation was refused; the diagnosis and what is known are of no use then.
    pub(crate) fn follow(
        &self,
        moments: &Moments<'a>,
        condition: &Condition<'a>,
        diagnosis: &mut Diagnosis<'a>,
        run: &mut Run,
    ) -> Result<(), AllocError>
        requires diagnoser { IsDiagnoser self.now }
        requires moments { AreMoments self.now.outline.now moments.now }
        requires found { IsFound self.now.outline.now None (seen condition.now) diagnosis.old run.old }
        ensures { OnOk result (IsFound self.now.outline.now (Some (lists_of moments.now))
            (seen condition.now) diagnosis.new run.new) }
    {
        if !diagnosis.is_false() {
            return Ok(());
        }
        let (lists, reach) = (moments.lists.as_slice(), &moments.reach);
        let sought = find_run(
            self.alloc,
            self.outline,
            self.index,
            lists,
            reach,
            condition,
        )?;
        let given = mem::replace(diagnosis, Diagnosis::Open);
        let found = self.finding_by_run(moments, condition, given, sought)?;
        *diagnosis = found.diagnosis;
        *run = found.run;
        Ok(())
    }
}

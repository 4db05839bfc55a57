//! The report of a condition by a run that gets to a state in which it is false.

ghost use Rattle.std.specs.Prelude.{◌≡◌, IfOk};
ghost use Rattle.og_typed.specs.Machine.{IsReached};
ghost use Rattle.og_cond.specs.Seen.{seen};
ghost use Rattle.og_find.specs.Found.{IsFalseAt};
ghost use Rattle.og_report_explain.specs.Explanations.{IsExplained};
ghost use Rattle.og_report_prove.specs.Diagnosis.{IsBlock, IsDiagnosis};
ghost use Rattle.og_report_runs.specs.RunDiagnosis.{IsPlaced, IsDiagnosisAt, LeadsTo, IsDiagnosisBy};

use crate::stuck::stands_at;
use crate::witness::Witness;
use og_cond::Condition;
use og_report_explain::{Explanation, Fault, Obligation, Stand, Unexplained, explain};
use og_report_prove::{Block, Diagnosis, block_of};
use og_step::Moment;
use og_subst::Values;
use og_typed::{Index, Outline};
use og_violation::moment_after;
use std::alloc::{AllocError, Global};

// With these stands in place of those in the report.
fn with_stands<'a>(explanation: Explanation<'a>, stands: Vec<Stand<'a>>) -> Explanation<'a>
    ensures known { result.known ≡ explanation.entry.known }
    ensures starts { result.starts ≡ explanation.entry.starts }
    ensures test { result.test ≡ explanation.entry.test }
    ensures action { result.action ≡ explanation.entry.action }
    ensures after { result.after ≡ explanation.entry.after }
    ensures fault { result.fault ≡ Fault.Blocked stands.entry }
{
    Explanation {
        fault: Fault::Blocked(stands),
        ..explanation
    }
}

// A condition at a moment of its outline.
#[derive(Clone, Copy)]
struct Met<'m, 'a, 'c> {
    obligation: Obligation<'m, 'a, 'c>,
    moment: &'m Moment<'a>,
}

impl<'m, 'a, 'c> Met<'m, 'a, 'c> {
    // Why the condition is false at the moment. Where that says where processes stand, the moment
    // has them there.
    fn explained(&self, alloc: Global) -> Result<Explanation<'a>, Unexplained>
        requires index { self.now.obligation.index.now ≡ self.now.obligation.outline.now }
        requires outline { self.now.moment.now.outline ≡ self.now.obligation.outline.now }
        requires reached { IsReached self.now.obligation.outline.now self.now.moment.now.moment }
        ensures explained { IfOk result (IsExplained self.now.obligation.outline.now
            (seen self.now.obligation.condition.now) self.now.moment.now.moment.state) }
        ensures places { IfOk result (λ e.
            IsPlaced self.now.obligation.outline.now self.now.moment.now.moment e.fault) }
    {
        let (outline, index) = (self.obligation.outline, self.obligation.index);
        let (condition, moment) = (self.obligation.condition, self.moment);
        let explanation = explain(alloc, outline, index, condition, moment.state())?;
        let Fault::Blocked(_) = &explanation.fault else {
            return Ok(explanation);
        };
        if !moment.is_stuck() {
            return Err(Unexplained::Open);
        }
        let stands = stands_at(alloc, outline, index, moment)?;
        Ok(with_stands(explanation, stands))
    }

    // The block of the condition, which is false at the moment.
    fn block(&self, alloc: Global) -> Result<Block<'a>, Unexplained>
        requires index { self.now.obligation.index.now ≡ self.now.obligation.outline.now }
        requires outline { self.now.moment.now.outline ≡ self.now.obligation.outline.now }
        requires reached { IsReached self.now.obligation.outline.now self.now.moment.now.moment }
        requires is_false { IsFalseAt (seen self.now.obligation.condition.now)
            self.now.moment.now.moment.state }
        ensures block { IfOk result (IsBlock self.now.obligation.outline.now
            (seen self.now.obligation.condition.now)) }
        ensures state { IfOk result (λ b. b.values ≡ self.now.moment.now.moment.state) }
        ensures places { IfOk result (λ b. IsPlaced self.now.obligation.outline.now
            self.now.moment.now.moment b.details.value.explanation.fault) }
    {
        let (outline, index) = (self.obligation.outline, self.obligation.index);
        let explanation = self.explained(alloc)?;
        let values = Values::of(alloc, self.moment.state())?;
        block_of(
            alloc,
            outline,
            index,
            self.obligation.condition,
            values,
            explanation,
        )
    }
}

// The report of a condition that is false at the moment.
fn diagnosis_at<'a>(
    alloc: Global,
    outline: &'a Outline,
    index: &Index<'a>,
    condition: &Condition,
    moment: &Moment<'a>,
) -> Result<Diagnosis<'a>, AllocError>
    requires index { index.now ≡ outline.now }
    requires outline { moment.now.outline ≡ outline.now }
    requires reached { IsReached outline.now moment.now.moment }
    requires is_false { IsFalseAt (seen condition.now) moment.now.moment.state }
    ensures diagnosis { IfOk result (IsDiagnosis outline.now (seen condition.now)) }
    ensures moment { IfOk result (IsDiagnosisAt outline.now moment.now.moment) }
{
    let obligation = Obligation {
        outline,
        index,
        condition,
    };
    let met = Met { obligation, moment };
    Diagnosis::of_block(met.block(alloc))
}

/// The report of a condition by a run that gets to a state in which it is false: that state and its
/// explanation, as `IsExplained` says; where that says where processes stand, the run has them
/// there. It is reported as open where a value leaves 128 bits.
///
/// # Errors
///
/// An allocation was refused.
pub fn diagnose_by_run<'a>(
    alloc: Global,
    outline: &'a Outline,
    index: &Index<'a>,
    condition: &Condition,
    witness: &Witness,
) -> Result<Diagnosis<'a>, AllocError>
    requires index { index.now ≡ outline.now }
    requires run { LeadsTo outline.now (seen condition.now) witness.now }
    ensures diagnosis { IfOk result (IsDiagnosis outline.now (seen condition.now)) }
    ensures run { IfOk result (IsDiagnosisBy outline.now witness.now) }
{
    match moment_after(alloc, outline, &witness.values, &witness.history)? {
        Some(moment) => {
            let diagnosis = diagnosis_at(alloc, outline, index, condition, &moment)?;
            Ok(diagnosis)
        }
        None => Ok(Diagnosis::Open),
    }
}

//! The answer for an outline: its findings in a form, and the status.

ghost use Rattle.std.specs.Prelude.{◌≡◌, ◌<◌, ◌≤◌, Bool, true, is_some, length, map, IfOk, IfErr};
ghost use Rattle.og_typed.specs.Erase.{erased};
ghost use Rattle.og_cond.specs.Conditions.{conditions as conditions_of};
ghost use Rattle.og_cond.specs.Limits.{condition_limit};
ghost use Rattle.og_cond.specs.Seen.{seen};
ghost use Rattle.og_pool.specs.declared.fault.PoolFault.TheVariants.{Spawn};
ghost use Rattle.og_report_prove.specs.Report.{is_unblocked};
ghost use Rattle.og_report_prove.specs.Diagnosis.{AreDiagnoses};
ghost use Rattle.og_theorem.specs.NeverStuck.{IsNeverStuck};
ghost use Rattle.og_theorem.specs.Sound.{IsSound, IsSoundErased};
ghost use Rattle.og_judge.specs.NotJudged.{OnInput};
ghost use Rattle.og_judge.specs.declared.refusal.Refusal.TheVariants as refusals;
ghost use Rattle.og_report_text.specs.InputErrors.{IsFaultOfCount};
ghost use Rattle.og_command_prove.specs.Advice.{AreAdvised, HasAdvice};
ghost use Rattle.og_command_prove.specs.Answer.{status_of, IsReported};
ghost use Rattle.og_command_prove.specs.Found.{IsAsked, AreFound};
ghost use Rattle.og_report_text.specs.Subject.{subject_of, IsShort};

use crate::advising::Advisor;
use crate::diagnoser::Diagnoser;
use crate::finding::Findings;
use crate::form::ReportForm;
use crate::printing::printed;
use crate::prover::Prover;
use crate::searching::AskedRuns;
use og_cond::{Condition, conditions};
use og_judge::Refusal;
use og_pool::{Gate, PoolFault};
use og_report_findings::Suggestion;
use og_report_prove::{Diagnosis, is_safe, is_unblocked};
use og_report_text::{Answer, Subject};
use og_theorem::Proved;
use og_typed::{Index, Outline};
use std::alloc::{AllocError, Global};
use std::sync::Wait;
use std::thread::Threads;

// The status: 0 where each condition but the last is proved, else 1. Takes no memory.
fn status_of(outline: &Outline, diagnoses: &[Diagnosis]) -> u8
    requires { AreDiagnoses outline.now (conditions_of outline.now) diagnoses.now }
    ensures status { result ≡ status_of diagnoses.now }
    ensures sound { result ≡ 0 → IsSound outline.now × IsSoundErased outline.now }
    ensures unblocked { result ≡ 0 → is_unblocked diagnoses.now ≡ true
        → IsNeverStuck outline.now × IsNeverStuck (erased outline.now) }
{
    if !is_safe(diagnoses) {
        return 1;
    }
    // Asked for their clauses alone: what they say of the runs.
    let proved = Proved::new(outline, is_unblocked(diagnoses));
    proved.outline();
    proved.unblocked();
    0
}

// The findings in a form, and the status.
fn answer_of<'a>(
    alloc: Global,
    subject: &Subject,
    findings: Findings<'a>,
    advice: Vec<Vec<Suggestion<'a>>>,
    form: ReportForm,
) -> Result<Answer, AllocError>
    requires short { IsShort (subject_of subject.now) }
    requires few { length (conditions_of subject.now.outline.now) ≤ condition_limit }
    requires listed { map seen findings.conditions.items ≡ conditions_of subject.now.outline.now }
    requires found { AreFound subject.now.outline.now (conditions_of subject.now.outline.now)
        findings.diagnoses.items findings.runs.items findings.explored }
    requires advised { AreAdvised (conditions_of subject.now.outline.now)
        findings.diagnoses.items advice.items }
    requires in_form { HasAdvice form advice.items }
    ensures { IfOk result (λ a. (runs : Bool)
        → IsAsked runs findings.entry.diagnoses.items findings.entry.explored
        → IsReported form.entry runs (subject_of subject.now) a) }
{
    let table = findings.with_advice(advice);
    let text = printed(alloc, subject, &table, form)?;
    let status = status_of(subject.outline, &table.diagnoses);
    Ok(Answer { text, status })
}

impl<'r, G: Gate, H: Threads + Wait + Sync> Prover<'r, G, H> {
    // What is suggested below each false condition, where the form has that.
    fn advice_in<'t>(
        &self,
        outline: &'t Outline,
        findings: &Findings<'t>,
        candidates: &[Suggestion<'t>],
        form: ReportForm,
    ) -> Result<Vec<Vec<Suggestion<'t>>>, AllocError>
        requires { length findings.now.diagnoses.items ≡ length findings.now.conditions.items }
        ensures advised { IfOk result (λ all. AreAdvised (map seen findings.now.conditions.items)
            findings.now.diagnoses.items all.items) }
        ensures in_form { IfOk result (λ all. HasAdvice form.entry all.items) }
    {
        let alloc = self.alloc;
        match form {
            ReportForm::Advised => {
                let index = Index::new(alloc, outline)?;
                let diagnoser = Diagnoser {
                    alloc,
                    outline,
                    index: &index,
                };
                let budget = self.search.budget.facts();
                let (conditions, diagnoses) = (&findings.conditions, &findings.diagnoses);
                Advisor { diagnoser, budget }.advice(conditions, diagnoses, candidates)
            }
            ReportForm::Text | ReportForm::Json | ReportForm::Page(_) => Ok(Vec::new(alloc)),
        }
    }

    // The answer for the conditions of an outline.
    fn reported<'t>(
        &self,
        subject: &Subject<'t>,
        conditions: Vec<Condition<'t>>,
        asked: Option<&AskedRuns<'_>>,
        candidates: &[Suggestion<'t>],
        form: ReportForm,
    ) -> Result<Answer, PoolFault>
        requires short { IsShort (subject_of subject.now) }
        requires listed { map seen conditions.items ≡ conditions_of subject.now.outline.now }
        requires few { length conditions.items ≤ condition_limit }
        ensures answer { IfOk result (IsReported form.entry (is_some asked.entry) (subject_of subject.now)) }
        ensures spawn { IfErr result (λ e. e ≡ Spawn → 1 < self.now.search.workers) }
    {
        let findings = self.findings(subject.outline, conditions, asked)?;
        let advice = self.advice_in(subject.outline, &findings, candidates, form)?;
        let answer = answer_of(self.alloc, subject, findings, advice, form)?;
        Ok(answer)
    }

    /// What is found of the conditions of an outline, in a form, and the status: 0 where every
    /// condition but the last is proved, and 1 where one is not. Status 0 says that every run of
    /// the outline is as promised, with its auxiliaries and without them; and a text with the verdict
    /// that none gets stuck, that none does. The texts have at most 1,048,576 bytes. The candidates are
    /// tried where the form has advice.
    ///
    /// # Errors
    ///
    /// `Input` where the outline has more than 4,000,000 conditions. `Spawn`, of two workers or
    /// more, where a thread could not be started. `Memory` where an allocation was refused.
    pub(crate) fn answer<'t>(
        &self,
        subject: &Subject<'t>,
        asked: Option<&AskedRuns<'_>>,
        candidates: &[Suggestion<'t>],
        form: ReportForm,
    ) -> Result<Answer, Refusal>
        requires { IsShort (subject_of subject.now) }
        ensures answer { IfOk result (IsReported form.entry (is_some asked.entry) (subject_of subject.now)) }
        ensures refused { IfErr result (OnInput (IsFaultOfCount subject.now.outline.now)) }
        ensures spawn { IfErr result (λ e. e ≡ refusals.Spawn → 1 < self.now.search.workers) }
    {
        let list = conditions(self.alloc, subject.outline)?;
        Ok(self.reported(subject, list, asked, candidates, form)?)
    }
}

//! From a text to what is wrong with it.

ghost use Rattle.std.specs.Prelude.{◌≡◌, ◌≤◌, ◌<◌, ◌^◌, length, map, IfOk, IfErr};
ghost use Rattle.og_cond.specs.Conditions.{conditions as conditions_of};
ghost use Rattle.og_cond.specs.Limits.{condition_limit};
ghost use Rattle.og_cond.specs.Seen.{seen};
ghost use Rattle.og_report_prove.specs.Diagnosis.{AreDiagnoses};
ghost use Rattle.og_report_text.specs.Subject.{subject_of, IsShort};
ghost use Rattle.og_report_text.specs.declared.fault.InputFault.TheVariants as inputs;
ghost use Rattle.og_template_outline.specs.Faults.{place_of_fault};
ghost use Rattle.og_template_outline.specs.Meaning.{IsMeaning};
ghost use Rattle.og_typed.specs.Refused.{IsSourceFault};
ghost use Rattle.og_lsp_diagnostics.specs.Extents.{LiesIn};
ghost use Rattle.og_lsp_document.specs.Parts.{AreParts, AreIn, asked};
ghost use Rattle.og_lsp_document.specs.Stepping.{AreStatements, AreStatementsIn};
ghost use Rattle.og_lsp_document.specs.Judged.{IsAlone, IsOnly, IsFound, IsAsked, IsJudgement, IsWithin, summary_at};
ghost use Rattle.og_lsp_diagnostics.specs.Refusals.{IsPlaced, IsOfSource, IsOfTemplate};
ghost use Rattle.og_lsp_diagnostics.specs.Said.{text_of, rows_of, IsSheet};
ghost use Rattle.og_lsp_document.specs.declared.fault.JudgeError.TheVariants.{Memory, Spawn};

use crate::diagnosing::diagnoses_of;
use crate::fault::JudgeError;
use crate::judged::{Judgement, PartCount, StatementCount, Summary};
use crate::parts::parts_of;
use crate::reviewing::reviewed;
use crate::stepping::statements_of;
use og_cond::{Condition, ConditionsError, TooMany, conditions};
use og_find_all::examine_all;
use og_io::{Budget, Workers};
use og_lsp_diagnostics::{Diagnostic, Teller, diagnostics_of, of_source, of_template};
use og_pool::Gate;
use og_report_prove::{Diagnosis, Page, Totals, is_safe, is_unblocked};
use og_report_text::{InputFault, Origins, Places, Subject};
use og_template_outline::{ExpandFault, Meaning, MeaningError, Takes, read_text};
use og_typed::{Outline, SourceFault};
use std::alloc::{AllocError, Global};
use std::sync::Wait;
use std::thread::Threads;

/// What texts are judged with: threads, memory, the gate of the searches, and how they are made.
#[derive(Clone, Copy)]
pub struct Judge<'r, G, H> {
    /// Starts threads.
    pub rt: &'r H,
    /// Gives memory.
    pub alloc: Global,
    /// Sees each search begin and end, as in `og_find_all::examine_all`.
    pub gate: &'r G,
    /// The budget of each search, as in `og_find::examine`.
    pub budget: Budget,
    /// How many workers search.
    pub workers: Workers,
}

// What is found of a text of which one thing is wrong.
fn only(alloc: Global, diagnostic: Diagnostic) -> Result<Judgement, AllocError>
    ensures { IfOk result (IsAlone diagnostic) }
{
    let mut diagnostics = Vec::new(alloc);
    diagnostics.push(diagnostic)?;
    Ok(Judgement {
        diagnostics,
        summary: None,
        remarks: Vec::new(alloc),
        parts: Vec::new(alloc),
        statements: Vec::new(alloc),
    })
}

// The totals of the findings, at the `cobegin` of the text.
fn summary_of(teller: &Teller, cobegin_at: u32, diagnoses: &[Diagnosis]) -> Summary
    requires { IsSheet teller.now.page }
    ensures summary { result ≡ summary_at (text_of teller.now.page) (rows_of teller.now.page) cobegin_at diagnoses.now }
    ensures lies { LiesIn (text_of teller.now.page) result.cobegin }
{
    let totals = Totals::of(diagnoses);
    Summary {
        cobegin: teller.span(cobegin_at),
        conditions: diagnoses.len(),
        refuted: totals.refuted,
        still_open: totals.still_open,
        safe: is_safe(diagnoses),
        unblocked: is_unblocked(diagnoses),
    }
}

// The counts of its parts, and those of its statements.
fn counts_of(
    teller: &Teller,
    outline: &Outline,
    conditions: &[Condition],
    diagnoses: &[Diagnosis],
) -> Result<(Vec<PartCount>, Vec<StatementCount>), AllocError>
    requires sheet { IsSheet teller.now.page }
    requires each { length diagnoses.now ≡ length conditions.now }
    requires few { length diagnoses.now < 2 ^ 32 }
    ensures parts { IfOk result (λ counts. AreParts (text_of teller.now.page)
        (asked (rows_of teller.now.page) (map seen conditions.now) diagnoses.now) counts.0.items) }
    ensures parts_lie { IfOk result (λ counts. AreIn (text_of teller.now.page) counts.0.items) }
    ensures statements { IfOk result (λ counts. AreStatements (text_of teller.now.page)
        (rows_of teller.now.page) outline.now (map seen conditions.now) diagnoses.now
        counts.1.items) }
    ensures statements_lie { IfOk result (λ counts.
        AreStatementsIn (text_of teller.now.page) counts.1.items) }
{
    let parts = parts_of(teller, conditions, diagnoses)?;
    let statements = statements_of(teller, outline, conditions, diagnoses)?;
    Ok((parts, statements))
}

// What is said of an outline in its texts by the findings on its conditions.
fn told(
    alloc: Global,
    subject: &Subject,
    conditions: &[Condition],
    diagnoses: &[Diagnosis],
    budget: Budget,
) -> Result<Judgement, AllocError>
    requires short { IsShort (subject_of subject.now) }
    requires listed { map seen conditions.now ≡ conditions_of subject.now.outline.now }
    requires are { AreDiagnoses subject.now.outline.now (map seen conditions.now) diagnoses.now }
    requires few { length conditions.now ≤ condition_limit }
    ensures found { IfOk result (IsFound (subject_of subject.now)) }
    ensures within { IfOk result (IsWithin subject.now.given.now) }
{
    let places = Places::new(alloc, subject.given)?;
    let origins = Origins {
        source: subject.given,
        places: &places,
        rows: subject.rows,
    };
    let page = Page {
        names: subject.outline.names(),
        origins: &origins,
    };
    let teller = Teller { alloc, page };
    let diagnostics = diagnostics_of(&teller, conditions, diagnoses)?;
    let remarks = reviewed(&teller, subject.outline, budget)?;
    let counts = counts_of(&teller, subject.outline, conditions, diagnoses)?;
    let (parts, statements) = counts;
    let summary = summary_of(&teller, subject.outline.cobegin_at(), diagnoses);
    Ok(Judgement {
        diagnostics,
        summary: Some(summary),
        remarks,
        parts,
        statements,
    })
}

impl<'r, G: Gate, H: Threads + Wait + Sync> Judge<'r, G, H> {
    // What is found of the conditions of an outline in its texts.
    fn of_conditions(
        &self,
        subject: &Subject<'_>,
        conditions: &[Condition],
    ) -> Result<Judgement, JudgeError>
        requires short { IsShort (subject_of subject.now) }
        requires listed { map seen conditions.now ≡ conditions_of subject.now.outline.now }
        requires few { length conditions.now ≤ condition_limit }
        ensures found { IfOk result (IsFound (subject_of subject.now)) }
        ensures within { IfOk result (IsWithin subject.now.given.now) }
        ensures spawn { IfErr result (λ e. e ≡ Spawn → 1 < self.now.workers) }
    {
        let (budget, workers) = (self.budget.facts(), self.workers.count());
        let alloc = self.alloc;
        let verdicts = examine_all(self.rt, alloc, conditions, budget, workers, self.gate)?;
        let diagnoses = diagnoses_of(alloc, subject.outline, conditions, &verdicts)?;
        drop(verdicts);
        Ok(told(alloc, subject, conditions, &diagnoses, self.budget)?)
    }

    // What is found of an outline that has too many conditions.
    fn refused(&self, text: &[u8], fault: TooMany) -> Result<Judgement, JudgeError>
        ensures only { IfOk result (IsOnly (IsOfSource text.now (inputs.Conditions fault))) }
        ensures within { IfOk result (IsWithin text.now) }
        ensures memory { IfErr result (λ e. e ≡ Memory) }
    {
        let diagnostic = of_source(self.alloc, text, &InputFault::Conditions(fault), None)?;
        Ok(only(self.alloc, diagnostic)?)
    }

    // What is found of a source that is refused.
    fn of_fault(&self, text: &[u8], fault: SourceFault) -> Result<Judgement, JudgeError>
        requires { IsSourceFault text.now fault }
        ensures only { IfOk result (IsOnly (IsOfSource text.now (inputs.Source fault))) }
        ensures within { IfOk result (IsWithin text.now) }
        ensures memory { IfErr result (λ e. e ≡ Memory) }
    {
        let place = fault.place();
        let diagnostic = of_source(self.alloc, text, &InputFault::Source(fault), place)?;
        Ok(only(self.alloc, diagnostic)?)
    }

    // What is found of a template that is refused.
    fn of_expansion(&self, text: &[u8], fault: &ExpandFault) -> Result<Judgement, JudgeError>
        requires { IsPlaced text.now (place_of_fault fault.now) }
        ensures only { IfOk result (IsOnly (IsOfTemplate text.now fault.now)) }
        ensures within { IfOk result (IsWithin text.now) }
        ensures memory { IfErr result (λ e. e ≡ Memory) }
    {
        let diagnostic = of_template(self.alloc, text, fault)?;
        Ok(only(self.alloc, diagnostic)?)
    }

    // What is found of an outline in its texts.
    fn of_outline(&self, subject: &Subject<'_>) -> Result<Judgement, JudgeError>
        requires { IsShort (subject_of subject.now) }
        ensures asked { IfOk result (IsAsked (subject_of subject.now)) }
        ensures within { IfOk result (IsWithin subject.now.given.now) }
        ensures spawn { IfErr result (λ e. e ≡ Spawn → 1 < self.now.workers) }
    {
        match conditions(self.alloc, subject.outline) {
            Ok(conditions) => self.of_conditions(subject, &conditions),
            Err(ConditionsError::Memory) => Err(JudgeError::Memory),
            Err(ConditionsError::Fault(fault)) => self.refused(subject.given, fault),
        }
    }

    // What is found of the outline that a text means.
    fn of_meaning(&self, text: &[u8], meaning: &Meaning) -> Result<Judgement, JudgeError>
        requires { IsMeaning text.now meaning.now }
        ensures judged { IfOk result (IsJudgement text.now) }
        ensures within { IfOk result (IsWithin text.now) }
        ensures spawn { IfErr result (λ e. e ≡ Spawn → 1 < self.now.workers) }
    {
        let subject = meaning.subject(text);
        self.of_outline(&subject)
    }

    /// What is wrong with a text, an outline or a template. Of a text that `og prove` refuses it is
    /// its fault; of another one each condition that is not proved. It is the same for every number
    /// of workers.
    ///
    /// # Errors
    ///
    /// `Memory` where an allocation was refused. `Spawn`, of two workers or more, where a thread
    /// could not be started.
    pub fn judge(&self, text: &[u8]) -> Result<Judgement, JudgeError>
        ensures judged { IfOk result (IsJudgement text.now) }
        ensures within { IfOk result (IsWithin text.now) }
        ensures spawn { IfErr result (λ e. e ≡ Spawn → 1 < self.now.workers) }
    {
        match read_text(self.alloc, text, &[], Takes::Constants) {
            Ok(read) => {
                let judged = self.of_meaning(text, &read.meaning);
                drop(read);
                judged
            }
            Err(MeaningError::Memory) => Err(JudgeError::Memory),
            Err(MeaningError::Source(fault)) => self.of_fault(text, fault),
            Err(MeaningError::Template(fault)) => self.of_expansion(text, &fault),
            Err(MeaningError::BadValue(_)) => unreachable!(),
        }
    }
}

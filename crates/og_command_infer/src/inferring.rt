//! From an outline and words to a completed outline.

ghost use Rattle.std.specs.Prelude.{◌≡◌, ◌≤◌, ◌<◌, ◌^◌, ℕ, false, map, length, Ok, Err, IfOk, IfErr, IfSome};
ghost use Rattle.og_typed.specs.Source.{IsSource};
ghost use Rattle.og_judge.specs.NotJudged.{OnInput};
ghost use Rattle.og_judge.specs.declared.refusal.Refusal.TheVariants as refusals;
ghost use Rattle.og_completion.specs.Completes.{Completes};
ghost use Rattle.og_command_prove.specs.Reply.{WarrantsAnswer};
ghost use Rattle.og_report_text.specs.InputErrors.{IsFaultOfCount};
ghost use Rattle.og_report_text.specs.Subject.{subject_of, IsShort};
ghost use Rattle.og_infer_marks.specs.Edits.{edited};
ghost use Rattle.og_command_infer.specs.Inferred.{IsReply, IsCompleted, IsJudged, IsCompletion};

use crate::inferrer::{Added, Inferred, Inferrer, Reply, count_of};
use crate::original::not_found;
use crate::placing::edits;
use og_command_explore::{WordsError, given};
use og_command_prove::ReportForm;
use og_completion::{
    completed_by_itself, completes, progress_of_completed, soundness_of_completed,
};
use og_explore::Range;
use og_infer::{Addition, Inferred as Found, Limits, Wanted, infer};
use og_infer_marks::{Edit, edited};
use og_infer_places::{Places, starts};
use og_judge::Refusal;
use og_pool::{Gate, PoolFault};
use og_report_text::{Answer, Subject};
use og_typed::{Outline, Source, SourceError};
use std::alloc::AllocError;
use std::sync::Wait;
use std::thread::Threads;

// The starts that are sampled.
const STARTS: u32 = 24;

// How many tiers of candidates there are.
pub(crate) const TIERS: u8 = 3;

// A law: what a report warrants of an outline, it warrants of each one that this completes.
fn warranted(new: &Outline, old: &Outline)
    ensures { Completes new.now old.now → (form : ReportForm) (report : Answer)
        → WarrantsAnswer form new.now report → WarrantsAnswer form old.now report }
{
    new.follows_rule();
    old.follows_rule();
    soundness_of_completed();
    progress_of_completed();
}

// The answer; none where an input is refused.
fn unless_refused(judged: Result<Answer, Refusal>) -> Result<Option<Answer>, Refusal>
    ensures answer { IfOk result (λ some. IfSome some (λ answer. judged ≡ Ok answer)) }
    ensures refused { IfErr result (λ e. (judged ≡ Err e) × OnInput (λ _. ⊥) e) }
{
    match judged {
        Ok(answer) => Ok(Some(answer)),
        Err(Refusal::Input(_)) => Ok(None),
        Err(Refusal::Spawn) => Err(Refusal::Spawn),
        Err(Refusal::Memory) => Err(Refusal::Memory),
    }
}

/// How far a search of conjuncts goes, and what it hands out.
#[derive(Clone, Copy)]
pub(crate) struct Reach {
    /// How many questions it may ask.
    pub(crate) questions: u64,
    /// The last tier of candidates.
    pub(crate) tiers: u8,
    /// What it hands out.
    pub(crate) wanted: Wanted,
}

impl<'r, G: Gate, H: Threads + Wait + Sync> Inferrer<'r, G, H> {
    /// What a search finds of an outline whose runs start so.
    pub(crate) fn found(
        &self,
        outline: &Outline,
        given: &[Option<Range>],
        reach: Reach,
    ) -> Result<Found, Refusal>
        ensures refused { IfErr result (OnInput (λ _. ⊥)) }
        ensures spawn { IfErr result (λ e. e ≡ refusals.Spawn → 1 < self.now.effort.workers) }
    {
        let starts = starts(self.alloc, outline, given, STARTS)?;
        let limits = Limits {
            budget: self.effort.budget.facts(),
            questions: reach.questions,
            workers: self.effort.workers.count(),
            tiers: reach.tiers,
        };
        match infer(self.rt, self.alloc, outline, &starts, &limits, reach.wanted) {
            Ok(found) => Ok(found),
            Err(PoolFault::Memory) => Err(Refusal::Memory),
            Err(PoolFault::Spawn) if limits.workers > 1 => Err(Refusal::Spawn),
            // One worker starts no thread.
            Err(PoolFault::Spawn) => Ok(not_found(self.alloc)),
        }
    }

    // How many notes the outline has, the pre- and postcondition left out.
    fn notes_of(&self, outline: &Outline) -> Result<u32, AllocError> {
        let places = Places::of(self.alloc, outline)?;
        Ok(count_of(places.as_slice().len()))
    }

    // What `prove` reports of an outline in its own text.
    fn judged<'t>(
        &self,
        outline: &'t Outline,
        text: &'t [u8],
        form: ReportForm,
    ) -> Result<Answer, Refusal>
        requires { length text.now ≤ 2 ^ 20 }
        ensures report { IfOk result (IsJudged form.entry outline.now text.now) }
        ensures refused { IfErr result (OnInput (IsFaultOfCount outline.now)) }
        ensures spawn { IfErr result (λ e. e ≡ refusals.Spawn → 1 < self.now.effort.workers) }
    {
        let subject = Subject {
            outline,
            own: text,
            given: text,
            rows: None,
        };
        match self.prover(None).prove(&subject, &[], form)? {
            og_command_explore::Reply::Answer(answer) => Ok(answer),
            og_command_explore::Reply::BadValue(_) => unreachable!(),
        }
    }

    // What `prove` reports of a source, if its outline completes this one.
    fn judged_source(
        &self,
        outline: &Outline,
        source: &Source<'_>,
        form: ReportForm,
    ) -> Result<Option<Answer>, Refusal>
        ensures report { IfOk result
            (λ some. IfSome some (IsCompletion form.entry outline.now source.now.bytes)) }
        ensures refused { IfErr result (OnInput (λ _. ⊥)) }
        ensures spawn { IfErr result (λ e. e ≡ refusals.Spawn → 1 < self.now.effort.workers) }
    {
        let new = source.outline();
        if !completes(new, outline) {
            return Ok(None);
        }
        warranted(new, outline);
        unless_refused(self.judged(new, source.bytes(), form))
    }

    // What `prove` reports of the outline of an edited text, if it completes this one.
    fn judged_edited(
        &self,
        outline: &Outline,
        text: &[u8],
        form: ReportForm,
    ) -> Result<Option<Answer>, Refusal>
        ensures report { IfOk result (λ some. IfSome some (IsCompletion form.entry outline.now text.now)) }
        ensures refused { IfErr result (OnInput (λ _. ⊥)) }
        ensures spawn { IfErr result (λ e. e ≡ refusals.Spawn → 1 < self.now.effort.workers) }
    {
        match Source::read(self.alloc, text) {
            Ok(source) => self.judged_source(outline, &source, form),
            Err(SourceError::Memory) => Err(Refusal::Memory),
            Err(SourceError::Fault(_)) => Ok(None),
        }
    }

    /// The text with these edits made, if it is found to be a completion.
    pub(crate) fn with_edits(
        &self,
        subject: &Subject<'_>,
        edits: Vec<Edit>,
        added: Added,
        form: ReportForm,
    ) -> Result<Option<Inferred>, Refusal>
        ensures completed { IfOk result (λ some. IfSome some
            (λ i. (i.text.items ≡ edited i.edits.items 0 subject.now.own.now)
            × (i.edits.items ≡ edits.items)
            × IsCompletion form.entry subject.now.outline.now i.text.items i.report)) }
        ensures refused { IfErr result (OnInput (λ _. ⊥)) }
        ensures spawn { IfErr result (λ e. e ≡ refusals.Spawn → 1 < self.now.effort.workers) }
    {
        let Some(text) = edited(self.alloc, subject.own, &edits)? else {
            return Ok(None);
        };
        let Some(report) = self.judged_edited(subject.outline, &text, form)? else {
            return Ok(None);
        };
        Ok(Some(Inferred {
            text,
            edits,
            added,
            report,
        }))
    }

    // The text with these conjuncts added, if it is found to be a completion.
    fn with_additions(
        &self,
        subject: &Subject<'_>,
        additions: &[Addition],
        form: ReportForm,
    ) -> Result<Option<Inferred>, Refusal>
        ensures completed { IfOk result (λ some. IfSome some (IsCompleted form.entry false (subject_of subject.now))) }
        ensures refused { IfErr result (OnInput (λ _. ⊥)) }
        ensures spawn { IfErr result (λ e. e ≡ refusals.Spawn → 1 < self.now.effort.workers) }
    {
        let edits = edits(self.alloc, subject.own, additions)?;
        let added = Added::of(0, additions, self.notes_of(subject.outline)?);
        self.with_edits(subject, edits, added, form)
    }

    // The outline as it is.
    fn unchanged(&self, subject: &Subject<'_>, form: ReportForm) -> Result<Inferred, Refusal>
        requires short { IsShort (subject_of subject.now) }
        requires source { IsSource subject.now.own.now subject.now.outline.now }
        ensures completed { IfOk result (IsCompleted form.entry false (subject_of subject.now)) }
        ensures refused { IfErr result (OnInput (IsFaultOfCount subject.now.outline.now)) }
        ensures spawn { IfErr result (λ e. e ≡ refusals.Spawn → 1 < self.now.effort.workers) }
    {
        subject.outline.follows_rule();
        completed_by_itself();
        let report = self.judged(subject.outline, subject.own, form)?;
        let text = Vec::from_slice(self.alloc, subject.own)?;
        Ok(Inferred {
            text,
            edits: Vec::new(self.alloc),
            added: Added::of(0, &[], self.notes_of(subject.outline)?),
            report,
        })
    }

    // The outline with the conjuncts that were found for it, or as it is.
    fn completed(
        &self,
        subject: &Subject<'_>,
        found: &Found,
        form: ReportForm,
    ) -> Result<Inferred, Refusal>
        requires short { IsShort (subject_of subject.now) }
        requires source { IsSource subject.now.own.now subject.now.outline.now }
        ensures completed { IfOk result (IsCompleted form.entry false (subject_of subject.now)) }
        ensures refused { IfErr result (OnInput (IsFaultOfCount subject.now.outline.now)) }
        ensures spawn { IfErr result (λ e. e ≡ refusals.Spawn → 1 < self.now.effort.workers) }
    {
        match self.with_additions(subject, &found.additions, form)? {
            Some(inferred) => Ok(inferred),
            None => self.unchanged(subject, form),
        }
    }

    // The outline completed by what a search finds for it.
    fn inferred(
        &self,
        subject: &Subject<'_>,
        given: &[Option<Range>],
        form: ReportForm,
    ) -> Result<Inferred, Refusal>
        requires short { IsShort (subject_of subject.now) }
        requires source { IsSource subject.now.own.now subject.now.outline.now }
        ensures completed { IfOk result
            (IsCompleted form.entry self.now.effort.aux (subject_of subject.now)) }
        ensures refused { IfErr result (OnInput (IsFaultOfCount subject.now.outline.now)) }
        ensures spawn { IfErr result (λ e. e ≡ refusals.Spawn → 1 < self.now.effort.workers) }
    {
        let aux = self.effort.aux;
        let limit = self.effort.limit.facts();
        let reach = Reach {
            // The other half is left for auxiliaries.
            questions: if aux { limit / 2 } else { limit },
            tiers: TIERS,
            wanted: Wanted::Conjuncts,
        };
        let found = self.found(subject.outline, given, reach)?;
        if aux && found.unproved != Some(0) && found.tier > 0 {
            let left = limit.saturating_sub(found.questions);
            if let Some(inferred) = self.invented(subject, given, form, left)? {
                return Ok(inferred);
            }
        }
        self.completed(subject, &found, form)
    }

    /// The outline of a text of its own, of at most 1,048,576 bytes, with the conjuncts added to its
    /// notes that a search finds for it to be proved, and what `prove` reports of that, in a form.
    /// The words say where the runs start from which the search takes its samples, each NAME=INT or
    /// NAME=LO..HI. The text is as it was but for conjuncts at the end of notes, for notes that were
    /// `true`, and for parentheses round what a note says; and where auxiliaries may be added and are
    /// needed, for their declarations, and for assignments to them behind actions.
    ///
    /// Status 0 of the report says that every run of the given outline is as promised, with its
    /// auxiliaries and without them. The answer is the same for every number of workers.
    ///
    /// `BadValue` holds the first word that gives no variable a range.
    ///
    /// # Errors
    ///
    /// `Input`: the outline has more than 4,000,000 conditions. `Spawn`, of two workers or more,
    /// where a thread could not be started. `Memory` where an allocation was refused.
    pub fn infer<'a>(
        &self,
        subject: &Subject<'_>,
        words: &[&'a str],
        form: ReportForm,
    ) -> Result<Reply<'a>, Refusal>
        requires short { IsShort (subject_of subject.now) }
        requires source { IsSource subject.now.own.now subject.now.outline.now }
        ensures reply { IfOk result
            (IsReply form.entry self.now.effort.aux (subject_of subject.now) (map (λ w. w.now) words.now)) }
        ensures refused { IfErr result (OnInput (IsFaultOfCount subject.now.outline.now)) }
        ensures spawn { IfErr result (λ e. e ≡ refusals.Spawn → 1 < self.now.effort.workers) }
    {
        let given = match given(self.alloc, subject.outline, words) {
            Ok(given) => given,
            Err(WordsError::Bad(word)) => return Ok(Reply::BadValue(word)),
            Err(WordsError::Memory) => return Err(Refusal::Memory),
        };
        Ok(Reply::Inferred(self.inferred(subject, &given, form)?))
    }
}

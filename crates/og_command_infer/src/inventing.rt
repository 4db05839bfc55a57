//! Auxiliaries that are added to an outline where assertions alone do not suffice.

ghost use Rattle.std.specs.Prelude.{◌≡◌, ◌<◌, true, IfOk, IfErr, IfSome};
ghost use Rattle.og_judge.specs.NotJudged.{OnInput};
ghost use Rattle.og_judge.specs.declared.refusal.Refusal.TheVariants as refusals;
ghost use Rattle.og_report_text.specs.Subject.{subject_of};
ghost use Rattle.og_command_infer.specs.Inferred.{IsCompleted};

use crate::inferrer::{Added, Inferred, Inferrer, count_of};
use crate::inferring::{Reach, TIERS};
use crate::original::{Original, merged, moved, not_found, words_of};
use crate::placing::edits;
use og_command_prove::ReportForm;
use og_explore::Range;
use og_infer::{Inferred as Found, Wanted};
use og_infer_marks::{Marks, Plan, Style, actions, alike, edited};
use og_infer_places::Places;
use og_judge::Refusal;
use og_pool::Gate;
use og_report_text::Subject;
use og_typed::{Outline, Source, SourceError};
use std::alloc::{AllocError, Global};
use std::sync::Wait;
use std::thread::Threads;

// A plan with more is not tried: an outline has at most so many variables.
const MOST_AUXILIARIES: usize = 256;

// The styles that are tried, and how many hundredths of the questions that are left each may take.
const STYLES: [(Style, u64); 2] = [(Style::Counter, 20), (Style::Flags, 60)];

// A simpler plan may take so many times the questions of the first one that suffices, and at least
// so many.
const SHARE: u64 = 8;

const LEAST_QUESTIONS: u64 = 4_000;

// A plan that suffices, how many claims are not proved with it, the tier of candidates that it
// takes, how many questions a simpler plan may take, and how many are left.
#[derive(Drop)]
struct Draft {
    plan: Plan,
    unproved: Option<usize>,
    tier: u8,
    share: u64,
    left: u64,
}

impl Draft {
    // Whether as many claims are proved with what was found.
    fn is_matched_by(&self, found: &Found) -> bool {
        match (found.unproved, self.unproved) {
            (Some(now), Some(before)) => now <= before,
            _ => false,
        }
    }
}

// Marks, and the conjuncts that are found with them.
#[derive(Drop)]
struct Planned {
    marks: Marks,
    found: Found,
}

// The text of the outline with these marks, where they can be made.
fn marked_text(
    alloc: Global,
    original: &Original<'_, '_>,
    marks: &Marks,
) -> Result<Option<Vec<u8>>, AllocError> {
    let edits = marks.edits(alloc, original.text, original.places)?;
    edited(alloc, original.text, &edits)
}

impl<'r, G: Gate, H: Threads + Wait + Sync> Inferrer<'r, G, H> {
    // What a search finds of a changed outline, by the places of the original one.
    fn found_changed(
        &self,
        original: &Original<'_, '_>,
        outline: &Outline,
        reach: Reach,
    ) -> Result<Found, Refusal>
        ensures refused { IfErr result (OnInput (λ _. ⊥)) }
        ensures spawn { IfErr result (λ e. e ≡ refusals.Spawn → 1 < self.now.effort.workers) }
    {
        let found = self.found(outline, original.given, reach)?;
        let places = Places::of(self.alloc, outline)?;
        let Found {
            additions,
            unproved,
            is_final,
            tier,
            questions,
        } = found;
        Ok(Found {
            additions: moved(self.alloc, &places, original.places, additions)?,
            unproved,
            is_final,
            tier,
            questions,
        })
    }

    // What it finds of the outline of a changed text.
    fn found_in(
        &self,
        original: &Original<'_, '_>,
        text: &[u8],
        reach: Reach,
    ) -> Result<Found, Refusal>
        ensures refused { IfErr result (OnInput (λ _. ⊥)) }
        ensures spawn { IfErr result (λ e. e ≡ refusals.Spawn → 1 < self.now.effort.workers) }
    {
        match Source::read(self.alloc, text) {
            Ok(source) => self.found_changed(original, source.outline(), reach),
            Err(SourceError::Memory) => Err(Refusal::Memory),
            Err(SourceError::Fault(_)) => Ok(not_found(self.alloc)),
        }
    }

    // What it finds of the outline with these marks.
    fn found_marked(
        &self,
        original: &Original<'_, '_>,
        marks: &Marks,
        reach: Reach,
    ) -> Result<Found, Refusal>
        ensures refused { IfErr result (OnInput (λ _. ⊥)) }
        ensures spawn { IfErr result (λ e. e ≡ refusals.Spawn → 1 < self.now.effort.workers) }
    {
        match marked_text(self.alloc, original, marks)? {
            Some(text) => self.found_in(original, &text, reach),
            None => Ok(not_found(self.alloc)),
        }
    }

    // Whether some conjuncts suffice with the auxiliaries of a plan.
    fn found_planned(
        &self,
        original: &Original<'_, '_>,
        plan: &Plan,
        questions: u64,
        tiers: u8,
    ) -> Result<Found, Refusal>
        ensures refused { IfErr result (OnInput (λ _. ⊥)) }
        ensures spawn { IfErr result (λ e. e ≡ refusals.Spawn → 1 < self.now.effort.workers) }
    {
        let reach = Reach {
            questions,
            tiers,
            wanted: Wanted::Completeness,
        };
        let marks = Marks::of(self.alloc, original.places, original.actions, plan)?;
        self.found_marked(original, &marks, reach)
    }

    // A draft with all auxiliaries of the first style that suffices.
    fn drafted(&self, original: &Original<'_, '_>, questions: u64) -> Result<Option<Draft>, Refusal>
        ensures refused { IfErr result (OnInput (λ _. ⊥)) }
        ensures spawn { IfErr result (λ e. e ≡ refusals.Spawn → 1 < self.now.effort.workers) }
    {
        let mut left = questions;
        for (style, hundredths) in STYLES {
            let plan = Plan::of_all(self.alloc, style, original.actions)?;
            if plan.auxiliaries() > MOST_AUXILIARIES {
                break;
            }
            let found = self.found_planned(original, &plan, left / 100 * hundredths, TIERS)?;
            left = left.saturating_sub(found.questions);
            if found.is_final {
                let share = found.questions.saturating_mul(SHARE).max(LEAST_QUESTIONS);
                let tier = found.tier;
                return Ok(Some(Draft {
                    plan,
                    unproved: found.unproved,
                    tier,
                    share,
                    left,
                }));
            }
        }
        Ok(None)
    }

    // Takes another plan, if it suffices too. Whether it does.
    fn try_plan(
        &self,
        original: &Original<'_, '_>,
        draft: &mut Draft,
        plan: Plan,
    ) -> Result<bool, Refusal>
        ensures refused { IfErr result (OnInput (λ _. ⊥)) }
        ensures spawn { IfErr result (λ e. e ≡ refusals.Spawn → 1 < self.now.effort.workers) }
    {
        // The last search takes a share too.
        if draft.left / 2 < draft.share {
            return Ok(false);
        }
        let found = self.found_planned(original, &plan, draft.share, draft.tier)?;
        draft.left = draft.left.saturating_sub(found.questions);
        let suffices = draft.is_matched_by(&found);
        if suffices {
            draft.plan = plan;
        }
        Ok(suffices)
    }

    // Has this action of these processes set an earlier value.
    fn set_earlier(
        &self,
        original: &Original<'_, '_>,
        draft: &mut Draft,
        processes: &[usize],
        action: usize,
    ) -> Result<(), Refusal>
        ensures refused { IfErr result (OnInput (λ _. ⊥)) }
        ensures spawn { IfErr result (λ e. e ≡ refusals.Spawn → 1 < self.now.effort.workers) }
    {
        let first = processes.first().copied().unwrap_or(0);
        let values = draft.plan.earlier(self.alloc, first, count_of(action))?;
        for value in &values {
            let plan = draft
                .plan
                .with(self.alloc, processes, action, Some(*value))?;
            if self.try_plan(original, draft, plan)? {
                break;
            }
        }
        Ok(())
    }

    // Has this action of these processes set nothing, or else an earlier value.
    fn simplify_action(
        &self,
        original: &Original<'_, '_>,
        draft: &mut Draft,
        processes: &[usize],
        action: usize,
    ) -> Result<(), Refusal>
        ensures refused { IfErr result (OnInput (λ _. ⊥)) }
        ensures spawn { IfErr result (λ e. e ≡ refusals.Spawn → 1 < self.now.effort.workers) }
    {
        let plan = draft.plan.with(self.alloc, processes, action, None)?;
        if self.try_plan(original, draft, plan)? || draft.plan.style == Style::Flags {
            return Ok(());
        }
        self.set_earlier(original, draft, processes, action)
    }

    // The same of each action of these processes, from the last one on.
    fn simplify(
        &self,
        original: &Original<'_, '_>,
        draft: &mut Draft,
        processes: &[usize],
    ) -> Result<(), Refusal>
        ensures refused { IfErr result (OnInput (λ _. ⊥)) }
        ensures spawn { IfErr result (λ e. e ≡ refusals.Spawn → 1 < self.now.effort.workers) }
    {
        let first = processes.first().copied().unwrap_or(0);
        let count = draft.plan.count(first);
        for done in 0..count {
            self.simplify_action(original, draft, processes, count - 1 - done)?;
        }
        Ok(())
    }

    fn simplify_all(
        &self,
        original: &Original<'_, '_>,
        draft: &mut Draft,
        groups: &[Vec<usize>],
    ) -> Result<(), Refusal>
        ensures refused { IfErr result (OnInput (λ _. ⊥)) }
        ensures spawn { IfErr result (λ e. e ≡ refusals.Spawn → 1 < self.now.effort.workers) }
    {
        for processes in groups {
            self.simplify(original, draft, processes)?;
        }
        Ok(())
    }

    // The marks of a plan, those left out that no conjunct names; and the conjuncts.
    fn finished(
        &self,
        original: &Original<'_, '_>,
        draft: &mut Draft,
        plan: &Plan,
    ) -> Result<Planned, Refusal>
        ensures refused { IfErr result (OnInput (λ _. ⊥)) }
        ensures spawn { IfErr result (λ e. e ≡ refusals.Spawn → 1 < self.now.effort.workers) }
    {
        let reach = Reach {
            questions: draft.left,
            tiers: draft.tier,
            wanted: Wanted::Conjuncts,
        };
        let mut marks = Marks::of(self.alloc, original.places, original.actions, plan)?;
        let found = self.found_marked(original, &marks, reach)?;
        draft.left = draft.left.saturating_sub(found.questions);
        marks.leave_out(&words_of(self.alloc, &found.additions)?);
        Ok(Planned { marks, found })
    }

    // The plan of a draft, as simple as one is found.
    fn simplified(&self, original: &Original<'_, '_>, draft: &mut Draft) -> Result<Plan, Refusal>
        ensures refused { IfErr result (OnInput (λ _. ⊥)) }
        ensures spawn { IfErr result (λ e. e ≡ refusals.Spawn → 1 < self.now.effort.workers) }
    {
        let groups = alike(self.alloc, original.places, original.actions)?;
        self.simplify_all(original, draft, &groups)?;
        Ok(draft.plan.renumbered(self.alloc)?)
    }

    // The same with counters in place of flags, where that suffices too.
    fn renamed(
        &self,
        original: &Original<'_, '_>,
        draft: &mut Draft,
        planned: &Planned,
    ) -> Result<Option<Planned>, Refusal>
        ensures refused { IfErr result (OnInput (λ _. ⊥)) }
        ensures spawn { IfErr result (λ e. e ≡ refusals.Spawn → 1 < self.now.effort.workers) }
    {
        let Some(plan) = planned.marks.counters(self.alloc, original.actions)? else {
            return Ok(None);
        };
        let renamed = self.finished(original, draft, &plan)?;
        if draft.is_matched_by(&renamed.found) {
            Ok(Some(renamed))
        } else {
            Ok(None)
        }
    }

    // The marks of a draft, as simple as they are found, and the conjuncts.
    fn planned_by(&self, original: &Original<'_, '_>, draft: &mut Draft) -> Result<Planned, Refusal>
        ensures refused { IfErr result (OnInput (λ _. ⊥)) }
        ensures spawn { IfErr result (λ e. e ≡ refusals.Spawn → 1 < self.now.effort.workers) }
    {
        let plan = self.simplified(original, draft)?;
        let planned = self.finished(original, draft, &plan)?;
        if plan.style == Style::Flags {
            // One flag of each process is better named as a counter.
            if let Some(renamed) = self.renamed(original, draft, &planned)? {
                return Ok(renamed);
            }
        }
        Ok(planned)
    }

    // The marks of a plan that suffices, as simple as one is found, and the conjuncts.
    fn planned(
        &self,
        original: &Original<'_, '_>,
        questions: u64,
    ) -> Result<Option<Planned>, Refusal>
        ensures refused { IfErr result (OnInput (λ _. ⊥)) }
        ensures spawn { IfErr result (λ e. e ≡ refusals.Spawn → 1 < self.now.effort.workers) }
    {
        let Some(mut draft) = self.drafted(original, questions)? else {
            return Ok(None);
        };
        let planned = self.planned_by(original, &mut draft)?;
        Ok(Some(planned))
    }

    // The outline with these marks and conjuncts, if it is found to be a completion.
    fn with_marks(
        &self,
        subject: &Subject<'_>,
        places: &Places,
        planned: &Planned,
        form: ReportForm,
    ) -> Result<Option<Inferred>, Refusal>
        ensures completed { IfOk result (λ some. IfSome some (IsCompleted form.entry true (subject_of subject.now))) }
        ensures refused { IfErr result (OnInput (λ _. ⊥)) }
        ensures spawn { IfErr result (λ e. e ≡ refusals.Spawn → 1 < self.now.effort.workers) }
    {
        let additions = &planned.found.additions;
        let added = Added::of(
            planned.marks.names(self.alloc)?.len(),
            additions,
            count_of(places.as_slice().len()),
        );
        let declared = planned.marks.edits(self.alloc, subject.own, places)?;
        let conjuncts = edits(self.alloc, subject.own, additions)?;
        self.with_edits(subject, merged(declared, conjuncts)?, added, form)
    }

    // An outline of this subject with auxiliaries and conjuncts, if some are found that prove it.
    fn invented_in(
        &self,
        subject: &Subject<'_>,
        original: &Original<'_, '_>,
        form: ReportForm,
        questions: u64,
    ) -> Result<Option<Inferred>, Refusal>
        ensures completed { IfOk result (λ some. IfSome some (IsCompleted form.entry true (subject_of subject.now))) }
        ensures refused { IfErr result (OnInput (λ _. ⊥)) }
        ensures spawn { IfErr result (λ e. e ≡ refusals.Spawn → 1 < self.now.effort.workers) }
    {
        let Some(planned) = self.planned(original, questions)? else {
            return Ok(None);
        };
        match self.with_marks(subject, original.places, &planned, form)? {
            Some(inferred) if inferred.report.status == 0 => Ok(Some(inferred)),
            _ => Ok(None),
        }
    }

    /// The outline with auxiliaries and with the conjuncts that prove it then, if some are found
    /// with so many questions.
    pub(crate) fn invented(
        &self,
        subject: &Subject<'_>,
        given: &[Option<Range>],
        form: ReportForm,
        questions: u64,
    ) -> Result<Option<Inferred>, Refusal>
        ensures completed { IfOk result (λ some. IfSome some (IsCompleted form.entry true (subject_of subject.now))) }
        ensures refused { IfErr result (OnInput (λ _. ⊥)) }
        ensures spawn { IfErr result (λ e. e ≡ refusals.Spawn → 1 < self.now.effort.workers) }
    {
        let places = Places::of(self.alloc, subject.outline)?;
        let actions = actions(self.alloc, &places)?;
        let original = Original {
            text: subject.own,
            places: &places,
            actions: &actions,
            given,
        };
        self.invented_in(subject, &original, form, questions)
    }
}

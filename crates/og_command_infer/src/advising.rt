//! Advice for false conditions by the conjuncts that a search finds.

ghost use Rattle.std.specs.Prelude.{◌≡◌, ◌<◌, All, is_some, map, IfOk, IfErr};
ghost use Rattle.og_command_infer.specs.Edits.{IsInBraces};
ghost use Rattle.og_judge.specs.NotJudged.{OnInput};
ghost use Rattle.og_judge.specs.declared.refusal.Refusal.TheVariants as refusals;
ghost use Rattle.og_command_prove.specs.Reply.{IsReply, Warrants};
ghost use Rattle.og_report_text.specs.InputErrors.{IsFaultOfCount};
ghost use Rattle.og_report_text.specs.Subject.{subject_of, IsShort};

use crate::inferrer::Inferrer;
use crate::inferring::{Reach, TIERS};
use crate::placing::edits;
use og_command_explore::{Reply, WordsError, given};
use og_command_prove::ReportForm;
use og_infer::{Addition, Wanted};
use og_infer_marks::Edit;
use og_io::MomentLimit;
use og_judge::Refusal;
use og_pool::Gate;
use og_report_findings::Suggestion;
use og_report_text::Subject;
use std::alloc::{AllocError, Global};
use std::sync::Wait;
use std::thread::Threads;

// Adds the conjuncts of one assertion.
fn add_each<'s>(
    candidates: &mut Vec<Suggestion<'s>>,
    addition: &'s Addition,
) -> Result<(), AllocError> {
    for assertion in &addition.assertions {
        candidates.push(Suggestion {
            at: addition.at,
            assertion,
        })?;
    }
    Ok(())
}

// All conjuncts.
fn candidates_of<'s>(
    alloc: Global,
    additions: &'s [Addition],
) -> Result<Vec<Suggestion<'s>>, AllocError> {
    let mut candidates = Vec::new(alloc);
    for addition in additions {
        add_each(&mut candidates, addition)?;
    }
    Ok(candidates)
}

impl<'r, G: Gate, H: Threads + Wait + Sync> Inferrer<'r, G, H> {
    /// The conjuncts that a search finds for the notes of an outline whose runs start as the words
    /// say, each NAME=INT or NAME=LO..HI. There are none where a word gives no variable a range.
    ///
    /// # Errors
    ///
    /// `Spawn`, of two workers or more, where a thread could not be started. `Memory` where an
    /// allocation was refused.
    pub fn additions(&self, subject: &Subject<'_>, words: &[&str]) -> Result<Vec<Addition>, Refusal>
        ensures refused { IfErr result (OnInput (λ _. ⊥)) }
        ensures spawn { IfErr result (λ e. e ≡ refusals.Spawn → 1 < self.now.effort.workers) }
    {
        let given = match given(self.alloc, subject.outline, words) {
            Ok(given) => given,
            Err(WordsError::Bad(_)) => return Ok(Vec::new(self.alloc)),
            Err(WordsError::Memory) => return Err(Refusal::Memory),
        };
        let reach = Reach {
            questions: self.effort.limit.facts(),
            tiers: TIERS,
            wanted: Wanted::Conjuncts,
        };
        Ok(self.found(subject.outline, &given, reach)?.additions)
    }

    /// The edits of the own text of an outline that add these conjuncts to its notes, in their order,
    /// each within the braces of one. Nothing is added to a note that is not found.
    ///
    /// # Errors
    ///
    /// An allocation was refused.
    pub fn edits(&self, text: &[u8], additions: &[Addition]) -> Result<Vec<Edit>, AllocError>
        ensures { IfOk result (λ edits. All (IsInBraces text.now) edits.items) }
    {
        edits(self.alloc, text, additions)
    }

    /// What `prove` reports of an outline in its texts, as a text, with advice below false
    /// conditions: those of these conjuncts for the assertions from which such a condition starts
    /// that prove it. The runs, and the words, are as of `og_command_prove`.
    ///
    /// # Errors
    ///
    /// `Input`: the outline has more than 4,000,000 conditions. `Spawn`, of two workers or more,
    /// where a thread could not be started. `Memory` where an allocation was refused.
    pub fn advise<'a, 't>(
        &self,
        subject: &Subject<'t>,
        words: &[&'a str],
        additions: &'t [Addition],
        runs: Option<MomentLimit>,
    ) -> Result<Reply<'a>, Refusal>
        requires { IsShort (subject_of subject.now) }
        ensures reply { IfOk result (IsReply ReportForm.Advised (is_some runs)
            (subject_of subject.now) (map (λ w. w.now) words.now)) }
        ensures warrants { IfOk result (Warrants ReportForm.Advised subject.now.outline.now) }
        ensures refused { IfErr result (OnInput (IsFaultOfCount subject.now.outline.now)) }
        ensures spawn { IfErr result (λ e. e ≡ refusals.Spawn → 1 < self.now.effort.workers) }
    {
        let candidates = candidates_of(self.alloc, additions)?;
        self.prover(runs).advise(subject, words, &candidates)
    }
}

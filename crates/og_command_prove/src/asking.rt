//! From an outline and words to a reply.

ghost use Rattle.std.specs.Prelude.{◌≡◌, ◌<◌, is_some, map, true, IfOk, IfErr};
ghost use Rattle.og_judge.specs.NotJudged.{OnInput};
ghost use Rattle.og_judge.specs.declared.refusal.Refusal.TheVariants as refusals;
ghost use Rattle.og_report_text.specs.InputErrors.{IsFaultOfCount};
ghost use Rattle.og_report_text.specs.Subject.{subject_of, IsShort};
ghost use Rattle.og_command_prove.specs.Reply.{IsReply, Warrants};

use crate::form::ReportForm;
use crate::prover::Prover;
use crate::searching::AskedRuns;
use og_command_explore::{Reply, WordsError, given};
use og_io::MomentLimit;
use og_judge::Refusal;
use og_pool::Gate;
use og_report_findings::Suggestion;
use og_report_text::Subject;
use std::sync::Wait;
use std::thread::Threads;

impl<'r, G: Gate, H: Threads + Wait + Sync> Prover<'r, G, H> {
    // The reply with the runs from the starts that the words give.
    fn with_runs<'a, 't>(
        &self,
        subject: &Subject<'t>,
        starts: &[&'a str],
        limit: MomentLimit,
        candidates: &[Suggestion<'t>],
        form: ReportForm,
    ) -> Result<Reply<'a>, Refusal>
        requires { IsShort (subject_of subject.now) }
        ensures reply { IfOk result
            (IsReply form.entry true (subject_of subject.now) (map (λ w. w.now) starts.now)) }
        ensures refused { IfErr result (OnInput (IsFaultOfCount subject.now.outline.now)) }
        ensures spawn { IfErr result (λ e. e ≡ refusals.Spawn → 1 < self.now.search.workers) }
    {
        match given(self.alloc, subject.outline, starts) {
            Ok(given) => {
                let asked = AskedRuns {
                    given: &given,
                    limit,
                };
                Ok(Reply::Answer(self.answer(subject, Some(&asked), candidates, form)?))
            }
            Err(WordsError::Bad(word)) => Ok(Reply::BadValue(word)),
            Err(WordsError::Memory) => Err(Refusal::Memory),
        }
    }

    // The reply in a form, with the candidates for advice.
    fn found<'a, 't>(
        &self,
        subject: &Subject<'t>,
        starts: &[&'a str],
        candidates: &[Suggestion<'t>],
        form: ReportForm,
    ) -> Result<Reply<'a>, Refusal>
        requires { IsShort (subject_of subject.now) }
        ensures reply { IfOk result (IsReply form.entry (is_some self.now.search.runs)
            (subject_of subject.now) (map (λ w. w.now) starts.now)) }
        ensures refused { IfErr result (OnInput (IsFaultOfCount subject.now.outline.now)) }
        ensures spawn { IfErr result (λ e. e ≡ refusals.Spawn → 1 < self.now.search.workers) }
    {
        match self.search.runs {
            None => Ok(Reply::Answer(self.answer(subject, None, candidates, form)?)),
            Some(limit) => self.with_runs(subject, starts, limit, candidates, form),
        }
    }

    /// What searches find of the conditions of an outline in its texts, in a form. A text has
    /// places of the text that was given, and false conditions of a template that differ in the
    /// values of the names bound round them alone are reported together; JSON has places of the
    /// outline's own text, and a page shows the text that was given. The texts have at most 1,048,576 bytes.
    ///
    /// Where runs are asked for and a condition is false, it is also found of each false one whether
    /// a run gets to a state in which it is false, and whether something is wrong in the runs. The
    /// words in `starts` say where the runs start, each NAME=INT or
    /// NAME=LO..HI, as in an exploration. Without them the starts are those of an exploration, and for
    /// each false condition two more, up to 63. What is known of the runs to conditions that are
    /// reported together is the first one's. Where no runs are asked for, the words are not read.
    ///
    /// The status is 0 where every condition but the last is proved, and 1 where one is not. Status
    /// 0 says that every run of the outline is as promised, with its auxiliaries and without them;
    /// and a text or JSON with the verdict that none gets stuck, that none does. The answer is the
    /// same for every number of workers.
    ///
    /// `BadValue` holds the first word that gives no variable a range.
    ///
    /// # Errors
    ///
    /// `Input`: the outline has more than 4,000,000 conditions. `Spawn`, of two workers or more,
    /// where a thread could not be started. `Memory` where an allocation was refused.
    pub fn prove<'a>(
        &self,
        subject: &Subject<'_>,
        starts: &[&'a str],
        form: ReportForm,
    ) -> Result<Reply<'a>, Refusal>
        requires { IsShort (subject_of subject.now) }
        ensures reply { IfOk result (IsReply form.entry (is_some self.now.search.runs)
            (subject_of subject.now) (map (λ w. w.now) starts.now)) }
        ensures warrants { IfOk result (Warrants form.entry subject.now.outline.now) }
        ensures refused { IfErr result (OnInput (IsFaultOfCount subject.now.outline.now)) }
        ensures spawn { IfErr result (λ e. e ≡ refusals.Spawn → 1 < self.now.search.workers) }
    {
        self.found(subject, starts, &[], form)
    }

    /// The same as a text, with advice below false conditions: of these candidates those for
    /// assertions from which the condition starts that prove it together, without those that it does
    /// not need. Candidates have the places of the outline's own text. Behind the first 200 false
    /// ones nothing is advised.
    ///
    /// # Errors
    ///
    /// As of `prove`.
    pub fn advise<'a, 't>(
        &self,
        subject: &Subject<'t>,
        starts: &[&'a str],
        candidates: &[Suggestion<'t>],
    ) -> Result<Reply<'a>, Refusal>
        requires { IsShort (subject_of subject.now) }
        ensures reply { IfOk result (IsReply ReportForm.Advised (is_some self.now.search.runs)
            (subject_of subject.now) (map (λ w. w.now) starts.now)) }
        ensures warrants { IfOk result (Warrants ReportForm.Advised subject.now.outline.now) }
        ensures refused { IfErr result (OnInput (IsFaultOfCount subject.now.outline.now)) }
        ensures spawn { IfErr result (λ e. e ≡ refusals.Spawn → 1 < self.now.search.workers) }
    {
        self.found(subject, starts, candidates, ReportForm::Advised)
    }
}

//! What assertions lack to prove a false condition.

ghost use Rattle.std.specs.Prelude.{◌≡◌, ◌++◌, true, length, map, IfOk};
ghost use Rattle.og_typed.specs.Plain.{noted};
ghost use Rattle.og_cond.specs.Seen.{seen, parts_of, hypothesis_of};
ghost use Rattle.og_cond.specs.Valid.{IsValid};
ghost use Rattle.og_command_prove.specs.Advice.{with_given, places_of, has_place, are_placed, IsAdvice, AreAdvised};
ghost use Rattle.og_command_prove.specs.Moments.{IsDiagnoser};

use crate::diagnoser::Diagnoser;
use og_cond::{Condition, Hypothesis, Part};
use og_find::{Verdict, examine};
use og_report_findings::Suggestion;
use og_report_prove::Diagnosis;
use og_typed::Note;
use std::alloc::{AllocError, Global};

/// With more candidates for a condition only these are tried.
const MOST_CANDIDATES: usize = 40;

/// How many false conditions get advice at most.
const MOST_ADVISED: usize = 200;

// The lists again.
fn copied_lists<'a>(
    alloc: Global,
    lists: &[Vec<Part<'a>>],
) -> Result<Vec<Vec<Part<'a>>>, AllocError>
    ensures { IfOk result (λ v. map parts_of v.items ≡ map parts_of lists.now) }
{
    let mut copied = Vec::new(alloc);
    for parts in lists {
        copied.push(Vec::from_slice(alloc, parts)?)?;
    }
    Ok(copied)
}

// The hypothesis again.
fn copied<'a>(alloc: Global, hypothesis: &Hypothesis<'a>) -> Result<Hypothesis<'a>, AllocError>
    ensures { IfOk result (λ h. hypothesis_of h ≡ hypothesis_of hypothesis.now) }
{
    Ok(match hypothesis {
        Hypothesis::Is(part) => Hypothesis::Is(*part),
        Hypothesis::Starts(var, value) => Hypothesis::Starts(*var, *value),
        Hypothesis::OneOf(lists) => Hypothesis::OneOf(copied_lists(alloc, lists)?),
    })
}

// The hypotheses again.
fn copied_all<'a>(
    alloc: Global,
    hypotheses: &[Hypothesis<'a>],
) -> Result<Vec<Hypothesis<'a>>, AllocError>
    ensures { IfOk result (λ v. map hypothesis_of v.items ≡ map hypothesis_of hypotheses.now) }
{
    let mut all = Vec::new(alloc);
    for hypothesis in hypotheses {
        all.push(copied(alloc, hypothesis)?)?;
    }
    Ok(all)
}

// The condition with these among its hypotheses.
fn with_given<'a>(
    alloc: Global,
    condition: &Condition<'a>,
    given: &[Suggestion<'a>],
) -> Result<Condition<'a>, AllocError>
    ensures { IfOk result (λ c. seen c ≡ with_given (seen condition.now) given.now) }
{
    let mut hypotheses = copied_all(alloc, &condition.hypotheses)?;
    for suggestion in given {
        hypotheses.push(Hypothesis::Is(Part::Yes(suggestion.assertion)))?;
    }
    Ok(Condition {
        kind: condition.kind,
        at: condition.at,
        action_at: condition.action_at,
        variables: condition.variables,
        hypotheses,
        goal: condition.goal,
        action: condition.action,
    })
}

// Whether one of these notes begins there.
fn has_place(known: &[&Note], at: u32) -> bool
    ensures { result ≡ has_place (map (λ n. (noted n.now).at) known.now) at }
{
    for note in known {
        if note.at == at {
            return true;
        }
    }
    false
}

// Whether each is for one of these notes.
fn are_placed(known: &[&Note], given: &[Suggestion]) -> bool
    ensures { result ≡ are_placed (map (λ n. (noted n.now).at) known.now) given.now }
{
    for suggestion in given {
        if !has_place(known, suggestion.at) {
            return false;
        }
    }
    true
}

// Those of these notes.
fn candidates_at<'a>(
    alloc: Global,
    known: &[&Note],
    candidates: &[Suggestion<'a>],
) -> Result<Vec<Suggestion<'a>>, AllocError> {
    let mut chosen = Vec::new(alloc);
    for suggestion in candidates {
        if chosen.len() < MOST_CANDIDATES && has_place(known, suggestion.at) {
            chosen.push(*suggestion)?;
        }
    }
    Ok(chosen)
}

// All but the one with this number.
fn without<'a>(
    alloc: Global,
    given: &[Suggestion<'a>],
    number: usize,
) -> Result<Vec<Suggestion<'a>>, AllocError> {
    let mut rest = Vec::new(alloc);
    for (index, suggestion) in given.iter().enumerate() {
        if index != number {
            rest.push(*suggestion)?;
        }
    }
    Ok(rest)
}

/// What tries candidates: a diagnoser, and the budget of each search, as of `og_find::examine`.
#[derive(Clone, Copy)]
pub(crate) struct Advisor<'s, 'a> {
    pub(crate) diagnoser: Diagnoser<'s, 'a>,
    pub(crate) budget: u64,
}

impl<'s, 'a> Advisor<'s, 'a> {
    // Whether a search proves the condition with these among its hypotheses.
    fn is_proved(
        &self,
        condition: &Condition<'a>,
        given: &[Suggestion<'a>],
    ) -> Result<bool, AllocError>
        requires { IsDiagnoser self.now.diagnoser }
        ensures { IfOk result (λ b. b ≡ true → IsValid (with_given (seen condition.now) given.now)) }
    {
        let alloc = self.diagnoser.alloc;
        let condition = with_given(alloc, condition, given)?;
        let verdict = examine(alloc, &condition, self.budget)?;
        match &verdict {
            Verdict::True(_) => {
                let diagnosis = self.diagnoser.diagnosed_by(&condition, Some(&verdict))?;
                Ok(diagnosis.is_proved())
            }
            Verdict::False(_) | Verdict::Open => Ok(false),
        }
    }

    // Of candidates that suffice those that are left where each that is not needed goes, the last
    // first.
    fn least(
        &self,
        condition: &Condition<'a>,
        given: Vec<Suggestion<'a>>,
    ) -> Result<Vec<Suggestion<'a>>, AllocError>
        requires { IsDiagnoser self.now.diagnoser }
    {
        let mut least = given;
        for number in (0..least.len()).rev() {
            let fewer = without(self.diagnoser.alloc, &least, number)?;
            if self.is_proved(condition, &fewer)? {
                least = fewer;
            }
        }
        Ok(least)
    }

    // What the assertions that are true in the state lack, as far as candidates say; nothing where
    // these do not prove the condition.
    fn advice_at(
        &self,
        condition: &Condition<'a>,
        known: &[&Note],
        candidates: &[Suggestion<'a>],
    ) -> Result<Vec<Suggestion<'a>>, AllocError>
        requires { IsDiagnoser self.now.diagnoser }
        ensures { IfOk result (λ ss. IsAdvice (seen condition.now)
            (map (λ n. (noted n.now).at) known.now) ss.items) }
    {
        let alloc = self.diagnoser.alloc;
        let all = candidates_at(alloc, known, candidates)?;
        if !self.is_proved(condition, &all)? {
            return Ok(Vec::new(alloc));
        }
        let least = self.least(condition, all)?;
        if are_placed(known, &least) && self.is_proved(condition, &least)? {
            return Ok(least);
        }
        Ok(Vec::new(alloc))
    }
    // What assertions lack to prove the condition, if it is false.
    fn advice_of(
        &self,
        condition: &Condition<'a>,
        diagnosis: &Diagnosis<'a>,
        candidates: &[Suggestion<'a>],
    ) -> Result<Vec<Suggestion<'a>>, AllocError>
        requires { IsDiagnoser self.now.diagnoser }
        ensures { IfOk result (λ ss. IsAdvice (seen condition.now)
            (places_of diagnosis.now) ss.items) }
    {
        match diagnosis {
            Diagnosis::False(block) => {
                let known = block.details.explanation.known.as_slice();
                self.advice_at(condition, known, candidates)
            }
            Diagnosis::Proved | Diagnosis::Open => Ok(Vec::new(self.diagnoser.alloc)),
        }
    }

    /// What assertions lack to prove each false condition, as far as these candidates say: of those
    /// for assertions from which the condition starts, the ones that prove it together, without those
    /// that it does not need. Nothing for the others; the list ends before the 201st false one.
    ///
    /// # Errors
    ///
    /// An allocation was refused.
    pub(crate) fn advice(
        &self,
        conditions: &[Condition<'a>],
        diagnoses: &[Diagnosis<'a>],
        candidates: &[Suggestion<'a>],
    ) -> Result<Vec<Vec<Suggestion<'a>>>, AllocError>
        requires diagnoser { IsDiagnoser self.now.diagnoser }
        requires each { length diagnoses.now ≡ length conditions.now }
        ensures { IfOk result (λ all. AreAdvised (map seen conditions.now) diagnoses.now all.items) }
    {
        let mut all = Vec::new(self.diagnoser.alloc);
        let mut tried = 0usize;
        for index in 0..conditions.len() {
            let diagnosis = &diagnoses[index];
            if diagnosis.is_false() {
                tried = tried.saturating_add(1);
            }
            if tried > MOST_ADVISED {
                return Ok(all);
            }
            all.push(self.advice_of(&conditions[index], diagnosis, candidates)?)?;
        }
        Ok(all)
    }
}

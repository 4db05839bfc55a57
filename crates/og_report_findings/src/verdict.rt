//! What the findings come to.

ghost use Rattle.std.specs.Prelude.{◌≡◌, ◌++◌, OnOk};
ghost use Rattle.og_report_findings.specs.Exact.{IsExact};
ghost use Rattle.og_report_findings.specs.Verdicts.{has_false, of_wrong, by_runs, concluded, words_of, verdict_line};

use og_report_prove::{Diagnosis, is_safe, is_unblocked};
use og_report_runs::Explored;
use og_violation::Wrong;
use std::alloc::AllocError;

/// What the findings on all conditions of an outline come to.
#[derive(Clone, Copy, PartialEq, Eq)]
pub enum Conclusion {
    /// Every condition but the last is proved.
    Safe,
    /// Every condition is.
    NeverStuck,
    /// A run ends in a false postcondition.
    FalsePostcondition,
    /// A run overflows.
    Overflow,
    /// A run gets stuck.
    Stuck,
    /// An assertion is false in a run.
    FalseAssertion,
    /// A condition is false, but nothing is wrong in any run from the starts that were looked at.
    TooWeak,
    /// No condition is false, and some are open.
    Undecided,
    /// Some condition is false, and of the runs too little is known.
    NotShown,
}

// Whether a condition is false.
fn has_false(diagnoses: &[Diagnosis]) -> bool
    ensures { result ≡ has_false diagnoses.now }
{
    diagnoses.iter().any(|each| each.is_false())
}

// By what is wrong at the end of a run.
fn of_wrong(wrong: Wrong) -> Conclusion
    ensures { result ≡ of_wrong wrong }
{
    match wrong {
        Wrong::Post => Conclusion::FalsePostcondition,
        Wrong::Overflow(_) => Conclusion::Overflow,
        Wrong::Stuck => Conclusion::Stuck,
        Wrong::Assertion(_) => Conclusion::FalseAssertion,
    }
}

// By the runs, where a condition is false.
fn by_runs(explored: Option<Explored>) -> Conclusion
    ensures { result ≡ by_runs explored }
{
    let Some(explored) = explored else {
        return Conclusion::NotShown;
    };
    match explored.wrong {
        Some(wrong) => of_wrong(wrong),
        None if explored.complete => Conclusion::TooWeak,
        None => Conclusion::NotShown,
    }
}

impl Conclusion {
    /// Of the findings on all conditions, and how far runs were followed. Takes no memory.
    pub fn of(diagnoses: &[Diagnosis], explored: Option<Explored>) -> Conclusion
        ensures value { result ≡ concluded diagnoses.now explored }
        ensures exact { IsExact diagnoses.now explored result }
    {
        match (is_safe(diagnoses), is_unblocked(diagnoses)) {
            (true, true) => Conclusion::NeverStuck,
            (true, false) => Conclusion::Safe,
            (false, _) if has_false(diagnoses) => by_runs(explored),
            (false, _) => Conclusion::Undecided,
        }
    }

    /// It in words. Takes no memory.
    pub fn words(self) -> &'static str
        ensures { result.now ≡ words_of self }
    {
        match self {
            Conclusion::Safe => "safe in every run",
            Conclusion::NeverStuck => "safe in every run, and never stuck",
            Conclusion::FalsePostcondition =>
                "the program is wrong: a run ends in a false postcondition",
            Conclusion::Overflow => "the program is wrong: a run overflows",
            Conclusion::Stuck => "the program is wrong: a run gets stuck",
            Conclusion::FalseAssertion => "an assertion is false in a run",
            Conclusion::TooWeak => "too weak: no run from these starts makes an assertion false",
            Conclusion::Undecided => "not shown: no proof and no state within the budget",
            Conclusion::NotShown => "not shown",
        }
    }
}

/// Adds it as a line.
pub(crate) fn put_verdict(text: &mut Vec<u8>, conclusion: Conclusion) -> Result<(), AllocError>
    ensures { OnOk result (text.new.items ≡ text.old.items ++ verdict_line conclusion) }
{
    text.extend_from_slice(b"verdict: ")?;
    text.extend_from_slice(conclusion.words().as_bytes())?;
    text.extend_from_slice(b"\n")
}

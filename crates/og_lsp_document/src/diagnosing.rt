//! The findings on the conditions of an outline.

ghost use Rattle.std.specs.Prelude.{◌≡◌, ◌<◌, Some, length, map, slice_get, IfOk, IfSome};
ghost use Rattle.og_cond.specs.Condition as plain;
ghost use Rattle.og_cond.specs.Seen.{seen};
ghost use Rattle.og_find.specs.Found.{IsVerdict};
ghost use Rattle.og_find_all.specs.Findings.{AreVerdicts};
ghost use Rattle.og_report_prove.specs.Diagnosis.{IsDiagnosis, AreDiagnoses};

use og_cond::Condition;
use og_find::Verdict;
use og_find_all::Findings;
use og_report_prove::{Diagnosis, diagnose};
use og_typed::{Index, Outline};
use std::alloc::{AllocError, Global};

// The finding on a condition by the verdict on it; open where there is none.
fn diagnosis_of<'a>(
    alloc: Global,
    outline: &'a Outline,
    index: &Index<'a>,
    condition: &Condition,
    verdict: Option<&Verdict>,
) -> Result<Diagnosis<'a>, AllocError>
    requires index { index.now ≡ outline.now }
    requires verdict { IfSome verdict (λ v. IsVerdict (seen condition.now) v.now) }
    ensures { IfOk result (IsDiagnosis outline.now (seen condition.now)) }
{
    match verdict {
        Some(verdict) => diagnose(alloc, outline, index, condition, verdict),
        None => Ok(Diagnosis::Open),
    }
}

// The finding on the condition with this index.
fn diagnosis_at<'a>(
    alloc: Global,
    outline: &'a Outline,
    index: &Index<'a>,
    conditions: &[Condition],
    verdicts: &Findings,
    at: usize,
) -> Result<Diagnosis<'a>, AllocError>
    requires index { index.now ≡ outline.now }
    requires verdicts { AreVerdicts (map seen conditions.now) verdicts.now }
    requires within { at < length conditions.now }
    ensures { IfOk result (λ t. (c : plain.Condition) → slice_get (map seen conditions.now) at ≡ Some c
        → IsDiagnosis outline.now c t) }
{
    let condition = &conditions[at];
    diagnosis_of(alloc, outline, index, condition, verdicts.verdict(at))
}

/// The finding on each condition by the verdicts.
///
/// # Errors
///
/// An allocation was refused.
pub(crate) fn diagnoses_of<'a>(
    alloc: Global,
    outline: &'a Outline,
    conditions: &[Condition],
    verdicts: &Findings,
) -> Result<Vec<Diagnosis<'a>>, AllocError>
    requires { AreVerdicts (map seen conditions.now) verdicts.now }
    ensures { IfOk result (λ v. AreDiagnoses outline.now (map seen conditions.now) v.items) }
{
    let index = Index::new(alloc, outline)?;
    let mut diagnoses = Vec::with_capacity(alloc, conditions.len())?;
    for i in 0..conditions.len() {
        let diagnosis = diagnosis_at(alloc, outline, &index, conditions, verdicts, i)?;
        diagnoses.push(diagnosis)?;
    }
    Ok(diagnoses)
}

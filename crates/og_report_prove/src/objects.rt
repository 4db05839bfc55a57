//! The totals.

ghost use Rattle.std.specs.Prelude.{◌≡◌, IfOk};
ghost use Rattle.serde_json.specs.View.{view};
ghost use Rattle.og_report_prove.specs.Json.{totals_data};

use crate::diagnosis::Diagnosis;
use crate::reporting::{Totals, is_safe, is_unblocked};
use serde_json::{Value, json};
use std::alloc::{AllocError, Global};

/// The totals, with the values of the conditions that are not proved.
///
/// # Errors
///
/// An allocation was refused.
pub fn totals_value(
    alloc: Global,
    diagnoses: &[Diagnosis],
    unproved: Value,
) -> Result<Value, AllocError>
    ensures { IfOk result (λ v. view v ≡ totals_data diagnoses.now (view unproved)) }
{
    let conditions = diagnoses.len() as u64;
    let totals = Totals::of(diagnoses);
    let refuted = totals.refuted as u64;
    let unknown = totals.still_open as u64;
    let proved = totals.proved as u64;
    let safe = is_safe(diagnoses);
    let unblocked = is_unblocked(diagnoses);
    json!(in alloc; {
        "conditions": conditions, "false": refuted, "open": unknown, "proved": proved,
        "safe": safe, "unblocked": unblocked, "unproved": unproved
    })
}

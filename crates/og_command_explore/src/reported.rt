//! The violations that were found, as they are reported.

ghost use Rattle.std.specs.Prelude.{◌≡◌, map, IfSome, OnOk};
ghost use Rattle.og_cond.specs.Seen.{seen};
ghost use Rattle.og_violation.specs.Violations.{IsViolation};
ghost use Rattle.og_explore.specs.Within.{IsWithin};
ghost use Rattle.og_command_explore.specs.Reported.{IsAdded};

use og_cond::Condition;
use og_explore::Range;
use og_report_explore::{Finding, finding_of};
use og_typed::{Index, Outline};
use og_violation::Violation;
use std::alloc::{AllocError, Global};

/// The report, and whether nothing else was found.
#[derive(Drop)]
pub(crate) struct Reported<'a> {
    pub(crate) findings: Vec<Finding<'a>>,
    pub(crate) complete: bool,
}

/// What findings are made from: an outline with its conditions, and the ranges of its starts.
#[derive(Clone, Copy)]
pub(crate) struct FindingContext<'r, 'a> {
    pub(crate) outline: &'a Outline,
    pub(crate) index: &'r Index<'a>,
    pub(crate) conditions: &'r [Condition<'r>],
    pub(crate) ranges: &'r [Range],
}

/// Adds a violation, where one was found. One that can't be reported makes the answer incomplete.
pub(crate) fn add<'a>(
    reported: &mut Reported<'a>,
    alloc: Global,
    context: FindingContext<'_, 'a>,
    found: &Option<Violation>,
) -> Result<(), AllocError>
    requires violation { IfSome found.now (IsViolation context.outline.now) }
    requires within { IfSome found.now (λ v. IsWithin context.ranges.now v.values) }
    ensures { OnOk result (IsAdded context.entry.outline.now (map seen context.entry.conditions.now)
        context.entry.ranges.now found.now reported.old reported.new) }
{
    let Some(violation) = found else {
        return Ok(());
    };
    match finding_of(
        alloc,
        context.outline,
        context.index,
        context.conditions,
        violation,
    )? {
        Some(finding) => reported.findings.push(finding)?,
        None => reported.complete = false,
    }
    Ok(())
}

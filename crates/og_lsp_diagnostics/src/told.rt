//! What is said of all conditions of an outline that are not proved.

ghost use Rattle.std.specs.Prelude.{◌≡◌, ◌<◌, ◌^◌, ◌++◌, ◌∷◌, length, map, IfOk, OnOk};
ghost use Rattle.std.specs.List.{AllByRecursion};
ghost use Rattle.og_cond.specs.Seen.{seen};
ghost use Rattle.og_report_findings.specs.Causes.{item_of, groups_of, groups, shown};
ghost use Rattle.og_report_findings.specs.Entries.{unproved_from};
ghost use Rattle.og_lsp_diagnostics.specs.Extents.{AreRelatedIn, AreSaidIn, IsSaidIn};
ghost use Rattle.og_lsp_diagnostics.specs.Said.{text_of, rows_of, no_runs, alike_lines, message_of, HasSome, IsSheet, IsOfGroup, AreOfGroups};

use crate::diagnostic::{Diagnostic, Related};
use crate::teller::Teller;
use og_cond::Condition;
use og_report_findings::{Findings, Group, Item, grouped};
use og_report_prove::Diagnosis;
use og_report_runs::Run;
use std::alloc::{AllocError, Global};

// A line for each condition that is false as the first of its group is.
fn add_alike(teller: &Teller, related: &mut Vec<Related>, others: &[Item]) -> Result<(), AllocError>
    requires sheet { IsSheet teller.now.page }
    requires within { AreRelatedIn (text_of teller.now.page) related.old.items }
    ensures within { OnOk result (AreRelatedIn (text_of teller.now.page) related.new.items) }
    ensures lines { OnOk result (map message_of related.new.items
        ≡ map message_of related.old.items ++ alike_lines (map item_of others.now)) }
{
    for item in others {
        related.push(teller.alike(item.entry)?)?;
    }
    Ok(())
}

// What is said of the first condition of a group, and of those that are false as it is.
fn of_first(teller: &Teller, first: &Item, others: &[Item]) -> Result<Diagnostic, AllocError>
    requires { IsSheet teller.now.page }
    ensures is { IfOk result (IsOfGroup (text_of teller.now.page) (rows_of teller.now.page)
        (item_of first.now ∷ map item_of others.now)) }
    ensures within { IfOk result (IsSaidIn (text_of teller.now.page)) }
{
    let mut diagnostic = teller.diagnostic(first.entry)?;
    add_alike(teller, &mut diagnostic.related, others)?;
    Ok(diagnostic)
}

// What is said of a group.
fn of_group(teller: &Teller, group: &[Item]) -> Result<Diagnostic, AllocError>
    requires sheet { IsSheet teller.now.page }
    requires some { HasSome (map item_of group.now) }
    ensures is { IfOk result (IsOfGroup (text_of teller.now.page) (rows_of teller.now.page)
        (map item_of group.now)) }
    ensures within { IfOk result (IsSaidIn (text_of teller.now.page)) }
{
    match group {
        [first, others @ ..] => of_first(teller, first, others),
        [] => unreachable!(),
    }
}

// What is said of groups.
fn of_groups(teller: &Teller, groups: &[Group]) -> Result<Vec<Diagnostic>, AllocError>
    requires sheet { IsSheet teller.now.page }
    requires some { AllByRecursion HasSome (groups_of groups.now) }
    ensures within { IfOk result (λ v. AreSaidIn (text_of teller.now.page) v.items) }
    ensures said { IfOk result (λ v. AreOfGroups (text_of teller.now.page) (rows_of teller.now.page)
        (groups_of groups.now) v.items) }
{
    let mut diagnostics = Vec::new(teller.alloc);
    for group in groups {
        diagnostics.push(of_group(teller, group)?)?;
    }
    Ok(diagnostics)
}

// Of each condition that nothing is known of runs.
fn no_runs(alloc: Global, diagnoses: &[Diagnosis]) -> Result<Vec<Run>, AllocError>
    ensures { IfOk result (λ v. v.items ≡ no_runs diagnoses.now) }
{
    let mut runs = Vec::new(alloc);
    for _ in diagnoses {
        runs.push(Run::Open)?;
    }
    Ok(runs)
}

/// What is said of the conditions of an outline by the findings on them: one diagnostic for each
/// open one, and one for all false ones in which the same action makes the same conjuncts false. Of
/// a template's outline those that differ in their instances alone are one.
///
/// # Errors
///
/// An allocation was refused.
pub fn diagnostics_of(
    teller: &Teller,
    conditions: &[Condition],
    diagnoses: &[Diagnosis],
) -> Result<Vec<Diagnostic>, AllocError>
    requires sheet { IsSheet teller.now.page }
    requires each { length diagnoses.now ≡ length conditions.now }
    requires few { length diagnoses.now < 2 ^ 32 }
    ensures within { IfOk result (λ v. AreSaidIn (text_of teller.now.page) v.items) }
    ensures said { IfOk result (λ v. AreOfGroups (text_of teller.now.page) (rows_of teller.now.page)
        (groups teller.now.page.names.now (text_of teller.now.page) (rows_of teller.now.page)
        (shown (rows_of teller.now.page) (unproved_from 1 (map seen conditions.now) diagnoses.now
        (no_runs diagnoses.now)))) v.items) }
{
    let alloc = teller.alloc;
    let runs = no_runs(alloc, diagnoses)?;
    let findings = Findings {
        conditions,
        diagnoses,
        runs: &runs,
        explored: None,
        advice: &[],
    };
    let entries = findings.unproved(alloc)?;
    let groups = grouped(alloc, teller.page, &entries)?;
    of_groups(teller, &groups)
}

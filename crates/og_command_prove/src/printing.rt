//! Findings in their forms.

ghost use Rattle.std.specs.Prelude.{◌≡◌, ◌∷◌, ◌++◌, [], true, false, map, IfOk};
ghost use Rattle.og_report_prove.specs.Report.{is_unblocked};
ghost use Rattle.og_command_prove.specs.Printed.{json_in, text_in, IsAdded, IsPage, IsPrinted, SaysNeverStuckIn};
ghost use Rattle.og_report_findings.specs.Says.{SaysNeverStuck};
ghost use Rattle.og_report_text.specs.Subject.{subject_of, IsShort};
ghost use Rattle.og_command_prove.specs.Table.{columns_of, IsTable};

use crate::finding::Table;
use crate::form::ReportForm;
use og_report_findings::{Findings, json, report};
use og_report_html::{Additions, about, page, run_parts, targets};
use og_report_text::Subject;
use std::alloc::{AllocError, Global};

// The findings by columns.
fn columns<'t, 'a>(table: &'t Table<'a>) -> Findings<'t, 'a, 'a>
    ensures conditions { result.conditions.now ≡ table.now.conditions.items }
    ensures diagnoses { result.diagnoses.now ≡ table.now.diagnoses.items }
    ensures runs { result.runs.now ≡ table.now.runs.items }
    ensures explored { result.explored ≡ table.now.explored }
    ensures advice { result.advice.now ≡ table.now.advice.items }
{
    Findings {
        conditions: table.conditions.as_slice(),
        diagnoses: table.diagnoses.as_slice(),
        runs: table.runs.as_slice(),
        explored: table.explored,
        advice: table.advice.as_slice(),
    }
}

// The findings as a text.
fn as_text(alloc: Global, subject: &Subject, table: &Table) -> Result<Vec<u8>, AllocError>
    requires short { IsShort (subject_of subject.now) }
    requires table { IsTable table.now }
    ensures text { IfOk result (λ t.
        t.items ≡ text_in (subject_of subject.now) (columns_of table.now)) }
    ensures says { IfOk result (λ t. SaysNeverStuck false t.items
        → is_unblocked table.now.diagnoses.items ≡ true) }
{
    let (outline, source, rows) = (subject.outline, subject.given, subject.rows);
    report(alloc, outline, source, rows, columns(table))
}

// The findings as JSON without an LF.
fn as_json(alloc: Global, subject: &Subject, table: &Table) -> Result<Vec<u8>, AllocError>
    requires short { IsShort (subject_of subject.now) }
    requires table { IsTable table.now }
    ensures json { IfOk result (λ t.
        t.items ≡ json_in (subject_of subject.now) (columns_of table.now)) }
    ensures says { IfOk result (λ t. SaysNeverStuck true (t.items ++ 10 ∷ [])
        → is_unblocked table.now.diagnoses.items ≡ true) }
{
    json(alloc, subject.outline, subject.own, columns(table))
}

// The same with an LF.
fn as_line(alloc: Global, subject: &Subject, table: &Table) -> Result<Vec<u8>, AllocError>
    requires short { IsShort (subject_of subject.now) }
    requires table { IsTable table.now }
    ensures line { IfOk result (λ t.
        t.items ≡ json_in (subject_of subject.now) (columns_of table.now) ++ 10 ∷ []) }
    ensures says { IfOk result (λ t.
        SaysNeverStuck true t.items → is_unblocked table.now.diagnoses.items ≡ true) }
{
    let mut line = as_json(alloc, subject, table)?;
    line.push(b'\n')?;
    Ok(line)
}

// What runs add to a page.
#[derive(Drop)]
struct RunAdditions {
    before: Vec<u8>,
    beneath: Vec<Vec<u8>>,
}

// How far runs were followed, and beneath each false condition whether one gets there, and a chart
// of it; nothing where none were.
fn run_additions(
    alloc: Global,
    subject: &Subject,
    table: &Table,
) -> Result<RunAdditions, AllocError>
    requires short { IsShort (subject_of subject.now) }
    requires table { IsTable table.now }
    ensures { IfOk result (λ added. IsAdded (subject_of subject.now) (columns_of table.now)
        added.before.items (map (λ t. t.items) added.beneath.items)) }
{
    let Some(explored) = table.explored else {
        return Ok(RunAdditions {
            before: Vec::new(alloc),
            beneath: Vec::new(alloc),
        });
    };
    let (diagnoses, runs) = (table.diagnoses.as_slice(), table.runs.as_slice());
    let before = about(alloc, explored, runs)?;
    let beneath = run_parts(
        alloc,
        subject.outline,
        subject.own,
        explored,
        diagnoses,
        runs,
    )?;
    Ok(RunAdditions { before, beneath })
}

// The page of the findings, with runs where some were followed.
fn as_page(
    alloc: Global,
    name: &str,
    subject: &Subject,
    table: &Table,
) -> Result<Vec<u8>, AllocError>
    requires short { IsShort (subject_of subject.now) }
    requires table { IsTable table.now }
    ensures { IfOk result (λ t.
        IsPage name.now (subject_of subject.now) (columns_of table.now) t.items) }
{
    let added = run_additions(alloc, subject, table)?;
    let additions = Additions {
        before: &added.before,
        beneath: &added.beneath,
    };
    let findings = columns(table);
    let targets = targets(alloc, subject.outline, findings.conditions)?;
    let name = name.as_bytes();
    let text = page(alloc, name, subject, findings, &targets, additions)?;
    Ok(text)
}

/// The findings in a form.
///
/// # Errors
///
/// An allocation was refused.
pub(crate) fn printed(
    alloc: Global,
    subject: &Subject,
    table: &Table,
    form: ReportForm,
) -> Result<Vec<u8>, AllocError>
    requires short { IsShort (subject_of subject.now) }
    requires table { IsTable table.now }
    ensures printed { IfOk result (λ t.
        IsPrinted form.entry (subject_of subject.now) (columns_of table.now) t.items) }
    ensures says { IfOk result (λ t.
        SaysNeverStuckIn form.entry t.items → is_unblocked table.now.diagnoses.items ≡ true) }
{
    match form {
        ReportForm::Text | ReportForm::Advised => as_text(alloc, subject, table),
        ReportForm::Json => as_line(alloc, subject, table),
        ReportForm::Page(name) => as_page(alloc, name, subject, table),
    }
}

//! What is printed of a completed outline, and what goes to standard error beside it.

ghost use Rattle.std.specs.Prelude.{◌≡◌, ◌≤◌, ◌^◌, ◌++◌, ◌↔◌, ℕ, true, length, map, take, IfOk, OnOk};
ghost use Rattle.serde_json.specs.View.{view};
ghost use Rattle.og_command_infer.specs.Printed.{edit_data, edits_text, json_text, printed_text, IsPrinted, yes_or_no, counted, auxiliaries_text, added_text, verdict_text, IsRemark};
ghost use Rattle.og_report_findings.specs.Says.{SaysNeverStuck};

use crate::inferrer::{Added, Inferred};
use og_infer_marks::Edit;
use og_report_prove::utf8_text;
use og_report_text::{Answer, Places, bytes_of, list_value, put_number};
use serde_json::{Value, json};
use std::alloc::{AllocError, Global};

// How many conditions that are not proved stand on standard error at most.
const MOST_SHOWN: u32 = 10;

// An edit, by its places.
fn edit_value(alloc: Global, places: &Places, edit: &Edit) -> Result<Value, AllocError>
    ensures { IfOk result (λ v. view v ≡ edit_data places.now edit.now) }
{
    let (start, end) = (places.position(edit.at), places.position(edit.end));
    let (line, column) = (start.line as u64, start.column as u64);
    let (end_line, end_column) = (end.line as u64, end.column as u64);
    let text = utf8_text(edit.text.as_slice());
    json!(in alloc; {
        "column": column, "end_column": end_column, "end_line": end_line, "line": line,
        "text": text
    })
}

fn edit_values(alloc: Global, places: &Places, edits: &[Edit]) -> Result<Vec<Value>, AllocError>
    ensures { IfOk result (λ values. map view values.items ≡ map (edit_data places.now) edits.now) }
{
    let mut values = Vec::new(alloc);
    for edit in edits {
        values.push(edit_value(alloc, places, edit)?)?;
    }
    Ok(values)
}

fn edits_text(alloc: Global, own: &[u8], edits: &[Edit]) -> Result<Vec<u8>, AllocError>
    requires { length own.now ≤ 2 ^ 20 }
    ensures { IfOk result (λ text. text.items ≡ edits_text own.now edits.now) }
{
    let places = Places::new(alloc, own)?;
    let values = edit_values(alloc, &places, edits)?;
    bytes_of(alloc, &list_value(values))
}

fn json_of(alloc: Global, own: &[u8], inferred: &Inferred) -> Result<Vec<u8>, AllocError>
    requires { length own.now ≤ 2 ^ 20 }
    ensures { IfOk result (λ text. text.items ≡ json_text own.now inferred.now) }
{
    let report = inferred.report.text.as_slice();
    let line = report.len().saturating_sub(1);
    let edits = edits_text(alloc, own, &inferred.edits)?;
    let mut text = Vec::from_slice(alloc, b"{\"edits\":")?;
    text.extend_from_slice(&edits)?;
    drop(edits);
    text.extend_from_slice(b",\"report\":")?;
    text.extend_from_slice(&report[..line])?;
    text.extend_from_slice(b"}\n")?;
    Ok(text)
}

fn yes_or_no(yes: bool) -> &'static [u8]
    ensures { result.now ≡ yes_or_no yes }
{
    if yes { b"yes" } else { b"no" }
}

// Adds a number, and a word of which there are so many.
fn put_counted(text: &mut Vec<u8>, count: u32, word: &[u8]) -> Result<(), AllocError>
    ensures { OnOk result (text.new.items ≡ text.old.items ++ counted count word.now) }
{
    put_number(text, count as u128)?;
    text.extend_from_slice(word)?;
    if count == 1 {
        return Ok(());
    }
    text.extend_from_slice(b"s")
}

fn put_auxiliaries(text: &mut Vec<u8>, count: u32) -> Result<(), AllocError>
    ensures { OnOk result (text.new.items ≡ text.old.items ++ auxiliaries_text count) }
{
    if count == 0 {
        return Ok(());
    }
    put_counted(text, count, b" auxiliary variable")?;
    text.extend_from_slice(b" and ")
}

fn put_added(text: &mut Vec<u8>, added: Added) -> Result<(), AllocError>
    ensures { OnOk result (text.new.items ≡ text.old.items ++ added_text added) }
{
    text.extend_from_slice(b"added ")?;
    put_auxiliaries(text, added.auxiliaries)?;
    put_counted(text, added.conjuncts, b" conjunct")?;
    text.extend_from_slice(b" in ")?;
    put_number(text, added.notes as u128)?;
    text.extend_from_slice(b" of ")?;
    put_counted(text, added.places, b" note")
}

// Adds a label and the answer.
fn put_answer(text: &mut Vec<u8>, label: &[u8], yes: bool) -> Result<(), AllocError>
    ensures { OnOk result (text.new.items ≡ text.old.items ++ (label.now ++ yes_or_no yes)) }
{
    text.extend_from_slice(label)?;
    text.extend_from_slice(yes_or_no(yes))
}

fn put_verdict(text: &mut Vec<u8>, safe: bool, unblocked: bool) -> Result<(), AllocError>
    ensures { OnOk result (text.new.items ≡ text.old.items ++ verdict_text safe unblocked) }
{
    put_answer(text, b"; safe: ", safe)?;
    put_answer(text, b", unblocked: ", unblocked)
}

fn begins_with_digit(line: &[u8]) -> bool {
    match line {
        [byte, ..] => byte.is_ascii_digit(),
        [] => false,
    }
}

// Where the report of this text ends in front of the condition after the last that is shown; a line
// with which a condition begins has its place, a number, in front.
fn shown_length(report: &[u8]) -> usize {
    let mut shown = 0u32;
    let mut at = 0usize;
    for line in report.split_inclusive(|byte| *byte == b'\n') {
        if begins_with_digit(line) {
            shown = shown.saturating_add(1);
        }
        if shown > MOST_SHOWN {
            return at;
        }
        at = at.saturating_add(line.len());
    }
    at
}

// Whether a report has the line or the member that says that the outline is unblocked.
fn says_unblocked(report: &[u8], json: bool) -> bool {
    if json {
        return utf8_text(report).contains("\"unblocked\":true");
    }
    for line in report.split_inclusive(|byte| *byte == b'\n') {
        if line == b"unblocked: yes\n".as_slice() {
            return true;
        }
    }
    false
}

impl Inferred {
    // Whether the report says that the outline is unblocked: of one that is safe by the verdict at
    // its end.
    fn is_unblocked(&self, json: bool) -> bool
        ensures { self.now.report.status ≡ 0
            → (result ≡ true) ↔ SaysNeverStuck json self.now.report.text.items }
    {
        let text = self.report.text.as_slice();
        if self.report.status != 0 {
            return says_unblocked(text, json);
        }
        if json {
            return text.ends_with(b"\"verdict\":\"safe in every run, and never stuck\"}\n");
        }
        text.ends_with(b"verdict: safe in every run, and never stuck\n")
    }

    // The report as far as it goes to standard error: nothing of JSON, or where it is yes twice.
    fn shown_report(&self, json: bool, unblocked: bool) -> &[u8]
        ensures { (count : ℕ) × (result.now ≡ take count self.now.report.text.items) }
    {
        let report = self.report.text.as_slice();
        if json || (self.report.status == 0 && unblocked) {
            return &report[..0];
        }
        let length = shown_length(report).min(report.len());
        &report[..length]
    }

    /// What goes to standard error: how much was added, the verdict, and where it is not yes twice
    /// and the report is no JSON, the report as far as the tenth condition that is not proved.
    ///
    /// # Errors
    ///
    /// An allocation was refused.
    pub fn remark(&self, alloc: Global, json: bool) -> Result<Vec<u8>, AllocError>
        ensures { IfOk result (λ text. IsRemark json self.now text.items) }
    {
        let unblocked = self.is_unblocked(json);
        let mut text = Vec::new(alloc);
        put_added(&mut text, self.added)?;
        put_verdict(&mut text, self.report.status == 0, unblocked)?;
        text.extend_from_slice(b"\n")?;
        text.extend_from_slice(self.shown_report(json, unblocked))?;
        Ok(text)
    }

    /// What is printed, with the status of the report: the text of the outline; or as JSON the edits
    /// of its own text, which has at most 1,048,576 bytes, and the report, which is JSON then.
    ///
    /// # Errors
    ///
    /// An allocation was refused.
    pub fn into_answer(self, alloc: Global, own: &[u8], json: bool) -> Result<Answer, AllocError>
        requires { length own.now ≤ 2 ^ 20 }
        ensures { IfOk result (IsPrinted json own.now self) }
    {
        let status = self.report.status;
        let text = if json {
            json_of(alloc, own, &self)?
        } else {
            self.text
        };
        Ok(Answer { text, status })
    }
}

//! The page.

ghost use Rattle.std.specs.Prelude.{◌≡◌, ◌<◌, ◌≤◌, ◌^◌, ◌++◌, ℕ, List, [], None, length, map, IfOk, OnOk};
ghost use Rattle.std.specs.Str.{is_utf8};
ghost use Rattle.og_cond.specs.Seen.{seen};
ghost use Rattle.og_report_text.specs.Subject.{subject_of, IsShort};
ghost use Rattle.og_report_findings.specs.Entries.{entry_of, unproved_from};
ghost use Rattle.og_report_findings.specs.Order.{in_order};
ghost use Rattle.og_report_html.specs.Articles.{articles_text};
ghost use Rattle.og_report_html.specs.Marks.{mark_at};
ghost use Rattle.og_report_html.specs.Source.{source_text};
ghost use Rattle.og_report_html.specs.Page.{names_text, summary_text, marked_text, blocks_text, page_text};

use crate::articles::{Frame, put_articles};
use crate::constants::{
    AFTER_SOURCE, BEFORE_NAME, BEFORE_SOURCE, BEFORE_TOTALS, BEFORE_VERDICT, END, START,
};
use crate::edge::edges_in;
use crate::escapes::{is_utf8, put_escaped};
use crate::marks::marks_of;
use crate::numbers::{put_heading, put_numbers};
use crate::source::put_source;
use crate::table::put_table;
use crate::target::Target;
use crate::totals::put_totals;
use og_report_findings::{Conclusion, Entry, Findings, Hints, in_order};
use og_report_prove::{Diagnosis, Page};
use og_report_runs::Explored;
use og_report_text::{Origins, Places, Subject};
use std::alloc::{AllocError, Global};

// The name of the text as title and as heading.
fn put_names(text: &mut Vec<u8>, name: &[u8]) -> Result<(), AllocError>
    ensures { OnOk result (text.new.items ≡ text.old.items ++ names_text name.now) }
{
    let utf8 = is_utf8(name);
    text.extend_from_slice(START)?;
    put_escaped(text, utf8, name)?;
    text.extend_from_slice(BEFORE_NAME)?;
    put_escaped(text, utf8, name)?;
    text.extend_from_slice(BEFORE_VERDICT)
}

// What the findings come to, and the totals.
fn put_summary(
    text: &mut Vec<u8>,
    explored: Option<Explored>,
    diagnoses: &[Diagnosis],
) -> Result<(), AllocError>
    ensures { OnOk result (text.new.items ≡ text.old.items ++ summary_text explored diagnoses.now) }
{
    let verdict = Conclusion::of(diagnoses, explored).words();
    text.extend_from_slice(verdict.as_bytes())?;
    text.extend_from_slice(BEFORE_TOTALS)?;
    put_totals(text, diagnoses)?;
    text.extend_from_slice(BEFORE_SOURCE)
}

// The text that was given, marked by the findings on the conditions.
fn put_marked(
    text: &mut Vec<u8>,
    subject: &Subject,
    findings: Findings,
    targets: &[Target],
) -> Result<(), AllocError>
    requires short { IsShort (subject_of subject.now) }
    requires each { length findings.diagnoses.now ≡ length findings.conditions.now }
    requires targets { length targets.now ≡ length findings.conditions.now }
    ensures { OnOk result (text.new.items ≡ text.old.items ++ marked_text (subject_of subject.now)
        (map seen findings.entry.conditions.now) findings.entry.diagnoses.now targets.now) }
{
    let alloc = *text.allocator();
    let (source, rows) = (subject.given, subject.rows);
    let (conditions, diagnoses) = (findings.conditions, findings.diagnoses);
    let marks = marks_of(alloc, rows, conditions, diagnoses, targets)?;
    let edges = edges_in(alloc, source, rows, &marks, diagnoses)?;
    put_source(text, is_utf8(source), &marks, &edges, source)
}

/// The additions to a page, as HTML.
#[derive(Clone, Copy)]
pub struct Additions<'a> {
    /// Before the blocks.
    pub before: &'a [u8],
    /// Beneath the blocks of the first conditions, one for each condition, with a block or without.
    pub beneath: &'a [Vec<u8>],
}

impl<'a> Additions<'a> {
    /// Nothing is added.
    pub fn none() -> Additions<'a>
        ensures before { result.before.now ≡ [] }
        ensures beneath { result.beneath.now ≡ [] }
    {
        Additions {
            before: b"",
            beneath: &[],
        }
    }
}

// The conditions that are not proved, in the order of `prove`.
fn ordered<'f, 'c, 'd>(
    alloc: Global,
    findings: Findings<'f, 'c, 'd>,
) -> Result<Vec<Entry<'f, 'c, 'd>>, AllocError>
    requires each { length findings.diagnoses.now ≡ length findings.conditions.now }
    requires run { length findings.runs.now ≡ length findings.conditions.now }
    requires few { length findings.diagnoses.now < 2 ^ 32 }
    ensures { IfOk result (λ v. map entry_of v.items
        ≡ in_order (unproved_from 1 (map seen findings.entry.conditions.now)
        findings.entry.diagnoses.now findings.entry.runs.now)) }
{
    let unproved = findings.unproved(alloc)?;
    in_order(alloc, &unproved)
}

// Their blocks.
fn put_ordered(
    text: &mut Vec<u8>,
    frame: Frame,
    findings: Findings,
    targets: &[Target],
) -> Result<(), AllocError>
    requires places { frame.page.origins.now.places.now ≡ frame.page.origins.now.source.now }
    requires each { length findings.diagnoses.now ≡ length findings.conditions.now }
    requires run { length findings.runs.now ≡ length findings.conditions.now }
    requires few { length findings.diagnoses.now < 2 ^ 32 }
    ensures { OnOk result (text.new.items ≡ text.old.items ++ articles_text frame.entry.hints.now
        frame.entry.page.names.now frame.entry.page.origins.now.source.now
        frame.entry.page.origins.now.rows frame.entry.utf8
        (map (λ t. t.items) frame.entry.beneath.now) (λ (t : List ℕ). None)
        (in_order (unproved_from 1 (map seen findings.entry.conditions.now)
        findings.entry.diagnoses.now findings.entry.runs.now)) targets.now) }
{
    let entries = ordered(*text.allocator(), findings)?;
    put_articles(text, frame, &entries, targets)
}

// The same, with the lines at these places and what stands beneath the first ones.
fn put_placed(
    text: &mut Vec<u8>,
    subject: &Subject,
    places: &Places,
    findings: Findings,
    targets: &[Target],
    beneath: &[Vec<u8>],
) -> Result<(), AllocError>
    requires places { places.now ≡ (subject_of subject.now).given }
    requires each { length findings.diagnoses.now ≡ length findings.conditions.now }
    requires run { length findings.runs.now ≡ length findings.conditions.now }
    requires few { length findings.diagnoses.now < 2 ^ 32 }
    ensures { OnOk result (text.new.items ≡ text.old.items ++ articles_text
        (subject_of subject.now).outline (subject_of subject.now).outline.names
        (subject_of subject.now).given (subject_of subject.now).rows
        (is_utf8 (subject_of subject.now).given) (map (λ t. t.items) beneath.now)
        (λ (t : List ℕ). None) (in_order (unproved_from 1 (map seen findings.entry.conditions.now)
        findings.entry.diagnoses.now findings.entry.runs.now)) targets.now) }
{
    let source = subject.given;
    let origins = Origins {
        source,
        places,
        rows: subject.rows,
    };
    let hints = Hints::new(*text.allocator(), subject.outline)?;
    let frame = Frame {
        utf8: is_utf8(source),
        page: Page {
            names: subject.outline.names(),
            origins: &origins,
        },
        hints: &hints,
        beneath,
    };
    put_ordered(text, frame, findings, targets)
}

// The numbers of the conditions that are not proved, and their blocks in the order of `prove`.
fn put_blocks(
    text: &mut Vec<u8>,
    subject: &Subject,
    findings: Findings,
    targets: &[Target],
    additions: Additions,
) -> Result<(), AllocError>
    requires short { IsShort (subject_of subject.now) }
    requires each { length findings.diagnoses.now ≡ length findings.conditions.now }
    requires run { length findings.runs.now ≡ length findings.conditions.now }
    requires few { length findings.diagnoses.now < 2 ^ 32 }
    ensures { OnOk result (text.new.items ≡ text.old.items ++ blocks_text (subject_of subject.now)
        additions.entry.before.now (map (λ t. t.items) additions.entry.beneath.now)
        (map seen findings.entry.conditions.now) findings.entry.diagnoses.now
        findings.entry.runs.now targets.now) }
{
    text.extend_from_slice(additions.before)?;
    put_numbers(text, findings.diagnoses)?;
    let places = Places::new(*text.allocator(), subject.given)?;
    put_placed(text, subject, &places, findings, targets, additions.beneath)
}

// The parts of a page, one after another.
fn put_page(
    text: &mut Vec<u8>,
    name: &[u8],
    subject: &Subject,
    findings: Findings,
    targets: &[Target],
    additions: Additions,
) -> Result<(), AllocError>
    requires short { IsShort (subject_of subject.now) }
    requires each { length findings.diagnoses.now ≡ length findings.conditions.now }
    requires run { length findings.runs.now ≡ length findings.conditions.now }
    requires few { length findings.diagnoses.now < 2 ^ 32 }
    requires targets { length targets.now ≡ length findings.conditions.now }
    ensures { OnOk result (text.new.items ≡ text.old.items
        ++ page_text name.now (subject_of subject.now) findings.entry.explored
        additions.entry.before.now (map (λ t. t.items) additions.entry.beneath.now)
        (map seen findings.entry.conditions.now) findings.entry.diagnoses.now
        findings.entry.runs.now targets.now) }
{
    let diagnoses = findings.diagnoses;
    put_names(text, name)?;
    put_summary(text, findings.explored, diagnoses)?;
    put_marked(text, subject, findings, targets)?;
    text.extend_from_slice(AFTER_SOURCE)?;
    put_table(text, subject.outline.processes().len(), diagnoses, targets)?;
    put_heading(text, diagnoses)?;
    put_blocks(text, subject, findings, targets, additions)?;
    text.extend_from_slice(END)
}

/// The report of all conditions of an outline, as one text of HTML: the name, the verdict and the
/// totals; the text that was given with its marks; the table of interference that is not proved; and
/// a block for each condition that is not proved, in the order of `prove`, with the additions to
/// these. `targets` has where each condition belongs, as `targets` finds it. The texts have at most
/// 1,048,576 bytes.
///
/// # Errors
///
/// An allocation was refused.
pub fn page(
    alloc: Global,
    name: &[u8],
    subject: &Subject,
    findings: Findings,
    targets: &[Target],
    additions: Additions,
) -> Result<Vec<u8>, AllocError>
    requires short { IsShort (subject_of subject.now) }
    requires each { length findings.diagnoses.now ≡ length findings.conditions.now }
    requires run { length findings.runs.now ≡ length findings.conditions.now }
    requires few { length findings.diagnoses.now < 2 ^ 32 }
    requires targets { length targets.now ≡ length findings.conditions.now }
    ensures { IfOk result (λ text. text.items ≡ page_text name.now (subject_of subject.now)
        findings.entry.explored additions.entry.before.now
        (map (λ t. t.items) additions.entry.beneath.now)
        (map seen findings.entry.conditions.now) findings.entry.diagnoses.now
        findings.entry.runs.now targets.now) }
{
    let mut text = Vec::new(alloc);
    put_page(&mut text, name, subject, findings, targets, additions)?;
    Ok(text)
}

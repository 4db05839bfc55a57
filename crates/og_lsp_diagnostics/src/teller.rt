//! What is said of a condition that is not proved.

ghost use Rattle.std.specs.Prelude.{◌≡◌, true, false, IfOk, IfSome};
ghost use Rattle.og_report_prove.specs.Report.{is_false};
ghost use Rattle.og_lsp_diagnostics.specs.Extents.{LiesIn, part_span, place_in, IsSaidIn};
ghost use Rattle.og_report_findings.specs.Entries.{entry_of};
ghost use Rattle.og_lsp_diagnostics.specs.Said.{text_of, rows_of, IsSheet, StandsIn, code_of, alike_text, IsOf};

use crate::conjunct::conjunct_spans;
use crate::diagnostic::{Diagnostic, Related, Severity, code_of};
use crate::extent::part_at;
use og_report_explain::Fault;
use og_report_findings::Entry;
use og_report_prove::{Block, Diagnosis, Page, put_block};
use og_report_text::add_conjuncts;
use og_text::Span;
use og_typed::Note;
use std::alloc::{AllocError, Global};

const OPEN: &[u8] = b"Not proved: the search found no proof and no state in which it is false.";

/// What diagnostics are made with.
#[derive(Clone, Copy)]
pub struct Teller<'t> {
    /// Gives memory.
    pub alloc: Global,
    /// The names of the variables, and how places of the given text are printed.
    pub page: Page<'t>,
}

// Whether a line of a block names another place.
fn is_related(line: &[u8]) -> bool {
    line.starts_with(b"  true at ")
        || line.starts_with(b"  test ")
        || line.starts_with(b"  step at ")
}

// Adds a line of a block without the blanks in front of it, unless it names another place.
fn put_line(message: &mut Vec<u8>, line: &[u8]) -> Result<(), AllocError> {
    if line.is_empty() || is_related(line) {
        return Ok(());
    }
    if !message.is_empty() {
        message.push(b'\n')?;
    }
    message.extend_from_slice(line.strip_prefix(b"  ").unwrap_or(line))
}

// The lines of a block that name no other place.
fn message_of(alloc: Global, block: &[u8]) -> Result<Vec<u8>, AllocError> {
    let mut message = Vec::new(alloc);
    for line in block.split(|b| *b == b'\n') {
        put_line(&mut message, line)?;
    }
    Ok(message)
}

// How many conjuncts an assertion has.
fn conjunct_count(alloc: Global, note: &Note) -> Result<usize, AllocError> {
    let mut all = Vec::new(alloc);
    add_conjuncts(&mut all, &note.assertion)?;
    Ok(all.len())
}

// The bytes of a note from the first of these conjuncts to the last, where they stand in it.
fn across(part: Span, spans: &[Span], conjuncts: &[usize]) -> Option<Span>
    ensures { IfSome result (StandsIn part) }
{
    let first = spans.get(*conjuncts.first()?)?;
    let last = spans.get(*conjuncts.last()?)?;
    let start = part.start.saturating_add(first.start);
    let end = part.start.saturating_add(last.end);
    if start <= end && end <= part.end {
        Some(Span { start, end })
    } else {
        None
    }
}

impl<'t> Teller<'t> {
    /// The byte offset in the given text of a part of the outline.
    pub fn place(&self, at: u32) -> u32
        ensures { result ≡ place_in (rows_of self.now.page) at }
    {
        match self.page.origins.rows {
            Some(rows) => match rows.get(&at) {
                Some(row) => row.from,
                None => at,
            },
            None => at,
        }
    }

    /// The bytes in the given text of a part of the outline.
    pub fn span(&self, at: u32) -> Span
        requires { IsSheet self.now.page }
        ensures part { result ≡ part_span (text_of self.now.page) (place_in (rows_of self.now.page) at) }
        ensures lies { LiesIn (text_of self.now.page) result }
    {
        part_at(self.page.origins.source, self.place(at))
    }

    // The bytes of the false conjuncts of the note with these bytes, where they are found.
    fn false_span(
        &self,
        note: &Note,
        part: Span,
        conjuncts: &[usize],
    ) -> Result<Option<Span>, AllocError>
        requires { LiesIn (text_of self.now.page) part }
        ensures { IfOk result (λ found. IfSome found (StandsIn part)) }
    {
        let text = &self.page.origins.source[part.start as usize..part.end as usize];
        let spans = conjunct_spans(self.alloc, text)?;
        if spans.len() == conjunct_count(self.alloc, note)? {
            Ok(across(part, &spans, conjuncts))
        } else {
            Ok(None)
        }
    }

    // The bytes of a part at which a condition is false with this block.
    fn block_span(&self, at: u32, part: Span, block: &Block) -> Result<Span, AllocError>
        requires { LiesIn (text_of self.now.page) part }
        ensures { IfOk result (StandsIn part) }
    {
        match &block.details.explanation.fault {
            Fault::False(note, _) if note.at == at && self.page.origins.rows.is_none() => {
                let found = self.false_span(note, part, &block.details.conjuncts)?;
                Ok(found.unwrap_or(part))
            }
            _ => Ok(part),
        }
    }

    // The number of a condition and its kind.
    fn code(&self, entry: Entry) -> Result<Vec<u8>, AllocError>
        ensures { IfOk result (λ code. code.items ≡ code_of (entry_of entry.entry)) }
    {
        let name = entry.condition.kind.name();
        code_of(self.alloc, entry.number as u128, name)
    }

    // The text of a block.
    fn text_of(&self, block: &Block) -> Result<Vec<u8>, AllocError>
        requires { IsSheet self.now.page }
    {
        let mut text = Vec::new(self.alloc);
        put_block(&mut text, self.page.names, self.page.origins, block)?;
        Ok(text)
    }

    // What is said of a condition that is false with this block.
    fn of_block(&self, entry: Entry, block: &Block) -> Result<Diagnostic, AllocError>
        requires sheet { IsSheet self.now.page }
        requires is_false { is_false entry.diagnosis.now ≡ true }
        ensures is { IfOk result (IsOf (text_of self.now.page) (rows_of self.now.page) (entry_of entry.entry)) }
        ensures within { IfOk result (IsSaidIn (text_of self.now.page)) }
    {
        let at = entry.condition.at;
        let part = self.span(at);
        let span = self.block_span(at, part, block)?;
        let text = self.text_of(block)?;
        Ok(Diagnostic {
            span,
            severity: Severity::Error,
            code: self.code(entry)?,
            message: message_of(self.alloc, &text)?,
            related: self.related(at, block)?,
        })
    }

    // What is said of an open condition.
    fn of_open(&self, entry: Entry) -> Result<Diagnostic, AllocError>
        requires sheet { IsSheet self.now.page }
        requires is_open { is_false entry.diagnosis.now ≡ false }
        ensures is { IfOk result (IsOf (text_of self.now.page) (rows_of self.now.page) (entry_of entry.entry)) }
        ensures within { IfOk result (IsSaidIn (text_of self.now.page)) }
    {
        Ok(Diagnostic {
            span: self.span(entry.condition.at),
            severity: Severity::Warning,
            code: self.code(entry)?,
            message: Vec::from_slice(self.alloc, OPEN)?,
            related: Vec::new(self.alloc),
        })
    }

    /// What is said of a condition that is false as another one is.
    ///
    /// # Errors
    ///
    /// An allocation was refused.
    pub(crate) fn alike(&self, entry: Entry) -> Result<Related, AllocError>
        requires { IsSheet self.now.page }
        ensures lies { IfOk result (λ r. LiesIn (text_of self.now.page) r.span) }
        ensures message { IfOk result (λ r. r.message.items ≡ alike_text (entry_of entry.entry)) }
    {
        let mut message = self.code(entry)?;
        message.extend_from_slice(b": false in the same way")?;
        let span = self.span(entry.condition.at);
        Ok(Related { span, message })
    }

    /// What is said of a condition that is not proved.
    ///
    /// # Errors
    ///
    /// An allocation was refused.
    pub(crate) fn diagnostic(&self, entry: Entry) -> Result<Diagnostic, AllocError>
        requires { IsSheet self.now.page }
        ensures is { IfOk result (IsOf (text_of self.now.page) (rows_of self.now.page) (entry_of entry.entry)) }
        ensures within { IfOk result (IsSaidIn (text_of self.now.page)) }
    {
        match entry.diagnosis {
            Diagnosis::False(block) => self.of_block(entry, block),
            Diagnosis::Proved | Diagnosis::Open => self.of_open(entry),
        }
    }
}

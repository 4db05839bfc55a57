//! Values of the protocol.

ghost use Rattle.std.specs.Prelude.{◌≡◌, ◌++◌, map, IfOk, OnOk};
ghost use Rattle.serde_json.specs.View.{view};
ghost use Rattle.og_lsp_text.specs.Positions.{range_of};
ghost use Rattle.og_lsp_features.specs.Diagnosed.{severity_number, related_data, diagnostic_data, diagnostics_data};
ghost use Rattle.og_lsp_features.specs.Renames.{IsNamedBy};
ghost use Rattle.og_lsp_features.specs.Values.{position_data, range_data, within, span_data, edit_data, changes_data};

use og_lsp_diagnostics::{Diagnostic, Related, Severity};
use og_lsp_document::Judgement;
use og_lsp_text::{Encoding, Lines, Position, Range};
use og_report_prove::utf8_text;
use og_text::Span;
use serde_json::{Map, Value, json, put};
use std::alloc::{AllocError, Global};

/// What the places of a text are told with.
#[derive(Clone, Copy)]
pub(crate) struct Placing<'p> {
    pub(crate) alloc: Global,
    pub(crate) encoding: Encoding,
    /// The name of the document.
    pub(crate) uri: &'p str,
    /// Its text with where its lines begin.
    pub(crate) lines: &'p Lines<'p>,
}

fn position_value(alloc: Global, position: Position) -> Result<Value, AllocError>
    ensures { IfOk result (λ v. view v ≡ position_data position) }
{
    let (line, character) = (position.line as u64, position.character as u64);
    json!(in alloc; {"line": line, "character": character})
}

/// The value of a range.
///
/// # Errors
///
/// An allocation was refused.
pub(crate) fn range_value(alloc: Global, range: Range) -> Result<Value, AllocError>
    ensures { IfOk result (λ v. view v ≡ range_data range) }
{
    let start = position_value(alloc, range.start)?;
    let end = position_value(alloc, range.end)?;
    json!(in alloc; {"start": start, "end": end})
}

// The number that the protocol has for a severity.
fn severity_number(severity: Severity) -> u32
    ensures { result ≡ severity_number severity }
{
    match severity {
        Severity::Error => 1,
        Severity::Warning => 2,
        Severity::Information => 3,
    }
}

impl<'p> Placing<'p> {
    /// The place of a position.
    pub(crate) fn place(&self, position: Position) -> u32
        ensures { IsNamedBy self.now.encoding self.now.lines.now position result }
    {
        self.lines.place(self.encoding, position)
    }

    // Some bytes, as far as the text goes.
    fn within(&self, span: Span) -> Span
        ensures { result ≡ within self.now.lines.now span }
    {
        let len = self.lines.text().len();
        Span {
            start: (span.start as usize).min(len) as u32,
            end: (span.end as usize).min(len) as u32,
        }
    }

    /// The range of some bytes, as far as the text goes.
    pub(crate) fn range(&self, span: Span) -> Range
        ensures { result ≡ range_of self.now.encoding self.now.lines.now (within self.now.lines.now span) }
    {
        self.lines.range(self.encoding, self.within(span))
    }

    /// The value of the range of some bytes.
    ///
    /// # Errors
    ///
    /// An allocation was refused.
    pub(crate) fn span_value(&self, span: Span) -> Result<Value, AllocError>
        ensures { IfOk result (λ v. view v ≡ span_data self.now.encoding self.now.lines.now span) }
    {
        range_value(self.alloc, self.range(span))
    }

    /// The value of the edit that some bytes become this text.
    ///
    /// # Errors
    ///
    /// An allocation was refused.
    pub(crate) fn edit_value(&self, span: Span, new: &str) -> Result<Value, AllocError>
        ensures { IfOk result (λ v. view v ≡ edit_data self.now.encoding self.now.lines.now new.now span) }
    {
        let range = self.span_value(span)?;
        json!(in self.alloc; {"newText": new, "range": range})
    }

    /// The value of edits of the document.
    ///
    /// # Errors
    ///
    /// An allocation was refused.
    pub(crate) fn changes_value(&self, edits: Value) -> Result<Value, AllocError>
        ensures { IfOk result (λ v. view v ≡ changes_data self.now.uri.now (view edits)) }
    {
        let mut changes = Map::new(self.alloc);
        put(&mut changes, self.alloc, self.uri, edits)?;
        let changes = Value::Object(changes);
        json!(in self.alloc; {"changes": changes})
    }

    // The value of another place.
    fn related_value(&self, related: &Related) -> Result<Value, AllocError>
        ensures { IfOk result (λ v. view v
            ≡ related_data self.now.encoding self.now.uri.now self.now.lines.now related.now) }
    {
        let range = self.span_value(related.span)?;
        let (uri, message) = (self.uri, utf8_text(&related.message));
        json!(in self.alloc; {
            "location": {"uri": uri, "range": range}, "message": message
        })
    }

    // The values of the other places.
    fn related_values(&self, related: &[Related]) -> Result<Vec<Value>, AllocError>
        ensures { IfOk result (λ values. map view values.items
            ≡ map (related_data self.now.encoding self.now.uri.now self.now.lines.now) related.now) }
    {
        let mut values = Vec::with_capacity(self.alloc, related.len())?;
        for each in related {
            values.push(self.related_value(each)?)?;
        }
        Ok(values)
    }

    // The value of a diagnostic.
    fn diagnostic_value(&self, diagnostic: &Diagnostic) -> Result<Value, AllocError>
        ensures { IfOk result (λ v. view v
            ≡ diagnostic_data self.now.encoding self.now.uri.now self.now.lines.now diagnostic.now) }
    {
        let range = self.span_value(diagnostic.span)?;
        let severity = severity_number(diagnostic.severity);
        let code = utf8_text(&diagnostic.code);
        let message = utf8_text(&diagnostic.message);
        let related = Value::Array(self.related_values(diagnostic.related.as_slice())?);
        json!(in self.alloc; {
            "range": range, "severity": severity, "code": code, "source": "og",
            "message": message, "relatedInformation": related
        })
    }

    // Adds the values of diagnostics.
    fn add_values(&self, values: &mut Vec<Value>, all: &[Diagnostic]) -> Result<(), AllocError>
        ensures { OnOk result (map view values.new.items ≡ map view values.old.items ++ map
            (diagnostic_data self.now.encoding self.now.uri.now self.now.lines.now) all.now) }
    {
        for each in all {
            values.push(self.diagnostic_value(each)?)?;
        }
        Ok(())
    }

    /// The values of the diagnostics of what is found of a text, and behind them of the remarks.
    ///
    /// # Errors
    ///
    /// An allocation was refused.
    pub(crate) fn diagnostic_values(&self, judgement: &Judgement) -> Result<Value, AllocError>
        ensures { IfOk result (λ v. view v
            ≡ diagnostics_data self.now.encoding self.now.uri.now self.now.lines.now judgement.now) }
    {
        let mut values = Vec::new(self.alloc);
        self.add_values(&mut values, &judgement.diagnostics)?;
        self.add_values(&mut values, &judgement.remarks)?;
        Ok(Value::Array(values))
    }
}

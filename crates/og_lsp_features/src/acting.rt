//! What is offered against what is wrong with a document.

ghost use Rattle.std.specs.Prelude.{◌≡◌};
ghost use Rattle.og_lsp_features.specs.Texts.{text_of};

use crate::document::Document;
use crate::refusal::Refusal;
use crate::values::Placing;
use og_infer_marks::Edit;
use og_lsp_diagnostics::{Diagnostic, Severity};
use og_lsp_document::{Judge, JudgeError, Judgement};
use og_lsp_repairs::{Repair, missing_conjuncts, repair_of};
use og_lsp_text::{Encoding, Range};
use og_pool::Gate;
use og_report_prove::utf8_text;
use og_report_text::list_value;
use og_text::Span;
use serde_json::{Value, json};
use std::alloc::{AllocError, Global};
use std::sync::Wait;
use std::thread::Threads;

// Whether two spans share a byte, or touch.
fn meet(one: Span, other: Span) -> bool {
    one.start <= other.end && other.start <= one.end
}

// Whether the diagnostic is of a condition that is not proved, and stands there.
fn is_unproved_at(diagnostic: &Diagnostic, span: Span) -> bool {
    diagnostic.severity != Severity::Information && meet(diagnostic.span, span)
}

impl<'p> Placing<'p> {
    // The bytes of a range.
    fn span_of(&self, range: Range) -> Span {
        Span {
            start: self.place(range.start),
            end: self.place(range.end),
        }
    }

    // The value of an action that makes these edits of the document.
    fn action_value(&self, title: &str, edits: Vec<Value>) -> Result<Value, AllocError> {
        let changes = self.changes_value(list_value(edits))?;
        json!(in self.alloc; {"title": title, "kind": "quickfix", "edit": changes})
    }

    // The action that writes what the advice on a refusal names.
    fn repair_value(&self, repair: &Repair) -> Result<Value, AllocError> {
        let named = utf8_text(&repair.named);
        let title = format!(in self.alloc; "write '{named}'")?;
        let mut edits = Vec::new(self.alloc);
        edits.push(self.edit_value(repair.span, utf8_text(&repair.text))?)?;
        self.action_value(title.as_str(), edits)
    }

    // The action that adds conjuncts to notes.
    fn conjuncts_value(&self, edits: &[Edit]) -> Result<Value, AllocError> {
        let mut values = Vec::with_capacity(self.alloc, edits.len())?;
        for edit in edits {
            let span = Span {
                start: edit.at,
                end: edit.end,
            };
            values.push(self.edit_value(span, utf8_text(&edit.text))?)?;
        }
        self.action_value("add to the notes what 'og infer' finds", values)
    }

    // The actions on a text that is refused.
    fn repairs(&self, judgement: &Judgement, span: Span) -> Result<Value, AllocError> {
        let mut values = Vec::new(self.alloc);
        if let [diagnostic] = judgement.diagnostics.as_slice() {
            let text = self.lines.text();
            let (place, message) = (diagnostic.span, diagnostic.message.as_slice());
            if meet(place, span) {
                if let Some(repair) = repair_of(self.alloc, text, place, message)? {
                    values.push(self.repair_value(&repair)?)?;
                }
            }
        }
        Ok(Value::Array(values))
    }

    // The actions on an outline.
    fn additions(
        &self,
        judgement: &Judgement,
        span: Span,
        edits: &[Edit],
    ) -> Result<Value, AllocError> {
        let mut values = Vec::new(self.alloc);
        let is_asked = judgement
            .diagnostics
            .iter()
            .any(|diagnostic| is_unproved_at(diagnostic, span));
        if is_asked && !edits.is_empty() {
            values.push(self.conjuncts_value(edits)?)?;
        }
        Ok(Value::Array(values))
    }
}

impl Document {
    /// What its outline lacks is known, where conditions of it are not proved.
    ///
    /// # Errors
    ///
    /// As `Judge::judge`.
    pub fn complete<G: Gate, H: Threads + Wait + Sync>(
        &mut self,
        judge: &Judge<'_, G, H>,
    ) -> Result<(), JudgeError>
        ensures text { text_of self.new ≡ text_of self.old }
        ensures version { self.new.version ≡ self.old.version }
        ensures due { self.new.is_due ≡ self.old.is_due }
        ensures judgement { self.new.judgement ≡ self.old.judgement }
    {
        if self.missing.is_none() && self.has_unproved() {
            self.missing = Some(missing_conjuncts(judge, self.text.as_bytes())?);
        }
        Ok(())
    }

    // Whether it is judged, and conditions of it are not proved.
    fn has_unproved(&self) -> bool {
        match &self.judgement {
            Some(judgement) => judgement.summary.is_some() && !judgement.diagnostics.is_empty(),
            None => false,
        }
    }

    /// The values of what is offered against what is wrong within a range: of a text that is refused
    /// what the advice names, and of conditions that are not proved what `og infer` adds. Nothing
    /// where the document is not judged.
    ///
    /// # Errors
    ///
    /// `Memory`.
    pub fn actions(
        &self,
        alloc: Global,
        encoding: Encoding,
        range: Range,
    ) -> Result<Value, Refusal> {
        let Some(judgement) = &self.judgement else {
            return Ok(Value::Array(Vec::new(alloc)));
        };
        let lines = self.lines(alloc)?;
        let placing = self.placing(alloc, encoding, &lines);
        let span = placing.span_of(range);
        match &self.missing {
            Some(edits) => Ok(placing.additions(judgement, span, edits)?),
            None => Ok(placing.repairs(judgement, span)?),
        }
    }
}

//! Names: where they are declared and stand, and renaming.

ghost use Rattle.std.specs.Prelude.{◌≡◌, map, string_bytes, IfOk};
ghost use Rattle.serde_json.specs.View.{view};
ghost use Rattle.og_lsp_features.specs.Renames.{IsRenaming, IsRenamed};
ghost use Rattle.og_lsp_features.specs.Values.{edit_data, edits_data, changes_data};

use crate::document::Document;
use crate::refusal::Refusal;
use crate::values::Placing;
use og_lsp_message::ErrorCode;
use og_lsp_names::{NameFault, name_at, name_fault, spans_of, words_or_none};
use og_lsp_text::{Encoding, Position};
use og_report_text::list_value;
use og_template::Word;
use og_text::Span;
use serde_json::{Value, json};
use std::alloc::{AllocError, Global};

const NO_NAME: Refusal = Refusal::Refused(ErrorCode::RequestFailed, "no name stands there");

/// What is asked of a name.
#[derive(Clone, Copy, PartialEq, Eq)]
pub enum Asked {
    /// Where it is declared.
    Definition,
    /// Where it stands.
    References,
    /// The same, in this document.
    Highlights,
    /// The bytes there, if they can be renamed.
    Prepared,
}

impl<'p> Placing<'p> {
    // The value of the place of some bytes.
    fn location(&self, span: Span) -> Result<Value, AllocError> {
        let (uri, range) = (self.uri, self.span_value(span)?);
        json!(in self.alloc; {"uri": uri, "range": range})
    }

    // The values of the places of some bytes.
    fn locations(&self, spans: &[Span]) -> Result<Value, AllocError> {
        let mut values = Vec::with_capacity(self.alloc, spans.len())?;
        for span in spans {
            values.push(self.location(*span)?)?;
        }
        Ok(Value::Array(values))
    }

    // The same, as ranges of this document.
    fn highlights(&self, spans: &[Span]) -> Result<Value, AllocError> {
        let mut values = Vec::with_capacity(self.alloc, spans.len())?;
        for span in spans {
            let range = self.span_value(*span)?;
            values.push(json!(in self.alloc; {"range": range, "kind": 1u32})?)?;
        }
        Ok(Value::Array(values))
    }

    // What is asked of the name at a position; null where none stands there.
    fn named(&self, position: Position, asked: Asked) -> Result<Value, AllocError> {
        let words = words_or_none(self.alloc, self.lines.text())?;
        let Some((name, here)) = name_at(words.as_slice(), self.place(position)) else {
            return Ok(Value::Null);
        };
        let spans = spans_of(self.alloc, words.as_slice(), name)?;
        match asked {
            Asked::Definition => match spans.first() {
                Some(first) => self.location(*first),
                None => Ok(Value::Null),
            },
            Asked::References => self.locations(spans.as_slice()),
            Asked::Highlights => self.highlights(spans.as_slice()),
            Asked::Prepared => self.span_value(here),
        }
    }

    // The edits that give the names some other text.
    fn edit_values(&self, spans: &[Span], new: &str) -> Result<Vec<Value>, AllocError>
        ensures { IfOk result (λ values. map view values.items
            ≡ map (edit_data self.now.encoding self.now.lines.now new.now) spans.now) }
    {
        let mut values = Vec::with_capacity(self.alloc, spans.len())?;
        for span in spans {
            values.push(self.edit_value(*span, new)?)?;
        }
        Ok(values)
    }

    // Where the name stands that gets another one; nowhere where that is the same.
    fn renamed_spans(&self, words: &[Word], name: &[u8], new: &[u8]) -> Result<Vec<Span>, Refusal>
        ensures { IfOk result (λ spans. IsRenaming self.now.lines.now words.now name.now new.now spans.items) }
    {
        if name == new {
            return Ok(Vec::new(self.alloc));
        }
        match name_fault(self.alloc, self.lines.text(), words, new)? {
            Some(fault) => Err(Refusal::Refused(ErrorCode::RequestFailed, reason_of(fault))),
            None => Ok(spans_of(self.alloc, words, name)?),
        }
    }

    // The edits that give the names another one.
    fn rename_value(&self, spans: &[Span], new: &str) -> Result<Value, AllocError>
        ensures { IfOk result (λ v. view v ≡ changes_data self.now.uri.now
            (edits_data self.now.encoding self.now.lines.now new.now spans.now)) }
    {
        let values = self.edit_values(spans, new)?;
        self.changes_value(list_value(values))
    }

    // The edits that give the name at a position another one.
    fn renamed(&self, position: Position, new: &str) -> Result<Value, Refusal>
        ensures { IfOk result (λ v. IsRenamed self.now.encoding self.now.uri.now self.now.lines.now
            position new.now (view v)) }
    {
        let words = words_or_none(self.alloc, self.lines.text())?;
        let Some((name, _)) = name_at(&words, self.place(position)) else {
            return Err(NO_NAME);
        };
        let spans = self.renamed_spans(&words, name, new.as_bytes())?;
        Ok(self.rename_value(&spans, new)?)
    }
}

// Why a name is refused.
fn reason_of(fault: NameFault) -> &'static str {
    match fault {
        NameFault::NoName => "this is no name",
        NameFault::Taken => "the text has this name already",
        NameFault::Reserved => "a name of a template does not end in '_' and digits",
    }
}

impl Document {
    /// What is asked of the name at a position; null where none stands there.
    ///
    /// # Errors
    ///
    /// `Memory`.
    pub fn of_name(
        &self,
        alloc: Global,
        encoding: Encoding,
        position: Position,
        asked: Asked,
    ) -> Result<Value, Refusal> {
        let lines = self.lines(alloc)?;
        Ok(
            self.placing(alloc, encoding, &lines)
                .named(position, asked)?,
        )
    }

    /// The edits that give the name at a position another name.
    ///
    /// # Errors
    ///
    /// `Memory`; `Refused` where no name stands there, or it may not have this one.
    pub fn renamed(
        &self,
        alloc: Global,
        encoding: Encoding,
        position: Position,
        new: &str,
    ) -> Result<Value, Refusal>
        ensures { IfOk result (λ v. IsRenamed encoding (string_bytes self.now.uri)
            (string_bytes self.now.text) position new.now (view v)) }
    {
        let lines = self.lines(alloc)?;
        self.placing(alloc, encoding, &lines).renamed(position, new)
    }
}

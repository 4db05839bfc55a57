//! What is said of a place.

use crate::document::Document;
use crate::refusal::Refusal;
use crate::values::Placing;
use og_lsp_document::Judgement;
use og_lsp_names::{Meaning, SymbolKind, meaning_of, name_at, words_or_none};
use og_lsp_text::{Encoding, Position};
use og_report_prove::utf8_text;
use og_report_text::put_number;
use og_text::Span;
use serde_json::{Value, json};
use std::alloc::{AllocError, Global};

// How a declaration of a kind begins.
fn keyword(kind: SymbolKind) -> &'static [u8] {
    match kind {
        SymbolKind::Variable => b"var ",
        SymbolKind::Auxiliary => b"aux ",
        SymbolKind::Constant => b"const ",
        SymbolKind::Assertion => b"let ",
        SymbolKind::Process(_) => b"process ",
    }
}

// What stands in front of the assignments to what is declared.
fn assignments_word(count: usize) -> &'static [u8] {
    match count {
        0 => b"No statement assigns it.",
        1 => b"Assigned in line",
        _ => b"Assigned in lines",
    }
}

// Whether statements may assign what is declared.
fn is_assignable(kind: SymbolKind) -> bool {
    matches!(kind, SymbolKind::Variable | SymbolKind::Auxiliary)
}

impl<'p> Placing<'p> {
    // Some bytes of the text, as far as it goes.
    fn bytes(&self, span: Span) -> &'p [u8] {
        let bytes = self.lines.text();
        bytes
            .get(span.start as usize..span.end as usize)
            .unwrap_or(b"")
    }

    // An assignment in a line of its own, behind the number of its line.
    fn put_assignment(&self, text: &mut Vec<u8>, span: Span) -> Result<(), AllocError> {
        let line = self.range(span).start.line as u128;
        put_number(text, line + 1)?;
        text.extend_from_slice(b": ")?;
        text.extend_from_slice(self.bytes(span))?;
        text.extend_from_slice(b"\n")
    }

    // The assignments to what is declared.
    fn put_assignments(&self, text: &mut Vec<u8>, spans: &[Span]) -> Result<(), AllocError> {
        text.extend_from_slice(assignments_word(spans.len()))?;
        if spans.is_empty() {
            return Ok(());
        }
        text.extend_from_slice(b":\n\n```\n")?;
        for span in spans {
            self.put_assignment(text, *span)?;
        }
        text.extend_from_slice(b"```")
    }

    // What a name stands for, behind what is said of its place.
    fn put_meaning(&self, text: &mut Vec<u8>, meaning: &Meaning) -> Result<(), AllocError> {
        if !text.is_empty() {
            text.extend_from_slice(b"\n\n")?;
        }
        text.extend_from_slice(b"```\n")?;
        text.extend_from_slice(keyword(meaning.kind))?;
        text.extend_from_slice(self.bytes(meaning.declaration))?;
        text.extend_from_slice(b"\n```")?;
        if is_assignable(meaning.kind) {
            text.extend_from_slice(b"\n\n")?;
            self.put_assignments(text, &meaning.assignments)?;
        }
        Ok(())
    }

    // The same of the name at a byte offset, and its bytes; nothing where no declared name stands.
    fn put_name(&self, text: &mut Vec<u8>, at: u32) -> Result<Option<Span>, AllocError> {
        let words = words_or_none(self.alloc, self.lines.text())?;
        let Some((name, here)) = name_at(&words, at) else {
            return Ok(None);
        };
        let Some(meaning) = meaning_of(self.alloc, &words, name)? else {
            return Ok(None);
        };
        self.put_meaning(text, &meaning)?;
        Ok(Some(here))
    }

    // What is said of a byte offset, and of which bytes.
    fn said(&self, judgement: &Judgement, at: u32) -> Result<Option<(Vec<u8>, Span)>, AllocError> {
        match judgement.said_at(self.alloc, self.lines.text(), at)? {
            Some((mut text, span)) => {
                self.put_name(&mut text, at)?;
                Ok(Some((text, span)))
            }
            None => {
                let mut text = Vec::new(self.alloc);
                match self.put_name(&mut text, at)? {
                    Some(span) => Ok(Some((text, span))),
                    None => Ok(None),
                }
            }
        }
    }

    // What is said of the place of a position; null where nothing is.
    fn hovered(&self, judgement: &Judgement, position: Position) -> Result<Value, AllocError> {
        let Some((text, span)) = self.said(judgement, self.place(position))? else {
            return Ok(Value::Null);
        };
        let (text, range) = (utf8_text(&text), self.span_value(span)?);
        json!(in self.alloc; {
            "contents": {"kind": "markdown", "value": text}, "range": range
        })
    }
}

impl Document {
    /// What is said of the place of a position; null where nothing is, and where the document is not
    /// judged.
    ///
    /// # Errors
    ///
    /// `Memory`.
    pub fn hovered(
        &self,
        alloc: Global,
        encoding: Encoding,
        position: Position,
    ) -> Result<Value, Refusal> {
        let Some(judgement) = &self.judgement else {
            return Ok(Value::Null);
        };
        let lines = self.lines(alloc)?;
        Ok(
            self.placing(alloc, encoding, &lines)
                .hovered(judgement, position)?,
        )
    }
}

//! What may be written at a place.

use crate::document::Document;
use crate::refusal::Refusal;
use crate::values::Placing;
use og_lsp_names::{Choice, ChoiceKind, SymbolKind, choices_at};
use og_lsp_text::{Encoding, Position};
use og_report_prove::utf8_text;
use serde_json::{Value, json};
use std::alloc::{AllocError, Global};

// The number that the protocol has for what may be written.
fn kind_number(kind: ChoiceKind) -> u32 {
    match kind {
        ChoiceKind::Keyword => 14,
        ChoiceKind::Name(SymbolKind::Constant) => 21,
        ChoiceKind::Name(SymbolKind::Assertion) => 3,
        ChoiceKind::Name(_) => 6,
    }
}

// The value of a choice.
fn choice_value(alloc: Global, choice: &Choice) -> Result<Value, AllocError> {
    let (label, kind) = (utf8_text(&choice.label), kind_number(choice.kind));
    json!(in alloc; {"label": label, "kind": kind})
}

impl<'p> Placing<'p> {
    // The values of what may be written at a position.
    fn choices(&self, position: Position) -> Result<Value, AllocError> {
        let all = choices_at(self.alloc, self.lines.text(), self.place(position))?;
        let mut values = Vec::with_capacity(self.alloc, all.len())?;
        for choice in &all {
            values.push(choice_value(self.alloc, choice)?)?;
        }
        Ok(Value::Array(values))
    }
}

impl Document {
    /// The values of what may be written at a position, in the place of the word that ends there.
    ///
    /// # Errors
    ///
    /// `Memory`.
    pub fn choices(
        &self,
        alloc: Global,
        encoding: Encoding,
        position: Position,
    ) -> Result<Value, Refusal> {
        let lines = self.lines(alloc)?;
        Ok(self.placing(alloc, encoding, &lines).choices(position)?)
    }
}

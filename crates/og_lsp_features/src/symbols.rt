//! What a document declares.

use crate::document::Document;
use crate::refusal::Refusal;
use crate::values::Placing;
use og_lsp_names::{Symbol, SymbolKind, symbols, words_or_none};
use og_lsp_text::Encoding;
use og_report_prove::utf8_text;
use serde_json::{Value, json};
use std::alloc::{AllocError, Global};

// The number that the protocol has for what is declared.
fn kind_number(kind: SymbolKind) -> u32 {
    match kind {
        SymbolKind::Variable | SymbolKind::Auxiliary => 13,
        SymbolKind::Constant => 14,
        SymbolKind::Assertion => 12,
        SymbolKind::Process(_) => 3,
    }
}

impl<'p> Placing<'p> {
    // The value of a symbol.
    fn symbol(&self, symbol: Symbol) -> Result<Value, AllocError> {
        let (range, name) = (
            self.span_value(symbol.whole)?,
            self.span_value(symbol.name)?,
        );
        let text = self
            .lines
            .text()
            .get(symbol.name.start as usize..symbol.name.end as usize);
        let label = utf8_text(text.unwrap_or(b""));
        match symbol.kind {
            SymbolKind::Process(number) => {
                let label = format!(in self.alloc; "process {number}")?;
                let label = label.as_str();
                json!(in self.alloc; {
                    "name": label, "kind": 3u32, "range": range, "selectionRange": name
                })
            }
            kind => {
                let number = kind_number(kind);
                json!(in self.alloc; {
                    "name": label, "kind": number, "range": range, "selectionRange": name
                })
            }
        }
    }

    // The values of what the text declares.
    fn symbols(&self) -> Result<Value, AllocError> {
        let words = words_or_none(self.alloc, self.lines.text())?;
        let all = symbols(self.alloc, words.as_slice())?;
        let mut values = Vec::with_capacity(self.alloc, all.len())?;
        for each in &all {
            values.push(self.symbol(*each)?)?;
        }
        Ok(Value::Array(values))
    }
}

impl Document {
    /// The values of what the document declares.
    ///
    /// # Errors
    ///
    /// `Memory`.
    pub fn symbols(&self, alloc: Global, encoding: Encoding) -> Result<Value, Refusal> {
        let lines = self.lines(alloc)?;
        Ok(self.placing(alloc, encoding, &lines).symbols()?)
    }
}

//! A document is laid out.

use crate::document::Document;
use crate::values::range_value;
use og_layout::{LayoutError, laid_out};
use og_lsp_text::{Encoding, Lines, Position, Range, TEXT_LIMIT};
use og_report_prove::utf8_text;
use og_template_outline::{MeaningError, Takes, read_text};
use serde_json::{Value, json};
use std::alloc::{AllocError, Global};

// The layout of a text; nothing where it is refused, or cannot be laid out.
fn layout(alloc: Global, text: &[u8]) -> Result<Option<Vec<u8>>, AllocError> {
    match read_text(alloc, text, &[], Takes::Constants) {
        Ok(_) => {}
        Err(MeaningError::Memory) => return Err(AllocError),
        Err(_) => return Ok(None),
    }
    match laid_out(alloc, text) {
        Ok(written) => Ok(Some(written)),
        Err(LayoutError::Memory) => Err(AllocError),
        Err(_) => Ok(None),
    }
}

// The range of a whole text.
fn whole(alloc: Global, encoding: Encoding, text: &[u8]) -> Result<Range, AllocError> {
    let start = Position {
        line: 0,
        character: 0,
    };
    if text.len() > TEXT_LIMIT {
        return Ok(Range { start, end: start });
    }
    let lines = Lines::new(alloc, text)?;
    let end = lines.position(encoding, text.len() as u32);
    Ok(Range { start, end })
}

impl Document {
    /// The edits that lay the document out: one of the whole text, or none.
    ///
    /// # Errors
    ///
    /// An allocation was refused.
    pub fn layout_edits(&self, alloc: Global, encoding: Encoding) -> Result<Value, AllocError> {
        let text = self.text.as_bytes();
        let mut edits = Vec::new(alloc);
        if let Some(written) = layout(alloc, text)? {
            if written.as_slice() != text {
                let range = range_value(alloc, whole(alloc, encoding, text)?)?;
                let new = utf8_text(&written);
                edits.push(json!(in alloc; {"range": range, "newText": new})?)?;
            }
        }
        Ok(Value::Array(edits))
    }
}

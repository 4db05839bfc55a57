//! What is found of an outline, in a line above its `cobegin`.

use crate::document::Document;
use og_lsp_document::Summary;
use og_lsp_text::{Encoding, Lines, TEXT_LIMIT};
use serde_json::{Value, json};
use std::alloc::{AllocError, Global};

// The word of an answer.
fn yes(answer: bool) -> &'static str {
    if answer { "yes" } else { "no" }
}

// What the line says: the answers, where no condition is false or open.
fn title(alloc: Global, summary: Summary) -> Result<String, AllocError> {
    let all = summary.conditions;
    if summary.refuted == 0 && summary.still_open == 0 {
        let (safe, unblocked) = (yes(summary.safe), yes(summary.unblocked));
        return format!(in alloc;
            "safe: {safe} \u{b7} unblocked: {unblocked} \u{b7} {all} conditions"
        );
    }
    let (refuted, open) = (summary.refuted, summary.still_open);
    format!(in alloc; "{refuted} false, {open} open of {all}")
}

impl Document {
    /// The lines above the document's `cobegin`: one, where it has an outline and is judged.
    ///
    /// # Errors
    ///
    /// An allocation was refused.
    pub fn lenses(&self, alloc: Global, encoding: Encoding) -> Result<Value, AllocError> {
        let text = self.text.as_bytes();
        let mut lenses = Vec::new(alloc);
        let summary = match &self.judgement {
            Some(judgement) => judgement.summary,
            None => None,
        };
        if let Some(summary) = summary {
            if text.len() <= TEXT_LIMIT {
                let lines = Lines::new(alloc, text)?;
                let placing = self.placing(alloc, encoding, &lines);
                let range = placing.span_value(summary.cobegin)?;
                let title = title(alloc, summary)?;
                let title = title.as_str();
                lenses.push(json!(in alloc; {
                    "range": range, "command": {"title": title, "command": ""}
                })?)?;
            }
        }
        Ok(Value::Array(lenses))
    }
}

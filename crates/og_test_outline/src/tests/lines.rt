//! Texts on one line.

use std::alloc::{AllocError, Global};

// The text in which `|` stands for the end of a line.
pub(crate) fn with_lines(alloc: Global, text: &str) -> Result<String, AllocError> {
    let mut out = String::new(alloc);
    for c in text.chars() {
        out.push(if c == '|' { '\n' } else { c })?;
    }
    Ok(out)
}

//! Edits of a text.

ghost use Rattle.std.specs.Prelude.{◌≡◌, IfOk, IfSome};
ghost use Rattle.og_infer_marks.specs.Edits.{edited};

use std::alloc::{AllocError, Global};

/// Bytes of a text, and what stands in their place afterwards.
#[derive(Drop)]
pub struct Edit {
    /// The byte offset of the first byte that is replaced.
    pub at: u32,
    /// The byte offset behind the last one: `at` where nothing is replaced.
    pub end: u32,
    /// What stands there afterwards.
    pub text: Vec<u8>,
}

/// The text with these edits made, whose places rise; none where they do not, or lie behind its end.
///
/// # Errors
///
/// An allocation was refused.
pub fn edited(alloc: Global, text: &[u8], edits: &[Edit]) -> Result<Option<Vec<u8>>, AllocError>
    ensures { IfOk result (λ some. IfSome some (λ t. t.items ≡ edited edits.now 0 text.now)) }
{
    let mut out = Vec::new(alloc);
    let mut from = 0;
    for edit in edits {
        let Some(kept) = text.get(from..edit.at as usize) else {
            return Ok(None);
        };
        out.extend_from_slice(kept)?;
        out.extend_from_slice(&edit.text)?;
        from = edit.end as usize;
    }
    let Some(rest) = text.get(from..) else {
        return Ok(None);
    };
    out.extend_from_slice(rest)?;
    Ok(Some(out))
}

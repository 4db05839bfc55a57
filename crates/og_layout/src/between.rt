//! Parts of a text by their offsets.

ghost use Rattle.std.specs.Prelude.{◌≡◌};
ghost use Rattle.og_layout.specs.Pieces.{between};

// The bytes from one offset up to another, as far as the text has them.
pub(crate) fn between(text: &[u8], start: usize, end: usize) -> &[u8]
    ensures { result.now ≡ between text.now start end }
{
    let end = end.min(text.len());
    let start = start.min(end);
    &text[start..end]
}

//! Bytes at which lines end and characters begin.

ghost use Rattle.std.specs.Prelude.{◌≡◌, ◌≤◌, ◌<◌, length};
ghost use Rattle.og_lsp_text.specs.Positions.{byte_at, ends_line, is_boundary, follows_cr};

// The byte at a place, 0 behind the end.
fn byte_at(text: &[u8], at: usize) -> u8
    ensures { result ≡ byte_at text.now at }
{
    text.get(at).copied().unwrap_or(0)
}

// Whether the byte at the place ends a line.
pub(crate) fn ends_line(text: &[u8], at: usize) -> bool
    requires { at < length text.now }
    ensures { result ≡ ends_line text.now at }
{
    let byte = byte_at(text, at);
    byte == b'\n' || (byte == b'\r' && byte_at(text, at + 1) != b'\n')
}

// Whether a CR stands in front of the place.
fn follows_cr(text: &[u8], at: usize) -> bool
    ensures { result ≡ follows_cr text.now at }
{
    at > 0 && byte_at(text, at - 1) == b'\r'
}

// Whether a character begins at the place, or the text ends there.
pub(crate) fn is_boundary(text: &[u8], at: usize) -> bool
    ensures { result ≡ is_boundary text.now at }
{
    match byte_at(text, at) {
        0x80..=0xBF => false,
        b'\n' => !follows_cr(text, at),
        _ => true,
    }
}

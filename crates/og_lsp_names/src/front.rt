//! What stands in front of the word that is written at a place.

ghost use Rattle.std.specs.Prelude.{◌≡◌, ◌≤◌, length};
ghost use Rattle.std.specs.List.{suffix_len};
ghost use Rattle.og_text.specs.Lexemes.{is_word_byte, in_line};
ghost use Rattle.og_lsp_names.specs.Choices.{front, up_to, last_line_len, last_line, in_comment};

// Whether the byte is of a name, a number or a keyword.
fn is_word_byte(byte: u8) -> bool
    ensures { result ≡ is_word_byte byte }
{
    byte.is_ascii_alphanumeric() || byte == b'_'
}

// How many letters, digits and underscores stand at the end.
fn letters_at_end(bytes: &[u8]) -> usize
    ensures { result ≡ suffix_len is_word_byte bytes.now }
{
    bytes.iter().rev().take_while(|b| is_word_byte(**b)).count()
}

// The bytes in front of a place, as far as the text goes.
fn up_to(text: &[u8], at: u32) -> &[u8]
    ensures { result.now ≡ up_to text.now at }
{
    &text[..text.len().min(at as usize)]
}

/// The bytes in front of the word that ends at a place.
pub(crate) fn front(text: &[u8], at: u32) -> &[u8]
    ensures { result.now ≡ front text.now at }
{
    let before = up_to(text, at);
    let word = letters_at_end(before);
    &before[..before.len() - word]
}

// How many bytes the last line has.
fn last_line_len(bytes: &[u8]) -> usize
    ensures { result ≡ last_line_len bytes.now }
{
    bytes.iter().rev().take_while(|b| **b != b'\n').count()
}

// The last line.
fn last_line(bytes: &[u8]) -> &[u8]
    ensures { result.now ≡ last_line bytes.now }
{
    let count = last_line_len(bytes);
    &bytes[bytes.len() - count..]
}

/// Whether the bytes end in a comment.
pub(crate) fn in_comment(bytes: &[u8]) -> bool
    ensures { result ≡ in_comment bytes.now }
{
    last_line(bytes).iter().any(|b| *b == b'#')
}

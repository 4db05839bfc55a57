//! Which bytes of a text are shown for a place.

ghost use Rattle.std.specs.Prelude.{◌≡◌, ◌≤◌, ◌^◌, length};
ghost use Rattle.std.specs.List.{prefix_len};
ghost use Rattle.og_text.specs.Lexemes.{is_word_byte};
ghost use Rattle.og_lsp_diagnostics.specs.Extents.{LiesIn, word_len, word_span, part_span};

use og_report_prove::end_of;
use og_text::Span;

// Whether the byte is of a name, a number or a keyword.
fn is_word_byte(byte: u8) -> bool
    ensures { result ≡ is_word_byte byte }
{
    byte.is_ascii_alphanumeric() || byte == b'_'
}

// How many letters, digits and underscores stand at the front.
fn letters_at_front(bytes: &[u8]) -> usize
    ensures { result ≡ prefix_len is_word_byte bytes.now }
{
    bytes.iter().take_while(|b| is_word_byte(**b)).count()
}

// How many bytes the word at the front has, or the one byte there.
fn word_len(bytes: &[u8]) -> usize
    ensures { result ≡ word_len bytes.now }
{
    letters_at_front(bytes).max(1)
}

/// The word at a byte offset, or the one byte there, as far as the text goes.
pub fn word_at(text: &[u8], at: u32) -> Span
    requires { length text.now ≤ 2 ^ 20 }
    ensures word { result ≡ word_span text.now at }
    ensures lies { LiesIn text.now result }
{
    let end = text.len();
    let start = end.min(at as usize);
    let stop = end.min(start.saturating_add(word_len(&text[start..])));
    Span {
        start: start as u32,
        end: stop as u32,
    }
}

/// What begins at a byte offset: a note with its braces, or a statement or `cobegin` as far as the
/// last token before the next note.
pub fn part_at(text: &[u8], at: u32) -> Span
    requires { length text.now ≤ 2 ^ 20 }
    ensures part { result ≡ part_span text.now at }
    ensures lies { LiesIn text.now result }
{
    let start = text.len().min(at as usize) as u32;
    Span {
        start,
        end: end_of(text, start),
    }
}

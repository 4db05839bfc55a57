//! Whether two texts have the same pieces.

ghost use Rattle.std.specs.Prelude.{◌≡◌, true, map, List, ℕ};
ghost use Rattle.og_layout.specs.Pieces.{piece_in};
ghost use Rattle.og_text.specs.declared.token.TokenKind.TheVariants.{Name, Number};

use crate::between::between;
use crate::parts::{Part, PartKind};
use og_template::WordKind;
use og_text::TokenKind;

fn is_name(kind: &TokenKind, bytes: &[u8]) -> bool
    ensures { result ≡ true → kind.now ≡ Name bytes.now }
{
    match kind {
        TokenKind::Name(name) => name.as_slice() == bytes,
        _ => false,
    }
}

fn is_number(kind: &TokenKind, value: u64) -> bool
    ensures { result ≡ true → kind.now ≡ Number value }
{
    match kind {
        TokenKind::Number(other) => *other == value,
        _ => false,
    }
}

fn same_token(one: &TokenKind, other: &TokenKind) -> bool
    ensures { result ≡ true → one.now ≡ other.now }
{
    match one {
        TokenKind::Name(name) => is_name(other, name.as_slice()),
        TokenKind::Number(value) => is_number(other, *value),
        _ => one.is_like(other),
    }
}

fn same_word(one: &WordKind, other: &WordKind) -> bool
    ensures { result ≡ true → one.now ≡ other.now }
{
    match (one, other) {
        (WordKind::Lexeme(a), WordKind::Lexeme(b)) => same_token(a, b),
        (WordKind::Special(a), WordKind::Special(b)) => a == b,
        _ => false,
    }
}

fn same_kind(one: &PartKind, other: &PartKind) -> bool
    ensures { result ≡ true → one.now ≡ other.now }
{
    match (one, other) {
        (PartKind::Comment, PartKind::Comment) => true,
        (PartKind::Word(a), PartKind::Word(b)) => same_word(a, b),
        _ => false,
    }
}

fn same_piece(text: &[u8], part: &Part, other_text: &[u8], other: &Part) -> bool
    ensures { result ≡ true → piece_in text.now part.now ≡ piece_in other_text.now other.now }
{
    same_kind(&part.kind, &other.kind)
        && between(text, part.start, part.end) == between(other_text, other.start, other.end)
}

/// Whether the parts of two texts are the same pieces. It takes no memory.
pub(crate) fn same_pieces(text: &[u8], parts: &[Part], other_text: &[u8], others: &[Part]) -> bool
    ensures { result ≡ true → map (piece_in text.now) parts.now
        ≡ map (piece_in other_text.now) others.now }
{
    if parts.len() != others.len() {
        return false;
    }
    for (i, part) in parts.iter().enumerate() {
        if !same_piece(text, part, other_text, &others[i]) {
            return false;
        }
    }
    true
}

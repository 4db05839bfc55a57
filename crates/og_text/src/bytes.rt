//! Bytes, runs of bytes, and the value of digits.

ghost use Rattle.std.specs.Prelude.{◌≡◌, ◌≤◌, ◌<◌, ◌^◌, MatchOption};
ghost use Rattle.std.specs.List.{prefix_len};
ghost use Rattle.og_text.specs.Lexemes.{is_white, is_digit, is_letter, is_word_byte, in_line, value_of};

use crate::limits::NUMBER_LIMIT;

// Whether the byte is space, tab, CR or LF.
pub(crate) fn is_white(b: u8) -> bool
    ensures { result ≡ is_white b }
{
    b == b' ' || b == b'\t' || b == b'\r' || b == b'\n'
}

// Whether the byte is a decimal digit.
pub(crate) fn is_digit(b: u8) -> bool
    ensures { result ≡ is_digit b }
{
    b'0' <= b && b <= b'9'
}

// Whether the byte is an ASCII letter or an underscore.
pub(crate) fn is_letter(b: u8) -> bool
    ensures { result ≡ is_letter b }
{
    (b'a' <= b && b <= b'z') || (b'A' <= b && b <= b'Z') || b == b'_'
}

// How many bytes at the front are white space.
pub(crate) fn white_len(bytes: &[u8]) -> usize
    ensures { result ≡ prefix_len is_white bytes.now }
{
    bytes.iter().take_while(|b| is_white(**b)).count()
}

// How many bytes stand before the first LF.
pub(crate) fn line_len(bytes: &[u8]) -> usize
    ensures { result ≡ prefix_len in_line bytes.now }
{
    bytes.iter().take_while(|b| **b != b'\n').count()
}

// How many bytes at the front are letters, digits or underscores.
pub(crate) fn word_len(bytes: &[u8]) -> usize
    ensures { result ≡ prefix_len is_word_byte bytes.now }
{
    bytes
        .iter()
        .take_while(|b| is_letter(**b) || is_digit(**b))
        .count()
}

// How many bytes at the front are digits.
pub(crate) fn digits_len(bytes: &[u8]) -> usize
    ensures { result ≡ prefix_len is_digit bytes.now }
{
    bytes.iter().take_while(|b| is_digit(**b)).count()
}

// The number that the digits stand for, if it is within the limit.
pub(crate) fn number(digits: &[u8]) -> Option<u64>
    ensures { MatchOption result (2 ^ 63 < value_of digits.now)
        (λ n. (n ≡ value_of digits.now) × (n ≤ 2 ^ 63)) }
{
    let mut value: u64 = 0;
    for digit in digits {
        let next = 10 * value as u128 + digit.saturating_sub(b'0') as u128;
        if next > NUMBER_LIMIT as u128 {
            return None;
        }
        value = next as u64;
    }
    Some(value)
}

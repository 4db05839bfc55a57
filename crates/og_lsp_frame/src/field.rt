//! A line of a header.

ghost use Rattle.std.specs.Prelude.{◌≡◌, ◌≤◌, ◌+◌, ◌^◌, min, length};
ghost use Rattle.std.specs.List.{prefix_len};
ghost use Rattle.og_text.specs.Lexemes.{is_digit};
ghost use Rattle.og_lsp_frame.specs.Front.{is_space, in_name, is_blank, names_length, number_of, length_of, length_told, trimmed};

use crate::limits::BODY_LIMIT;

// Whether the byte is a blank, a tab or a CR.
fn is_space(byte: u8) -> bool
    ensures { result ≡ is_space byte }
{
    byte == b' ' || byte == b'\t' || byte == b'\r'
}

// Whether the byte is a decimal digit.
fn is_digit(byte: u8) -> bool
    ensures { result ≡ is_digit byte }
{
    b'0' <= byte && byte <= b'9'
}

// How many bytes at the front are blanks, tabs or CRs.
fn space_len(bytes: &[u8]) -> usize
    ensures { result ≡ prefix_len is_space bytes.now }
{
    bytes.iter().take_while(|b| is_space(**b)).count()
}

// How many bytes at the front are digits.
fn digits_len(bytes: &[u8]) -> usize
    ensures { result ≡ prefix_len is_digit bytes.now }
{
    bytes.iter().take_while(|b| is_digit(**b)).count()
}

// How many bytes stand in front of the first colon.
fn name_len(bytes: &[u8]) -> usize
    ensures { result ≡ prefix_len in_name bytes.now }
{
    bytes.iter().take_while(|b| **b != b':').count()
}

// Whether the line has nothing but a CR at most.
pub(crate) fn is_blank(line: &[u8]) -> bool
    ensures { result ≡ is_blank line.now }
{
    line.is_empty() || (line.len() == 1 && line[0] == b'\r')
}

// Whether the name is that of the field that tells the length.
fn names_length(name: &[u8]) -> bool
    ensures { result ≡ names_length name.now }
{
    name.eq_ignore_ascii_case(b"Content-Length")
}

// The number that digits write, or 16,777,217 where it is larger.
fn number(digits: &[u8]) -> u32
    ensures { result ≡ number_of digits.now }
{
    let mut value: u32 = 0;
    for digit in digits {
        let next = 10 * value + digit.saturating_sub(b'0') as u32;
        if next > BODY_LIMIT {
            return BODY_LIMIT + 1;
        }
        value = next;
    }
    value
}

// The bytes from the first on that is no blank, tab or CR.
#[tactic(auto, using(crate::proofs::Within::prefix_within))]
fn trimmed(bytes: &[u8]) -> &[u8]
    ensures { result.now ≡ trimmed bytes.now }
{
    &bytes[space_len(bytes)..]
}

// The length that a value tells: digits, with blanks around them.
#[tactic(auto, using(crate::proofs::Within::prefix_within))]
fn told(value: &[u8]) -> Option<u32>
    ensures { result ≡ length_of value.now }
{
    let text = trimmed(value);
    let len = digits_len(text);
    if len == 0 || !trimmed(&text[len..]).is_empty() {
        return None;
    }
    Some(number(&text[..len]))
}

// The length of the body, where the line tells it.
#[tactic(auto, using(crate::proofs::Within::prefix_within))]
pub(crate) fn length_told(line: &[u8]) -> Option<u32>
    ensures { result ≡ length_told line.now }
{
    let len = name_len(line);
    if len == line.len() || !names_length(&line[..len]) {
        return None;
    }
    told(&line[len + 1..])
}

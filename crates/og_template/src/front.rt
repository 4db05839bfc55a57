//! The first word of a text.

ghost use Rattle.std.specs.Prelude.{◌≡◌, false};
ghost use Rattle.std.specs.List.{prefix_len};
ghost use Rattle.og_template.specs.Front.{is_white, is_word_byte, after_gaps, first_word, is_template};

fn is_white(b: u8) -> bool
    ensures { result ≡ is_white b }
{
    b == b' ' || b == b'\t' || b == b'\r' || b == b'\n'
}

fn is_word_byte(b: u8) -> bool
    ensures { result ≡ is_word_byte b }
{
    (b'a' <= b && b <= b'z') || (b'A' <= b && b <= b'Z') || b == b'_' || (b'0' <= b && b <= b'9')
}

// What follows white space and comments.
fn after_gaps(text: &[u8]) -> &[u8]
    ensures { result.now ≡ after_gaps false text.now }
{
    let mut rest = text;
    let mut in_comment = false;
    'gaps: while let [byte, more @ ..] = rest {
        if !in_comment && *byte != b'#' && !is_white(*byte) {
            return rest;
        }
        in_comment = *byte != b'\n' && (in_comment || *byte == b'#');
        rest = more;
    }
    rest
}

// How many letters, digits and underscores come first.
fn word_len(bytes: &[u8]) -> usize
    ensures { result ≡ prefix_len is_word_byte bytes.now }
{
    bytes.iter().take_while(|b| is_word_byte(**b)).count()
}

// The letters, digits and underscores after white space and comments.
fn first_word(text: &[u8]) -> &[u8]
    ensures { result.now ≡ first_word text.now }
{
    let rest = after_gaps(text);
    &rest[..word_len(rest)]
}

/// Whether the first word of a text is `template`: what follows white space and comments begins
/// with these letters, and no letter, digit or `_` follows them. It takes no memory.
pub fn is_template(text: &[u8]) -> bool
    ensures { result ≡ is_template text.now }
{
    first_word(text) == b"template".as_slice()
}

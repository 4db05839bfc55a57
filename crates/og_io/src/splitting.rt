//! The line at which the certificates of a joined input begin.

ghost use Rattle.std.specs.Prelude.{◌≡◌, ◌<◌, ◌≤◌, ◌⊎◌, ℕ, length, true, false};
ghost use Rattle.og_io.specs.Joined.{certs_at, begins_with_line, begins_certs, IsSplit};

// Whether this is the first line.
fn begins_with_line(text: &[u8], line: &[u8]) -> bool
    ensures { result ≡ begins_with_line text.now line.now }
{
    text.starts_with(line) && (text.len() == line.len() || text[line.len()] == b'\n')
}

// Whether the first line is one with which certificates begin.
fn begins_certs(text: &[u8]) -> bool
    ensures { result ≡ begins_certs text.now }
{
    begins_with_line(text, b"og-cert 1") || begins_with_line(text, b"og-cert 2")
}

// Whether the certificates may begin at the place.
#[tactic(auto, unfolding(crate::specs::Joined::certs_at))]
fn certs_at(input: &[u8], place: usize) -> bool
    requires { place < length input.now }
    ensures { result ≡ certs_at input.now place }
{
    (place == 0 || input[place - 1] == b'\n') && begins_certs(&input[place..])
}

// The first place at which the certificates may begin, or the input's length.
fn certs_start(input: &[u8]) -> usize
    ensures within { result ≤ length input.now }
    ensures first { (place : ℕ) → place < result → certs_at input.now place ≡ false }
    ensures found { (result ≡ length input.now) ⊎ (certs_at input.now result ≡ true) }
{
    for place in 0..input.len() {
        if certs_at(input, place) {
            return place;
        }
    }
    input.len()
}

/// The source and the certificates of a joined input. The source is all before the first line that
/// is exactly `og-cert 1` or `og-cert 2`; a last line needs no LF. The certificates are that line
/// and the rest, or nothing where there is no such line. Takes no memory.
pub fn split(input: &[u8]) -> (&[u8], &[u8])
    ensures { IsSplit input.now result.0.now result.1.now }
{
    let start = certs_start(input);
    (&input[..start], &input[start..])
}

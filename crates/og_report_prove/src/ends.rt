//! Where the parts of a source end.

ghost use Rattle.std.specs.Prelude.{◌≡◌, ◌≤◌, ◌^◌, false, drop, length, max};
ghost use Rattle.og_report_prove.specs.Ends.{in_comment, is_solid, note_end, statement_end, end_of};

// Whether a comment goes on behind this byte.
fn in_comment(comment: bool, byte: u8) -> bool
    ensures { result ≡ in_comment comment byte }
{
    if comment { byte != b'\n' } else { byte == b'#' }
}

// Whether the byte is part of a token.
fn is_solid(comment: bool, byte: u8) -> bool
    ensures { result ≡ is_solid comment byte }
{
    if comment {
        return false;
    }
    !matches!(byte, b'#' | b' ' | b'\t' | b'\r' | b'\n')
}

// The byte offset behind the next `}` that stands in no comment.
fn note_end(source: &[u8], at: usize) -> usize
    requires { at ≤ length source.now }
    ensures end { result ≡ note_end false at (drop at source.now) }
    ensures behind { at ≤ result }
    ensures within { result ≤ length source.now }
{
    let mut comment = false;
    for place in at..source.len() {
        let byte = source[place];
        if !comment && byte == b'}' {
            return place + 1;
        }
        comment = in_comment(comment, byte);
    }
    source.len()
}

// The byte offset behind the last token before the next `{` that stands in no comment.
fn statement_end(source: &[u8], at: usize) -> usize
    requires { at ≤ length source.now }
    ensures end { result ≡ statement_end false at at (drop at source.now) }
    ensures behind { at ≤ result }
    ensures within { result ≤ length source.now }
{
    let mut comment = false;
    let mut last = at;
    for place in at..source.len() {
        let byte = source[place];
        if !comment && byte == b'{' {
            return last;
        }
        if is_solid(comment, byte) {
            last = place + 1;
        }
        comment = in_comment(comment, byte);
    }
    last
}

/// The byte offset at which the part ends that begins at the byte offset `at`: of a note behind its
/// `}`; of a statement or `cobegin` behind the last token before the next note. The end stands
/// within the source, and not before the part; an offset beyond the source is its own end. Takes no
/// memory.
pub fn end_of(source: &[u8], at: u32) -> u32
    requires { length source.now ≤ 2 ^ 20 }
    ensures end { result ≡ end_of source.now at }
    ensures behind { at ≤ result }
    ensures within { result ≤ max at (length source.now) }
{
    let from = at as usize;
    match source.get(from).copied() {
        None => at,
        Some(b'{') => note_end(source, from) as u32,
        Some(_) => statement_end(source, from) as u32,
    }
}

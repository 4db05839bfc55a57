//! Places in a text.

ghost use Rattle.std.specs.Prelude.{◌≡◌, ◌≤◌, ◌+◌, ◌^◌, length, take};
ghost use Rattle.og_text.specs.Place.{line_at, column_at};

/// Bytes of a text that stand next to each other. Offsets count bytes from 0.
#[derive(Clone, Copy, Debug, Drop, PartialEq, Eq)]
pub struct Span {
    /// The offset of the first byte.
    pub start: u32,
    /// The offset after the last byte.
    pub end: u32,
}

/// The line and the column of the byte offset `at` in a text of at most 1,048,576 bytes. Lines
/// count from 1, and each ends with its LF. Columns count bytes from 1. The offset may be that of
/// the end of the text. It takes no memory, and time linear in `at`: to place many offsets of one
/// text, make a `LineIndex`.
pub fn line_col(text: &[u8], at: u32) -> (u32, u32)
    requires inside { at ≤ length text.now }
    requires small { length text.now ≤ 2 ^ 20 }
    ensures line { result.0 ≡ line_at text.now at }
    ensures column { result.1 ≡ column_at text.now at }
{
    let mut line = 1;
    let mut column = 1;
    for byte in &text[..at as usize] {
        if *byte == b'\n' {
            line += 1;
            column = 1;
        } else {
            column += 1;
        }
    }
    (line, column)
}

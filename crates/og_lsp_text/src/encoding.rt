//! What the characters of a position count.

ghost use Rattle.std.specs.Prelude.{◌≡◌, ◌≤◌};
ghost use Rattle.og_lsp_text.specs.Positions.{unit, name_of};

/// The units in which a position counts within its line.
#[derive(Clone, Copy, Drop, PartialEq, Eq)]
pub enum Encoding {
    /// Bytes.
    Utf8,
    /// Code units of UTF-16: two for a character of four bytes, else one for each character.
    Utf16,
}

impl Encoding {
    /// The name that the protocol has for the encoding.
    pub fn name(self) -> &'static str
        ensures { result.now ≡ name_of self }
    {
        match self {
            Encoding::Utf8 => "utf-8",
            Encoding::Utf16 => "utf-16",
        }
    }

    // How many units the byte adds.
    pub(crate) fn unit(self, byte: u8) -> u32
        ensures { result ≡ unit self byte }
    {
        match self {
            Encoding::Utf8 => 1,
            Encoding::Utf16 => match byte {
                0x80..=0xBF => 0,
                0xF0..=0xFF => 2,
                _ => 1,
            },
        }
    }
}

//! How the program ends.

/// How the program ends.
#[derive(Clone, Copy, PartialEq, Eq)]
pub struct Ended {
    /// The status.
    pub status: u8,
    /// Whether the text for standard error was written whole; true where there is none.
    pub written: bool,
}

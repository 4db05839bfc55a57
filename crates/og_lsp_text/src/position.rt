//! Positions and ranges.

/// A place of a text as the protocol has it.
#[derive(Clone, Copy, Drop, PartialEq, Eq)]
pub struct Position {
    /// The line, counted from 0.
    pub line: u32,
    /// The units of the line in front of the place.
    pub character: u32,
}

/// What stands between two positions.
#[derive(Clone, Copy, Drop, PartialEq, Eq)]
pub struct Range {
    /// In front of the first character.
    pub start: Position,
    /// Behind the last character.
    pub end: Position,
}

//! A part with the white space in front of it.

use crate::class::Class;

/// The white space in front of a part.
#[derive(Clone, Copy, Drop, PartialEq, Eq)]
pub(crate) enum Gap {
    None,
    Blank,
    /// In front of a comment that stands behind a word.
    TwoBlanks,
    /// The part begins a line.
    Line,
}

/// A part of the text with the white space in front of it.
#[derive(Clone, Copy, Drop)]
pub(crate) struct Spaced {
    pub(crate) class: Class,
    /// The offset of the first byte.
    pub(crate) start: usize,
    /// The offset after the last byte.
    pub(crate) end: usize,
    pub(crate) gap: Gap,
    /// The level of the line that it begins, of two blanks each.
    pub(crate) level: usize,
    /// The level of the lines that its line is continued on.
    pub(crate) continued: usize,
    /// How far inside the connective stands that a long line may be broken at in front of it.
    pub(crate) rank: Option<usize>,
    /// Whether a line without a word stands in front of it in the source.
    pub(crate) after_blank_line: bool,
}

impl Spaced {
    /// How many columns it takes with the white space in front of it. A comment takes none, since
    /// no line is broken for it.
    pub(crate) fn width(&self) -> usize {
        if self.class == Class::Comment {
            return 0;
        }
        let gap = match self.gap {
            Gap::None => 0,
            Gap::Blank => 1,
            Gap::TwoBlanks => 2,
            Gap::Line => self.level.saturating_mul(2),
        };
        self.end.saturating_sub(self.start).saturating_add(gap)
    }
}

//! How large a message may be.

/// The greatest length of a body, in bytes.
pub const BODY_LIMIT: u32 = 16_777_216;

/// The greatest length of a line of a header, in bytes without its LF.
pub const LINE_LIMIT: usize = 4_096;

/// How many lines a header has at most, the empty one included.
pub const HEADER_LINES: u32 = 16;

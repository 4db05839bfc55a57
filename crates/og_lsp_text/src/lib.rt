//! Places of a text as positions of the Language Server Protocol (3.17), and back.
//!
//! A place is a byte offset. [`Lines`] turns it into a line and a character, which counts units of
//! an [`Encoding`], and a position into the place that it names.
#![tactic(auto)]

mod boundary;
mod encoding;
mod laws;
mod lines;
mod position;
mod walk;

pub use encoding::Encoding;
pub use laws::{positions_come_back, positions_within};
pub use lines::{Lines, TEXT_LIMIT};
pub use position::{Position, Range};

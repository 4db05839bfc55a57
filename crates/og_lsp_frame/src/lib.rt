//! Messages of the Language Server Protocol on a stream: a header that counts the bytes of a body,
//! and the body.
//!
//! [`Frames`] holds what has come of a stream and gives its messages one after the other, however
//! the stream was cut into pieces. [`write_message`] writes one. specs/Front.antt defines what
//! stands at the front of a stream.
#![tactic(auto)]

mod fault;
mod field;
mod frames;
mod header;
mod laws;
mod limits;
mod reading;
mod writing;

pub use fault::{FrameError, FrameFault, InputError};
pub use frames::Frames;
pub use laws::{front_goes_on, message_is, written_is_read};
pub use limits::{BODY_LIMIT, HEADER_LINES, LINE_LIMIT};
pub use reading::read_message;
pub use writing::{message_text, write_message};

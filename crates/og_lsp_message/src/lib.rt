//! Messages of JSON-RPC 2.0: what a client calls, and what it is answered.
//!
//! A [`Message`] is read of the body of a frame, and [`Kind`] says what it is. specs/Answers.antt
//! defines the answers; [`body_of`] makes the body of one.
#![tactic(auto)]

mod answer;
mod code;
mod id;
mod message;

pub use answer::{answer_value, body_of, error_value, notification_value};
pub use code::ErrorCode;
pub use id::Id;
pub use message::{Kind, Message, MessageError};

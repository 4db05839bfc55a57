//! The language server: messages of an editor in, answers and diagnostics out.
//!
//! A [`Server`] takes one message after the other and adds what it says to an outbox; it keeps the
//! open documents, and judges them when it is asked to publish. [`serve_editor`] runs it over a
//! reader and a writer: one thread reads, and hands the messages over by a channel.
#![tactic(auto)]

mod capabilities;
mod documents;
mod ended;
mod features;
mod life;
mod method;
mod outbox;
mod publishing;
mod requests;
mod server;
mod serving;
mod syncing;

pub use documents::DOCUMENTS_MOST;
pub use ended::SessionEnd;
pub use outbox::Outbox;
pub use server::{Flow, Server};
pub use serving::serve_editor;

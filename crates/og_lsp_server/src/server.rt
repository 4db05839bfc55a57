//! The server, and what it is at.

ghost use Rattle.std.specs.Prelude.{◌≡◌, IfOk, OnOk};
ghost use Rattle.serde_json.specs.View.{view};
ghost use Rattle.og_lsp_message.specs.Calls.{kind_of};
ghost use Rattle.og_lsp_message.specs.declared.message.Kind.TheVariants.{Request, Notification};
ghost use Rattle.og_lsp_server.specs.Replies.{Says, Leads, Takes};
ghost use Rattle.og_lsp_server.specs.Published.{AreJudged};
ghost use Rattle.og_lsp_server.specs.Said.{said};
ghost use Rattle.og_lsp_server.specs.Texts.{texts_of, KeepsTexts};
ghost use Rattle.og_lsp_server.specs.declared.server.Phase.TheVariants.{Fresh};

use crate::documents::Documents;
use crate::ended::SessionEnd;
use crate::outbox::Outbox;
use og_lsp_document::Judge;
use og_lsp_message::{ErrorCode, Kind, Message, MessageError};
use og_lsp_text::Encoding;
use og_pool::Gate;
use std::sync::Wait;
use std::thread::Threads;

/// What the server is at.
#[derive(Clone, Copy, Drop, PartialEq, Eq)]
pub enum Phase {
    /// It waits for `initialize`.
    Fresh,
    /// It serves.
    Ready,
    /// It waits for `exit`, after `shutdown`.
    Closing,
}

/// Whether a session goes on.
#[derive(Clone, Copy, Drop, PartialEq, Eq)]
pub enum Flow {
    /// It goes on.
    GoesOn,
    /// The client said `exit`, after `shutdown` or not.
    Exits { after_shutdown: bool },
}

/// The server.
#[derive(Drop)]
pub struct Server<'r, G, H> {
    pub(crate) judge: &'r Judge<'r, G, H>,
    pub(crate) encoding: Encoding,
    pub(crate) phase: Phase,
    pub(crate) documents: Documents,
}

impl<'r, G: Gate, H: Threads + Wait + Sync> Server<'r, G, H> {
    /// A server that waits for `initialize`.
    pub fn new(judge: &'r Judge<'r, G, H>) -> Server<'r, G, H>
        ensures phase { result.phase ≡ Fresh }
        ensures judged { AreJudged result.documents }
    {
        let documents = Documents::new(judge.alloc);
        Server {
            judge,
            encoding: Encoding::Utf16,
            phase: Phase::Fresh,
            documents,
        }
    }

    /// Takes a message, and adds what it is answered: one answer to a request, with its id; nothing
    /// to a notification but notifications; nothing to an answer.
    ///
    /// # Errors
    ///
    /// `Memory` where an allocation was refused, `Spawn` where a thread could not be started.
    pub fn take(
        &mut self,
        message: &Result<Message, MessageError>,
        out: &mut Outbox,
    ) -> Result<Flow, SessionEnd>
        ensures taken { IfOk result (λ flow.
            Takes message.now self.old.phase (said out.old) (said out.new) flow self.new.phase) }
        ensures texts { KeepsTexts message.now self.old.documents self.new.documents }
        ensures judged { AreJudged self.old.documents → AreJudged self.new.documents }
    {
        match message {
            Ok(message) => self.take_message(message, out),
            Err(MessageError::Memory) => Err(SessionEnd::Memory),
            Err(MessageError::NoJson) => {
                out.error(None, ErrorCode::ParseError, "the message is no JSON")?;
                Ok(Flow::GoesOn)
            }
        }
    }

    // Takes a message that was read.
    fn take_message(&mut self, message: &Message, out: &mut Outbox) -> Result<Flow, SessionEnd>
        ensures says { OnOk result (Says (kind_of (view message.now.value)) self.old.phase
            (view message.now.value) (said out.old) (said out.new)) }
        ensures leads { IfOk result (λ flow. Leads (kind_of (view message.now.value))
            self.old.phase (view message.now.value) flow self.new.phase) }
        ensures texts { kind_of (view message.now.value) ≡ Request
            → texts_of self.new.documents ≡ texts_of self.old.documents }
        ensures judged { AreJudged self.old.documents → AreJudged self.new.documents }
    {
        match message.kind() {
            Kind::Request => self.take_call(message, out),
            Kind::Notification => self.take_notice(message, out),
            Kind::Answer => Ok(Flow::GoesOn),
            Kind::Other => {
                out.error(
                    message.id(),
                    ErrorCode::InvalidRequest,
                    "the message is no call",
                )?;
                Ok(Flow::GoesOn)
            }
        }
    }

    // Takes a request.
    fn take_call(&mut self, message: &Message, out: &mut Outbox) -> Result<Flow, SessionEnd>
        requires { kind_of (view message.now.value) ≡ Request }
        ensures says { OnOk result (Says Request self.old.phase
            (view message.now.value) (said out.old) (said out.new)) }
        ensures leads { IfOk result (λ flow. Leads Request
            self.old.phase (view message.now.value) flow self.new.phase) }
        ensures texts { texts_of self.new.documents ≡ texts_of self.old.documents }
        ensures judged { AreJudged self.old.documents → AreJudged self.new.documents }
    {
        match (message.method(), message.id()) {
            (Some(method), Some(id)) => {
                self.take_request(message, method, id, out)?;
                Ok(Flow::GoesOn)
            }
            _ => unreachable!(),
        }
    }

    // Takes a notification.
    fn take_notice(&mut self, message: &Message, out: &mut Outbox) -> Result<Flow, SessionEnd>
        requires { kind_of (view message.now.value) ≡ Notification }
        ensures says { OnOk result (Says Notification self.old.phase
            (view message.now.value) (said out.old) (said out.new)) }
        ensures leads { IfOk result (λ flow. Leads Notification
            self.old.phase (view message.now.value) flow self.new.phase) }
        ensures judged { AreJudged self.old.documents → AreJudged self.new.documents }
    {
        match message.method() {
            Some(method) => self.take_notification(message, method, out),
            None => unreachable!(),
        }
    }
}

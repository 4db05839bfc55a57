//! Requests.

ghost use Rattle.std.specs.Prelude.{◌≡◌, Some, IfOk, IfErr, OnOk, OnErr};
ghost use Rattle.std.specs.Result.{IsErrAnd};
ghost use Rattle.og_lsp_message.specs.declared.code.ErrorCode.{ErrorCode};
ghost use Rattle.og_lsp_message.specs.Ids.{id_data};
ghost use Rattle.og_lsp_server.specs.Methods.{method_named};
ghost use Rattle.og_lsp_features.specs.Refusals.{code_of};
ghost use Rattle.og_lsp_server.specs.Replies.{refused_with, refused_ready, phase_behind, AddsReply};
ghost use Rattle.og_lsp_server.specs.Said.{said};
ghost use Rattle.og_lsp_server.specs.Published.{AreJudged};
ghost use Rattle.og_lsp_server.specs.Texts.{texts_of};
ghost use Rattle.og_lsp_server.specs.declared.server.Phase.TheVariants.{Ready};

use crate::ended::SessionEnd;
use crate::method::{Method, method_named};
use crate::outbox::Outbox;
use crate::server::{Phase, Server};
use og_lsp_features::{Asked, NO_DOCUMENT, Refusal};
use og_lsp_message::{ErrorCode, Id, Message};
use og_pool::Gate;
use serde_json::Value;
use std::sync::Wait;
use std::thread::Threads;

// The server is initialized already.
const INITIALIZED: Refusal = Refusal::Refused(
    ErrorCode::InvalidRequest,
    "the server is initialized already",
);

// The server is not initialized.
const NOT_INITIALIZED: Refusal = Refusal::Refused(
    ErrorCode::NotInitialized,
    "the server is not initialized",
);

// The server is shut down.
const SHUT_DOWN: Refusal = Refusal::Refused(ErrorCode::InvalidRequest, "the server is shut down");

// There is no such method.
const NO_METHOD: Refusal = Refusal::Refused(ErrorCode::MethodNotFound, "there is no such method");

/// The document that the parameters of a call name.
pub(crate) fn document_name(message: &Message) -> Result<&str, Refusal> {
    match message
        .parameter("textDocument")
        .and_then(|document| document.get("uri"))
        .and_then(Value::as_str)
    {
        Some(name) => Ok(name),
        None => Err(NO_DOCUMENT),
    }
}

impl<'r, G: Gate, H: Threads + Wait + Sync> Server<'r, G, H> {
    // The place of the document that a request names, among the open ones.
    pub(crate) fn named_place(&self, message: &Message) -> Result<usize, Refusal> {
        let uri = document_name(message)?;
        match self.documents.place(uri) {
            Some(place) => Ok(place),
            None => Err(NO_DOCUMENT),
        }
    }

    // The result of a request while the server serves.
    fn served(&mut self, message: &Message, method: Method) -> Result<Value, Refusal>
        requires { self.old.phase ≡ Ready }
        ensures refused { (code : ErrorCode) → refused_ready (Some method) ≡ Some code
            → IsErrAnd result (λ e. code_of e ≡ Some code) }
        ensures phase { self.new.phase ≡ phase_behind Ready (Some method) }
        ensures texts { texts_of self.new.documents ≡ texts_of self.old.documents }
        ensures judged { AreJudged self.old.documents → AreJudged self.new.documents }
    {
        match method {
            Method::Initialize => Err(INITIALIZED),
            Method::Shutdown => {
                self.phase = Phase::Closing;
                Ok(Value::Null)
            }
            Method::Formatting => self.formatted(message),
            Method::CodeLens => self.lenses(message),
            Method::Hover => self.hover(message),
            Method::DocumentSymbol => self.declared(message),
            Method::Definition => self.of_name(message, Asked::Definition),
            Method::References => self.of_name(message, Asked::References),
            Method::DocumentHighlight => self.of_name(message, Asked::Highlights),
            Method::PrepareRename => self.of_name(message, Asked::Prepared),
            Method::Rename => self.rename(message),
            Method::Completion => self.choices(message),
            Method::CodeAction => self.actions(message),
        }
    }

    // The result of a request.
    fn result(&mut self, message: &Message, method: Option<Method>) -> Result<Value, Refusal>
        ensures refused { (code : ErrorCode) → refused_with self.old.phase method ≡ Some code
            → IsErrAnd result (λ e. code_of e ≡ Some code) }
        ensures phase { OnOk result (self.new.phase ≡ phase_behind self.old.phase method) }
        ensures stays { IfErr result (λ e. (code : ErrorCode) → code_of e ≡ Some code
            → self.new.phase ≡ phase_behind self.old.phase method) }
        ensures texts { texts_of self.new.documents ≡ texts_of self.old.documents }
        ensures judged { AreJudged self.old.documents → AreJudged self.new.documents }
    {
        match (self.phase, method) {
            (Phase::Ready, Some(method)) => self.served(message, method),
            (Phase::Ready, None) => Err(NO_METHOD),
            (Phase::Fresh, Some(Method::Initialize)) => Ok(self.initialize(message)?),
            (Phase::Fresh, _) => Err(NOT_INITIALIZED),
            (Phase::Closing, _) => Err(SHUT_DOWN),
        }
    }

    /// Takes a request, and adds its answer.
    ///
    /// # Errors
    ///
    /// `Memory` or `Spawn`; then nothing was added.
    pub(crate) fn take_request(
        &mut self,
        message: &Message,
        method: &str,
        id: Id<'_>,
        out: &mut Outbox,
    ) -> Result<(), SessionEnd>
        ensures answered { OnOk result (AddsReply (refused_with self.old.phase (method_named method.now))
            (id_data id.entry) (said out.old) (said out.new)) }
        ensures silent { OnErr result (said out.new ≡ said out.old) }
        ensures phase { OnOk result (self.new.phase
            ≡ phase_behind self.old.phase (method_named method.now)) }
        ensures texts { texts_of self.new.documents ≡ texts_of self.old.documents }
        ensures judged { AreJudged self.old.documents → AreJudged self.new.documents }
    {
        match self.result(message, method_named(method)) {
            Ok(value) => Ok(out.answer(id, value)?),
            Err(Refusal::Refused(code, why)) => Ok(out.error(Some(id), code, why)?),
            Err(Refusal::Memory) => Err(SessionEnd::Memory),
            Err(Refusal::Spawn) => Err(SessionEnd::Spawn),
        }
    }
}

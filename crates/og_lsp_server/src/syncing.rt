//! Documents are opened, changed and closed.

ghost use Rattle.std.specs.Prelude.{◌≡◌, IfOk, OnOk, OnErr};
ghost use Rattle.og_lsp_server.specs.Published.{AreJudged};
ghost use Rattle.og_lsp_server.specs.Replies.{flow_of, AddsNotifications};
ghost use Rattle.og_lsp_server.specs.Said.{said};

use crate::ended::SessionEnd;
use crate::outbox::Outbox;
use crate::requests::document_name;
use crate::server::{Flow, Phase, Server};
use og_lsp_message::Message;
use serde_json::{Value, json};
use std::alloc::AllocError;

const FULL: &str = "og: 100 documents are open, so this one is not judged";

// The version of the document that a call names.
fn version_of(message: &Message) -> Option<i64> {
    message
        .parameter("textDocument")
        .and_then(|document| document.get("version"))
        .and_then(Value::as_i64)
}

// The text of a document that is opened.
fn opened_text(message: &Message) -> Option<&str> {
    message
        .parameter("textDocument")
        .and_then(|document| document.get("text"))
        .and_then(Value::as_str)
}

// The text of a document that is changed: that of the last change. A change of a part of the text
// is none, since the server takes whole texts.
fn changed_text(message: &Message) -> Option<&str> {
    let changes = message
        .parameter("contentChanges")
        .and_then(Value::as_array)?;
    let last = changes.last()?;
    if last.get("range").is_some() {
        return None;
    }
    last.get("text").and_then(Value::as_str)
}

impl<'r, G, H> Server<'r, G, H> {
    // A document is opened. What is no such call is passed over.
    #[tactic(auto, using(crate::proofs::Notices::adds_none, crate::proofs::Notices::adds_one))]
    fn open(&mut self, message: &Message, out: &mut Outbox) -> Result<(), AllocError>
        ensures notified { OnOk result (AddsNotifications (said out.old) (said out.new)) }
        ensures phase { self.new.phase ≡ self.old.phase }
        ensures judged { AreJudged self.old.documents → AreJudged self.new.documents }
    {
        let alloc = self.judge.alloc;
        let (Ok(uri), Some(text)) = (document_name(message), opened_text(message)) else {
            return Ok(());
        };
        if self.documents.is_full() && self.documents.get(uri).is_none() {
            let params = json!(in alloc; {"type": 2u32, "message": FULL})?;
            return out.notify("window/showMessage", params);
        }
        let text = String::from_str(alloc, text)?;
        self.documents.open(alloc, uri, version_of(message), text)
    }

    // A document is changed.
    fn change(&mut self, message: &Message) -> Result<(), AllocError>
        ensures phase { self.new.phase ≡ self.old.phase }
        ensures judged { AreJudged self.old.documents → AreJudged self.new.documents }
    {
        let (Ok(uri), Some(text)) = (document_name(message), changed_text(message)) else {
            return Ok(());
        };
        let text = String::from_str(self.judge.alloc, text)?;
        self.documents.set_text(uri, version_of(message), text);
        Ok(())
    }

    // A document is closed, and nothing is wrong with it any more.
    #[tactic(auto, using(crate::proofs::Notices::adds_none, crate::proofs::Notices::adds_one))]
    fn close(&mut self, message: &Message, out: &mut Outbox) -> Result<(), AllocError>
        ensures notified { OnOk result (AddsNotifications (said out.old) (said out.new)) }
        ensures phase { self.new.phase ≡ self.old.phase }
        ensures judged { AreJudged self.old.documents → AreJudged self.new.documents }
    {
        let alloc = self.judge.alloc;
        let Ok(uri) = document_name(message) else {
            return Ok(());
        };
        if !self.documents.close(uri) {
            return Ok(());
        }
        let params = json!(in alloc; {"uri": uri, "diagnostics": []})?;
        out.notify("textDocument/publishDiagnostics", params)
    }

    /// Takes a notification. Unknown ones are passed over, and all but `exit` before `initialize`
    /// and after `shutdown`.
    ///
    /// # Errors
    ///
    /// `Memory`.
    #[tactic(auto, using(crate::proofs::Notices::adds_none))]
    pub(crate) fn take_notification(
        &mut self,
        message: &Message,
        method: &str,
        out: &mut Outbox,
    ) -> Result<Flow, SessionEnd>
        ensures notified { OnOk result (AddsNotifications (said out.old) (said out.new)) }
        ensures flow { IfOk result (λ flow. flow ≡ flow_of self.old.phase method.now) }
        ensures phase { self.new.phase ≡ self.old.phase }
        ensures judged { AreJudged self.old.documents → AreJudged self.new.documents }
    {
        if method == "exit" {
            let after_shutdown = self.phase == Phase::Closing;
            return Ok(Flow::Exits { after_shutdown });
        }
        if self.phase != Phase::Ready {
            return Ok(Flow::GoesOn);
        }
        match method {
            "textDocument/didOpen" => self.open(message, out)?,
            "textDocument/didChange" => self.change(message)?,
            "textDocument/didClose" => self.close(message, out)?,
            _ => {}
        }
        Ok(Flow::GoesOn)
    }
}

//! What is found of documents is published.

ghost use Rattle.std.specs.Prelude.{◌≡◌, [], ◌∷◌, ◌++◌, string_bytes, IfOk, OnOk};
ghost use Rattle.serde_json.specs.View.{view};
ghost use Rattle.og_lsp_server.specs.Published.{params_data, notice_data, IsPublished, ArePublished, AreJudged};
ghost use Rattle.og_lsp_server.specs.Replies.{AddsNotifications};
ghost use Rattle.og_lsp_server.specs.Said.{said};
ghost use Rattle.og_lsp_server.specs.Texts.{texts_of};

use crate::documents::Documents;
use crate::ended::SessionEnd;
use crate::outbox::Outbox;
use crate::server::Server;
use og_lsp_document::{Judge, JudgeError};
use og_lsp_features::Document;
use og_lsp_text::Encoding;
use og_pool::Gate;
use serde_json::{Value, json};
use std::alloc::{AllocError, Global};
use std::sync::Wait;
use std::thread::Threads;

// The parameters by which diagnostics of a document are published.
fn params_value(alloc: Global, document: &Document, diagnostics: Value) -> Result<Value, AllocError>
    ensures { IfOk result (λ v. view v ≡ params_data (string_bytes document.now.uri)
        document.now.version (view diagnostics)) }
{
    let uri = document.uri.as_str();
    match document.version {
        Some(version) => json!(in alloc; {
            "diagnostics": diagnostics, "uri": uri, "version": version
        }),
        None => json!(in alloc; {"diagnostics": diagnostics, "uri": uri}),
    }
}

// Adds what is found of a document, with the version of its text.
fn publish_document(
    document: &Document,
    alloc: Global,
    encoding: Encoding,
    out: &mut Outbox,
) -> Result<(), AllocError>
    ensures { OnOk result (said out.new ≡ said out.old ++ notice_data encoding document.now ∷ []) }
{
    let diagnostics = document.diagnostics(alloc, encoding)?;
    let params = params_value(alloc, document, diagnostics)?;
    out.notify("textDocument/publishDiagnostics", params)
}

// Judges a document if it has changed, and adds what is found of it.
fn judge_and_publish<G: Gate, H: Threads + Wait + Sync>(
    document: &mut Document,
    judge: &Judge<'_, G, H>,
    encoding: Encoding,
    out: &mut Outbox,
) -> Result<(), SessionEnd>
    ensures published { OnOk result (IsPublished encoding document.old document.new
        (said out.old) (said out.new)) }
{
    if !document.is_due {
        return Ok(());
    }
    document.judge(judge)?;
    publish_document(document, judge.alloc, encoding, out)?;
    document.is_due = false;
    Ok(())
}

// The same of documents, one after another.
fn publish_each<G: Gate, H: Threads + Wait + Sync>(
    documents: &mut [Document],
    judge: &Judge<'_, G, H>,
    encoding: Encoding,
    out: &mut Outbox,
) -> Result<(), SessionEnd>
    ensures { OnOk result (ArePublished encoding documents.old documents.new
        (said out.old) (said out.new)) }
{
    let Some((document, others)) = documents.split_first_mut() else {
        return Ok(());
    };
    judge_and_publish(document, judge, encoding, out)?;
    publish_each(others, judge, encoding, out)
}

impl Documents {
    // What is found of the document at this place of the list is known.
    fn judge_at<G: Gate, H: Threads + Wait + Sync>(
        &mut self,
        place: usize,
        judge: &Judge<'_, G, H>,
    ) -> Result<(), JudgeError>
        ensures texts { texts_of self.new ≡ texts_of self.old }
        ensures judged { AreJudged self.old → AreJudged self.new }
    {
        if place >= self.all.len() {
            return Ok(());
        }
        self.all[place].judge(judge)
    }

    // What the outline of the document at this place of the list lacks is known.
    fn complete_at<G: Gate, H: Threads + Wait + Sync>(
        &mut self,
        place: usize,
        judge: &Judge<'_, G, H>,
    ) -> Result<(), JudgeError>
        ensures texts { texts_of self.new ≡ texts_of self.old }
        ensures judged { AreJudged self.old → AreJudged self.new }
    {
        if place >= self.all.len() {
            return Ok(());
        }
        self.all[place].complete(judge)
    }
}

impl<'r, G: Gate, H: Threads + Wait + Sync> Server<'r, G, H> {
    /// What the outline of the document at this place of the list lacks is known, where conditions of
    /// it are not proved.
    ///
    /// # Errors
    ///
    /// As `Judge::judge`.
    pub(crate) fn complete_at(&mut self, place: usize) -> Result<(), JudgeError>
        ensures phase { self.new.phase ≡ self.old.phase }
        ensures texts { texts_of self.new.documents ≡ texts_of self.old.documents }
        ensures judged { AreJudged self.old.documents → AreJudged self.new.documents }
    {
        self.judge_at(place)?;
        self.documents.complete_at(place, self.judge)
    }

    /// What is found of the document at this place of the list is known.
    ///
    /// # Errors
    ///
    /// As `Judge::judge`.
    pub(crate) fn judge_at(&mut self, place: usize) -> Result<(), JudgeError>
        ensures phase { self.new.phase ≡ self.old.phase }
        ensures texts { texts_of self.new.documents ≡ texts_of self.old.documents }
        ensures judged { AreJudged self.old.documents → AreJudged self.new.documents }
    {
        self.documents.judge_at(place, self.judge)
    }

    /// Judges the documents that have changed, and adds what is found of each of them, once.
    ///
    /// # Errors
    ///
    /// `Memory` or `Spawn`.
    #[tactic(auto, using(crate::proofs::Told::all_told))]
    pub fn publish(&mut self, out: &mut Outbox) -> Result<(), SessionEnd>
        ensures published { OnOk result (ArePublished self.old.encoding self.old.documents.all.items
            self.new.documents.all.items (said out.old) (said out.new)) }
        ensures notified { OnOk result (AddsNotifications (said out.old) (said out.new)) }
        ensures phase { self.new.phase ≡ self.old.phase }
        ensures encoding { self.new.encoding ≡ self.old.encoding }
    {
        publish_each(&mut self.documents.all, self.judge, self.encoding, out)
    }
}

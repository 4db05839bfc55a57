//! An open document.

ghost use Rattle.std.specs.Prelude.{◌≡◌, string_bytes, None, true, IfOk, OnOk};
ghost use Rattle.serde_json.specs.View.{view};
ghost use Rattle.og_lsp_features.specs.Diagnosed.{found_data, IsJudged};
ghost use Rattle.og_lsp_features.specs.Texts.{text_of};

use crate::refusal::{NO_DOCUMENT, Refusal};
use crate::values::Placing;
use og_infer_marks::Edit;
use og_lsp_document::{Judge, JudgeError, Judgement};
use og_lsp_text::{Encoding, Lines, TEXT_LIMIT};
use og_pool::Gate;
use serde_json::Value;
use std::alloc::{AllocError, Global};
use std::sync::Wait;
use std::thread::Threads;

/// An open document.
#[derive(Drop)]
pub struct Document {
    /// The name that the client has for it.
    pub uri: String,
    /// The version of its text, where the client counts them.
    pub version: Option<i64>,
    /// Its text.
    pub text: String,
    /// What is found of the text; nothing where it has changed since.
    pub judgement: Option<Judgement>,
    /// The edits that add to its notes what its outline lacks; nothing where that is not known.
    pub missing: Option<Vec<Edit>>,
    /// Whether what is found has to be published.
    pub is_due: bool,
}

impl Document {
    /// The document gets a text, of which nothing is found yet, and what is found has to be published.
    pub fn set_text(&mut self, version: Option<i64>, text: String)
        ensures { self.new ≡ record {
          uri = self.old.uri;
          version = version;
          text = text;
          judgement = None;
          missing = None;
          is_due = true;
        } }
    {
        self.version = version;
        self.text = text;
        self.judgement = None;
        self.missing = None;
        self.is_due = true;
    }

    /// What is found of the text is known.
    ///
    /// # Errors
    ///
    /// As `Judge::judge`.
    pub fn judge<G: Gate, H: Threads + Wait + Sync>(
        &mut self,
        judge: &Judge<'_, G, H>,
    ) -> Result<(), JudgeError>
        ensures text { text_of self.new ≡ text_of self.old }
        ensures version { self.new.version ≡ self.old.version }
        ensures due { self.new.is_due ≡ self.old.is_due }
        ensures judged { IsJudged self.old → IsJudged self.new }
        ensures found { OnOk result (self.new.judgement ≡ None → ⊥) }
    {
        if self.judgement.is_none() {
            self.judgement = Some(judge.judge(self.text.as_bytes())?);
        }
        Ok(())
    }

    // The text with where its lines begin; it is no longer than messages are.
    pub(crate) fn lines(&self, alloc: Global) -> Result<Lines<'_>, Refusal>
        ensures { IfOk result (λ l. l ≡ string_bytes self.now.text) }
    {
        let text = self.text.as_bytes();
        if text.len() > TEXT_LIMIT {
            return Err(NO_DOCUMENT);
        }
        Ok(Lines::new(alloc, text)?)
    }

    // What the places of the text are told with.
    pub(crate) fn placing<'p>(
        &'p self,
        alloc: Global,
        encoding: Encoding,
        lines: &'p Lines<'p>,
    ) -> Placing<'p>
        ensures encoding { result.encoding ≡ encoding }
        ensures uri { result.uri.now ≡ string_bytes self.entry.now.uri }
        ensures lines { result.lines.now ≡ lines.entry.now }
    {
        Placing {
            alloc,
            encoding,
            uri: self.uri.as_str(),
            lines,
        }
    }

    /// The values of the diagnostics; none where the document is not judged.
    ///
    /// # Errors
    ///
    /// An allocation was refused.
    pub fn diagnostics(&self, alloc: Global, encoding: Encoding) -> Result<Value, AllocError>
        ensures { IfOk result (λ v. view v ≡ found_data encoding (string_bytes self.now.uri)
            (string_bytes self.now.text) self.now.judgement) }
    {
        let text = self.text.as_bytes();
        let Some(judgement) = &self.judgement else {
            return Ok(Value::Array(Vec::new(alloc)));
        };
        if text.len() > TEXT_LIMIT {
            return Ok(Value::Array(Vec::new(alloc)));
        }
        let lines = Lines::new(alloc, text)?;
        self.placing(alloc, encoding, &lines)
            .diagnostic_values(judgement)
    }
}

//! The open documents.

ghost use Rattle.og_lsp_server.specs.Published.{AreJudged};

use og_lsp_features::Document;
use std::alloc::{AllocError, Global};

/// How many documents are open at most.
pub const DOCUMENTS_MOST: usize = 100;

/// The open documents, in the order in which they were opened.
#[derive(Drop)]
pub(crate) struct Documents {
    pub(crate) all: Vec<Document>,
}

impl Documents {
    /// No document is open.
    pub(crate) fn new(alloc: Global) -> Documents
        ensures { AreJudged result }
    {
        Documents {
            all: Vec::new(alloc),
        }
    }

    /// The place of a document in the list.
    pub(crate) fn place(&self, uri: &str) -> Option<usize> {
        self.all.iter().position(|each| each.uri.as_str() == uri)
    }

    /// The document of a name.
    pub(crate) fn get(&self, uri: &str) -> Option<&Document> {
        self.all.get(self.place(uri)?)
    }

    /// The document of a name gets a text, where it is open.
    pub(crate) fn set_text(&mut self, uri: &str, version: Option<i64>, text: String)
        ensures { AreJudged self.old → AreJudged self.new }
    {
        let Some(place) = self.place(uri) else {
            return;
        };
        if place < self.all.len() {
            self.all[place].set_text(version, text);
        }
    }

    /// Whether no other document can be opened.
    pub(crate) fn is_full(&self) -> bool {
        self.all.len() >= DOCUMENTS_MOST
    }

    /// Opens a document; one of this name that is open gets the text.
    ///
    /// # Errors
    ///
    /// An allocation was refused.
    pub(crate) fn open(
        &mut self,
        alloc: Global,
        uri: &str,
        version: Option<i64>,
        text: String,
    ) -> Result<(), AllocError>
        ensures { AreJudged self.old → AreJudged self.new }
    {
        if self.place(uri).is_some() {
            self.set_text(uri, version, text);
            return Ok(());
        }
        let document = Document {
            uri: String::from_str(alloc, uri)?,
            version,
            text,
            judgement: None,
            missing: None,
            is_due: true,
        };
        self.all.push(document)?;
        Ok(())
    }

    /// Closes a document. Whether it was open.
    pub(crate) fn close(&mut self, uri: &str) -> bool
        ensures { AreJudged self.old → AreJudged self.new }
    {
        match self.place(uri) {
            Some(place) => {
                if place < self.all.len() {
                    let _ = self.all.remove(place);
                }
                true
            }
            None => false,
        }
    }
}

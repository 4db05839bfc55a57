//! The other places that the block of a false condition names.

ghost use Rattle.std.specs.Prelude.{IfOk, OnOk};
ghost use Rattle.og_lsp_diagnostics.specs.Extents.{AreRelatedIn};
ghost use Rattle.og_lsp_diagnostics.specs.Said.{text_of, IsSheet};

use crate::diagnostic::Related;
use crate::teller::Teller;
use og_report_explain::Fault;
use og_report_prove::{Block, Details};
use og_report_text::{put_assertion, put_known};
use og_typed::{Assert, Note, StatementSite};
use std::alloc::AllocError;

// The most bytes of a quote.
const QUOTE_LIMIT: usize = 72;

impl<'t> Teller<'t> {
    // A place with what is said of it.
    fn push_related(
        &self,
        related: &mut Vec<Related>,
        at: u32,
        message: Vec<u8>,
    ) -> Result<(), AllocError>
        requires sheet { IsSheet self.now.page }
        requires old { AreRelatedIn (text_of self.now.page) related.old.items }
        ensures { OnOk result (AreRelatedIn (text_of self.now.page) related.new.items) }
    {
        let span = self.span(at);
        related.push(Related { span, message })?;
        Ok(())
    }

    // An assertion that is true there.
    fn push_known(
        &self,
        related: &mut Vec<Related>,
        details: &Details,
        note: &Note,
    ) -> Result<(), AllocError>
        requires sheet { IsSheet self.now.page }
        requires old { AreRelatedIn (text_of self.now.page) related.old.items }
        ensures { OnOk result (AreRelatedIn (text_of self.now.page) related.new.items) }
    {
        let mut message = Vec::from_slice(self.alloc, b"true: ")?;
        put_known(
            &mut message,
            self.page.names,
            &details.focus,
            &note.assertion,
        )?;
        self.push_related(related, note.at, message)
    }

    // A statement with a word.
    fn push_statement(
        &self,
        related: &mut Vec<Related>,
        word: &[u8],
        site: &StatementSite,
    ) -> Result<(), AllocError>
        requires sheet { IsSheet self.now.page }
        requires old { AreRelatedIn (text_of self.now.page) related.old.items }
        ensures { OnOk result (AreRelatedIn (text_of self.now.page) related.new.items) }
    {
        let mut message = Vec::from_slice(self.alloc, word)?;
        self.page
            .origins
            .put_quote(&mut message, QUOTE_LIMIT, site.item.at)?;
        self.push_related(related, site.item.at, message)
    }

    // A conjunct that is false there.
    fn push_false(
        &self,
        related: &mut Vec<Related>,
        at: u32,
        assert: &Assert,
    ) -> Result<(), AllocError>
        requires sheet { IsSheet self.now.page }
        requires old { AreRelatedIn (text_of self.now.page) related.old.items }
        ensures { OnOk result (AreRelatedIn (text_of self.now.page) related.new.items) }
    {
        let mut message = Vec::from_slice(self.alloc, b"false: ")?;
        put_assertion(&mut message, self.page.names, assert)?;
        self.push_related(related, at, message)
    }

    // The assertions known to be true.
    fn push_notes(&self, related: &mut Vec<Related>, details: &Details) -> Result<(), AllocError>
        requires sheet { IsSheet self.now.page }
        requires old { AreRelatedIn (text_of self.now.page) related.old.items }
        ensures { OnOk result (AreRelatedIn (text_of self.now.page) related.new.items) }
    {
        for note in &details.explanation.known {
            self.push_known(related, details, note)?;
        }
        Ok(())
    }

    // The test.
    fn push_test(&self, related: &mut Vec<Related>, details: &Details) -> Result<(), AllocError>
        requires sheet { IsSheet self.now.page }
        requires old { AreRelatedIn (text_of self.now.page) related.old.items }
        ensures { OnOk result (AreRelatedIn (text_of self.now.page) related.new.items) }
    {
        let Some(test) = &details.explanation.test else {
            return Ok(());
        };
        let word: &[u8] = if test.holds {
            b"test true: "
        } else {
            b"test false: "
        };
        self.push_statement(related, word, &test.site)
    }

    // The step.
    fn push_action(&self, related: &mut Vec<Related>, details: &Details) -> Result<(), AllocError>
        requires sheet { IsSheet self.now.page }
        requires old { AreRelatedIn (text_of self.now.page) related.old.items }
        ensures { OnOk result (AreRelatedIn (text_of self.now.page) related.new.items) }
    {
        match &details.explanation.action {
            Some(site) => self.push_statement(related, b"step: ", site),
            None => Ok(()),
        }
    }

    // The conjuncts of a note that are false.
    fn push_each(
        &self,
        related: &mut Vec<Related>,
        at: u32,
        found: &[&Assert],
    ) -> Result<(), AllocError>
        requires sheet { IsSheet self.now.page }
        requires old { AreRelatedIn (text_of self.now.page) related.old.items }
        ensures { OnOk result (AreRelatedIn (text_of self.now.page) related.new.items) }
    {
        for assert in found {
            self.push_false(related, at, assert)?;
        }
        Ok(())
    }

    // The false conjuncts of an assertion that stands elsewhere than the condition.
    fn push_faults(
        &self,
        related: &mut Vec<Related>,
        at: u32,
        fault: &Fault,
    ) -> Result<(), AllocError>
        requires sheet { IsSheet self.now.page }
        requires old { AreRelatedIn (text_of self.now.page) related.old.items }
        ensures { OnOk result (AreRelatedIn (text_of self.now.page) related.new.items) }
    {
        match fault {
            Fault::False(note, found) if note.at != at => self.push_each(related, note.at, found),
            _ => Ok(()),
        }
    }

    /// The other places that the block of a condition at a byte offset names.
    ///
    /// # Errors
    ///
    /// An allocation was refused.
    pub(crate) fn related(&self, at: u32, block: &Block) -> Result<Vec<Related>, AllocError>
        requires { IsSheet self.now.page }
        ensures { IfOk result (λ v. AreRelatedIn (text_of self.now.page) v.items) }
    {
        let mut related = Vec::new(self.alloc);
        self.push_notes(&mut related, &block.details)?;
        self.push_test(&mut related, &block.details)?;
        self.push_action(&mut related, &block.details)?;
        self.push_faults(&mut related, at, &block.details.explanation.fault)?;
        Ok(related)
    }
}

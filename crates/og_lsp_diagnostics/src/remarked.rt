//! What is said of what an outline claims of no run, and of whatever else a reviewer is told.

ghost use Rattle.std.specs.Prelude.{IfOk};
ghost use Rattle.std.specs.List.{AllZip};
ghost use Rattle.og_lsp_diagnostics.specs.Extents.{AreSaidIn, IsSaidIn};
ghost use Rattle.og_lsp_diagnostics.specs.Remarked.{IsInformation, IsOfRemark};
ghost use Rattle.og_lsp_diagnostics.specs.Said.{text_of, rows_of, IsSheet};

use crate::diagnostic::{Diagnostic, Severity};
use crate::teller::Teller;
use og_command_notes::Remark;
use og_text::Span;
use std::alloc::{AllocError, Global};

// What the diagnostics have for a code.
const CODE: &[u8] = b"notes";

/// What a reviewer is told of some bytes, in these words.
///
/// # Errors
///
/// An allocation was refused.
pub fn information(alloc: Global, span: Span, message: Vec<u8>) -> Result<Diagnostic, AllocError>
    ensures { IfOk result (IsInformation span message.items) }
{
    Ok(Diagnostic {
        span,
        severity: Severity::Information,
        code: Vec::from_slice(alloc, CODE)?,
        message,
        related: Vec::new(alloc),
    })
}

impl<'t> Teller<'t> {
    // What is said of a remark.
    fn of_remark(&self, remark: Remark) -> Result<Diagnostic, AllocError>
        requires { IsSheet self.now.page }
        ensures is { IfOk result (IsOfRemark (text_of self.now.page) (rows_of self.now.page) remark) }
        ensures within { IfOk result (IsSaidIn (text_of self.now.page)) }
    {
        let Remark { at, text } = remark;
        information(self.alloc, self.span(at), text)
    }

    /// What is said of remarks, in their order.
    ///
    /// # Errors
    ///
    /// An allocation was refused.
    pub fn of_remarks(&self, remarks: Vec<Remark>) -> Result<Vec<Diagnostic>, AllocError>
        requires { IsSheet self.now.page }
        ensures are { IfOk result (λ v. AllZip (IsOfRemark (text_of self.now.page) (rows_of self.now.page))
            remarks.items v.items) }
        ensures within { IfOk result (λ v. AreSaidIn (text_of self.now.page) v.items) }
    {
        let mut said = Vec::new(self.alloc);
        for remark in remarks {
            said.push(self.of_remark(remark)?)?;
        }
        Ok(said)
    }
}

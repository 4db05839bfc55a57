//! What an outline claims of no run, one by one.

ghost use Rattle.std.specs.Prelude.{◌≡◌, ◌++◌, flat_map, map, IfOk, OnOk};
ghost use Rattle.og_command_notes.specs.Remarks.{remark_seen, remarks_of, AreRemarks};
ghost use Rattle.og_command_notes.specs.Seen.{claim_of, claims_of};

use crate::claims::{Claim, Search, claims_of};
use og_io::Budget;
use og_review_text::walk_of;
use og_typed::Outline;
use std::alloc::{AllocError, Global};

/// What is claimed of no run.
#[derive(Drop)]
pub struct Remark {
    /// The byte offset of the assertion or the statement that it is about; of all processes, that of
    /// `cobegin`.
    pub at: u32,
    /// The line of the notes without the place, and without its end.
    pub text: Vec<u8>,
}

// Adds what was found of a question, where that is something.
fn add_remark(remarks: &mut Vec<Remark>, claim: &Claim) -> Result<(), AllocError>
    ensures { OnOk result (map remark_seen remarks.new.items
        ≡ map remark_seen remarks.old.items ++ remarks_of (claim_of claim.now)) }
{
    if !claim.refuted {
        return Ok(());
    }
    let subject = claim.asked.subject().as_bytes();
    let mut text = Vec::from_slice(*remarks.allocator(), subject)?;
    text.extend_from_slice(claim.asked.finding().as_bytes())?;
    remarks.push(Remark { at: claim.at, text })?;
    Ok(())
}

// What was found of all of them.
fn remarks_on(alloc: Global, claims: &[Claim]) -> Result<Vec<Remark>, AllocError>
    ensures { IfOk result (λ v. map remark_seen v.items ≡ flat_map remarks_of (claims_of claims.now)) }
{
    let mut remarks = Vec::new(alloc);
    for claim in claims {
        add_remark(&mut remarks, claim)?;
    }
    Ok(remarks)
}

/// What an outline claims of no run, as far as a search within the budget shows it, in the order of
/// the notes: assertions that are never true, loops that are never entered or left, branches that
/// are never taken, awaits that never pass, an end that is never reached.
///
/// # Errors
///
/// An allocation was refused.
pub fn remarks(alloc: Global, outline: &Outline, budget: Budget) -> Result<Vec<Remark>, AllocError>
    ensures { IfOk result (λ v. AreRemarks outline.now v.items) }
{
    let walk = walk_of(alloc, outline)?;
    let search = Search::new(alloc, outline, budget);
    let claims = claims_of(search, outline, &walk.points)?;
    remarks_on(alloc, &claims)
}

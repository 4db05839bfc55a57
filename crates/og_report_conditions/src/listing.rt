//! A listing, which is written as it is made.

ghost use Rattle.std.specs.Prelude.{◌≡◌, ◌≤◌, ◌^◌, length, IfOk, OnOk, IfErr};
ghost use Rattle.std.specs.Io.KnownBytes.{Appends};
ghost use Rattle.og_cond.specs.Conditions.{conditions};
ghost use Rattle.og_cond.specs.Limits.{condition_limit};
ghost use Rattle.og_report_conditions.specs.Listings.{numbers_in, numbers_of, listing_text};
ghost use Rattle.og_io.specs.Written.{AppendsFront};

use crate::form::Form;
use crate::lines::{Lines, opening};
use crate::pieces::write_groups;
use og_cond::{ConditionsError, Groups};
use og_io::{OutputFault, write_whole};
use og_report_text::Places;
use og_typed::{Outline, Source};
use std::alloc::{AllocError, Global};
use std::io::Write;
use std::marker::Model;

/// The listing of an outline's conditions, of which there are at most 4,000,000. Contracts see it
/// as its text, of which no more is in memory than is written at a time.
#[derive(Drop)]
pub struct Listing {
    form: Form,
    // The numbers that are asked for; all, where none are given.
    only: Option<Vec<u32>>,
    outline: Outline,
    source: Vec<u8>,
}

impl Model for Listing {
    ghost use Rattle.std.specs.Prelude.{ℕ, ◌≤◌, ◌^◌, List, length};
    ghost use Rattle.og_cond.specs.Conditions.{conditions};
    ghost use Rattle.og_cond.specs.Limits.{condition_limit};
    ghost use Rattle.og_report_conditions.specs.Listings.{numbers_of, listing_text};

    ghost Value = { List ℕ };

    ghost view = { λ l. listing_text l.form (numbers_of l.only) l.outline l.source.items };

    ghost invariant = { λ l. (length l.source.items ≤ 2 ^ 20) × (length (conditions l.outline) ≤ condition_limit) };
}

// Writes what stands before the conditions, and those that are asked for.
fn write_conditions<W: Write>(
    alloc: Global,
    form: Form,
    only: Option<&[u32]>,
    outline: &Outline,
    source: &[u8],
    out: &mut W,
) -> Result<u8, OutputFault>
    requires source { length source.now ≤ 2 ^ 20 }
    requires few { length (conditions outline.now) ≤ condition_limit }
    ensures written { OnOk result (Appends (W.contents out.old) (W.contents out.new)
        (listing_text form (numbers_in only.entry) outline.now source.now)) }
    ensures status { IfOk result (λ status. status ≡ 0) }
    ensures unfinished { IfErr result (λ _. AppendsFront (W.contents out.old) (W.contents out.new)
        (listing_text form (numbers_in only.entry) outline.now source.now)) }
{
    outline.follows_rule();
    let mut groups = match Groups::new(alloc, outline) {
        Ok(groups) => groups,
        Err(ConditionsError::Memory) => return Err(OutputFault::Memory),
        Err(ConditionsError::Fault(_)) => unreachable!(),
    };
    let places = Places::new(alloc, source)?;
    let names = outline.names();
    let mut text = opening(alloc, form, names)?;
    let lines = Lines {
        form,
        only,
        names,
        places: &places,
    };
    write_groups(out, &mut text, &lines, alloc, &mut groups)?;
    write_whole(out, &text)?;
    Ok(0)
}

impl Listing {
    /// The listing of the conditions of a source that are asked for.
    pub(crate) fn of(
        alloc: Global,
        form: Form,
        only: Option<Vec<u32>>,
        source: Source<'_>,
    ) -> Result<Listing, AllocError>
        requires { length (conditions source.outline) ≤ condition_limit }
        ensures { IfOk result (λ listing.
            listing ≡ listing_text form (numbers_of only) source.entry.outline source.entry.bytes) }
    {
        let bytes = Vec::from_slice(alloc, source.bytes())?;
        Ok(Listing {
            form,
            only,
            outline: source.into_outline(),
            source: bytes,
        })
    }

    /// Writes the listing as it is made, and returns the status, which is 0.
    ///
    /// # Errors
    ///
    /// An allocation was refused, or the writer failed; a front of the listing may have been
    /// written then.
    pub fn write<W: Write>(&self, alloc: Global, out: &mut W) -> Result<u8, OutputFault>
        ensures written { OnOk result (Appends (W.contents out.old) (W.contents out.new) self.now) }
        ensures status { IfOk result (λ status. status ≡ 0) }
        ensures unfinished { IfErr result
            (λ _. AppendsFront (W.contents out.old) (W.contents out.new) self.now) }
    {
        write_conditions(
            alloc,
            self.form,
            self.only.as_deref(),
            &self.outline,
            &self.source,
            out,
        )
    }
}

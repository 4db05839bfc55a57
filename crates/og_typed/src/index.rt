//! An outline's assertions and statements, found by their places.

ghost use Rattle.std.specs.Prelude.{◌≡◌, ℕ, IfOk, IfSome};
ghost use Rattle.og_typed.specs.Seen.{note_of, statement_of, IsOneOf};
ghost use Rattle.og_typed.specs.Sites.{all_notes, all_statements};

use crate::Outline;
use crate::collecting::{Sites, sites_of};
use crate::sites::{NoteSite, StatementSite};
use std::alloc::{AllocError, Global};
use std::marker::Model;

/// The assertions and statements of an outline, by their places. Contracts see it as the outline.
#[derive(Drop)]
pub struct Index<'a> {
    outline: &'a Outline,
    sites: Sites<'a>,
}

impl<'a> Model for Index<'a> {
    ghost use Rattle.og_typed.specs.Syntax.{Program};
    ghost use Rattle.og_typed.specs.Codes.{program_code};
    ghost use Rattle.og_typed.specs.Seen.{HasAll};

    ghost Value = { Program };

    ghost coded = { program_code };

    ghost view = { λ index. index.outline.now };

    ghost invariant = { λ index. HasAll index.outline.now index.sites };
}

// What stands at a place.
trait Placed: Copy {
    ghost place: { Self → ℕ };

    fn at(&self) -> u32
        ensures { result ≡ place self.now };
}

impl<'a> Placed for NoteSite<'a> {
    ghost place = { λ site. (note_of site).note.at };

    fn at(&self) -> u32 {
        self.note.at
    }
}

impl<'a> Placed for StatementSite<'a> {
    ghost place = { λ site. (statement_of site).piece.at };

    fn at(&self) -> u32 {
        self.item.at
    }
}

// The one at a place, among those that stand in the order of their places.
fn found<T: Placed>(sites: &[T], at: u32) -> Option<T>
    ensures there { IfSome result (λ site. T.place site ≡ at) }
    ensures one { IfSome result (λ site. IsOneOf sites.now site) }
{
    let index = sites.partition_point(|site| site.at() < at);
    let site = sites.get(index)?;
    if site.at() == at { Some(*site) } else { None }
}

impl<'a> Index<'a> {
    /// The assertions and statements of an outline.
    ///
    /// # Errors
    ///
    /// An allocation was refused.
    pub fn new(alloc: Global, outline: &'a Outline) -> Result<Index<'a>, AllocError>
        ensures { IfOk result (λ index. index ≡ outline.now) }
    {
        let sites = sites_of(alloc, outline)?;
        Ok(Index { outline, sites })
    }

    /// The assertion whose `{` stands at the byte offset `at`. Takes no memory.
    pub fn note(&self, at: u32) -> Option<NoteSite<'a>>
        ensures there { IfSome result (λ site. (note_of site).note.at ≡ at) }
        ensures one { IfSome result (λ site. IsOneOf (all_notes self.now) (note_of site)) }
    {
        found(&self.sites.notes, at)
    }

    /// The statement that begins at the byte offset `at`. Takes no memory.
    pub fn statement(&self, at: u32) -> Option<StatementSite<'a>>
        ensures there { IfSome result (λ site. (statement_of site).piece.at ≡ at) }
        ensures one { IfSome result (λ site. IsOneOf (all_statements self.now) (statement_of site)) }
    {
        found(&self.sites.statements, at)
    }
}

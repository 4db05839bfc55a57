//! How the places of an outline are printed.

ghost use Rattle.std.specs.Prelude.{◌≡◌, ◌++◌, None, OnOk, option_map};
ghost use Rattle.og_report_text.specs.Uses.{use_text_at};
ghost use Rattle.og_report_text.specs.Origins.{row_at, place_text_at, with_place_text, quoted_at};

use crate::places::Places;
use crate::quotes::put_quote;
use crate::row::{Row, Rows};
use crate::uses::put_use;
use crate::words::put_position;
use std::alloc::AllocError;

/// Where the parts of an outline are said to stand.
#[derive(Clone, Copy)]
pub struct Origins<'a> {
    /// The text: the outline's own, or a template.
    pub source: &'a [u8],
    /// Its places.
    pub places: &'a Places<'a>,
    /// Of a template, where the parts of the outline come from. A part without a row stands at its
    /// own place.
    pub rows: Option<&'a Rows>,
}

impl<'a> Origins<'a> {
    /// Those of an outline in its own text.
    pub fn own(source: &'a [u8], places: &'a Places<'a>) -> Origins<'a>
        ensures source { result.source ≡ source.entry }
        ensures places { result.places ≡ places.entry }
        ensures rows { result.rows ≡ None }
    {
        Origins {
            source,
            places,
            rows: None,
        }
    }

    // The row of the part at a byte offset.
    fn row(&self, at: u32) -> Option<&'a Row>
        ensures { option_map (λ r. r.now) result ≡ row_at self.now.rows at }
    {
        self.rows?.get(&at)
    }

    /// Adds the place of the part at the byte offset `at`: its line and column, and of a template
    /// the values of its instance.
    ///
    /// # Errors
    ///
    /// An allocation was refused; the text has what it had, and perhaps a part of this.
    pub fn put_place(&self, text: &mut Vec<u8>, at: u32) -> Result<(), AllocError>
        requires { self.now.places.now ≡ self.now.source.now }
        ensures { OnOk result (text.new.items ≡ text.old.items
            ++ place_text_at self.now.source.now self.now.rows at) }
    {
        match self.row(at) {
            None => put_position(text, self.places.position(at)),
            Some(row) => {
                put_position(text, self.places.position(row.from))?;
                text.extend_from_slice(&row.instance)
            }
        }
    }

    /// Adds the place of an action, where there is one.
    ///
    /// # Errors
    ///
    /// As `put_place`.
    pub fn put_action_place(&self, text: &mut Vec<u8>, at: Option<u32>) -> Result<(), AllocError>
        requires { self.now.places.now ≡ self.now.source.now }
        ensures { OnOk result (text.new.items ≡ text.old.items
            ++ with_place_text self.now.source.now self.now.rows at) }
    {
        let Some(at) = at else {
            return Ok(());
        };
        text.extend_from_slice(b" with ")?;
        self.put_place(text, at)
    }

    /// Adds the text from the place of the part at the byte offset `at` on, up to the end of the
    /// line or to a comment, without blanks at the end: at most this many bytes, and then ` ..`.
    ///
    /// # Errors
    ///
    /// As `put_place`.
    pub fn put_quote(&self, text: &mut Vec<u8>, limit: usize, at: u32) -> Result<(), AllocError>
        ensures { OnOk result (text.new.items ≡ text.old.items
            ++ quoted_at limit self.now.source.now self.now.rows at) }
    {
        match self.row(at) {
            None => put_quote(text, limit, self.source, at),
            Some(row) => put_quote(text, limit, self.source, row.from),
        }
    }

    /// Adds what the note at the byte offset `at` has in a template and a colon, where that is one
    /// use of a named assertion; nothing else.
    ///
    /// # Errors
    ///
    /// As `put_place`.
    pub fn put_use(&self, text: &mut Vec<u8>, at: u32) -> Result<(), AllocError>
        ensures { OnOk result (text.new.items ≡ text.old.items
            ++ use_text_at self.now.source.now self.now.rows at) }
    {
        match self.row(at) {
            None => Ok(()),
            Some(row) => put_use(text, self.source, row.from),
        }
    }
}

//! Reading lists.

ghost use Rattle.std.specs.Prelude.{◌<◌, ◌≤◌, length, OnOk};

use crate::Special;
use crate::cursor::Cursor;
use og_parse::{RawName, Refusal};
use og_text::TokenKind;
use std::alloc::Global;

/// What stands in lists.
pub(crate) trait Listed: Drop {
    /// Reads one, with at most `depth` levels of expressions.
    fn read(depth: u32, cursor: &mut Cursor) -> Result<Self, Refusal>
        ensures { length cursor.new ≤ length cursor.old };
}

impl Listed for RawName {
    fn read(_depth: u32, cursor: &mut Cursor) -> Result<RawName, Refusal> {
        cursor.name()
    }
}

/// Adds what was read.
pub(crate) fn put<T: Drop>(all: &mut Vec<T>, read: Result<T, Refusal>) -> Result<(), Refusal> {
    all.push(read?)?;
    Ok(())
}

/// A box for what was read.
pub(crate) fn boxed<T: Drop>(alloc: Global, read: Result<T, Refusal>) -> Result<Box<T>, Refusal> {
    Ok(Box::new(alloc, read?)?)
}

/// What was read, once this symbol or keyword of outlines is read after it.
pub(crate) fn followed<T: Drop>(
    read: Result<T, Refusal>,
    word: &TokenKind,
    cursor: &mut Cursor,
) -> Result<T, Refusal>
    ensures ok { OnOk result (length cursor.new < length cursor.old) }
    ensures less { length cursor.new ≤ length cursor.old }
{
    let value = read?;
    cursor.expect(word)?;
    Ok(value)
}

/// What was read, once this keyword or mark of templates is read after it.
pub(crate) fn followed_by_special<T: Drop>(
    read: Result<T, Refusal>,
    special: Special,
    cursor: &mut Cursor,
) -> Result<T, Refusal>
    ensures { length cursor.new ≤ length cursor.old }
{
    let value = read?;
    cursor.expect_special(special)?;
    Ok(value)
}

/// Reads a list, with this separator between two: at least one.
pub(crate) fn list<T: Listed>(
    depth: u32,
    separator: &TokenKind,
    cursor: &mut Cursor,
) -> Result<Vec<T>, Refusal>
    ensures { length cursor.new ≤ length cursor.old }
{
    let mut all = Vec::new(cursor.alloc());
    put(&mut all, T::read(depth, cursor))?;
    'more: while cursor.eat(separator) {
        put(&mut all, T::read(depth, cursor))?;
    }
    Ok(all)
}

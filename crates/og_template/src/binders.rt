//! Reading ranges and binders.

ghost use Rattle.std.specs.Prelude.{◌≤◌, length};

use crate::Special;
use crate::cursor::Cursor;
use crate::exprs::expr;
use crate::lists::{Listed, followed_by_special, list};
use crate::tree::{Binder, Bounds, Test};
use og_parse::{FaultKind, Refusal};
use og_text::TokenKind;

/// Reads a range.
pub(crate) fn bounds(depth: u32, cursor: &mut Cursor) -> Result<Bounds, Refusal>
    ensures { length cursor.new ≤ length cursor.old }
{
    let span = cursor.span();
    let low = followed_by_special(expr(depth, cursor), Special::Dots, cursor)?;
    let high = expr(depth, cursor)?;
    Ok(Bounds { low, high, span })
}

impl Listed for Test {
    fn read(depth: u32, cursor: &mut Cursor) -> Result<Test, Refusal> {
        let left = expr(depth, cursor)?;
        let Some(relation) = cursor.relation() else {
            return Err(Refusal::Fault(FaultKind::Expected));
        };
        let right = expr(depth, cursor)?;
        Ok(Test {
            left,
            relation,
            right,
        })
    }
}

// The tests after `where`, if it stands here.
fn tests(depth: u32, cursor: &mut Cursor) -> Result<Vec<Test>, Refusal>
    ensures { length cursor.new ≤ length cursor.old }
{
    if !cursor.eat_special(Special::Where) {
        return Ok(Vec::new(cursor.alloc()));
    }
    list(depth, &TokenKind::And, cursor)
}

/// Reads a binder.
pub(crate) fn binder(depth: u32, cursor: &mut Cursor) -> Result<Binder, Refusal>
    ensures { length cursor.new ≤ length cursor.old }
{
    let name = followed_by_special(cursor.name(), Special::In, cursor)?;
    let range = bounds(depth, cursor)?;
    let tests = tests(depth, cursor)?;
    Ok(Binder { name, range, tests })
}

/// Reads a binder and the `:` after it.
pub(crate) fn binder_to_colon(depth: u32, cursor: &mut Cursor) -> Result<Binder, Refusal>
    ensures { length cursor.new ≤ length cursor.old }
{
    followed_by_special(binder(depth, cursor), Special::Colon, cursor)
}

//! Statements with readable relations.

ghost use Rattle.std.specs.Prelude.{◌≡◌, IfOk, map};
ghost use Rattle.og_parse.specs.Trees.{IfElse, finish};
ghost use Rattle.og_parse.specs.TreeOf.{assertion_of, stmt_of, seq_of, item_of, items_then, note_of};
ghost use Rattle.og_erase_readable.specs.Readable as wanted;

use crate::assertions::{assertion, note};
use crate::copies::{copy_basic, copy_elements};
use og_parse::{RawAssert, RawItem, RawNote, RawSeq, RawStmt};
use std::alloc::{AllocError, Global};

// A test with two branches.
fn if_else(test: RawAssert, then: RawSeq, other: RawSeq) -> RawStmt
    ensures { stmt_of result ≡ IfElse (assertion_of test) (seq_of then) (seq_of other) }
{
    RawStmt::If(test, then, Some(other))
}

#[cycle(sequences)]
fn statement(alloc: Global, stmt: &RawStmt) -> Result<RawStmt, AllocError>
    ensures { IfOk result (λ s. stmt_of s ≡ wanted.readable_stmt (stmt_of stmt.now)) }
{
    match stmt {
        RawStmt::Basic(basic) => Ok(RawStmt::Basic(copy_basic(alloc, basic)?)),
        RawStmt::If(test, then, None) => {
            let test = assertion(alloc, test)?;
            Ok(RawStmt::If(test, sequence(alloc, then)?, None))
        }
        RawStmt::If(test, then, Some(other)) => {
            let test = assertion(alloc, test)?;
            let then = sequence(alloc, then)?;
            let other = sequence(alloc, other)?;
            Ok(if_else(test, then, other))
        }
        RawStmt::While(test, body) => {
            let test = assertion(alloc, test)?;
            Ok(RawStmt::While(test, sequence(alloc, body)?))
        }
        RawStmt::Await(guard, body) => {
            let guard = assertion(alloc, guard)?;
            Ok(RawStmt::Await(guard, copy_elements(alloc, body)?))
        }
    }
}

#[cycle(sequences)]
fn items(alloc: Global, all: &[RawItem], last: &RawNote) -> Result<RawSeq, AllocError>
    ensures { IfOk result (λ q. seq_of q
        ≡ wanted.readable_seq (items_then (map item_of all.now) (finish (note_of last.now)))) }
{
    let mut items = Vec::new(alloc);
    for item in all {
        let before = note(alloc, &item.before)?;
        let stmt = statement(alloc, &item.stmt)?;
        items.push(RawItem {
            before,
            stmt,
            span: item.span,
        })?;
    }
    let last = note(alloc, last)?;
    Ok(RawSeq { items, last })
}

#[cycle(sequences)]
pub(crate) fn sequence(alloc: Global, seq: &RawSeq) -> Result<RawSeq, AllocError>
    ensures { IfOk result (λ q. seq_of q ≡ wanted.readable_seq (seq_of seq.now)) }
{
    items(alloc, &seq.items, &seq.last)
}

//! Resolving statements.

ghost use Rattle.std.specs.Prelude.{◌≡◌, map};
ghost use Rattle.og_parse.specs.Trees.{If, Await};
ghost use Rattle.og_parse.specs.TreeOf.{assertion_of, basic_of, element_of, stmt_of, seq_of};
ghost use Rattle.og_typed.specs.Answer.{IsResolved};
ghost use Rattle.og_typed.specs.Plain as plain;
ghost use Rattle.og_typed.specs.Resolved as meaning;
ghost use Rattle.og_typed.specs.Scoped.{scope_of};

use crate::fault::{TypeError, TypeFault};
use crate::formulas::{assertion, note};
use crate::scope::{Scope, Use};
use crate::statement::{Basic, Item, Seq, Stmt};
use crate::sums::right_side;
use og_parse::{RawAssert, RawBasic, RawElement, RawSeq, RawStmt};

/// The greatest number of elements in the body of an await.
const AWAIT_LIMIT: usize = 64;

// A simple statement, or an element of an await.
fn simple(scope: &Scope<'_>, raw: &RawBasic) -> Result<Basic, TypeError>
    ensures { IsResolved plain.simple result
        (meaning.simple (scope_of scope.now) (basic_of raw.now)) }
{
    match raw {
        RawBasic::Skip => Ok(Basic::Skip),
        RawBasic::Assign(name, sum) => {
            let x = scope.number(Use::Free, name)?;
            let form = right_side(scope, x, sum)?;
            Ok(Basic::Assign(x, form))
        }
    }
}

// The body of an await.
fn elements(scope: &Scope<'_>, raw: &[RawElement]) -> Result<Vec<Basic>, TypeError>
    ensures { IsResolved (λ v. map plain.simple v.items) result
        (meaning.elements (scope_of scope.now) (map element_of raw.now)) }
{
    let mut body = Vec::new(scope.alloc);
    for element in raw {
        if body.len() >= AWAIT_LIMIT {
            return Err(TypeError::Fault(TypeFault::AwaitTooLong(element.span.start)));
        }
        body.push(simple(scope, &element.basic)?)?;
    }
    Ok(body)
}

fn statement_of(basic: Basic) -> Stmt
    ensures { plain.statement result ≡ meaning.statement_of (plain.simple basic) }
{
    match basic {
        Basic::Skip => Stmt::Skip,
        Basic::Assign(x, form) => Stmt::Assign(x, form),
    }
}

// The sequence that a tree stands for, in a box.
#[cycle(sequences)]
fn block(scope: &Scope<'_>, raw: &RawSeq) -> Result<Box<Seq>, TypeError>
    ensures { IsResolved (λ b. plain.sequence b.value) result
        (meaning.sequence (scope_of scope.now) (seq_of raw.now)) }
{
    let seq = sequence(scope, raw)?;
    Ok(Box::new(scope.alloc, seq)?)
}

// A conditional without an `else`.
#[cycle(sequences)]
fn if_then(scope: &Scope<'_>, then: &RawSeq, test: &RawAssert) -> Result<Stmt, TypeError>
    ensures { IsResolved plain.statement result (meaning.statement (scope_of scope.now)
        (If (assertion_of test.now) (seq_of then.now))) }
{
    let test = assertion(scope, Use::Visible, test)?;
    let then = block(scope, then)?;
    Ok(Stmt::If(test, then, None))
}

// An await.
fn await_then(scope: &Scope<'_>, guard: &RawAssert, body: &[RawElement]) -> Result<Stmt, TypeError>
    ensures { IsResolved plain.statement result (meaning.statement (scope_of scope.now)
        (Await (assertion_of guard.now) (map element_of body.now))) }
{
    let guard = assertion(scope, Use::Visible, guard)?;
    let body = elements(scope, body)?;
    Ok(Stmt::Await(guard, body))
}

// The statement that a tree stands for.
#[cycle(sequences)]
fn statement(scope: &Scope<'_>, raw: &RawStmt) -> Result<Stmt, TypeError>
    ensures { IsResolved plain.statement result
        (meaning.statement (scope_of scope.now) (stmt_of raw.now)) }
{
    match raw {
        RawStmt::Basic(basic) => Ok(statement_of(simple(scope, basic)?)),
        RawStmt::If(test, then, None) => if_then(scope, then, test),
        RawStmt::If(test, then, Some(other)) => {
            let test = assertion(scope, Use::Visible, test)?;
            let then = block(scope, then)?;
            let other = block(scope, other)?;
            Ok(Stmt::If(test, then, Some(other)))
        }
        RawStmt::While(test, body) => {
            let test = assertion(scope, Use::Visible, test)?;
            let body = block(scope, body)?;
            Ok(Stmt::While(test, body))
        }
        RawStmt::Await(guard, body) => await_then(scope, guard, body),
    }
}

// The statements of a sequence, with their assertions.
#[cycle(sequences)]
pub(crate) fn sequence(scope: &Scope<'_>, raw: &RawSeq) -> Result<Seq, TypeError>
    ensures { IsResolved plain.sequence result
        (meaning.sequence (scope_of scope.now) (seq_of raw.now)) }
{
    let mut items = Vec::new(scope.alloc);
    for item in &raw.items {
        let before = note(scope, Use::Free, &item.before)?;
        let stmt = statement(scope, &item.stmt)?;
        let at = item.span.start;
        items.push(Item { before, stmt, at })?;
    }
    let last = note(scope, Use::Free, &raw.last)?;
    Ok(Seq { items, last })
}

//! Reading statements.

ghost use Rattle.std.specs.Prelude.{◌<◌, ◌≤◌, length, IsOk, OnOk};

use crate::Special;
use crate::assertions::{note, test};
use crate::binders::{binder, binder_to_colon};
use crate::cursor::Cursor;
use crate::exprs::bracketed;
use crate::limits::Limits;
use crate::lists::{Listed, followed, list, put};
use crate::sums::sum;
use crate::tree::{Assertion, Basic, Binder, Element, Expr, Note, Sequence, Statement, Step};
use og_parse::{Refusal, begins_statement};
use og_text::{Span, TokenKind};

// The index in brackets, if one stands here.
fn index(depth: u32, cursor: &mut Cursor) -> Result<Option<Expr>, Refusal>
    ensures { length cursor.new ≤ length cursor.old }
{
    if !cursor.eat_special(Special::OpenBracket) {
        return Ok(None);
    }
    Ok(Some(bracketed(depth, cursor)?))
}

fn assignment(depth: u32, cursor: &mut Cursor) -> Result<Basic, Refusal>
    ensures { length cursor.new ≤ length cursor.old }
{
    let name = cursor.name()?;
    let index = followed(index(depth, cursor), &TokenKind::Assign, cursor)?;
    Ok(Basic::Assign(name, index, sum(depth, cursor)?))
}

fn basic(depth: u32, cursor: &mut Cursor) -> Result<Basic, Refusal>
    ensures { length cursor.new ≤ length cursor.old }
{
    if cursor.eat(&TokenKind::Skip) {
        return Ok(Basic::Skip);
    }
    assignment(depth, cursor)
}

// A statement of an await, alone or after `for`.
fn element(depth: u32, binder: Option<Binder>, cursor: &mut Cursor) -> Result<Element, Refusal>
    ensures { length cursor.new ≤ length cursor.old }
{
    let span = cursor.span();
    let basic = basic(depth, cursor)?;
    Ok(Element {
        binder,
        basic,
        span,
    })
}

// The binder behind `for`, if one stands here.
fn element_binder(depth: u32, cursor: &mut Cursor) -> Result<Option<Binder>, Refusal>
    ensures { length cursor.new ≤ length cursor.old }
{
    if !cursor.eat_special(Special::For) {
        return Ok(None);
    }
    Ok(Some(binder_to_colon(depth, cursor)?))
}

impl Listed for Element {
    fn read(depth: u32, cursor: &mut Cursor) -> Result<Element, Refusal> {
        let binder = element_binder(depth, cursor)?;
        element(depth, binder, cursor)
    }
}

// The body of an await.
fn body(depth: u32, cursor: &mut Cursor) -> Result<Vec<Element>, Refusal>
    ensures { length cursor.new ≤ length cursor.old }
{
    if !cursor.eat(&TokenKind::Begin) {
        let alone = element(depth, None, cursor)?;
        return Ok(vec![in cursor.alloc(); alone]?);
    }
    let all = list(depth, &TokenKind::Semicolon, cursor);
    followed(all, &TokenKind::End, cursor)
}

fn await_statement(depth: u32, cursor: &mut Cursor) -> Result<Statement, Refusal>
    ensures { length cursor.new ≤ length cursor.old }
{
    cursor.expect(&TokenKind::Await)?;
    let guard = test(depth, &TokenKind::Then, cursor)?;
    let body = body(depth, cursor)?;
    Ok(Statement::Await(guard, body))
}

// A test, the word after it, and a block.
#[cycle(statements)]
fn tested(
    limits: Limits,
    word: &TokenKind,
    cursor: &mut Cursor,
) -> Result<(Assertion, Sequence), Refusal>
    ensures { length cursor.new ≤ length cursor.old }
{
    let test = test(limits.depth, word, cursor)?;
    let block = block(limits, cursor)?;
    Ok((test, block))
}

#[cycle(statements)]
fn block(limits: Limits, cursor: &mut Cursor) -> Result<Sequence, Refusal>
    ensures { length cursor.new ≤ length cursor.old }
{
    cursor.expect(&TokenKind::Begin)?;
    rest_of_block(limits, cursor)
}

/// Reads a sequence with at most this many levels, and the `end` after it.
#[cycle(statements)]
pub(crate) fn rest_of_block(limits: Limits, cursor: &mut Cursor) -> Result<Sequence, Refusal>
    ensures { length cursor.new ≤ length cursor.old }
{
    followed(sequence(limits, cursor), &TokenKind::End, cursor)
}

#[cycle(statements)]
fn if_statement(limits: Limits, cursor: &mut Cursor) -> Result<Statement, Refusal>
    ensures { length cursor.new ≤ length cursor.old }
{
    cursor.expect(&TokenKind::If)?;
    let (test, branch) = tested(limits, &TokenKind::Then, cursor)?;
    if !cursor.eat(&TokenKind::Else) {
        return Ok(Statement::If(test, branch, None));
    }
    let other = block(limits, cursor)?;
    Ok(Statement::If(test, branch, Some(other)))
}

#[cycle(statements)]
fn while_statement(limits: Limits, cursor: &mut Cursor) -> Result<Statement, Refusal>
    ensures { length cursor.new ≤ length cursor.old }
{
    cursor.expect(&TokenKind::While)?;
    let (test, body) = tested(limits, &TokenKind::Do, cursor)?;
    Ok(Statement::While(test, body))
}

// A statement that opens a level, where this many are left.
#[cycle(statements)]
fn compound(limits: Limits, cursor: &mut Cursor) -> Result<Statement, Refusal>
    ensures { length cursor.new ≤ length cursor.old }
{
    let within = limits.within()?;
    if cursor.is_at(&TokenKind::If) {
        return if_statement(within, cursor);
    }
    while_statement(within, cursor)
}

#[cycle(statements)]
fn statement(limits: Limits, cursor: &mut Cursor) -> Result<Statement, Refusal>
    ensures { length cursor.new ≤ length cursor.old }
{
    if cursor.is_at(&TokenKind::If) || cursor.is_at(&TokenKind::While) {
        return compound(limits, cursor);
    }
    if limits.awaits && cursor.is_at(&TokenKind::Await) {
        return await_statement(limits.depth, cursor);
    }
    Ok(Statement::Basic(basic(limits.depth, cursor)?))
}

// The steps that were read, for each value of a binder.
fn repetition(binder: Binder, steps: Result<Vec<Step>, Refusal>) -> Result<Step, Refusal> {
    Ok(Step::For(binder, steps?))
}

// The steps of each value of a binder.
#[cycle(statements)]
fn repeated(limits: Limits, cursor: &mut Cursor) -> Result<Step, Refusal>
    ensures ok { OnOk result (length cursor.new < length cursor.old) }
    ensures less { length cursor.new ≤ length cursor.old }
{
    let within = limits.within()?;
    cursor.expect_special(Special::For)?;
    let binder = followed(binder(limits.depth, cursor), &TokenKind::Begin, cursor)?;
    let steps = followed(steps(within, cursor), &TokenKind::End, cursor);
    repetition(binder, steps)
}

// A statement at a place, with the assertion that was read after it.
fn step_of(statement: Statement, span: Span, after: Result<Note, Refusal>) -> Result<Step, Refusal>
    ensures { OnOk result (IsOk after) }
{
    Ok(Step::Statement(statement, span, after?))
}

#[cycle(statements)]
fn step(limits: Limits, cursor: &mut Cursor) -> Result<Step, Refusal>
    ensures ok { OnOk result (length cursor.new < length cursor.old) }
    ensures less { length cursor.new ≤ length cursor.old }
{
    if cursor.is_at_special(Special::For) {
        return repeated(limits, cursor);
    }
    let span = cursor.span();
    let statement = statement(limits, cursor)?;
    step_of(statement, span, note(limits.depth, cursor))
}

// Whether the next word begins a step.
fn is_at_step(cursor: &Cursor) -> bool {
    match cursor.lexeme() {
        Some(kind) => begins_statement(kind),
        None => cursor.is_at_special(Special::For),
    }
}

#[cycle(statements)]
fn steps(limits: Limits, cursor: &mut Cursor) -> Result<Vec<Step>, Refusal>
    ensures { length cursor.new ≤ length cursor.old }
{
    let mut all = Vec::new(cursor.alloc());
    put(&mut all, step(limits, cursor))?;
    'more: while is_at_step(cursor) {
        all.push(step(limits, cursor)?)?;
    }
    Ok(all)
}

/// Reads steps after an assertion, with at most this many levels of statements.
#[cycle(statements)]
pub(crate) fn sequence(limits: Limits, cursor: &mut Cursor) -> Result<Sequence, Refusal>
    ensures { length cursor.new ≤ length cursor.old }
{
    let before = note(limits.depth, cursor)?;
    let steps = steps(limits, cursor)?;
    Ok(Sequence { before, steps })
}

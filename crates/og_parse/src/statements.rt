//! Reading statements.

ghost use Rattle.std.specs.Prelude.{◌≡◌, option_map, map, ◌++◌, ◌∷◌, [], IfOk};
ghost use Rattle.og_text.specs.declared.token.TokenKind.TheVariants.{Else};
ghost use Rattle.og_parse.specs.Gives.{IsRead};
ghost use Rattle.og_parse.specs.Limits.{begins_statement};
ghost use Rattle.og_parse.specs.Reading.{starts, if_symbol_at};
ghost use Rattle.og_parse.specs.Parts.{step_of};
ghost use Rattle.og_parse.specs.Trees.{Simple, While, choice};
ghost use Rattle.og_parse.specs.TreeOf.{assertion_of, basic_of, item_of, item_of_step, stmt_of, seq_of, note_of};
ghost use Rattle.og_parse.specs.Reads.{a_stmt, await_at, rest_of_block_by, block_by, tested_by, if_by, stmt_by, step_by};
ghost use Rattle.og_parse.specs.Contexts.{compound_in, seq_in};

use crate::assertions::{note, test};
use crate::basic::{basic, body};
use crate::raw::{RawAssert, RawBasic, RawItem, RawNote, RawSeq, RawStmt};
use crate::{Cursor, FaultKind, Refusal};
use og_text::{Span, TokenKind};
use std::alloc::{AllocError, Global};

// A statement with its place, and the assertion after it.
//
// Statements and blocks are handed on in boxes, so that a level of statements takes little stack.
#[derive(Drop)]
struct RawStep {
    stmt: Box<RawStmt>,
    span: Span,
    after: RawNote,
}

/// What statements are read with: at most `levels` levels of assertions and `depth` levels of
/// statements, and an await only where `awaits` is true.
#[derive(Clone, Copy, Drop)]
pub(crate) struct Context {
    pub(crate) alloc: Global,
    pub(crate) levels: u32,
    pub(crate) awaits: bool,
    pub(crate) depth: u32,
}

/// Whether a statement begins with a token of this kind.
pub fn begins_statement(kind: &TokenKind) -> bool
    ensures { result ≡ begins_statement kind.now }
{
    matches!(
        kind,
        TokenKind::Name(_) | TokenKind::Skip | TokenKind::If | TokenKind::While | TokenKind::Await
    )
}

// Whether the next token begins a statement.
#[tactic(auto, using(crate::proofs::Counted::begins_number))]
fn is_at_stmt(cursor: &Cursor) -> bool
    ensures { result ≡ starts a_stmt cursor.now }
{
    match cursor.peek() {
        Some(kind) => begins_statement(kind),
        None => false,
    }
}

fn simple(alloc: Global, basic: RawBasic) -> Result<Box<RawStmt>, AllocError>
    ensures { IfOk result (λ x. stmt_of x.value ≡ Simple (basic_of basic)) }
{
    Ok(Box::new(alloc, RawStmt::Basic(basic))?)
}

fn two_way(
    alloc: Global,
    test: RawAssert,
    branch: Box<RawSeq>,
    other: Option<Box<RawSeq>>,
) -> Result<Box<RawStmt>, AllocError>
    ensures { IfOk result (λ x. stmt_of x.value ≡ choice (assertion_of test) (seq_of branch.value)
        (option_map (λ o. seq_of o.value) other)) }
{
    let branch = Box::into_inner(branch);
    let other = other.map(Box::into_inner);
    Ok(Box::new(alloc, RawStmt::If(test, branch, other))?)
}

fn looping(alloc: Global, test: RawAssert, body: Box<RawSeq>) -> Result<Box<RawStmt>, AllocError>
    ensures { IfOk result (λ x. stmt_of x.value ≡ While (assertion_of test) (seq_of body.value)) }
{
    let body = Box::into_inner(body);
    Ok(Box::new(alloc, RawStmt::While(test, body))?)
}

// Adds a statement after the assertion `before` it, and returns the assertion after it.
fn with_step(
    items: &mut Vec<RawItem>,
    before: RawNote,
    step: RawStep,
) -> Result<RawNote, AllocError>
    ensures after { IfOk result (λ after. after ≡ step.after) }
    ensures items { IfOk result (λ _. map item_of items.new.items ≡ map item_of items.old.items
        ++ item_of_step (note_of before)
        (step_of step.span (stmt_of step.stmt.value) (note_of step.after)) ∷ []) }
{
    items.push(RawItem {
        before,
        stmt: Box::into_inner(step.stmt),
        span: step.span,
    })?;
    Ok(step.after)
}

#[tactic(auto, unfolding(crate::specs::Reads::await_at))]
fn await_stmt(alloc: Global, levels: u32, cursor: &mut Cursor) -> Result<Box<RawStmt>, Refusal>
    ensures { IsRead (λ x. stmt_of x.value) result cursor.new (await_at levels cursor.old) }
{
    cursor.expect(&TokenKind::Await)?;
    let guard = test(alloc, levels, &TokenKind::Then, cursor)?;
    let body = body(alloc, cursor)?;
    Ok(Box::new(alloc, RawStmt::Await(guard, body))?)
}

// A test, the word after it, and a block.
#[cycle(statements)]
#[tactic(auto, unfolding(crate::specs::Reads::tested_by))]
fn tested(
    context: Context,
    symbol: &TokenKind,
    cursor: &mut Cursor,
) -> Result<(RawAssert, Box<RawSeq>), Refusal>
    ensures { IsRead (λ x. (assertion_of x.0, seq_of x.1.value)) result cursor.new
        (tested_by symbol.now context.levels (seq_in context) cursor.old) }
{
    let test = test(context.alloc, context.levels, symbol, cursor)?;
    let all = block(context, cursor)?;
    Ok((test, all))
}

// The block after `else`, if there is one.
#[cycle(statements)]
fn else_part(context: Context, cursor: &mut Cursor) -> Result<Option<Box<RawSeq>>, Refusal>
    ensures { IsRead (option_map (λ x. seq_of x.value)) result cursor.new
        (if_symbol_at Else (block_by (seq_in context)) cursor.old) }
{
    if cursor.eat(&TokenKind::Else) {
        return Ok(Some(block(context, cursor)?));
    }
    Ok(None)
}

#[cycle(statements)]
#[tactic(auto, unfolding(crate::specs::Reads::if_by))]
fn if_stmt(context: Context, cursor: &mut Cursor) -> Result<Box<RawStmt>, Refusal>
    ensures { IsRead (λ x. stmt_of x.value) result cursor.new
        (if_by context.levels (seq_in context) cursor.old) }
{
    cursor.expect(&TokenKind::If)?;
    let (test, branch) = tested(context, &TokenKind::Then, cursor)?;
    let other = else_part(context, cursor)?;
    Ok(two_way(context.alloc, test, branch, other)?)
}

// A statement that opens a level, where `context.depth` levels are left.
#[cycle(statements)]
#[tactic(auto, unfolding(crate::specs::Reads::compound_by, crate::specs::Reads::while_by))]
fn compound(context: Context, cursor: &mut Cursor) -> Result<Box<RawStmt>, Refusal>
    ensures { IsRead (λ x. stmt_of x.value) result cursor.new
        (compound_in context cursor.old) }
{
    if context.depth == 0 {
        return Err(Refusal::Fault(FaultKind::TooDeep));
    }
    let within = Context {
        depth: context.depth - 1,
        ..context
    };
    if cursor.is_at(&TokenKind::If) {
        return if_stmt(within, cursor);
    }
    cursor.expect(&TokenKind::While)?;
    let (test, body) = tested(within, &TokenKind::Do, cursor)?;
    Ok(looping(context.alloc, test, body)?)
}

#[cycle(statements)]
#[tactic(auto, unfolding(crate::specs::Reads::stmt_by))]
fn statement(context: Context, cursor: &mut Cursor) -> Result<Box<RawStmt>, Refusal>
    ensures { IsRead (λ x. stmt_of x.value) result cursor.new
        (stmt_by context.levels context.awaits (compound_in context) cursor.old) }
{
    if cursor.is_at(&TokenKind::If) || cursor.is_at(&TokenKind::While) {
        return compound(context, cursor);
    }
    if context.awaits && cursor.is_at(&TokenKind::Await) {
        return await_stmt(context.alloc, context.levels, cursor);
    }
    let basic = basic(context.alloc, cursor)?;
    Ok(simple(context.alloc, basic)?)
}

#[cycle(statements)]
#[tactic(auto, unfolding(crate::specs::Reads::step_by))]
fn step(context: Context, cursor: &mut Cursor) -> Result<RawStep, Refusal>
    ensures { IsRead (λ x. step_of x.span (stmt_of x.stmt.value) (note_of x.after)) result
        cursor.new (step_by context.levels context.awaits (compound_in context) cursor.old) }
{
    let span = cursor.span();
    let stmt = statement(context, cursor)?;
    let after = note(context.alloc, context.levels, cursor)?;
    Ok(RawStep { stmt, span, after })
}

/// Reads statements with their assertions.
#[cycle(statements)]
#[tactic(auto, unfolding(crate::specs::Reads::seq_by))]
pub(crate) fn sequence(context: Context, cursor: &mut Cursor) -> Result<RawSeq, Refusal>
    ensures { IsRead seq_of result cursor.new (seq_in context cursor.old) }
{
    let before = note(context.alloc, context.levels, cursor)?;
    let next = step(context, cursor)?;
    let mut items = Vec::new(context.alloc);
    let mut last = with_step(&mut items, before, next)?;
    'more: while is_at_stmt(cursor) {
        let next = step(context, cursor)?;
        last = with_step(&mut items, last, next)?;
    }
    Ok(RawSeq { items, last })
}

/// Reads a sequence and the `end` after it.
#[cycle(statements)]
#[tactic(auto, unfolding(crate::specs::Reads::rest_of_block_by))]
pub(crate) fn rest_of_block(context: Context, cursor: &mut Cursor) -> Result<RawSeq, Refusal>
    ensures { IsRead seq_of result cursor.new
        (rest_of_block_by (seq_in context) cursor.old) }
{
    let all = sequence(context, cursor)?;
    cursor.expect(&TokenKind::End)?;
    Ok(all)
}

// A block is what stands between `begin` and `end`.
#[cycle(statements)]
#[tactic(auto, unfolding(crate::specs::Reads::block_by))]
fn block(context: Context, cursor: &mut Cursor) -> Result<Box<RawSeq>, Refusal>
    ensures { IsRead (λ x. seq_of x.value) result cursor.new
        (block_by (seq_in context) cursor.old) }
{
    cursor.expect(&TokenKind::Begin)?;
    let all = rest_of_block(context, cursor)?;
    Ok(Box::new(context.alloc, all)?)
}

//! Reading templates.

ghost use Rattle.std.specs.Prelude.{◌≤◌, length};

use crate::assertions::{note, test};
use crate::binders::{binder, bounds};
use crate::cursor::Cursor;
use crate::exprs::expr;
use crate::fault::{FaultKind, TemplateError};
use crate::limits::Limits;
use crate::lists::{Listed, followed, followed_by_special, list, put};
use crate::statements::{rest_of_block, sequence};
use crate::tree::{
    Auxiliary, Binder, Bounds, Constant, Named, Note, Process, Sequence, Template, Variable,
};
use crate::{Special, Word};
use og_parse::{FaultKind as Stop, RawName, Refusal};
use og_text::{Span, TokenKind};
use std::alloc::Global;

const LEVELS: u32 = 100;

// A declaration.
#[derive(Drop)]
struct Declarations {
    constants: Vec<Constant>,
    variables: Vec<Variable>,
    auxiliaries: Vec<Auxiliary>,
    named: Vec<Named>,
}

// The parts of `cobegin .. coend`.
#[derive(Drop)]
struct Center {
    cobegin: Span,
    processes: Vec<Process>,
}

// The list behind a word, up to this one, or none where its word was not found.
fn list_if<T: Listed>(found: bool, end: &TokenKind, cursor: &mut Cursor) -> Result<Vec<T>, Refusal>
    ensures { length cursor.new ≤ length cursor.old }
{
    if !found {
        return Ok(Vec::new(cursor.alloc()));
    }
    followed(list(LEVELS, &TokenKind::Comma, cursor), end, cursor)
}

impl Listed for Constant {
    fn read(depth: u32, cursor: &mut Cursor) -> Result<Constant, Refusal> {
        let name = followed(cursor.name(), &TokenKind::Equal, cursor)?;
        let value = expr(depth, cursor)?;
        Ok(Constant { name, value })
    }
}

// The range in brackets, if one stands here.
fn family(depth: u32, cursor: &mut Cursor) -> Result<Option<Bounds>, Refusal>
    ensures { length cursor.new ≤ length cursor.old }
{
    if !cursor.eat_special(Special::OpenBracket) {
        return Ok(None);
    }
    let range = followed_by_special(bounds(depth, cursor), Special::CloseBracket, cursor)?;
    Ok(Some(range))
}

impl Listed for Variable {
    fn read(depth: u32, cursor: &mut Cursor) -> Result<Variable, Refusal> {
        let name = cursor.name()?;
        let family = family(depth, cursor)?;
        Ok(Variable { name, family })
    }
}

impl Listed for Auxiliary {
    fn read(depth: u32, cursor: &mut Cursor) -> Result<Auxiliary, Refusal> {
        let declared = Variable::read(depth, cursor);
        let declared = followed(declared, &TokenKind::Equal, cursor)?;
        let value = expr(depth, cursor)?;
        Ok(Auxiliary {
            name: declared.name,
            family: declared.family,
            value,
        })
    }
}

// The parameters of a named assertion, and the `=` after them.
fn parameters(cursor: &mut Cursor) -> Result<Vec<RawName>, Refusal>
    ensures { length cursor.new ≤ length cursor.old }
{
    let found = cursor.eat(&TokenKind::OpenParen);
    let all = list_if(found, &TokenKind::CloseParen, cursor);
    followed(all, &TokenKind::Equal, cursor)
}

// A named assertion, behind its `let`.
fn named(cursor: &mut Cursor) -> Result<Named, Refusal>
    ensures { length cursor.new ≤ length cursor.old }
{
    let name = cursor.name()?;
    let parameters = parameters(cursor)?;
    let assertion = test(LEVELS, &TokenKind::Semicolon, cursor)?;
    Ok(Named {
        name,
        parameters,
        assertion,
    })
}

fn all_named(cursor: &mut Cursor) -> Result<Vec<Named>, Refusal>
    ensures { length cursor.new ≤ length cursor.old }
{
    let mut all = Vec::new(cursor.alloc());
    'more: while cursor.eat_special(Special::Let) {
        put(&mut all, named(cursor))?;
    }
    Ok(all)
}

// The statements between `begin` and `end`, before or after the processes, if there are some.
fn main_part(cursor: &mut Cursor) -> Result<Option<Sequence>, Refusal>
    ensures { length cursor.new ≤ length cursor.old }
{
    if !cursor.eat(&TokenKind::Begin) {
        return Ok(None);
    }
    let limits = Limits {
        levels: LEVELS,
        depth: LEVELS,
        awaits: false,
    };
    Ok(Some(rest_of_block(limits, cursor)?))
}

// The binder of a family of processes, if one stands here.
fn process_binder(depth: u32, cursor: &mut Cursor) -> Result<Option<Binder>, Refusal>
    ensures { length cursor.new ≤ length cursor.old }
{
    if !cursor.eat_special(Special::Process) {
        return Ok(None);
    }
    Ok(Some(binder(depth, cursor)?))
}

impl Listed for Process {
    fn read(depth: u32, cursor: &mut Cursor) -> Result<Process, Refusal> {
        let binder = process_binder(depth, cursor)?;
        let limits = Limits {
            levels: LEVELS,
            depth,
            awaits: true,
        };
        let body = sequence(limits, cursor)?;
        Ok(Process { binder, body })
    }
}

fn middle(cursor: &mut Cursor) -> Result<Center, Refusal> {
    let cobegin = cursor.expect(&TokenKind::Cobegin)?;
    let processes = list(LEVELS, &TokenKind::Parallel, cursor);
    let processes = followed(processes, &TokenKind::Coend, cursor)?;
    Ok(Center { cobegin, processes })
}

fn declared(cursor: &mut Cursor) -> Result<Declarations, Refusal> {
    let found = cursor.eat_special(Special::Const);
    let constants = list_if(found, &TokenKind::Semicolon, cursor)?;
    let found = cursor.eat(&TokenKind::Var);
    let variables = list_if(found, &TokenKind::Semicolon, cursor)?;
    let found = cursor.eat(&TokenKind::Aux);
    let auxiliaries = list_if(found, &TokenKind::Semicolon, cursor)?;
    let named = all_named(cursor)?;
    Ok(Declarations {
        constants,
        variables,
        auxiliaries,
        named,
    })
}

// An assertion and the statements before the processes.
fn opening(cursor: &mut Cursor) -> Result<(Note, Option<Sequence>), Refusal> {
    let pre = note(LEVELS, cursor)?;
    let prologue = main_part(cursor)?;
    Ok((pre, prologue))
}

// What was read, if no word is left.
fn at_end<T: Drop>(read: Result<T, Refusal>, cursor: &Cursor) -> Result<T, Refusal> {
    let value = read?;
    if cursor.peek().is_some() {
        return Err(Refusal::Fault(Stop::Expected));
    }
    Ok(value)
}

// The statements and the assertion after the processes, up to the end.
fn closing(cursor: &mut Cursor) -> Result<(Option<Sequence>, Note), Refusal> {
    let epilogue = main_part(cursor)?;
    let post = at_end(note(LEVELS, cursor), cursor)?;
    Ok((epilogue, post))
}

// A template of its parts.
fn joined(
    declared: Declarations,
    (pre, prologue): (Note, Option<Sequence>),
    middle: Center,
    (epilogue, post): (Option<Sequence>, Note),
) -> Template {
    Template {
        constants: declared.constants,
        variables: declared.variables,
        auxiliaries: declared.auxiliaries,
        named: declared.named,
        pre,
        prologue,
        cobegin: middle.cobegin,
        processes: middle.processes,
        epilogue,
        post,
    }
}

fn template(cursor: &mut Cursor) -> Result<Template, Refusal> {
    cursor.expect_special(Special::Template)?;
    cursor.expect(&TokenKind::Semicolon)?;
    let declared = declared(cursor)?;
    let opening = opening(cursor)?;
    let middle = middle(cursor)?;
    let closing = closing(cursor)?;
    Ok(joined(declared, opening, middle, closing))
}

// The offset of the first word that is left, or of the end of the last word.
fn place(words: &[Word], rest: &[Word]) -> u32 {
    match (rest, words) {
        ([word, ..], _) => word.span.start,
        ([], [.., last]) => last.span.end,
        ([], []) => 0,
    }
}

/// The template that the words stand for.
///
/// # Errors
///
/// `Fault`, the first in the order of the words, at a word's first byte or at the end of the last
/// word: `Expected` at the first word with which no template goes on, `TooDeep` at the word that
/// opens the 101st level of assertions or of statements; at one word in this order. `Memory` where
/// an allocation was refused.
pub fn read(alloc: Global, words: &[Word]) -> Result<Template, TemplateError> {
    let mut cursor = Cursor::new(alloc, words);
    match template(&mut cursor) {
        Ok(template) => Ok(template),
        Err(Refusal::Memory) => Err(TemplateError::Memory),
        Err(Refusal::Fault(stop)) => {
            let kind = match stop {
                Stop::Expected => FaultKind::Expected,
                Stop::TooDeep => FaultKind::TooDeep,
            };
            Err(TemplateError::at(kind, place(words, cursor.rest())))
        }
    }
}

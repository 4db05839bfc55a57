//! Reading outlines.

ghost use Rattle.std.specs.Prelude.{◌≡◌, option_map, unwrap_or, []};
ghost use Rattle.og_text.specs.declared.token.TokenKind.TheVariants.{Var, Aux};
ghost use Rattle.og_parse.specs.Gives.{IsRead};
ghost use Rattle.og_parse.specs.Reading.{if_symbol_at, whole_at};
ghost use Rattle.og_parse.specs.TreeOf.{front_of, back_of, note_of, seq_of, seqs_of, tree_of};
ghost use Rattle.og_parse.specs.Parts.{joined};
ghost use Rattle.og_parse.specs.Reads.{aux_at, names_at, auxes_at, listed_by, seq_at, main_at, processes_at, declarations_at, opening_at, front_at, cobegin_at, closing_at, back_at, outline_at};

use crate::assertions::note;
use crate::raw::{Raw, RawAux, RawName, RawNote, RawProcesses, RawSeq};
use crate::statements::{Context, rest_of_block, sequence};
use crate::sum::int;
use crate::word::name;
use crate::{Cursor, FaultKind, Refusal};
use og_text::{Span, TokenKind};
use std::alloc::Global;

// What stands before `cobegin`.
#[derive(Drop)]
struct RawFront {
    vars: Vec<RawName>,
    auxes: Vec<RawAux>,
    pre: RawNote,
    prologue: Option<RawSeq>,
}

// What stands from `cobegin` on.
#[derive(Drop)]
struct RawBack {
    cobegin: Span,
    processes: RawProcesses,
    epilogue: Option<RawSeq>,
    post: RawNote,
}

#[tactic(auto, unfolding(crate::specs::Reads::aux_at))]
fn aux(alloc: Global, cursor: &mut Cursor) -> Result<RawAux, Refusal>
    ensures { IsRead (λ aux. aux) result cursor.new (aux_at cursor.old) }
{
    let name = name(alloc, cursor)?;
    cursor.expect(&TokenKind::Equal)?;
    let value = int(cursor)?;
    Ok(RawAux { name, value })
}

#[tactic(auto, unfolding(crate::specs::Reads::names_at))]
fn names(alloc: Global, cursor: &mut Cursor) -> Result<Vec<RawName>, Refusal>
    ensures { IsRead (λ all. all.items) result cursor.new (names_at cursor.old) }
{
    let mut all = Vec::new(alloc);
    all.push(name(alloc, cursor)?)?;
    'more: while cursor.eat(&TokenKind::Comma) {
        all.push(name(alloc, cursor)?)?;
    }
    Ok(all)
}

#[tactic(auto, unfolding(crate::specs::Reads::auxes_at))]
fn auxes(alloc: Global, cursor: &mut Cursor) -> Result<Vec<RawAux>, Refusal>
    ensures { IsRead (λ all. all.items) result cursor.new (auxes_at cursor.old) }
{
    let mut all = Vec::new(alloc);
    all.push(aux(alloc, cursor)?)?;
    'more: while cursor.eat(&TokenKind::Comma) {
        all.push(aux(alloc, cursor)?)?;
    }
    Ok(all)
}

// The variables after `var`, if there is one.
#[tactic(auto, unfolding(crate::specs::Reads::listed_by))]
fn var_part(alloc: Global, cursor: &mut Cursor) -> Result<Option<Vec<RawName>>, Refusal>
    ensures { IsRead (option_map (λ all. all.items)) result cursor.new
        (if_symbol_at Var (listed_by names_at) cursor.old) }
{
    if !cursor.eat(&TokenKind::Var) {
        return Ok(None);
    }
    let all = names(alloc, cursor)?;
    cursor.expect(&TokenKind::Semicolon)?;
    Ok(Some(all))
}

// The variables after `aux`, if there is one.
#[tactic(auto, unfolding(crate::specs::Reads::listed_by))]
fn aux_part(alloc: Global, cursor: &mut Cursor) -> Result<Option<Vec<RawAux>>, Refusal>
    ensures { IsRead (option_map (λ all. all.items)) result cursor.new
        (if_symbol_at Aux (listed_by auxes_at) cursor.old) }
{
    if !cursor.eat(&TokenKind::Aux) {
        return Ok(None);
    }
    let all = auxes(alloc, cursor)?;
    cursor.expect(&TokenKind::Semicolon)?;
    Ok(Some(all))
}

// The list, or an empty one.
fn or_empty<T: Drop>(alloc: Global, list: Option<Vec<T>>) -> Vec<T>
    ensures { result.items ≡ unwrap_or (option_map (λ v. v.items) list) [] }
{
    match list {
        Some(all) => all,
        None => Vec::new(alloc),
    }
}

// The statements between `begin` and `end`, before or after the processes, if there are some.
#[tactic(auto, unfolding(crate::specs::Reads::main_at))]
fn main_part(alloc: Global, levels: u32, cursor: &mut Cursor) -> Result<Option<RawSeq>, Refusal>
    ensures { IsRead (option_map seq_of) result cursor.new (main_at levels cursor.old) }
{
    if cursor.eat(&TokenKind::Begin) {
        let context = Context {
            alloc,
            levels,
            awaits: false,
            depth: levels,
        };
        return Ok(Some(rest_of_block(context, cursor)?));
    }
    Ok(None)
}

#[tactic(auto, unfolding(crate::specs::Reads::processes_at))]
fn processes(alloc: Global, levels: u32, cursor: &mut Cursor) -> Result<RawProcesses, Refusal>
    ensures { IsRead seqs_of result cursor.new (processes_at levels cursor.old) }
{
    let context = Context {
        alloc,
        levels,
        awaits: true,
        depth: levels,
    };
    let first = sequence(context, cursor)?;
    let mut others = Vec::new(alloc);
    'more: while cursor.eat(&TokenKind::Parallel) {
        others.push(sequence(context, cursor)?)?;
    }
    Ok(RawProcesses { first, others })
}

// A declaration.
#[tactic(auto, unfolding(crate::specs::Reads::declarations_at))]
fn declarations(alloc: Global, cursor: &mut Cursor) -> Result<(Vec<RawName>, Vec<RawAux>), Refusal>
    ensures { IsRead (λ x. (x.0.items, x.1.items)) result cursor.new (declarations_at cursor.old) }
{
    let vars = or_empty(alloc, var_part(alloc, cursor)?);
    let auxes = or_empty(alloc, aux_part(alloc, cursor)?);
    Ok((vars, auxes))
}

// The assertion and the statements before the processes.
#[tactic(auto, unfolding(crate::specs::Reads::opening_at))]
fn opening(
    alloc: Global,
    levels: u32,
    cursor: &mut Cursor,
) -> Result<(RawNote, Option<RawSeq>), Refusal>
    ensures { IsRead (λ x. (note_of x.0, option_map seq_of x.1)) result cursor.new
        (opening_at levels cursor.old) }
{
    let pre = note(alloc, levels, cursor)?;
    let prologue = main_part(alloc, levels, cursor)?;
    Ok((pre, prologue))
}

#[tactic(auto, unfolding(crate::specs::Reads::front_at))]
fn front(alloc: Global, levels: u32, cursor: &mut Cursor) -> Result<RawFront, Refusal>
    ensures { IsRead front_of result cursor.new (front_at levels cursor.old) }
{
    let (vars, auxes) = declarations(alloc, cursor)?;
    let (pre, prologue) = opening(alloc, levels, cursor)?;
    Ok(RawFront {
        vars,
        auxes,
        pre,
        prologue,
    })
}

// The place of `cobegin`, and the processes up to `coend`.
#[tactic(auto, unfolding(crate::specs::Reads::cobegin_at))]
fn cobegin(alloc: Global, levels: u32, cursor: &mut Cursor) -> Result<(Span, RawProcesses), Refusal>
    ensures { IsRead (λ x. (x.0, seqs_of x.1)) result cursor.new (cobegin_at levels cursor.old) }
{
    let cobegin = cursor.expect(&TokenKind::Cobegin)?;
    let processes = processes(alloc, levels, cursor)?;
    cursor.expect(&TokenKind::Coend)?;
    Ok((cobegin, processes))
}

// The statements and the assertion after the processes.
#[tactic(auto, unfolding(crate::specs::Reads::closing_at))]
fn closing(
    alloc: Global,
    levels: u32,
    cursor: &mut Cursor,
) -> Result<(Option<RawSeq>, RawNote), Refusal>
    ensures { IsRead (λ x. (option_map seq_of x.0, note_of x.1)) result cursor.new
        (closing_at levels cursor.old) }
{
    let epilogue = main_part(alloc, levels, cursor)?;
    let post = note(alloc, levels, cursor)?;
    Ok((epilogue, post))
}

#[tactic(auto, unfolding(crate::specs::Reads::back_at))]
fn back(alloc: Global, levels: u32, cursor: &mut Cursor) -> Result<RawBack, Refusal>
    ensures { IsRead back_of result cursor.new (back_at levels cursor.old) }
{
    let (cobegin, processes) = cobegin(alloc, levels, cursor)?;
    let (epilogue, post) = closing(alloc, levels, cursor)?;
    Ok(RawBack {
        cobegin,
        processes,
        epilogue,
        post,
    })
}

fn joined(front: RawFront, back: RawBack) -> Raw
    ensures { tree_of result ≡ joined (front_of front) (back_of back) }
{
    Raw {
        vars: front.vars,
        auxes: front.auxes,
        pre: front.pre,
        prologue: front.prologue,
        cobegin: back.cobegin,
        processes: back.processes,
        epilogue: back.epilogue,
        post: back.post,
    }
}

#[tactic(auto, unfolding(crate::specs::Reads::outline_at))]
fn outline(alloc: Global, levels: u32, cursor: &mut Cursor) -> Result<Raw, Refusal>
    ensures { IsRead tree_of result cursor.new (outline_at levels cursor.old) }
{
    let front = front(alloc, levels, cursor)?;
    let back = back(alloc, levels, cursor)?;
    Ok(joined(front, back))
}

/// Reads all of the tokens as an outline, with at most `levels` levels of assertions and of
/// statements.
pub(crate) fn whole(alloc: Global, levels: u32, cursor: &mut Cursor) -> Result<Raw, Refusal>
    ensures { IsRead tree_of result cursor.new (whole_at (outline_at levels) cursor.old) }
{
    let raw = outline(alloc, levels, cursor)?;
    match cursor.peek() {
        None => Ok(raw),
        Some(_) => Err(Refusal::Fault(FaultKind::Expected)),
    }
}

//! Erasure.

ghost use Rattle.std.specs.Prelude.{◌≡◌, IfOk, filter, map, option_map};
ghost use Rattle.og_typed.specs.Erase as erase;
ghost use Rattle.og_typed.specs.Erase.{erased};
ghost use Rattle.og_typed.specs.Plain as plain;

use crate::copies::{blank_note, copy_basic, copy_names, copy_note};
use crate::program::Program;
use og_typed::{Assert, Basic, Item, Outline, Parts, Seq, Stmt};
use std::alloc::{AllocError, Global};

// The statements of an await that assign no auxiliary.
fn body(alloc: Global, vars: u32, body: &[Basic]) -> Result<Vec<Basic>, AllocError>
    ensures { IfOk result (λ v.
        map plain.simple v.items ≡ filter (erase.is_kept vars) (map plain.simple body.now)) }
{
    let mut kept = Vec::new(alloc);
    for basic in body {
        if is_kept(vars, basic) {
            kept.push(copy_basic(basic)?)?;
        }
    }
    Ok(kept)
}

fn is_kept(vars: u32, basic: &Basic) -> bool
    ensures { result ≡ erase.is_kept vars (plain.simple basic.now) }
{
    match basic {
        Basic::Skip => true,
        Basic::Assign(var, _) => *var < vars,
    }
}

// Whether the statement is an assignment to an auxiliary.
fn is_aux_assign(vars: u32, stmt: &Stmt) -> bool
    ensures { result ≡ erase.is_aux_assign vars (plain.statement stmt.now) }
{
    match stmt {
        Stmt::Assign(var, _) => vars <= *var,
        _ => false,
    }
}

// The sequence without the assignments to auxiliaries, in a box.
#[cycle(sequences)]
fn block(alloc: Global, vars: u32, seq: &Seq) -> Result<Box<Seq>, AllocError>
    ensures { IfOk result (λ b.
        plain.sequence b.value ≡ erase.erase_seq vars (plain.sequence seq.now)) }
{
    let seq = sequence(alloc, vars, seq)?;
    Ok(Box::new(alloc, seq)?)
}

// The sequence without the assignments to auxiliaries, and a copy of the test before it.
#[cycle(sequences)]
fn guarded(
    alloc: Global,
    vars: u32,
    seq: &Seq,
    test: &Assert,
) -> Result<(Box<Seq>, Assert), AllocError>
    ensures seq { IfOk result (λ p.
        plain.sequence p.0.value ≡ erase.erase_seq vars (plain.sequence seq.now)) }
    ensures test { IfOk result (λ p. plain.formula p.1 ≡ plain.formula test.now) }
{
    let block = block(alloc, vars, seq)?;
    Ok((block, test.copy(alloc)?))
}

// The statement without the assignments to auxiliaries inside it.
#[cycle(sequences)]
fn statement(alloc: Global, vars: u32, stmt: &Stmt) -> Result<Stmt, AllocError>
    ensures { IfOk result (λ s.
        plain.statement s ≡ erase.erase_stmt vars (plain.statement stmt.now)) }
{
    match stmt {
        Stmt::Skip => Ok(Stmt::Skip),
        Stmt::Assign(var, form) => Ok(Stmt::Assign(*var, form.copy()?)),
        Stmt::If(test, then, None) => {
            let (then, test) = guarded(alloc, vars, then, test)?;
            Ok(Stmt::If(test, then, None))
        }
        Stmt::If(test, then, Some(other)) => {
            let other = block(alloc, vars, other)?;
            let (then, test) = guarded(alloc, vars, then, test)?;
            Ok(Stmt::If(test, then, Some(other)))
        }
        Stmt::While(test, inner) => {
            let (inner, test) = guarded(alloc, vars, inner, test)?;
            Ok(Stmt::While(test, inner))
        }
        Stmt::Await(guard, elements) => {
            let kept = body(alloc, vars, elements)?;
            Ok(Stmt::Await(guard.copy(alloc)?, kept))
        }
    }
}

// The sequence without the assignments to auxiliaries at every depth, and with `true` for each
// assertion.
#[cycle(sequences)]
fn sequence(alloc: Global, vars: u32, seq: &Seq) -> Result<Seq, AllocError>
    ensures { IfOk result (λ q. plain.sequence q ≡ erase.erase_seq vars (plain.sequence seq.now)) }
{
    let mut items = Vec::new(alloc);
    for item in &seq.items {
        if !is_aux_assign(vars, &item.stmt) {
            let before = blank_note(&item.before);
            let stmt = statement(alloc, vars, &item.stmt)?;
            items.push(Item {
                before,
                stmt,
                at: item.at,
            })?;
        }
    }
    let last = blank_note(&seq.last);
    Ok(Seq { items, last })
}

// A part of the main process, where there is one.
fn part(alloc: Global, vars: u32, whole: Option<&Seq>) -> Result<Option<Seq>, AllocError>
    ensures { IfOk result (λ q. option_map plain.sequence q
        ≡ option_map (erase.erase_seq vars) (option_map (λ seq. plain.sequence seq.now) whole.entry)) }
{
    match whole {
        None => Ok(None),
        Some(seq) => Ok(Some(sequence(alloc, vars, seq)?)),
    }
}

fn processes(alloc: Global, vars: u32, all: &[Seq]) -> Result<Vec<Seq>, AllocError>
    ensures { IfOk result (λ v.
        map plain.sequence v.items ≡ map (erase.erase_seq vars) (map plain.sequence all.now)) }
{
    let mut processes = Vec::new(alloc);
    for process in all {
        processes.push(sequence(alloc, vars, process)?)?;
    }
    Ok(processes)
}

// What stands before the processes, the processes, and what stands after them.
#[derive(Drop)]
struct Main {
    prologue: Option<Seq>,
    processes: Vec<Seq>,
    epilogue: Option<Seq>,
}

fn main_part(alloc: Global, vars: u32, outline: &Outline) -> Result<Main, AllocError>
    ensures prologue { IfOk result (λ m. option_map plain.sequence m.prologue
        ≡ option_map (erase.erase_seq vars) outline.now.prologue) }
    ensures processes { IfOk result (λ m.
        map plain.sequence m.processes.items ≡ map (erase.erase_seq vars) outline.now.processes) }
    ensures epilogue { IfOk result (λ m. option_map plain.sequence m.epilogue
        ≡ option_map (erase.erase_seq vars) outline.now.epilogue) }
{
    let prologue = part(alloc, vars, outline.prologue())?;
    let processes = processes(alloc, vars, outline.processes())?;
    let epilogue = part(alloc, vars, outline.epilogue())?;
    Ok(Main {
        prologue,
        processes,
        epilogue,
    })
}

/// The program of an outline: without the auxiliary variables, and without the assignments to them
/// at every depth, also in the body of an await. What becomes empty stays: a sequence, a branch, a
/// body, a part before `cobegin` or after `coend`. The precondition and the postcondition stay, and
/// every other assertion becomes `true`. The places stay.
///
/// # Errors
///
/// Only where an allocation was refused.
pub fn erase(alloc: Global, outline: &Outline) -> Result<Program, AllocError>
    ensures { IfOk result (λ program. program ≡ erased outline.now) }
{
    outline.follows_rule();
    let vars = outline.vars();
    let names = copy_names(alloc, &outline.names()[..vars as usize])?;
    let pre = copy_note(alloc, outline.pre())?;
    let post = copy_note(alloc, outline.post())?;
    let main = main_part(alloc, vars, outline)?;
    let parts = Parts {
        names,
        vars,
        aux_values: Vec::new(alloc),
        pre,
        prologue: main.prologue,
        processes: main.processes,
        epilogue: main.epilogue,
        post,
        cobegin_at: outline.cobegin_at(),
    };
    let outline = Outline::new(parts);
    Ok(Program { outline })
}

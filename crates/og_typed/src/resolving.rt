//! Resolving outlines.

ghost use Rattle.std.specs.Prelude.{◌≡◌, List, [], IsOk, IfNone, map, option_map};
ghost use Rattle.og_parse.specs.TreeOf.{tree_of, seq_of, seqs_of};
ghost use Rattle.og_typed.specs.Answer.{IsResolved, OnMemory};
ghost use Rattle.og_typed.specs.Plain as plain;
ghost use Rattle.og_typed.specs.Resolved as meaning;
ghost use Rattle.og_typed.specs.Scoped.{scope_of};

use crate::fault::{TypeError, TypeFault};
use crate::formulas::note;
use crate::names::Names;
use crate::outline::Outline;
use crate::scope::{Scope, Use};
use crate::sequences::sequence;
use crate::statement::Seq;
use og_parse::{Raw, RawAux, RawInt, RawName, RawProcesses, RawSeq, Sign};
use std::alloc::{AllocError, Global};

/// The greatest number of processes.
const PROCESS_LIMIT: usize = 256;

fn declare_vars<'a>(names: &mut Names<'a>, vars: &'a [RawName]) -> Result<(), TypeError>
    ensures { IsResolved (λ _. names.new) result (meaning.declared_vars names.old vars.now) }
{
    for name in vars {
        names.declare(name)?;
    }
    Ok(())
}

// An initial value. Takes no memory.
fn initial(int: &RawInt) -> Result<i64, TypeError>
    ensures answer { IsResolved (λ v. v) result (meaning.initial int.now) }
    ensures memory { OnMemory result ⊥ }
{
    let value = match int.sign {
        Sign::Plus => i128::from(int.number),
        Sign::Minus => -i128::from(int.number),
    };
    if i128::from(i64::MIN) <= value && value <= i128::from(i64::MAX) {
        Ok(value as i64)
    } else {
        Err(TypeError::Fault(TypeFault::CoefficientTooLarge(int.span.start)))
    }
}

// Declares the auxiliaries, and gives their initial values.
fn declare_auxes<'a>(
    alloc: Global,
    names: &mut Names<'a>,
    auxes: &'a [RawAux],
) -> Result<Vec<i64>, TypeError>
    ensures { IsResolved (λ values. (names.new, values.items)) result
        (meaning.declared_auxes names.old [] auxes.now) }
{
    let mut values = Vec::new(alloc);
    for aux in auxes {
        names.declare(&aux.name)?;
        values.push(initial(&aux.value)?)?;
    }
    Ok(values)
}

// A part of the main process, where there is one. Takes no memory where there is none.
fn part(scope: &Scope<'_>, raw: &Option<RawSeq>) -> Result<Option<Seq>, TypeError>
    ensures answer { IsResolved (option_map plain.sequence) result
        (meaning.part (scope_of scope.now) (option_map seq_of raw.now)) }
    ensures none { IfNone raw.now (IsOk result) }
{
    match raw {
        None => Ok(None),
        Some(raw) => Ok(Some(sequence(scope, raw)?)),
    }
}

// The processes.
fn processes(scope: &Scope<'_>, raw: &RawProcesses) -> Result<Vec<Seq>, TypeError>
    ensures { IsResolved (λ v. map plain.sequence v.items) result
        (meaning.processes (scope_of scope.now) (seqs_of raw.now)) }
{
    let mut processes = Vec::new(scope.alloc);
    processes.push(sequence(scope, &raw.first)?)?;
    for process in &raw.others {
        if processes.len() >= PROCESS_LIMIT {
            return Err(TypeError::Fault(TypeFault::TooManyProcesses(first_place(process))));
        }
        processes.push(sequence(scope, process)?)?;
    }
    Ok(processes)
}

// The place of a process is that of its first assertion.
fn first_place(raw: &RawSeq) -> u32
    ensures { result ≡ meaning.place_of (seq_of raw.now) }
{
    match raw.items.first() {
        Some(item) => item.before.span.start,
        None => raw.last.span.start,
    }
}

/// The outline that a tree stands for: names become numbers, the auxiliaries last, and relations
/// become forms that are compared with 0.
///
/// # Errors
///
/// The first fault in the order of the text. At a declared name `DeclaredTwice`, then
/// `TooManyVariables` at the 257th; at an initial value outside `i64` `CoefficientTooLarge`. At a
/// used name `Undeclared`, then for an auxiliary `AuxInPrePost` in the precondition and the
/// postcondition, and `AuxUsed` in a test, a guard and the right side of an assignment to a
/// variable that is none. After the names of a relation or a right side `CoefficientTooLarge`, at
/// its first token, where the collected form is beyond the limits. `TooManyProcesses` at the 257th
/// process, and `AwaitTooLong` at the 65th element of the body of an await.
///
/// `Memory` may stand in the place of any answer where an allocation was refused.
pub fn resolve(alloc: Global, raw: Raw) -> Result<Outline, TypeError>
    ensures { IsResolved (λ o. o) result (meaning.resolved (tree_of raw)) }
{
    let mut names = Names::new(alloc);
    declare_vars(&mut names, &raw.vars)?;
    let vars = names.len();
    let aux_values = declare_auxes(alloc, &mut names, &raw.auxes)?;
    let scope = Scope { alloc, names, vars };
    let pre = note(&scope, Use::Outer, &raw.pre)?;
    let prologue = part(&scope, &raw.prologue)?;
    let processes = processes(&scope, &raw.processes)?;
    let epilogue = part(&scope, &raw.epilogue)?;
    let post = note(&scope, Use::Outer, &raw.post)?;
    let names = scope.names.to_vec(alloc)?;
    let cobegin_at = raw.cobegin.start;
    Ok(Outline {
        names,
        vars,
        aux_values,
        pre,
        prologue,
        processes,
        epilogue,
        post,
        cobegin_at,
    })
}

//! Statements as trees.

ghost use Rattle.std.specs.Prelude.{◌≡◌, IfOk, length, map};
ghost use Rattle.std.specs.List.{AllByRecursion};
ghost use Rattle.og_erase.specs.Collected as collected;
ghost use Rattle.og_parse.specs.TreeOf.{assertion_of, basic_of, element_of, stmt_of, seq_of};
ghost use Rattle.og_typed.specs.Plain as plain;
ghost use Rattle.og_typed.specs.Syntax.{Set};
ghost use Rattle.og_typed.specs.Rule.{IsUsable, IsUsableSimple, IsUsableStatement, IsUsableSequence};

use crate::assertions::{assertion, note};
use crate::forms::{NOWHERE, sum, variable};
use og_linear::Form;
use og_parse::{RawAssert, RawBasic, RawElement, RawItem, RawSeq, RawStmt};
use og_text::Name;
use og_typed::{Assert, Basic, Seq, Stmt};
use std::alloc::{AllocError, Global};

// An assignment.
fn assignment(alloc: Global, names: &[Name], var: u32, form: &Form) -> Result<RawBasic, AllocError>
    requires { IsUsableSimple (length names.now) (Set var form.now) }
    ensures { IfOk result (λ b. basic_of b ≡ collected.basic names.now (Set var form.now)) }
{
    let name = variable(alloc, names, var)?;
    Ok(RawBasic::Assign(name, sum(alloc, names, form)?))
}

// A statement in the body of an await.
fn element(alloc: Global, names: &[Name], basic: &Basic) -> Result<RawBasic, AllocError>
    requires { IsUsableSimple (length names.now) (plain.simple basic.now) }
    ensures { IfOk result (λ b. basic_of b ≡ collected.basic names.now (plain.simple basic.now)) }
{
    match basic {
        Basic::Skip => Ok(RawBasic::Skip),
        Basic::Assign(var, form) => assignment(alloc, names, *var, form),
    }
}

// The body of an await.
fn elements(alloc: Global, names: &[Name], body: &[Basic]) -> Result<Vec<RawElement>, AllocError>
    requires { AllByRecursion (IsUsableSimple (length names.now)) (map plain.simple body.now) }
    ensures { IfOk result (λ v. map element_of v.items
        ≡ map (λ s. collected.placed (collected.basic names.now s)) (map plain.simple body.now)) }
{
    let mut elements = Vec::new(alloc);
    for basic in body {
        let basic = element(alloc, names, basic)?;
        elements.push(RawElement {
            basic,
            span: NOWHERE,
        })?;
    }
    Ok(elements)
}

// A sequence, and the test before it.
#[cycle(statements)]
fn guarded(
    alloc: Global,
    names: &[Name],
    seq: &Seq,
    test: &Assert,
) -> Result<(RawSeq, RawAssert), AllocError>
    requires seq { IsUsableSequence (length names.now) (plain.sequence seq.now) }
    requires test { IsUsable (length names.now) (plain.formula test.now) }
    ensures seq { IfOk result (λ p.
        seq_of p.0 ≡ collected.sequence names.now (plain.sequence seq.now)) }
    ensures test { IfOk result (λ p.
        assertion_of p.1 ≡ collected.assertion names.now (plain.formula test.now)) }
{
    let seq = sequence(alloc, names, seq)?;
    Ok((seq, assertion(alloc, names, test)?))
}

#[cycle(statements)]
fn statement(alloc: Global, names: &[Name], stmt: &Stmt) -> Result<RawStmt, AllocError>
    requires { IsUsableStatement (length names.now) (plain.statement stmt.now) }
    ensures { IfOk result (λ s.
        stmt_of s ≡ collected.statement names.now (plain.statement stmt.now)) }
{
    match stmt {
        Stmt::Skip => Ok(RawStmt::Basic(RawBasic::Skip)),
        Stmt::Assign(var, form) => Ok(RawStmt::Basic(assignment(alloc, names, *var, form)?)),
        Stmt::If(test, then, None) => {
            let (then, test) = guarded(alloc, names, then, test)?;
            Ok(RawStmt::If(test, then, None))
        }
        Stmt::If(test, then, Some(other)) => {
            let other = sequence(alloc, names, other)?;
            let (then, test) = guarded(alloc, names, then, test)?;
            Ok(RawStmt::If(test, then, Some(other)))
        }
        Stmt::While(test, body) => {
            let (body, test) = guarded(alloc, names, body, test)?;
            Ok(RawStmt::While(test, body))
        }
        Stmt::Await(guard, body) => {
            let guard = assertion(alloc, names, guard)?;
            Ok(RawStmt::Await(guard, elements(alloc, names, body)?))
        }
    }
}

#[cycle(statements)]
pub(crate) fn sequence(alloc: Global, names: &[Name], seq: &Seq) -> Result<RawSeq, AllocError>
    requires { IsUsableSequence (length names.now) (plain.sequence seq.now) }
    ensures { IfOk result (λ q. seq_of q ≡ collected.sequence names.now (plain.sequence seq.now)) }
{
    let mut items = Vec::new(alloc);
    for item in &seq.items {
        let before = note(alloc, names, &item.before)?;
        let stmt = statement(alloc, names, &item.stmt)?;
        items.push(RawItem {
            before,
            stmt,
            span: NOWHERE,
        })?;
    }
    let last = note(alloc, names, &seq.last)?;
    Ok(RawSeq { items, last })
}

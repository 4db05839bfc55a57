//! Statements, with the instances of each `for`.

ghost use Rattle.std.specs.Prelude.{◌≡◌, [], map, option_map};
ghost use Rattle.og_parse.specs.Language.{Placed};
ghost use Rattle.og_parse.specs.Trees as outlines;
ghost use Rattle.og_parse.specs.TreeOf.{assertion_of as assertion_tree, basic_of as basic_tree, element_of as element_tree, stmt_of as stmt_tree, seq_of as seq_tree};
ghost use Rattle.og_template_expand.specs.Answer.{gathered};
ghost use Rattle.og_template_expand.specs.Put.{front_of, onto};
ghost use Rattle.og_template_expand.specs.Ranges.{instances};
ghost use Rattle.og_template_expand.specs.Scoped.{IsExpanded, scope_of};
ghost use Rattle.og_template_expand.specs.Statements as meaning;
ghost use Rattle.og_template_expand.specs.Trees as template;
ghost use Rattle.og_template_expand.specs.TreeOf.{expression_of, binder_of, assertion_of, note_of, basic_of, simple_of, statement_of, step_of, steps_then, sequence_of};

use crate::binders::{enter, values};
use crate::expander::{Expander, same_name};
use crate::fault::{Stop, fault};
use crate::prefix::Prefix;
use crate::repeated::{Repeated, all_made};
use crate::scope::Scope;
use crate::sums::{element, sum};
use og_parse::{RawAssert, RawBasic, RawElement, RawItem, RawName, RawSeq, RawStmt};
use og_template::{
    Assertion, Basic, Binder, Element, Expr, FaultKind, Note, Sequence, Statement, Step,
};
use og_text::Span;
use std::mem;

// The variable that is assigned.
fn target(
    scope: &Scope<'_, '_>,
    work: &mut Expander<'_>,
    name: &RawName,
    index: &Option<Expr>,
) -> Result<RawName, Stop>
    ensures { IsExpanded (λ n. n) result (meaning.target_of (scope_of scope.now) name.now
        (option_map expression_of index.now)) }
{
    match index {
        None => Ok(same_name(work.alloc, name)?),
        Some(index) => element(scope, work, name, index),
    }
}

impl<'s, 'a> Scope<'s, 'a> {
    fn basic(&self, work: &mut Expander<'_>, basic: &'a Basic) -> Result<RawBasic, Stop>
        ensures { IsExpanded basic_tree result (meaning.basic_of (scope_of self.now)
            (basic_of basic.now)) }
    {
        match basic {
            Basic::Skip => Ok(RawBasic::Skip),
            Basic::Assign(name, index, value) => {
                let name = target(self, work, name, index)?;
                Ok(RawBasic::Assign(name, sum(self, work, value)?))
            }
        }
    }
}

impl Repeated for Element {
    type Made = RawElement;

    ghost Tree = { Placed outlines.Basic };

    ghost view = { element_tree };

    ghost binds = { λ e. option_map binder_of e.binder };

    ghost means = { λ e s. meaning.simple_in s (basic_of e.basic) e.span };

    fn binder(&self) -> &Option<Binder> {
        &self.binder
    }

    fn made<'a>(
        &'a self,
        scope: &Scope<'_, 'a>,
        work: &mut Expander<'a>,
    ) -> Result<RawElement, Stop> {
        work.step(self.span)?;
        let basic = scope.basic(work, &self.basic)?;
        Ok(RawElement {
            basic,
            span: self.span,
        })
    }
}

// The body of an await.
fn body<'a>(
    scope: &Scope<'_, 'a>,
    work: &mut Expander<'a>,
    elements: &'a [Element],
) -> Result<Vec<RawElement>, Stop>
    ensures { IsExpanded (λ v. map element_tree v.items) result
        (gathered (meaning.simple_of (scope_of scope.now)) (map simple_of elements.now)) }
{
    all_made(scope, work, elements)
}

// The await with this body.
fn await_with(guard: RawAssert, body: Vec<RawElement>, span: Span) -> Result<RawStmt, Stop>
    ensures { IsExpanded stmt_tree result (meaning.await_with (assertion_tree guard)
        (map element_tree body.items) span) }
{
    if body.is_empty() {
        return Err(fault(FaultKind::NothingLeft, span));
    }
    Ok(RawStmt::Await(guard, body))
}

fn await_statement<'a>(
    scope: &Scope<'_, 'a>,
    work: &mut Expander<'a>,
    guard: &'a Assertion,
    elements: &'a [Element],
    span: Span,
) -> Result<RawStmt, Stop>
    ensures { IsExpanded stmt_tree result (meaning.await_of (scope_of scope.now)
        (assertion_of guard.now) (map simple_of elements.now) span) }
{
    let guard = scope.test(work, guard)?;
    let body = body(scope, work, elements)?;
    await_with(guard, body, span)
}

#[cycle(sequences)]
fn statement<'a>(
    scope: &Scope<'_, 'a>,
    work: &mut Expander<'a>,
    span: Span,
    statement: &'a Statement,
) -> Result<RawStmt, Stop>
    ensures { IsExpanded stmt_tree result (meaning.statement_of (scope_of scope.now) span
        (statement_of statement.now)) }
{
    match statement {
        Statement::Basic(inner) => Ok(RawStmt::Basic(scope.basic(work, inner)?)),
        Statement::If(condition, branch, None) => {
            let condition = scope.test(work, condition)?;
            let branch = sequence(scope, work, branch)?;
            Ok(RawStmt::If(condition, branch, None))
        }
        Statement::If(condition, branch, Some(other)) => {
            let condition = scope.test(work, condition)?;
            let branch = sequence(scope, work, branch)?;
            let other = sequence(scope, work, other)?;
            Ok(RawStmt::If(condition, branch, Some(other)))
        }
        Statement::While(condition, body) => {
            let condition = scope.test(work, condition)?;
            let body = sequence(scope, work, body)?;
            Ok(RawStmt::While(condition, body))
        }
        Statement::Await(guard, elements) => await_statement(scope, work, guard, elements, span),
    }
}

// Adds a statement with the assertion after it.
#[cycle(sequences)]
fn put_statement<'a>(
    scope: &Scope<'_, 'a>,
    work: &mut Expander<'a>,
    inner: &'a Statement,
    span: Span,
    after: &'a Note,
    prefix: &mut Prefix,
) -> Result<(), Stop>
    ensures { IsExpanded (λ _. front_of prefix.new) result
        (onto (front_of prefix.old) (meaning.one_of (scope_of scope.now)
        (template.Stated (statement_of inner.now) span (note_of after.now)))) }
{
    work.step(span)?;
    work.count_statement(span)?;
    work.note_origin(span, &scope.bound)?;
    let stmt = statement(scope, work, span, inner)?;
    let after = scope.note(work, after)?;
    let before = mem::replace(&mut prefix.last, after);
    Ok(prefix.items.push(RawItem { before, stmt, span })?)
}

// Adds the steps of each instance.
#[cycle(sequences)]
fn put_repeated<'a>(
    scope: &Scope<'_, 'a>,
    work: &mut Expander<'a>,
    binder: &'a Binder,
    steps: &'a [Step],
    prefix: &mut Prefix,
) -> Result<(), Stop>
    ensures { IsExpanded (λ _. front_of prefix.new) result
        (onto (front_of prefix.old) (instances (scope_of scope.now)
        (binder_of binder.now) (λ s. meaning.steps_of s (steps_then (map step_of steps.now))))) }
{
    let values = values(scope, work, binder)?;
    for value in &values {
        if let Some(inner) = enter(scope, work, binder, *value)? {
            put_steps(&inner, work, steps, prefix)?;
        }
    }
    Ok(())
}

// Adds what a step is.
#[cycle(sequences)]
fn put_step<'a>(
    scope: &Scope<'_, 'a>,
    work: &mut Expander<'a>,
    step: &'a Step,
    prefix: &mut Prefix,
) -> Result<(), Stop>
    ensures { IsExpanded (λ _. front_of prefix.new) result
        (onto (front_of prefix.old) (meaning.one_of (scope_of scope.now)
        (step_of step.now))) }
{
    match step {
        Step::Statement(inner, span, after) => {
            put_statement(scope, work, inner, *span, after, prefix)
        }
        Step::For(binder, steps) => put_repeated(scope, work, binder, steps, prefix),
    }
}

#[cycle(sequences)]
fn put_steps<'a>(
    scope: &Scope<'_, 'a>,
    work: &mut Expander<'a>,
    steps: &'a [Step],
    prefix: &mut Prefix,
) -> Result<(), Stop>
    ensures { IsExpanded (λ _. front_of prefix.new) result
        (onto (front_of prefix.old) (meaning.steps_of (scope_of scope.now)
        (steps_then (map step_of steps.now)))) }
{
    for step in steps {
        put_step(scope, work, step, prefix)?;
    }
    Ok(())
}

/// The statements of a sequence with their assertions.
#[cycle(sequences)]
pub(crate) fn sequence<'a>(
    scope: &Scope<'_, 'a>,
    work: &mut Expander<'a>,
    sequence: &'a Sequence,
) -> Result<RawSeq, Stop>
    ensures { IsExpanded seq_tree result (meaning.sequence_of (scope_of scope.now)
        (sequence_of sequence.now)) }
{
    let last = scope.note(work, &sequence.before)?;
    let items = Vec::new(work.alloc);
    let mut prefix = Prefix { items, last };
    put_steps(scope, work, &sequence.steps, &mut prefix)?;
    if prefix.items.is_empty() {
        return Err(fault(FaultKind::NothingLeft, sequence.before.span));
    }
    Ok(RawSeq {
        items: prefix.items,
        last: prefix.last,
    })
}

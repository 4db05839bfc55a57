//! The values of constant expressions.

ghost use Rattle.std.specs.Prelude.{◌*ℤ◌, map, IfErr};
ghost use Rattle.og_template_expand.specs.Scope as scopes;
ghost use Rattle.og_template_expand.specs.Trees.{Minus};
ghost use Rattle.og_template_expand.specs.Values as values;
ghost use Rattle.og_template_expand.specs.Scoped.{IsExpanded, IsSpent, scope_of};
ghost use Rattle.og_template_expand.specs.TreeOf.{expression_of, operated_of, linked};

use crate::expander::Expander;
use crate::fault::{Stop, fault};
use crate::scope::Scope;
use og_parse::RawName;
use og_template::{Expr, FaultKind, Link, Operator};
use og_text::Span;

// A value that fits 64 bits.
fn kept(value: i128, span: Span) -> Result<i64, Stop>
    ensures { IsExpanded (λ v. v) result (values.kept value span) }
{
    if i128::from(i64::MIN) <= value && value <= i128::from(i64::MAX) {
        Ok(value as i64)
    } else {
        Err(fault(FaultKind::ValueTooLarge, span))
    }
}

// The product of two values.
#[tactic(auto, using(crate::proofs::Values::fits_true, crate::proofs::Values::fits_false))]
fn multiplied(left: i64, right: i64, span: Span) -> Result<i64, Stop>
    ensures { IsExpanded (λ v. v) result (values.kept (left *ℤ right) span) }
{
    match left.checked_mul(right) {
        Some(product) => Ok(product),
        None => Err(fault(FaultKind::ValueTooLarge, span)),
    }
}

// The remainder from 0 to the modulus less 1.
fn remainder(value: i64, modulus: i64, span: Span) -> Result<i64, Stop>
    ensures { IsExpanded (λ v. v) result (values.remainder value modulus span) }
{
    if modulus < 1 {
        return Err(fault(FaultKind::BadModulus, span));
    }
    Ok(value.rem_euclid(modulus))
}

// What an operator makes of two values.
fn operated(left: i64, operator: Operator, span: Span, right: i64) -> Result<i64, Stop>
    ensures { IsExpanded (λ v. v) result (values.operated left operator span right) }
{
    match operator {
        Operator::Plus => kept(i128::from(left) + i128::from(right), span),
        Operator::Minus => kept(i128::from(left) - i128::from(right), span),
        Operator::Times => multiplied(left, right, span),
        Operator::Mod => remainder(left, right, span),
    }
}

// Counts the steps of operators from the last to the first.
fn count_operators(work: &mut Expander<'_>, links: &[Link]) -> Result<(), Stop>
    ensures { IfErr result IsSpent }
{
    for link in links.iter().rev() {
        work.step(link.span)?;
    }
    Ok(())
}

// The value of a word of an expression.
fn number(work: &mut Expander<'_>, value: i128, span: Span) -> Result<i64, Stop>
    ensures { IsExpanded (λ v. v) result (values.kept value span) }
{
    work.step(span)?;
    kept(value, span)
}

// The value that a name stands for.
fn named(scope: &Scope<'_, '_>, work: &mut Expander<'_>, name: &RawName) -> Result<i64, Stop>
    ensures { IsExpanded (λ v. v) result (scopes.number_of (scope_of scope.now) name.now) }
{
    work.step(name.span)?;
    scope.value(name)
}

// The value of an expression less than 0 by its sign.
#[cycle(values)]
fn negated(
    scope: &Scope<'_, '_>,
    work: &mut Expander<'_>,
    inner: &Expr,
    span: Span,
) -> Result<i64, Stop>
    ensures { IsExpanded (λ v. v) result (values.value_of (scope_of scope.now)
        (Minus (expression_of inner.now) span)) }
{
    work.step(span)?;
    let value = value(scope, work, inner)?;
    kept(-i128::from(value), span)
}

// The value after operators, from the left.
#[cycle(values)]
fn chained(
    scope: &Scope<'_, '_>,
    work: &mut Expander<'_>,
    first: i64,
    links: &[Link],
) -> Result<i64, Stop>
    ensures { IsExpanded (λ v. v) result (values.chained (scope_of scope.now) first
        (linked (map operated_of links.now))) }
{
    let mut all = first;
    for link in links {
        let right = value(scope, work, &link.operand)?;
        all = operated(all, link.operator, link.span, right)?;
    }
    Ok(all)
}

/// The value of an expression.
#[cycle(values)]
pub(crate) fn value(
    scope: &Scope<'_, '_>,
    work: &mut Expander<'_>,
    expr: &Expr,
) -> Result<i64, Stop>
    ensures { IsExpanded (λ v. v) result (values.value_of (scope_of scope.now)
        (expression_of expr.now)) }
{
    match expr {
        Expr::Number(n, span) => number(work, i128::from(*n), *span),
        Expr::Negative(n, span) => number(work, -i128::from(*n), *span),
        Expr::Name(name) => named(scope, work, name),
        Expr::Minus(inner, span) => negated(scope, work, inner, *span),
        Expr::Chain(first, links) => {
            count_operators(work, links)?;
            let first = value(scope, work, first)?;
            chained(scope, work, first, links)
        }
    }
}

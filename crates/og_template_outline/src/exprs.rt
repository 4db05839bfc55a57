//! The names of expressions, ranges and sums.

use crate::details::{Kind, Wanted};
use crate::scope::{NameError, Scope, wrong_kind};
use og_template::{Binder, Bounds, Expr, Factor, Sum, Term, TermKind};

/// Asks the names of an expression.
pub(crate) fn check_expr(scope: &Scope<'_>, expr: &Expr) -> Result<(), NameError> {
    match expr {
        Expr::Number(_, _) | Expr::Negative(_, _) => Ok(()),
        Expr::Name(name) => scope.expect(name, Wanted::Value),
        Expr::Minus(inner, _) => check_expr(scope, inner),
        Expr::Chain(first, links) => {
            check_expr(scope, first)?;
            for link in links {
                check_expr(scope, &link.operand)?;
            }
            Ok(())
        }
    }
}

/// Asks the names of expressions.
pub(crate) fn check_exprs(scope: &Scope<'_>, all: &[Expr]) -> Result<(), NameError> {
    for expr in all {
        check_expr(scope, expr)?;
    }
    Ok(())
}

/// Asks the names of a range.
pub(crate) fn check_bounds(scope: &Scope<'_>, bounds: &Bounds) -> Result<(), NameError> {
    check_expr(scope, &bounds.low)?;
    check_expr(scope, &bounds.high)
}

/// Asks the names of a binder, and brings its name into scope.
pub(crate) fn enter_binder<'a>(scope: &mut Scope<'a>, binder: &'a Binder) -> Result<(), NameError> {
    scope.absent(&binder.name)?;
    check_bounds(scope, &binder.range)?;
    scope.enter(&binder.name, Kind::Value)?;
    for test in &binder.tests {
        check_expr(scope, &test.left)?;
        check_expr(scope, &test.right)?;
    }
    Ok(())
}

// Asks the names of a factor.
fn check_factor(scope: &Scope<'_>, factor: &Factor) -> Result<(), NameError> {
    match factor {
        Factor::Number(_) => Ok(()),
        Factor::Value(expr) => check_expr(scope, expr),
        Factor::Name(name) => scope.expect(name, Wanted::Factor),
        Factor::Element(name, index) => {
            scope.expect(name, Wanted::Family)?;
            check_expr(scope, index)
        }
        Factor::Use(name, _) => Err(wrong_kind(name, scope.kind(name)?, Wanted::Factor)),
    }
}

// Asks the names of a factor left of a `*`: it is a number.
fn check_multiplier(scope: &Scope<'_>, factor: &Factor) -> Result<(), NameError> {
    match factor {
        Factor::Number(_) => Ok(()),
        Factor::Value(expr) => check_expr(scope, expr),
        Factor::Name(name) => scope.expect(name, Wanted::Multiplier),
        Factor::Element(name, _) | Factor::Use(name, _) => {
            Err(wrong_kind(name, scope.kind(name)?, Wanted::Multiplier))
        }
    }
}

#[cycle(terms)]
fn check_term<'a>(scope: &mut Scope<'a>, term: &'a Term) -> Result<(), NameError> {
    match &term.kind {
        TermKind::Factor(factor) => check_factor(scope, factor),
        TermKind::Product(left, right) => {
            check_multiplier(scope, left)?;
            check_factor(scope, right)
        }
        TermKind::Total(binder, terms) => {
            let len = scope.len();
            enter_binder(scope, binder)?;
            check_terms(scope, terms)?;
            scope.leave(len);
            Ok(())
        }
    }
}

#[cycle(terms)]
fn check_terms<'a>(scope: &mut Scope<'a>, terms: &'a [Term]) -> Result<(), NameError> {
    for term in terms {
        check_term(scope, term)?;
    }
    Ok(())
}

/// Asks the names of a sum.
pub(crate) fn check_sum<'a>(scope: &mut Scope<'a>, sum: &'a Sum) -> Result<(), NameError> {
    check_terms(scope, &sum.terms)
}

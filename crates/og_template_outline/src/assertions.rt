//! The names of assertions.

use crate::details::{Kind, Wanted};
use crate::exprs::{check_exprs, check_sum, enter_binder};
use crate::scope::{NameError, Scope, wrong_count, wrong_kind};
use og_parse::RawName;
use og_template::{Assertion, Binder, Conjunction, Disjunction, Expr, Unit};

// Asks the names of the use of a named assertion.
fn check_use(scope: &Scope<'_>, name: &RawName, arguments: &[Expr]) -> Result<(), NameError> {
    match scope.kind(name)? {
        Kind::Named(count) if count == arguments.len() => check_exprs(scope, arguments),
        Kind::Named(count) => Err(wrong_count(name, count, arguments.len())),
        other => Err(wrong_kind(name, other, Wanted::Named)),
    }
}

#[cycle(assertions)]
fn check_quantified<'a>(
    scope: &mut Scope<'a>,
    binder: &'a Binder,
    inner: &'a Unit,
) -> Result<(), NameError> {
    let len = scope.len();
    enter_binder(scope, binder)?;
    check_unit(scope, inner)?;
    scope.leave(len);
    Ok(())
}

#[cycle(assertions)]
fn check_unit<'a>(scope: &mut Scope<'a>, unit: &'a Unit) -> Result<(), NameError> {
    match unit {
        Unit::True(_) | Unit::False(_) => Ok(()),
        Unit::Compare(left, _, right) => {
            check_sum(scope, left)?;
            check_sum(scope, right)
        }
        Unit::Use(name, arguments) => check_use(scope, name, arguments),
        Unit::Not(_, inner) => check_unit(scope, inner),
        Unit::Group(_, inner) => check_assertion(scope, inner),
        Unit::All(_, binder, inner) | Unit::Any(_, binder, inner) => {
            check_quantified(scope, binder, inner)
        }
    }
}

#[cycle(assertions)]
fn check_conjunction<'a>(
    scope: &mut Scope<'a>,
    conjunction: &'a Conjunction,
) -> Result<(), NameError> {
    for unit in &conjunction.parts {
        check_unit(scope, unit)?;
    }
    Ok(())
}

#[cycle(assertions)]
fn check_disjunction<'a>(
    scope: &mut Scope<'a>,
    disjunction: &'a Disjunction,
) -> Result<(), NameError> {
    for conjunction in &disjunction.parts {
        check_conjunction(scope, conjunction)?;
    }
    Ok(())
}

/// Asks the names of an assertion.
#[cycle(assertions)]
pub(crate) fn check_assertion<'a>(
    scope: &mut Scope<'a>,
    assertion: &'a Assertion,
) -> Result<(), NameError> {
    check_disjunction(scope, &assertion.left)?;
    match &assertion.implied {
        Some((_, right)) => check_assertion(scope, right),
        None => Ok(()),
    }
}

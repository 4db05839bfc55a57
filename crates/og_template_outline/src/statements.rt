//! The names of statements.

use crate::assertions::check_assertion;
use crate::details::Wanted;
use crate::exprs::{check_expr, check_sum, enter_binder};
use crate::scope::{NameError, Scope};
use og_parse::RawName;
use og_template::{Basic, Element, Expr, Sequence, Statement, Step};

// Asks the names of the assigned variables.
fn check_target(scope: &Scope<'_>, name: &RawName, index: &Option<Expr>) -> Result<(), NameError> {
    match index {
        None => scope.expect(name, Wanted::Variable),
        Some(index) => {
            scope.expect(name, Wanted::Family)?;
            check_expr(scope, index)
        }
    }
}

fn check_basic<'a>(scope: &mut Scope<'a>, basic: &'a Basic) -> Result<(), NameError> {
    match basic {
        Basic::Skip => Ok(()),
        Basic::Assign(name, index, sum) => {
            check_target(scope, name, index)?;
            check_sum(scope, sum)
        }
    }
}

fn check_element<'a>(scope: &mut Scope<'a>, element: &'a Element) -> Result<(), NameError> {
    let len = scope.len();
    if let Some(binder) = &element.binder {
        enter_binder(scope, binder)?;
    }
    check_basic(scope, &element.basic)?;
    scope.leave(len);
    Ok(())
}

fn check_elements<'a>(scope: &mut Scope<'a>, all: &'a [Element]) -> Result<(), NameError> {
    for element in all {
        check_element(scope, element)?;
    }
    Ok(())
}

#[cycle(statements)]
fn check_other<'a>(scope: &mut Scope<'a>, other: &'a Option<Sequence>) -> Result<(), NameError> {
    match other {
        Some(sequence) => check_sequence(scope, sequence),
        None => Ok(()),
    }
}

#[cycle(statements)]
fn check_statement<'a>(scope: &mut Scope<'a>, statement: &'a Statement) -> Result<(), NameError> {
    match statement {
        Statement::Basic(basic) => check_basic(scope, basic),
        Statement::If(test, branch, other) => {
            check_assertion(scope, test)?;
            check_sequence(scope, branch)?;
            check_other(scope, other)
        }
        Statement::While(test, body) => {
            check_assertion(scope, test)?;
            check_sequence(scope, body)
        }
        Statement::Await(guard, body) => {
            check_assertion(scope, guard)?;
            check_elements(scope, body)
        }
    }
}

#[cycle(statements)]
fn check_step<'a>(scope: &mut Scope<'a>, step: &'a Step) -> Result<(), NameError> {
    match step {
        Step::Statement(statement, _, after) => {
            check_statement(scope, statement)?;
            check_assertion(scope, &after.assertion)
        }
        Step::For(binder, steps) => {
            let len = scope.len();
            enter_binder(scope, binder)?;
            check_steps(scope, steps)?;
            scope.leave(len);
            Ok(())
        }
    }
}

#[cycle(statements)]
fn check_steps<'a>(scope: &mut Scope<'a>, steps: &'a [Step]) -> Result<(), NameError> {
    for step in steps {
        check_step(scope, step)?;
    }
    Ok(())
}

/// Asks the names of a sequence.
#[cycle(statements)]
pub(crate) fn check_sequence<'a>(
    scope: &mut Scope<'a>,
    sequence: &'a Sequence,
) -> Result<(), NameError> {
    check_assertion(scope, &sequence.before.assertion)?;
    check_steps(scope, &sequence.steps)
}

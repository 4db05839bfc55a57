//! The names of a template.

use crate::assertions::check_assertion;
use crate::details::{Kind, NameDetail};
use crate::exprs::{check_bounds, check_expr, enter_binder};
use crate::scope::{NameError, Scope, declared_before};
use crate::statements::check_sequence;
use og_parse::RawName;
use og_template::{
    Auxiliary, Bounds, Constant, Named, Process, Sequence, Template, TemplateError, Variable,
};
use std::alloc::{AllocError, Global};

fn declare_constants<'a>(
    scope: &mut Scope<'a>,
    constants: &'a [Constant],
) -> Result<(), NameError> {
    for constant in constants {
        scope.absent(&constant.name)?;
        check_expr(scope, &constant.value)?;
        scope.enter(&constant.name, Kind::Value)?;
    }
    Ok(())
}

// Asks the names of a family's range; the kind that it gives.
fn kind_of(scope: &Scope<'_>, family: &Option<Bounds>) -> Result<Kind, NameError> {
    match family {
        Some(bounds) => {
            check_bounds(scope, bounds)?;
            Ok(Kind::Family)
        }
        None => Ok(Kind::Variable),
    }
}

fn declare_variables<'a>(
    scope: &mut Scope<'a>,
    variables: &'a [Variable],
) -> Result<(), NameError> {
    for variable in variables {
        scope.free(&variable.name)?;
        let kind = kind_of(scope, &variable.family)?;
        scope.enter(&variable.name, kind)?;
    }
    Ok(())
}

fn declare_auxiliaries<'a>(
    scope: &mut Scope<'a>,
    auxiliaries: &'a [Auxiliary],
) -> Result<(), NameError> {
    for auxiliary in auxiliaries {
        scope.free(&auxiliary.name)?;
        let kind = kind_of(scope, &auxiliary.family)?;
        check_expr(scope, &auxiliary.value)?;
        scope.enter(&auxiliary.name, kind)?;
    }
    Ok(())
}

// Brings the parameters of a named assertion into scope.
fn enter_parameters<'a>(
    scope: &mut Scope<'a>,
    name: &RawName,
    parameters: &'a [RawName],
) -> Result<(), NameError> {
    for parameter in parameters {
        scope.absent(parameter)?;
        if parameter.name.as_slice() == name.name.as_slice() {
            return Err(declared_before(parameter, name.span.start));
        }
        scope.enter(parameter, Kind::Value)?;
    }
    Ok(())
}

fn declare_named<'a>(scope: &mut Scope<'a>, all: &'a [Named]) -> Result<(), NameError> {
    for named in all {
        scope.absent(&named.name)?;
        let len = scope.len();
        enter_parameters(scope, &named.name, &named.parameters)?;
        check_assertion(scope, &named.assertion)?;
        scope.leave(len);
        scope.enter(&named.name, Kind::Named(named.parameters.len()))?;
    }
    Ok(())
}

fn check_main<'a>(scope: &mut Scope<'a>, main: &'a Option<Sequence>) -> Result<(), NameError> {
    match main {
        Some(sequence) => check_sequence(scope, sequence),
        None => Ok(()),
    }
}

fn check_process<'a>(scope: &mut Scope<'a>, process: &'a Process) -> Result<(), NameError> {
    let len = scope.len();
    if let Some(binder) = &process.binder {
        enter_binder(scope, binder)?;
    }
    check_sequence(scope, &process.body)?;
    scope.leave(len);
    Ok(())
}

fn check_processes<'a>(scope: &mut Scope<'a>, processes: &'a [Process]) -> Result<(), NameError> {
    for process in processes {
        check_process(scope, process)?;
    }
    Ok(())
}

// Takes the declarations of a template.
fn declare<'a>(scope: &mut Scope<'a>, template: &'a Template) -> Result<(), NameError> {
    declare_constants(scope, &template.constants)?;
    declare_variables(scope, &template.variables)?;
    declare_auxiliaries(scope, &template.auxiliaries)?;
    declare_named(scope, &template.named)
}

// Asks the names behind the declarations.
fn check_program<'a>(scope: &mut Scope<'a>, template: &'a Template) -> Result<(), NameError> {
    check_assertion(scope, &template.pre.assertion)?;
    check_main(scope, &template.prologue)?;
    check_processes(scope, &template.processes)?;
    check_main(scope, &template.epilogue)?;
    check_assertion(scope, &template.post.assertion)
}

// Asks the names of a template.
fn check_template(alloc: Global, template: &Template) -> Result<(), NameError> {
    let mut scope = Scope::new(alloc);
    declare(&mut scope, template)?;
    check_program(&mut scope, template)
}

/// Asks that each name of a template is declared once before it is used, and used as what it is.
///
/// # Errors
///
/// `Fault`, the first in the order of the text, at the name: `Undeclared`, `DeclaredTwice`,
/// `ReservedName`, `WrongKind` or `WrongCount`. `Memory` where an allocation was refused.
pub fn check_names(alloc: Global, template: &Template) -> Result<(), TemplateError> {
    Ok(check_template(alloc, template)?)
}

/// What more is known of the fault of [`check_names`], where it has one.
///
/// # Errors
///
/// An allocation was refused.
pub(crate) fn name_detail(
    alloc: Global,
    template: &Template,
) -> Result<Option<NameDetail>, AllocError> {
    match check_template(alloc, template) {
        Ok(()) => Ok(None),
        Err(NameError::Memory) => Err(AllocError),
        Err(NameError::Fault(_, detail)) => Ok(detail),
    }
}

//! What a template declares.

ghost use Rattle.std.specs.Prelude.{◌≡◌, [], ◌∷◌, map, option_map, IfOk};
ghost use Rattle.og_template_expand.specs.Outline as meaning;
ghost use Rattle.og_template_expand.specs.Scoped.{IsExpanded, binding_of, range_of, meaning_of, names_of};
ghost use Rattle.og_template_expand.specs.TreeOf.{bounds_of, definition_of, expression_of};
ghost use Rattle.og_template_expand.specs.WholeOf.{constant_of, variable_of, auxiliary_of};

use crate::binders::{numbers, range};
use crate::expander::{Expander, element_name, same_name};
use crate::exprs::value;
use crate::fault::Stop;
use crate::origin::Binding;
use crate::range::Range;
use crate::scope::{Meaning, Names, Scope};
use crate::sums::parts;
use og_parse::{RawAux, RawInt, RawName};
use og_template::{Auxiliary, Bounds, Constant, Named, Variable};
use std::alloc::{AllocError, Global};

// The value that is given to a name, if one is.
fn given(values: &[Binding<'_>], name: &[u8]) -> Option<i64>
    ensures { result ≡ meaning.given_to name.now (map binding_of values.now) }
{
    for binding in values {
        if binding.name == name {
            return Some(binding.value);
        }
    }
    None
}

// The value of a constant.
fn constant(
    names: &Names<'_>,
    work: &mut Expander<'_>,
    values: &[Binding<'_>],
    constant: &Constant,
) -> Result<i64, Stop>
    ensures { IsExpanded (λ v. v) result (meaning.constant_as
        (meaning.given_to constant.now.name.name (map binding_of values.now)) (names_of names.now)
        (expression_of constant.now.value)) }
{
    match given(values, constant.name.name.as_slice()) {
        Some(value) => Ok(value),
        None => value(&Scope::new(work.alloc, names), work, &constant.value),
    }
}

/// Declares constants with the values that are given, and else their own.
pub(crate) fn declare_constants<'a>(
    names: &mut Names<'a>,
    work: &mut Expander<'_>,
    values: &[Binding<'_>],
    constants: &'a [Constant],
) -> Result<(), Stop>
    ensures { IsExpanded (λ _. names_of names.new) result
        (meaning.constants_in (map binding_of values.now) (names_of names.old)
        (map constant_of constants.now)) }
{
    for declared in constants {
        let value = constant(names, work, values, declared)?;
        names.declare(&declared.name, Meaning::Value(value))?;
    }
    Ok(())
}

// The names of the elements of a family.
fn elements(work: &mut Expander<'_>, family: &RawName, range: Range) -> Result<Vec<RawName>, Stop>
    ensures { IsExpanded (λ v. v.items) result (meaning.elements_of family.now (range_of range)) }
{
    let values = numbers(work.alloc, range)?;
    let mut all = Vec::new(work.alloc);
    for index in &values {
        work.step(family.span)?;
        all.push(element_name(work.alloc, family, *index)?)?;
    }
    Ok(all)
}

// The name of a variable alone.
fn alone(work: &Expander<'_>, name: &RawName) -> Result<Vec<RawName>, AllocError>
    ensures { IfOk result (λ v. v.items ≡ name.now ∷ []) }
{
    let mut all = Vec::new(work.alloc);
    all.push(same_name(work.alloc, name)?)?;
    Ok(all)
}

// The names of the variables that a name declares, and what it stands for.
fn variables_of<'a>(
    names: &Names<'_>,
    work: &mut Expander<'_>,
    name: &RawName,
    family: &Option<Bounds>,
) -> Result<(Vec<RawName>, Meaning<'a>), Stop>
    ensures { IsExpanded (λ p. (p.0.items, meaning_of p.1)) result
        (meaning.variables_of (names_of names.now) name.now (option_map bounds_of family.now)) }
{
    work.step(name.span)?;
    match family {
        None => Ok((alone(work, name)?, Meaning::Variable)),
        Some(bounds) => {
            let range = range(&Scope::new(work.alloc, names), work, bounds)?;
            Ok((elements(work, name, range)?, Meaning::Family(range)))
        }
    }
}

/// Declares variables and families; the names of the variables.
pub(crate) fn declare_variables<'a>(
    names: &mut Names<'a>,
    work: &mut Expander<'_>,
    variables: &'a [Variable],
) -> Result<Vec<RawName>, Stop>
    ensures { IsExpanded (λ v. (names_of names.new, v.items)) result
        (meaning.variables_in (names_of names.old) (map variable_of variables.now)) }
{
    let mut all = Vec::new(work.alloc);
    for variable in variables {
        let (mut own, means) = variables_of(names, work, &variable.name, &variable.family)?;
        names.declare(&variable.name, means)?;
        all.append(&mut own)?;
    }
    Ok(all)
}

// Auxiliary variables of these names with one value.
fn with_value(alloc: Global, names: &[RawName], value: i64) -> Result<Vec<RawAux>, AllocError>
    ensures { IfOk result (λ v. v.items ≡ map (meaning.auxiliary value) names.now) }
{
    let (sign, number) = parts(value);
    let mut all = Vec::new(alloc);
    for name in names {
        let span = name.span;
        let value = RawInt { sign, number, span };
        let name = same_name(alloc, name)?;
        all.push(RawAux { name, value })?;
    }
    Ok(all)
}

/// Declares auxiliary variables and families of them; the variables with their values.
pub(crate) fn declare_auxiliaries<'a>(
    names: &mut Names<'a>,
    work: &mut Expander<'_>,
    auxiliaries: &'a [Auxiliary],
) -> Result<Vec<RawAux>, Stop>
    ensures { IsExpanded (λ v. (names_of names.new, v.items)) result
        (meaning.auxiliaries_in (names_of names.old) (map auxiliary_of auxiliaries.now)) }
{
    let mut all = Vec::new(work.alloc);
    for auxiliary in auxiliaries {
        let (own, means) = variables_of(names, work, &auxiliary.name, &auxiliary.family)?;
        let value = value(&Scope::new(work.alloc, names), work, &auxiliary.value)?;
        let mut own = with_value(work.alloc, &own, value)?;
        names.declare(&auxiliary.name, means)?;
        all.append(&mut own)?;
    }
    Ok(all)
}

/// Declares named assertions.
pub(crate) fn declare_named<'a>(names: &mut Names<'a>, all: &'a [Named]) -> Result<(), Stop>
    ensures { IsExpanded (λ _. names_of names.new) result
        (Ok (meaning.named_in (names_of names.old) (map definition_of all.now))) }
{
    for named in all {
        names.declare(&named.name, Meaning::Named(named))?;
    }
    Ok(())
}

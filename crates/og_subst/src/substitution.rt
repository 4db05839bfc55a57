//! Assertions that speak, before an action, of the state after it and of the values in it.

ghost use Rattle.std.specs.Prelude.{◌≡◌, ℤ, List, map, IfOk};
ghost use Rattle.og_linear.specs.Answer.{IsAnswer};
ghost use Rattle.og_linear.specs.declared.fault.FormFault.TheVariants as faults;
ghost use Rattle.og_typed.specs.Plain.{formula};
ghost use Rattle.og_typed.specs.Lists.{formula_list};
ghost use Rattle.og_typed.specs.Truth.{truth};
ghost use Rattle.og_typed.specs.Machine.{act, all_fit};
ghost use Rattle.og_subst.specs.Actions.{action_body};
ghost use Rattle.og_subst.specs.Subst as subst;

use crate::action::Action;
use og_linear::{Form, FormError, Map};
use og_typed::Assert;
use std::alloc::Global;

// The assertion with these forms in place of the variables.
#[cycle(mapping)]
fn mapped(alloc: Global, forms: &Map, a: &Assert) -> Result<Assert, FormError>
    ensures { IsAnswer formula faults.TooLarge result (subst.after forms.now (formula a.now)) }
{
    match a {
        Assert::True => Ok(Assert::True),
        Assert::False => Ok(Assert::False),
        Assert::Le(f) => Ok(Assert::Le(f.apply(forms)?)),
        Assert::Eq(f) => Ok(Assert::Eq(f.apply(forms)?)),
        Assert::Ne(f) => Ok(Assert::Ne(f.apply(forms)?)),
        Assert::Not(a) => {
            let a = mapped(alloc, forms, a)?;
            Ok(Assert::Not(Box::new(alloc, a)?))
        }
        Assert::And(all) => Ok(Assert::And(all_mapped(alloc, forms, all)?)),
        Assert::Or(all) => Ok(Assert::Or(all_mapped(alloc, forms, all)?)),
        Assert::Imp(a, b) => {
            let a = mapped(alloc, forms, a)?;
            let b = mapped(alloc, forms, b)?;
            Ok(Assert::Imp(Box::new(alloc, a)?, Box::new(alloc, b)?))
        }
    }
}

#[cycle(mapping)]
fn all_mapped(alloc: Global, forms: &Map, all: &[Assert]) -> Result<Vec<Assert>, FormError>
    ensures { IsAnswer (λ v. formula_list (map formula v.items)) faults.TooLarge result
        (subst.after_all forms.now (formula_list (map formula all.now))) }
{
    let mut out = Vec::new(alloc);
    for a in all {
        out.push(mapped(alloc, forms, a)?)?;
    }
    Ok(out)
}

/// The assertion that is true before the action exactly where `a` is true after it: each form
/// under the action's map.
///
/// `TooLarge` where a step of this arithmetic, or of the map's, leaves `i128`.
pub fn after(alloc: Global, action: &Action, a: &Assert) -> Result<Assert, FormError>
    ensures answer { IsAnswer formula faults.TooLarge result
        (subst.after_action (action_body action.now) (formula a.now)) }
    ensures truth { IfOk result (λ b. (s : List ℤ)
        → truth (formula b) s ≡ truth (formula a.now) (act (action_body action.now) s)) }
{
    let forms = action.map(alloc)?;
    mapped(alloc, &forms, a)
}

// -v - 2^63, at most 0 where the value v is no less than the least i64.
fn low(alloc: Global, value: &Form) -> Result<Form, FormError>
    ensures { IsAnswer (λ f. f) faults.TooLarge result (subst.low value.now) }
{
    let mut low = Form::constant(alloc, -9_223_372_036_854_775_808);
    low.add_scaled(-1, value)?;
    Ok(low)
}

// v - (2^63 - 1), at most 0 where the value v is no greater than the greatest i64.
fn high(alloc: Global, value: &Form) -> Result<Form, FormError>
    ensures { IsAnswer (λ f. f) faults.TooLarge result (subst.high value.now) }
{
    let mut high = Form::constant(alloc, -9_223_372_036_854_775_807);
    high.add_scaled(1, value)?;
    Ok(high)
}

// The two relations of each value, in order.
fn ranges(alloc: Global, values: &[Form]) -> Result<Vec<Assert>, FormError>
    ensures { IsAnswer (λ v. formula_list (map formula v.items)) faults.TooLarge result
        (subst.ranges values.now) }
{
    let mut out = Vec::new(alloc);
    for value in values {
        out.push(Assert::Le(low(alloc, value)?))?;
        out.push(Assert::Le(high(alloc, value)?))?;
    }
    Ok(out)
}

/// That each value of the action, in order, is an `i64`: for a value v, as a form before the
/// action, that `-v - 9223372036854775808` and `v - 9223372036854775807` are at most 0.
///
/// `TooLarge` where a step of this arithmetic, or of the map's, leaves `i128`; also where `-v`
/// alone does.
pub fn fits(alloc: Global, action: &Action) -> Result<Assert, FormError>
    ensures answer { IsAnswer formula faults.TooLarge result (subst.fits (action_body action.now)) }
    ensures truth { IfOk result (λ b. (s : List ℤ)
        → truth (formula b) s ≡ all_fit (action_body action.now) s) }
{
    let prepared = action.prepare(alloc)?;
    Ok(Assert::And(ranges(alloc, prepared.values())?))
}

//! Collecting the forms of sums and comparisons.

ghost use Rattle.std.specs.Prelude.{◌≡◌, ℕ, ◌+◌, ◌≤◌, ◌^◌, ℤ, pos, nat_abs, true, [], ◌∷◌, IfOk, IfErr, OnOk, length};
ghost use Rattle.og_linear.specs.Linear.{form_value, is_small};
ghost use Rattle.og_linear.specs.Arith.{scaled, plus};
ghost use Rattle.og_linear.specs.Bounded.{fits_form};
ghost use Rattle.og_parse.specs.TreeOf.{sum_of};
ghost use Rattle.og_typed.specs.declared.fault.TypeError.TheVariants as errors;
ghost use Rattle.og_typed.specs.Answer.{IsResolved};
ghost use Rattle.og_typed.specs.Bounds.{IsWithin};
ghost use Rattle.og_typed.specs.Plain.{formula};
ghost use Rattle.og_typed.specs.Syntax.{Le};
ghost use Rattle.og_typed.specs.Resolved.{Use as UseOf};
ghost use Rattle.og_typed.specs.Resolved as meaning;
ghost use Rattle.og_typed.specs.Scoped.{scope_of, use_of};

use crate::assertion::Assert;
use crate::fault::{TypeError, TypeFault};
use crate::scope::{Scope, Use};
use og_linear::{Form, FormError};
use og_parse::{RawFactor, RawSum, RawTerm, Relation, Sign};
use std::alloc::Global;

// Adds k times a form, which is known to fit.
fn add(sum: &mut Form, k: i128, form: &Form) -> Result<(), TypeError>
    requires product { fits_form (scaled k form.now) ≡ true }
    requires total { fits_form (plus sum.old (scaled k form.now)) ≡ true }
    ensures ok { OnOk result (sum.new ≡ plus sum.old (scaled k form.now)) }
    ensures err { IfErr result (λ e. e ≡ errors.Memory) }
{
    match sum.add_scaled(k, form) {
        Ok(()) => Ok(()),
        Err(FormError::Memory) => Err(TypeError::Memory),
        Err(FormError::Fault(_)) => unreachable!(),
    }
}

fn signed(sign: Sign, number: u64) -> i128
    ensures value { result ≡ meaning.signed sign (pos number) }
    ensures small { nat_abs result ≤ 2 ^ 64 }
{
    match sign {
        Sign::Plus => i128::from(number),
        Sign::Minus => -i128::from(number),
    }
}

// A number, and the form that it counts: 1 or a variable.
fn factor(scope: &Scope<'_>, usage: Use, factor: &RawFactor) -> Result<(u64, Form), TypeError>
    ensures answer { IsResolved (λ p. p) result
        (meaning.factor (scope_of scope.now) (use_of usage) factor.now) }
    ensures small { IfOk result (λ p. IsWithin 1 p.1) }
{
    match factor {
        RawFactor::Number(n) => Ok((*n, Form::constant(scope.alloc, 1))),
        RawFactor::Variable(name) => {
            let x = scope.number(usage, name)?;
            Ok((1, Form::variable(scope.alloc, x)?))
        }
        RawFactor::Product(n, name) => {
            let x = scope.number(usage, name)?;
            Ok((*n, Form::variable(scope.alloc, x)?))
        }
    }
}

// Adds a term to a sum.
fn add_term(scope: &Scope<'_>, usage: Use, sum: &mut Form, term: &RawTerm) -> Result<(), TypeError>
    requires { IsWithin (2 ^ 124) sum.old }
    ensures answer { IsResolved (λ _. sum.new) result
        (meaning.sum_from (scope_of scope.now) (use_of usage) sum.old (term.now ∷ [])) }
    ensures small { (bound : ℕ) → IsWithin bound sum.old
        → OnOk result (IsWithin (bound + 2 ^ 64) sum.new) }
{
    let (number, base) = factor(scope, usage, &term.factor)?;
    add(sum, signed(term.sign, number), &base)
}

// The collected form of a sum.
fn sum(scope: &Scope<'_>, usage: Use, sum: &RawSum) -> Result<Form, TypeError>
    ensures answer { IsResolved (λ f. f) result
        (meaning.sum_form (scope_of scope.now) (use_of usage) (sum_of sum.now)) }
    ensures small { IfOk result (IsWithin (2 ^ 124)) }
{
    let mut total = Form::constant(scope.alloc, 0);
    for term in &sum.terms {
        add_term(scope, usage, &mut total, term)?;
    }
    Ok(total)
}

fn minus(mut f: Form, g: &Form) -> Result<Form, TypeError>
    requires left { IsWithin (2 ^ 124) f }
    requires right { IsWithin (2 ^ 124) g.now }
    ensures ok { IfOk result (λ d. d ≡ meaning.minus f g.now) }
    ensures small { IfOk result (IsWithin (2 ^ 125)) }
    ensures err { IfErr result (λ e. e ≡ errors.Memory) }
{
    add(&mut f, -1, g)?;
    Ok(f)
}

fn plus_one(alloc: Global, mut f: Form) -> Result<Form, TypeError>
    requires { IsWithin (2 ^ 125) f }
    ensures ok { IfOk result (λ d. d ≡ meaning.plus_one f) }
    ensures err { IfErr result (λ e. e ≡ errors.Memory) }
{
    add(&mut f, 1, &Form::constant(alloc, 1))?;
    Ok(f)
}

// That f is at most g.
fn at_most(f: Form, g: &Form) -> Result<Assert, TypeError>
    requires left { IsWithin (2 ^ 124) f }
    requires right { IsWithin (2 ^ 124) g.now }
    ensures ok { IfOk result (λ a. formula a ≡ Le (meaning.minus f g.now)) }
    ensures err { IfErr result (λ e. e ≡ errors.Memory) }
{
    Ok(Assert::Le(minus(f, g)?))
}

// That f is less than g.
fn less(alloc: Global, f: Form, g: &Form) -> Result<Assert, TypeError>
    requires left { IsWithin (2 ^ 124) f }
    requires right { IsWithin (2 ^ 124) g.now }
    ensures ok { IfOk result (λ a. formula a ≡ Le (meaning.plus_one (meaning.minus f g.now))) }
    ensures err { IfErr result (λ e. e ≡ errors.Memory) }
{
    Ok(Assert::Le(plus_one(alloc, minus(f, g)?)?))
}

// Two forms compared, as one form that is compared with 0.
fn compared(alloc: Global, relation: Relation, f: Form, g: Form) -> Result<Assert, TypeError>
    requires left { IsWithin (2 ^ 124) f }
    requires right { IsWithin (2 ^ 124) g }
    ensures ok { IfOk result (λ a. formula a ≡ meaning.compared relation f g) }
    ensures err { IfErr result (λ e. e ≡ errors.Memory) }
{
    match relation {
        Relation::LessEqual => at_most(f, &g),
        Relation::Less => less(alloc, f, &g),
        Relation::GreaterEqual => at_most(g, &f),
        Relation::Greater => less(alloc, g, &f),
        Relation::Equal => Ok(Assert::Eq(minus(f, &g)?)),
        Relation::NotEqual => Ok(Assert::Ne(minus(f, &g)?)),
    }
}

// The assertion that compares two sums.
pub(crate) fn comparison(
    scope: &Scope<'_>,
    usage: Use,
    left: &RawSum,
    relation: Relation,
    right: &RawSum,
) -> Result<Assert, TypeError>
    ensures { IsResolved formula result (meaning.comparison (scope_of scope.now) (use_of usage)
        (sum_of left.now) relation (sum_of right.now)) }
{
    let f = sum(scope, usage, left)?;
    let g = sum(scope, usage, right)?;
    let assert = compared(scope.alloc, relation, f, g)?;
    if assert.is_small() {
        Ok(assert)
    } else {
        Err(TypeError::Fault(TypeFault::CoefficientTooLarge(left.span.start)))
    }
}

// The right side of an assignment to x.
pub(crate) fn right_side(scope: &Scope<'_>, x: u32, right: &RawSum) -> Result<Form, TypeError>
    ensures { IsResolved (λ f. f) result
        (meaning.right_side (scope_of scope.now) x (sum_of right.now)) }
{
    let usage = if x < scope.vars {
        Use::Visible
    } else {
        Use::Free
    };
    let form = sum(scope, usage, right)?;
    if form.is_small() {
        Ok(form)
    } else {
        Err(TypeError::Fault(TypeFault::CoefficientTooLarge(right.span.start)))
    }
}

//! The collected form of an expression, as a tree.

ghost use Rattle.std.specs.Prelude.{◌≡◌, ◌<◌, ◌≤◌, ◌^◌, true, IfOk, length, nat_abs};
ghost use Rattle.og_erase.specs.Collected as collected;
ghost use Rattle.og_linear.specs.Linear.{fits_i64};
ghost use Rattle.og_parse.specs.TreeOf.{sum_of};
ghost use Rattle.og_typed.specs.Rule.{is_usable_form};

use crate::copies::copy_name;
use og_linear::Form;
use og_parse::{RawFactor, RawName, RawSum, RawTerm, Sign};
use og_text::{Name, Span};
use std::alloc::{AllocError, Global};

/// The place of what stands in no source.
pub(crate) const NOWHERE: Span = Span { start: 0, end: 0 };

// A name.
pub(crate) fn named(alloc: Global, name: &Name) -> Result<RawName, AllocError>
    ensures { IfOk result (λ n. n ≡ collected.named name.now) }
{
    Ok(RawName {
        name: copy_name(alloc, name)?,
        span: NOWHERE,
    })
}

// The variable by its name.
pub(crate) fn variable(alloc: Global, names: &[Name], var: u32) -> Result<RawName, AllocError>
    requires { var < length names.now }
    ensures { IfOk result (λ n. n ≡ collected.variable names.now var) }
{
    named(alloc, &names[var as usize])
}

fn sign(c: i128) -> Sign
    ensures { result ≡ collected.sign c }
{
    if c < 0 { Sign::Minus } else { Sign::Plus }
}

// The variable with a factor before it.
fn factor(n: u64, variable: RawName) -> RawFactor
    ensures { result ≡ collected.factor n variable }
{
    if n == 1 {
        RawFactor::Variable(variable)
    } else {
        RawFactor::Product(n, variable)
    }
}

// A variable and its coefficient.
fn term(alloc: Global, names: &[Name], t: (u32, i128)) -> Result<RawTerm, AllocError>
    requires inside { t.0 < length names.now }
    requires small { nat_abs t.1 ≤ 2 ^ 31 }
    ensures { IfOk result (λ r. r ≡ collected.term names.now t) }
{
    let variable = variable(alloc, names, t.0)?;
    Ok(RawTerm {
        sign: sign(t.1),
        factor: factor(t.1.unsigned_abs() as u64, variable),
    })
}

fn number(c: i128) -> RawTerm
    requires { fits_i64 c ≡ true }
    ensures { result ≡ collected.number c }
{
    RawTerm {
        sign: sign(c),
        factor: RawFactor::Number(c.unsigned_abs() as u64),
    }
}

// The constant after the terms, unless it is 0 and there are terms.
fn with_constant(terms: Vec<RawTerm>, c: i128) -> Result<Vec<RawTerm>, AllocError>
    requires { fits_i64 c ≡ true }
    ensures { IfOk result (λ v. v.items ≡ collected.with_constant terms.items c) }
{
    let mut terms = terms;
    if c == 0 && !terms.is_empty() {
        return Ok(terms);
    }
    terms.push(number(c))?;
    Ok(terms)
}

// The terms in the order of the variables, and the constant.
pub(crate) fn sum(alloc: Global, names: &[Name], form: &Form) -> Result<RawSum, AllocError>
    requires { is_usable_form (length names.now) form.now ≡ true }
    ensures { IfOk result (λ s. sum_of s ≡ collected.sum names.now form.now) }
{
    let mut terms = Vec::new(alloc);
    let mut i = 0;
    while let Some(t) = form.term(i) {
        terms.push(term(alloc, names, t)?)?;
        i += 1;
    }
    Ok(RawSum {
        terms: with_constant(terms, form.offset())?,
        span: NOWHERE,
    })
}

// The sum that is 0.
pub(crate) fn zero(alloc: Global) -> Result<RawSum, AllocError>
    ensures { IfOk result (λ s. sum_of s ≡ collected.zero) }
{
    let mut terms = Vec::new(alloc);
    terms.push(number(0))?;
    Ok(RawSum {
        terms,
        span: NOWHERE,
    })
}

//! Arithmetic on lists of terms: rising variables, each with its nonzero coefficient.

ghost use Rattle.std.specs.Prelude.{◌≡◌, ◌++◌, [], ℤ, pos, ◌+ℤ◌, ◌*ℤ◌, ◌≤ℤ◌, ◌^◌, ◌≤◌, nat_abs, nat_le, true, ◌≢◌, IfOk, IfErr, OnOk, OnErr};
ghost use Rattle.std.specs.List.{list_all};
ghost use Rattle.og_linear.specs.Linear.{fits_i64};
ghost use Rattle.og_linear.specs.Arith.{with_term, scale_terms, merge};
ghost use Rattle.og_linear.specs.Bounded.{fits_terms};
ghost use Rattle.og_linear.specs.Bounded as bounded;
ghost use Rattle.og_linear.specs.Replaced as replaced;
ghost use Rattle.og_linear.specs.Answer.{IsAnswer, OnMemory, checked_terms, checked_int, divided_int, divided_terms};
ghost use Rattle.og_linear.specs.declared.fault.FormFault.TheVariants as faults;
ghost use Rattle.og_linear.specs.declared.fault.FormError.TheVariants as errors;

use crate::fault::{FormError, FormFault};
use std::alloc::{AllocError, Global};

pub(crate) fn product_of(k: i128, c: i128) -> Result<i128, FormError>
    ensures answer { IsAnswer (λ x. x) faults.TooLarge result (checked_int (k *ℤ c)) }
    ensures memory { OnMemory result ⊥ }
{
    k.checked_mul(c)
        .ok_or(FormError::Fault(FormFault::TooLarge))
}

pub(crate) fn sum_of(c: i128, d: i128) -> Result<i128, FormError>
    ensures answer { IsAnswer (λ x. x) faults.TooLarge result (checked_int (c +ℤ d)) }
    ensures memory { OnMemory result ⊥ }
{
    c.checked_add(d)
        .ok_or(FormError::Fault(FormFault::TooLarge))
}

// Whether the number is an `i64`.
pub(crate) fn fits_i64(c: i128) -> bool
    ensures { result ≡ fits_i64 c }
{
    i128::from(i64::MIN) <= c && c <= i128::from(i64::MAX)
}

// Whether each coefficient is within the limits of a source.
pub(crate) fn are_small(terms: &[(u32, i128)]) -> bool
    ensures { result ≡ list_all (λ t. nat_le (nat_abs t.1) (2 ^ 31)) terms.now }
{
    terms.iter().all(|t| t.1.unsigned_abs() <= 1 << 31)
}

// The least whole number that is not below c / d.
pub(crate) fn ceil_div(c: i128, d: i128) -> i128
    requires { pos 1 ≤ℤ d }
    ensures { result ≡ bounded.ceil_div c d }
{
    let quotient = c / d;
    if c % d > 0 { quotient + 1 } else { quotient }
}

// A term at the end, unless its coefficient is 0.
pub(crate) fn push_term(terms: &mut Vec<(u32, i128)>, var: u32, c: i128) -> Result<(), FormError>
    ensures added { OnOk result (terms.new.items ≡ terms.old.items ++ with_term var c []) }
    ensures unchanged { OnErr result (terms.new.items ≡ terms.old.items) }
    ensures memory { IfErr result (λ e. e ≡ errors.Memory) }
    ensures asked { OnErr result (c ≢ pos 0) }
{
    if c != 0 {
        terms.push((var, c))?;
    }
    Ok(())
}

// k times each term.
pub(crate) fn multiples(
    alloc: Global,
    k: i128,
    terms: &[(u32, i128)],
) -> Result<Vec<(u32, i128)>, FormError>
    ensures { IsAnswer (λ v. v.items) faults.TooLarge result
        (checked_terms (scale_terms k terms.now)) }
{
    let mut out = Vec::with_capacity(alloc, terms.len())?;
    for t in terms {
        let c = product_of(k, t.1)?;
        push_term(&mut out, t.0, c)?;
    }
    Ok(out)
}

// The terms of a sum.
pub(crate) fn sums(
    alloc: Global,
    a: &[(u32, i128)],
    b: &[(u32, i128)],
) -> Result<Vec<(u32, i128)>, FormError>
    requires a_fits { fits_terms a.now ≡ true }
    requires b_fits { fits_terms b.now ≡ true }
    ensures { IsAnswer (λ v. v.items) faults.TooLarge result (checked_terms (merge a.now b.now)) }
{
    let mut out = Vec::with_capacity(alloc, a.len().saturating_add(b.len()))?;
    let mut i = 0;
    let mut j = 0;
    'both: while i < a.len() && j < b.len() {
        let (x, c) = a[i];
        let (y, d) = b[j];
        if x < y {
            out.push((x, c))?;
            i += 1;
        } else if y < x {
            out.push((y, d))?;
            j += 1;
        } else {
            let e = sum_of(c, d)?;
            push_term(&mut out, x, e)?;
            i += 1;
            j += 1;
        }
    }
    out.extend_from_slice(&a[i..])?;
    out.extend_from_slice(&b[j..])?;
    Ok(out)
}

// c / d, if d divides c.
fn quotient_of(c: i128, d: i128) -> Result<i128, FormError>
    requires { pos 1 ≤ℤ d }
    ensures answer { IsAnswer (λ x. x) faults.NotDivisible result (divided_int d c) }
    ensures memory { OnMemory result ⊥ }
{
    if c % d == 0 {
        Ok(c / d)
    } else {
        Err(FormError::Fault(FormFault::NotDivisible))
    }
}

// Each coefficient divided by d, if d divides it.
pub(crate) fn quotients(
    alloc: Global,
    d: i128,
    terms: &[(u32, i128)],
) -> Result<Vec<(u32, i128)>, FormError>
    requires { pos 1 ≤ℤ d }
    ensures { IsAnswer (λ v. v.items) faults.NotDivisible result (divided_terms d terms.now) }
{
    let mut out = Vec::new(alloc);
    for t in terms {
        let c = quotient_of(t.1, d)?;
        out.push((t.0, c))?;
    }
    Ok(out)
}

// The terms of the other variables.
pub(crate) fn others(
    alloc: Global,
    var: u32,
    terms: &[(u32, i128)],
) -> Result<Vec<(u32, i128)>, AllocError>
    ensures { IfOk result (λ v. v.items ≡ replaced.other_terms var terms.now) }
{
    terms.iter().filter(|t| var != t.0).copied().collect(alloc)
}

// c * v, with a bound on both.
pub(crate) fn weighed(c: i128, v: i64) -> i128
    requires { nat_abs c ≤ 2 ^ 31 }
    ensures value { result ≡ c *ℤ v }
    ensures small { nat_abs result ≤ 2 ^ 94 }
{
    c * i128::from(v)
}

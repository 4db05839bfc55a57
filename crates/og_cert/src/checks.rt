//! Combinations of facts, and the other forms that a line of a certificate makes.

ghost use Rattle.std.specs.Prelude.{◌≡◌, ◌<◌, [], nat_lt, true, Ok, Err, MatchResult, IsOk, IsErrOf, IsTrue};
ghost use Rattle.std.specs.List.{list_all};
ghost use Rattle.og_cert_text.specs.Tree.{Low, High};
ghost use Rattle.og_cert_text.specs.Plain.{ref_of, combination_of};
ghost use Rattle.og_cert.specs.Checks as check;
ghost use Rattle.og_cert.specs.Held.{facts_held};
ghost use Rattle.og_cert.specs.Opposite.{single_form};
ghost use Rattle.og_cert.specs.Answer.{IsChecked, or_kind};
ghost use Rattle.og_cert.specs.declared.fault.CheckError.TheVariants.{Memory};

use crate::fault::{CheckError, FaultKind};
use crate::held::{Held, atom_at};
use crate::opposite::{Single, is_closed};
use crate::sum::Sum;
use og_cert_text::{Source, Term};
use og_linear::{Form, FormError};
use std::alloc::Global;

// The arithmetic's answer, or a fault of this kind.
fn or_kind<T>(answer: Result<T, FormError>, kind: FaultKind) -> Result<T, CheckError>
    ensures { result ≡ or_kind kind answer }
{
    match answer {
        Ok(value) => Ok(value),
        Err(FormError::Memory) => Err(CheckError::Memory),
        Err(FormError::Fault(_)) => Err(CheckError::Fault(kind)),
    }
}

// That the variable is no less than the least i64.
fn low_bound(variables: u32, var: u32) -> Result<Single, FaultKind>
    ensures { MatchResult result
        (λ bound. check.form_at variables [] (Low var) ≡ Ok (single_form bound))
        (λ kind. check.form_at variables [] (Low var) ≡ Err kind) }
{
    if var >= variables {
        return Err(FaultKind::NoSuchFact);
    }
    Ok(Single {
        var,
        coefficient: -1,
        constant: -9_223_372_036_854_775_808,
    })
}

// That the variable is no greater than the greatest i64.
fn high_bound(variables: u32, var: u32) -> Result<Single, FaultKind>
    ensures { MatchResult result
        (λ bound. check.form_at variables [] (High var) ≡ Ok (single_form bound))
        (λ kind. check.form_at variables [] (High var) ≡ Err kind) }
{
    if var >= variables {
        return Err(FaultKind::NoSuchFact);
    }
    Ok(Single {
        var,
        coefficient: 1,
        constant: -9_223_372_036_854_775_807,
    })
}

// Adds a multiple of a fact or of a bound. Takes memory only where there is the fact or the bound.
fn add_term(variables: u32, held: &[Held], sum: &mut Sum, term: Term) -> Result<(), CheckError>
    ensures added { IsChecked (λ _. sum.new) result
        (check.add_term variables (facts_held held.now) sum.old (term.times, ref_of term.source)) }
    ensures memory { IsErrOf result Memory
        → IsOk (check.form_at variables (facts_held held.now) (ref_of term.source)) }
{
    let added = match term.source {
        Source::Known(number) => sum.add(term.times, atom_at(held, number)?),
        Source::Low(var) => sum.add_single(term.times, low_bound(variables, var)?),
        Source::High(var) => sum.add_single(term.times, high_bound(variables, var)?),
    };
    or_kind(added, FaultKind::TooLarge)
}

// The sum of these multiples.
pub(crate) fn combination(
    alloc: Global,
    variables: u32,
    held: &[Held],
    terms: &[Term],
) -> Result<Form, CheckError>
    ensures { IsChecked (λ form. form) result
        (check.combination variables (facts_held held.now) (combination_of terms.now)) }
{
    let mut sum = Sum::new(alloc);
    for term in terms {
        add_term(variables, held, &mut sum, *term)?;
    }
    Ok(sum.into_form())
}

// Whether the form is a constant above 0.
fn is_positive(form: &Form) -> bool
    ensures { result ≡ check.is_positive form.now }
{
    match form.term(0) {
        Some(_) => false,
        None => form.offset() > 0,
    }
}

// Whether the sum of these multiples is seen to be a constant above 0.
fn is_seen_closed(variables: u32, held: &[Held], terms: &[Term]) -> bool
    ensures { IsTrue result
        → check.closing variables (facts_held held.now) (combination_of terms.now) ≡ Ok tt }
{
    match terms {
        [a, b] => is_closed(variables, held, *a, *b),
        _ => false,
    }
}

// Whether the sum of these multiples is a constant above 0.
pub(crate) fn check_closing(
    alloc: Global,
    variables: u32,
    held: &[Held],
    terms: &[Term],
) -> Result<(), CheckError>
    ensures { IsChecked (λ done. done) result
        (check.closing variables (facts_held held.now) (combination_of terms.now)) }
{
    if is_seen_closed(variables, held, terms) {
        return Ok(());
    }
    let sum = combination(alloc, variables, held, terms)?;
    if is_positive(&sum) {
        Ok(())
    } else {
        Err(CheckError::Fault(FaultKind::NotClosed))
    }
}

// The fact of this number, cut by the divisor. Takes memory only where there is the fact.
pub(crate) fn cut_at(
    alloc: Global,
    held: &[Held],
    number: u32,
    divisor: u64,
) -> Result<Form, CheckError>
    ensures cut { IsChecked (λ form. form) result
        (check.cut_at (facts_held held.now) number divisor) }
    ensures memory { IsErrOf result Memory → IsOk (check.atom_at (facts_held held.now) number) }
{
    let form = atom_at(held, number)?.form(alloc)?;
    or_kind(form.cut(i128::from(divisor)), FaultKind::NotDivisible)
}

// Whether each variable of the form is below this number.
fn is_over(form: &Form, variables: u32) -> bool
    ensures { result ≡ list_all (λ t. nat_lt t.0 variables) form.now.terms }
{
    let mut index = 0;
    while let Some((var, _)) = form.term(index) {
        if var >= variables {
            return false;
        }
        index += 1;
    }
    true
}

// The form that is at most 0 where this one is not. Takes memory only where each of its variables
// is below this number.
pub(crate) fn otherwise(alloc: Global, variables: u32, form: &Form) -> Result<Form, CheckError>
    ensures other { IsChecked (λ other. other) result (check.otherwise variables form.now) }
    ensures memory { IsErrOf result Memory → list_all (λ t. nat_lt t.0 variables) form.now.terms
        ≡ true }
{
    if !is_over(form, variables) {
        return Err(CheckError::Fault(FaultKind::NoSuchFact));
    }
    let mut other = Form::constant(alloc, 1);
    or_kind(other.add_scaled(-1, form), FaultKind::TooLarge)?;
    Ok(other)
}

// A certificate for each part.
pub(crate) fn check_count(parts: usize, certs: usize) -> Result<(), FaultKind>
    ensures { result ≡ check.one_each parts certs }
{
    if parts < certs {
        Err(FaultKind::LeftOver)
    } else if certs < parts {
        Err(FaultKind::NotClosed)
    } else {
        Ok(())
    }
}

//! The terms of sums.

ghost use Rattle.std.specs.Prelude.{◌≡◌, ◌++◌, unsigned_abs, map, IfOk, OnOk};
ghost use Rattle.og_parse.specs.TreeOf as outlines;
ghost use Rattle.og_template_expand.specs.Answer.{behind};
ghost use Rattle.og_template_expand.specs.Ranges.{is_in, instances};
ghost use Rattle.og_template_expand.specs.Trees.{Named};
ghost use Rattle.og_template_expand.specs.Sums as sums;
ghost use Rattle.og_template_expand.specs.Scoped.{IsExpanded, range_of, operand_view, scope_of};
ghost use Rattle.og_template_expand.specs.TreeOf.{expression_of, factor_of, binder_of, signed_of, kind_of, terms_then, sum_of};

use crate::binders::{enter, values};
use crate::expander::{Expander, element_name, same_name};
use crate::exprs::value;
use crate::fault::{Stop, fault, fault_at};
use crate::indices::Outside;
use crate::range::Range;
use crate::scope::{Meaning, Scope};
use og_parse::{RawFactor, RawName, RawSum, RawTerm, Sign};
use og_template::{Binder, Expr, Factor, FaultKind, Sum, Term, TermKind};
use og_text::{NUMBER_LIMIT, Span};
use std::alloc::{AllocError, Global};

/// A factor: a number, or a variable.
#[derive(Drop)]
pub(crate) enum Operand {
    Number(Sign, u64),
    Variable(RawName),
}

// The sign of a product.
fn product_sign(left: Sign, right: Sign) -> Sign
    ensures { result ≡ sums.times left right }
{
    match (left, right) {
        (Sign::Plus, sign) => sign,
        (Sign::Minus, Sign::Plus) => Sign::Minus,
        (Sign::Minus, Sign::Minus) => Sign::Plus,
    }
}

/// The sign and the magnitude of a value.
pub(crate) fn parts(value: i64) -> (Sign, u64)
    ensures { result ≡ (sums.sign_of value, unsigned_abs value) }
{
    let sign = if value < 0 { Sign::Minus } else { Sign::Plus };
    (sign, value.unsigned_abs())
}

fn number(value: i64) -> Operand
    ensures { operand_view result ≡ sums.whole value }
{
    let (sign, magnitude) = parts(value);
    Operand::Number(sign, magnitude)
}

// Whether an index is in a range.
fn within(index: i64, range: Range) -> bool
    ensures { result ≡ is_in index (range_of range) }
{
    0 <= index && range.low <= index as u64 && (index as u64) < range.low + u64::from(range.count)
}

// The name of the element of a family with these indices.
fn element_in(alloc: Global, range: Range, name: &RawName, index: i64) -> Result<RawName, Stop>
    ensures { IsExpanded (λ n. n) result (sums.element_in (range_of range) name.now index) }
{
    if within(index, range) {
        element_name(alloc, name, index)
    } else {
        Err(fault_at(FaultKind::OutOfRange, name))
    }
}

// Notes an index that is outside of a range.
fn note_outside(
    scope: &Scope<'_, '_>,
    work: &mut Expander<'_>,
    range: Range,
    index: i64,
) -> Result<(), AllocError> {
    if !within(index, range) {
        work.outside = Some(Outside::new(work.alloc, index, range, &scope.bound)?);
    }
    Ok(())
}

/// The name of the element of a family that an index picks.
pub(crate) fn element(
    scope: &Scope<'_, '_>,
    work: &mut Expander<'_>,
    name: &RawName,
    index: &Expr,
) -> Result<RawName, Stop>
    ensures { IsExpanded (λ n. n) result (sums.element_of (scope_of scope.now) name.now
        (expression_of index.now)) }
{
    let index = value(scope, work, index)?;
    let range = scope.family(name)?;
    note_outside(scope, work, range, index)?;
    element_in(work.alloc, range, name, index)
}

// What a name without an index is.
fn named_operand(scope: &Scope<'_, '_>, alloc: Global, name: &RawName) -> Result<Operand, Stop>
    ensures { IsExpanded operand_view result (sums.operand_of (scope_of scope.now)
        (Named name.now)) }
{
    match scope.meaning(name)? {
        Meaning::Value(value) => Ok(number(value)),
        Meaning::Variable => Ok(Operand::Variable(same_name(alloc, name)?)),
        Meaning::Family(_) | Meaning::Named(_) => Err(fault_at(FaultKind::WrongKind, name)),
    }
}

// What a factor is in a scope.
fn reduced(scope: &Scope<'_, '_>, work: &mut Expander<'_>, factor: &Factor) -> Result<Operand, Stop>
    ensures { IsExpanded operand_view result (sums.operand_of (scope_of scope.now)
        (factor_of factor.now)) }
{
    match factor {
        Factor::Number(magnitude) => Ok(Operand::Number(Sign::Plus, *magnitude)),
        Factor::Value(expr) => Ok(number(value(scope, work, expr)?)),
        Factor::Name(name) => named_operand(scope, work.alloc, name),
        Factor::Element(name, index) => Ok(Operand::Variable(element(scope, work, name, index)?)),
        Factor::Use(name, _) => Err(fault_at(FaultKind::WrongKind, name)),
    }
}

// The term that a factor is.
fn single(sign: Sign, operand: Operand) -> RawTerm
    ensures { result ≡ sums.single sign (operand_view operand) }
{
    match operand {
        Operand::Number(own, magnitude) => RawTerm {
            sign: product_sign(sign, own),
            factor: RawFactor::Number(magnitude),
        },
        Operand::Variable(name) => RawTerm {
            sign,
            factor: RawFactor::Variable(name),
        },
    }
}

// The number that the product of two is, where its magnitude is at most 2 to the power of 63.
fn number_product(sign: Sign, left: u64, right: u64, span: Span) -> Result<RawTerm, Stop>
    ensures { IsExpanded (λ t. t) result (sums.number_product sign left right span) }
{
    let product = u128::from(left) * u128::from(right);
    if product <= u128::from(NUMBER_LIMIT) {
        Ok(RawTerm {
            sign,
            factor: RawFactor::Number(product as u64),
        })
    } else {
        Err(fault(FaultKind::ValueTooLarge, span))
    }
}

// The term that the product of a number and a factor is.
fn product(sign: Sign, multiplier: Operand, operand: Operand, span: Span) -> Result<RawTerm, Stop>
    ensures { IsExpanded (λ t. t) result (sums.product_of sign (operand_view multiplier)
        (operand_view operand) span) }
{
    match (multiplier, operand) {
        (Operand::Number(left, c), Operand::Number(right, d)) => {
            number_product(product_sign(sign, product_sign(left, right)), c, d, span)
        }
        (Operand::Number(left, c), Operand::Variable(name)) => Ok(RawTerm {
            sign: product_sign(sign, left),
            factor: RawFactor::Product(c, name),
        }),
        (Operand::Variable(name), _) => Err(fault_at(FaultKind::WrongKind, &name)),
    }
}

fn product_in(
    scope: &Scope<'_, '_>,
    work: &mut Expander<'_>,
    sign: Sign,
    left: &Factor,
    right: &Factor,
    span: Span,
) -> Result<RawTerm, Stop>
    ensures { IsExpanded (λ t. t) result (sums.product_in (scope_of scope.now) sign
        (factor_of left.now) (factor_of right.now) span) }
{
    let multiplier = reduced(scope, work, left)?;
    let operand = reduced(scope, work, right)?;
    product(sign, multiplier, operand, span)
}

// The term 0, where there is none.
fn or_zero(mut terms: Vec<RawTerm>, sign: Sign) -> Result<Vec<RawTerm>, AllocError>
    ensures { IfOk result (λ v. v.items ≡ sums.or_zero sign terms.items) }
{
    if terms.is_empty() {
        terms.push(single(sign, Operand::Number(Sign::Plus, 0)))?;
    }
    Ok(terms)
}

// Moves terms to the end of others.
fn put_all(mut terms: Vec<RawTerm>, all: &mut Vec<RawTerm>) -> Result<(), AllocError>
    ensures { OnOk result (all.new.items ≡ all.old.items ++ terms.items) }
{
    all.append(&mut terms)
}

// The names at a place of a sum, and the sign before it.
#[derive(Drop)]
struct Signed<'l, 's, 'a> {
    scope: &'l Scope<'s, 'a>,
    sign: Sign,
}

impl<'l, 's, 'a> Signed<'l, 's, 'a> {
    // The terms of each instance.
    #[cycle(terms)]
    fn instances_of(
        &self,
        work: &mut Expander<'_>,
        binder: &'a Binder,
        terms: &'a [Term],
    ) -> Result<Vec<RawTerm>, Stop>
        ensures { IsExpanded (λ v. v.items) result (instances (scope_of self.now.scope.now)
            (binder_of binder.now) (λ s. sums.terms_of s self.now.sign
            (terms_then (map signed_of terms.now)))) }
    {
        let values = values(self.scope, work, binder)?;
        let mut all = Vec::new(work.alloc);
        for value in &values {
            if let Some(inner) = enter(self.scope, work, binder, *value)? {
                let signed = Signed {
                    scope: &inner,
                    sign: self.sign,
                };
                signed.put_terms(work, terms, &mut all)?;
            }
        }
        Ok(all)
    }

    // The terms of what stands behind the sign.
    #[cycle(terms)]
    fn terms_of_kind(
        &self,
        work: &mut Expander<'_>,
        kind: &'a TermKind,
        span: Span,
    ) -> Result<Vec<RawTerm>, Stop>
        ensures { IsExpanded (λ v. v.items) result (sums.kind_of (scope_of self.now.scope.now)
            self.now.sign span (kind_of kind.now)) }
    {
        match kind {
            TermKind::Factor(factor) => {
                let term = single(self.sign, reduced(self.scope, work, factor)?);
                Ok(vec![in work.alloc; term]?)
            }
            TermKind::Product(left, right) => {
                let term = product_in(self.scope, work, self.sign, left, right, span)?;
                Ok(vec![in work.alloc; term]?)
            }
            TermKind::Total(binder, terms) => {
                let all = self.instances_of(work, binder, terms)?;
                Ok(or_zero(all, self.sign)?)
            }
        }
    }

    // Adds a term, its sign turned where this one is a minus.
    #[cycle(terms)]
    fn put_term(
        &self,
        work: &mut Expander<'_>,
        term: &'a Term,
        all: &mut Vec<RawTerm>,
    ) -> Result<(), Stop>
        ensures { IsExpanded (λ _. all.new.items) result
            (behind all.old.items (sums.kind_of (scope_of self.now.scope.now)
            (sums.times self.now.sign (signed_of term.now).sign) (signed_of term.now).place
            (signed_of term.now).kind)) }
    {
        work.step(term.span)?;
        let signed = Signed {
            scope: self.scope,
            sign: product_sign(self.sign, term.sign),
        };
        let terms = signed.terms_of_kind(work, &term.kind, term.span)?;
        Ok(put_all(terms, all)?)
    }

    #[cycle(terms)]
    fn put_terms(
        &self,
        work: &mut Expander<'_>,
        terms: &'a [Term],
        all: &mut Vec<RawTerm>,
    ) -> Result<(), Stop>
        ensures { IsExpanded (λ _. all.new.items) result
            (behind all.old.items (sums.terms_of (scope_of self.now.scope.now) self.now.sign
            (terms_then (map signed_of terms.now)))) }
    {
        for term in terms {
            self.put_term(work, term, all)?;
        }
        Ok(())
    }
}

/// The sum with its terms.
pub(crate) fn sum<'a>(
    scope: &Scope<'_, 'a>,
    work: &mut Expander<'_>,
    sum: &'a Sum,
) -> Result<RawSum, Stop>
    ensures { IsExpanded outlines.sum_of result (sums.sum_of (scope_of scope.now)
        (sum_of sum.now)) }
{
    let mut terms = Vec::new(work.alloc);
    let signed = Signed {
        scope,
        sign: Sign::Plus,
    };
    signed.put_terms(work, &sum.terms, &mut terms)?;
    Ok(RawSum {
        terms,
        span: sum.span,
    })
}

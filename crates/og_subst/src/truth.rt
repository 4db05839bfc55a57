//! The truth of assertions, as far as each number fits 128 bits.

ghost use Rattle.std.specs.Prelude.{◌≡◌, ◌+ℤ◌, ◌*ℤ◌, map, IfSome};
ghost use Rattle.og_linear.specs.Linear.{val, value_at};
ghost use Rattle.og_typed.specs.Plain.{formula};
ghost use Rattle.og_typed.specs.Truth.{truth};

use og_linear::Form;
use og_typed::Assert;

// The value of the variable, 0 where it has none.
pub(crate) fn value_at(values: &[i128], var: u32) -> i128
    ensures { result ≡ value_at values.now var }
{
    values.get(var as usize).copied().unwrap_or(0)
}

// The sum with a term more, where it fits.
fn with_term(sum: i128, coefficient: i128, value: i128) -> Option<i128>
    ensures { IfSome result (λ next. next ≡ sum +ℤ coefficient *ℤ value) }
{
    sum.checked_add(coefficient.checked_mul(value)?)
}

// The value of the form, where each product and each partial sum fits.
pub(crate) fn value_of(form: &Form, values: &[i128]) -> Option<i128>
    ensures { IfSome result (λ value. value ≡ val form.now values.now) }
{
    let mut sum = form.offset();
    for i in 0..usize::MAX {
        match form.term(i) {
            Some((var, c)) => sum = with_term(sum, c, value_at(values, var))?,
            None => return Some(sum),
        }
    }
    None
}

/// The truth of an assertion, where each number on the way fits 128 bits. Takes no memory.
#[tactic(auto, using(og_typed::proofs::Lists::formula_and, og_typed::proofs::Lists::formula_or))]
pub(crate) fn truth_of(assert: &Assert, values: &[i128]) -> Option<bool>
    ensures { IfSome result (λ b. b ≡ truth (formula assert.now) values.now) }
{
    match assert {
        Assert::True => Some(true),
        Assert::False => Some(false),
        Assert::Le(form) => Some(value_of(form, values)? <= 0),
        Assert::Eq(form) => Some(value_of(form, values)? == 0),
        Assert::Ne(form) => Some(value_of(form, values)? != 0),
        Assert::Not(a) => Some(!truth_of(a, values)?),
        Assert::And(all) => {
            for a in all {
                if !truth_of(a, values)? {
                    return Some(false);
                }
            }
            Some(true)
        }
        Assert::Or(all) => {
            for a in all {
                if truth_of(a, values)? {
                    return Some(true);
                }
            }
            Some(false)
        }
        Assert::Imp(a, b) => Some(!truth_of(a, values)? || truth_of(b, values)?),
    }
}

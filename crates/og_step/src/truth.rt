//! The truth of an assertion at a state.

ghost use Rattle.std.specs.Prelude.{◌≡◌, true, length};
ghost use Rattle.og_linear.specs.Linear.{val, is_small};
ghost use Rattle.og_typed.specs.Plain.{formula};
ghost use Rattle.og_typed.specs.Truth.{truth};
ghost use Rattle.og_typed.specs.Forms.{each_form};
ghost use Rattle.og_step.specs.Readable.{has_few, is_within, is_readable};

use og_linear::{Form, State};
use og_typed::Assert;

/// Whether the assertion is true at the state. Takes no memory, and time in proportion to the
/// assertion.
///
/// The assertion is small, each of its forms has at most 256 variables, and the state has a value
/// for each variable.
pub fn holds(assert: &Assert, state: &State) -> bool
    requires small { each_form is_small (formula assert.now) ≡ true }
    requires few { each_form has_few (formula assert.now) ≡ true }
    requires within { each_form (is_within (length state.now)) (formula assert.now) ≡ true }
    ensures { result ≡ truth (formula assert.now) state.now }
{
    evaluate(assert, state)
}

// The value of a form that can be evaluated.
#[tactic(auto, using(crate::proofs::Readable::small_of, crate::proofs::Readable::within_of, crate::proofs::Readable::few_of))]
pub(crate) fn value_of(form: &Form, state: &State) -> i128
    requires { is_readable (length state.now) form.now ≡ true }
    ensures { result ≡ val form.now state.now }
{
    // A measure: the variables rise, so there are no more of them than values.
    let _ = form.term(0);
    form.value(state)
}

// The truth of an assertion whose forms can be evaluated.
#[tactic(auto, using(og_typed::proofs::Lists::formula_and, og_typed::proofs::Lists::formula_or))]
pub(crate) fn evaluate(assert: &Assert, state: &State) -> bool
    requires { each_form (is_readable (length state.now)) (formula assert.now) ≡ true }
    ensures { result ≡ truth (formula assert.now) state.now }
{
    match assert {
        Assert::True => true,
        Assert::False => false,
        Assert::Le(f) => value_of(f, state) <= 0,
        Assert::Eq(f) => value_of(f, state) == 0,
        Assert::Ne(f) => value_of(f, state) != 0,
        Assert::Not(a) => !evaluate(a, state),
        Assert::And(all) => {
            for a in all {
                if !evaluate(a, state) {
                    return false;
                }
            }
            true
        }
        Assert::Or(all) => {
            for a in all {
                if evaluate(a, state) {
                    return true;
                }
            }
            false
        }
        Assert::Imp(a, b) => !evaluate(a, state) || evaluate(b, state),
    }
}

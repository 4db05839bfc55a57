//! Forms with a sign.

ghost use Rattle.std.specs.Prelude.{◌≡◌, true, negsuc, slice_get};
ghost use Rattle.og_linear.specs.Arith.{scale_terms};
ghost use Rattle.og_linear.specs.Bounded.{fits_terms};
ghost use Rattle.og_facts.specs.Signs.{terms_with_sign};

use og_linear::Form;

/// The i-th variable and its coefficient, negated.
pub(crate) fn negated_term(form: &Form, i: usize) -> Option<(u32, i128)>
    requires { fits_terms (scale_terms (negsuc 0) form.now.terms) ≡ true }
    ensures { result ≡ slice_get (scale_terms (negsuc 0) form.now.terms) i }
{
    match form.term(i) {
        Some((var, coefficient)) => Some((var, -coefficient)),
        None => None,
    }
}

/// A form whose terms are meant as they are, or each negated.
#[derive(Clone, Copy)]
pub struct Signed<'a> {
    pub form: &'a Form,
    pub is_negated: bool,
    ghost fits: { fits_terms (terms_with_sign form.now is_negated) ≡ true },
}

impl Signed<'_> {
    /// The i-th variable and the coefficient that is meant, counted from 0.
    pub fn term(self, i: usize) -> Option<(u32, i128)>
        ensures { result ≡ slice_get (terms_with_sign self.entry.form.now self.entry.is_negated) i }
    {
        if self.is_negated {
            negated_term(self.form, i)
        } else {
            self.form.term(i)
        }
    }
}

//! Actions with more assignments. Takes no memory.

ghost use Rattle.std.specs.Prelude.{◌≡◌, ℤ, [], ◌∷◌, true, map, All};
ghost use Rattle.og_typed.specs.Syntax.{Set};
ghost use Rattle.og_typed.specs.Plain.{simple};
ghost use Rattle.og_linear.specs.Linear.{form_value, fits_i64};
ghost use Rattle.og_completion.specs.Completes.{IsMark, BodyCompletes};

use crate::assertions::same_form;
use og_linear::Form;
use og_subst::Action;
use og_typed::Basic;

// Whether the form is a number that is an i64.
fn is_number(form: &Form) -> bool
    ensures { result ≡ true → (v : ℤ) × (form.now ≡ form_value [] v) × (fits_i64 v ≡ true) }
{
    form.term(0).is_none() && form.is_small()
}

// Whether the assignment sets a variable from this number on to a number.
fn is_mark(count: u32, basic: &Basic) -> bool
    ensures { result ≡ true → IsMark count (simple basic.now) }
{
    match basic {
        Basic::Skip => false,
        Basic::Assign(var, form) => *var >= count && is_number(form),
    }
}

fn are_marks(count: u32, rest: &[Basic]) -> bool
    ensures { result ≡ true → All (IsMark count) (map simple rest.now) }
{
    for basic in rest {
        if !is_mark(count, basic) {
            return false;
        }
    }
    true
}

/// Whether the action is the old one, and then assignments of numbers to variables from this number
/// on.
pub(crate) fn completes_body(count: u32, body: &[Basic], old: &[Basic]) -> bool
    ensures { result ≡ true → BodyCompletes count (map simple body.now) (map simple old.now) }
{
    if body.len() < old.len() {
        return false;
    }
    let (front, rest) = body.split_at(old.len());
    Action::Await(front).equals(&Action::Await(old)) && are_marks(count, rest)
}

fn is_assignment(basic: &Basic, var: u32, form: &Form) -> bool
    ensures { result ≡ true → simple basic.now ≡ Set var form.now }
{
    match basic {
        Basic::Skip => false,
        Basic::Assign(x, other) => *x == var && same_form(other, form),
    }
}

/// The same of the action of one assignment.
pub(crate) fn completes_assignment(count: u32, body: &[Basic], var: u32, form: &Form) -> bool
    ensures { result ≡ true → BodyCompletes count (map simple body.now) (Set var form.now ∷ []) }
{
    match body.split_first() {
        Some((first, rest)) => is_assignment(first, var, form) && are_marks(count, rest),
        None => false,
    }
}

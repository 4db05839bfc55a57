//! The variables that matter of assertions and actions.

ghost use Rattle.std.specs.Prelude.{◌≡◌, ℕ, ◌&&◌, ◌||◌, nat_lt};
ghost use Rattle.og_linear.specs.Linear.{is_term};
ghost use Rattle.og_typed.specs.Plain.{formula};
ghost use Rattle.og_subst.specs.Actions.{action_body};
ghost use Rattle.og_cond.specs.Sets.{has, watches, changes};

use crate::varset::VarSet;
use og_linear::Form;
use og_subst::Action;
use og_typed::{Assert, Basic};

// Adds the variables of a form.
fn add_form(set: &mut VarSet, form: &Form)
    ensures { (x : ℕ) → has set.new x
        ≡ (nat_lt x 256 && is_term x form.now.terms || has set.old x) }
{
    let mut index = 0;
    while let Some((var, _)) = form.term(index) {
        set.insert(var);
        index += 1;
    }
}

// Adds the variables of an assertion.
#[tactic(auto, using(og_typed::proofs::Lists::formula_and, og_typed::proofs::Lists::formula_or))]
fn add_assertion(set: &mut VarSet, assertion: &Assert)
    ensures { (x : ℕ) → has set.new x ≡ (watches (formula assertion.now) x || has set.old x) }
{
    match assertion {
        Assert::True | Assert::False => (),
        Assert::Le(form) | Assert::Eq(form) | Assert::Ne(form) => add_form(set, form),
        Assert::Not(a) => add_assertion(set, a),
        Assert::And(all) => {
            for a in all {
                add_assertion(set, a);
            }
        }
        Assert::Or(all) => {
            for a in all {
                add_assertion(set, a);
            }
        }
        Assert::Imp(a, b) => {
            add_assertion(set, a);
            add_assertion(set, b);
        }
    }
}

/// The variables that occur in an assertion.
pub(crate) fn variables_of(assertion: &Assert) -> VarSet
    ensures { (x : ℕ) → has result x ≡ watches (formula assertion.now) x }
{
    let mut set = VarSet::new();
    add_assertion(&mut set, assertion);
    set
}

/// The variables that an action assigns.
pub(crate) fn assigned_by(action: Action) -> VarSet
    ensures { (x : ℕ) → has result x ≡ changes (action_body action.entry) x }
{
    let mut set = VarSet::new();
    match action {
        Action::Assign(var, _) => set.insert(var),
        Action::Await(body) => {
            for basic in body {
                if let Basic::Assign(var, _) = basic {
                    set.insert(*var);
                }
            }
        }
    }
    set
}

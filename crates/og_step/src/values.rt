//! The values of the variables, with room to make the values of an await.

ghost use Rattle.std.specs.Prelude.{◌≡◌, ◌++◌, ◌+◌, ℕ, ◌<◌, ◌≤◌, true, false, length, map, IfOk, if◌then◌else◌};
ghost use Rattle.std.specs.List.{AllByRecursion};
ghost use Rattle.og_linear.specs.Linear.{put, val, value_at, fits_i64};
ghost use Rattle.og_typed.specs.Machine.{act, all_fit};
ghost use Rattle.og_typed.specs.Plain.{simple};
ghost use Rattle.og_typed.specs.Rule.{is_usable_form, IsUsableSimple};
ghost use Rattle.og_step.specs.Actions.{assigns};

use crate::truth::value_of;
use og_linear::{Form, State};
use og_typed::Basic;
use std::alloc::{AllocError, Global};
use std::marker::Model;

/// A state, and a second one that equals it between two actions.
#[derive(Drop)]
pub(crate) struct Values {
    state: State,
    spare: State,
}

impl Model for Values {
    ghost use Rattle.std.specs.Prelude.{◌≡◌, List, ℤ};

    ghost Value = { List ℤ };

    ghost view = { λ v. v.state };

    ghost invariant = { λ v. v.spare ≡ v.state };
}

// The state of two runs of values.
fn joined(alloc: Global, first: &[i64], second: &[i64]) -> Result<State, AllocError>
    ensures { IfOk result (λ s. s ≡ first.now ++ second.now) }
{
    let mut all = Vec::from_slice(alloc, first)?;
    all.extend_from_slice(second)?;
    Ok(State::new(all))
}

// The variable gets the form's value, where that fits.
fn put_value(state: &mut State, var: u32, form: &Form) -> bool
    requires short { length state.old ≤ 256 }
    requires inside { var < length state.old }
    requires usable { is_usable_form (length state.old) form.now ≡ true }
    ensures fits { result ≡ fits_i64 (val form.now state.old) }
    ensures put { state.new ≡ (if result then put state.old var (val form.now state.old) else
        state.old) }
{
    match i64::try_from(value_of(form, state)) {
        Ok(value) => {
            state.set(var, value);
            true
        }
        Err(_) => false,
    }
}

// Makes the assignments one after another, up to the first whose value does not fit.
fn run(state: &mut State, body: &[Basic]) -> bool
    requires short { length state.old ≤ 256 }
    requires usable { AllByRecursion (IsUsableSimple (length state.old)) (map simple body.now) }
    ensures fits { result ≡ all_fit (map simple body.now) state.old }
    ensures done { result ≡ true → state.new ≡ act (map simple body.now) state.old }
    ensures long { length state.new ≡ length state.old }
    ensures others { (x : ℕ)
        → assigns x (map simple body.now) ≡ false
        → value_at state.new x ≡ value_at state.old x }
{
    for basic in body {
        if let Basic::Assign(var, form) = basic {
            if !put_value(state, *var, form) {
                return false;
            }
        }
    }
    true
}

// Copies the variables that are assigned.
fn settle(from: &State, to: &mut State, body: &[Basic])
    requires long { length to.old ≡ length from.now }
    requires usable { AllByRecursion (IsUsableSimple (length from.now)) (map simple body.now) }
    requires others { (x : ℕ)
        → assigns x (map simple body.now) ≡ false
        → value_at to.old x ≡ value_at from.now x }
    ensures { to.new ≡ from.now }
{
    for basic in body {
        if let Basic::Assign(var, _) = basic {
            let value = from.as_slice()[*var as usize];
            to.set(*var, value);
        }
    }
}

// The variables from this number on get these values.
fn put_from(state: &mut State, from: usize, values: &[i64])
    requires short { length state.old ≤ 256 }
    requires inside { from + length values.now ≤ length state.old }
    ensures long { length state.new ≡ length state.old }
    ensures put { (x : ℕ) → x < length values.now → value_at state.new (from + x)
        ≡ value_at values.now x }
    ensures before { (x : ℕ) → x < from → value_at state.new x ≡ value_at state.old x }
{
    for (x, value) in values.iter().enumerate() {
        state.set((from + x) as u32, *value);
    }
}

// The variables get the first values, and then the second.
fn put_both(state: &mut State, first: &[i64], second: &[i64])
    requires short { length state.old ≤ 256 }
    requires long { length first.now + length second.now ≡ length state.old }
    ensures { state.new ≡ first.now ++ second.now }
{
    put_from(state, 0, first);
    put_from(state, first.len(), second);
}

impl Values {
    /// The state that begins with the first values and ends with the second.
    pub(crate) fn new(alloc: Global, first: &[i64], second: &[i64]) -> Result<Values, AllocError>
        ensures { IfOk result (λ v. v ≡ first.now ++ second.now) }
    {
        let state = joined(alloc, first, second)?;
        let spare = joined(alloc, first, second)?;
        Ok(Values { state, spare })
    }

    /// The state.
    pub(crate) fn state(&self) -> &State
        ensures { result.now ≡ self.now }
    {
        &self.state
    }

    /// The state that begins with the first values and ends with the second, as many as there
    /// were. Takes no memory.
    pub(crate) fn restart(&mut self, first: &[i64], second: &[i64])
        requires short { length self.old ≤ 256 }
        requires long { length first.now + length second.now ≡ length self.old }
        ensures { self.new ≡ first.now ++ second.now }
    {
        put_both(&mut self.state, first, second);
        put_both(&mut self.spare, first, second);
    }

    /// The assignment, where its value fits.
    pub(crate) fn assign(&mut self, var: u32, form: &Form) -> bool
        requires short { length self.old ≤ 256 }
        requires inside { var < length self.old }
        requires usable { is_usable_form (length self.old) form.now ≡ true }
        ensures fits { result ≡ fits_i64 (val form.now self.old) }
        ensures put { self.new ≡ (if result then put self.old var (val form.now self.old) else
            self.old) }
    {
        let fits = put_value(&mut self.state, var, form);
        let _ = put_value(&mut self.spare, var, form);
        fits
    }

    /// The assignments as one action, where each value fits.
    pub(crate) fn attempt(&mut self, body: &[Basic]) -> bool
        requires short { length self.old ≤ 256 }
        requires usable { AllByRecursion (IsUsableSimple (length self.old)) (map simple body.now) }
        ensures fits { result ≡ all_fit (map simple body.now) self.old }
        ensures after { self.new
            ≡ (if result then act (map simple body.now) self.old else self.old) }
    {
        if run(&mut self.spare, body) {
            settle(&self.spare, &mut self.state, body);
            true
        } else {
            settle(&self.state, &mut self.spare, body);
            false
        }
    }
}

//! States of whole numbers that may leave `i64`.

ghost use Rattle.std.specs.Prelude.{◌≡◌, ℤ, List, [], ◌∷◌, map, Some, IfOk, IfSome, OnSome};
ghost use Rattle.og_typed.specs.Syntax.{Set};
ghost use Rattle.og_subst.specs.Large.{first_large};
ghost use Rattle.og_linear.specs.Linear.{val, value_at, put};
ghost use Rattle.og_typed.specs.Machine.{act};
ghost use Rattle.og_typed.specs.Plain.{formula, simple};
ghost use Rattle.og_typed.specs.Truth.{truth};
ghost use Rattle.og_subst.specs.Actions.{action_body};

use crate::Action;
use crate::truth::{truth_of, value_at, value_of};
use og_linear::{Form, State};
use og_typed::{Assert, Basic};
use std::alloc::{AllocError, Global};
use std::marker::Model;

/// A whole number for each variable. Contracts see it as the state.
#[derive(Drop)]
pub struct Values {
    numbers: Vec<i128>,
}

impl Model for Values {
    ghost use Rattle.std.specs.Prelude.{List, ℤ};

    ghost Value = { List ℤ };

    ghost view = { λ v. v.numbers.items };
}

// Of the same number.
fn wide(value: i64) -> i128
    ensures { result ≡ value }
{
    i128::from(value)
}

impl Values {
    /// The values of a state.
    ///
    /// # Errors
    ///
    /// An allocation was refused.
    pub fn of(alloc: Global, state: &State) -> Result<Values, AllocError>
        ensures { IfOk result (λ v. v ≡ state.now) }
    {
        let values = state.as_slice();
        let mut numbers = Vec::with_capacity(alloc, values.len())?;
        for value in values {
            numbers.push(wide(*value))?;
        }
        Ok(Values { numbers })
    }

    /// Equal values.
    ///
    /// # Errors
    ///
    /// An allocation was refused.
    pub fn copy(&self, alloc: Global) -> Result<Values, AllocError>
        ensures { IfOk result (λ v. v ≡ self.now) }
    {
        let numbers = Vec::from_slice(alloc, &self.numbers)?;
        Ok(Values { numbers })
    }

    /// The values in the order of the variables. Takes no memory.
    pub fn as_slice(&self) -> &[i128]
        ensures { result.now ≡ self.now }
    {
        self.numbers.as_slice()
    }

    /// The value of a variable, 0 where there is no such variable. Takes no memory.
    pub fn at(&self, var: u32) -> i128
        ensures { result ≡ value_at self.now var }
    {
        value_at(&self.numbers, var)
    }

    // The variable gets the value, where there is such a variable.
    fn set(&mut self, var: u32, value: i128) -> Option<()>
        ensures { OnSome result (self.new ≡ put self.old var value) }
    {
        let var = var as usize;
        if self.numbers.len() <= var {
            return None;
        }
        self.numbers[var] = value;
        Some(())
    }

    // The variable gets the form's value, where that fits.
    fn assign(&mut self, var: u32, form: &Form) -> Option<()>
        ensures { OnSome result (self.new ≡ put self.old var (val form.now self.old)) }
    {
        let value = self.value(form)?;
        self.set(var, value)
    }

    /// The truth of an assertion, where each number on the way fits 128 bits. Takes no memory.
    pub fn truth(&self, assert: &Assert) -> Option<bool>
        ensures { IfSome result (λ b. b ≡ truth (formula assert.now) self.now) }
    {
        truth_of(assert, &self.numbers)
    }

    /// The value of a form, where each product and each partial sum fits 128 bits. Takes no memory.
    pub fn value(&self, form: &Form) -> Option<i128>
        ensures { IfSome result (λ value. value ≡ val form.now self.now) }
    {
        value_of(form, &self.numbers)
    }

    // Makes the assignments one after another, where each value fits.
    fn run(&mut self, body: &[Basic]) -> Option<()>
        ensures { OnSome result (self.new ≡ act (map simple body.now) self.old) }
    {
        for basic in body {
            if let Basic::Assign(var, form) = basic {
                self.assign(*var, form)?;
            }
        }
        Some(())
    }

    // The first value of the assignments that is no `i64`, with its variable.
    fn run_to_large(&mut self, body: &[Basic]) -> Option<(u32, i128)>
        ensures { IfSome result (λ found. first_large (map simple body.now) self.old ≡ Some found) }
    {
        for basic in body {
            if let Basic::Assign(var, form) = basic {
                let value = self.value(form)?;
                if i64::try_from(value).is_err() {
                    return Some((*var, value));
                }
                self.set(*var, value)?;
            }
        }
        None
    }

    // Of one assignment.
    fn large(&self, var: u32, form: &Form) -> Option<(u32, i128)>
        ensures { IfSome result (λ found. first_large (Set var form.now ∷ []) self.now ≡ Some found) }
    {
        let value = self.value(form)?;
        if i64::try_from(value).is_err() {
            Some((var, value))
        } else {
            None
        }
    }

    /// The first value, in order, that an action assigns and that is no `i64`, with its variable;
    /// none also where a number on the way leaves 128 bits.
    ///
    /// # Errors
    ///
    /// An allocation was refused.
    pub fn first_large(
        &self,
        alloc: Global,
        action: &Action,
    ) -> Result<Option<(u32, i128)>, AllocError>
        ensures { IfOk result (λ found.
            IfSome found (λ p. first_large (action_body action.now) self.now ≡ Some p)) }
    {
        match action {
            Action::Assign(var, form) => Ok(self.large(*var, form)),
            Action::Await(body) => {
                let mut values = self.copy(alloc)?;
                Ok(values.run_to_large(body))
            }
        }
    }

    /// The values after an action, where each value on the way fits 128 bits.
    ///
    /// # Errors
    ///
    /// An allocation was refused.
    pub fn after(&self, alloc: Global, action: &Action) -> Result<Option<Values>, AllocError>
        ensures { IfOk result (λ found.
            IfSome found (λ v. v ≡ act (action_body action.now) self.now)) }
    {
        let mut values = self.copy(alloc)?;
        let done = match action {
            Action::Assign(var, form) => values.assign(*var, form),
            Action::Await(body) => values.run(body),
        };
        match done {
            Some(()) => Ok(Some(values)),
            None => Ok(None),
        }
    }
}

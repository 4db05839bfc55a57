//! Values of variables.

ghost use Rattle.std.specs.Prelude.{◌≡◌, ◌<◌, ℤ, pos, IfOk, length, replicate, slice_set, if◌then◌else◌, nat_lt};
ghost use Rattle.og_linear.specs.Linear.{value_at};

use std::alloc::{AllocError, Global};
use std::marker;

/// A value for each variable. Contracts see it as the state.
#[derive(Drop)]
pub struct Model {
    values: Vec<i128>,
}

impl marker::Model for Model {
    ghost use Rattle.std.specs.Prelude.{List, ℤ};

    ghost Value = { List ℤ };

    ghost view = { λ m. m.values.items };
}

impl Model {
    /// Each of this many variables is 0.
    pub fn new(alloc: Global, variables: usize) -> Result<Model, AllocError>
        ensures { IfOk result (λ m. m ≡ replicate variables (pos 0)) }
    {
        Ok(Model {
            values: vec![in alloc; 0; variables]?,
        })
    }

    /// Equal values.
    pub fn copy(&self) -> Result<Model, AllocError>
        ensures { IfOk result (λ m. m ≡ self.now) }
    {
        Ok(Model {
            values: self.values.clone()?,
        })
    }

    /// The value of the variable, 0 where there is no such variable.
    pub fn value(&self, var: u32) -> i128
        ensures { result ≡ value_at self.now var }
    {
        self.values.get(var as usize).copied().unwrap_or(0)
    }

    /// Gives the variable a value, if there is such a variable.
    pub fn set(&mut self, var: u32, value: i128)
        ensures { self.new ≡ (if nat_lt var (length self.old) then slice_set self.old var value else
            self.old) }
    {
        if let Some(place) = self.values.get_mut(var as usize) {
            *place = value;
        }
    }
}

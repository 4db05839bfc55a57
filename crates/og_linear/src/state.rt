//! States.

ghost use Rattle.std.specs.Prelude.{◌≡◌, ◌<◌, length};
ghost use Rattle.og_linear.specs.Linear.{put, IsProper};

use std::marker::Model;

/// The values of the variables, by number. Contracts see the list of the values, each an `i64`.
#[derive(Drop)]
pub struct State {
    values: Vec<i64>,
}

impl Model for State {
    ghost use Rattle.std.specs.Prelude.{List, ℤ};
    ghost use Rattle.og_linear.specs.Linear.{IsProper};

    ghost Value = { List ℤ };

    ghost view = { λ s. s.values.items };

    ghost invariant = { λ s. IsProper s.values.items };
}

impl State {
    /// The state in which variable i has the i-th value, from 0.
    pub fn new(values: Vec<i64>) -> State
        ensures { result ≡ values.items }
    {
        // Reading each value shows that it is an i64.
        for value in &values {
            let _value = *value;
        }
        State { values }
    }

    /// The values, by the number of the variable.
    pub fn as_slice(&self) -> &[i64]
        ensures { result.now ≡ self.now }
    {
        self.values.as_slice()
    }

    /// A law: each value is an `i64`.
    pub fn values_fit(&self)
        ensures { IsProper self.now }
    {
        let _values = &self.values;
    }

    /// Gives the variable a value. Takes no memory.
    pub fn set(&mut self, var: u32, value: i64)
        requires { var < length self.old }
        ensures { self.new ≡ put self.old var value }
    {
        self.values[var as usize] = value;
    }
}

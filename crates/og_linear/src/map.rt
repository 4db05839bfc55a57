//! Maps from variables to forms.

ghost use Rattle.std.specs.Prelude.{◌≡◌, ◌≢◌, [], All, OnOk, OnErr, IfSome, IfNone};
ghost use Rattle.og_linear.specs.Arith as arith;
ghost use Rattle.og_linear.specs.Bounded as bounded;
ghost use Rattle.og_linear.specs.Bounded.{names};

use crate::form::Form;
use std::alloc::{AllocError, Global};
use std::marker::Model;

/// Forms that stand for variables. A variable that the map doesn't name stands for itself.
///
/// Contracts see the list of the named variables with their forms.
#[derive(Drop)]
pub struct Map {
    entries: Vec<(u32, Form)>,
}

impl Model for Map {
    ghost use Rattle.og_linear.specs.Bounded.{MapValue};

    ghost Value = { MapValue };

    ghost view = { λ m. m.entries.items };
}

impl Map {
    /// The map that names no variable. Takes no memory.
    pub fn new(alloc: Global) -> Map
        ensures { result ≡ [] }
    {
        Map {
            entries: Vec::new(alloc),
        }
    }

    /// Names the variable, in place of an earlier form, which takes no memory. An error leaves the
    /// map as it was.
    pub fn set(&mut self, var: u32, form: Form) -> Result<(), AllocError>
        ensures ok { OnOk result (self.new ≡ bounded.map_set self.old var form) }
        ensures err { OnErr result (self.new ≡ self.old) }
        ensures memory { OnErr result (All (λ e. e.0 ≢ var) self.old) }
    {
        for i in 0..self.entries.len() {
            if var == self.entries[i].0 {
                self.entries[i].1 = form;
                return Ok(());
            }
        }
        self.entries.push((var, form))?;
        Ok(())
    }

    // Whether the variable is named.
    pub(crate) fn names(&self, var: u32) -> bool
        ensures { result ≡ names self.now var }
    {
        self.entries.iter().any(|e| e.0 == var)
    }

    // The form that is named for the variable.
    pub(crate) fn named(&self, var: u32) -> Option<&Form>
        ensures some { IfSome result (λ f. f.now ≡ bounded.image self.now var) }
        ensures none { IfNone result (bounded.image self.now var ≡ arith.variable var) }
    {
        for e in &self.entries {
            if var == e.0 {
                return Some(&e.1);
            }
        }
        None
    }
}

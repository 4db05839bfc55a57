//! The part of an action that is prepared: its map and its values.

ghost use Rattle.std.specs.Prelude.{◌≡◌, map};
ghost use Rattle.og_linear.specs.Answer.{IsAnswer};
ghost use Rattle.og_linear.specs.declared.fault.FormFault.TheVariants as faults;
ghost use Rattle.og_typed.specs.Plain.{simple};
ghost use Rattle.og_subst.specs.Actions.{action_body};
ghost use Rattle.og_subst.specs.Running as running;

use crate::action::Action;
use og_linear::{Form, FormError, Map};
use og_typed::Basic;
use std::alloc::Global;
use std::marker::Model;

/// The map of an action, and the form of each value that it assigns, in order.
#[derive(Drop)]
pub struct ActionMap {
    map: Map,
    values: Vec<Form>,
}

impl Model for ActionMap {
    ghost use Rattle.og_subst.specs.Prepared.{Prepared, prepared};

    ghost Value = { Prepared };

    ghost view = { λ p. prepared p.map p.values.items };
}

impl ActionMap {
    // The part of the action that is prepared.
    pub(crate) fn new(alloc: Global, action: &Action) -> Result<ActionMap, FormError>
        ensures { IsAnswer (λ p. p) faults.TooLarge result
            (running.run (action_body action.now) running.nothing) }
    {
        let mut prepared = ActionMap {
            map: Map::new(alloc),
            values: Vec::new(alloc),
        };
        match action {
            Action::Assign(var, form) => prepared.assign(*var, form)?,
            Action::Await(body) => prepared.run(body)?,
        }
        Ok(prepared)
    }

    // The variable gets the form under the map so far.
    fn assign(&mut self, var: u32, form: &Form) -> Result<(), FormError>
        ensures { IsAnswer (λ _. self.new) faults.TooLarge result
            (running.assigned self.old var form.now) }
    {
        let value = form.apply(&self.map)?;
        self.map.set(var, value.copy()?)?;
        self.values.push(value)?;
        Ok(())
    }

    fn step(&mut self, basic: &Basic) -> Result<(), FormError>
        ensures { IsAnswer (λ _. self.new) faults.TooLarge result
            (running.step (simple basic.now) self.old) }
    {
        match basic {
            Basic::Skip => Ok(()),
            Basic::Assign(var, form) => self.assign(*var, form),
        }
    }

    fn run(&mut self, body: &[Basic]) -> Result<(), FormError>
        ensures { IsAnswer (λ _. self.new) faults.TooLarge result
            (running.run (map simple body.now) self.old) }
    {
        for basic in body {
            self.step(basic)?;
        }
        Ok(())
    }

    // The map alone.
    pub(crate) fn into_map(self) -> Map
        ensures { result ≡ self.map }
    {
        self.map
    }

    /// The map. Takes no memory, like `values`.
    pub fn map(&self) -> &Map
        ensures { result.now ≡ self.now.map }
    {
        &self.map
    }

    /// The form of each assigned value, in order, from the state before the action.
    pub fn values(&self) -> &[Form]
        ensures { result.now ≡ self.now.values }
    {
        &self.values
    }
}

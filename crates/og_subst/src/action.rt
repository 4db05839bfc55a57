//! Actions: what one step of a process assigns.

ghost use Rattle.std.specs.Prelude.{◌≡◌, ◌↔◌, ℕ, ℤ, List, map, option_map, IfOk, IsTrue};
ghost use Rattle.og_linear.specs.Linear.{val, value_at};
ghost use Rattle.og_linear.specs.Bounded.{image};
ghost use Rattle.og_linear.specs.Answer.{IsAnswer};
ghost use Rattle.og_linear.specs.declared.fault.FormFault.TheVariants as faults;
ghost use Rattle.og_typed.specs.Plain.{simple, statement};
ghost use Rattle.og_typed.specs.Machine.{act};
ghost use Rattle.og_subst.specs.Actions.{action_tree, action_body, stmt_action, stmt_body, assigns, assigned_values};
ghost use Rattle.og_subst.specs.Subst as subst;

use crate::equality::{same_bodies, same_forms};
use crate::prepared::ActionMap;
use og_linear::{Form, FormError, Map};
use og_typed::{Basic, Stmt};
use std::alloc::Global;

/// An assignment outside awaits, or a whole await; borrowed.
#[derive(Clone, Copy)]
pub enum Action<'a> {
    /// The variable gets the form's value.
    Assign(u32, &'a Form),
    /// The statements of an await, done as one step.
    Await(&'a [Basic]),
}

// Whether some statement assigns the variable.
fn is_assigned(var: u32, body: &[Basic]) -> bool
    ensures { result ≡ assigns var (map simple body.now) }
{
    for basic in body {
        if let Basic::Assign(assigned, _) = basic {
            if var == *assigned {
                return true;
            }
        }
    }
    false
}

impl<'a> Action<'a> {
    /// The action of an assignment or of an await. No other statement is one. Takes no memory.
    pub fn of(stmt: &'a Stmt) -> Option<Action<'a>>
        ensures action { option_map action_tree result ≡ stmt_action (statement stmt.now) }
        ensures body { option_map action_body result ≡ stmt_body (statement stmt.now) }
    {
        match stmt {
            Stmt::Assign(var, form) => Some(Action::Assign(*var, form)),
            Stmt::Await(_, body) => Some(Action::Await(body)),
            _ => None,
        }
    }

    /// Whether the action assigns the variable. Takes no memory.
    pub fn assigns(&self, var: u32) -> bool
        ensures { result ≡ assigns var (action_body self.now) }
    {
        match self {
            Action::Assign(assigned, _) => var == *assigned,
            Action::Await(body) => is_assigned(var, body),
        }
    }

    /// The action as one map: for each variable the form that gives, before the action, its value
    /// after the action. Each assignment in order sets its variable to its form under the map so
    /// far.
    ///
    /// `TooLarge` where a step of this arithmetic leaves `i128`.
    pub fn map(&self, alloc: Global) -> Result<Map, FormError>
        ensures answer { IsAnswer (λ m. m) faults.TooLarge result
            (subst.forward (action_body self.now)) }
        ensures value { IfOk result (λ m. (s : List ℤ) (x : ℕ)
            → val (image m x) s ≡ value_at (act (action_body self.now) s) x) }
    {
        Ok(ActionMap::new(alloc, self)?.into_map())
    }

    /// The map of the action, and the form of each value that it assigns, in order.
    ///
    /// `TooLarge` exactly where `map` answers it.
    pub fn prepare(&self, alloc: Global) -> Result<ActionMap, FormError>
        ensures map { IsAnswer (λ p. p.map) faults.TooLarge result
            (subst.forward (action_body self.now)) }
        ensures values { IsAnswer (λ p. p.values) faults.TooLarge result
            (subst.values (action_body self.now)) }
        ensures value { IfOk result (λ p. (s : List ℤ)
            → map (λ v. val v s) p.values ≡ assigned_values (action_body self.now) s) }
    {
        ActionMap::new(alloc, self)
    }

    /// Whether the two actions are equal as trees. An assignment is no await of that one
    /// assignment. Takes no memory.
    pub fn equals(&self, other: &Action) -> bool
        ensures { IsTrue result ↔ (action_tree self.now ≡ action_tree other.now) }
    {
        match (self, other) {
            (Action::Assign(x, form), Action::Assign(y, other)) => {
                *x == *y && same_forms(form, other)
            }
            (Action::Await(body), Action::Await(other)) => same_bodies(body, other),
            _ => false,
        }
    }
}

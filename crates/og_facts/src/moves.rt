//! What an action makes of forms.

ghost use Rattle.std.specs.Prelude.{◌≡◌, true, false, Some, option_map, IsTrue};
ghost use Rattle.og_linear.specs.Bounded.{apply, names};
ghost use Rattle.og_subst.specs.Actions.{action_tree};
ghost use Rattle.og_subst.specs.Subst.{forward};
ghost use Rattle.og_cond.specs.Condition.{assignments};

use og_linear::{Form, Map};
use og_subst::Action;
use std::marker::Model;

/// The map of an action, or of none. Contracts see the map.
#[derive(Drop)]
pub(crate) struct Moves<'m, 'c> {
    map: &'m Map,
    action: Option<Action<'c>>,
}

impl<'m, 'c> Model for Moves<'m, 'c> {
    ghost use Rattle.og_linear.specs.Bounded.{MapValue};
    ghost use Rattle.og_facts.specs.Moving.{AreAssigned};

    ghost Value = { MapValue };

    ghost view = { λ m. m.map.now };

    ghost invariant = { λ m. AreAssigned m.map.now m.action };
}

impl<'m, 'c> Moves<'m, 'c> {
    /// By this map, which is that of the action.
    pub(crate) fn new(map: &'m Map, action: Option<Action<'c>>) -> Moves<'m, 'c>
        requires { forward (assignments (option_map action_tree action)) ≡ Some map.now }
        ensures { result ≡ map.now }
    {
        Moves { map, action }
    }

    /// The map.
    pub(crate) fn map(&self) -> &Map
        ensures { result.now ≡ self.now }
    {
        self.map
    }

    // Whether the action assigns the variable.
    fn assigns(&self, var: u32) -> bool
        ensures { result ≡ false → names self.now var ≡ false }
    {
        match &self.action {
            Some(action) => action.assigns(var),
            None => false,
        }
    }

    /// Whether the action assigns none of the variables of the form, and so leaves it as it is.
    pub(crate) fn keeps(&self, form: &Form) -> bool
        ensures { IsTrue result → apply self.now form.now ≡ Some form.now }
    {
        form.numbers_fit();
        let mut index = 0;
        while let Some((var, _)) = form.term(index) {
            if self.assigns(var) {
                return false;
            }
            index += 1;
        }
        true
    }
}

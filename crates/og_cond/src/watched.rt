//! Actions and assertions, each with its set of variables.

ghost use Rattle.std.specs.Prelude.{◌≡◌, ℕ};
ghost use Rattle.og_typed.specs.Plain.{formula};
ghost use Rattle.og_subst.specs.Actions.{action_body};
ghost use Rattle.og_cond.specs.Sets.{has, watches, changes};

use crate::varset::VarSet;
use og_subst::Action;
use og_typed::{Assert, Note};

/// An action with the variables that it assigns.
#[derive(Drop)]
pub(crate) struct Move<'a> {
    pub(crate) at: u32,
    pub(crate) before: &'a Assert,
    pub(crate) guard: Option<&'a Assert>,
    pub(crate) action: Action<'a>,
    pub(crate) assigned: VarSet,
    ghost exact: { (x : ℕ) → has assigned x ≡ changes (action_body action) x },
}

/// An assertion with the variables that occur in it.
#[derive(Drop)]
pub(crate) struct Watched<'a> {
    pub(crate) note: &'a Note,
    pub(crate) variables: VarSet,
    ghost exact: { (x : ℕ) → has variables x ≡ watches (formula note.now.assertion) x },
}

/// What matters of a process for interference: its actions, and the assertions that the others may
/// break.
#[derive(Drop)]
pub(crate) struct Side<'a> {
    pub(crate) moves: Vec<Move<'a>>,
    pub(crate) notes: Vec<Watched<'a>>,
}

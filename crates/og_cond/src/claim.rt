//! Conditions without an action, and with one.

ghost use Rattle.std.specs.Prelude.{◌≡◌, None, Some, map};
ghost use Rattle.og_subst.specs.Actions.{action_tree};
ghost use Rattle.og_cond.specs.Seen.{seen, hypothesis_of, goal_of, claim};

use crate::condition::{Condition, Goal, Hypothesis};
use crate::kind::Kind;
use og_subst::Action;

impl<'a> Condition<'a> {
    /// The claim where nothing acts.
    pub(crate) fn of_states(
        kind: Kind,
        at: u32,
        variables: u32,
        hypotheses: Vec<Hypothesis<'a>>,
        goal: Goal<'a>,
    ) -> Condition<'a>
        ensures { seen result ≡ claim kind at variables (map hypothesis_of hypotheses.entry.items)
            None (goal_of goal.entry) }
    {
        Condition {
            kind,
            at,
            action_at: None,
            variables,
            hypotheses,
            goal,
            action: None,
        }
    }

    /// The claim of an action that stands here.
    pub(crate) fn of_action(
        kind: Kind,
        at: u32,
        variables: u32,
        hypotheses: Vec<Hypothesis<'a>>,
        action: Action<'a>,
        goal: Goal<'a>,
    ) -> Condition<'a>
        ensures { seen result ≡ claim kind at variables (map hypothesis_of hypotheses.entry.items)
            (Some (action_tree action.entry)) (goal_of goal.entry) }
    {
        Condition {
            kind,
            at,
            action_at: None,
            variables,
            hypotheses,
            goal,
            action: Some(action),
        }
    }
}

//! A condition as a triple.

ghost use Rattle.std.specs.Prelude.{◌≡◌, ◌++◌, map, option_map, OnOk};
ghost use Rattle.og_cond.specs.Seen.{goal_of, hypothesis_of, seen};
ghost use Rattle.og_subst.specs.Actions.{action_tree};
ghost use Rattle.og_report_conditions.specs.Triples.{own_hypotheses, goal_text, lines_text, triple_text};

use crate::parts::put_before;
use crate::statements::put_statement;
use og_cond::{Condition, Goal, Hypothesis};
use og_report_text::{Places, put_assertion, put_heading};
use og_subst::Action;
use og_text::Name;
use std::alloc::AllocError;

// The hypotheses that no guard stands for.
fn own_hypotheses<'s, 'a>(
    action: &Option<Action>,
    hypotheses: &'s [Hypothesis<'a>],
) -> &'s [Hypothesis<'a>]
    ensures { map hypothesis_of result.now
        ≡ own_hypotheses (option_map action_tree action.now) (map hypothesis_of hypotheses.now) }
{
    match action {
        Some(Action::Await(_)) => &hypotheses[..hypotheses.len().saturating_sub(1)],
        _ => hypotheses,
    }
}

fn put_goal(text: &mut Vec<u8>, names: &[Name], goal: &Goal) -> Result<(), AllocError>
    ensures { OnOk result (text.new.items ≡ text.old.items
        ++ goal_text names.now (goal_of goal.now)) }
{
    match goal {
        Goal::Holds(a) => {
            text.extend_from_slice(b"{")?;
            put_assertion(text, names, a)?;
            text.extend_from_slice(b"}")
        }
        Goal::Fits => text.extend_from_slice(b"no overflow"),
        Goal::Never => text.extend_from_slice(b"{false}"),
    }
}

// The three lines of a condition.
fn put_lines(text: &mut Vec<u8>, names: &[Name], condition: &Condition) -> Result<(), AllocError>
    ensures { OnOk result (text.new.items ≡ text.old.items
        ++ lines_text names.now (seen condition.now)) }
{
    let hypotheses = condition.hypotheses.as_slice();
    put_before(text, names, own_hypotheses(&condition.action, hypotheses))?;
    text.extend_from_slice(b"  ")?;
    put_statement(text, names, hypotheses, &condition.action)?;
    text.extend_from_slice(b"\n  ")?;
    put_goal(text, names, &condition.goal)?;
    text.extend_from_slice(b"\n")
}

/// Adds a condition with this number to the text: its number, its kind and its places, and then the
/// assertion before, the statement and the assertion after, a line each.
///
/// # Errors
///
/// An allocation was refused; the text has what it had, and perhaps a part of this.
pub fn put_triple(
    text: &mut Vec<u8>,
    names: &[Name],
    places: &Places,
    number: u32,
    condition: &Condition,
) -> Result<(), AllocError>
    ensures { OnOk result (text.new.items ≡ text.old.items
        ++ triple_text names.now places.now number (seen condition.now)) }
{
    put_heading(text, places, u128::from(number), condition)?;
    put_lines(text, names, condition)
}

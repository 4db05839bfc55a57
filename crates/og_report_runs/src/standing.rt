//! Who stands at the places of a condition, as far as the texts of assertions show it.

ghost use Rattle.std.specs.Prelude.{◌≡◌, ◌↔◌, IfOk, IsTrue, option_map};
ghost use Rattle.og_typed.specs.Plain.{formula, noted, statement};
ghost use Rattle.og_typed.specs.Machine.{todo};
ghost use Rattle.og_subst.specs.Actions.{action_tree, stmt_action};
ghost use Rattle.og_typed.specs.Seen.{note_of, statement_of};
ghost use Rattle.og_report_text.specs.Assertions.{assertion_text};
ghost use Rattle.og_report_runs.specs.Places.{number_of, next_action, IsAt, IsBefore, Stands};

use crate::place::Place;
use crate::placing::number_of;
use og_report_text::put_assertion;
use og_step::Moment;
use og_subst::Action;
use og_text::Name;
use og_typed::{Assert, Note, Outline, StatementSite, Stmt};
use std::alloc::{AllocError, Global};

/// Whether two assertions read alike.
///
/// # Errors
///
/// An allocation was refused.
pub(crate) fn read_alike(
    alloc: Global,
    names: &[Name],
    first: &Assert,
    second: &Assert,
) -> Result<bool, AllocError>
    ensures { IfOk result (λ yes. IsTrue yes ↔ (assertion_text names.now (formula first.now)
        ≡ assertion_text names.now (formula second.now))) }
{
    let mut text = Vec::new(alloc);
    put_assertion(&mut text, names, first)?;
    let mut other = Vec::new(alloc);
    put_assertion(&mut other, names, second)?;
    Ok(text.as_slice() == other.as_slice())
}

// The action of what process p does next, if that is one.
fn next_action<'a>(moment: &Moment<'a>, p: u32) -> Option<Action<'a>>
    ensures { option_map action_tree result ≡ next_action (todo moment.now.moment p) }
{
    match moment.head(p) {
        Some(item) => Action::of(&item.stmt),
        None => None,
    }
}

// Whether both are the same action, or none.
fn is_same(first: &Option<Action>, second: &Option<Action>) -> bool
    ensures { IsTrue result ↔ (option_map action_tree first.now ≡ option_map action_tree second.now) }
{
    match (first, second) {
        (Some(first), Some(second)) => first.equals(second),
        (None, None) => true,
        _ => false,
    }
}

/// A process of an outline at a moment.
#[derive(Clone, Copy)]
pub(crate) struct ProcessAt<'m, 'a> {
    pub(crate) outline: &'m Outline,
    pub(crate) moment: &'m Moment<'a>,
    /// Its number.
    pub(crate) p: u32,
}

impl ProcessAt<'_, '_> {
    /// Whether the process is active at an assertion that reads as this one.
    ///
    /// # Errors
    ///
    /// An allocation was refused.
    pub(crate) fn is_at(&self, alloc: Global, note: &Note) -> Result<bool, AllocError>
        requires { self.now.moment.now.outline ≡ self.now.outline.now }
        ensures { IfOk result (λ yes. IsTrue yes
            ↔ IsAt self.now.outline.now self.now.moment.now.moment self.now.p (noted note.now)) }
    {
        let (outline, moment, p) = (self.outline, self.moment, self.p);
        if !moment.is_active(p) {
            return Ok(false);
        }
        let yes = read_alike(alloc, outline.names(), moment.current(p), &note.assertion)?;
        Ok(yes)
    }

    /// Whether the process is active before a statement that reads as this one.
    ///
    /// # Errors
    ///
    /// An allocation was refused.
    pub(crate) fn is_before(&self, alloc: Global, site: &StatementSite) -> Result<bool, AllocError>
        requires { self.now.moment.now.outline ≡ self.now.outline.now }
        ensures { IfOk result (λ yes. IsTrue yes
            ↔ IsBefore self.now.outline.now self.now.moment.now.moment self.now.p
            (statement_of site.now).piece) }
    {
        if !self.is_at(alloc, &site.item.before)? {
            return Ok(false);
        }
        let next = next_action(self.moment, self.p);
        let action = Action::of(&site.item.stmt);
        let yes = is_same(&next, &action);
        Ok(yes)
    }
}

/// Whether the processes stand there. Of a step that leaves a branch or a body nothing is asked.
///
/// # Errors
///
/// An allocation was refused.
pub(crate) fn stands(
    alloc: Global,
    outline: &Outline,
    moment: &Moment,
    place: &Place,
) -> Result<bool, AllocError>
    requires { moment.now.outline ≡ outline.now }
    ensures { IfOk result (λ yes. IsTrue yes ↔ Stands outline.now moment.now.moment place.now) }
{
    match place {
        Place::Before(site) => {
            let p = number_of(outline, site.part);
            let process = ProcessAt { outline, moment, p };
            process.is_before(alloc, site)
        }
        Place::Between(site, note) => {
            let p = number_of(outline, site.part);
            let process = ProcessAt { outline, moment, p };
            if !process.is_before(alloc, site)? {
                return Ok(false);
            }
            let p = number_of(outline, note.part);
            let other = ProcessAt { outline, moment, p };
            other.is_at(alloc, note.note)
        }
        Place::At(note) => {
            let p = number_of(outline, note.part);
            let process = ProcessAt { outline, moment, p };
            process.is_at(alloc, note.note)
        }
        Place::Exit(..) | Place::Left(_) => Ok(true),
        Place::Ended => Ok(moment.is_finished()),
        Place::Stuck => Ok(moment.is_stuck()),
    }
}

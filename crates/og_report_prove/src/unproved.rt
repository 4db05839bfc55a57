//! A condition that is not proved.

ghost use Rattle.std.specs.Prelude.{◌≡◌, ◌≤◌, ◌^◌, [], length, IfOk, OnOk};
ghost use Rattle.serde_json.specs.Data.{object};
ghost use Rattle.serde_json.specs.View.{view, members_view};
ghost use Rattle.og_cond.specs.Seen.{seen};
ghost use Rattle.og_report_text.specs.Places.{position_of};
ghost use Rattle.og_report_prove.specs.Ends.{end_of};
ghost use Rattle.og_report_prove.specs.Json.{status_word, last_members, middle_members, diagnosis_data};

use crate::diagnosis::Diagnosis;
use crate::ends::end_of;
use crate::faults::{after_member, false_member, state_member, too_large_member};
use crate::values::put_optional;
use og_cond::Condition;
use og_report_text::{Origins, Position, set_number, set_text};
use og_text::Name;
use serde_json::{Map, Value};
use std::alloc::{AllocError, Global};

// The word for the finding.
fn status_word(diagnosis: &Diagnosis) -> &'static str
    ensures { result.now ≡ status_word diagnosis.now }
{
    match diagnosis {
        Diagnosis::Proved => "proved",
        Diagnosis::False(_) => "false",
        Diagnosis::Open => "open",
    }
}

/// A condition by its number from 1, the finding on it, and what both are reported with.
#[derive(Clone, Copy)]
pub(crate) struct Entry<'e, 'c, 'd> {
    /// The names of the variables.
    pub(crate) names: &'e [Name],
    /// The source and its places.
    pub(crate) origins: &'e Origins<'e>,
    pub(crate) number: u64,
    pub(crate) condition: &'e Condition<'c>,
    pub(crate) diagnosis: &'e Diagnosis<'d>,
}

impl Entry<'_, '_, '_> {
    // Where the part ends that begins there.
    fn end_at(&self, at: u32) -> Position
        requires places { self.now.origins.now.places.now ≡ self.now.origins.now.source.now }
        requires short { length self.now.origins.now.source.now ≤ 2 ^ 20 }
        ensures { result ≡ position_of self.now.origins.now.source.now
            (end_of self.now.origins.now.source.now at) }
    {
        self.origins
            .places
            .position(end_of(self.origins.source, at))
    }

    // Sets the state and the status.
    fn put_last(&self, members: &mut Map<String, Value>, alloc: Global) -> Result<(), AllocError>
        requires { members.old.entries ≡ [] }
        ensures { OnOk result (members_view members.new.entries
            ≡ last_members self.now.names.now self.now.diagnosis.now) }
    {
        let too_large = too_large_member(alloc, self)?;
        put_optional(members, alloc, "too_large", too_large)?;
        set_text(members, alloc, "status", status_word(self.diagnosis))?;
        let state = state_member(alloc, self)?;
        put_optional(members, alloc, "state", state)
    }

    // Sets the place, the number and the kind, and the false conjuncts.
    fn put_middle(&self, members: &mut Map<String, Value>, alloc: Global) -> Result<(), AllocError>
        requires places { self.now.origins.now.places.now ≡ self.now.origins.now.source.now }
        requires short { length self.now.origins.now.source.now ≤ 2 ^ 20 }
        requires last { members_view members.old.entries
            ≡ last_members self.now.names.now self.now.diagnosis.now }
        ensures { OnOk result (members_view members.new.entries
            ≡ middle_members self.now.names.now self.now.origins.now.source.now self.now.number
            (seen self.now.condition.now) self.now.diagnosis.now) }
    {
        let at = self.condition.at;
        let place = self.origins.places.position(at);
        let end = self.end_at(at);
        set_number(members, alloc, "line", place.line as u64)?;
        set_text(members, alloc, "kind", self.condition.kind.name())?;
        let found = false_member(alloc, self)?;
        put_optional(members, alloc, "false", found)?;
        set_number(members, alloc, "end_line", end.line as u64)?;
        set_number(members, alloc, "end_column", end.column as u64)?;
        set_number(members, alloc, "condition", self.number)?;
        set_number(members, alloc, "column", place.column as u64)
    }

    // Sets what the action assigns, and its place in interference.
    fn put_first(&self, members: &mut Map<String, Value>, alloc: Global) -> Result<(), AllocError>
        requires places { self.now.origins.now.places.now ≡ self.now.origins.now.source.now }
        requires short { length self.now.origins.now.source.now ≤ 2 ^ 20 }
        requires middle { members_view members.old.entries
            ≡ middle_members self.now.names.now self.now.origins.now.source.now self.now.number
            (seen self.now.condition.now) self.now.diagnosis.now }
        ensures { OnOk result (object (members_view members.new.entries)
            ≡ diagnosis_data self.now.names.now self.now.origins.now.source.now self.now.number
            (seen self.now.condition.now) self.now.diagnosis.now) }
    {
        let after = after_member(alloc, self)?;
        put_optional(members, alloc, "after", after)?;
        let Some(at) = self.condition.action_at else {
            return Ok(());
        };
        let action = self.origins.places.position(at);
        let end = self.end_at(at);
        set_number(members, alloc, "action_line", action.line as u64)?;
        set_number(members, alloc, "action_end_line", end.line as u64)?;
        set_number(members, alloc, "action_end_column", end.column as u64)?;
        set_number(members, alloc, "action_column", action.column as u64)
    }
}

/// The value of a condition, by its number from 1, with the places and the ends of its own text.
///
/// # Errors
///
/// An allocation was refused.
pub fn diagnosis_value(
    alloc: Global,
    names: &[Name],
    origins: &Origins,
    number: u64,
    condition: &Condition,
    diagnosis: &Diagnosis,
) -> Result<Value, AllocError>
    requires places { origins.now.places.now ≡ origins.now.source.now }
    requires short { length origins.now.source.now ≤ 2 ^ 20 }
    ensures { IfOk result (λ v. view v
        ≡ diagnosis_data names.now origins.now.source.now number (seen condition.now) diagnosis.now) }
{
    let entry = Entry {
        names,
        origins,
        number,
        condition,
        diagnosis,
    };
    let mut members = Map::new(alloc);
    entry.put_last(&mut members, alloc)?;
    entry.put_middle(&mut members, alloc)?;
    entry.put_first(&mut members, alloc)?;
    Ok(Value::Object(members))
}

//! Conditions by number, with what is found of each.

ghost use Rattle.std.specs.Prelude.{◌≡◌, ◌<◌, ◌^◌, ◌++◌, length, map, IfOk, OnOk};
ghost use Rattle.og_cond.specs.Seen.{seen};
ghost use Rattle.og_report_findings.specs.Entries.{entry_of, if_unproved, unproved_from};

use crate::suggestion::Suggestion;
use og_cond::Condition;
use og_report_prove::Diagnosis;
use og_report_runs::{Explored, Run};
use std::alloc::{AllocError, Global};

/// What is found of all conditions of an outline.
#[derive(Clone, Copy)]
pub struct Findings<'f, 'c, 'd> {
    /// The conditions.
    pub conditions: &'f [Condition<'c>],
    /// Whether each is proved, false in a state, or neither.
    pub diagnoses: &'f [Diagnosis<'d>],
    /// What is known of the runs to a state in which it is false.
    pub runs: &'f [Run],
    /// How far runs were followed, where some were.
    pub explored: Option<Explored>,
    /// What a text suggests below each false one; nothing of those behind its end.
    pub advice: &'f [Vec<Suggestion<'f>>],
}

/// A condition by its number from 1, and what is found of it.
#[derive(Clone, Copy)]
pub struct Entry<'e, 'c, 'd> {
    pub number: u64,
    pub condition: &'e Condition<'c>,
    pub diagnosis: &'e Diagnosis<'d>,
    /// What is known of the runs to a state in which it is false.
    pub run: &'e Run,
}

// Adds an entry, unless it is proved.
fn add_unproved<'e, 'c, 'd>(
    entries: &mut Vec<Entry<'e, 'c, 'd>>,
    entry: Entry<'e, 'c, 'd>,
) -> Result<(), AllocError>
    ensures { OnOk result (map entry_of entries.new.items
        ≡ map entry_of entries.old.items ++ if_unproved (entry_of entry.entry)) }
{
    if entry.diagnosis.is_proved() {
        return Ok(());
    }
    entries.push(entry)?;
    Ok(())
}

// Those that are not proved, where all are numbered from 1.
fn unproved_of<'e, 'c, 'd>(
    alloc: Global,
    conditions: &'e [Condition<'c>],
    diagnoses: &'e [Diagnosis<'d>],
    runs: &'e [Run],
) -> Result<Vec<Entry<'e, 'c, 'd>>, AllocError>
    requires each { length diagnoses.now ≡ length conditions.now }
    requires run { length runs.now ≡ length conditions.now }
    requires few { length diagnoses.now < 2 ^ 32 }
    ensures { IfOk result (λ v. map entry_of v.items
        ≡ unproved_from 1 (map seen conditions.now) diagnoses.now runs.now) }
{
    let mut entries = Vec::new(alloc);
    for index in 0..conditions.len() {
        let entry = Entry {
            number: index as u64 + 1,
            condition: &conditions[index],
            diagnosis: &diagnoses[index],
            run: &runs[index],
        };
        add_unproved(&mut entries, entry)?;
    }
    Ok(entries)
}

impl<'f, 'c, 'd> Findings<'f, 'c, 'd> {
    /// The conditions that are not proved, by their numbers.
    ///
    /// # Errors
    ///
    /// An allocation was refused.
    pub fn unproved(&self, alloc: Global) -> Result<Vec<Entry<'f, 'c, 'd>>, AllocError>
        requires each { length self.now.diagnoses.now ≡ length self.now.conditions.now }
        requires run { length self.now.runs.now ≡ length self.now.conditions.now }
        requires few { length self.now.diagnoses.now < 2 ^ 32 }
        ensures { IfOk result (λ v. map entry_of v.items ≡ unproved_from 1
            (map seen self.now.conditions.now) self.now.diagnoses.now self.now.runs.now) }
    {
        unproved_of(alloc, self.conditions, self.diagnoses, self.runs)
    }
}

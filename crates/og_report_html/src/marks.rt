//! The findings at the places in the source.

ghost use Rattle.std.specs.Prelude.{◌≡◌, ◌++◌, ◌==◌, ◌<◌, ◌^◌, ℕ, length, map, option_map, Some, IfOk, OnOk};
ghost use Rattle.og_cond.specs.Seen.{seen};
ghost use Rattle.og_report_text.specs.Origins.{row_at};
ghost use Rattle.og_report_html.specs.Marks.{fault_place, marked_place, shown_at, is_action, mark_of, after_open, joined, with_mark, marked, with_diagnosis, mark_at, found};

use crate::target::Target;
use og_cond::Condition;
use og_report_explain::Fault;
use og_report_prove::Diagnosis;
use og_report_text::{Row, Rows};
use std::alloc::{AllocError, Global};
use std::collections::BTreeMap;

/// The finding at a place: the number of a condition with that place.
#[derive(Clone, Copy, PartialEq, Eq, Drop)]
pub(crate) enum Mark {
    /// The first one that is false.
    False(u128),
    /// None is false: the first one that is open.
    Open(u128),
}

impl Mark {
    // The finding on a condition with this number.
    fn of(number: u128, diagnosis: &Diagnosis) -> Option<Mark>
        ensures { result ≡ mark_of number diagnosis.now }
    {
        match diagnosis {
            Diagnosis::Proved => None,
            Diagnosis::False(_) => Some(Mark::False(number)),
            Diagnosis::Open => Some(Mark::Open(number)),
        }
    }

    // After an open one.
    fn after_open(self, first: u128) -> Mark
        ensures { result ≡ after_open first self }
    {
        match self {
            Mark::False(number) => Mark::False(number),
            Mark::Open(_) => Mark::Open(first),
        }
    }

    // With the mark that the place has.
    fn joined(self, old: Option<Mark>) -> Mark
        ensures { result ≡ joined old self }
    {
        match old {
            None => self,
            Some(Mark::False(first)) => Mark::False(first),
            Some(Mark::Open(first)) => self.after_open(first),
        }
    }
}

/// The marks of places, by byte offsets.
pub(crate) type Marks = BTreeMap<u32, Mark>;

// The place of the condition.
pub(crate) fn marked_place(condition: &Condition, diagnosis: &Diagnosis, target: &Target) -> u32
    ensures { result ≡ marked_place (seen condition.now) diagnosis.now target.now }
{
    let Diagnosis::False(block) = diagnosis else {
        return target.goal;
    };
    match &block.details.explanation.fault {
        Fault::False(note, _) => note.at,
        Fault::TooLarge(..) | Fault::Blocked(_) => condition.at,
    }
}

/// The row of a part of the outline.
pub(crate) fn row(rows: Option<&Rows>, at: u32) -> Option<&Row>
    ensures { option_map (λ r. r.now) result ≡ row_at rows.entry at }
{
    rows?.get(&at)
}

/// Where the part of the outline at the byte offset `at` stands in the text that is shown.
pub(crate) fn shown_at(rows: Option<&Rows>, at: u32) -> u32
    ensures { result ≡ shown_at rows.entry at }
{
    match row(rows, at) {
        None => at,
        Some(row) => row.from,
    }
}

// One mark more.
fn add_mark(marks: &mut Marks, at: u32, mark: Mark) -> Result<(), AllocError>
    ensures { OnOk result ((p : ℕ) → found p marks.new
        ≡ marked (p == at) (Some mark) (found p marks.old)) }
{
    let joined = mark.joined(marks.get(&at).copied());
    marks.insert(at, joined)?;
    Ok(())
}

// One mark more, where there is such a place.
fn add_action_mark(
    marks: &mut Marks,
    rows: Option<&Rows>,
    at: Option<u32>,
    mark: Mark,
) -> Result<(), AllocError>
    ensures { OnOk result ((p : ℕ) → found p marks.new
        ≡ marked (is_action rows.entry p at) (Some mark) (found p marks.old)) }
{
    match at {
        None => Ok(()),
        Some(at) => add_mark(marks, shown_at(rows, at), mark),
    }
}

// The marks of a condition.
fn add_diagnosis(
    marks: &mut Marks,
    rows: Option<&Rows>,
    number: u128,
    condition: &Condition,
    diagnosis: &Diagnosis,
    target: &Target,
) -> Result<(), AllocError>
    ensures { OnOk result ((p : ℕ) → found p marks.new
        ≡ with_diagnosis rows.entry p number (seen condition.now) diagnosis.now target.now
        (found p marks.old)) }
{
    let Some(mark) = Mark::of(number, diagnosis) else {
        return Ok(());
    };
    let place = shown_at(rows, marked_place(condition, diagnosis, target));
    add_mark(marks, place, mark)?;
    add_action_mark(marks, rows, condition.action_at, mark)
}

/// The marks of all conditions, in the text that is shown.
pub(crate) fn marks_of(
    alloc: Global,
    rows: Option<&Rows>,
    conditions: &[Condition],
    diagnoses: &[Diagnosis],
    targets: &[Target],
) -> Result<Marks, AllocError>
    requires diagnoses { length diagnoses.now ≡ length conditions.now }
    requires targets { length targets.now ≡ length conditions.now }
    ensures { IfOk result (λ marks.
        (p : ℕ) → found p marks
        ≡ mark_at rows.entry (map seen conditions.now) diagnoses.now targets.now p) }
{
    let mut marks = Marks::new(alloc);
    for index in 0..conditions.len() {
        let number = index as u128 + 1;
        let (condition, target) = (&conditions[index], &targets[index]);
        add_diagnosis(
            &mut marks,
            rows,
            number,
            condition,
            &diagnoses[index],
            target,
        )?;
    }
    Ok(marks)
}

//! What is found of the conditions of an outline.

ghost use Rattle.std.specs.Prelude.{◌≡◌};

use og_cond::Condition;
use og_report_findings::Suggestion;
use og_report_prove::Diagnosis;
use og_report_runs::{Explored, Run};

/// What is found of a condition.
#[derive(Drop)]
pub(crate) struct Finding<'a> {
    /// Whether it is proved, false in a state, or neither.
    pub(crate) diagnosis: Diagnosis<'a>,
    /// What is known of the runs to a state in which it is false; nothing where none was followed.
    pub(crate) run: Run,
}

/// What is found of all conditions of an outline, by columns: beside rows these would double the
/// memory of a large outline.
#[derive(Drop)]
pub(crate) struct Findings<'a> {
    pub(crate) conditions: Vec<Condition<'a>>,
    /// One for each condition, in their order.
    pub(crate) diagnoses: Vec<Diagnosis<'a>>,
    /// The same.
    pub(crate) runs: Vec<Run>,
    /// How far runs were followed, where some were.
    pub(crate) explored: Option<Explored>,
}

/// That, and what is suggested below false conditions, as reports take it.
#[derive(Drop)]
pub(crate) struct Table<'a> {
    pub(crate) conditions: Vec<Condition<'a>>,
    pub(crate) diagnoses: Vec<Diagnosis<'a>>,
    pub(crate) runs: Vec<Run>,
    pub(crate) explored: Option<Explored>,
    pub(crate) advice: Vec<Vec<Suggestion<'a>>>,
}

impl<'a> Findings<'a> {
    /// The findings, with what is suggested below false ones.
    pub(crate) fn with_advice(self, advice: Vec<Vec<Suggestion<'a>>>) -> Table<'a>
        ensures conditions { result.conditions ≡ self.entry.conditions }
        ensures diagnoses { result.diagnoses ≡ self.entry.diagnoses }
        ensures runs { result.runs ≡ self.entry.runs }
        ensures explored { result.explored ≡ self.entry.explored }
        ensures advice { result.advice ≡ advice.entry }
    {
        Table {
            conditions: self.conditions,
            diagnoses: self.diagnoses,
            runs: self.runs,
            explored: self.explored,
            advice,
        }
    }
}

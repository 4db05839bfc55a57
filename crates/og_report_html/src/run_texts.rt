//! The report of the runs to a false condition.

ghost use Rattle.std.specs.Prelude.{◌≡◌, ◌++◌, nat_lt, length, map, IfOk, OnOk};
ghost use Rattle.std.specs.Str.{is_utf8};
ghost use Rattle.og_report_runs.specs.Report.{count_reached};
ghost use Rattle.og_report_html.specs.Lanes.{IsChartOf, line_text, IsRunText, IsRunPart, AreRunParts, complete_text, followed_text, about_text};

use crate::charting::chart;
use crate::escapes::{is_utf8, put_escaped};
use og_report_prove::Diagnosis;
use og_report_runs::{Explored, Run, count_reached, put_run_line};
use og_report_text::{put_number, put_number_between};
use og_typed::Outline;
use std::alloc::{AllocError, Global};

// An outline, its text, and how far its runs were explored.
#[derive(Clone, Copy)]
struct Search<'s> {
    outline: &'s Outline,
    source: &'s [u8],
    explored: Explored,
}

impl Search<'_> {
    // The chart of a run that gets there.
    fn chart_of(&self, alloc: Global, condition: u128, run: &Run) -> Result<Vec<u8>, AllocError>
        ensures { IfOk result (λ text.
            IsChartOf self.now.outline.now self.now.source.now condition run.now text.items) }
    {
        match run {
            Run::Reached(witness) => chart(alloc, self.outline, self.source, condition, witness),
            Run::Never | Run::Open => Ok(Vec::new(alloc)),
        }
    }

    // What `prove --runs` prints.
    fn line_of(&self, alloc: Global, run: &Run) -> Result<Vec<u8>, AllocError>
        ensures { IfOk result (λ text. text.items
            ≡ line_text self.now.outline.now self.now.source.now self.now.explored run.now) }
    {
        let mut line = Vec::new(alloc);
        put_run_line(&mut line, self.outline, self.explored, run)?;
        let mut text = Vec::new(alloc);
        text.extend_from_slice(b"<p class=run>")?;
        put_escaped(&mut text, is_utf8(self.source), &line)?;
        text.extend_from_slice(b"</p>\n")?;
        Ok(text)
    }

    // The line, and the chart.
    fn run_text(&self, alloc: Global, condition: u128, run: &Run) -> Result<Vec<u8>, AllocError>
        ensures { IfOk result (λ text. IsRunText self.now.outline.now self.now.source.now
            self.now.explored condition run.now text.items) }
    {
        let mut text = self.line_of(alloc, run)?;
        let chart = self.chart_of(alloc, condition, run)?;
        text.extend_from_slice(&chart)?;
        Ok(text)
    }

    // Of a false condition alone.
    fn run_part(
        &self,
        alloc: Global,
        condition: u128,
        diagnosis: &Diagnosis,
        run: &Run,
    ) -> Result<Vec<u8>, AllocError>
        ensures { IfOk result (λ text. IsRunPart self.now.outline.now self.now.source.now
            self.now.explored condition diagnosis.now run.now text.items) }
    {
        match diagnosis {
            Diagnosis::False(_) => self.run_text(alloc, condition, run),
            Diagnosis::Proved | Diagnosis::Open => Ok(Vec::new(alloc)),
        }
    }
}

/// The report of the runs to each false condition, as texts of HTML, one for each condition: the
/// line that `prove --runs` prints, and a chart of a run that gets there.
///
/// # Errors
///
/// An allocation was refused.
pub fn run_parts(
    alloc: Global,
    outline: &Outline,
    source: &[u8],
    explored: Explored,
    diagnoses: &[Diagnosis],
    runs: &[Run],
) -> Result<Vec<Vec<u8>>, AllocError>
    requires { length runs.now ≡ length diagnoses.now }
    ensures { IfOk result (λ texts. AreRunParts outline.now source.now explored 1 diagnoses.now runs.now
        (map (λ t. t.items) texts.items)) }
{
    let search = Search {
        outline,
        source,
        explored,
    };
    let mut texts = Vec::with_capacity(alloc, diagnoses.len())?;
    for index in 0..diagnoses.len() {
        let condition = index as u128 + 1;
        let text = search.run_part(alloc, condition, &diagnoses[index], &runs[index])?;
        texts.push(text)?;
    }
    Ok(texts)
}

fn put_complete(text: &mut Vec<u8>, complete: bool) -> Result<(), AllocError>
    ensures { OnOk result (text.new.items ≡ text.old.items ++ complete_text complete) }
{
    if complete {
        text.extend_from_slice(b", complete: yes")
    } else {
        text.extend_from_slice(b", complete: no")
    }
}

// How far the runs were followed.
fn put_followed(text: &mut Vec<u8>, explored: Explored) -> Result<(), AllocError>
    ensures { OnOk result (text.new.items ≡ text.old.items ++ followed_text explored) }
{
    put_number_between(
        text,
        b"<p>Runs: starts: ",
        u128::from(explored.starts),
        b", moments: ",
    )?;
    put_number(text, u128::from(explored.moments))?;
    put_complete(text, explored.complete)
}

/// How far the runs were followed, and to how many false conditions they get, as a text of HTML.
///
/// # Errors
///
/// An allocation was refused.
pub fn about(alloc: Global, explored: Explored, runs: &[Run]) -> Result<Vec<u8>, AllocError>
    ensures { IfOk result (λ text. text.items ≡ about_text explored (count_reached runs.now)) }
{
    let mut text = Vec::new(alloc);
    put_followed(&mut text, explored)?;
    put_number_between(
        &mut text,
        b", reached: ",
        count_reached(runs) as u128,
        b"</p>\n",
    )?;
    Ok(text)
}

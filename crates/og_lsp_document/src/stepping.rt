//! What the steps of statements do to assertions of other processes.

ghost use Rattle.std.specs.Prelude.{◌≡◌, ◌<◌, ◌^◌, ◌++◌, ℕ, None, length, map, flat_map, IfOk, IfSome, OnOk};
ghost use Rattle.std.specs.List.{AllZip};
ghost use Rattle.og_cond.specs.Seen.{seen};
ghost use Rattle.og_review_text.specs.Points.{points};
ghost use Rattle.og_review_text.specs.Seen.{point_of};
ghost use Rattle.og_lsp_diagnostics.specs.Extents.{LiesIn, part_span, place_in};
ghost use Rattle.og_lsp_document.specs.Parts.{found, with_all};
ghost use Rattle.og_lsp_diagnostics.specs.Said.{text_of, rows_of, IsSheet};
ghost use Rattle.og_lsp_document.specs.Stepping.{kept_by, all_kept, conditions_in, unproved_in, placed, IsCounted, IsBehind, AddsStatements, AreStatements, AreStatementsIn};

use crate::judged::StatementCount;
use crate::parts::{Asked, Counts, add_one};
use og_cond::Condition;
use og_lsp_diagnostics::Teller;
use og_report_prove::Diagnosis;
use og_review_text::{Point, walk_of};
use og_text::Span;
use og_typed::{Index, Item, Outline};
use std::alloc::AllocError;

// A condition that asks whether a step keeps an assertion of another process.
fn add_kept(
    teller: &Teller,
    asked: &mut Asked,
    condition: &Condition,
    is_proved: bool,
) -> Result<(), AllocError>
    requires { (p : ℕ) → IfSome (found p asked.old) (λ c. (c.conditions < 2 ^ 32) × (c.unproved < 2 ^ 32)) }
    ensures { OnOk result ((p : ℕ) → found p asked.new
        ≡ with_all p (found p asked.old) (kept_by (rows_of teller.now.page) (seen condition.now) is_proved)) }
{
    match condition.action_at {
        Some(at) => add_one(asked, teller.place(at), is_proved),
        None => Ok(()),
    }
}

// Of all conditions how many ask about each step.
fn kept_of(
    teller: &Teller,
    conditions: &[Condition],
    diagnoses: &[Diagnosis],
) -> Result<Asked, AllocError>
    requires each { length diagnoses.now ≡ length conditions.now }
    requires few { length diagnoses.now < 2 ^ 32 }
    ensures { IfOk result (λ m. (p : ℕ) → found p m
        ≡ with_all p None (all_kept (rows_of teller.now.page) (map seen conditions.now) diagnoses.now)) }
{
    let mut asked = Asked::new(teller.alloc);
    for index in 0..conditions.len() {
        let is_proved = diagnoses[index].is_proved();
        add_kept(teller, &mut asked, &conditions[index], is_proved)?;
    }
    Ok(asked)
}

// The counts at a byte offset of the given text.
fn counts_at(asked: &Asked, at: u32) -> Counts
    ensures conditions { result.conditions ≡ conditions_in (found at asked.now) }
    ensures unproved { result.unproved ≡ unproved_in (found at asked.now) }
{
    match asked.get(&at) {
        Some(counts) => *counts,
        None => Counts {
            conditions: 0,
            unproved: 0,
        },
    }
}

// The note behind a statement, where it is found.
fn behind(teller: &Teller, index: &Index, at: u32) -> Option<Span>
    requires { IsSheet teller.now.page }
    ensures behind { IfSome result (IsBehind (text_of teller.now.page) (rows_of teller.now.page) index.now at) }
    ensures lies { IfSome result (LiesIn (text_of teller.now.page)) }
{
    let site = index.statement(at)?;
    Some(teller.span(site.after.at))
}

// What is found of a statement behind a note.
fn statement(
    teller: &Teller,
    index: &Index,
    asked: &Asked,
    before: u32,
    item: &Item,
) -> StatementCount
    requires { IsSheet teller.now.page }
    ensures { IsCounted (text_of teller.now.page) (rows_of teller.now.page) index.now asked.now
        (before, item.now.at) result }
{
    let counts = counts_at(asked, teller.place(item.at));
    StatementCount {
        span: teller.span(item.at),
        before: teller.span(before),
        behind: behind(teller, index, item.at),
        conditions: counts.conditions,
        unproved: counts.unproved,
    }
}

// The statement at a place of the program, where there is one.
fn add_statement(
    teller: &Teller,
    statements: &mut Vec<StatementCount>,
    index: &Index,
    asked: &Asked,
    point: &Point,
) -> Result<(), AllocError>
    requires { IsSheet teller.now.page }
    ensures { OnOk result (AddsStatements (text_of teller.now.page) (rows_of teller.now.page) index.now
        asked.now (placed (point_of point.now)) statements.old.items statements.new.items) }
{
    if let Some(item) = point.item {
        statements.push(statement(teller, index, asked, point.note.at, item))?;
    }
    Ok(())
}

// The statements at places of a program.
fn statements_at(
    teller: &Teller,
    index: &Index,
    asked: &Asked,
    points: &[Point],
) -> Result<Vec<StatementCount>, AllocError>
    requires { IsSheet teller.now.page }
    ensures { IfOk result (λ v. AllZip (IsCounted (text_of teller.now.page) (rows_of teller.now.page) index.now
        asked.now) (flat_map placed (map point_of points.now)) v.items) }
{
    let mut statements = Vec::with_capacity(teller.alloc, points.len())?;
    for point in points {
        add_statement(teller, &mut statements, index, asked, point)?;
    }
    Ok(statements)
}

/// What is found of each statement, in the order of the text.
///
/// # Errors
///
/// An allocation was refused.
pub(crate) fn statements_of(
    teller: &Teller,
    outline: &Outline,
    conditions: &[Condition],
    diagnoses: &[Diagnosis],
) -> Result<Vec<StatementCount>, AllocError>
    requires sheet { IsSheet teller.now.page }
    requires each { length diagnoses.now ≡ length conditions.now }
    requires few { length diagnoses.now < 2 ^ 32 }
    ensures statements { IfOk result (λ v. AreStatements (text_of teller.now.page) (rows_of teller.now.page)
        outline.now (map seen conditions.now) diagnoses.now v.items) }
    ensures lies { IfOk result (λ v. AreStatementsIn (text_of teller.now.page) v.items) }
{
    let asked = kept_of(teller, conditions, diagnoses)?;
    let index = Index::new(teller.alloc, outline)?;
    let walk = walk_of(teller.alloc, outline)?;
    statements_at(teller, &index, &asked, &walk.points)
}

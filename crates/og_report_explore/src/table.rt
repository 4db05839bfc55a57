//! The table of the steps of a run.

ghost use Rattle.std.specs.Prelude.{◌≡◌, ◌++◌, [], replicate, IfOk, OnOk};
ghost use Rattle.og_report_text.specs.Values.{value_text};
ghost use Rattle.og_report_explore.specs.Table.{heading, padded, head_line, entries_text, did_text, cell_text, width_of, widths_of, row_line, row_lines, table_text};

use crate::finding::{Effect, Row};
use og_report_text::{Origins, printed_number, put_number, put_value};
use og_text::Name;
use std::alloc::{AllocError, Global};

/// The most bytes of a statement.
const STATEMENT_LIMIT: usize = 48;

/// A column whose cells are as wide as the widest of them.
#[derive(Clone, Copy)]
pub(crate) enum Column {
    Step,
    Process,
    Place,
    Statement,
}

/// How wide each column is.
#[derive(Clone, Copy)]
pub(crate) struct Widths {
    step: usize,
    process: usize,
    place: usize,
    statement: usize,
}

/// What the whole report is printed with.
#[derive(Clone, Copy)]
pub(crate) struct Page<'a> {
    pub(crate) names: &'a [Name],
    /// Where the parts of the outline are said to stand.
    pub(crate) origins: &'a Origins<'a>,
    /// The number of the main process.
    pub(crate) main: u32,
}

impl Column {
    // The word at its head.
    fn heading(self) -> &'static [u8]
        ensures { result.now ≡ heading self }
    {
        match self {
            Column::Step => b"step",
            Column::Process => b"process",
            Column::Place => b"place",
            Column::Statement => b"statement",
        }
    }
}

// This many blanks.
fn put_blanks(text: &mut Vec<u8>, count: usize) -> Result<(), AllocError>
    ensures { OnOk result (text.new.items ≡ text.old.items ++ replicate count 32) }
{
    for _ in 0..count {
        text.push(b' ')?;
    }
    Ok(())
}

// Two blanks, and a cell as wide as its column.
fn put_padded(text: &mut Vec<u8>, width: usize, cell: &[u8]) -> Result<(), AllocError>
    ensures { OnOk result (text.new.items ≡ text.old.items ++ padded width cell.now) }
{
    text.extend_from_slice(b"  ")?;
    text.extend_from_slice(cell)?;
    put_blanks(text, width.saturating_sub(cell.len()))
}

// A variable with its value.
fn put_entry(text: &mut Vec<u8>, names: &[Name], entry: (u32, i64)) -> Result<(), AllocError>
    ensures { OnOk result (text.new.items ≡ text.old.items ++ value_text names.now entry.0 entry.1) }
{
    put_value(text, names, entry.0, i128::from(entry.1))
}

// The variables with their values.
fn put_entries(text: &mut Vec<u8>, names: &[Name], entries: &[(u32, i64)]) -> Result<(), AllocError>
    ensures { OnOk result (text.new.items ≡ text.old.items ++ entries_text names.now [] entries.now) }
{
    let mut between: &[u8] = b"";
    for entry in entries {
        text.extend_from_slice(between)?;
        put_entry(text, names, *entry)?;
        between = b", ";
    }
    Ok(())
}

/// Adds what a step did: its test's truth, or the variables that it assigned, with their values.
///
/// # Errors
///
/// An allocation was refused; the text has what it had, and perhaps a part of this.
pub fn put_did(text: &mut Vec<u8>, names: &[Name], effect: &Effect) -> Result<(), AllocError>
    ensures { OnOk result (text.new.items ≡ text.old.items ++ did_text names.now effect.now) }
{
    match effect {
        Effect::Tested(true) => text.extend_from_slice(b"true"),
        Effect::Tested(false) => text.extend_from_slice(b"false"),
        Effect::Assigned(entries) => {
            if entries.is_empty() {
                return text.extend_from_slice(b"-");
            }
            put_entries(text, names, entries)
        }
    }
}

// A row by its number, and what it is printed with.
#[derive(Clone, Copy)]
struct Line<'l, 'a> {
    page: Page<'l>,
    number: u128,
    row: &'l Row<'a>,
}

impl Line<'_, '_> {
    // A cell of the row.
    fn put_cell(&self, text: &mut Vec<u8>, column: Column) -> Result<(), AllocError>
        requires { self.now.page.origins.now.places.now ≡ self.now.page.origins.now.source.now }
        ensures { OnOk result (text.new.items ≡ text.old.items ++ cell_text self.now.page.names.now
            self.now.page.origins.now.source.now self.now.page.origins.now.rows
            self.now.page.main column self.now.number self.now.row.now) }
    {
        let (origins, row) = (self.page.origins, self.row);
        match column {
            Column::Step => put_number(text, self.number),
            Column::Process => {
                let process = printed_number(self.page.main, row.process);
                put_number(text, u128::from(process))
            }
            Column::Place => origins.put_place(text, row.item.at),
            Column::Statement => origins.put_quote(text, STATEMENT_LIMIT, row.item.at),
        }
    }

    // In a text of its own.
    fn cell(&self, alloc: Global, column: Column) -> Result<Vec<u8>, AllocError>
        requires { self.now.page.origins.now.places.now ≡ self.now.page.origins.now.source.now }
        ensures { IfOk result (λ cell. cell.items ≡ cell_text self.now.page.names.now
            self.now.page.origins.now.source.now self.now.page.origins.now.rows
            self.now.page.main column self.now.number self.now.row.now) }
    {
        let mut cell = Vec::new(alloc);
        self.put_cell(&mut cell, column)?;
        Ok(cell)
    }

    // As wide as its column.
    fn put_wide(&self, text: &mut Vec<u8>, column: Column, width: usize) -> Result<(), AllocError>
        requires { self.now.page.origins.now.places.now ≡ self.now.page.origins.now.source.now }
        ensures { OnOk result (text.new.items ≡ text.old.items ++ padded width
            (cell_text self.now.page.names.now self.now.page.origins.now.source.now
            self.now.page.origins.now.rows self.now.page.main column self.now.number self.now.row.now)) }
    {
        let cell = self.cell(*text.allocator(), column)?;
        put_padded(text, width, &cell)
    }
}

// How wide the column is.
fn width(alloc: Global, page: Page, column: Column, rows: &[Row]) -> Result<usize, AllocError>
    requires { page.origins.now.places.now ≡ page.origins.now.source.now }
    ensures { IfOk result (λ width. width
        ≡ width_of page.entry.names.now page.entry.origins.now.source.now page.entry.origins.now.rows page.entry.main rows.now column) }
{
    let mut width = column.heading().len();
    for index in 0..rows.len() {
        let (number, row) = (index as u128 + 1, &rows[index]);
        let cell = Line { page, number, row }.cell(alloc, column)?;
        width = width.max(cell.len());
    }
    Ok(width)
}

impl Widths {
    // How wide each column is.
    fn of(alloc: Global, page: Page, rows: &[Row]) -> Result<Widths, AllocError>
        requires { page.origins.now.places.now ≡ page.origins.now.source.now }
        ensures { IfOk result (λ widths. widths
            ≡ widths_of page.entry.names.now page.entry.origins.now.source.now page.entry.origins.now.rows page.entry.main rows.now) }
    {
        Ok(Widths {
            step: width(alloc, page, Column::Step, rows)?,
            process: width(alloc, page, Column::Process, rows)?,
            place: width(alloc, page, Column::Place, rows)?,
            statement: width(alloc, page, Column::Statement, rows)?,
        })
    }
}

// The heads of the columns.
fn put_head(text: &mut Vec<u8>, widths: Widths) -> Result<(), AllocError>
    ensures { OnOk result (text.new.items ≡ text.old.items ++ head_line widths) }
{
    put_padded(text, widths.step, b"step")?;
    put_padded(text, widths.process, b"process")?;
    put_padded(text, widths.place, b"place")?;
    put_padded(text, widths.statement, b"statement")?;
    text.extend_from_slice(b"  sets\n")
}

// The row with this number.
fn put_row(
    text: &mut Vec<u8>,
    page: Page,
    widths: Widths,
    number: u128,
    row: &Row,
) -> Result<(), AllocError>
    requires { page.origins.now.places.now ≡ page.origins.now.source.now }
    ensures { OnOk result (text.new.items ≡ text.old.items ++ row_line page.entry.names.now
        page.entry.origins.now.source.now page.entry.origins.now.rows page.entry.main widths number row.now) }
{
    let line = Line { page, number, row };
    line.put_wide(text, Column::Step, widths.step)?;
    line.put_wide(text, Column::Process, widths.process)?;
    line.put_wide(text, Column::Place, widths.place)?;
    line.put_wide(text, Column::Statement, widths.statement)?;
    text.extend_from_slice(b"  ")?;
    put_did(text, page.names, &row.effect)?;
    text.extend_from_slice(b"\n")
}

// The rows, numbered from 1.
fn put_rows(text: &mut Vec<u8>, page: Page, widths: Widths, rows: &[Row]) -> Result<(), AllocError>
    requires { page.origins.now.places.now ≡ page.origins.now.source.now }
    ensures { OnOk result (text.new.items ≡ text.old.items
        ++ row_lines page.entry.names.now page.entry.origins.now.source.now page.entry.origins.now.rows page.entry.main widths 1 rows.now) }
{
    for index in 0..rows.len() {
        put_row(text, page, widths, index as u128 + 1, &rows[index])?;
    }
    Ok(())
}

/// Adds the table of the steps to the text, where there are steps.
///
/// # Errors
///
/// An allocation was refused; the text has what it had, and perhaps a part of this.
pub(crate) fn put_table(text: &mut Vec<u8>, page: Page, rows: &[Row]) -> Result<(), AllocError>
    requires { page.origins.now.places.now ≡ page.origins.now.source.now }
    ensures { OnOk result (text.new.items ≡ text.old.items
        ++ table_text page.entry.names.now page.entry.origins.now.source.now page.entry.origins.now.rows page.entry.main rows.now) }
{
    if rows.is_empty() {
        return Ok(());
    }
    let widths = Widths::of(*text.allocator(), page, rows)?;
    put_head(text, widths)?;
    put_rows(text, page, widths, rows)
}

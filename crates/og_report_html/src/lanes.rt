//! The rows of the chart.

ghost use Rattle.std.specs.Prelude.{◌≡◌, ◌++◌, ◌≤◌, ◌+◌, length, drop, OnOk};
ghost use Rattle.og_report_html.specs.Table.{each_text};
ghost use Rattle.og_report_html.specs.Lanes.{gap, lane_head, numbered, main_head, head_row, wide_row, skipped_row, step_cell, lane_cells, sets_cell, step_row, end_row};

use crate::escapes::put_escaped;
use crate::links::put_between;
use og_report_explore::{Row, put_did};
use og_report_text::{put_number, put_number_between, put_quote};
use og_text::Name;
use std::alloc::AllocError;

/// The most bytes of a statement.
const STATEMENT_LIMIT: usize = 48;

/// What the rows are written with.
#[derive(Clone, Copy)]
pub(crate) struct Frame<'a> {
    /// Whether the source is UTF-8.
    pub(crate) utf8: bool,
    pub(crate) names: &'a [Name],
    pub(crate) source: &'a [u8],
    /// How many lanes there are.
    pub(crate) lanes: usize,
}

// Adds this many empty lanes.
fn put_gap(text: &mut Vec<u8>, lanes: usize) -> Result<(), AllocError>
    ensures { OnOk result (text.new.items ≡ text.old.items ++ gap lanes) }
{
    if lanes == 0 {
        return Ok(());
    }
    put_number_between(text, b"<td colspan=", lanes as u128, b">")
}

// The head of a process's lane.
fn put_lane_head(text: &mut Vec<u8>, process: usize) -> Result<(), AllocError>
    ensures { OnOk result (text.new.items ≡ text.old.items ++ lane_head process) }
{
    text.extend_from_slice(b"<th scope=col>process ")?;
    put_number(text, process as u128 + 1)
}

// The heads of the lanes of this many processes.
fn put_lane_heads(text: &mut Vec<u8>, count: usize) -> Result<(), AllocError>
    ensures { OnOk result (text.new.items ≡ text.old.items ++ each_text lane_head 0 count) }
{
    for process in 0..count {
        put_lane_head(text, process)?;
    }
    Ok(())
}

fn put_main_head(text: &mut Vec<u8>, main: bool) -> Result<(), AllocError>
    ensures { OnOk result (text.new.items ≡ text.old.items ++ main_head main) }
{
    if main {
        text.extend_from_slice(b"<th scope=col>main process")
    } else {
        Ok(())
    }
}

/// Adds the heads of the columns, of this many processes and perhaps the main one.
pub(crate) fn put_head(text: &mut Vec<u8>, processes: usize, main: bool) -> Result<(), AllocError>
    ensures { OnOk result (text.new.items ≡ text.old.items ++ head_row processes main) }
{
    text.extend_from_slice(b"<tr><th scope=col>step")?;
    put_lane_heads(text, processes)?;
    put_main_head(text, main)?;
    text.extend_from_slice(b"<th scope=col>sets</tr>\n")
}

/// Adds a row with one text over all lanes.
pub(crate) fn put_wide(
    text: &mut Vec<u8>,
    class: &[u8],
    lanes: usize,
    line: &[u8],
) -> Result<(), AllocError>
    ensures { OnOk result (text.new.items ≡ text.old.items ++ wide_row class.now lanes line.now) }
{
    put_between(text, b"<tr class=", class, b"><td><td colspan=")?;
    put_number(text, lanes as u128 + 1)?;
    put_between(text, b">", line, b"</tr>\n")
}

/// Adds how many steps are not shown, if there are some.
pub(crate) fn put_skipped(text: &mut Vec<u8>, lanes: usize, count: usize) -> Result<(), AllocError>
    ensures { OnOk result (text.new.items ≡ text.old.items ++ skipped_row lanes count) }
{
    if count == 0 {
        return Ok(());
    }
    let mut line = Vec::new(*text.allocator());
    put_number_between(&mut line, b"", count as u128, b" steps")?;
    put_wide(text, b"faint", lanes, &line)
}

// What the step's statement says.
fn put_step_cell(text: &mut Vec<u8>, frame: Frame, row: &Row) -> Result<(), AllocError>
    ensures { OnOk result (text.new.items ≡ text.old.items ++ step_cell frame.entry.utf8
        frame.entry.names.now frame.entry.source.now frame.entry.lanes row.now) }
{
    let mut quote = Vec::new(*text.allocator());
    put_quote(&mut quote, STATEMENT_LIMIT, frame.source, row.item.at)?;
    text.extend_from_slice(b"<td class=step>")?;
    put_escaped(text, frame.utf8, &quote)
}

// In the lane of its process.
fn put_lane_cells(text: &mut Vec<u8>, frame: Frame, row: &Row) -> Result<(), AllocError>
    ensures { OnOk result (text.new.items ≡ text.old.items ++ lane_cells frame.entry.utf8
        frame.entry.names.now frame.entry.source.now frame.entry.lanes row.now) }
{
    let before = row.process as usize;
    put_gap(text, before)?;
    put_step_cell(text, frame, row)?;
    put_gap(text, frame.lanes.saturating_sub(before + 1))
}

// What the step did.
fn put_sets_cell(text: &mut Vec<u8>, frame: Frame, row: &Row) -> Result<(), AllocError>
    ensures { OnOk result (text.new.items ≡ text.old.items ++ sets_cell frame.entry.utf8
        frame.entry.names.now frame.entry.source.now frame.entry.lanes row.now) }
{
    let mut effect = Vec::new(*text.allocator());
    put_did(&mut effect, frame.names, &row.effect)?;
    text.extend_from_slice(b"<td>")?;
    put_escaped(text, frame.utf8, &effect)?;
    text.extend_from_slice(b"</tr>\n")
}

// The row of a step, by its number from 1.
fn put_step_row(
    text: &mut Vec<u8>,
    frame: Frame,
    number: usize,
    row: &Row,
) -> Result<(), AllocError>
    ensures { OnOk result (text.new.items ≡ text.old.items ++ step_row frame.entry.utf8
        frame.entry.names.now frame.entry.source.now frame.entry.lanes number row.now) }
{
    text.extend_from_slice(b"<tr><td>")?;
    put_number(text, number as u128)?;
    put_lane_cells(text, frame, row)?;
    put_sets_cell(text, frame, row)
}

/// Adds the rows of steps, but for the first ones, this many.
pub(crate) fn put_step_rows(
    text: &mut Vec<u8>,
    frame: Frame,
    skipped: usize,
    rows: &[Row],
) -> Result<(), AllocError>
    requires { skipped ≤ length rows.now }
    ensures { OnOk result (text.new.items ≡ text.old.items ++ numbered (step_row frame.entry.utf8
        frame.entry.names.now frame.entry.source.now frame.entry.lanes) (skipped + 1)
        (drop skipped rows.now)) }
{
    for index in skipped..rows.len() {
        put_step_row(text, frame, index + 1, &rows[index])?;
    }
    Ok(())
}

/// Adds the row behind the last step: that the condition with this number is false there.
pub(crate) fn put_end(text: &mut Vec<u8>, lanes: usize, condition: u128) -> Result<(), AllocError>
    ensures { OnOk result (text.new.items ≡ text.old.items ++ end_row lanes condition) }
{
    let mut line = Vec::new(*text.allocator());
    put_number_between(
        &mut line,
        b"&#10007; condition ",
        condition,
        b" is false here",
    )?;
    put_wide(text, b"here", lanes, &line)
}

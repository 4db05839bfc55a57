//! The chart of a run.

ghost use Rattle.std.specs.Prelude.{◌≡◌, ◌++◌, ◌≤◌, ◌+◌, length, drop, IfOk, OnOk};
ghost use Rattle.std.specs.Str.{is_utf8};
ghost use Rattle.og_report_html.specs.Lanes.{has_main, lane_count, skipped, start_row, body_rows, all_rows, chart_text, IsChart};

use crate::escapes::{is_utf8, put_escaped};
use crate::lanes::{Frame, put_end, put_head, put_skipped, put_step_rows, put_wide};
use og_linear::State;
use og_report_explore::{Row, rows_of};
use og_report_runs::{Witness, put_start};
use og_typed::Outline;
use std::alloc::{AllocError, Global};

/// The most steps that are shown.
const MOST_STEPS: usize = 40;

// Whether the main process has something to do.
fn has_main(outline: &Outline) -> bool
    ensures { result ≡ has_main outline.now }
{
    outline.prologue().is_some() || outline.epilogue().is_some()
}

fn lane_count(processes: usize, main: bool) -> usize
    requires { processes ≤ 256 }
    ensures { result ≡ lane_count processes main }
{
    if main { processes + 1 } else { processes }
}

// Where the run begins.
fn put_start_row(
    text: &mut Vec<u8>,
    frame: Frame,
    outline: &Outline,
    values: &State,
) -> Result<(), AllocError>
    ensures { OnOk result (text.new.items ≡ text.old.items ++ start_row frame.entry.utf8
        frame.entry.names.now frame.entry.source.now frame.entry.lanes outline.now values.now) }
{
    let alloc = *text.allocator();
    let mut begins = Vec::new(alloc);
    put_start(&mut begins, outline, values)?;
    let mut line = Vec::from_slice(alloc, b"starts from ")?;
    put_escaped(&mut line, frame.utf8, &begins)?;
    put_wide(text, b"faint", frame.lanes, &line)
}

// The steps.
fn put_body(text: &mut Vec<u8>, frame: Frame, rows: &[Row]) -> Result<(), AllocError>
    ensures { OnOk result (text.new.items ≡ text.old.items ++ body_rows frame.entry.utf8
        frame.entry.names.now frame.entry.source.now frame.entry.lanes rows.now) }
{
    let skipped = rows.len().saturating_sub(MOST_STEPS);
    put_skipped(text, frame.lanes, skipped)?;
    put_step_rows(text, frame, skipped, rows)
}

// All rows but the head.
fn put_all(
    text: &mut Vec<u8>,
    frame: Frame,
    outline: &Outline,
    condition: u128,
    values: &State,
    rows: &[Row],
) -> Result<(), AllocError>
    ensures { OnOk result (text.new.items ≡ text.old.items ++ all_rows frame.entry.utf8
        frame.entry.names.now frame.entry.source.now frame.entry.lanes outline.now condition
        values.now rows.now) }
{
    put_start_row(text, frame, outline, values)?;
    put_body(text, frame, rows)?;
    put_end(text, frame.lanes, condition)
}

// The chart of these steps from the start with these values.
fn chart_of(
    alloc: Global,
    outline: &Outline,
    source: &[u8],
    condition: u128,
    values: &State,
    rows: &[Row],
) -> Result<Vec<u8>, AllocError>
    ensures { IfOk result (λ text.
        text.items ≡ chart_text outline.now source.now condition values.now rows.now) }
{
    outline.follows_rule();
    let (processes, main) = (outline.processes().len(), has_main(outline));
    let frame = Frame {
        utf8: is_utf8(source),
        names: outline.names(),
        source,
        lanes: lane_count(processes, main),
    };
    let mut text = Vec::new(alloc);
    text.extend_from_slice(b"<div class=wide tabindex=0><table class=run>\n")?;
    put_head(&mut text, processes, main)?;
    put_all(&mut text, frame, outline, condition, values, rows)?;
    text.extend_from_slice(b"</table></div>\n")?;
    Ok(text)
}

/// A run to a state in which the condition with this number, from 1, is false, as a table of HTML:
/// a row for each of its last 40 steps, in the lane of its process. Without a number of a step that
/// leaves 128 bits; where there is one, no text.
///
/// # Errors
///
/// An allocation was refused.
pub fn chart(
    alloc: Global,
    outline: &Outline,
    source: &[u8],
    condition: u128,
    witness: &Witness,
) -> Result<Vec<u8>, AllocError>
    ensures { IfOk result (λ text. IsChart outline.now source.now condition witness.now text.items) }
{
    let Some(rows) = rows_of(alloc, outline, &witness.values, &witness.history)? else {
        return Ok(Vec::new(alloc));
    };
    let text = chart_of(alloc, outline, source, condition, &witness.values, &rows)?;
    Ok(text)
}

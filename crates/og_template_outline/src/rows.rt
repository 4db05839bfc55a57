//! Where the parts of an expanded outline come from.

ghost use Rattle.std.specs.Prelude.{◌≤◌, ◌^◌, length};

use crate::places::Part;
use og_report_text::{Places, Row, Rows, put_position};
use og_template_expand::{Binding, Origin};
use std::alloc::{AllocError, Global};
use std::mem;

// ` NAME=INT` for each binding.
fn instance_of(alloc: Global, instance: &[Binding<'_>]) -> Result<Vec<u8>, AllocError> {
    let mut text = Vec::new(alloc);
    for binding in instance {
        let value = binding.value;
        let number = format!(in alloc; "={value}")?;
        text.extend_from_slice(b" ")?;
        text.extend_from_slice(binding.name)?;
        text.extend_from_slice(number.as_bytes())?;
    }
    Ok(text)
}

// The row of a part of the expanded tree.
fn row_of(alloc: Global, part: &mut Part, origin: &Origin<'_>) -> Result<Row, AllocError> {
    Ok(Row {
        from: origin.span.start,
        instance: instance_of(alloc, &origin.instance)?,
        conjuncts: mem::replace(&mut part.conjuncts, Vec::new(alloc)),
    })
}

/// The rows of an outline: its parts, those of the expanded tree, and their origins, in the order
/// of the text.
pub(crate) fn rows(
    alloc: Global,
    printed: &[Part],
    expanded: &mut [Part],
    origins: &[Origin<'_>],
) -> Result<Rows, AllocError> {
    let mut rows = Rows::new(alloc);
    for ((at, part), origin) in printed.iter().zip(expanded.iter_mut()).zip(origins) {
        let row = row_of(alloc, part, origin)?;
        rows.insert(at.at, row)?;
    }
    Ok(rows)
}

// Adds a row as it is printed.
fn put_row(
    text: &mut Vec<u8>,
    places: &Places,
    at: u32,
    template: &Places,
    row: &Row,
) -> Result<(), AllocError> {
    put_position(text, places.position(at))?;
    text.extend_from_slice(b" ")?;
    put_position(text, template.position(row.from))?;
    text.extend_from_slice(&row.instance)?;
    text.extend_from_slice(b"\n")
}

/// The rows as they are printed: each with its place in the outline, its place in the template, and
/// the values of the bound names round it.
pub(crate) fn rows_text(
    alloc: Global,
    source: &[u8],
    outline: &[u8],
    rows: &Rows,
) -> Result<Vec<u8>, AllocError>
    requires template { length source.now ≤ 2 ^ 20 }
    requires outline { length outline.now ≤ 2 ^ 20 }
{
    let template = Places::new(alloc, source)?;
    let places = Places::new(alloc, outline)?;
    let mut text = Vec::new(alloc);
    for (at, row) in rows {
        put_row(&mut text, &places, *at, &template, row)?;
    }
    Ok(text)
}

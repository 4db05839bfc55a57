//! The source with its marks.

ghost use Rattle.std.specs.Prelude.{◌≡◌, ◌++◌, ◌≤◌, ◌^◌, ℕ, length, OnOk};
ghost use Rattle.og_report_html.specs.Marks.{found};
ghost use Rattle.og_report_html.specs.declared.edge.Edge.TheVariants as Edge;
ghost use Rattle.og_report_html.specs.Source.{link_start, assertion_start, statement_start, ending, starting, closing, line_number, line_start, edge_text, edge_here, later, byte_text, source_text};

use crate::constants::SHARED_WORD;
use crate::edge::{Boundary, Edge};
use crate::escapes::put_byte;
use crate::links::{put_between, put_twice};
use crate::marks::{Mark, Marks};
use crate::mode::{Mode, Spot};
use og_report_text::put_number;
use std::alloc::AllocError;

// A link to the block of a condition.
fn put_link(text: &mut Vec<u8>, class: &[u8], number: u128) -> Result<(), AllocError>
    ensures { OnOk result (text.new.items ≡ text.old.items ++ link_start class.now number) }
{
    put_between(text, b"<a class=", class, b" href=#c")?;
    put_number(text, number)?;
    text.extend_from_slice(b">")
}

// The beginning of an assertion, with its sign.
fn put_assertion_start(text: &mut Vec<u8>, mark: Option<Mark>) -> Result<(), AllocError>
    ensures { OnOk result (text.new.items ≡ text.old.items ++ assertion_start mark) }
{
    match mark {
        None => text.extend_from_slice(b"<a class=ok><b>&#10003;</b>"),
        Some(Mark::False(number)) => {
            put_link(text, b"false", number)?;
            text.extend_from_slice(b"<b>&#10007;</b>")
        }
        Some(Mark::Open(number)) => {
            put_link(text, b"open", number)?;
            text.extend_from_slice(b"<b>?</b>")
        }
    }
}

// The beginning of a statement with a mark.
fn put_statement_start(text: &mut Vec<u8>, mark: Option<Mark>) -> Result<(), AllocError>
    ensures { OnOk result (text.new.items ≡ text.old.items ++ statement_start mark) }
{
    match mark {
        None => text.extend_from_slice(b"<a>"),
        Some(Mark::False(number)) => put_link(text, b"wrong", number),
        Some(Mark::Open(number)) => put_link(text, b"maybe", number),
    }
}

// What ends before a byte.
fn put_ending(text: &mut Vec<u8>, old: Mode, new: Mode) -> Result<(), AllocError>
    ensures { OnOk result (text.new.items ≡ text.old.items ++ ending old new) }
{
    if new.begins_comment(old) {
        text.extend_from_slice(b"</i>")
    } else if new.begins_statement(old) {
        text.extend_from_slice(b"</a>")
    } else {
        Ok(())
    }
}

// What begins there.
fn put_starting(
    text: &mut Vec<u8>,
    old: Mode,
    new: Mode,
    mark: Option<Mark>,
) -> Result<(), AllocError>
    ensures { OnOk result (text.new.items ≡ text.old.items ++ starting old new mark) }
{
    if old.begins_comment(new) {
        text.extend_from_slice(b"<i>")
    } else if old.begins_statement(new) {
        put_statement_start(text, mark)
    } else if old.begins_assertion(new) {
        put_assertion_start(text, mark)
    } else {
        Ok(())
    }
}

// What ends behind it.
fn put_closing(text: &mut Vec<u8>, old: Mode, new: Mode) -> Result<(), AllocError>
    ensures { OnOk result (text.new.items ≡ text.old.items ++ closing old new) }
{
    if new.begins_assertion(old) {
        text.extend_from_slice(b"</a>")
    } else {
        Ok(())
    }
}

// The number of a line, by which links lead to it.
fn put_line_number(text: &mut Vec<u8>, line: u32) -> Result<(), AllocError>
    ensures { OnOk result (text.new.items ≡ text.old.items ++ line_number line) }
{
    put_twice(text, b"<span class=n id=L", line as u128, b">", b"</span>")
}

// Before the first byte of the line.
fn put_line_start(text: &mut Vec<u8>, spot: Spot) -> Result<(), AllocError>
    ensures { OnOk result (text.new.items ≡ text.old.items ++ line_start spot.first spot.line) }
{
    if spot.first {
        put_line_number(text, spot.line)
    } else {
        Ok(())
    }
}

// What begins behind the word that stands for what all assertions share.
fn put_fold(text: &mut Vec<u8>) -> Result<(), AllocError>
    ensures { OnOk result (text.new.items ≡ text.old.items ++ edge_text Edge.Shared) }
{
    put_between(text, b"<label for=shared>", SHARED_WORD, b"</label><u>")
}

// What begins or ends within an assertion.
fn put_edge(text: &mut Vec<u8>, edge: Edge) -> Result<(), AllocError>
    ensures { OnOk result (text.new.items ≡ text.old.items ++ edge_text edge) }
{
    match edge {
        Edge::Shared => put_fold(text),
        Edge::SharedEnd => text.extend_from_slice(b"</u>"),
        Edge::False => text.extend_from_slice(b"<em>"),
        Edge::FalseEnd => text.extend_from_slice(b"</em>"),
    }
}

// The next one, where it stands at this byte offset.
fn put_edge_here(text: &mut Vec<u8>, at: u32, edges: &[Boundary]) -> Result<(), AllocError>
    ensures { OnOk result (text.new.items ≡ text.old.items ++ edge_here at edges.now) }
{
    match edges {
        [first, ..] if first.at == at => put_edge(text, first.edge),
        _ => Ok(()),
    }
}

// Those behind it.
fn later(at: u32, edges: &[Boundary]) -> &[Boundary]
    ensures { result.now ≡ later at edges.now }
{
    match edges {
        [first, others @ ..] if first.at == at => others,
        _ => edges,
    }
}

// A byte, with what ends and begins at it.
fn put_source_byte(
    text: &mut Vec<u8>,
    utf8: bool,
    mark: Option<Mark>,
    old: Mode,
    new: Mode,
    byte: u8,
) -> Result<(), AllocError>
    ensures { OnOk result (text.new.items ≡ text.old.items ++ byte_text utf8 mark old new byte) }
{
    put_ending(text, old, new)?;
    put_starting(text, old, new, mark)?;
    put_byte(text, utf8, byte)?;
    put_closing(text, old, new)
}

/// Adds the source: each line with its number, the assertions and the marked statements as links.
pub(crate) fn put_source(
    text: &mut Vec<u8>,
    utf8: bool,
    marks: &Marks,
    edges: &[Boundary],
    source: &[u8],
) -> Result<(), AllocError>
    requires { length source.now ≤ 2 ^ 20 }
    ensures { OnOk result (text.new.items ≡ text.old.items
        ++ source_text utf8 (λ (p : ℕ). found p marks.now) edges.now source.now) }
{
    let mut spot = Spot::first();
    let mut rest = edges;
    for at in 0..source.len() {
        let byte = source[at];
        let mark = marks.get(&(at as u32)).copied();
        let next = spot.next(mark.is_some(), byte);
        put_line_start(text, spot)?;
        put_edge_here(text, at as u32, rest)?;
        put_source_byte(text, utf8, mark, spot.mode, next.mode, byte)?;
        rest = later(at as u32, rest);
        spot = next;
    }
    put_ending(text, spot.mode, Mode::Text)?;
    put_closing(text, spot.mode, Mode::Text)
}

//! Printing statements and sequences, one line after the other.

ghost use Rattle.std.specs.Prelude.{◌≡◌, ◌++◌, [], true, map, codes, IfOk, OnOk, if◌then◌else◌};
ghost use Rattle.og_parse.specs.Trees.{Await, Simple, finish};
ghost use Rattle.og_parse.specs.TreeOf.{note_of, basic_of, element_of, item_of, stmt_of, seq_of, assertion_of, items_then};
ghost use Rattle.og_print.specs.Print.{written, assertion_in, basic_in, body_in, note_in, stmt_in, seq_in};

use crate::assertions::put_assertion;
use crate::terms::{put_name, put_sum};
use og_parse::{RawAssert, RawBasic, RawElement, RawItem, RawNote, RawSeq, RawStmt};
use std::alloc::{AllocError, Global};

fn put_basic(text: &mut Vec<u8>, basic: &RawBasic) -> Result<(), AllocError>
    ensures { OnOk result (text.new.items ≡ text.old.items ++ basic_in written (basic_of basic.now)) }
{
    match basic {
        RawBasic::Skip => text.extend_from_slice(b"skip"),
        RawBasic::Assign(name, sum) => {
            put_name(text, name)?;
            text.extend_from_slice(b" := ")?;
            put_sum(text, sum)
        }
    }
}

// The body of an await.
fn put_body(text: &mut Vec<u8>, body: &[RawElement]) -> Result<(), AllocError>
    ensures { OnOk result (text.new.items ≡ text.old.items
        ++ body_in written (map element_of body.now)) }
{
    let [first, later @ ..] = body else {
        return text.extend_from_slice(b"begin end");
    };
    if later.is_empty() {
        return put_basic(text, &first.basic);
    }
    text.extend_from_slice(b"begin ")?;
    put_basic(text, &first.basic)?;
    for element in later {
        text.extend_from_slice(b"; ")?;
        put_basic(text, &element.basic)?;
    }
    text.extend_from_slice(b" end")
}

/// The assertion on a line of its own, or nothing without `notes`.
pub(crate) fn put_note(
    text: &mut Vec<u8>,
    notes: bool,
    indent: &[u8],
    note: &RawNote,
) -> Result<(), AllocError>
    ensures { OnOk result (text.new.items ≡ text.old.items
        ++ note_in written notes indent.now (note_of note.now)) }
{
    if !notes {
        return Ok(());
    }
    text.extend_from_slice(indent)?;
    text.extend_from_slice(b"{")?;
    put_assertion(text, &note.assertion)?;
    text.extend_from_slice(b"}\n")
}

// A line with a test between two words.
fn put_opening(
    text: &mut Vec<u8>,
    indent: &[u8],
    word: &[u8],
    test: &RawAssert,
    opener: &[u8],
) -> Result<(), AllocError>
    ensures { OnOk result (text.new.items ≡ text.old.items ++ written.line indent.now
        (word.now ++ (assertion_in written (assertion_of test.now) ++ opener.now))) }
{
    text.extend_from_slice(indent)?;
    text.extend_from_slice(word)?;
    put_assertion(text, test)?;
    text.extend_from_slice(opener)?;
    text.extend_from_slice(b"\n")
}

/// A line with a few words.
pub(crate) fn put_line(text: &mut Vec<u8>, indent: &[u8], words: &[u8]) -> Result<(), AllocError>
    ensures { OnOk result (text.new.items ≡ text.old.items ++ written.line indent.now words.now) }
{
    text.extend_from_slice(indent)?;
    text.extend_from_slice(words)?;
    text.extend_from_slice(b"\n")
}

// Two blanks more.
fn deeper(alloc: Global, indent: &[u8]) -> Result<Vec<u8>, AllocError>
    ensures { IfOk result (λ v. v.items ≡ written.deeper indent.now) }
{
    let mut blanks = Vec::from_slice(alloc, b"  ")?;
    blanks.extend_from_slice(indent)?;
    Ok(blanks)
}

// A statement that stands on one line.
fn put_simple(
    text: &mut Vec<u8>,
    indent: &[u8],
    basic: &RawBasic,
    ending: &[u8],
) -> Result<(), AllocError>
    ensures { OnOk result (text.new.items ≡ text.old.items
        ++ stmt_in written true indent.now (Simple (basic_of basic.now)) ending.now) }
{
    text.extend_from_slice(indent)?;
    put_basic(text, basic)?;
    text.extend_from_slice(ending)?;
    text.extend_from_slice(b"\n")
}

fn put_await(
    text: &mut Vec<u8>,
    indent: &[u8],
    guard: &RawAssert,
    body: &[RawElement],
    ending: &[u8],
) -> Result<(), AllocError>
    ensures { OnOk result (text.new.items ≡ text.old.items ++ stmt_in written true indent.now
        (Await (assertion_of guard.now) (map element_of body.now)) ending.now) }
{
    text.extend_from_slice(indent)?;
    text.extend_from_slice(b"await ")?;
    put_assertion(text, guard)?;
    text.extend_from_slice(b" then ")?;
    put_body(text, body)?;
    text.extend_from_slice(ending)?;
    text.extend_from_slice(b"\n")
}

#[cycle(sequences)]
fn put_stmt(
    text: &mut Vec<u8>,
    notes: bool,
    indent: &[u8],
    stmt: &RawStmt,
    ending: &[u8],
) -> Result<(), AllocError>
    ensures { OnOk result (text.new.items ≡ text.old.items
        ++ stmt_in written notes indent.now (stmt_of stmt.now) ending.now) }
{
    match stmt {
        RawStmt::Basic(basic) => put_simple(text, indent, basic, ending),
        RawStmt::If(test, then, other) => {
            put_opening(text, indent, b"if ", test, b" then begin")?;
            put_block(text, notes, indent, then)?;
            if let Some(other) = other {
                put_line(text, indent, b"end else begin")?;
                put_block(text, notes, indent, other)?;
            }
            put_end(text, indent, ending)
        }
        RawStmt::While(test, body) => {
            put_opening(text, indent, b"while ", test, b" do begin")?;
            put_block(text, notes, indent, body)?;
            put_end(text, indent, ending)
        }
        RawStmt::Await(guard, body) => put_await(text, indent, guard, body, ending),
    }
}

fn put_end(text: &mut Vec<u8>, indent: &[u8], ending: &[u8]) -> Result<(), AllocError>
    ensures { OnOk result (text.new.items ≡ text.old.items
        ++ written.line indent.now (codes "end" ++ ending.now)) }
{
    text.extend_from_slice(indent)?;
    text.extend_from_slice(b"end")?;
    text.extend_from_slice(ending)?;
    text.extend_from_slice(b"\n")
}

// What ends a statement: `;` between the statements of a program.
fn ending(notes: bool, is_last: bool) -> &'static [u8]
    ensures { result.now ≡ (if notes then [] else (if is_last then [] else codes ";")) }
{
    if notes || is_last { b"" } else { b";" }
}

// The sequence two blanks deeper.
#[cycle(sequences)]
fn put_block(text: &mut Vec<u8>, notes: bool, indent: &[u8], seq: &RawSeq) -> Result<(), AllocError>
    ensures { OnOk result (text.new.items ≡ text.old.items
        ++ seq_in written notes (written.deeper indent.now) (seq_of seq.now)) }
{
    let blanks = deeper(*text.allocator(), indent)?;
    put_seq(text, notes, blanks.as_slice(), seq)
}

#[cycle(sequences)]
pub(crate) fn put_seq(
    text: &mut Vec<u8>,
    notes: bool,
    indent: &[u8],
    seq: &RawSeq,
) -> Result<(), AllocError>
    ensures { OnOk result (text.new.items ≡ text.old.items
        ++ seq_in written notes indent.now (seq_of seq.now)) }
{
    put_items(text, notes, indent, seq.items.as_slice(), &seq.last)
}

// A sequence of these statements and this last assertion.
#[cycle(sequences)]
fn put_items(
    text: &mut Vec<u8>,
    notes: bool,
    indent: &[u8],
    items: &[RawItem],
    last: &RawNote,
) -> Result<(), AllocError>
    ensures { OnOk result (text.new.items ≡ text.old.items ++ seq_in written notes indent.now
        (items_then (map item_of items.now) (finish (note_of last.now)))) }
{
    for (i, item) in items.iter().enumerate() {
        put_note(text, notes, indent, &item.before)?;
        let ending = ending(notes, i + 1 == items.len());
        put_stmt(text, notes, indent, &item.stmt, ending)?;
    }
    put_note(text, notes, indent, last)
}

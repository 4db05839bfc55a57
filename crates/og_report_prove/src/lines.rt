//! The lines of a block.

ghost use Rattle.std.specs.Prelude.{◌≡◌, ◌++◌, OnOk};
ghost use Rattle.og_typed.specs.Plain.{formula, noted};
ghost use Rattle.og_typed.specs.Seen.{statement_of};
ghost use Rattle.og_report_prove.specs.Blocks.{place_text, quoted_line, test_line, standing_text, waits_line, stand_line, stand_lines, word_text, values_line, more_line, known_line, known_lines, after_line, action_lines, false_line, false_lines, too_large_line, fault_lines};

use crate::block::Block;
use crate::reporting::Page;
use crate::sentences::put_part;
use og_report_explain::{Explanation, Fault, Stand, Test};
use og_report_text::{Origins, put_assertion, put_known, put_value, put_values};
use og_subst::Values;
use og_text::Name;
use og_typed::{Assert, Note, Part, StatementSite};
use std::alloc::AllocError;

/// The most bytes of a quote.
const QUOTE_LIMIT: usize = 72;

/// Adds a label after two blanks, and a colon, before what the line has.
///
/// # Errors
///
/// An allocation was refused; the text has what it had, and perhaps a part of this.
pub fn put_label(text: &mut Vec<u8>, label: &[u8]) -> Result<(), AllocError>
    ensures { OnOk result (text.new.items ≡ text.old.items ++ word_text label.now) }
{
    text.extend_from_slice(b"  ")?;
    text.extend_from_slice(label)?;
    text.extend_from_slice(b": ")
}

/// Adds a word and a place, and a colon, after two blanks, before what stands there.
///
/// # Errors
///
/// An allocation was refused; the text has what it had, and perhaps a part of this.
pub fn put_place(
    text: &mut Vec<u8>,
    word: &[u8],
    origins: &Origins,
    at: u32,
) -> Result<(), AllocError>
    requires { origins.now.places.now ≡ origins.now.source.now }
    ensures { OnOk result (text.new.items ≡ text.old.items
        ++ place_text origins.now.source.now origins.now.rows word.now at) }
{
    text.extend_from_slice(b"  ")?;
    text.extend_from_slice(word)?;
    text.extend_from_slice(b" at ")?;
    origins.put_place(text, at)?;
    text.extend_from_slice(b": ")
}

/// Adds a word, a place, and the source there, in a line after two blanks.
///
/// # Errors
///
/// An allocation was refused; the text has what it had, and perhaps a part of this.
pub fn put_quoted(
    text: &mut Vec<u8>,
    word: &[u8],
    origins: &Origins,
    at: u32,
) -> Result<(), AllocError>
    requires { origins.now.places.now ≡ origins.now.source.now }
    ensures { OnOk result (text.new.items ≡ text.old.items
        ++ quoted_line origins.now.source.now origins.now.rows word.now at) }
{
    put_place(text, word, origins, at)?;
    origins.put_quote(text, QUOTE_LIMIT, at)?;
    text.extend_from_slice(b"\n")
}

/// Variables with their values, as a line has them.
#[derive(Clone, Copy)]
pub(crate) struct Shown<'s> {
    /// The names of all variables.
    pub(crate) names: &'s [Name],
    /// The values of all variables.
    pub(crate) values: &'s Values,
    /// Those that the line has.
    pub(crate) vars: &'s [u32],
}

/// Adds a word and values.
pub(crate) fn put_values_line(
    text: &mut Vec<u8>,
    word: &[u8],
    shown: Shown,
) -> Result<(), AllocError>
    ensures { OnOk result (text.new.items ≡ text.old.items
        ++ values_line shown.entry.names.now word.now shown.entry.values.now shown.entry.vars.now) }
{
    put_label(text, word)?;
    put_values(text, shown.names, shown.values.as_slice(), shown.vars)?;
    text.extend_from_slice(b"\n")
}

/// Adds the same, where there are variables.
pub(crate) fn put_more_line(text: &mut Vec<u8>, word: &[u8], shown: Shown) -> Result<(), AllocError>
    ensures { OnOk result (text.new.items ≡ text.old.items
        ++ more_line shown.entry.names.now word.now shown.entry.values.now shown.entry.vars.now) }
{
    if shown.vars.is_empty() {
        return Ok(());
    }
    put_values_line(text, word, shown)
}

// What an assertion says.
fn put_known_line(
    text: &mut Vec<u8>,
    names: &[Name],
    origins: &Origins,
    focus: &[u32],
    note: &Note,
) -> Result<(), AllocError>
    requires { origins.now.places.now ≡ origins.now.source.now }
    ensures { OnOk result (text.new.items ≡ text.old.items ++ known_line names.now
        origins.now.source.now origins.now.rows focus.now (noted note.now)) }
{
    put_place(text, b"true", origins, note.at)?;
    origins.put_use(text, note.at)?;
    put_known(text, names, focus, &note.assertion)?;
    text.extend_from_slice(b"\n")
}

/// Adds the assertions known to be true.
pub(crate) fn put_known_lines(
    text: &mut Vec<u8>,
    names: &[Name],
    origins: &Origins,
    focus: &[u32],
    notes: &[&Note],
) -> Result<(), AllocError>
    requires { origins.now.places.now ≡ origins.now.source.now }
    ensures { OnOk result (text.new.items ≡ text.old.items
        ++ known_lines names.now origins.now.source.now origins.now.rows focus.now notes.now) }
{
    for note in notes {
        put_known_line(text, names, origins, focus, note)?;
    }
    Ok(())
}

/// Adds the test with its truth.
pub(crate) fn put_test(
    text: &mut Vec<u8>,
    origins: &Origins,
    test: Option<Test>,
) -> Result<(), AllocError>
    requires { origins.now.places.now ≡ origins.now.source.now }
    ensures { OnOk result (text.new.items ≡ text.old.items
        ++ test_line origins.now.source.now origins.now.rows test.entry) }
{
    match test {
        None => Ok(()),
        Some(test) => {
            let word: &[u8] = if test.holds {
                b"test true"
            } else {
                b"test false"
            };
            put_quoted(text, word, origins, test.site.item.at)
        }
    }
}

// What the action assigns.
fn put_after(text: &mut Vec<u8>, shown: Shown) -> Result<(), AllocError>
    ensures { OnOk result (text.new.items ≡ text.old.items
        ++ after_line shown.entry.names.now shown.entry.values.now shown.entry.vars.now) }
{
    if shown.vars.is_empty() {
        return text.extend_from_slice(b"  after: no change\n");
    }
    put_values_line(text, b"after", shown)
}

/// Adds the step and what it assigns.
pub(crate) fn put_action(
    text: &mut Vec<u8>,
    names: &[Name],
    origins: &Origins,
    explanation: &Explanation,
    vars: &[u32],
) -> Result<(), AllocError>
    requires { origins.now.places.now ≡ origins.now.source.now }
    ensures { OnOk result (text.new.items ≡ text.old.items ++ action_lines names.now
        origins.now.source.now origins.now.rows explanation.now.action explanation.now.after
        vars.now) }
{
    match &explanation.action {
        None => Ok(()),
        Some(site) => {
            put_quoted(text, b"step", origins, site.item.at)?;
            let values = &explanation.after;
            put_after(
                text,
                Shown {
                    names,
                    values,
                    vars,
                },
            )
        }
    }
}

// One false conjunct.
fn put_false_line(
    text: &mut Vec<u8>,
    names: &[Name],
    origins: &Origins,
    at: u32,
    assert: &Assert,
) -> Result<(), AllocError>
    requires { origins.now.places.now ≡ origins.now.source.now }
    ensures { OnOk result (text.new.items ≡ text.old.items
        ++ false_line names.now origins.now.source.now origins.now.rows at (formula assert.now)) }
{
    put_place(text, b"false", origins, at)?;
    put_assertion(text, names, assert)?;
    text.extend_from_slice(b"\n")
}

/// Adds a line for each false conjunct of the assertion at the byte offset `at`, after two blanks.
///
/// # Errors
///
/// An allocation was refused; the text has what it had, and perhaps a part of this.
pub fn put_false(
    text: &mut Vec<u8>,
    names: &[Name],
    origins: &Origins,
    at: u32,
    found: &[&Assert],
) -> Result<(), AllocError>
    requires { origins.now.places.now ≡ origins.now.source.now }
    ensures { OnOk result (text.new.items ≡ text.old.items
        ++ false_lines names.now origins.now.source.now origins.now.rows at found.now) }
{
    for assert in found {
        put_false_line(text, names, origins, at, assert)?;
    }
    Ok(())
}

/// Adds the value that is too large, in a line after two blanks.
///
/// # Errors
///
/// An allocation was refused; the text has what it had, and perhaps a part of this.
pub fn put_too_large(
    text: &mut Vec<u8>,
    names: &[Name],
    var: u32,
    value: i128,
) -> Result<(), AllocError>
    ensures { OnOk result (text.new.items ≡ text.old.items ++ too_large_line names.now var value) }
{
    put_label(text, b"too large")?;
    put_value(text, names, var, value)?;
    text.extend_from_slice(b"\n")
}

// Where a process is, after two blanks.
fn put_standing(
    text: &mut Vec<u8>,
    origins: &Origins,
    part: Part,
    word: &[u8],
    at: u32,
) -> Result<(), AllocError>
    requires { origins.now.places.now ≡ origins.now.source.now }
    ensures { OnOk result (text.new.items ≡ text.old.items ++ standing_text origins.now.source.now
        origins.now.rows part word.now at) }
{
    text.extend_from_slice(b"  ")?;
    put_part(text, false, part)?;
    text.extend_from_slice(word)?;
    origins.put_place(text, at)
}

// Where a process waits.
fn put_waits(text: &mut Vec<u8>, origins: &Origins, site: &StatementSite) -> Result<(), AllocError>
    requires { origins.now.places.now ≡ origins.now.source.now }
    ensures { OnOk result (text.new.items ≡ text.old.items
        ++ waits_line origins.now.source.now origins.now.rows (statement_of site.now)) }
{
    put_standing(text, origins, site.part, b" waits at ", site.item.at)?;
    text.extend_from_slice(b": ")?;
    origins.put_quote(text, QUOTE_LIMIT, site.item.at)?;
    text.extend_from_slice(b"\n")
}

// Where a process stands.
fn put_stand(text: &mut Vec<u8>, origins: &Origins, stand: &Stand) -> Result<(), AllocError>
    requires { origins.now.places.now ≡ origins.now.source.now }
    ensures { OnOk result (text.new.items ≡ text.old.items
        ++ stand_line origins.now.source.now origins.now.rows stand.now) }
{
    match stand {
        Stand::Waits(site) => put_waits(text, origins, site),
        Stand::Ended(site) => {
            put_standing(text, origins, site.part, b" has ended at ", site.note.at)?;
            text.extend_from_slice(b"\n")
        }
    }
}

// Where each process stands.
fn put_stands(text: &mut Vec<u8>, origins: &Origins, stands: &[Stand]) -> Result<(), AllocError>
    requires { origins.now.places.now ≡ origins.now.source.now }
    ensures { OnOk result (text.new.items ≡ text.old.items
        ++ stand_lines origins.now.source.now origins.now.rows stands.now) }
{
    for stand in stands {
        put_stand(text, origins, stand)?;
    }
    Ok(())
}

/// Adds the false conjuncts.
pub(crate) fn put_fault(text: &mut Vec<u8>, page: Page, fault: &Fault) -> Result<(), AllocError>
    requires { page.origins.now.places.now ≡ page.origins.now.source.now }
    ensures { OnOk result (text.new.items ≡ text.old.items ++ fault_lines page.entry.names.now
        page.entry.origins.now.source.now page.entry.origins.now.rows fault.now) }
{
    match fault {
        Fault::False(note, found) => put_false(text, page.names, page.origins, note.at, found),
        Fault::TooLarge(var, value) => put_too_large(text, page.names, *var, *value),
        Fault::Blocked(stands) => put_stands(text, page.origins, stands),
    }
}

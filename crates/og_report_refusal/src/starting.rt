//! The message about a run that does not begin: its start makes the precondition false.

ghost use Rattle.std.specs.Prelude.{◌≡◌, ◌++◌, map, IfOk, IfSome, OnOk};
ghost use Rattle.og_command_run.specs.Words.{Give};
ghost use Rattle.og_typed.specs.Machine.{IsStart};
ghost use Rattle.og_report_refusal.specs.Starting.{refused_text, start_value, start_values, start_line, start_word, start_words, hint_text, help_line, start_text, IsStartOf, IsStartRemark};

use crate::put_name;
use og_command_run::{WordsError, values};
use og_linear::State;
use og_report_explain::{Unexplained, false_in};
use og_report_prove::put_false;
use og_report_text::{
    Origins, Places, put_constant, put_name as put_variable, put_position, put_values,
};
use og_subst::Values;
use og_text::Name;
use og_typed::{Assert, Outline, Source};
use std::alloc::{AllocError, Global};

const HELP: &str =
    "help: words NAME=INT give variables their values at the start, which are else 0";

// Adds the place and the refusal.
fn put_refused(text: &mut Vec<u8>, name: &str, places: &Places, at: u32) -> Result<(), AllocError>
    ensures { OnOk result (text.new.items ≡ text.old.items ++ refused_text name.now places.now at) }
{
    put_name(text, name)?;
    text.extend_from_slice(b":")?;
    put_position(text, places.position(at))?;
    text.extend_from_slice(b": refused: 50 NotPre\n")
}

// Adds a variable with its value, after a comma where it is not the first.
fn put_start_value(
    text: &mut Vec<u8>,
    names: &[Name],
    values: &Values,
    var: u32,
) -> Result<(), AllocError>
    ensures { OnOk result (text.new.items ≡ text.old.items ++ start_value names.now values.now var) }
{
    if var > 0 {
        text.extend_from_slice(b", ")?;
    }
    put_values(text, names, values.as_slice(), &[var])
}

// Adds the values of the first variables.
fn put_start_values(
    text: &mut Vec<u8>,
    names: &[Name],
    values: &Values,
    count: u32,
) -> Result<(), AllocError>
    ensures { OnOk result (text.new.items ≡ text.old.items
        ++ start_values names.now values.now count) }
{
    for var in 0..count {
        put_start_value(text, names, values, var)?;
    }
    Ok(())
}

// Adds the line of the values, where there are variables.
fn put_start_line(
    text: &mut Vec<u8>,
    names: &[Name],
    values: &Values,
    count: u32,
) -> Result<(), AllocError>
    ensures { OnOk result (text.new.items ≡ text.old.items ++ start_line names.now values.now count) }
{
    if count == 0 {
        return Ok(());
    }
    text.extend_from_slice(b"  start: ")?;
    put_start_values(text, names, values, count)?;
    text.extend_from_slice(b"\n")
}

// Adds the word that gives a variable its value at a start, where that is another one.
fn put_word(
    text: &mut Vec<u8>,
    names: &[Name],
    values: &Values,
    start: &Values,
    var: u32,
) -> Result<(), AllocError>
    ensures { OnOk result (text.new.items ≡ text.old.items
        ++ start_word names.now values.now start.now var) }
{
    let value = start.at(var);
    if value == values.at(var) {
        return Ok(());
    }
    text.extend_from_slice(b" ")?;
    put_variable(text, names, var)?;
    text.extend_from_slice(b"=")?;
    put_constant(text, true, value)
}

// Adds the words of the first variables.
fn put_words(
    text: &mut Vec<u8>,
    names: &[Name],
    values: &Values,
    start: &Values,
    count: u32,
) -> Result<(), AllocError>
    ensures { OnOk result (text.new.items ≡ text.old.items
        ++ start_words names.now values.now start.now count) }
{
    for var in 0..count {
        put_word(text, names, values, start, var)?;
    }
    Ok(())
}

// Adds a start by its words, where one is known, and ends the line.
fn put_hint(
    text: &mut Vec<u8>,
    names: &[Name],
    values: &Values,
    start: &Option<State>,
    count: u32,
) -> Result<(), AllocError>
    ensures { OnOk result (text.new.items ≡ text.old.items
        ++ hint_text names.now values.now start.now count) }
{
    if let Some(start) = start {
        let start = Values::of(*text.allocator(), start)?;
        text.extend_from_slice(b"; a start:")?;
        put_words(text, names, values, &start, count)?;
    }
    text.extend_from_slice(b"\n")
}

// Adds advice, where there are variables.
fn put_help(
    text: &mut Vec<u8>,
    names: &[Name],
    values: &Values,
    start: &Option<State>,
    count: u32,
) -> Result<(), AllocError>
    ensures { OnOk result (text.new.items ≡ text.old.items
        ++ help_line names.now values.now start.now count) }
{
    if count == 0 {
        return Ok(());
    }
    text.extend_from_slice(HELP.as_bytes())?;
    put_hint(text, names, values, start, count)
}

// The message about values that make these conjuncts of the precondition false.
fn start_text(
    alloc: Global,
    name: &str,
    source: &Source,
    values: &Values,
    found: &[&Assert],
    start: &Option<State>,
) -> Result<Vec<u8>, AllocError>
    ensures { IfOk result (λ text. text.items ≡ start_text name.now source.now.bytes
        source.now.outline values.now found.now start.now) }
{
    let outline = source.outline();
    let places = Places::new(alloc, source.bytes())?;
    let (names, at) = (outline.names(), outline.pre().at);
    let mut text = Vec::new(alloc);
    put_refused(&mut text, name, &places, at)?;
    put_start_line(&mut text, names, values, outline.vars())?;
    let origins = Origins::own(source.bytes(), &places);
    put_false(&mut text, names, &origins, at, found)?;
    put_help(&mut text, names, values, start, outline.vars())?;
    Ok(text)
}

// The message about values of a source, where they make its precondition false.
fn start_text_of(
    alloc: Global,
    name: &str,
    source: &Source,
    state: &State,
    start: &Option<State>,
) -> Result<Option<Vec<u8>>, AllocError>
    requires { IfSome start.now (IsStart source.now.outline) }
    ensures { IfOk result (λ note. IfSome note
        (λ text. IsStartOf name.now source.now.bytes source.now.outline state.now text.items)) }
{
    let values = Values::of(alloc, state)?;
    match false_in(alloc, source.outline().pre(), &values) {
        Ok(found) => {
            let text = start_text(alloc, name, source, &values, &found, start)?;
            Ok(Some(text))
        }
        Err(Unexplained::Open) => Ok(None),
        Err(Unexplained::Memory) => Err(AllocError),
    }
}

// The values that the words give, where they do.
fn start_of(alloc: Global, outline: &Outline, words: &[&str]) -> Result<Option<State>, AllocError>
    ensures { IfOk result (λ state. IfSome state (Give outline.now (map (λ w. w.now) words.now))) }
{
    match values(alloc, outline, words) {
        Ok(state) => Ok(Some(state)),
        Err(WordsError::Bad(_)) => Ok(None),
        Err(WordsError::Memory) => Err(AllocError),
    }
}

/// The message about a run of a source of this name that does not begin: where its precondition
/// stands, the values that the words give to its variables, which conjuncts of the precondition are
/// false then, and of a start, where one is known, the words that it takes beside those. Nothing where
/// a word gives no value, no conjunct is false, or a number on the way leaves 128 bits.
///
/// # Errors
///
/// An allocation was refused.
pub fn start_remark(
    alloc: Global,
    name: &str,
    source: &Source,
    words: &[&str],
    start: &Option<State>,
) -> Result<Option<Vec<u8>>, AllocError>
    requires { IfSome start.now (IsStart source.now.outline) }
    ensures { IfOk result (λ note. IfSome note (λ text. IsStartRemark name.now source.now.bytes
        source.now.outline (map (λ w. w.now) words.now) text.items)) }
{
    match start_of(alloc, source.outline(), words)? {
        Some(state) => start_text_of(alloc, name, source, &state, start),
        None => Ok(None),
    }
}

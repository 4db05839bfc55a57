//! The conjuncts of the assertions in a text.

ghost use Rattle.std.specs.Prelude.{◌≡◌, ◌++◌, ◌≤◌, ◌^◌, length, map, IfOk, OnOk};
ghost use Rattle.og_report_html.specs.Conjuncts.{list_of, ended, conjuncts_from, conjuncts_in, note_ended, notes_in, claim_of, claim_in, claims_in};

use crate::cut::Cut;
use crate::mode::Mode;
use og_text::Span;
use std::alloc::{AllocError, Global};

/// An assertion in a text.
#[derive(Drop)]
pub(crate) struct Claim {
    /// The byte offset of its `{`.
    pub(crate) at: u32,
    /// Its conjuncts, from the first byte of each up to behind its last one.
    pub(crate) conjuncts: Vec<Span>,
}

// Adds the conjunct, where one was begun.
fn add(spans: &mut Vec<Span>, conjunct: Option<Span>) -> Result<(), AllocError>
    ensures { OnOk result (spans.new.items ≡ spans.old.items ++ list_of conjunct) }
{
    if let Some(span) = conjunct {
        spans.push(span)?;
    }
    Ok(())
}

// Adds the conjunct that ends before a byte.
fn add_ended(spans: &mut Vec<Span>, source: &[u8], cut: Cut, at: u32) -> Result<(), AllocError>
    ensures { OnOk result (spans.new.items ≡ spans.old.items ++ ended source.now cut at) }
{
    if cut.is_between(source, at) {
        add(spans, cut.conjunct)
    } else {
        Ok(())
    }
}

// The conjuncts of an assertion from its `{` up to its `}`.
fn conjuncts_in(alloc: Global, source: &[u8], note: Span) -> Result<Vec<Span>, AllocError>
    ensures { IfOk result (λ v. v.items ≡ conjuncts_in source.now note) }
{
    let mut cut = Cut::first();
    let mut spans = Vec::new(alloc);
    for at in note.start..note.end {
        add_ended(&mut spans, source, cut, at)?;
        cut = cut.next(source, at);
    }
    add(&mut spans, cut.conjunct)?;
    Ok(spans)
}

// Adds an assertion, where one ends.
fn add_note(notes: &mut Vec<Span>, ends: bool, start: u32, end: u32) -> Result<(), AllocError>
    ensures { OnOk result (notes.new.items ≡ notes.old.items ++ note_ended ends start end) }
{
    if ends {
        notes.push(Span { start, end })?;
    }
    Ok(())
}

// The assertions of a text, from the `{` of each up to its `}`.
fn notes_in(alloc: Global, source: &[u8]) -> Result<Vec<Span>, AllocError>
    requires { length source.now ≤ 2 ^ 20 }
    ensures { IfOk result (λ v. v.items ≡ notes_in source.now) }
{
    let mut notes = Vec::new(alloc);
    let mut mode = Mode::Text;
    let mut start = 0;
    for index in 0..source.len() {
        let at = index as u32;
        let new = mode.next(false, source[index]);
        add_note(&mut notes, new.begins_assertion(mode), start, at)?;
        if mode.begins_assertion(new) {
            start = at;
        }
        mode = new;
    }
    Ok(notes)
}

// An assertion with its conjuncts.
fn claim_in(alloc: Global, source: &[u8], note: Span) -> Result<Claim, AllocError>
    ensures { IfOk result (λ c. claim_of c ≡ claim_in source.now note) }
{
    let conjuncts = conjuncts_in(alloc, source, note)?;
    Ok(Claim {
        at: note.start,
        conjuncts,
    })
}

/// The assertions of a text, with their conjuncts. The text has at most 1,048,576 bytes.
///
/// # Errors
///
/// An allocation was refused.
pub(crate) fn claims_in(alloc: Global, source: &[u8]) -> Result<Vec<Claim>, AllocError>
    requires { length source.now ≤ 2 ^ 20 }
    ensures { IfOk result (λ v. map claim_of v.items ≡ claims_in source.now) }
{
    let notes = notes_in(alloc, source)?;
    let mut claims = Vec::with_capacity(alloc, notes.len())?;
    for note in &notes {
        claims.push(claim_in(alloc, source, *note)?)?;
    }
    Ok(claims)
}

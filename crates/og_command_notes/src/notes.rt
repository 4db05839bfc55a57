//! The notes on an outline, and the answer for a source.

ghost use Rattle.std.specs.Prelude.{◌≡◌, ◌≤◌, ◌^◌, ◌++◌, length, IfOk, OnOk};
ghost use Rattle.og_report_text.specs.Subject.{subject_of, IsShort};
ghost use Rattle.og_command_notes.specs.Noted.{AreFindings, IsNotesText, IsNotes};
ghost use Rattle.og_command_notes.specs.Notes as wanted;
ghost use Rattle.og_command_notes.specs.Seen.{claims_of};

use crate::claims::{Claim, Search, claims_of};
use crate::lines::{put_assertion_line, put_claims, put_together};
use crate::together::{Together, compared};
use og_erase::erase;
use og_erase_readable::print_readable;
use og_io::Budget;
use og_report_text::{Answer, Origins, Places, Subject, put_names};
use og_review_text::{Walk, put_hidden_lines, put_steps, put_unused, walk_of};
use og_typed::Outline;
use std::alloc::{AllocError, Global};

// The auxiliary variables by number.
#[tactic(auto, using(og_review_text::proofs::Ranges::range_next, og_review_text::proofs::Ranges::range_done))]
fn auxiliaries(alloc: Global, outline: &Outline) -> Result<Vec<u32>, AllocError>
    ensures { IfOk result (λ v. v.items ≡ wanted.auxiliaries outline.now) }
{
    outline.follows_rule();
    let count = outline.names().len() as u32;
    let mut auxiliaries = Vec::new(alloc);
    for var in outline.vars()..count {
        auxiliaries.push(var)?;
    }
    Ok(auxiliaries)
}

// The text of the program without auxiliary variables.
fn program_text(alloc: Global, outline: &Outline) -> Result<Vec<u8>, AllocError>
    ensures { IfOk result (λ text. text.items ≡ wanted.program_of outline.now) }
{
    let program = erase(alloc, outline)?;
    let text = print_readable(alloc, &program);
    drop(program);
    text
}

// The auxiliary variables, and what the program behind them is.
fn put_auxiliaries(text: &mut Vec<u8>, outline: &Outline, vars: &[u32]) -> Result<(), AllocError>
    ensures { OnOk result (text.new.items ≡ text.old.items
        ++ wanted.auxiliaries_text outline.now vars.now) }
{
    if vars.is_empty() {
        return text.extend_from_slice(b"auxiliary variables: none\nthe program:\n");
    }
    text.extend_from_slice(b"auxiliary variables: ")?;
    put_names(text, outline.names(), vars)?;
    text.extend_from_slice(b"\nthe program without them:\n")
}

// The auxiliary variables, and the program that is left without them.
fn put_program(text: &mut Vec<u8>, outline: &Outline) -> Result<(), AllocError>
    ensures { OnOk result (text.new.items ≡ text.old.items
        ++ (wanted.auxiliaries_text outline.now (wanted.auxiliaries outline.now)
        ++ wanted.program_of outline.now)) }
{
    let alloc = *text.allocator();
    let auxiliaries = auxiliaries(alloc, outline)?;
    let program = program_text(alloc, outline)?;
    put_auxiliaries(text, outline, &auxiliaries)?;
    text.extend_from_slice(&program)
}

// What everybody should know of every yes.
fn put_meaning(text: &mut Vec<u8>) -> Result<(), AllocError>
    ensures { OnOk result (text.new.items ≡ text.old.items
        ++ (wanted.unblocked_line ++ wanted.definitions_line)) }
{
    text.extend_from_slice(
        b"unblocked is said of the whole program: until all processes have ended, one of them can step; a single one may wait for ever\n",
    )?;
    text.extend_from_slice(
        b"a yes is carried by 948 lines of definitions, from the bytes of the source to its runs: docs/THEOREM.md\n",
    )
}

// The precondition, the postcondition, and what is claimed of no run.
fn put_claimed(
    text: &mut Vec<u8>,
    outline: &Outline,
    origins: &Origins,
    claims: &[Claim],
) -> Result<(), AllocError>
    requires { origins.now.places.now ≡ origins.now.source.now }
    ensures { OnOk result (text.new.items ≡ text.old.items
        ++ wanted.claims_text outline.now origins.now.source.now origins.now.rows
        (claims_of claims.now)) }
{
    put_assertion_line(text, origins, outline, "precondition", outline.pre())?;
    put_assertion_line(text, origins, outline, "postcondition", outline.post())?;
    put_claims(text, origins, claims)
}

/// What is known of an outline.
#[derive(Drop)]
struct Findings<'a> {
    walk: Walk<'a>,
    claims: Vec<Claim<'a>>,
    together: Together,
}

// What a search within the budget finds.
fn found_in<'a>(
    alloc: Global,
    outline: &'a Outline,
    budget: Budget,
) -> Result<Findings<'a>, AllocError>
    ensures { IfOk result (AreFindings outline.now) }
{
    let walk = walk_of(alloc, outline)?;
    let search = Search::new(alloc, outline, budget);
    let claims = claims_of(search, outline, &walk.points)?;
    let together = compared(search, &walk.points)?;
    Ok(Findings {
        walk,
        claims,
        together,
    })
}

// The lines that are about the outline.
fn put_findings(
    text: &mut Vec<u8>,
    outline: &Outline,
    origins: &Origins,
    found: &Findings,
) -> Result<(), AllocError>
    requires found { AreFindings outline.now found.now }
    requires places { origins.now.places.now ≡ origins.now.source.now }
    ensures { OnOk result (text.new.items ≡ text.old.items ++ wanted.findings_text outline.now
        origins.now.source.now origins.now.rows (claims_of found.now.claims.items)
        found.now.together.blocks.items) }
{
    let processes = outline.processes().len();
    put_claimed(text, outline, origins, &found.claims)?;
    put_unused(text, outline, &found.walk)?;
    put_together(
        text,
        origins,
        &found.walk.points,
        processes,
        &found.together,
    )?;
    put_steps(text, origins, outline, &found.walk.steps)
}

// The notes, by what is found of the outline.
fn put_notes(
    text: &mut Vec<u8>,
    outline: &Outline,
    origins: &Origins,
    found: &Findings,
) -> Result<(), AllocError>
    requires found { AreFindings outline.now found.now }
    requires places { origins.now.places.now ≡ origins.now.source.now }
    requires short { length origins.now.source.now ≤ 2 ^ 20 }
    ensures { OnOk result (text.new.items ≡ text.old.items ++ wanted.notes_text outline.now
        origins.now.source.now origins.now.rows (claims_of found.now.claims.items)
        found.now.together.blocks.items) }
{
    put_findings(text, outline, origins, found)?;
    put_hidden_lines(text, origins.places, origins.source)?;
    put_meaning(text)?;
    put_program(text, outline)
}

// The text of the notes on an outline.
fn notes_text(alloc: Global, subject: &Subject, budget: Budget) -> Result<Vec<u8>, AllocError>
    requires { IsShort (subject_of subject.now) }
    ensures { IfOk result (λ text. IsNotesText (subject_of subject.now) text.items) }
{
    let outline = subject.outline;
    let places = Places::new(alloc, subject.given)?;
    let origins = Origins {
        source: subject.given,
        places: &places,
        rows: subject.rows,
    };
    let found = found_in(alloc, outline, budget)?;
    let mut text = Vec::new(alloc);
    put_notes(&mut text, outline, &origins, &found)?;
    Ok(text)
}

/// Notes on an outline for whoever reviews a yes, and status 0, with places of the text that was
/// given. That has at most 1,048,576 bytes.
///
/// They have the precondition and the postcondition; what a search within the budget shows to be so
/// in no state: assertions, loops, branches and awaits, the end; variables that nothing assigns or
/// reads; places of different processes that no state has together; each step that makes more than
/// one access to variables which other processes use; characters that may hide text; and the
/// auxiliary variables, with the program that is left without them.
///
/// # Errors
///
/// An allocation was refused.
pub fn noted(alloc: Global, subject: &Subject, budget: Budget) -> Result<Answer, AllocError>
    requires { IsShort (subject_of subject.now) }
    ensures { IfOk result (IsNotes (subject_of subject.now)) }
{
    let text = notes_text(alloc, subject, budget)?;
    Ok(Answer { text, status: 0 })
}

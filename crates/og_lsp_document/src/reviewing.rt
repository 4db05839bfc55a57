//! What a reviewer is told of an outline besides its conditions.

ghost use Rattle.std.specs.Prelude.{◌≡◌, ◌≤◌, ◌^◌, length, slice_get, IfOk};
ghost use Rattle.std.specs.List.{AllZip};
ghost use Rattle.og_report_text.specs.Listing.{name_text};
ghost use Rattle.og_review_text.specs.Hidden.{hidden_characters as hidden_characters_of};
ghost use Rattle.og_review_text.specs.Unused.{unused_variables as unused_variables_of};
ghost use Rattle.og_lsp_diagnostics.specs.Extents.{LiesIn, IsSaidIn, AreSaidIn};
ghost use Rattle.og_lsp_diagnostics.specs.Remarked.{AreOfRemarks};
ghost use Rattle.og_lsp_diagnostics.specs.Said.{text_of, rows_of, IsSheet};
ghost use Rattle.og_lsp_document.specs.Reviewed.{first_word_or, name_span, IsOfUnused, IsOfHidden, AreOfUnused, AreReviewed};

use og_command_notes::remarks;
use og_io::Budget;
use og_lsp_diagnostics::{Diagnostic, Teller, information, word_at};
use og_lsp_names::{spans_of, words_or_none};
use og_review_text::{Hidden, Unused, hidden_characters, unused_variables, walk_of};
use og_template::Word;
use og_text::{Name, Span};
use og_typed::Outline;
use std::alloc::AllocError;

// What is said of what an outline claims of no run.
fn of_claims(
    teller: &Teller,
    outline: &Outline,
    budget: Budget,
) -> Result<Vec<Diagnostic>, AllocError>
    requires { IsSheet teller.now.page }
    ensures are { IfOk result (λ v.
        AreOfRemarks (text_of teller.now.page) (rows_of teller.now.page) outline.now v.items) }
    ensures within { IfOk result (λ v. AreSaidIn (text_of teller.now.page) v.items) }
{
    let claims = remarks(teller.alloc, outline, budget)?;
    let said = teller.of_remarks(claims)?;
    Ok(said)
}

// ---- variables

// The name of the variable of this number; none where there is no such variable.
fn name_of(names: &[Name], var: u32) -> &[u8]
    ensures { result.now ≡ name_text (slice_get names.now var) }
{
    match names.get(var as usize) {
        Some(name) => name.as_slice(),
        None => b"",
    }
}

// The word where the first of these places begins, or else these bytes.
fn first_word_or(text: &[u8], other: Span, spans: &[Span]) -> Span
    requires short { length text.now ≤ 2 ^ 20 }
    requires other { LiesIn text.now other }
    ensures word { result ≡ first_word_or text.now other spans.now }
    ensures lies { LiesIn text.now result }
{
    match spans.first() {
        Some(span) => word_at(text, span.start),
        None => other,
    }
}

// Where what is said of variables stands.
#[derive(Clone, Copy)]
struct Naming<'n> {
    text: &'n [u8],
    words: &'n [Word],
    names: &'n [Name],
    // Where it stands of a name that the text does not have.
    other: Span,
}

// What is said of a variable that is unused.
fn of_variable(
    teller: &Teller,
    naming: Naming<'_>,
    unused: Unused,
) -> Result<Diagnostic, AllocError>
    requires short { length naming.text.now ≤ 2 ^ 20 }
    requires other { LiesIn naming.text.now naming.other }
    ensures is { IfOk result (IsOfUnused naming.entry.text.now naming.entry.other
        naming.entry.words.now naming.entry.names.now unused) }
    ensures within { IfOk result (IsSaidIn naming.entry.text.now) }
{
    let spans = spans_of(
        teller.alloc,
        naming.words,
        name_of(naming.names, unused.var),
    )?;
    let span = first_word_or(naming.text, naming.other, &spans);
    let mut message = Vec::new(teller.alloc);
    unused.put_message(&mut message, naming.names)?;
    information(teller.alloc, span, message)
}

// What is said of variables, in their order.
fn of_each(
    teller: &Teller,
    naming: Naming<'_>,
    all: Vec<Unused>,
) -> Result<Vec<Diagnostic>, AllocError>
    requires short { length naming.text.now ≤ 2 ^ 20 }
    requires other { LiesIn naming.text.now naming.other }
    ensures are { IfOk result (λ v. AllZip (IsOfUnused naming.entry.text.now naming.entry.other
        naming.entry.words.now naming.entry.names.now) all.items v.items) }
    ensures within { IfOk result (λ v. AreSaidIn naming.entry.text.now v.items) }
{
    let mut said = Vec::new(teller.alloc);
    for unused in all {
        said.push(of_variable(teller, naming, unused)?)?;
    }
    Ok(said)
}

// What is said of the unused variables of an outline.
fn of_variables(teller: &Teller, outline: &Outline) -> Result<Vec<Diagnostic>, AllocError>
    requires { IsSheet teller.now.page }
    ensures are { IfOk result (λ v.
        AreOfUnused (text_of teller.now.page) (rows_of teller.now.page) outline.now v.items) }
    ensures within { IfOk result (λ v. AreSaidIn (text_of teller.now.page) v.items) }
{
    let walk = walk_of(teller.alloc, outline)?;
    let all = unused_variables(teller.alloc, outline, &walk)?;
    let text = teller.page.origins.source;
    let words = words_or_none(teller.alloc, text)?;
    let naming = Naming {
        text,
        words: &words,
        names: outline.names(),
        other: teller.span(outline.cobegin_at()),
    };
    of_each(teller, naming, all)
}

// ---- characters

// What is said of a character that may hide text.
fn of_character(teller: &Teller, hidden: Hidden) -> Result<Diagnostic, AllocError>
    requires { IsSheet teller.now.page }
    ensures is { IfOk result (IsOfHidden (text_of teller.now.page) hidden) }
    ensures within { IfOk result (IsSaidIn (text_of teller.now.page)) }
{
    let span = word_at(teller.page.origins.source, hidden.at);
    let mut message = Vec::new(teller.alloc);
    hidden.put_message(&mut message)?;
    information(teller.alloc, span, message)
}

// What is said of such characters of the text, in their order.
fn of_characters(teller: &Teller) -> Result<Vec<Diagnostic>, AllocError>
    requires { IsSheet teller.now.page }
    ensures are { IfOk result (λ v. AllZip (IsOfHidden (text_of teller.now.page))
        (hidden_characters_of (text_of teller.now.page)) v.items) }
    ensures within { IfOk result (λ v. AreSaidIn (text_of teller.now.page) v.items) }
{
    let all = hidden_characters(teller.alloc, teller.page.origins.source)?;
    let mut said = Vec::new(teller.alloc);
    for hidden in all {
        said.push(of_character(teller, hidden)?)?;
    }
    Ok(said)
}

/// What a reviewer is told of an outline besides its conditions: what it claims of no run, as far as
/// a search within the budget shows it; variables that nothing assigns or reads, at their names, or
/// at `cobegin` where the text does not have the name; and characters that may hide text.
///
/// # Errors
///
/// An allocation was refused.
pub(crate) fn reviewed(
    teller: &Teller,
    outline: &Outline,
    budget: Budget,
) -> Result<Vec<Diagnostic>, AllocError>
    requires { IsSheet teller.now.page }
    ensures are { IfOk result (λ v.
        AreReviewed (text_of teller.now.page) (rows_of teller.now.page) outline.now v.items) }
    ensures within { IfOk result (λ v. AreSaidIn (text_of teller.now.page) v.items) }
{
    let mut said = of_claims(teller, outline, budget)?;
    let mut variables = of_variables(teller, outline)?;
    let mut characters = of_characters(teller)?;
    said.append(&mut variables)?;
    said.append(&mut characters)?;
    Ok(said)
}

//! What is said of a place.

ghost use Rattle.std.specs.Prelude.{◌≡◌, ◌++◌, option_map, if◌then◌else◌, [], IfOk, OnOk};
ghost use Rattle.og_lsp_document.specs.Hovers.{has, part_round, statement_round, bytes_in, conditions_word, asked_text, unproved_text, counts_text, head_text, block_text, blocks_text, behind_text, triple_text, kept_word, kept_text, statement_text, part_text, whole_text, said_at};

use crate::judged::{Judgement, PartCount, StatementCount};
use og_lsp_diagnostics::Diagnostic;
use og_report_text::put_number;
use og_text::Span;
use std::alloc::{AllocError, Global};

// Whether a byte offset is among some bytes.
fn has(span: Span, at: u32) -> bool
    ensures { result ≡ has span at }
{
    span.start <= at && at < span.end
}

// Of the parts round a byte offset the one that begins last.
fn part_round(parts: &[PartCount], at: u32) -> Option<PartCount>
    ensures { result ≡ part_round at parts.now }
{
    let mut found = None;
    for part in parts {
        if has(part.span, at) {
            found = Some(*part);
        }
    }
    found
}

// Of the statements round a byte offset the one that begins last.
fn statement_round(statements: &[StatementCount], at: u32) -> Option<StatementCount>
    ensures { result ≡ statement_round at statements.now }
{
    let mut found = None;
    for statement in statements {
        if has(statement.span, at) {
            found = Some(*statement);
        }
    }
    found
}

// The bytes of a text there, as far as it goes.
fn bytes_in(text: &[u8], span: Span) -> &[u8]
    ensures { result.now ≡ bytes_in text.now span }
{
    let end = text.len().min(span.end as usize);
    let start = end.min(span.start as usize);
    &text[start..end]
}

// What the number of conditions is followed by.
fn conditions_word(conditions: usize) -> &'static [u8]
    ensures { result.now ≡ conditions_word conditions }
{
    if conditions == 1 {
        b" condition is asked here, "
    } else {
        b" conditions are asked here, "
    }
}

// How many conditions lead to a part.
fn put_asked(text: &mut Vec<u8>, conditions: usize) -> Result<(), AllocError>
    ensures { OnOk result (text.new.items ≡ text.old.items ++ asked_text conditions) }
{
    put_number(text, conditions as u128)?;
    text.extend_from_slice(conditions_word(conditions))
}

// How many of them are not proved.
fn put_unproved(text: &mut Vec<u8>, unproved: usize) -> Result<(), AllocError>
    ensures { OnOk result (text.new.items ≡ text.old.items ++ unproved_text unproved) }
{
    if unproved == 0 {
        return text.extend_from_slice(b"all proved.");
    }
    put_number(text, unproved as u128)?;
    text.extend_from_slice(b" not proved.")
}

// How many conditions lead to a part, and how many of them are not proved.
fn put_counts(text: &mut Vec<u8>, part: PartCount) -> Result<(), AllocError>
    ensures { OnOk result (text.new.items ≡ text.old.items ++ counts_text part) }
{
    put_asked(text, part.conditions)?;
    put_unproved(text, part.unproved)
}

// The head of a block of code.
fn put_code(text: &mut Vec<u8>, code: &[u8]) -> Result<(), AllocError>
    ensures { OnOk result (text.new.items ≡ text.old.items ++ head_text code.now) }
{
    text.extend_from_slice(b"\n\n```\ncondition ")?;
    text.extend_from_slice(code)?;
    text.push(b'\n')?;
    Ok(())
}

// A diagnostic as a block of code.
fn put_block(text: &mut Vec<u8>, diagnostic: &Diagnostic) -> Result<(), AllocError>
    ensures { OnOk result (text.new.items ≡ text.old.items ++ block_text diagnostic.now) }
{
    put_code(text, &diagnostic.code)?;
    text.extend_from_slice(&diagnostic.message)?;
    text.extend_from_slice(b"\n```")
}

// The same, where it stands at these bytes.
fn put_block_in(text: &mut Vec<u8>, part: Span, diagnostic: &Diagnostic) -> Result<(), AllocError>
    ensures { OnOk result (text.new.items
        ≡ text.old.items ++ (if has part diagnostic.now.span.start then block_text diagnostic.now else [])) }
{
    if has(part, diagnostic.span.start) {
        put_block(text, diagnostic)
    } else {
        Ok(())
    }
}

// Those that stand at these bytes.
fn put_blocks(text: &mut Vec<u8>, part: Span, all: &[Diagnostic]) -> Result<(), AllocError>
    ensures { OnOk result (text.new.items ≡ text.old.items ++ blocks_text part all.now) }
{
    for diagnostic in all {
        put_block_in(text, part, diagnostic)?;
    }
    Ok(())
}

// The note behind a statement, in a line of its own.
fn put_behind(text: &mut Vec<u8>, source: &[u8], behind: Option<Span>) -> Result<(), AllocError>
    ensures { OnOk result (text.new.items ≡ text.old.items ++ behind_text source.now behind) }
{
    let Some(span) = behind else {
        return Ok(());
    };
    text.extend_from_slice(b"\n")?;
    text.extend_from_slice(bytes_in(source, span))
}

// A statement between its notes, as a block of code.
fn put_triple(
    text: &mut Vec<u8>,
    source: &[u8],
    statement: StatementCount,
) -> Result<(), AllocError>
    ensures { OnOk result (text.new.items ≡ text.old.items ++ triple_text source.now statement) }
{
    text.extend_from_slice(b"```\n")?;
    text.extend_from_slice(bytes_in(source, statement.before))?;
    text.extend_from_slice(b"\n")?;
    text.extend_from_slice(bytes_in(source, statement.span))?;
    put_behind(text, source, statement.behind)?;
    text.extend_from_slice(b"\n```\n\n")
}

// What the number of conditions about a step is followed by.
fn kept_word(conditions: usize) -> &'static [u8]
    ensures { result.now ≡ kept_word conditions }
{
    if conditions == 1 {
        b" condition asks whether the step keeps an assertion of another process, "
    } else {
        b" conditions ask whether the step keeps assertions of other processes, "
    }
}

// How many conditions ask what a step does to other processes, and how many of them are not proved.
fn put_kept(text: &mut Vec<u8>, statement: StatementCount) -> Result<(), AllocError>
    ensures { OnOk result (text.new.items ≡ text.old.items ++ kept_text statement) }
{
    if statement.conditions == 0 {
        return text.extend_from_slice(b"No condition asks what the step does to other processes.");
    }
    put_number(text, statement.conditions as u128)?;
    text.extend_from_slice(kept_word(statement.conditions))?;
    put_unproved(text, statement.unproved)
}

// What is said of a statement.
fn put_statement(
    text: &mut Vec<u8>,
    source: &[u8],
    statement: StatementCount,
) -> Result<(), AllocError>
    ensures { OnOk result (text.new.items ≡ text.old.items ++ statement_text source.now statement) }
{
    put_triple(text, source, statement)?;
    put_kept(text, statement)
}

impl Judgement {
    // What is said of the conditions at a part.
    fn put_part(&self, text: &mut Vec<u8>, part: PartCount) -> Result<(), AllocError>
        ensures { OnOk result (text.new.items ≡ text.old.items ++ part_text self.now part) }
    {
        put_counts(text, part)?;
        put_blocks(text, part.span, &self.diagnostics)
    }

    // What is said of a part without a statement.
    fn of_part(&self, alloc: Global, part: PartCount) -> Result<(Vec<u8>, Span), AllocError>
        ensures { IfOk result (λ s. (s.0.items ≡ part_text self.now part) × (s.1 ≡ part.span)) }
    {
        let mut text = Vec::new(alloc);
        self.put_part(&mut text, part)?;
        Ok((text, part.span))
    }

    // What is said of a statement, and of the part that begins there, if one does.
    fn of_statement(
        &self,
        alloc: Global,
        source: &[u8],
        statement: StatementCount,
        part: Option<PartCount>,
    ) -> Result<(Vec<u8>, Span), AllocError>
        ensures { IfOk result (λ s. (s.0.items ≡ whole_text self.now source.now statement part) × (s.1 ≡ statement.span)) }
    {
        let mut text = Vec::new(alloc);
        put_statement(&mut text, source, statement)?;
        if let Some(part) = part {
            text.extend_from_slice(b"\n\n")?;
            self.put_part(&mut text, part)?;
        }
        Ok((text, statement.span))
    }

    /// What is said of the note or the statement round a byte offset of the text that was judged, in
    /// Markdown, and its bytes. Of a statement that is it between the notes before and behind it, and
    /// how many conditions ask whether its step keeps assertions of other processes; of both how many
    /// conditions are asked there, and each that is not proved. Nothing where there is no statement
    /// and no condition.
    ///
    /// # Errors
    ///
    /// An allocation was refused.
    pub fn said_at(
        &self,
        alloc: Global,
        source: &[u8],
        at: u32,
    ) -> Result<Option<(Vec<u8>, Span)>, AllocError>
        ensures { IfOk result (λ said.
            option_map (λ s. (s.0.items, s.1)) said ≡ said_at self.now source.now at) }
    {
        let part = part_round(&self.parts, at);
        match (statement_round(&self.statements, at), part) {
            (Some(statement), part) => {
                let said = self.of_statement(alloc, source, statement, part)?;
                Ok(Some(said))
            }
            (None, Some(part)) => {
                let said = self.of_part(alloc, part)?;
                Ok(Some(said))
            }
            (None, None) => Ok(None),
        }
    }
}

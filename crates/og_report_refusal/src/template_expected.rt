//! The word found at a place of a template, and those that may stand there.

ghost use Rattle.std.specs.Prelude.{◌≡◌, ◌≤◌, ◌^◌, length, IfOk};
ghost use Rattle.og_report_refusal.specs.Reasons.{found_at};
ghost use Rattle.og_report_refusal.specs.Templates.{span_behind, IsFoundLine, IsTemplateExpected};

use crate::choosing::{count_words, hint_at};
use crate::expected::{found_line, put_found};
use crate::hint::Hint;
use crate::words::all_words_of;
use og_template::{TemplateError, Word, WordKind, read, words};
use og_text::{LexError, Span};
use std::alloc::{AllocError, Global};

// The place of a word that is tried: no other one ends there.
const TRIED: Span = Span {
    start: u32::MAX - 1,
    end: u32::MAX,
};

// A name, a number, and every keyword and symbol, those of templates last.
const ALL_WORDS: &str =
    "x 0 var aux cobegin coend await then begin end if else while do skip true false not and or := // <= >= <> < > = + - -> * ( ) { } ; , template const let process for in where all some sum mod .. [ ] :";

// Whether a template begins with the words, of which the last is tried.
fn is_front(alloc: Global, words: &[Word]) -> Result<bool, AllocError> {
    match read(alloc, words) {
        Ok(template) => {
            drop(template);
            Ok(true)
        }
        Err(TemplateError::Memory) => Err(AllocError),
        Err(TemplateError::Fault(fault)) => Ok(fault.at == TRIED.end),
    }
}

// The kind, if a template goes on with a word of it. The words stay as they are.
fn admitted(
    alloc: Global,
    before: &mut Vec<Word>,
    kind: WordKind,
) -> Result<Option<WordKind>, AllocError> {
    before.push(Word { kind, span: TRIED })?;
    let goes_on = is_front(alloc, before.as_slice())?;
    let Some(Word { kind, span: _ }) = before.pop() else {
        return Ok(None);
    };
    Ok(if goes_on { Some(kind) } else { None })
}

// The words of a text; none where it has none.
fn words_in(alloc: Global, text: &[u8]) -> Result<Vec<Word>, AllocError> {
    match words(alloc, text) {
        Ok(words) => Ok(words),
        Err(LexError::Memory) => Err(AllocError),
        Err(LexError::Fault(_)) => Ok(Vec::new(alloc)),
    }
}

/// The kinds of the words with which a template goes on behind these, which stay as they are. A name
/// and a number are there for all of them.
///
/// # Errors
///
/// An allocation was refused.
pub fn expected_words(alloc: Global, before: &mut Vec<Word>) -> Result<Vec<WordKind>, AllocError> {
    let mut all = Vec::new(alloc);
    for word in words_in(alloc, ALL_WORDS.as_bytes())? {
        if let Some(kind) = admitted(alloc, before, word.kind)? {
            all.push(kind)?;
        }
    }
    Ok(all)
}

// Whether a template may end behind the words.
fn may_end(alloc: Global, before: &[Word]) -> Result<bool, AllocError> {
    match read(alloc, before) {
        Ok(template) => {
            drop(template);
            Ok(true)
        }
        Err(TemplateError::Memory) => Err(AllocError),
        Err(TemplateError::Fault(_)) => Ok(false),
    }
}

// Where the first word stands that does not end before a place or at it.
fn first_span(words: &[Word], at: u32) -> Option<Span>
    ensures { result ≡ span_behind at words.now }
{
    for word in words {
        if at < word.span.end {
            return Some(word.span);
        }
    }
    None
}

// What is found at a place among the words.
fn found(alloc: Global, source: &[u8], words: &[Word], at: u32) -> Result<Vec<u8>, AllocError>
    ensures { IfOk result (λ t. t.items ≡ found_at source.now (span_behind at words.now)) }
{
    let mut text = Vec::new(alloc);
    put_found(&mut text, source, first_span(words, at))?;
    Ok(text)
}

// What may stand at a place of a text, in words, and advice.
fn choices(
    alloc: Global,
    source: &[u8],
    words: &[Word],
    at: u32,
) -> Result<(Vec<&'static str>, Option<Hint>), AllocError> {
    let mut before = words_in(alloc, source)?;
    before.truncate(count_words(words, at));
    let ends = may_end(alloc, &before)?;
    let symbols = expected_words(alloc, &mut before)?;
    let hint = hint_at(source, at, words, &symbols);
    Ok((all_words_of(alloc, &symbols, ends)?, hint))
}

// The reason at a place among the words of a template.
fn reason_among(
    alloc: Global,
    source: &[u8],
    words: &[Word],
    at: u32,
) -> Result<(Vec<u8>, Option<Hint>), AllocError>
    ensures { IfOk result (λ r. IsFoundLine source.now words.now at r.0.items) }
{
    let found = found(alloc, source, words, at)?;
    let (may, hint) = choices(alloc, source, words, at)?;
    Ok((found_line(alloc, &found, &may)?, hint))
}

/// The word found at a place of a template, with those that may stand there, as a text; and advice,
/// where there is some.
///
/// # Errors
///
/// An allocation was refused.
pub(crate) fn template_expected(
    alloc: Global,
    source: &[u8],
    at: u32,
) -> Result<(Vec<u8>, Option<Hint>), AllocError>
    requires { length source.now ≤ 2 ^ 20 }
    ensures { IfOk result (λ r. IsTemplateExpected source.now at r.0.items) }
{
    match words(alloc, source) {
        Ok(words) => reason_among(alloc, source, &words, at),
        Err(LexError::Memory) => Err(AllocError),
        Err(LexError::Fault(_)) => {
            let text = Vec::from_slice(alloc, b"no template goes on with this word")?;
            Ok((text, None))
        }
    }
}

//! One line of a certificate text.

ghost use Rattle.std.specs.Prelude.{◌≡◌, ◌+◌, ◌≤◌, IfOk, Some, option_map, length};
ghost use Rattle.og_cert_text.specs.Plain.{combination_of};
ghost use Rattle.og_cert_read.specs.Words as words;
ghost use Rattle.og_cert_read.specs.Said.{said_line};

use crate::limits::PARTS_LIMIT;
use crate::words::{after, factor, index, number, part, split_at_byte, term, whole};
use og_cert_text::Term;
use og_linear::Form;
use std::alloc::{AllocError, Global};

/// What a line says.
#[derive(Drop)]
pub(crate) enum Line {
    Condition(u32),
    Same(u32),
    Sum(Vec<Term>),
    Cut(u32, u64),
    Branch(Form),
    Split(u32, u32),
    Close(Vec<Term>),
}

// At least as many as there are words, if each has three bytes or more, as a term has. A line of
// spaces gets no more room than its length warrants.
fn most_words(text: &[u8]) -> usize
    ensures { result ≤ length text.now + 1 }
{
    let mut spaces: usize = 0;
    for b in text {
        spaces += usize::from(*b == b' ');
    }
    spaces.min(text.len() / 4) + 1
}

// The terms that the words are.
fn combination(alloc: Global, text: &[u8]) -> Result<Option<Vec<Term>>, AllocError>
    ensures { IfOk result (λ r.
        option_map (λ v. combination_of v.items) r ≡ words.terms_of (words.words_in text.now)) }
{
    let mut terms = Vec::with_capacity(alloc, most_words(text))?;
    let mut rest = Some(text);
    while let Some(words) = rest {
        let (word, later) = split_at_byte(words, b' ');
        let Some(t) = term(word) else {
            return Ok(None);
        };
        terms.push(t)?;
        rest = later;
    }
    Ok(Some(terms))
}

// The variables with their coefficients that the words are, where the variables rise.
fn parts(alloc: Global, text: Option<&[u8]>) -> Result<Option<Vec<(u32, i128)>>, AllocError>
    ensures { IfOk result (λ r. option_map (λ v. v.items) r
        ≡ words.parts_of 0 (words.words_of (option_map (λ s. s.now) text.entry))) }
{
    let room = match text {
        Some(words) => most_words(words),
        None => 0,
    };
    let mut parts = Vec::with_capacity(alloc, room)?;
    let mut low: u64 = 0;
    let mut rest = text;
    while let Some(words) = rest {
        let (word, later) = split_at_byte(words, b' ');
        let Some((v, a)) = part(word) else {
            return Ok(None);
        };
        if (v as u64) < low {
            return Ok(None);
        }
        parts.push((v, a))?;
        low = v as u64 + 1;
        rest = later;
    }
    Ok(Some(parts))
}

// The number of a fact, and what stands after it and a space.
fn index_and_rest(text: &[u8]) -> Option<(u32, &[u8])>
    ensures { option_map (λ p. (p.0, p.1.now)) result ≡ words.index_and_rest text.now }
{
    let (word, rest) = split_at_byte(text, b' ');
    let fact = index(word)?;
    Some((fact, rest?))
}

fn cut(text: &[u8]) -> Option<Line>
    ensures { option_map said_line result ≡ words.cut_of text.now }
{
    let (fact, rest) = index_and_rest(text)?;
    Some(Line::Cut(fact, factor(rest)?))
}

fn split(text: &[u8]) -> Option<Line>
    ensures { option_map said_line result ≡ words.split_of text.now }
{
    let (fact, rest) = index_and_rest(text)?;
    let count = number(rest, PARTS_LIMIT as u64)?;
    Some(Line::Split(fact, count as u32))
}

// The form that the words are.
fn form(alloc: Global, text: &[u8]) -> Result<Option<Form>, AllocError>
    ensures { IfOk result (λ r. r ≡ words.form_of text.now) }
{
    let (word, past) = split_at_byte(text, b' ');
    let Some(constant) = whole(word) else {
        return Ok(None);
    };
    let Some(parts) = parts(alloc, past)? else {
        return Ok(None);
    };
    Ok(Some(Form::of_terms(parts, constant)))
}

/// The line that the bytes are, without its LF.
pub(crate) fn read_line(alloc: Global, text: &[u8]) -> Result<Option<Line>, AllocError>
    ensures { IfOk result (λ r. option_map said_line r ≡ words.line_of text.now) }
{
    if let Some(rest) = after(b"sum ", text) {
        return Ok(combination(alloc, rest)?.map(Line::Sum));
    }
    if let Some(rest) = after(b"close ", text) {
        return Ok(combination(alloc, rest)?.map(Line::Close));
    }
    if let Some(rest) = after(b"cut ", text) {
        return Ok(cut(rest));
    }
    if let Some(rest) = after(b"branch ", text) {
        return Ok(form(alloc, rest)?.map(Line::Branch));
    }
    if let Some(rest) = after(b"split ", text) {
        return Ok(split(rest));
    }
    if let Some(rest) = after(b"cond ", text) {
        return Ok(index(rest).map(Line::Condition));
    }
    if let Some(rest) = after(b"same ", text) {
        return Ok(index(rest).map(Line::Same));
    }
    Ok(None)
}

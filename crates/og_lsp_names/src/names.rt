//! The names of a text.

ghost use Rattle.std.specs.Prelude.{◌≡◌, option_map, IfOk};
ghost use Rattle.std.specs.Bool.{MatchBool};
ghost use Rattle.std.specs.List.{suffix_len};
ghost use Rattle.og_template.specs.Front.{is_template};
ghost use Rattle.og_lsp_names.specs.Names.{name_in, is_named, spans_named, name_there, last_name, is_digit, is_reserved, is_one_word, is_one_token, fault_of, IsName, IsTemplateName, IsOutlineName, IsNameFault, AreWordsOrNone};

use og_layout::words_of;
use og_template::{Word, WordKind, is_template, words};
use og_text::{LexError, Span, Token, TokenKind, lex};
use std::alloc::{AllocError, Global};

/// The words of a text; none where it has no words.
///
/// # Errors
///
/// An allocation was refused.
pub fn words_or_none(alloc: Global, text: &[u8]) -> Result<Vec<Word>, AllocError>
    ensures { IfOk result (λ words. AreWordsOrNone text.now words.items) }
{
    match words_of(alloc, text) {
        Ok(all) => Ok(all),
        Err(LexError::Memory) => Err(AllocError),
        Err(LexError::Fault(_)) => Ok(Vec::new(alloc)),
    }
}

// The bytes of a word that is a name.
pub(crate) fn name_of(word: &Word) -> Option<&[u8]>
    ensures { option_map (λ n. n.now) result ≡ name_in word.now.kind }
{
    match &word.kind {
        WordKind::Lexeme(TokenKind::Name(name)) => Some(name.as_slice()),
        _ => None,
    }
}

// Whether the word is this name.
fn is_named(word: &Word, name: &[u8]) -> bool
    ensures { result ≡ is_named name.now word.now }
{
    match name_of(word) {
        Some(found) => found == name,
        None => false,
    }
}

// The name that a word is, where a byte offset lies in it or at its end.
fn name_there(word: &Word, at: u32) -> Option<(&[u8], Span)>
    ensures { option_map (λ n. (n.0.now, n.1)) result ≡ name_there at word.now }
{
    if word.span.start <= at && at <= word.span.end {
        let name = name_of(word)?;
        Some((name, word.span))
    } else {
        None
    }
}

/// The name at a byte offset, or the one that ends there: its bytes, and where it stands.
pub fn name_at(all: &[Word], at: u32) -> Option<(&[u8], Span)>
    ensures { option_map (λ n. (n.0.now, n.1)) result ≡ last_name at all.now }
{
    let mut found = None;
    for word in all {
        if let Some(name) = name_there(word, at) {
            found = Some(name);
        }
    }
    found
}

/// Where a name stands, from the first place on.
///
/// # Errors
///
/// An allocation was refused.
pub fn spans_of(alloc: Global, all: &[Word], name: &[u8]) -> Result<Vec<Span>, AllocError>
    ensures { IfOk result (λ v. v.items ≡ spans_named name.now all.now) }
{
    let mut spans = Vec::new(alloc);
    for word in all {
        if is_named(word, name) {
            spans.push(word.span)?;
        }
    }
    Ok(spans)
}

/// Why a name cannot be given.
#[derive(Clone, Copy, Drop, PartialEq, Eq)]
pub enum NameFault {
    /// It is no name.
    NoName,
    /// The text has it already.
    Taken,
    /// In a template it ends in `_` and digits.
    Reserved,
}

// Whether the byte is a digit.
fn is_digit(byte: u8) -> bool
    ensures { result ≡ is_digit byte }
{
    b'0' <= byte && byte <= b'9'
}

// How many digits stand at the end.
fn digits_at_end(bytes: &[u8]) -> usize
    ensures { result ≡ suffix_len is_digit bytes.now }
{
    bytes.iter().rev().take_while(|b| is_digit(**b)).count()
}

// Whether a name ends in `_` and digits.
fn is_reserved(name: &[u8]) -> bool
    ensures { result ≡ is_reserved name.now }
{
    let digits = digits_at_end(name);
    digits > 0 && digits < name.len() && name[name.len() - digits - 1] == b'_'
}

// Whether the only word is a name of these bytes.
fn is_one_word(words: &[Word], name: &[u8]) -> bool
    ensures { result ≡ is_one_word name.now words.now }
{
    match words {
        [only] => is_named(only, name),
        _ => false,
    }
}

// Whether a template takes these bytes for a name.
fn is_template_name(alloc: Global, name: &[u8]) -> Result<bool, AllocError>
    ensures { IfOk result (λ is. MatchBool is (IsTemplateName name.now) (IsTemplateName name.now → ⊥)) }
{
    match words(alloc, name) {
        Ok(all) => Ok(is_one_word(&all, name)),
        Err(LexError::Memory) => Err(AllocError),
        Err(LexError::Fault(_)) => Ok(false),
    }
}

// Whether the only token is a name of these bytes.
fn is_one_token(tokens: &[Token], name: &[u8]) -> bool
    ensures { result ≡ is_one_token name.now tokens.now }
{
    match tokens {
        [only] => match &only.kind {
            TokenKind::Name(found) => found.as_slice() == name,
            _ => false,
        },
        _ => false,
    }
}

// Whether an outline takes these bytes for a name.
fn is_outline_name(alloc: Global, name: &[u8]) -> Result<bool, AllocError>
    ensures { IfOk result (λ is. MatchBool is (IsOutlineName name.now) (IsOutlineName name.now → ⊥)) }
{
    match lex(alloc, name) {
        Ok(tokens) => Ok(is_one_token(&tokens, name)),
        Err(LexError::Memory) => Err(AllocError),
        Err(LexError::Fault(_)) => Ok(false),
    }
}

// Whether a template, or an outline, takes these bytes for a name.
fn is_name(alloc: Global, in_template: bool, name: &[u8]) -> Result<bool, AllocError>
    ensures { IfOk result (λ is. MatchBool is (IsName in_template name.now) (IsName in_template name.now → ⊥)) }
{
    if in_template {
        is_template_name(alloc, name)
    } else {
        is_outline_name(alloc, name)
    }
}

// Why a name cannot be given, where it is taken so often.
fn fault_of(in_template: bool, taken: usize, name: &[u8]) -> Option<NameFault>
    ensures { result ≡ fault_of in_template taken name.now }
{
    if taken > 0 {
        Some(NameFault::Taken)
    } else if in_template && is_reserved(name) {
        Some(NameFault::Reserved)
    } else {
        None
    }
}

/// Why the names of a text with these words cannot get another name; nothing where one can.
///
/// # Errors
///
/// An allocation was refused.
pub fn name_fault(
    alloc: Global,
    text: &[u8],
    all: &[Word],
    name: &[u8],
) -> Result<Option<NameFault>, AllocError>
    ensures { IfOk result (IsNameFault (is_template text.now) all.now name.now) }
{
    let in_template = is_template(text);
    if is_name(alloc, in_template, name)? {
        let taken = spans_of(alloc, all, name)?;
        Ok(fault_of(in_template, taken.len(), name))
    } else {
        Ok(Some(NameFault::NoName))
    }
}

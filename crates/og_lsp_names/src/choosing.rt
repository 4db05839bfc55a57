//! What may be written at a place.

ghost use Rattle.std.specs.Prelude.{◌≡◌, ◌++◌, IfOk, OnOk, All, option_map};
ghost use Rattle.og_parse.specs.Expected.{HoldsBytes};
ghost use Rattle.og_lsp_names.specs.Choices.{front, has_name, keywords_of, keywords_in, labels, AreKeywords, AreOutlineChoices, AreChoicesBehind, AreChoices};

use crate::declaring::{Symbol, SymbolKind, symbols};
use crate::front::{front, in_comment};
use crate::keyword::{keyword_of, template_keyword};
use crate::names::words_or_none;
use crate::using::{Reading, bytes_at};
use og_parse::expected;
use og_report_refusal::expected_words;
use og_template::{Word, WordKind, is_template};
use og_text::{LexError, Token, TokenKind, lex};
use std::alloc::{AllocError, Global};

/// What a word is that may be written.
#[derive(Clone, Copy, Drop, PartialEq, Eq)]
pub enum ChoiceKind {
    Keyword,
    /// A name that is declared so.
    Name(SymbolKind),
}

/// A word that may be written.
#[derive(Drop)]
pub struct Choice {
    pub kind: ChoiceKind,
    /// Its bytes.
    pub label: Vec<u8>,
}

// Adds a keyword, where there is one.
#[tactic(auto, using(crate::proofs::Pushed::keyword_pushed))]
fn add_keyword(choices: &mut Vec<Choice>, keyword: Option<&str>) -> Result<(), AllocError>
    ensures labels { OnOk result (keywords_in choices.new.items
        ≡ keywords_in choices.old.items ++ labels (option_map (λ k. k.now) keyword.entry)) }
    ensures alone { OnOk result (AreKeywords choices.old.items → AreKeywords choices.new.items) }
{
    let Some(keyword) = keyword else {
        return Ok(());
    };
    let label = Vec::from_slice(*choices.allocator(), keyword.as_bytes())?;
    choices.push(Choice {
        kind: ChoiceKind::Keyword,
        label,
    })?;
    Ok(())
}

// The keywords among the kinds.
fn keywords_of(alloc: Global, kinds: &[TokenKind]) -> Result<Vec<Choice>, AllocError>
    ensures labels { IfOk result (λ cs. keywords_in cs.items ≡ keywords_of kinds.now) }
    ensures alone { IfOk result (λ cs. AreKeywords cs.items) }
{
    let mut choices = Vec::new(alloc);
    for kind in kinds {
        add_keyword(&mut choices, keyword_of(kind))?;
    }
    Ok(choices)
}

// The same of a template.
fn template_keywords(alloc: Global, kinds: &[WordKind]) -> Result<Vec<Choice>, AllocError> {
    let mut choices = Vec::new(alloc);
    for kind in kinds {
        add_keyword(&mut choices, template_keyword(kind))?;
    }
    Ok(choices)
}

// What is read of words.
fn reading_of(words: &[Word]) -> Reading {
    let mut reading = Reading::new();
    for word in words {
        reading.take(word);
    }
    reading
}

// Adds the names that may be used behind these words.
#[tactic(auto, using(crate::proofs::Pushed::name_pushed))]
fn add_names(
    choices: &mut Vec<Choice>,
    text: &[u8],
    before: &[Word],
    symbols: &[Symbol],
) -> Result<(), AllocError>
    ensures { OnOk result (keywords_in choices.new.items ≡ keywords_in choices.old.items) }
{
    let used = reading_of(before).used();
    let to_auxiliary = used.is_to_auxiliary(text, symbols);
    for symbol in symbols {
        if used.takes(symbol.kind, to_auxiliary) {
            let label = Vec::from_slice(*choices.allocator(), bytes_at(text, symbol.name))?;
            choices.push(Choice {
                kind: ChoiceKind::Name(symbol.kind),
                label,
            })?;
        }
    }
    Ok(())
}

// Adds the names that texts with this front declare and that may be used behind it.
fn add_declared(choices: &mut Vec<Choice>, front: &[u8]) -> Result<(), AllocError>
    ensures { OnOk result (keywords_in choices.new.items ≡ keywords_in choices.old.items) }
{
    let alloc = *choices.allocator();
    let words = words_or_none(alloc, front)?;
    let symbols = symbols(alloc, &words)?;
    add_names(choices, front, &words, &symbols)
}

// Whether a name is among the kinds.
fn has_name(kinds: &[TokenKind]) -> bool
    ensures { result ≡ has_name kinds.now }
{
    kinds.iter().any(|kind| matches!(kind, TokenKind::Name(_)))
}

// What may be written behind the tokens of a front.
fn choices_behind(
    alloc: Global,
    front: &[u8],
    tokens: Vec<Token>,
) -> Result<Vec<Choice>, AllocError>
    requires { All HoldsBytes tokens.items }
    ensures { IfOk result (λ cs. AreOutlineChoices tokens.items cs.items) }
{
    let kinds = expected(alloc, tokens)?;
    let mut choices = keywords_of(alloc, &kinds)?;
    if has_name(&kinds) {
        add_declared(&mut choices, front)?;
    }
    Ok(choices)
}

// What may be written behind the front of an outline.
fn outline_choices(alloc: Global, front: &[u8]) -> Result<Vec<Choice>, AllocError>
    ensures { IfOk result (λ cs. AreChoicesBehind front.now cs.items) }
{
    match lex(alloc, front) {
        Ok(tokens) => choices_behind(alloc, front, tokens),
        Err(LexError::Memory) => Err(AllocError),
        Err(LexError::Fault(_)) => Ok(Vec::new(alloc)),
    }
}

// Whether a name is among the kinds of words.
fn has_name_word(kinds: &[WordKind]) -> bool {
    kinds.iter().any(|kind| matches!(kind, WordKind::Lexeme(TokenKind::Name(_))))
}

// What may be written behind the front of a template.
fn template_choices(alloc: Global, front: &[u8]) -> Result<Vec<Choice>, AllocError> {
    let mut words = words_or_none(alloc, front)?;
    let kinds = expected_words(alloc, &mut words)?;
    let mut choices = template_keywords(alloc, &kinds)?;
    if has_name_word(&kinds) {
        let symbols = symbols(alloc, &words)?;
        add_names(&mut choices, front, &words, &symbols)?;
    }
    Ok(choices)
}

/// What may be written at a byte offset of a text in the place of the word that ends there: the
/// keywords with which an outline or a template goes on behind what stands in front, and, where a
/// name may stand, the names declared there that may be used. Nothing in a comment, and behind what
/// no outline goes on with. Where the text has the form of an outline the keywords are exactly these.
///
/// # Errors
///
/// An allocation was refused.
pub fn choices_at(alloc: Global, text: &[u8], at: u32) -> Result<Vec<Choice>, AllocError>
    ensures { IfOk result (λ cs. AreChoices (front text.now at) cs.items) }
{
    let front = front(text, at);
    if in_comment(front) {
        return Ok(Vec::new(alloc));
    }
    if is_template(front) {
        template_choices(alloc, front)
    } else {
        outline_choices(alloc, front)
    }
}

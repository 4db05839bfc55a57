//! Symbols, as they are written in messages.

ghost use Rattle.std.specs.Prelude.{◌≡◌, ◌++◌, OnOk, IfOk, map};
ghost use Rattle.og_report_refusal.specs.Words.{word_of, with_end, words_of, others_text, listed};

use og_template::{Special, WordKind};
use og_text::TokenKind;
use std::alloc::{AllocError, Global};

// A keyword or a symbol in quotes; a name and a number stand for all of them.
fn word_of(kind: &TokenKind) -> &'static str
    ensures { result.now ≡ word_of kind.now }
{
    match kind {
        TokenKind::Name(_) => "a name",
        TokenKind::Number(_) => "a number",
        TokenKind::Var => "'var'",
        TokenKind::Aux => "'aux'",
        TokenKind::Cobegin => "'cobegin'",
        TokenKind::Coend => "'coend'",
        TokenKind::Await => "'await'",
        TokenKind::Then => "'then'",
        TokenKind::Begin => "'begin'",
        TokenKind::End => "'end'",
        TokenKind::If => "'if'",
        TokenKind::Else => "'else'",
        TokenKind::While => "'while'",
        TokenKind::Do => "'do'",
        TokenKind::Skip => "'skip'",
        TokenKind::True => "'true'",
        TokenKind::False => "'false'",
        TokenKind::Not => "'not'",
        TokenKind::And => "'and'",
        TokenKind::Or => "'or'",
        TokenKind::Assign => "':='",
        TokenKind::Parallel => "'//'",
        TokenKind::LessEqual => "'<='",
        TokenKind::GreaterEqual => "'>='",
        TokenKind::NotEqual => "'<>'",
        TokenKind::Less => "'<'",
        TokenKind::Greater => "'>'",
        TokenKind::Equal => "'='",
        TokenKind::Plus => "'+'",
        TokenKind::Minus => "'-'",
        TokenKind::Arrow => "'->'",
        TokenKind::Star => "'*'",
        TokenKind::OpenParen => "'('",
        TokenKind::CloseParen => "')'",
        TokenKind::OpenBrace => "'{'",
        TokenKind::CloseBrace => "'}'",
        TokenKind::Semicolon => "';'",
        TokenKind::Comma => "','",
    }
}

// Adds the end, where it may stand there.
fn put_end(words: &mut Vec<&'static str>, may_end: bool) -> Result<(), AllocError>
    ensures { OnOk result (map (λ w. w.now) words.new.items
        ≡ with_end (map (λ w. w.now) words.old.items) may_end) }
{
    if !may_end {
        return Ok(());
    }
    words.push("the end of the file")?;
    Ok(())
}

/// The words for what may stand somewhere: the symbols, and the end where it may.
pub(crate) fn words_of(
    alloc: Global,
    symbols: &[TokenKind],
    may_end: bool,
) -> Result<Vec<&'static str>, AllocError>
    ensures { IfOk result (λ words. map (λ w. w.now) words.items ≡ words_of symbols.now may_end) }
{
    let mut words = Vec::new(alloc);
    for kind in symbols {
        words.push(word_of(kind))?;
    }
    put_end(&mut words, may_end)?;
    Ok(words)
}

// A keyword or a mark of templates in quotes.
fn special_word(special: Special) -> &'static str {
    match special {
        Special::Template => "'template'",
        Special::Const => "'const'",
        Special::Let => "'let'",
        Special::Process => "'process'",
        Special::For => "'for'",
        Special::In => "'in'",
        Special::Where => "'where'",
        Special::All => "'all'",
        Special::Any => "'some'",
        Special::Sum => "'sum'",
        Special::Mod => "'mod'",
        Special::Dots => "'..'",
        Special::OpenBracket => "'['",
        Special::CloseBracket => "']'",
        Special::Colon => "':'",
    }
}

/// The words for what may stand somewhere in a template: the symbols, and the end where it may.
pub(crate) fn all_words_of(
    alloc: Global,
    symbols: &[WordKind],
    may_end: bool,
) -> Result<Vec<&'static str>, AllocError> {
    let mut words = Vec::new(alloc);
    for symbol in symbols {
        words.push(match symbol {
            WordKind::Lexeme(kind) => word_of(kind),
            WordKind::Special(special) => special_word(*special),
        })?;
    }
    put_end(&mut words, may_end)?;
    Ok(words)
}

// The words after a first one.
fn put_others(text: &mut Vec<u8>, words: &[&str]) -> Result<(), AllocError>
    ensures { OnOk result (text.new.items ≡ text.old.items
        ++ others_text (map (λ w. w.now) words.now)) }
{
    let [word, others @ ..] = words else {
        return Ok(());
    };
    let between = if others.is_empty() { " or " } else { ", " };
    text.extend_from_slice(between.as_bytes())?;
    text.extend_from_slice(word.as_bytes())?;
    put_others(text, others)
}

/// Adds the words with commas, and `or` before the last, to the text.
///
/// # Errors
///
/// An allocation was refused; the text has what it had, and perhaps a part of this.
pub(crate) fn put_listed(text: &mut Vec<u8>, words: &[&str]) -> Result<(), AllocError>
    ensures { OnOk result (text.new.items ≡ text.old.items ++ listed (map (λ w. w.now) words.now)) }
{
    let [word, others @ ..] = words else {
        return text.extend_from_slice(b"nothing");
    };
    text.extend_from_slice(word.as_bytes())?;
    put_others(text, others)
}

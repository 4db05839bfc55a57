//! The words of a text.

ghost use Rattle.std.specs.Prelude.{◌≡◌, map, IfOk, IfErr};
ghost use Rattle.og_layout.specs.Pieces.{lexeme, AreWords};
ghost use Rattle.og_layout.specs.Faults.{IsErrorOfWords};

use og_template::{Word, WordKind, is_template, words};
use og_text::{LexError, Token, lex};
use std::alloc::{AllocError, Global};

// The tokens as words.
fn lexemes(alloc: Global, tokens: Vec<Token>) -> Result<Vec<Word>, AllocError>
    ensures { IfOk result (λ words. words.items ≡ map lexeme tokens.items) }
{
    let mut words = Vec::new(alloc);
    for token in tokens {
        let Token { kind, span } = token;
        words.push(Word {
            kind: WordKind::Lexeme(kind),
            span,
        })?;
    }
    Ok(words)
}

/// The words of a template, or of an outline.
///
/// # Errors
///
/// The first fault of the text's words; `Memory` where an allocation was refused.
pub fn words_of(alloc: Global, text: &[u8]) -> Result<Vec<Word>, LexError>
    ensures words { IfOk result (λ words. AreWords text.now words.items) }
    ensures error { IfErr result (IsErrorOfWords text.now) }
{
    if is_template(text) {
        return words(alloc, text);
    }
    let tokens = lex(alloc, text)?;
    Ok(lexemes(alloc, tokens)?)
}

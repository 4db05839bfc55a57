//! Cutting a template into its words.

ghost use Rattle.std.specs.Prelude.{◌≡◌, ◌++◌, map, IfOk, IfErr, OnOk};
ghost use Rattle.og_template.specs.Words.{word_of_mark, before, behind, merged, AreWordsOf, IsErrorOf};

use crate::mask::{Mark, Masked};
use crate::word::Word;
use og_text::{LexError, LexFault, SOURCE_LIMIT, Token, lex};
use std::alloc::{AllocError, Global};

// Adds the marks that stand before an offset; returns the others.
fn put_before<'a>(
    words: &mut Vec<Word>,
    marks: &'a [Mark],
    at: u32,
) -> Result<&'a [Mark], AllocError>
    ensures words { OnOk result (words.new.items ≡ words.old.items
        ++ map word_of_mark (before at marks.now)) }
    ensures rest { IfOk result (λ rest. rest.now ≡ behind at marks.now) }
{
    let mut rest = marks;
    'marks: while let [mark, after @ ..] = rest {
        if at <= mark.span.start {
            return Ok(rest);
        }
        words.push(Word::of_mark(*mark))?;
        rest = after;
    }
    Ok(rest)
}

fn put_marks(words: &mut Vec<Word>, marks: &[Mark]) -> Result<(), AllocError>
    ensures { OnOk result (words.new.items ≡ words.old.items ++ map word_of_mark marks.now) }
{
    for mark in marks {
        words.push(Word::of_mark(*mark))?;
    }
    Ok(())
}

// The words of the tokens with the marks among them, both in the order of their places.
fn merged(alloc: Global, tokens: Vec<Token>, marks: &[Mark]) -> Result<Vec<Word>, AllocError>
    ensures { IfOk result (λ words. words.items ≡ merged tokens.items marks.now) }
{
    let mut words = Vec::new(alloc);
    let mut rest = marks;
    for token in tokens {
        rest = put_before(&mut words, rest, token.span.start)?;
        words.push(Word::of_token(token))?;
    }
    put_marks(&mut words, rest)?;
    Ok(words)
}

/// The words of a template, in order. Outside of comments `[`, `]`, a `:` that no `=` follows, and
/// each `..` from the left are marks; the rest is cut as an outline is, and a name that is spelt
/// like a keyword of templates is that keyword.
///
/// # Errors
///
/// The fault of the text without its marks, as `og_text` has it: `SourceTooLong` where it has more
/// than 1,048,576 bytes, `BadByte`, `NumberTooLarge` or `NameTooLong`. `Memory` may stand in the
/// place of any other answer where an allocation was refused.
#[tactic(auto, using(crate::proofs::Errors::error_of_masked))]
pub fn words(alloc: Global, text: &[u8]) -> Result<Vec<Word>, LexError>
    ensures words { IfOk result (λ words. AreWordsOf text.now words.items) }
    ensures error { IfErr result (IsErrorOf text.now) }
{
    if text.len() > SOURCE_LIMIT {
        return Err(LexError::Fault(LexFault::SourceTooLong));
    }
    let Masked { text, marks } = Masked::of(alloc, text)?;
    let tokens = lex(alloc, &text)?;
    Ok(merged(alloc, tokens, &marks)?)
}

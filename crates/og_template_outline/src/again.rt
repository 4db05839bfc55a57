//! Reading the printed text again.

ghost use Rattle.std.specs.Prelude.{◌≡◌, ◌≤◌, IfOk};
ghost use Rattle.og_text.specs.Cut.{AreTokensOf};
ghost use Rattle.og_parse.specs.TreeOf.{tree_of};
ghost use Rattle.og_print.specs.Print.{outline_text};
ghost use Rattle.og_typed.specs.Resolved.{resolved};
ghost use Rattle.og_typed.specs.Source.{IsSource};
ghost use Rattle.og_template_outline.specs.Expanded.{IsOutlineText, IsAgain};

use crate::fault::Unread;
use crate::places::{Part, parts};
use og_parse::{ParseError, Raw, parse};
use og_print::same_tree;
use og_text::{LexError, LexFault, Token, lex};
use og_typed::{Outline, TypeError, resolve};
use std::alloc::Global;

fn tokens_of(alloc: Global, text: &[u8]) -> Result<Vec<Token>, Unread>
    ensures { IfOk result (λ tokens. AreTokensOf text.now tokens.items) }
{
    match lex(alloc, text) {
        Ok(tokens) => Ok(tokens),
        Err(LexError::Memory) => Err(Unread::Memory),
        Err(LexError::Fault(LexFault::SourceTooLong)) => Err(Unread::TooLong),
        Err(LexError::Fault(_)) => Err(Unread::Other),
    }
}

// The tree of the tokens, if it is this one apart from the places.
fn tree_again(alloc: Global, tokens: &[Token], raw: &Raw) -> Result<Raw, Unread>
    ensures { IfOk result (λ again. IsAgain (tree_of raw.now) tokens.now (tree_of again)) }
{
    match parse(alloc, tokens) {
        Ok(again) => {
            if same_tree(raw, &again) {
                Ok(again)
            } else {
                Err(Unread::Other)
            }
        }
        Err(ParseError::Memory) => Err(Unread::Memory),
        Err(ParseError::Fault(_)) => Err(Unread::Other),
    }
}

fn outline_of(alloc: Global, raw: Raw) -> Result<Outline, Unread>
    ensures { IfOk result (λ o. resolved (tree_of raw) ≡ Ok o) }
{
    match resolve(alloc, raw) {
        Ok(outline) => Ok(outline),
        Err(TypeError::Memory) => Err(Unread::Memory),
        Err(TypeError::Fault(_)) => Err(Unread::Other),
    }
}

/// What a text was read as.
#[derive(Drop)]
pub(crate) struct Again {
    /// The notes and statements.
    pub(crate) parts: Vec<Part>,
    pub(crate) outline: Outline,
}

/// Asks that the text of a tree is that of an outline, and its tree is this one apart from the
/// places.
pub(crate) fn read_again(alloc: Global, text: &[u8], raw: &Raw) -> Result<Again, Unread>
    requires { text.now ≡ outline_text (tree_of raw.now) }
    ensures text { IfOk result (λ _. IsOutlineText text.now) }
    ensures outline { IfOk result (λ again. IsSource text.now again.outline) }
{
    let tokens = tokens_of(alloc, text)?;
    let again = tree_again(alloc, &tokens, raw)?;
    let parts = parts(alloc, &again)?;
    let outline = outline_of(alloc, again)?;
    Ok(Again { parts, outline })
}

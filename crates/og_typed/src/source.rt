//! Sources with their outlines.

ghost use Rattle.std.specs.Prelude.{◌≡◌, ◌≤◌, ◌^◌, length, IfOk, IfErr};
ghost use Rattle.og_typed.specs.Source.{IsSource};
ghost use Rattle.og_typed.specs.Refused.{IsNotRead};

use crate::source_fault::SourceError;
use crate::{Outline, resolve};
use og_parse::parse;
use og_text::lex;
use std::alloc::Global;
use std::marker::Model;

/// A source that has an outline: its bytes, and the outline that they stand for. All readers take
/// no memory.
#[derive(Debug, Drop)]
pub struct Source<'a> {
    bytes: &'a [u8],
    outline: Outline,
}

impl<'a> Model for Source<'a> {
    ghost use Rattle.og_typed.specs.Source.{IsSource};
    ghost use Rattle.og_typed.specs.Shown.{ReadSource, source_code};

    ghost Value = { ReadSource };

    ghost coded = { source_code };

    ghost view = { λ s. record { bytes = s.bytes.now; outline = s.outline } };

    ghost invariant = { λ s. IsSource s.bytes.now s.outline };
}

// The outline of a source.
fn read_outline(alloc: Global, bytes: &[u8]) -> Result<Outline, SourceError>
    ensures outline { IfOk result (IsSource bytes.now) }
    ensures fault { IfErr result (IsNotRead bytes.now) }
{
    let tokens = lex(alloc, bytes)?;
    let raw = parse(alloc, tokens.as_slice())?;
    Ok(resolve(alloc, raw)?)
}

impl<'a> Source<'a> {
    /// The source of these bytes.
    ///
    /// # Errors
    ///
    /// `Fault`, the first fault of them that applies. `Memory` where an allocation was
    /// refused.
    pub fn read(alloc: Global, bytes: &'a [u8]) -> Result<Source<'a>, SourceError>
        ensures same { IfOk result (λ s. s.bytes ≡ bytes.now) }
        ensures outline { IfOk result (λ s. IsSource bytes.now s.outline) }
        ensures fault { IfErr result (IsNotRead bytes.now) }
    {
        let outline = read_outline(alloc, bytes)?;
        Ok(Source { bytes, outline })
    }

    /// Its bytes, at most 1,048,576.
    pub fn bytes(&self) -> &'a [u8]
        ensures same { result.now ≡ self.now.bytes }
        ensures short { length result.now ≤ 2 ^ 20 }
        ensures source { IsSource result.now self.now.outline }
    {
        self.bytes
    }

    /// Its outline.
    pub fn outline(&self) -> &Outline
        ensures same { result.now ≡ self.now.outline }
        ensures source { IsSource self.now.bytes result.now }
    {
        &self.outline
    }

    /// Takes the outline out.
    pub fn into_outline(self) -> Outline
        ensures same { result ≡ self.entry.outline }
        ensures source { IsSource self.entry.bytes result }
    {
        let Source { bytes: _, outline } = self;
        outline
    }
}

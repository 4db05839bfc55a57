//! Outlines of source texts.

use og_typed::{Outline, Source, SourceError};
use std::alloc::Global;

/// The outline of a source.
///
/// # Errors
///
/// As `og_typed::Source::read`.
pub fn outline_of(alloc: Global, source: &str) -> Result<Outline, SourceError> {
    Ok(Source::read(alloc, source.as_bytes())?.into_outline())
}

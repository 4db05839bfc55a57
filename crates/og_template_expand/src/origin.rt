//! Where the parts of an outline come from.

use og_text::Span;

/// A name and the number that it stands for.
#[derive(Clone, Copy, Drop, PartialEq, Eq)]
pub struct Binding<'a> {
    pub name: &'a [u8],
    pub value: i64,
}

/// Where a note or a statement of an outline comes from: its place in the template, and the bound
/// names round it with their values, from the outside.
#[derive(Drop)]
pub struct Origin<'a> {
    pub span: Span,
    pub instance: Vec<Binding<'a>>,
}

//! How conditions are listed.

/// How conditions are listed.
#[derive(Clone, Copy, PartialEq, Eq)]
pub enum Form {
    /// Each with its facts.
    Facts,
    /// As triples: an assertion, a statement, an assertion.
    Triples,
    /// As a script in SMT-LIB.
    Script,
}

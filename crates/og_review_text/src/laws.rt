//! How the definitions of a step's accesses read.

ghost use Rattle.og_review_text.specs.Law.{BothAreThese, ReadsAreThese, WritesAreThese};

/// The variables that a step is said to read and write are those that it reads and assigns and that
/// some step of another process assigns; those that it is said to read alone are those that it reads
/// and does not assign, and that some step of another process assigns. One that it is said to write
/// alone it assigns, some step of another process uses it, and if the step reads it too, none assigns
/// it.
///
/// The function does nothing: its clauses are laws about the definitions that other contracts cite.
pub fn access_laws()
    ensures both { BothAreThese }
    ensures reads { ReadsAreThese }
    ensures writes { WritesAreThese }
{}

//! What certificates mean.

ghost use Rattle.og_cert.specs.Law.{LinesAreWritten, ClosesWithoutFault, ClosedIsFalse, ClosedIsValid};

/// A certificate closes facts exactly where it has no fault. Facts that it closes are not all true
/// in a state of `i64` values, and a condition with these facts is true in every such state. The
/// lines that are counted are those of the certificate's text.
///
/// The function does nothing: its clauses are laws about the definitions that other contracts cite.
pub fn replay_laws()
    ensures lines { LinesAreWritten }
    ensures faults { ClosesWithoutFault }
    ensures refuted { ClosedIsFalse }
    ensures valid { ClosedIsValid }
{}

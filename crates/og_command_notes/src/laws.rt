//! What stands in the notes.

ghost use Rattle.og_command_notes.specs.Law.{ClaimsAreListed, StepsAreListed};

/// The line of each step for which something is reported stands in the notes, and so does that of
/// each claim that was found to be of no state.
///
/// The function does nothing: its clauses are laws about the definitions that other contracts cite.
pub fn notes_laws()
    ensures steps { StepsAreListed }
    ensures claims { ClaimsAreListed }
{}

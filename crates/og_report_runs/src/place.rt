//! Where processes stand when a step breaks a condition.

use og_typed::{NoteSite, StatementSite};

/// Where processes stand at a moment at which a condition matters.
#[derive(Clone, Copy)]
pub enum Place<'a> {
    /// A process stands before this statement.
    Before(StatementSite<'a>),
    /// A process stands before this statement, and another one at this assertion.
    Between(StatementSite<'a>, NoteSite<'a>),
    /// A process stands at this assertion.
    At(NoteSite<'a>),
    /// A process makes the step of this statement, which ends the branch or body that ends in this
    /// assertion, and is no `if`.
    Exit(NoteSite<'a>, StatementSite<'a>),
    /// The process makes a step in which the branch or body lies that ends in this assertion.
    Left(NoteSite<'a>),
    /// Nobody has anything left to do.
    Ended,
    /// The program is stuck.
    Stuck,
}

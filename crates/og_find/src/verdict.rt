//! The verdict on a condition.

use og_cert::Cert;
use og_linear::State;

/// The verdict of a search on the condition.
#[derive(Drop)]
pub enum Verdict {
    /// The condition is true: the certificate closes its facts.
    True(Cert),
    /// The condition is false in this state.
    False(State),
    /// The search ended with neither.
    Open,
}

/// The verdict on a condition after the certificate of another one, its leader.
#[derive(Drop)]
pub enum Followed {
    /// It is true: the leader's certificate closes its facts too.
    Shares,
    /// This, by itself.
    Own(Verdict),
}

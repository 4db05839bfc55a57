//! The finding on a condition.

use og_cert::ReplayFault;

/// The status of a condition. Condition and certificate determine it.
#[derive(Clone, Copy, PartialEq, Eq)]
pub enum Status {
    /// It has no certificate.
    Missing,
    /// Its facts are too many, or their numbers too large.
    TooLarge,
    /// Its certificate does not close its facts.
    Failed(ReplayFault),
    /// Its certificate closes its facts, and so it is true.
    Proved,
}

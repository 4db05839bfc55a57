//! The replay of certificates: whether one refutes the facts of a condition, and so shows that the
//! condition is true.
#![tactic(auto)]

mod checks;
mod fault;
mod held;
mod laws;
mod opposite;
mod replaying;
mod sum;

pub use fault::{FaultKind, ReplayError, ReplayFault};
pub use laws::replay_laws;
pub use og_cert_text::{Cert, CertStep, Finish, Source, Term};
pub use replaying::replay;

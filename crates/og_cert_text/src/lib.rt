//! Certificates, files of certificates, and their text.
//!
//! A certificate refutes a list of facts: [`Cert`] is its tree. [`CertFile`] maps the numbers of
//! conditions to certificates, and [`write_certs`] gives its text. Contracts speak of plain trees
//! (specs/Tree.antt, by specs/Plain.antt) and of lists of entries; specs/Lines.antt and
//! specs/Text.antt define lines, their limits, and texts, apart from the code.
#![tactic(auto)]

mod cert;
mod fault;
mod file;
mod limits;
mod write;

pub use cert::{Cert, CertStep, Finish, Source, Term};
pub use fault::{CertFileError, CertFileFault, CertTextError, CertTextFault};
pub use file::CertFile;
pub use write::{put_cert, write_certs};

//! Reading a text of certificates.
//!
//! specs/Reading.antt defines what the lines of a text give, by the certificates that are open, and
//! specs/Read.antt what a text gives. specs/Words.antt serves private functions alone.
#![tactic(auto)]

mod laws;
mod levels;
mod limits;
mod line;
mod read;
mod reader;
mod wide;
mod words;
mod write;

pub use laws::reading_laws;
pub use read::read_certs;
pub use write::write_certs_2;

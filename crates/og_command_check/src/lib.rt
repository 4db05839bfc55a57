//! From the bytes that are read to the bytes that are written.
#![tactic(auto)]

mod answer;
mod commands;
mod engines;
mod fault;
mod inputs;
mod making;
mod writing;

pub use answer::{CheckReply, checked};
pub use commands::erased;
pub use engines::{Options, engine, engine_joined};
pub use fault::EngineFault;
pub use inputs::{CERTS_LIMIT, read_certificates, read_joined, read_source};
pub use making::{
    CertificateText, FindReply, FoundCertificates, LongText, Wanted, found, migrated,
};
pub use og_report_text::Answer;
pub use writing::write_answer;

//! Certificates from version 1 of their text to version 2.

ghost use Rattle.std.specs.Prelude.{IfOk, IfErr};
ghost use Rattle.og_judge.specs.Migrated.{IsMigration, HasSameAnswers, IsUnreadable};

use og_cert_read::{read_certs, reading_laws, write_certs_2};
use og_cert_text::CertTextError;
use std::alloc::Global;

/// The file of a text of certificates, as a text in version 2, which is not longer than the given
/// one. Each source has the same judgements, and the same refusals, by both texts.
///
/// # Errors
///
/// `Fault` where the text is refused, as in `read_certs`. `Memory` where an allocation was refused.
pub fn migrate(alloc: Global, certs: &[u8]) -> Result<Vec<u8>, CertTextError>
    ensures text { IfOk result (λ text. IsMigration certs.now text.items) }
    ensures same { IfOk result (λ text. HasSameAnswers certs.now text.items) }
    ensures refused { IfErr result (IsUnreadable certs.now) }
{
    reading_laws();
    let file = read_certs(alloc, certs)?;
    file.follows_limits();
    Ok(write_certs_2(alloc, &file)?)
}

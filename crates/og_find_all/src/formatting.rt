//! The lines of certificates.

use og_cert_text::put_cert;
use og_find::Verdict;
use og_pool::Numbered;
use std::alloc::{AllocError, Global};

/// The lines of the certificate of each of the first verdicts, this many. A verdict without one has
/// none.
#[derive(Clone, Copy)]
pub(crate) struct Formatting<'a> {
    pub(crate) verdicts: &'a [Verdict],
    pub(crate) count: u32,
}

impl<'a> Numbered for Formatting<'a> {
    ghost use Rattle.std.specs.Prelude.{◌≡◌, ◌-◌, slice_get, ⊤};
    ghost use Rattle.og_find_all.specs.Texts.{certificate_in, lines_of};

    type Answer = Vec<u8>;

    type Kept = ();

    ghost count = { λ f. f.count };

    ghost may_answer = { λ f n lines. lines.items ≡ lines_of (certificate_in (slice_get f.verdicts.now (n - 1))) };

    ghost keeps = { λ _ _. ⊤ };

    fn kept(&self) {}

    fn answer(&self, alloc: Global, number: u32, _kept: &mut ()) -> Result<Vec<u8>, AllocError> {
        let mut lines = Vec::new(alloc);
        if let Some(Verdict::True(cert)) = self.verdicts.get(number as usize - 1) {
            put_cert(&mut lines, cert)?;
        }
        Ok(lines)
    }
}

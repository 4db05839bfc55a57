//! The findings on all conditions.

ghost use Rattle.std.specs.Prelude.{◌≡◌, length, option_map, IfOk};
ghost use Rattle.og_cert_text.specs.Shown.{shown};
ghost use Rattle.og_find_all.specs.Filing.{AreFiled};
ghost use Rattle.og_find_all.specs.Findings.{verdict_of};

use crate::filing::{Filing, file_own};
use og_cert_text::CertFile;
use og_find::Verdict;
use std::alloc::{AllocError, Global};

/// A verdict on each condition of a list. Conditions with equal facts share one.
#[derive(Drop)]
pub struct Findings {
    // The place of each condition's verdict.
    pub(crate) places: Vec<usize>,
    // The first condition that has each place.
    pub(crate) firsts: Vec<usize>,
    // The verdict at each place.
    pub(crate) verdicts: Vec<Verdict>,
    // The verdicts of conditions for which the one at their place does not hold.
    pub(crate) own: Vec<Option<Box<Verdict>>>,
}

impl Findings {
    /// The verdict on the condition at this index, counted from 0; None where there is no such
    /// condition. Takes no memory.
    pub fn verdict(&self, index: usize) -> Option<&Verdict>
        ensures { option_map (λ v. v.now) result ≡ verdict_of self.now index }
    {
        match self.own.get(index)? {
            Some(own) => Some(own),
            None => {
                let place = self.places.get(index)?;
                self.verdicts.get(*place)
            }
        }
    }

    /// The certificates of the conditions that are true, each under the number of its condition,
    /// counted from 1. There may be at most 999999999 certificates in a file, so none is given for
    /// a condition with a greater number.
    ///
    /// # Errors
    ///
    /// `AllocError` where an allocation was refused.
    pub fn certificates(self, alloc: Global) -> Result<CertFile, AllocError>
        ensures { IfOk result (λ file.
            AreFiled self.own.items self.places.items self.verdicts.items (shown file)) }
    {
        let Findings {
            places,
            firsts,
            verdicts,
            own,
        } = self;
        let mut file = CertFile::new(alloc);
        let filing = Filing {
            own: &own,
            places: &places,
            firsts: &firsts,
        };
        filing.file_verdicts(&mut file, verdicts)?;
        filing.file_all_shared(&mut file)?;
        file_own(&mut file, own)?;
        Ok(file)
    }
}

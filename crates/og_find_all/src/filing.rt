//! The certificates of verdicts, in a file.

ghost use Rattle.std.specs.Prelude.{◌≡◌, ◌<◌, ◌+◌, ◌-◌, ℕ, List, Option, Some, OnOk, IfSome, IsTrue, slice_get};
ghost use Rattle.std.specs.Global.{Box};
ghost use Rattle.og_cert_text.specs.Plain.{plain_cert};
ghost use Rattle.og_cert_text.specs.Shown.{shown};
ghost use Rattle.og_find.specs.declared.verdict.Verdict.{Verdict};
ghost use Rattle.og_find_all.specs.Filing.{AreFiled, IsAtPlace, IsPut, IsShared};

use og_cert_text::{CertFile, CertFileError};
use og_find::{Cert, Verdict};
use std::alloc::{AllocError, Global};

// Adds the certificate of condition n, where the file takes it.
fn put(file: &mut CertFile, n: u32, cert: Cert) -> Result<(), AllocError>
    ensures { OnOk result (IsPut n (plain_cert cert) (shown file.old) (shown file.new)) }
{
    match file.add(n, cert) {
        Err(CertFileError::Memory) => Err(AllocError),
        _ => Ok(()),
    }
}

// Adds the certificate of condition k as that of condition n, where k has one.
fn share(file: &mut CertFile, n: u32, k: u32) -> Result<(), AllocError>
    ensures { OnOk result (IsShared n k (shown file.old) (shown file.new)) }
{
    match file.add_same(n, k) {
        Err(CertFileError::Memory) => Err(AllocError),
        _ => Ok(()),
    }
}

// The number of the condition at the index.
fn number_of(index: usize) -> Option<u32>
    ensures { IfSome result (λ n. n ≡ index + 1) }
{
    u32::try_from(index).ok()?.checked_add(1)
}

/// How the verdicts go with the conditions.
#[derive(Clone, Copy)]
pub(crate) struct Filing<'a> {
    pub(crate) own: &'a [Option<Box<Verdict>>],
    pub(crate) places: &'a [usize],
    pub(crate) firsts: &'a [usize],
}

impl<'a> Filing<'a> {
    // Whether the condition at the index has the verdict at the place.
    fn is_at(&self, index: usize, place: usize) -> bool
        ensures { IsTrue result → IsAtPlace self.now.own.now self.now.places.now index place }
    {
        let Some(None) = self.own.get(index) else {
            return false;
        };
        match self.places.get(index) {
            Some(own) => *own == place,
            None => false,
        }
    }

    // The number of the first condition that has the verdict at the place.
    fn first(&self, place: usize) -> Option<u32>
        ensures { IfSome result
            (λ n. (0 < n) × IsAtPlace self.now.own.now self.now.places.now (n - 1) place) }
    {
        let first = *self.firsts.get(place)?;
        if self.is_at(first, place) {
            number_of(first)
        } else {
            None
        }
    }

    // Adds the certificate of the verdict at the place.
    fn file_verdict(
        &self,
        file: &mut CertFile,
        verdict: Verdict,
        place: usize,
    ) -> Result<(), AllocError>
        ensures { OnOk result ((verdicts : List Verdict) → slice_get verdicts place ≡ Some verdict
            → AreFiled self.now.own.now self.now.places.now verdicts (shown file.old) → AreFiled self.now.own.now self.now.places.now verdicts (shown file.new)) }
    {
        let Verdict::True(cert) = verdict else {
            return Ok(());
        };
        match self.first(place) {
            Some(number) => put(file, number, cert),
            None => Ok(()),
        }
    }

    /// Adds the certificates of searches, each under the number of its first condition.
    pub(crate) fn file_verdicts(
        &self,
        file: &mut CertFile,
        mut verdicts: Vec<Verdict>,
    ) -> Result<(), AllocError>
        requires { AreFiled self.now.own.now self.now.places.now verdicts.items (shown file.old) }
        ensures { OnOk result (AreFiled self.now.own.now self.now.places.now verdicts.items
            (shown file.new)) }
    {
        while let Some(verdict) = verdicts.pop() {
            self.file_verdict(file, verdict, verdicts.len())?;
        }
        Ok(())
    }

    // Adds the certificate of the first condition at its place for the condition at the index.
    fn file_shared(&self, file: &mut CertFile, index: usize) -> Result<(), AllocError>
        ensures { OnOk result ((verdicts : List Verdict)
            → AreFiled self.now.own.now self.now.places.now verdicts (shown file.old) → AreFiled self.now.own.now self.now.places.now verdicts (shown file.new)) }
    {
        let Some(place) = self.places.get(index) else {
            return Ok(());
        };
        if !self.is_at(index, *place) {
            return Ok(());
        }
        let Some(first) = self.first(*place) else {
            return Ok(());
        };
        let Some(number) = number_of(index) else {
            return Ok(());
        };
        if number == first {
            return Ok(());
        }
        share(file, number, first)
    }

    /// Adds the certificates that conditions share with the first at their place.
    pub(crate) fn file_all_shared(&self, file: &mut CertFile) -> Result<(), AllocError>
        ensures { OnOk result ((verdicts : List Verdict)
            → AreFiled self.now.own.now self.now.places.now verdicts (shown file.old) → AreFiled self.now.own.now self.now.places.now verdicts (shown file.new)) }
    {
        for index in 0..self.places.len() {
            self.file_shared(file, index)?;
        }
        Ok(())
    }
}

// Adds the certificate that the condition at the index has for itself.
fn file_last(
    file: &mut CertFile,
    index: usize,
    last: Option<Box<Verdict>>,
) -> Result<(), AllocError>
    ensures { OnOk result ((own : List (Option (Box Verdict))) (places : List ℕ) (verdicts : List Verdict) → slice_get own index ≡ Some last
        → AreFiled own places verdicts (shown file.old) → AreFiled own places verdicts (shown file.new)) }
{
    let Some(own) = last else {
        return Ok(());
    };
    let verdict = Box::into_inner(own);
    let Verdict::True(cert) = verdict else {
        return Ok(());
    };
    match number_of(index) {
        Some(number) => put(file, number, cert),
        None => Ok(()),
    }
}

/// Adds the certificates that conditions have for themselves.
pub(crate) fn file_own(
    file: &mut CertFile,
    mut own: Vec<Option<Box<Verdict>>>,
) -> Result<(), AllocError>
    ensures { OnOk result ((places : List ℕ) (verdicts : List Verdict)
        → AreFiled own.items places verdicts (shown file.old) → AreFiled own.items places verdicts (shown file.new)) }
{
    while let Some(last) = own.pop() {
        file_last(file, own.len(), last)?;
    }
    Ok(())
}

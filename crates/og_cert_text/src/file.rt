//! Files of certificates.

ghost use Rattle.std.specs.Prelude.{◌≡◌, true};
ghost use Rattle.og_cert_text.specs.Stored.{is_stored};

use crate::cert::Cert;
use crate::fault::{CertFileError, CertFileFault};
use crate::limits::{are_lines, is_number, is_shallow};
use std::alloc::{AllocError, Global};
use std::collections::BTreeMap;
use std::ops::Bound;

/// A map from the numbers of conditions to well-formed certificates. Several conditions may share
/// one certificate, which is then kept once.
///
/// Contracts see the entries by rising numbers, each with its certificate.
#[derive(Drop)]
pub struct CertFile {
    // For each condition the place of its certificate.
    numbers: BTreeMap<u32, usize>,
    certs: Vec<Cert>,
    ghost stored: { is_stored numbers.entries certs.items ≡ true },
}

impl CertFile {
    ghost use Rattle.std.specs.Prelude.{[], ◌∷◌, ◌<◌, ◌↔◌, Some, None, OnOk, OnErr, IfSome, IsTrue, is_some, length, option_map, vec_len, ◌++◌};
    ghost use Rattle.std.specs.BTreeMap.{btree_map_len};
    ghost use Rattle.og_cert_text.specs.Plain.{plain_cert};
    ghost use Rattle.og_cert_text.specs.Shallow.{is_well_formed};
    ghost use Rattle.og_cert_text.specs.Lines as lines;
    ghost use Rattle.og_cert_text.specs.Files.{certificate_of, with_entry};
    ghost use Rattle.og_cert_text.specs.Rising.{is_file, IsLeastAbove, IsNextEntry};
    ghost use Rattle.og_cert_text.specs.Stored.{stored, placed};
    ghost use Rattle.og_cert_text.specs.Kept.{kept_at};
    ghost use Rattle.og_cert_text.specs.Shown.{shown, fault_of_entry, fault_of_same, IsAdded};

    /// The file without certificates. Takes no memory.
    pub fn new(alloc: Global) -> CertFile
        ensures { shown result ≡ [] }
    {
        CertFile {
            numbers: BTreeMap::new(alloc),
            certs: Vec::new(alloc),
        }
    }

    /// The numbers rise, and each number and each certificate is within the limits. Does nothing.
    pub fn follows_limits(&self)
        ensures { is_file (shown self.now) ≡ true }
    {
        let _ = self.numbers.len();
    }

    /// The place at which the certificate of the condition is kept, if it has one. Conditions with
    /// one place have one certificate. Takes no memory.
    pub fn kept_at(&self, n: u32) -> Option<usize>
        ensures place { result ≡ kept_at n self.now }
        ensures certificate { certificate_of n (shown self.now)
            ≡ option_map (placed self.now.certs.items) result }
    {
        self.numbers.get(&n).copied()
    }

    // Whether the condition has a certificate.
    fn has(&self, n: u32) -> bool
        ensures { result ≡ is_some (certificate_of n (shown self.now)) }
    {
        self.kept_at(n).is_some()
    }

    /// The certificate of the condition. Takes no memory.
    pub fn certificate(&self, n: u32) -> Option<&Cert>
        ensures found { option_map (λ c. plain_cert c.now) result
            ≡ certificate_of n (shown self.now) }
        ensures good { IfSome result (λ c. is_well_formed (plain_cert c.now) ≡ true) }
    {
        let place = self.kept_at(n)?;
        self.certs.get(place)
    }

    /// Whether there are fewer certificates than conditions that have one. Takes no memory.
    pub fn has_shared(&self) -> bool
        ensures { IsTrue result ↔ (vec_len self.now.certs < btree_map_len self.now.numbers) }
    {
        self.certs.len() < self.numbers.len()
    }

    /// The least number above n that has a certificate. Takes no memory.
    pub fn least_above(&self, n: u32) -> Option<u32>
        ensures { IsLeastAbove n (shown self.now) result }
    {
        let above = (Bound::Excluded(n), Bound::Unbounded);
        let (number, _) = self.numbers.range(above).next()?;
        Some(*number)
    }

    /// The least number above n that has a certificate, with the place of that. Takes no memory.
    pub(crate) fn place_above(&self, n: u32) -> Option<(u32, usize)>
        ensures next { IsNextEntry n (shown self.now)
            (option_map (λ e. (e.0, placed self.now.certs.items e.1)) result) }
        ensures within { IfSome result (λ e. e.1 < length self.now.certs.items) }
    {
        let above = (Bound::Excluded(n), Bound::Unbounded);
        let (number, place) = self.numbers.range(above).next()?;
        Some((*number, *place))
    }

    /// The entry with the least number above n. Takes no memory.
    pub fn entry_above(&self, n: u32) -> Option<(u32, &Cert)>
        ensures { IsNextEntry n (shown self.now)
            (option_map (λ e. (e.0, plain_cert e.1.now)) result) }
    {
        let (number, place) = self.place_above(n)?;
        Some((number, &self.certs[place]))
    }

    /// The certificates by their places.
    pub(crate) fn certs(&self) -> &[Cert]
        ensures { result.now ≡ self.now.certs.items }
    {
        &self.certs
    }

    // Adds the certificate at this place under n.
    fn put_place(&mut self, n: u32, place: usize) -> Result<(), AllocError>
        requires fresh { certificate_of n (shown self.old) ≡ None }
        requires number { lines.is_number n ≡ true }
        requires within { place < length self.old.certs.items }
        ensures ok { OnOk result (shown self.new
            ≡ with_entry n (placed self.old.certs.items place) (shown self.old)) }
        ensures kept { OnOk result (kept_at n self.new ≡ Some place) }
        ensures err { OnErr result (self.new.numbers.entries ≡ self.old.numbers.entries) }
        ensures certs { self.new.certs ≡ self.old.certs }
    {
        self.numbers.insert(n, place)?;
        Ok(())
    }

    /// Adds the certificate of condition n, which has none yet, where both are within the limits,
    /// as `add` does, and looks at nothing again. An error leaves the file as it was.
    pub fn put(&mut self, n: u32, cert: Cert) -> Result<(), AllocError>
        requires fresh { certificate_of n (shown self.old) ≡ None }
        requires number { lines.is_number n ≡ true }
        requires good { is_well_formed (plain_cert cert) ≡ true }
        ensures ok { OnOk result (shown self.new ≡ with_entry n (plain_cert cert) (shown self.old)) }
        ensures err { OnErr result (shown self.new ≡ shown self.old) }
    {
        let place = self.certs.len();
        self.certs.push(cert)?;
        match self.put_place(n, place) {
            Ok(()) => Ok(()),
            Err(e) => {
                self.certs.truncate(place);
                Err(e)
            }
        }
    }

    // Why the certificate is not added under n, if it isn't.
    fn fault_of_entry(&self, n: u32, cert: &Cert) -> Option<CertFileFault>
        ensures { result ≡ fault_of_entry n (plain_cert cert.now) (shown self.now) }
    {
        if self.has(n) {
            return Some(CertFileFault::Twice);
        }
        if !is_shallow(cert, 0) {
            return Some(CertFileFault::TooDeep);
        }
        if !is_number(n) || !are_lines(cert) {
            return Some(CertFileFault::BadNumber);
        }
        None
    }

    /// Adds the certificate of condition n.
    ///
    /// The first that applies: `Twice` where the condition has a certificate; `TooDeep` where a
    /// branch or a split has 200 of them round it; `BadNumber` where n is not from 1 to 999999999,
    /// or the certificate is not well formed. An error leaves the file as it was.
    pub fn add(&mut self, n: u32, cert: Cert) -> Result<(), CertFileError>
        ensures { IsAdded result (fault_of_entry n (plain_cert cert) (shown self.old))
            (Some (plain_cert cert)) n (shown self.old) (shown self.new) }
    {
        if let Some(fault) = self.fault_of_entry(n, &cert) {
            return Err(CertFileError::Fault(fault));
        }
        self.put(n, cert)?;
        Ok(())
    }

    /// Adds the certificate of condition k as that of condition n too, at its place: it is not
    /// copied.
    ///
    /// The first that applies: `Twice` where condition n has a certificate; `NoSuchCertificate`
    /// where condition k has none; `BadNumber` where n is not from 1 to 999999999. An error leaves
    /// the file as it was.
    pub fn add_same(&mut self, n: u32, k: u32) -> Result<(), CertFileError>
        ensures added { IsAdded result (fault_of_same n k (shown self.old))
            (certificate_of k (shown self.old)) n (shown self.old) (shown self.new) }
        ensures kept { OnOk result (kept_at n self.new ≡ kept_at k self.old) }
    {
        if self.has(n) {
            return Err(CertFileError::Fault(CertFileFault::Twice));
        }
        let Some(place) = self.kept_at(k) else {
            return Err(CertFileError::Fault(CertFileFault::NoSuchCertificate));
        };
        if !is_number(n) {
            return Err(CertFileError::Fault(CertFileFault::BadNumber));
        }
        self.put_place(n, place)?;
        Ok(())
    }
}

//! The text of the certificates that are found.

ghost use Rattle.std.specs.Prelude.{◌≡◌, ◌↔◌, ◌+◌, ◌<◌, ◌≤◌, [], ◌∷◌, ◌++◌, List, length, vec_len, is_none, IfOk, IfErr, IfSome, IsTrue, OnOk};
ghost use Rattle.std.specs.Io.KnownBytes.{Appends};
ghost use Rattle.og_cert_text.specs.Lines.{ForCondition, line_text};
ghost use Rattle.og_cert_text.specs.Listing.{file_text};
ghost use Rattle.og_cond.specs.Condition.{Condition};
ghost use Rattle.og_cond.specs.Counting.{Leaves};
ghost use Rattle.og_find.specs.Missing.{missing_up_to};
ghost use Rattle.og_find_all.specs.Findings.{verdict_of, AreVerdicts};
ghost use Rattle.og_find_all.specs.Texts.{certificate_in, lines_of, lines_from, entry_lines, entries_of, AreLines};
ghost use Rattle.og_find_all.specs.Written.{IsText};
ghost use Rattle.og_io.specs.Written.{AppendsFront, Passes};
ghost use Rattle.og_pool.specs.declared.fault.PoolFault.TheVariants.{Spawn};

use crate::findings::Findings;
use crate::formatting::Formatting;
use itoa::Buffer;
use og_cert_text::{CertFile, put_cert};
use og_find::{Missing, Verdict};
use og_io::{OutputFault, write_long, write_whole};
use og_pool::{PoolFault, answers};
use std::alloc::{AllocError, Global};
use std::io::Write;
use std::marker::Model;
use std::sync::Wait;
use std::thread::Threads;

/// Certificates that searches found for conditions. Contracts see them as their text in version 1,
/// of which no more is made than is written at a time; lines that conditions share are kept once.
#[derive(Drop)]
pub struct Certificates {
    findings: Findings,
    // The lines of the certificate of the verdict at each place.
    lines: Vec<Vec<u8>>,
}

impl Model for Certificates {
    ghost use Rattle.std.specs.Prelude.{ℕ, ◌≤◌, List, vec_len};
    ghost use Rattle.og_cert_text.specs.Listing.{file_text};
    ghost use Rattle.og_find_all.specs.Texts.{entries_of, AreLines};

    ghost Value = { List ℕ };

    ghost view = { λ c. file_text (entries_of c.findings) };

    ghost invariant = { λ c. AreLines c.findings.verdicts.items c.lines.items × (vec_len c.findings.own ≤ 999999999) };
}

/// The certificates of conditions, and how many conditions have none.
#[derive(Drop)]
pub struct Written {
    /// The certificates, of which nothing is written yet.
    pub certificates: Certificates,
    /// How many conditions have no certificate.
    pub missing: Missing,
}

/// The text of certificates, where it is no longer than it may be.
#[derive(Drop)]
pub enum FoundText {
    /// The text, and how many conditions have no certificate.
    Within(Written),
    /// The text would be longer. These are the certificates.
    TooLong(CertFile),
}

/// The first line of a text.
const FIRST_LINE: &[u8] = b"og-cert 1\n";

// Adds the first line of the entry of condition n.
fn put_start(text: &mut Vec<u8>, n: u32) -> Result<(), AllocError>
    ensures { OnOk result (text.new.items ≡ text.old.items
        ++ (line_text (ForCondition n) ++ 10 ∷ [])) }
{
    text.extend_from_slice(b"cond ")?;
    text.extend_from_slice(Buffer::new().format(n).as_bytes())?;
    text.extend_from_slice(b"\n")
}

// What was found, with the lines of the certificate of the verdict at each place.
#[derive(Clone, Copy)]
struct Writing<'a> {
    findings: &'a Findings,
    lines: &'a [Vec<u8>],
}

impl Writing<'_> {
    // The lines of the certificate that the condition at the index shares.
    fn shared(&self, index: usize) -> Option<&[u8]>
        requires { AreLines self.now.findings.now.verdicts.items self.now.lines.now }
        ensures { IfSome result (λ lines.
            lines.now ≡ lines_of (certificate_in (verdict_of self.now.findings.now index))) }
    {
        let Some(None) = self.findings.own.get(index) else {
            return None;
        };
        let place = self.findings.places.get(index)?;
        let lines = self.lines.get(*place)?;
        Some(lines)
    }

    // Adds the entry of the condition at the index, if that has a certificate.
    fn put(&self, text: &mut Vec<u8>, index: usize) -> Result<(), AllocError>
        requires lines { AreLines self.now.findings.now.verdicts.items self.now.lines.now }
        requires few { index < 999999999 }
        ensures { OnOk result (text.new.items ≡ text.old.items
            ++ entry_lines (index + 1) (certificate_in (verdict_of self.now.findings.now index))) }
    {
        let Some(Verdict::True(cert)) = self.findings.verdict(index) else {
            return Ok(());
        };
        put_start(text, index as u32 + 1)?;
        match self.shared(index) {
            Some(lines) => text.extend_from_slice(lines),
            None => put_cert(text, cert),
        }
    }

    // The rest of the room after the entry of the condition at the index, which is made for that.
    fn room_after_entry(
        &self,
        text: &mut Vec<u8>,
        room: usize,
        index: usize,
    ) -> Result<Option<usize>, AllocError>
        requires lines { AreLines self.now.findings.now.verdicts.items self.now.lines.now }
        requires few { index < 999999999 }
        ensures { IfOk result (Leaves room (length
            (entry_lines (index + 1) (certificate_in (verdict_of self.now.findings.now index))))) }
    {
        text.clear();
        self.put(text, index)?;
        Ok(room.checked_sub(text.len()))
    }

    // The rest of the room after the entries of all conditions.
    fn room_after_entries(&self, alloc: Global, room: usize) -> Result<Option<usize>, AllocError>
        requires lines { AreLines self.now.findings.now.verdicts.items self.now.lines.now }
        requires few { vec_len self.now.findings.now.own ≤ 999999999 }
        ensures { IfOk result (Leaves room
            (length (lines_from self.now.findings.now 0 (vec_len self.now.findings.now.own)))) }
    {
        let mut text = Vec::new(alloc);
        let mut left = room;
        for index in 0..self.findings.own.len() {
            match self.room_after_entry(&mut text, left, index)? {
                Some(less) => left = less,
                None => return Ok(None),
            }
        }
        Ok(Some(left))
    }

    // Whether the text of all certificates has at most this many bytes.
    fn is_within(&self, alloc: Global, limit: usize) -> Result<bool, AllocError>
        requires lines { AreLines self.now.findings.now.verdicts.items self.now.lines.now }
        requires few { vec_len self.now.findings.now.own ≤ 999999999 }
        ensures { IfOk result (λ yes.
            IsTrue yes ↔ (length (file_text (entries_of self.now.findings.now)) ≤ limit)) }
    {
        let Some(room) = limit.checked_sub(FIRST_LINE.len()) else {
            return Ok(false);
        };
        let left = self.room_after_entries(alloc, room)?;
        Ok(left.is_some())
    }

    // Writes the entry of the condition at the index, if that has a certificate, or holds it back.
    fn write_entry<W: Write>(
        &self,
        out: &mut W,
        text: &mut Vec<u8>,
        index: usize,
    ) -> Result<(), OutputFault>
        requires lines { AreLines self.now.findings.now.verdicts.items self.now.lines.now }
        requires few { index < 999999999 }
        ensures written { OnOk result (Passes (W.contents out.old) (W.contents out.new) text.old.items text.new.items
            (entry_lines (index + 1) (certificate_in (verdict_of self.now.findings.now index)))) }
        ensures unfinished { IfErr result (λ _. AppendsFront (W.contents out.old) (W.contents out.new) (text.old.items ++
            entry_lines (index + 1) (certificate_in (verdict_of self.now.findings.now index)))) }
    {
        self.put(text, index)?;
        write_long(out, text)?;
        Ok(())
    }

    // Writes the text and after it the entries of all conditions; but for an end, which is the text
    // then.
    fn write_entries<W: Write>(&self, out: &mut W, text: &mut Vec<u8>) -> Result<(), OutputFault>
        requires lines { AreLines self.now.findings.now.verdicts.items self.now.lines.now }
        requires few { vec_len self.now.findings.now.own ≤ 999999999 }
        ensures written { OnOk result (Passes (W.contents out.old) (W.contents out.new) text.old.items text.new.items
            (lines_from self.now.findings.now 0 (vec_len self.now.findings.now.own))) }
        ensures unfinished { IfErr result (λ _. AppendsFront (W.contents out.old) (W.contents out.new) (text.old.items ++
            lines_from self.now.findings.now 0 (vec_len self.now.findings.now.own))) }
    {
        for index in 0..self.findings.own.len() {
            self.write_entry(out, text, index)?;
        }
        Ok(())
    }

    // Writes the text of all certificates.
    fn write<W: Write>(&self, alloc: Global, out: &mut W) -> Result<(), OutputFault>
        requires lines { AreLines self.now.findings.now.verdicts.items self.now.lines.now }
        requires few { vec_len self.now.findings.now.own ≤ 999999999 }
        ensures written { OnOk result (Appends (W.contents out.old) (W.contents out.new)
            (file_text (entries_of self.now.findings.now))) }
        ensures unfinished { IfErr result (λ _. AppendsFront (W.contents out.old)
            (W.contents out.new) (file_text (entries_of self.now.findings.now))) }
    {
        let mut text = Vec::from_slice(alloc, FIRST_LINE)?;
        self.write_entries(out, &mut text)?;
        write_whole(out, &text)?;
        Ok(())
    }
}

impl Certificates {
    /// Writes the text of the certificates as it is made.
    ///
    /// # Errors
    ///
    /// An allocation was refused, or the writer failed; a front of the text may have been written
    /// then.
    pub fn write<W: Write>(&self, alloc: Global, out: &mut W) -> Result<(), OutputFault>
        ensures written { OnOk result (Appends (W.contents out.old) (W.contents out.new) self.now) }
        ensures unfinished { IfErr result
            (λ _. AppendsFront (W.contents out.old) (W.contents out.new) self.now) }
    {
        let writing = Writing {
            findings: &self.findings,
            lines: &self.lines,
        };
        writing.write(alloc, out)
    }
}

impl Findings {
    // Whether the condition at the index has no certificate.
    fn lacks(&self, index: usize) -> bool
        ensures { result ≡ is_none (certificate_in (verdict_of self.now index)) }
    {
        !matches!(self.verdict(index), Some(Verdict::True(_)))
    }

    // The lines of the certificate of the verdict at each place, which this many workers make.
    fn lines<R: Threads + Wait + Sync>(
        &self,
        rt: &R,
        alloc: Global,
        workers: u32,
    ) -> Result<Vec<Vec<u8>>, PoolFault>
        requires { (0 < workers) × (workers ≤ 64) }
        ensures lines { IfOk result (λ all. AreLines self.now.verdicts.items all.items) }
        ensures spawn { IfErr result (λ e. e ≡ Spawn → 1 < workers) }
    {
        let verdicts = &self.verdicts;
        let count = u32::try_from(verdicts.len()).unwrap_or(u32::MAX);
        let formatting = Formatting { verdicts, count };
        let lines = answers(rt, alloc, &formatting, count, workers)?;
        Ok(lines)
    }

    // How many conditions have no certificate.
    #[tactic(auto, using(crate::proofs::Texts::lacks_at))]
    fn missing(&self) -> Missing
        requires { vec_len self.now.own ≤ 999999999 }
        ensures count { result.count
            ≡ missing_up_to (entries_of self.now) (length self.now.own.items) }
        ensures conditions { result.conditions ≡ length self.now.own.items }
    {
        let mut count = 0;
        for index in 0..self.own.len() {
            if self.lacks(index) {
                count += 1;
            }
        }
        let conditions = self.own.len() as u32;
        Missing { count, conditions }
    }

    // The text with these lines, where it has at most this many bytes, and this many conditions
    // without a certificate.
    fn within(
        self,
        alloc: Global,
        lines: Vec<Vec<u8>>,
        missing: Missing,
        limit: usize,
    ) -> Result<FoundText, AllocError>
        requires lines { AreLines self.verdicts.items lines.items }
        requires few { vec_len self.own ≤ 999999999 }
        requires count { missing.count ≡ missing_up_to (entries_of self) (length self.own.items) }
        requires conditions { missing.conditions ≡ length self.own.items }
        ensures { IfOk result (λ text.
            (cs : List Condition) → AreVerdicts cs self → IsText limit cs text) }
    {
        let writing = Writing {
            findings: &self,
            lines: &lines,
        };
        let is_within = writing.is_within(alloc, limit)?;
        if !is_within {
            drop(lines);
            return Ok(FoundText::TooLong(self.certificates(alloc)?));
        }
        let certificates = Certificates {
            findings: self,
            lines,
        };
        Ok(FoundText::Within(Written {
            certificates,
            missing,
        }))
    }

    /// The text in version 1 of the certificates, each under the number of its condition, counted
    /// from 1, and how many conditions have none; the certificates alone where the text would have
    /// more bytes than the limit. The workers make the lines of the text. The text is that of
    /// the file of `certificates`, and the same for every number of workers.
    ///
    /// # Errors
    ///
    /// As `examine_all`.
    pub fn text<R: Threads + Wait + Sync>(
        self,
        rt: &R,
        alloc: Global,
        workers: u32,
        limit: usize,
    ) -> Result<FoundText, PoolFault>
        requires workers { (0 < workers) × (workers ≤ 64) }
        requires few { vec_len self.own ≤ 999999999 }
        ensures text { IfOk result (λ text.
            (cs : List Condition) → AreVerdicts cs self → IsText limit cs text) }
        ensures spawn { IfErr result (λ e. e ≡ Spawn → 1 < workers) }
    {
        let missing = self.missing();
        let lines = self.lines(rt, alloc, workers)?;
        let text = self.within(alloc, lines, missing, limit)?;
        Ok(text)
    }
}

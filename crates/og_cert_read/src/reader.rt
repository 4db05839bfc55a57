//! Reading line by line.

ghost use Rattle.std.specs.Prelude.{◌≡◌};
ghost use Rattle.og_cert_read.specs.Reading.{BadLine};
ghost use Rattle.og_cert_read.specs.Reader.{refused};

use crate::levels::{Fork, Level, settle};
use crate::limits::DEPTH_LIMIT;
use crate::line::{Line, read_line};
use crate::words::split_at_byte;
use og_cert_text::{Cert, CertFile, CertFileError, CertStep, CertTextError, CertTextFault, Finish};
use std::alloc::{AllocError, Global};
use std::mem;

/// The version of a text. Version 2 has the line `same`.
#[derive(Clone, Copy)]
pub(crate) enum Version {
    One,
    Two,
}

/// The part read so far.
#[derive(Drop)]
pub(crate) struct Reader {
    file: CertFile,
    // The condition whose certificate is open.
    number: Option<u32>,
    // The steps of the innermost open certificate.
    steps: Vec<CertStep>,
    // The branches open round it, the innermost last.
    levels: Vec<Level>,
}

fn bad_line(at: u32) -> CertTextError
    ensures { result ≡ refused BadLine at }
{
    CertTextError::Fault(CertTextFault::BadLine(at))
}

impl Reader {
    ghost use Rattle.std.specs.Prelude.{◌<◌, ◌≤◌, ◌∷◌, true, length, OnOk, IfErr, IsErrOf, IsSome, MatchResult};
    ghost use Rattle.og_cert_text.specs.Shown.{shown};
    ghost use Rattle.og_cert_text.specs.Plain.{plain_cert, plain_finish};
    ghost use Rattle.og_cert_text.specs.Lines.{SplitLine, is_line};
    ghost use Rattle.og_cert_text.specs.Files.{with_entry};
    ghost use Rattle.og_cert_text.specs.declared.fault.CertTextError.TheVariants.{Memory};
    ghost use Rattle.og_cert_read.specs.Said.{said_line};
    ghost use Rattle.og_cert_read.specs.Words.{past};
    ghost use Rattle.og_cert_read.specs.Reading.{TooDeep, nothing_read, plug, depth, deeper, line_at, line_within, line_between, same_as, read_lines, split_frames, ended};
    ghost use Rattle.og_cert_read.specs.Levels.{fork_frame, IsGood};
    ghost use Rattle.og_cert_read.specs.Reader.{version_of, lines_of, frames_of, place_of, reading_of, IsSound, IsOpen, IsTaken, IsStopped, IsNext, IsFile};

    pub(crate) fn new(alloc: Global) -> Reader
        ensures reading { reading_of result ≡ nothing_read }
        ensures sound { IsSound result }
    {
        Reader {
            file: CertFile::new(alloc),
            number: None,
            steps: Vec::new(alloc),
            levels: Vec::new(alloc),
        }
    }

    // Opens a branch or a split after the steps.
    fn open(&mut self, alloc: Global, fork: Fork) -> Result<(), AllocError>
        ensures frames { OnOk result (frames_of self.new ≡ fork_frame fork ∷ frames_of self.old) }
        ensures file { self.new.file ≡ self.old.file }
        ensures number { self.new.number ≡ self.old.number }
    {
        let steps = mem::replace(&mut self.steps, Vec::new(alloc));
        self.levels.push(Level { steps, fork })?;
        Ok(())
    }

    // Adds the complete certificate of condition n to the file.
    fn enter(&mut self, n: u32, cert: Cert) -> Result<(), AllocError>
        requires open { IsOpen n self.old.file }
        requires good { IsGood 0 (plain_cert cert) }
        ensures file { OnOk result (shown self.new.file
            ≡ with_entry n (plain_cert cert) (shown self.old.file)) }
        ensures number { OnOk result (self.new.number ≡ None) }
    {
        self.file.put(n, cert)?;
        self.number = None;
        Ok(())
    }

    // Ends the innermost certificate.
    fn finish(&mut self, alloc: Global, n: u32, finish: Finish) -> Result<(), AllocError>
        requires number { self.old.number ≡ Some n }
        requires sound { IsSound self.old }
        requires good { IsGood (depth (frames_of self.old)) (plain_finish finish) }
        ensures reading { OnOk result (reading_of self.new
            ≡ plug (shown self.old.file) n (plain_finish finish) (frames_of self.old)) }
        ensures sound { OnOk result (IsSound self.new) }
    {
        let mut steps = mem::replace(&mut self.steps, Vec::new(alloc));
        steps.shrink_to_fit();
        let cert = Cert { steps, finish };
        match settle(alloc, &mut self.levels, cert)? {
            None => Ok(()),
            Some(whole) => self.enter(n, whole),
        }
    }

    // Takes the line `same k` of condition n.
    fn same(&mut self, version: Version, n: u32, k: u32, at: u32) -> Result<(), CertTextError>
        requires number { self.old.number ≡ Some n }
        requires sound { IsSound self.old }
        ensures { IsTaken result at
            (same_as (version_of version) (shown self.old.file) n (frames_of self.old) k) self.new }
    {
        if matches!(version, Version::One) || !self.steps.is_empty() || !self.levels.is_empty() {
            return Err(bad_line(at));
        }
        match self.file.add_same(n, k) {
            Ok(()) => {
                self.number = None;
                Ok(())
            }
            Err(CertFileError::Memory) => Err(CertTextError::Memory),
            Err(CertFileError::Fault(_)) => Err(bad_line(at)),
        }
    }

    // Refuses a branch or a split with too many round it.
    fn deeper(&self, at: u32) -> Result<(), CertTextError>
        ensures { MatchResult result (λ _. depth (frames_of self.now) < 200)
            (λ e. (200 ≤ depth (frames_of self.now)) × (e ≡ refused TooDeep at)) }
    {
        if self.levels.len() >= DEPTH_LIMIT {
            return Err(CertTextError::Fault(CertTextFault::TooDeep(at)));
        }
        Ok(())
    }

    // Takes the line of a split that has not too many round it.
    fn split(&mut self, alloc: Global, n: u32, fact: u32, count: u32) -> Result<(), AllocError>
        requires number { self.old.number ≡ Some n }
        requires sound { IsSound self.old }
        requires good { is_line (SplitLine fact count) ≡ true }
        requires deep { depth (frames_of self.old) < 200 }
        ensures reading { OnOk result (reading_of self.new
            ≡ split_frames (shown self.old.file) n (frames_of self.old) fact count) }
        ensures sound { OnOk result (IsSound self.new) }
    {
        if count == 0 {
            self.finish(alloc, n, Finish::Split(fact, Vec::new(alloc)))?;
        } else {
            let certs = Vec::with_capacity(alloc, count.min(32) as usize)?;
            self.open(alloc, Fork::Part(fact, count - 1, certs))?;
        }
        Ok(())
    }

    // Takes a line within the certificate of condition n.
    fn within(
        &mut self,
        alloc: Global,
        version: Version,
        n: u32,
        line: Line,
        at: u32,
    ) -> Result<(), CertTextError>
        requires number { self.old.number ≡ Some n }
        requires sound { IsSound self.old }
        requires good { is_line (said_line line) ≡ true }
        ensures { IsTaken result at (line_within (version_of version) (shown self.old.file) n
            (frames_of self.old) (said_line line)) self.new }
    {
        match line {
            Line::Condition(_) => return Err(bad_line(at)),
            Line::Same(k) => return self.same(version, n, k, at),
            Line::Sum(terms) => self.steps.push(CertStep::Sum(terms))?,
            Line::Cut(fact, divisor) => self.steps.push(CertStep::Cut(fact, divisor))?,
            Line::Branch(form) => {
                self.deeper(at)?;
                self.open(alloc, Fork::First(form))?;
            }
            Line::Split(fact, count) => {
                self.deeper(at)?;
                self.split(alloc, n, fact, count)?;
            }
            Line::Close(terms) => self.finish(alloc, n, Finish::Close(terms))?,
        }
        Ok(())
    }

    // Takes a line between two certificates.
    fn between(&mut self, alloc: Global, line: Line, at: u32) -> Result<(), CertTextError>
        requires good { is_line (said_line line) ≡ true }
        ensures { IsTaken result at (line_between (shown self.old.file) (said_line line)) self.new }
    {
        let Line::Condition(n) = line else {
            return Err(bad_line(at));
        };
        if self.file.certificate(n).is_some() {
            return Err(CertTextError::Fault(CertTextFault::Twice(at)));
        }
        self.number = Some(n);
        self.steps = Vec::new(alloc);
        self.levels = Vec::new(alloc);
        Ok(())
    }

    // Takes a line.
    fn take(
        &mut self,
        alloc: Global,
        version: Version,
        line: Line,
        at: u32,
    ) -> Result<(), CertTextError>
        requires sound { IsSound self.old }
        requires good { is_line (said_line line) ≡ true }
        ensures { IsTaken result at (line_at (version_of version) (shown self.old.file)
            (place_of self.old) (said_line line)) self.new }
    {
        match self.number {
            None => self.between(alloc, line, at),
            Some(n) => self.within(alloc, version, n, line, at),
        }
    }

    /// Takes the first line of the text, and gives what stands after it. Takes memory only where
    /// the line has its end.
    pub(crate) fn next<'a>(
        &mut self,
        alloc: Global,
        version: Version,
        text: &'a [u8],
        at: u32,
    ) -> Result<&'a [u8], CertTextError>
        requires some { 0 < length text.now }
        requires sound { IsSound self.old }
        ensures next { MatchResult result (λ rest. IsNext (version_of version) at text.now rest.now
            self.old self.new) (λ e. IsStopped e
            (read_lines (version_of version) at (reading_of self.old) (lines_of text.now))) }
        ensures memory { IsErrOf result Memory → IsSome (past 10 text.now) }
    {
        let (bytes, past) = split_at_byte(text, b'\n');
        let Some(rest) = past else {
            return Err(bad_line(at));
        };
        let Some(line) = read_line(alloc, bytes)? else {
            return Err(bad_line(at));
        };
        self.take(alloc, version, line, at)?;
        Ok(rest)
    }

    /// The file, where no certificate is open.
    pub(crate) fn end(self, at: u32) -> Result<CertFile, CertTextError>
        ensures file { IsFile result (ended at (shown self.file) (place_of self)) }
        ensures refused { IfErr result (λ e. e ≡ refused BadLine at) }
    {
        if self.number.is_some() {
            return Err(bad_line(at));
        }
        Ok(self.file)
    }
}

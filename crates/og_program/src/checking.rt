//! Checks, by threads.

ghost use Rattle.std.specs.Prelude.{◌≡◌, ◌<◌, true, IfOk, IfErr, codes};
ghost use Rattle.og_program.specs.World.{world_of, named};
ghost use Rattle.og_program.specs.Opened.{One, Both, LeavesInput, lacks};
ghost use Rattle.og_program.specs.Failing.{IsFault, IsUnread, IsWant};
ghost use Rattle.og_program.specs.Commands.{IsCheckOutcome, Checks, ChecksInput};

use crate::beside::beside_check;
use crate::fault::Fault;
use crate::files::Files;
use crate::outcome::Outcome;
use crate::program::Program;
use crate::reading::{INPUT, joined_from};
use crate::refusing::refuse;
use og_command_check::{Options, checked};
use og_io::{Workers, split};
use og_pool::Gate;
use og_report_refusal::Names;
use og_words::Check;
use std::io::Read;
use std::sync::Wait;
use std::thread::Threads;

impl<'r, F: Files, G: Gate, H: Threads + Wait + Sync> Program<'r, F, G, H> {
    // Checks a source by certificates of these names.
    fn check_bytes<'a>(
        &self,
        names: Names<'_>,
        source: &[u8],
        certs: &[u8],
        options: Options,
    ) -> Result<Outcome<'a>, Fault<'a>>
        ensures report { IfOk result
            (IsCheckOutcome options.json (named names.entry.source.now source.now)
            (named names.entry.certs.now certs.now)) }
        ensures want { IfErr result (IsWant (1 < options.workers)) }
    {
        match checked(self.rt, self.alloc, source, certs, options, self.gate) {
            Ok(checked) => {
                let report = beside_check(self.alloc, names.source, checked);
                Ok(Outcome::Report(report))
            }
            Err(refusal) => refuse(self.alloc, names, source, refusal),
        }
    }

    /// Checks one input that holds the source and then the certificates.
    pub(crate) fn joined<'a, I: Read>(&self, input: &mut I) -> Result<Outcome<'a>, Fault<'a>>
        ensures outcome { IfOk result (ChecksInput
            (world_of F.contents F.is_missing I.remaining self.now input.old)) }
        ensures fault { IfErr result (IsFault (One (codes "-")) ⊥) }
    {
        let bytes = joined_from(self.alloc, INPUT, input)?;
        let (source, certs) = split(&bytes);
        let names = Names {
            source: INPUT,
            certs: INPUT,
        };
        let options = Options {
            workers: Workers::ONE,
            json: false,
        };
        self.check_bytes(names, source, certs, options)
    }

    /// Checks a source by certificates.
    pub(crate) fn check<'a, I: Read>(
        &self,
        check: &Check<'a>,
        input: &mut I,
    ) -> Result<Outcome<'a>, Fault<'a>>
        ensures outcome { IfOk result (Checks
            (world_of F.contents F.is_missing I.remaining self.now input.old) check.now) }
        ensures fault { IfErr result
            (IsFault (Both check.now.source.now check.now.certs.now) (1 < check.now.workers)) }
        ensures missing { lacks (F.is_missing self.now.files.now)
            (Both check.now.source.now check.now.certs.now) ≡ true → IsUnread result }
        ensures kept { LeavesInput (Both check.now.source.now check.now.certs.now)
            → I.remaining input.new ≡ I.remaining input.old }
    {
        let names = Names {
            source: check.source,
            certs: check.certs,
        };
        let options = Options {
            workers: check.workers,
            json: check.json,
        };
        let (source, certs) = self.both_bytes(names, input)?;
        self.check_bytes(names, &source, &certs, options)
    }
}

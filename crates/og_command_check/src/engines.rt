//! The engines: they read, judge and write.

ghost use Rattle.std.specs.Prelude.{◌≡◌, ◌≢◌, ◌<◌, IfOk, IfErr, IfSome, Some};
ghost use Rattle.std.specs.Io.KnownBytes.{Consumes, Keeps};
ghost use Rattle.og_command_check.specs.Inputs.{source_of, certs_of, joined_of, Reads};
ghost use Rattle.og_command_check.specs.Written.{ReadsBoth, Writes, WritesJoined};
ghost use Rattle.og_command_check.specs.NeverStuck.{HasNeverStuckSource};
ghost use Rattle.og_command_check.specs.Proven.{HasProvenSource};
ghost use Rattle.og_command_check.specs.Wrote.{Wrote};
ghost use Rattle.og_command_check.specs.Unfinished.{WritesFront, WritesJoinedFront};
ghost use Rattle.og_judge.specs.Proven.{IsProvenSource};
ghost use Rattle.og_judge.specs.NeverStuck.{IsNeverStuckSource};
ghost use Rattle.og_report_text.specs.Yes.{SaysUnblocked};

use crate::answer::Checker;
use crate::fault::EngineFault;
use crate::inputs::{read_certificates, read_joined, read_source};
use crate::writing::write_answer;
use og_io::{Workers, split};
use og_pool::Gate;
use std::alloc::Global;
use std::io::{Read, Write};
use std::sync::Wait;
use std::thread::Threads;

/// How a check is made and reported.
#[derive(Clone, Copy, PartialEq, Eq)]
pub struct Options {
    /// How many workers draw conditions.
    pub workers: Workers,
    /// Whether a report is JSON with an LF.
    pub json: bool,
}

/// Reads a source and then certificates, each to its end or to one byte past its limit, judges, and
/// writes the report, or the line of a refusal, and nothing else. The status is 0 where the outline
/// is safe, 1 where it is not, 2 at a refusal. What status 0 says of the runs is as in `checked`.
/// Each reader is read at most 100,000,000 times.
///
/// # Errors
///
/// `ReadFailed` where a reader failed or had not ended after that many reads, `Spawn`, of two
/// workers or more, where a thread could not be started, `Memory` where an allocation was refused:
/// nothing is written then.
/// `WriteFailed` where the writer failed: then a front of what was to be written may stand there.
pub fn engine<R: Read, S: Read, W: Write, G: Gate, H: Threads + Wait + Sync>(
    rt: &H,
    alloc: Global,
    source: &mut R,
    certs: &mut S,
    out: &mut W,
    options: Options,
    gate: &G,
) -> Result<u8, EngineFault>
    ensures answer { IfOk result (λ status.
        ReadsBoth (R.remaining source.old) (S.remaining certs.old) (λ s c.
        Writes options.json s c (W.contents out.old) (W.contents out.new) status)) }
    ensures sound { IfOk result (λ status.
        status ≡ 0 → Reads source_of (R.remaining source.old) IsProvenSource) }
    ensures unblocked { IfOk result (λ status.
        status ≡ 0 → Wrote (SaysUnblocked options.json) (W.contents out.old) (W.contents out.new)
        → Reads source_of (R.remaining source.old) IsNeverStuckSource) }
    ensures source { IfOk result (λ _. IfSome (R.remaining source.old) (λ s.
        Consumes (Some s) (R.remaining source.new) (source_of s))) }
    ensures certs { IfOk result (λ _. IfSome (S.remaining certs.old) (λ c.
        Consumes (Some c) (S.remaining certs.new) (certs_of c))) }
    ensures spawn { IfErr result (λ e. e ≡ EngineFault.Spawn → 1 < options.workers) }
    ensures unwritten { IfErr result (λ e.
        e ≢ EngineFault.WriteFailed → Keeps (W.contents out.old) (W.contents out.new)) }
    ensures unfinished { IfErr result (λ e. e ≡ EngineFault.WriteFailed
        → ReadsBoth (R.remaining source.old) (S.remaining certs.old) (λ s c.
        WritesFront options.json s c (W.contents out.old) (W.contents out.new))) }
{
    let source = read_source(alloc, source)?;
    let certs = read_certificates(alloc, certs)?;
    let checker = Checker {
        rt,
        alloc,
        gate,
        options,
    };
    let answer = checker.answer(&source, &certs)?;
    let status = write_answer(out, &answer)?;
    Ok(status)
}

/// Reads a source and certificates as one input, of at most 68,157,441 bytes, and goes on as
/// `engine`. The source is all before the first line that is exactly `og-cert 1` or `og-cert 2`;
/// the certificates are that line and the rest, or nothing where there is no such line.
///
/// # Errors
///
/// As `engine`.
pub fn engine_joined<R: Read, W: Write, G: Gate, H: Threads + Wait + Sync>(
    rt: &H,
    alloc: Global,
    input: &mut R,
    out: &mut W,
    options: Options,
    gate: &G,
) -> Result<u8, EngineFault>
    ensures answer { IfOk result (λ status. Reads joined_of (R.remaining input.old) (λ i.
        WritesJoined options.json i (W.contents out.old) (W.contents out.new) status)) }
    ensures sound { IfOk result (λ status.
        status ≡ 0 → Reads joined_of (R.remaining input.old) HasProvenSource) }
    ensures unblocked { IfOk result (λ status.
        status ≡ 0 → Wrote (SaysUnblocked options.json) (W.contents out.old) (W.contents out.new)
        → Reads joined_of (R.remaining input.old) HasNeverStuckSource) }
    ensures input { IfOk result (λ _. IfSome (R.remaining input.old) (λ i.
        Consumes (Some i) (R.remaining input.new) (joined_of i))) }
    ensures spawn { IfErr result (λ e. e ≡ EngineFault.Spawn → 1 < options.workers) }
    ensures unwritten { IfErr result (λ e.
        e ≢ EngineFault.WriteFailed → Keeps (W.contents out.old) (W.contents out.new)) }
    ensures unfinished { IfErr result (λ e. e ≡ EngineFault.WriteFailed
        → Reads joined_of (R.remaining input.old) (λ i.
        WritesJoinedFront options.json i (W.contents out.old) (W.contents out.new))) }
{
    let input = read_joined(alloc, input)?;
    let (source, certs) = split(&input);
    let checker = Checker {
        rt,
        alloc,
        gate,
        options,
    };
    let answer = checker.answer(source, certs)?;
    let status = write_answer(out, &answer)?;
    Ok(status)
}

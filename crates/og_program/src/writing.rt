//! Writes an outcome, a fault, or why words are wrong.

ghost use Rattle.std.specs.Prelude.{◌≡◌, ◌++◌, IfOk, IfErr, OnOk};
ghost use Rattle.og_program.specs.World.{stream, trace};
ghost use Rattle.og_program.specs.Failing.{fault_text};
ghost use Rattle.og_program.specs.Written.{line_or_nothing, bad_value_text, Complains, GetsNote, SaysWhy, Fails, WritesReport, WritesCertificates, WritesListing, Writes};

use crate::ended::Ended;
use crate::fault::{Fault, Why};
use crate::outcome::{BadValue, Certificates, Outcome, Report};
use og_command_check::write_answer;
use og_io::{WriteFault, write_text};
use og_report_conditions::Listing;
use og_report_refusal::put_name;
use std::alloc::{AllocError, Global};
use std::io::Write;

// The status of wrong words.
const WRONG: u8 = 3;

// The status where a file cannot be read or written, memory runs out, or a thread is not started.
const FAULT: u8 = 4;

const OUT_OF_MEMORY: &str = "og: out of memory\n";

// Ends with a text on standard error.
fn complain<E: Write>(text: &[u8], status: u8, err: &mut E) -> Ended
    ensures { Complains text.now status (stream E.contents err.old err.new) result }
{
    match write_text(err, text) {
        Ok(()) => Ended {
            status,
            written: true,
        },
        Err(_) => Ended {
            status,
            written: false,
        },
    }
}

/// Ends with why the words are wrong.
pub(crate) fn refuse<E: Write>(text: &str, err: &mut E) -> Ended
    ensures { Complains text.now 3 (stream E.contents err.old err.new) result }
{
    complain(text.as_bytes(), WRONG, err)
}

// Ends with the text of a fault.
fn end<E: Write>(text: &str, err: &mut E) -> Ended
    ensures { Complains text.now 4 (stream E.contents err.old err.new) result }
{
    complain(text.as_bytes(), FAULT, err)
}

// The text for a file that was not read.
fn not_read_text(alloc: Global, name: &str, why: Why) -> Result<Vec<u8>, AllocError>
    ensures { IfOk result (λ text. text.items ≡ fault_text (Fault.NotRead name.entry why)) }
{
    let mut text = Vec::from_slice(alloc, b"og: ")?;
    put_name(&mut text, name)?;
    text.extend_from_slice(b": ")?;
    text.extend_from_slice(why.text().as_bytes())?;
    text.extend_from_slice(b"\n")?;
    Ok(text)
}

// Ends with a file that was not read.
fn fail_to_read<E: Write>(alloc: Global, name: &str, why: Why, err: &mut E) -> Ended
    ensures { SaysWhy (fault_text (Fault.NotRead name.entry why)) 4
        (stream E.contents err.old err.new) result }
{
    match not_read_text(alloc, name, why) {
        Ok(text) => complain(&text, FAULT, err),
        Err(_) => end(OUT_OF_MEMORY, err),
    }
}

/// Ends with a fault.
pub(crate) fn fail<E: Write>(alloc: Global, fault: Fault<'_>, err: &mut E) -> Ended
    ensures { SaysWhy (fault_text fault.entry) 4 (stream E.contents err.old err.new) result }
{
    match fault {
        Fault::NotRead(name, why) => fail_to_read(alloc, name, why, err),
        Fault::NotWritten(WriteFault::Closed) => end("", err),
        Fault::NotWritten(WriteFault::Failed) => end("og: write failed\n", err),
        Fault::Memory => end(OUT_OF_MEMORY, err),
        Fault::Spawn => end("og: no thread\n", err),
    }
}

// Writes what goes to standard error beside an answer, if anything does.
fn note<E: Write>(note: &Result<Option<Vec<u8>>, AllocError>, status: u8, err: &mut E) -> Ended
    ensures status { result.status ≡ status }
    ensures note { GetsNote note.now (stream E.contents err.old err.new) result }
{
    match note {
        Ok(None) => Ended {
            status,
            written: true,
        },
        Ok(Some(text)) => complain(text, status, err),
        Err(_) => complain(OUT_OF_MEMORY.as_bytes(), status, err),
    }
}

/// Prints an answer, and then what goes to standard error beside it, which changes nothing else.
pub(crate) fn print<O: Write, E: Write>(
    alloc: Global,
    report: &Report,
    out: &mut O,
    err: &mut E,
) -> Ended
    ensures { WritesReport report.now
        (trace (stream O.contents out.old out.new) (stream E.contents err.old err.new) result) }
{
    match write_answer(out, &report.answer) {
        Ok(status) => note(&report.note, status, err),
        Err(fault) => fail(alloc, Fault::NotWritten(fault), err),
    }
}

// Adds a line, where there is one.
fn put_line(text: &mut Vec<u8>, line: &Option<Vec<u8>>) -> Result<(), AllocError>
    ensures { OnOk result (text.new.items ≡ text.old.items ++ line_or_nothing line.now) }
{
    match line {
        Some(line) => text.extend_from_slice(line),
        None => Ok(()),
    }
}

// The text for a word that gives no value, with why, where that is known.
fn bad_value_text(alloc: Global, bad: &BadValue<'_>) -> Result<Vec<u8>, AllocError>
    ensures { IfOk result (λ text. text.items ≡ bad_value_text bad.now) }
{
    let mut text = Vec::from_slice(alloc, b"bad value: ")?;
    put_name(&mut text, bad.word)?;
    text.extend_from_slice(b"\n")?;
    put_line(&mut text, &bad.why)?;
    Ok(text)
}

// Refuses a word that gives no value.
fn refuse_value<E: Write>(alloc: Global, bad: &BadValue<'_>, err: &mut E) -> Ended
    ensures { SaysWhy (bad_value_text bad.now) 3 (stream E.contents err.old err.new) result }
{
    match bad_value_text(alloc, bad) {
        Ok(text) => complain(&text, WRONG, err),
        Err(_) => fail(alloc, Fault::Memory, err),
    }
}

// Writes a listing as it is made, or says why it is not written whole.
fn list<O: Write, E: Write>(alloc: Global, listing: &Listing, out: &mut O, err: &mut E) -> Ended
    ensures { WritesListing listing.now
        (trace (stream O.contents out.old out.new) (stream E.contents err.old err.new) result) }
{
    match listing.write(alloc, out) {
        Ok(status) => Ended {
            status,
            written: true,
        },
        Err(fault) => fail(alloc, Fault::from(fault), err),
    }
}

// Writes certificates as their text is made, and then what goes to standard error beside them; or
// says why they are not written whole.
fn print_found<O: Write, E: Write>(
    alloc: Global,
    certificates: &Certificates,
    out: &mut O,
    err: &mut E,
) -> Ended
    ensures { WritesCertificates certificates.now
        (trace (stream O.contents out.old out.new) (stream E.contents err.old err.new) result) }
{
    match certificates.found.write(alloc, out) {
        Ok(status) => note(&certificates.note, status, err),
        Err(fault) => fail(alloc, Fault::from(fault), err),
    }
}

// Writes an outcome.
fn write_outcome<O: Write, E: Write>(
    alloc: Global,
    outcome: &Outcome<'_>,
    out: &mut O,
    err: &mut E,
) -> Ended
    ensures { Writes outcome.now
        (trace (stream O.contents out.old out.new) (stream E.contents err.old err.new) result) }
{
    match outcome {
        Outcome::Report(report) => print(alloc, report, out, err),
        Outcome::Certificates(certificates) => print_found(alloc, certificates, out, err),
        Outcome::Listing(listing) => list(alloc, listing, out, err),
        Outcome::BadValue(bad) => refuse_value(alloc, bad, err),
        Outcome::NotMade(line) => complain(line, WRONG, err),
    }
}

/// Writes an outcome, or why there is none.
pub(crate) fn write_result<O: Write, E: Write>(
    alloc: Global,
    outcome: Result<Outcome<'_>, Fault<'_>>,
    out: &mut O,
    err: &mut E,
) -> Ended
    ensures ok { IfOk outcome.entry
        (λ o. Writes o
        (trace (stream O.contents out.old out.new) (stream E.contents err.old err.new) result)) }
    ensures err { IfErr outcome.entry
        (λ fault. Fails fault
        (trace (stream O.contents out.old out.new) (stream E.contents err.old err.new) result)) }
{
    match outcome {
        Ok(outcome) => write_outcome(alloc, &outcome, out, err),
        Err(fault) => fail(alloc, fault, err),
    }
}

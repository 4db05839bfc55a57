//! What commands answer, as texts.

use og_command_check::{
    Answer, EngineFault, FindReply, Options, Wanted, checked, engine, erased, found, migrated,
};
use og_io::{Budget, CertVersion, OutputFault, Workers};
use og_judge::Refusal;
use og_pool::OpenGate;
use og_report_conditions::{Form, Listing, Reply, listed};
use og_test_samples::{
    AUXILIARY_ADD, ONE_SKIP, ONE_SKIP_CERTS, ONE_SKIP_CERTS_2, TWO_ADD, TWO_ADD_CERTS, alike,
};
use og_typed::Source;
use std::alloc::Global;
use std::io::{Error, ErrorKind, Write};
use std::sync::Wait;
use std::thread::Threads;

// Whether an answer is this text with this status.
fn is(answer: &Answer, text: &str, status: u8) -> bool {
    answer.text.as_slice() == text.as_bytes() && answer.status == status
}

const REPORT: &str = "conditions: 12\nproved: 12\nsafe: yes\nunblocked: yes\n";

const OPTIONS: Options = Options {
    workers: Workers::ONE,
    json: false,
};

pub(crate) fn is_checked<R: Threads + Wait + Sync>(rt: &R, alloc: Global) -> Result<bool, Refusal> {
    let (source, certs) = (TWO_ADD.as_bytes(), TWO_ADD_CERTS.as_bytes());
    let checked = checked(rt, alloc, source, certs, OPTIONS, &OpenGate)?;
    Ok(is(&checked.answer, REPORT, 0))
}

// Paper of fixed length, which asks for no memory.
#[derive(Drop)]
struct Sheet<const LENGTH: usize> {
    bytes: [u8; LENGTH],
    used: usize,
}

impl<const LENGTH: usize> Sheet<LENGTH> {
    fn new() -> Sheet<LENGTH> {
        Sheet {
            bytes: [0; LENGTH],
            used: 0,
        }
    }

    // What was written.
    fn written(&self) -> &[u8] {
        self.bytes.get(..self.used).unwrap_or_default()
    }
}

impl<const LENGTH: usize> Write for Sheet<LENGTH> {
    fn write(&mut self, buf: &[u8]) -> Result<usize, Error> {
        let Some(free) = self.bytes.get_mut(self.used..) else {
            return Err(Error::from(ErrorKind::Other));
        };
        let count = buf.len().min(free.len());
        free[..count].copy_from_slice(&buf[..count]);
        self.used = self.used.saturating_add(count);
        Ok(count)
    }

    fn flush(&mut self) -> Result<(), Error> {
        Ok(())
    }
}

// Where there is no answer nothing is written.
fn of_engine(answer: Result<u8, EngineFault>, written: &[u8]) -> Result<bool, Refusal> {
    match answer {
        Ok(status) => Ok(status == 0 && written == REPORT.as_bytes()),
        Err(EngineFault::Memory) if written.is_empty() => Err(Refusal::Memory),
        Err(_) => Ok(false),
    }
}

pub(crate) fn is_written<R: Threads + Wait + Sync>(rt: &R, alloc: Global) -> Result<bool, Refusal> {
    let (mut source, mut certs) = (TWO_ADD.as_bytes(), TWO_ADD_CERTS.as_bytes());
    let mut sheet = Sheet::<64>::new();
    let answer = engine(
        rt,
        alloc,
        &mut source,
        &mut certs,
        &mut sheet,
        OPTIONS,
        &OpenGate,
    );
    of_engine(answer, sheet.written())
}

/// The listing of `ONE_SKIP`.
pub(crate) const LISTED: &str = "\
cond 1 start at 3:1
  1: 1 <= 0
cond 2 step at 3:8
  1: 1 <= 0
cond 3 end at 5:1
  1: 1 <= 0
cond 4 blocking at 2:1
  1: 1 <= 0
";

// Where memory is refused a front of the text is written.
fn of_output(
    answer: Result<u8, OutputFault>,
    written: &[u8],
    whole: &[u8],
) -> Result<bool, Refusal> {
    match answer {
        Ok(status) => Ok(status == 0 && written == whole),
        Err(OutputFault::Memory) if whole.starts_with(written) => Err(Refusal::Memory),
        Err(_) => Ok(false),
    }
}

pub(crate) fn is_listed(alloc: Global) -> Result<bool, Refusal> {
    let source = Source::read(alloc, ONE_SKIP.as_bytes())?;
    let Reply::Listing(listing) = listed(alloc, Form::Facts, None, source)? else {
        return Ok(false);
    };
    let mut sheet = Sheet::<256>::new();
    let answer = listing.write(alloc, &mut sheet);
    of_output(answer, sheet.written(), LISTED.as_bytes())
}

// A listing that is written in several pieces is compared with the same one, written again.
fn in_pieces(alloc: Global, listing: &Listing) -> Result<bool, Refusal> {
    let (mut sheet, mut again) = (Sheet::<16_384>::new(), Sheet::<16_384>::new());
    let answer = listing.write(alloc, &mut sheet);
    if listing.write(alloc, &mut again).is_err() {
        return Err(Refusal::Memory);
    }
    if again.written().len() <= 8_192 {
        return Ok(false);
    }
    of_output(answer, sheet.written(), again.written())
}

pub(crate) fn is_listed_in_pieces(alloc: Global) -> Result<bool, Refusal> {
    let source = alike(alloc, 4, 1, 2)?;
    let source = Source::read(alloc, source.as_bytes())?;
    match listed(alloc, Form::Triples, None, source)? {
        Reply::Listing(listing) => in_pieces(alloc, &listing),
        _ => Ok(false),
    }
}

pub(crate) fn is_found<R: Threads + Wait + Sync>(rt: &R, alloc: Global) -> Result<bool, Refusal> {
    let (Some(budget), Some(workers)) = (Budget::new(100_000), Workers::new(2)) else {
        return Ok(false);
    };
    let wanted = Wanted {
        budget,
        workers,
        version: CertVersion::ONE,
        limit: ONE_SKIP_CERTS.len(),
    };
    let source = Source::read(alloc, ONE_SKIP.as_bytes())?;
    let reply = found(rt, alloc, source.outline(), wanted, &OpenGate)?;
    let FindReply::Found(found) = reply else {
        return Ok(false);
    };
    let mut sheet = Sheet::<256>::new();
    let answer = found.write(alloc, &mut sheet);
    of_output(answer, sheet.written(), ONE_SKIP_CERTS.as_bytes())
}

const ERASED: &str =
    "var x;\ncobegin\n  await true then x := x + 1\n//\n  await true then x := x + 1\ncoend\n";

pub(crate) fn is_erased(alloc: Global) -> Result<bool, Refusal> {
    let source = Source::read(alloc, AUXILIARY_ADD.as_bytes())?;
    Ok(is(&erased(alloc, source.outline(), false)?, ERASED, 0))
}

pub(crate) fn is_migrated(alloc: Global) -> Result<bool, Refusal> {
    let migrated = migrated(alloc, ONE_SKIP_CERTS.as_bytes())?;
    Ok(is(&migrated, ONE_SKIP_CERTS_2, 0))
}

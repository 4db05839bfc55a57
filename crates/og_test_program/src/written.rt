//! Listings and certificates, written to writers that fail.

ghost use Rattle.std.specs.Prelude.{◌<◌};

use crate::answers::LISTED;
use crate::asked::{found_by, found_within};
use crate::devices::{Capture, Failure};
use og_command_check::{FindReply, FoundCertificates};
use og_io::{CertVersion, OutputFault, WriteFault};
use og_report_conditions::{Form, Listing, Reply, listed};
use og_test_samples::{ONE_SKIP, ONE_SKIP_CERTS, ONE_SKIP_CERTS_2, alike};
use og_typed::Source;
use std::alloc::Global;
use std::process::Abort;
use std::test::Fail;

// A text that is written as it is made.
trait Made {
    fn write_on(&self, alloc: Global, paper: &mut Capture) -> Result<u8, OutputFault>;
}

impl Made for Listing {
    fn write_on(&self, alloc: Global, paper: &mut Capture) -> Result<u8, OutputFault> {
        self.write(alloc, paper)
    }
}

impl Made for FoundCertificates {
    fn write_on(&self, alloc: Global, paper: &mut Capture) -> Result<u8, OutputFault> {
        self.write(alloc, paper)
    }
}

const FAILED: Result<u8, OutputFault> = Err(OutputFault::NotWritten(WriteFault::Failed));

// Each write fails in turn, and what was written stays.
fn expect_cut<M: Made, R: Abort>(rt: &R, alloc: Global, made: &M, whole: &[u8], step: usize)
    requires { 0 < step }
{
    for at in (1..whole.len() + 1).step_by(step) {
        let mut paper = Capture::new(alloc, at, Failure::Fails);
        assert!(rt; made.write_on(alloc, &mut paper) == FAILED, "at {at}");
        let written = paper.bytes.as_slice();
        assert!(rt;
            whole.starts_with(written) && written.len() == at - 1,
            "at {at}"
        );
    }
}

// Each write is made, and then the flush fails.
fn expect_whole<M: Made, R: Abort>(rt: &R, alloc: Global, made: &M, whole: &[u8]) {
    for expected in [Ok(0), FAILED] {
        let mut paper = Capture::new(alloc, whole.len() + 1, Failure::Fails);
        paper.fails_flush = expected.is_err();
        assert!(rt; made.write_on(alloc, &mut paper) == expected);
        assert!(rt; paper.bytes.as_slice() == whole);
    }
}

// The listing of all conditions of a source.
fn listing_of(alloc: Global, source: &str) -> Result<Listing, Fail> {
    match listed(
        alloc,
        Form::Facts,
        None,
        Source::read(alloc, source.as_bytes())?,
    )? {
        Reply::Listing(listing) => Ok(listing),
        _ => Err(Fail::new("there is no listing")),
    }
}

// A writer that fails in the middle of a listing has what came before.
#[test]
fn a_listing(rt: HostRuntime) -> Result<(), Fail> {
    let listing = listing_of(rt.alloc(), ONE_SKIP)?;
    expect_cut(&rt, rt.alloc(), &listing, LISTED.as_bytes(), 1);
    expect_whole(&rt, rt.alloc(), &listing, LISTED.as_bytes());
    Ok(())
}

// So it has where the listing is written in several pieces.
#[test]
fn a_long_listing(rt: HostRuntime) -> Result<(), Fail> {
    let source = alike(rt.alloc(), 4, 1, 2)?;
    let listing = listing_of(rt.alloc(), source.as_str())?;
    let mut whole = Capture::new(rt.alloc(), 0, Failure::Fails);
    assert!(rt; listing.write(rt.alloc(), &mut whole) == Ok(0));
    assert!(rt; 8_192 < whole.bytes.len());
    expect_cut(&rt, rt.alloc(), &listing, &whole.bytes, 3_001);
    Ok(())
}

const TEXTS: [(u32, &str); 2] = [(1, ONE_SKIP_CERTS), (2, ONE_SKIP_CERTS_2)];

// So it has where certificates are written, in either version.
#[test]
fn certificates(rt: HostRuntime) -> Result<(), Fail> {
    for (number, text) in &TEXTS {
        let version = CertVersion::new(*number).ok_or("no version")?;
        let FindReply::Found(found) = found_by(&rt, rt.alloc(), ONE_SKIP, 1, version)? else {
            return Err(Fail::new("the text is too long"));
        };
        expect_cut(&rt, rt.alloc(), &found, text.as_bytes(), 1);
        expect_whole(&rt, rt.alloc(), &found, text.as_bytes());
    }
    Ok(())
}

// For each version and limit how many bytes version 2 is said to have, where the text would be
// longer: of the two above the first has 78 bytes, and the second 69.
const LIMITS: [(u32, usize, Option<Option<usize>>); 7] = [
    (1, 78, None),
    (1, 77, Some(Some(69))),
    (1, 69, Some(Some(69))),
    (1, 68, Some(None)),
    (1, 9, Some(None)),
    (2, 69, None),
    (2, 68, Some(None)),
];

// Certificates whose text would be too long are not printed, and the message says how long version
// 2 is.
#[test]
fn certificates_of_many_bytes(rt: HostRuntime) -> Result<(), Fail> {
    for (number, limit, expected) in &LIMITS {
        let version = CertVersion::new(*number).ok_or("no version")?;
        let reply = match found_within(&rt, rt.alloc(), ONE_SKIP, 1, version, *limit)? {
            FindReply::Found(_) => None,
            FindReply::TooLong(long) => Some((long.limit, long.second)),
        };
        let expected = expected.map(|second| (*limit, second));
        assert!(rt; reply == expected, "version {number}, {limit} bytes");
    }
    Ok(())
}

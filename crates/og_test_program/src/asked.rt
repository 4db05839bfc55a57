//! Checks and searches by this many workers.

use og_command_check::{Answer, CERTS_LIMIT, FindReply, Options, Wanted, checked, found};
use og_find::Missing;
use og_io::{Budget, CertVersion, Workers};
use og_judge::Refusal;
use og_pool::{Gate, OpenGate};
use og_test_samples::outline_of;
use std::alloc::Global;
use std::sync::Wait;
use std::test::Fail;
use std::thread::Threads;

/// The answer of a check; none where the source or the certificates are refused.
pub(crate) fn checked_by<G: Gate, R: Threads + Wait + Sync>(
    rt: &R,
    alloc: Global,
    source: &str,
    certs: &[u8],
    workers: u32,
    gate: &G,
) -> Result<Option<Answer>, Fail> {
    let options = Options {
        workers: Workers::new(workers).ok_or("no number of workers")?,
        json: false,
    };
    match checked(rt, alloc, source.as_bytes(), certs, options, gate) {
        Err(Refusal::Input(_)) => Ok(None),
        checked => Ok(Some(checked?.answer)),
    }
}

/// The result of a search whose text may have this many bytes.
pub(crate) fn found_within<R: Threads + Wait + Sync>(
    rt: &R,
    alloc: Global,
    source: &str,
    workers: u32,
    version: CertVersion,
    limit: usize,
) -> Result<FindReply, Fail> {
    let wanted = Wanted {
        budget: Budget::new(100_000).ok_or("no budget")?,
        workers: Workers::new(workers).ok_or("no number of workers")?,
        version,
        limit,
    };
    let outline = outline_of(alloc, source)?;
    let found = found(rt, alloc, &outline, wanted, &OpenGate);
    drop(outline);
    Ok(found?)
}

/// What a search finds.
pub(crate) fn found_by<R: Threads + Wait + Sync>(
    rt: &R,
    alloc: Global,
    source: &str,
    workers: u32,
    version: CertVersion,
) -> Result<FindReply, Fail> {
    found_within(rt, alloc, source, workers, version, CERTS_LIMIT)
}

/// A text of certificates that a search found, its status, and how many conditions have none.
pub(crate) fn certs_by<R: Threads + Wait + Sync>(
    rt: &R,
    alloc: Global,
    source: &str,
    workers: u32,
    version: CertVersion,
) -> Result<(Vec<u8>, u8, Missing), Fail> {
    let FindReply::Found(found) = found_by(rt, alloc, source, workers, version)? else {
        return Err(Fail::new("the text is too long"));
    };
    let mut text = Vec::new(alloc);
    let status = found.write(alloc, &mut text).or(Err("not written"))?;
    Ok((text, status, found.missing))
}

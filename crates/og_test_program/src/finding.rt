//! Certificates that are found, checked again.

use crate::asked::{certs_by, checked_by};
use og_find::Missing;
use og_io::CertVersion;
use og_pool::OpenGate;
use og_test_samples::{EQUAL_ADD, TWO_ADD, alike};
use std::alloc::Global;
use std::process::Abort;
use std::sync::Wait;
use std::test::Fail;
use std::thread::Threads;

// The certificates that 2 workers find are in this version, this many conditions have none, and the
// report of a check of it ends so.
fn expect_found<R: Threads + Wait + Sync + Abort>(
    rt: &R,
    alloc: Global,
    version: CertVersion,
    source: &str,
    missing: Missing,
    report: &str,
) -> Result<(), Fail> {
    let (certs, status, lacking) = certs_by(rt, alloc, source, 2, version)?;
    let opening: &[u8] = if version.is_second() {
        b"og-cert 2\n"
    } else {
        b"og-cert 1\n"
    };
    assert!(rt; certs.starts_with(opening));
    assert_eq!(rt; lacking, missing);
    assert_eq!(rt; status, u8::from(missing.count > 0));
    let answer = checked_by(rt, alloc, source, &certs, 2, &OpenGate)?.ok_or("refused")?;
    assert!(rt; answer.text.ends_with(report.as_bytes()));
    Ok(())
}

// Sources, how many conditions lack a certificate, and the end of the report.
const FOUND: [(&str, u32, &str); 2] = [
    (
        TWO_ADD,
        0,
        "conditions: 12\nproved: 12\nsafe: yes\nunblocked: yes\n",
    ),
    (
        EQUAL_ADD,
        3,
        "conditions: 12\nproved: 9\nsafe: no\nunblocked: yes\n",
    ),
];

#[test]
fn certificates_that_are_found(rt: HostRuntime) -> Result<(), Fail> {
    let second = CertVersion::new(2).ok_or("no version")?;
    for (source, count, report) in &FOUND {
        let missing = Missing {
            count: *count,
            conditions: 12,
        };
        expect_found(&rt, rt.alloc(), CertVersion::ONE, source, missing, report)?;
        expect_found(&rt, rt.alloc(), second, source, missing, report)?;
    }
    Ok(())
}

const REPORT: &[u8] = b"conditions: 4938\nproved: 4938\nsafe: yes\nunblocked: yes\n";

fn expect_proved<R: Threads + Wait + Sync + Abort>(
    rt: &R,
    alloc: Global,
    source: &str,
) -> Result<(), Fail> {
    let (certs, status, _) = certs_by(rt, alloc, source, 3, CertVersion::ONE)?;
    assert_eq!(rt; status, 0);
    for workers in [1, 2, 64] {
        let answer = checked_by(rt, alloc, source, &certs, workers, &OpenGate)?;
        let answer = answer.ok_or("refused")?;
        assert!(rt; answer.text.as_slice() == REPORT, "by {workers} workers");
        assert!(rt; answer.status == 0, "by {workers} workers");
    }
    Ok(())
}

// Eight processes of 40 statements: each condition is proved, by any number of workers.
#[test]
fn certificates_of_many_conditions(rt: HostRuntime) -> Result<(), Fail> {
    let source = alike(rt.alloc(), 2, 38, 7)?;
    expect_proved(&rt, rt.alloc(), source.as_str())
}

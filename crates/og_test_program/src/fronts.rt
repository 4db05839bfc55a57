//! Every front of a source, and of its certificates.

use crate::asked::{certs_by, checked_by};
use og_command_check::Answer;
use og_io::CertVersion;
use og_pool::OpenGate;
use og_test_samples::TWO_ADD;
use std::alloc::Global;
use std::process::Abort;
use std::str;
use std::sync::Wait;
use std::test::Fail;
use std::thread::Threads;

// How many conditions the outline has.
const CONDITIONS: usize = 12;

// A front of a source is refused, but for the one that lacks the last line end alone.
fn expect_sources<R: Threads + Wait + Sync + Abort>(
    rt: &R,
    alloc: Global,
    certs: &str,
) -> Result<(), Fail> {
    for end in 0..=TWO_ADD.len() {
        let source = TWO_ADD.get(..end).expect(rt, "ASCII");
        let answer = checked_by(rt, alloc, source, certs.as_bytes(), 1, &OpenGate)?;
        let status = answer.map(|answer| answer.status);
        let expected = (end + 1 >= TWO_ADD.len()).then_some(0);
        assert!(rt; status == expected, "source of {end} bytes");
    }
    Ok(())
}

// How many certificates there are in a front that ends with the first line or with a whole one.
fn whole_certificates(front: &str, rest: &str) -> Option<usize> {
    let is_whole = front.ends_with('\n') && (rest.is_empty() || rest.starts_with("cond "));
    is_whole.then_some(front.matches("cond ").count())
}

// Whether this is the answer where this many conditions have a certificate. The last condition has
// no part in the status.
fn counts_certificates(answer: &Answer, certificates: usize) -> bool {
    let Some(lacking) = CONDITIONS.checked_sub(certificates) else {
        return false;
    };
    let Ok(text) = str::from_utf8(&answer.text) else {
        return false;
    };
    let missing = text.matches(": missing\n").count();
    missing == lacking && answer.status == u8::from(lacking > 1)
}

fn expect_certs<R: Threads + Wait + Sync + Abort>(
    rt: &R,
    alloc: Global,
    certs: &str,
) -> Result<(), Fail> {
    let mut whole = 0usize;
    for end in 0..=certs.len() {
        let (front, rest) = certs.split_at_checked(end).expect(rt, "ASCII");
        let answer = checked_by(rt, alloc, TWO_ADD, front.as_bytes(), 1, &OpenGate)?;
        let is_expected = match (whole_certificates(front, rest), &answer) {
            (None, None) => true,
            (Some(count), Some(answer)) => counts_certificates(answer, count),
            _ => false,
        };
        assert!(rt; is_expected, "certificates of {end} bytes");
        whole = whole.saturating_add(usize::from(answer.is_some()));
    }
    assert_eq!(rt; whole, CONDITIONS + 1);
    Ok(())
}

#[test]
fn fronts(rt: HostRuntime) -> Result<(), Fail> {
    let alloc = rt.alloc();
    let (text, _, _) = certs_by(&rt, alloc, TWO_ADD, 1, CertVersion::ONE)?;
    let certs = str::from_utf8(&text).expect(&rt, "ASCII");
    expect_sources(&rt, alloc, certs)?;
    expect_certs(&rt, alloc, certs)
}

//! Texts of certificates that are read, refused and written again.

use super::lines::with_lines;
use og_cert_read::{read_certs, write_certs_2};
use og_cert_text::{CertFile, CertTextError, write_certs};
use std::alloc::{AllocError, Global};
use std::process::Abort;
use std::test::Fail;

// What becomes of a text.
fn text_of(alloc: Global, text: &[u8]) -> Result<String, AllocError> {
    let fault = match read_certs(alloc, text) {
        Ok(_) => return String::from_str(alloc, "read"),
        Err(CertTextError::Memory) => return Err(AllocError),
        Err(CertTextError::Fault(fault)) => fault,
    };
    let number = fault.number();
    let name = fault.name();
    match fault.line() {
        Some(line) => format!(in alloc; "{number} {name} at line {line}"),
        None => format!(in alloc; "{number} {name}"),
    }
}

// This becomes of the text in which `|` stands for the end of a line.
fn expect_text(rt: &impl Abort, alloc: Global, text: &str, expected: &str) -> Result<(), Fail> {
    let lines = with_lines(alloc, text)?;
    let got = text_of(alloc, lines.as_bytes())?;
    assert_eq!(rt; got.as_str(), expected, "{text}");
    Ok(())
}

// A text may have 64 MiB.
#[test]
fn lengths(rt: HostRuntime) -> Result<(), Fail> {
    let mut long = vec![in rt.alloc(); 32; 67_108_865]?;
    assert_eq!(rt; text_of(rt.alloc(), &long)?.as_str(), "23 CertsTooLong");
    long.truncate(67_108_864);
    assert_eq!(rt; text_of(rt.alloc(), &long)?.as_str(), "24 BadVersion");
    Ok(())
}

// A text, and what becomes of it.
const TEXTS: &[(&str, &str)] = &[
    ("og-cert 3|", "24 BadVersion"),
    ("og-cert 1 |", "24 BadVersion"),
    ("|og-cert 1|", "24 BadVersion"),
    ("og-cert 2|", "read"),
    (
        "og-cert 1|cond 1|close 1*1\r|cond 2|close 1*1|",
        "20 BadLine at line 3",
    ),
    ("og-cert 1|cond 1|close 1*1|cond 1", "20 BadLine at line 4"),
    (
        "og-cert 1|cond 1|close 1*1|close 1*1|",
        "20 BadLine at line 4",
    ),
    ("og-cert 1|close 1*1|", "20 BadLine at line 2"),
    ("og-cert 1|cond 1|cond 2|", "20 BadLine at line 3"),
    (
        "og-cert 1|cond 1|branch 0|close 1*1|",
        "20 BadLine at line 5",
    ),
    (
        "og-cert 1|cond 1|split 1 2|close 1*1|",
        "20 BadLine at line 5",
    ),
    ("og-cert 1|cond 1|split 1 0|", "read"),
    ("og-cert 1||", "20 BadLine at line 2"),
    ("og-cert 1|cond 2|close 1*1|cond 1|close 1*1|", "read"),
    ("og-cert 1|cond 0|close 1*1|", "20 BadLine at line 2"),
    ("og-cert 1|cond 01|close 1*1|", "20 BadLine at line 2"),
    (
        "og-cert 1|cond 1000000000|close 1*1|",
        "20 BadLine at line 2",
    ),
    ("og-cert 1|cond 999999999|close 1*1|", "read"),
    ("og-cert 2|cond 1|close 1*1|cond 2|same 1|", "read"),
    (
        "og-cert 2|cond 9|close 1*1|cond 2|same 9|cond 3|same 2|",
        "read",
    ),
    ("og-cert 2|cond 1|same 1|", "20 BadLine at line 3"),
    (
        "og-cert 2|cond 1|same 2|cond 2|close 1*1|",
        "20 BadLine at line 3",
    ),
    (
        "og-cert 2|cond 1|close 1*1|cond 2|same 01|",
        "20 BadLine at line 5",
    ),
    (
        "og-cert 2|cond 1|close 1*1|cond 2|sum 1*1|same 1|",
        "20 BadLine at line 6",
    ),
    (
        "og-cert 2|cond 1|close 1*1|cond 2|branch 0|same 1|",
        "20 BadLine at line 6",
    ),
    (
        "og-cert 2|cond 1|close 1*1|cond 2|same 1|same 1|",
        "20 BadLine at line 6",
    ),
    ("og-cert 2|cond 1|close 1*1|same 1|", "20 BadLine at line 4"),
];

#[test]
fn texts(rt: HostRuntime) -> Result<(), Fail> {
    for (text, expected) in TEXTS {
        expect_text(&rt, rt.alloc(), text, expected)?;
    }
    Ok(())
}

// First lines of a certificate that are bad, whatever stands after them.
const BAD: &[&str] = &[
    "sum 9223372036854775808*1",
    "sum",
    "sum ",
    "close",
    "close 1*1 ",
    "close  1*1",
    "close 1*1  1*1",
    " close 1*1",
    "close 01*1",
    "close 1*01",
    "close 1*0",
    "close 1*1000000000",
    "close 1*l1000000000",
    "close 1*l",
    "close 1*x0",
    "close *1",
    "close 1",
    "close -1*1",
    "Close 1*1",
    "cut 1",
    "cut 0 1",
    "cut 1 -1",
    "cut 1  1",
    "cut 1 1 1",
    "cut 1 9223372036854775808",
    "split 1",
    "split 0 1",
    "split 1 10001",
    "branch",
    "branch -0",
    "branch +1",
    "branch 0 0*v0",
    "branch 0 1*0",
    "branch 0 1*v1 1*v1",
    "branch 0 1*v1 1*v0",
    "branch 0 -0*v1",
    "branch 170141183460469231731687303715884105728",
    "branch -170141183460469231731687303715884105729",
    "same 1",
    "cond 1",
];

// Certificates that are read.
const GOOD: &[&str] = &[
    "sum 9223372036854775807*999999999 0*l0 1*u999999999|close 1*1",
    "cut 999999999 0|close 1*1",
    "cut 1 9223372036854775807|close 1*1",
    "branch -170141183460469231731687303715884105728|close 1*1|close 1*1",
    "branch 170141183460469231731687303715884105727 1*v0 -3*v999999999|close 1*1|close 1*1",
    "split 999999999 1|close 1*1",
];

#[test]
fn parts_of_lines(rt: HostRuntime) -> Result<(), Fail> {
    for line in BAD {
        let text = format!(in rt.alloc(); "og-cert 1|cond 7|{line}|close 1*1|close 1*1|")?;
        expect_text(&rt, rt.alloc(), text.as_str(), "20 BadLine at line 3")?;
    }
    for lines in GOOD {
        let text = format!(in rt.alloc(); "og-cert 1|cond 7|{lines}|")?;
        expect_text(&rt, rt.alloc(), text.as_str(), "read")?;
    }
    Ok(())
}

// The start of a certificate, the part repeated after it and how often, and once more.
type Parts<'a> = (&'a str, &'a str, usize, &'a str, &'a str, usize);

fn repeated(alloc: Global, parts: Parts<'_>) -> Result<String, AllocError> {
    let (start, first, times, middle, second, count) = parts;
    let first = first.repeat(alloc, times)?;
    let second = second.repeat(alloc, count)?;
    [
        "og-cert 1|cond 1|",
        start,
        first.as_str(),
        middle,
        second.as_str(),
    ]
    .concat(alloc)
}

// What becomes of certificates, and those of which it does: branches and splits in one another, and
// lines of more than 64 KiB.
const LARGE: &[(&str, &[Parts<'_>])] = &[
    (
        "read",
        &[
            ("", "branch 0|", 200, "", "close 1*1|", 201),
            ("", "split 1 2|", 199, "split 1 0|", "close 1*1|", 199),
            ("sum", " 1*1", 20_000, "|close 1*1|", "", 0),
            ("close", " 1*1", 20_000, "|", "", 0),
        ],
    ),
    (
        "22 TooDeep at line 203",
        &[
            ("", "branch 0|", 201, "", "", 0),
            ("", "branch 0|", 201, "split 1 0|", "", 0),
            ("", "split 1 2|", 199, "split 1 1|split 1 0|", "", 0),
        ],
    ),
    (
        "20 BadLine at line 3",
        &[
            ("close", " 1*1", 20_000, " 1|", "", 0),
            ("close", "    ", 20_000, "|", "", 0),
            ("branch 0", " 1*v0", 20_000, "|", "", 0),
        ],
    ),
];

fn expect_repeated(
    rt: &impl Abort,
    alloc: Global,
    rows: &[Parts<'_>],
    expected: &str,
) -> Result<(), Fail> {
    for parts in rows {
        let text = repeated(alloc, *parts)?;
        expect_text(rt, alloc, text.as_str(), expected)?;
    }
    Ok(())
}

#[test]
fn large_certificates(rt: HostRuntime) -> Result<(), Fail> {
    for (expected, rows) in LARGE {
        expect_repeated(&rt, rt.alloc(), rows, expected)?;
    }
    Ok(())
}

fn file_of(alloc: Global, text: &str) -> Result<CertFile, Fail> {
    Ok(read_certs(alloc, with_lines(alloc, text)?.as_bytes())?)
}

// Texts in version 1 that are written as they stand.
const IN_VERSION_1: &[&str] = &[
    concat!(
        "og-cert 1|cond 999999999|sum 1*1|cut 2 2|branch -3 -2*v0 1*v7|close 0*l0|",
        "close 9223372036854775807*u999999999|",
    ),
    "og-cert 1|cond 1|close 1*1|cond 2|close 1*1|cond 3|close 1*1|cond 4|close 1*1|",
    concat!(
        "og-cert 1|cond 1|split 3 2|close 1*2 1*4|close 1*1 1*4|cond 2|split 3 2|close 1*2 1*4|clos",
        "e 1*1 1*4|cond 3|split 3 2|close 1*2 1*4|close 1*1 1*4|cond 4|split 3 2|close 1*2 1*4|clos",
        "e 1*1 1*4|cond 5|close 1*3|"
    ),
    "og-cert 1|cond 1|split 3 2|close 1*2 1*4|close 1*1 1*4|cond 5|close 1*3|",
    concat!(
        "og-cert 1|cond 3|sum 1*1 2*l0|cut 4 2|branch -3 1*v0 -7*v12|close 1*5|split 2 3|close 1*6|",
        "close 0*1|sum 1*1|close 1*7|"
    ),
];

#[test]
fn reading_back(rt: HostRuntime) -> Result<(), Fail> {
    for text in IN_VERSION_1 {
        let written = write_certs(rt.alloc(), &file_of(rt.alloc(), text)?)?;
        let wanted = with_lines(rt.alloc(), text)?;
        assert_eq!(rt; written.as_slice(), wanted.as_bytes(), "{text}");
    }
    Ok(())
}

// Texts, and how each is written in version 2: the least number that has the certificate,
// whatever the text named, and where the line `same` is shorter.
const IN_VERSION_2: &[(&str, &str)] = &[
    (
        "og-cert 2|cond 9|close 1*1|cond 7|close 1*2|cond 2|same 9|cond 8|same 7|cond 9999|same 2|",
        "og-cert 2|cond 2|close 1*1|cond 7|close 1*2|cond 8|same 7|cond 9|same 2|cond 9999|same 2|",
    ),
    (
        "og-cert 1|cond 999|close 1*1|cond 1000|close 1*1|cond 2000|close 1*2|cond 2001|close 1*2|",
        "og-cert 2|cond 999|close 1*1|cond 1000|same 999|cond 2000|close 1*2|cond 2001|close 1*2|",
    ),
];

#[test]
fn version_2_is_written(rt: HostRuntime) -> Result<(), Fail> {
    for (text, expected) in IN_VERSION_2 {
        let written = write_certs_2(rt.alloc(), &file_of(rt.alloc(), text)?)?;
        let wanted = with_lines(rt.alloc(), expected)?;
        assert_eq!(rt; written.as_slice(), wanted.as_bytes(), "{text}");
        assert_eq!(rt; text_of(rt.alloc(), &written)?.as_str(), "read");
    }
    Ok(())
}

//! The verdicts of the finder on conditions, alone and by several workers.

ghost use Rattle.std.specs.Prelude.{◌<◌, ◌≤◌, length};

use crate::tests::claims::{Claim, expect};
use crate::tests::made::{deep, different, many, multiplied, queue};
use crate::tests::sources::{LARGE, NO_FACTS, NOT_EVEN, TURNED};
use og_cert_text::{CertFile, put_cert, write_certs};
use og_cond::Condition;
use og_find::{Missing, Verdict, examine, find, mark};
use og_find_all::{FoundText, examine_all, find_all};
use og_pool::OpenGate;
use og_test_samples::{AUXILIARY_ADD, EQUAL_ADD, NESTED, TWO_ADD, alike};
use std::alloc::{AllocError, Global};
use std::process::Abort;
use std::sync::Wait;
use std::test::Fail;
use std::thread::Threads;

const BUDGET: u64 = 100_000;

const GREATEST_BUDGET: u64 = 1_000_000_000;

#[derive(Clone, Copy)]
pub(crate) struct Expected<'a> {
    budget: u64,
    // A letter for each condition: true, false or open.
    letters: &'a str,
    // The processes are alike, so that conditions of one may have the certificates of the other.
    are_alike: bool,
}

// How many of these verdicts come without a certificate.
fn without_certificate(letters: &str) -> usize {
    letters.bytes().filter(|letter| *letter != b't').count()
}

fn letter(verdict: &Verdict) -> u8 {
    match verdict {
        Verdict::True(_) => b't',
        Verdict::False(_) => b'f',
        Verdict::Open => b'o',
    }
}

// Adds the certificate that is found of the condition. Its letter, or `x` where `find` and
// `examine` say different things.
fn letter_alone(
    alloc: Global,
    file: &mut CertFile,
    number: u32,
    condition: &Condition,
    budget: u64,
) -> Result<u8, Fail> {
    let letter = letter(&examine(alloc, condition, budget)?);
    match find(alloc, condition, budget)? {
        Some(cert) => {
            file.add(number, cert)?;
            Ok(if letter == b't' { letter } else { b'x' })
        }
        None => Ok(if letter == b't' { b'x' } else { letter }),
    }
}

// The letters and the text of the certificates that searches of each condition alone come to.
fn found_alone(alloc: Global, list: &[Condition], budget: u64) -> Result<(Vec<u8>, Vec<u8>), Fail> {
    let mut file = CertFile::new(alloc);
    let mut letters = Vec::new(alloc);
    let mut number = 0u32;
    for condition in list {
        number = number.saturating_add(1);
        letters.push(letter_alone(alloc, &mut file, number, condition, budget)?)?;
    }
    let text = write_certs(alloc, &file);
    drop(file);
    Ok((letters, text?))
}

// The conditions that are searched, and what searches them.
#[derive(Clone, Copy)]
pub(crate) struct Finder<'r, R> {
    pub(crate) rt: &'r R,
    pub(crate) alloc: Global,
    pub(crate) list: &'r [Condition<'r>],
}

impl<'r, R: Threads + Wait + Sync + Abort> Finder<'r, R> {
    // The letters that this many workers find.
    fn letters(&self, budget: u64, workers: u32) -> Result<Vec<u8>, Fail>
        requires workers { (0 < workers) × (workers ≤ 64) }
        requires few { length self.now.list.now ≤ 999999999 }
    {
        let (rt, list) = (self.rt, self.list);
        let findings = examine_all(rt, self.alloc, list, budget, workers, &OpenGate)?;
        let mut letters = Vec::with_capacity(self.alloc, list.len())?;
        for index in 0..list.len() {
            let letter = match findings.verdict(index) {
                Some(verdict) => letter(verdict),
                None => b'-',
            };
            letters.push(letter)?;
        }
        assert!(rt; findings.verdict(list.len()).is_none());
        drop(findings);
        Ok(letters)
    }

    // The text of the certificates that this many workers find, and how many conditions have none.
    fn found(&self, budget: u64, workers: u32) -> Result<(Vec<u8>, usize), Fail>
        requires workers { (0 < workers) × (workers ≤ 64) }
        requires few { length self.now.list.now ≤ 999999999 }
    {
        let file = find_all(self.rt, self.alloc, self.list, budget, workers, &OpenGate)?;
        let missing = Missing::of(&file, self.list.len() as u32).count;
        let text = write_certs(self.alloc, &file);
        drop(file);
        Ok((text?, missing as usize))
    }

    // As it is written straight from the findings.
    fn written(&self, budget: u64, workers: u32) -> Result<(Vec<u8>, usize), Fail>
        requires workers { (0 < workers) × (workers ≤ 64) }
        requires few { length self.now.list.now ≤ 999999999 }
    {
        let (rt, alloc) = (self.rt, self.alloc);
        let findings = examine_all(rt, alloc, self.list, budget, workers, &OpenGate)?;
        let FoundText::Within(written) = findings.text(rt, alloc, workers, usize::MAX)? else {
            return Err(Fail::new("the text is too long"));
        };
        let missing = written.missing;
        let mut text = Vec::new(alloc);
        let done = written.certificates.write(alloc, &mut text);
        drop(written);
        assert!(rt; done.is_ok() && missing.conditions as usize == self.list.len());
        Ok((text, missing.count as usize))
    }

    fn expect_of_workers(
        &self,
        wanted: &Expected<'_>,
        text: &[u8],
        workers: u32,
    ) -> Result<(), Fail>
        requires workers { (0 < workers) × (workers ≤ 64) }
        requires few { length self.now.list.now ≤ 999999999 }
    {
        let rt = self.rt;
        let letters = self.letters(wanted.budget, workers)?;
        assert!(rt;
            letters.as_slice() == wanted.letters.as_bytes(),
            "by {workers} workers"
        );
        let (found, missing) = self.found(wanted.budget, workers)?;
        assert!(rt; found.as_slice() == text, "by {workers} workers");
        assert_eq!(rt; missing, without_certificate(wanted.letters));
        let (written, missing) = self.written(wanted.budget, workers)?;
        assert!(rt; written.as_slice() == text, "written by {workers} workers");
        assert_eq!(rt; missing, without_certificate(wanted.letters));
        Ok(())
    }

    // Searches of each condition alone come to the verdicts, and two workers find these
    // certificates and no others. Their text.
    pub(crate) fn expect_found(&self, wanted: &Expected<'_>) -> Result<Vec<u8>, Fail>
        requires few { length self.now.list.now ≤ 999999999 }
    {
        let rt = self.rt;
        let (letters, alone) = found_alone(self.alloc, self.list, wanted.budget)?;
        assert!(rt;
            letters.as_slice() == wanted.letters.as_bytes(),
            "alone: {}",
            wanted.letters
        );
        let (text, missing) = self.found(wanted.budget, 2)?;
        assert!(rt; wanted.are_alike || text == alone, "{}", wanted.letters);
        assert_eq!(rt; missing, without_certificate(wanted.letters));
        Ok(text)
    }

    // Each number of workers has the same result.
    pub(crate) fn expect_by_all(&self, wanted: &Expected<'_>) -> Result<(), Fail>
        requires few { length self.now.list.now ≤ 999999999 }
    {
        let text = self.expect_found(wanted)?;
        for workers in [1, 2, 3, 64] {
            self.expect_of_workers(wanted, &text, workers)?;
        }
        Ok(())
    }

    pub(crate) fn expect_greater_budget(&self) -> Result<(), Fail>
        requires few { length self.now.list.now ≤ 999999999 }
    {
        let rt = self.rt;
        let usual = self.found(BUDGET, 2)?;
        let greatest = self.found(GREATEST_BUDGET, 2)?;
        assert!(rt; usual == greatest);
        Ok(())
    }
}

// The mark of the condition's facts, and the lines of the certificate that is found for it.
fn marked(alloc: Global, condition: &Condition) -> Result<(Option<u64>, Vec<u8>), Fail> {
    let mark = mark(alloc, condition)?.map(|marks| marks.facts);
    let mut lines = Vec::new(alloc);
    if let Some(cert) = find(alloc, condition, BUDGET)? {
        put_cert(&mut lines, &cert)?;
    }
    Ok((mark, lines))
}

// The certificate of the first condition would do for the second too, which finds another.
pub(crate) fn expect_other_sign<R: Abort>(
    rt: &R,
    alloc: Global,
    list: &[Condition],
) -> Result<(), Fail> {
    let first = marked(alloc, list.get(2).expect(rt, "condition 3"))?;
    let second = marked(alloc, list.get(3).expect(rt, "condition 4"))?;
    assert!(rt; first.0 != second.0);
    assert_eq!(rt; first.1.as_slice(), b"close 1*3 1*1\n".as_slice());
    assert_eq!(rt; second.1.as_slice(), b"close 1*3 1*2\n".as_slice());
    Ok(())
}

// A source, a budget, its verdicts, and whether its processes are alike.
const VERDICTS: &[(&str, u64, &str, bool)] = &[
    (TWO_ADD, BUDGET, "tttttttttttt", false),
    (EQUAL_ADD, BUDGET, "ttttttftftft", false),
    (AUXILIARY_ADD, BUDGET, "tttttttttttt", true),
    (NESTED, BUDGET, "tttttttttttffftt", false),
    (NOT_EVEN, BUDGET, "tttt", false),
    (LARGE, BUDGET, "tttfttt", false),
    (NO_FACTS, BUDGET, "tftt", false),
    (NO_FACTS, 0, "oooo", false),
    (NO_FACTS, 1, "tftt", false),
    (TWO_ADD, GREATEST_BUDGET, "tttttttttttt", false),
    (TURNED, BUDGET, "tttttt", false),
];

#[test]
fn verdicts(rt: HostRuntime) -> Result<(), Fail> {
    for (source, budget, letters, are_alike) in VERDICTS {
        let wanted = Expected {
            budget: *budget,
            letters,
            are_alike: *are_alike,
        };
        expect(&rt, rt.alloc(), source, &Claim::ByAll(wanted))?;
    }
    expect(&rt, rt.alloc(), EQUAL_ADD, &Claim::GreaterBudget)?;
    expect(&rt, rt.alloc(), TURNED, &Claim::OtherSign)
}

fn expect_made<R: Threads + Wait + Sync + Abort>(
    rt: &R,
    alloc: Global,
    source: String,
    letters: &str,
) -> Result<(), Fail> {
    let wanted = Expected {
        budget: BUDGET,
        letters,
        are_alike: false,
    };
    expect(rt, alloc, source.as_str(), &Claim::Found(wanted))
}

// Numbers that grow until no search uses them and then beyond `i128`, 10,000 facts, and choices in
// choices.
#[test]
fn made_sources(rt: HostRuntime) -> Result<(), Fail> {
    let alloc = rt.alloc();
    expect_made(&rt, alloc, multiplied(alloc, 2)?, "ttftt")?;
    expect_made(&rt, alloc, multiplied(alloc, 4)?, "toftt")?;
    expect_made(&rt, alloc, multiplied(alloc, 5)?, "toott")?;
    expect_made(&rt, alloc, many(alloc)?, "tftttt")?;
    expect_made(&rt, alloc, deep(alloc)?, "tttftt")
}

// Of 4,938 conditions most have the facts of others.
#[test]
fn many_conditions(rt: HostRuntime) -> Result<(), Fail> {
    let source = alike(rt.alloc(), 2, 38, 7)?;
    let letters = "t".repeat(rt.alloc(), 4938)?;
    let wanted = Expected {
        budget: BUDGET,
        letters: letters.as_str(),
        are_alike: false,
    };
    expect(&rt, rt.alloc(), source.as_str(), &Claim::ByAll(wanted))
}

// Numbers that are all different have no values where there is one value less, and else have some.
#[test]
fn different_numbers(rt: HostRuntime) -> Result<(), Fail> {
    let alloc = rt.alloc();
    for values in 1..7 {
        expect_made(&rt, alloc, different(alloc, values + 1, values)?, "tttt")?;
        expect_made(&rt, alloc, different(alloc, values, values)?, "tftt")?;
    }
    expect_made(&rt, alloc, different(alloc, 8, 7)?, "tttt")
}

// As many entries as values of the counter leave no number for one that waits, and one number more
// does.
#[test]
fn queues(rt: HostRuntime) -> Result<(), Fail> {
    let alloc = rt.alloc();
    for entries in 1..8 {
        expect_made(&rt, alloc, queue(alloc, entries, entries + 1)?, "tftt")?;
        expect_made(&rt, alloc, queue(alloc, entries + 1, entries + 1)?, "tttt")?;
    }
    Ok(())
}

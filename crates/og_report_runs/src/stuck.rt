//! Where a moment of a stuck program has the processes.

ghost use Rattle.std.specs.Prelude.{◌≡◌, IfOk, IfSome, IsTrue, option_map};
ghost use Rattle.og_typed.specs.Plain.{formula};
ghost use Rattle.og_typed.specs.Machine.{todo};
ghost use Rattle.og_typed.specs.Seen.{statement_of};
ghost use Rattle.og_report_text.specs.Assertions.{assertion_text};
ghost use Rattle.og_report_runs.specs.RunDiagnosis.{next_test, IsNext, StandsAt, AreStandsAt};

use crate::placing::number_of;
use crate::standing::{ProcessAt, read_alike};
use og_report_explain::{Stand, Unexplained, test_of, tested};
use og_step::Moment;
use og_subst::Values;
use og_text::Name;
use og_typed::{Assert, Index, Outline, StatementSite};
use std::alloc::{AllocError, Global};

// The test of what process p does next, or its guard.
fn next_test<'a>(moment: &Moment<'a>, p: u32) -> Option<&'a Assert>
    ensures { option_map (λ b. formula b.now) result ≡ next_test (todo moment.now.moment p) }
{
    match moment.head(p) {
        Some(item) => test_of(&item.stmt),
        None => None,
    }
}

// Whether both are there and read alike.
fn are_alike(
    alloc: Global,
    names: &[Name],
    first: Option<&Assert>,
    second: Option<&Assert>,
) -> Result<bool, AllocError>
    ensures { IfOk result (λ yes. IsTrue yes → option_map (assertion_text names.now) (option_map (λ b. formula b.now) first.entry)
        ≡ option_map (assertion_text names.now) (option_map (λ b. formula b.now) second.entry)) }
{
    match (first, second) {
        (Some(first), Some(second)) => read_alike(alloc, names, first, second),
        _ => Ok(false),
    }
}

// A process at a moment of a stuck program, and the index of its outline.
#[derive(Clone, Copy)]
struct Seat<'m, 'a> {
    process: ProcessAt<'m, 'a>,
    index: &'m Index<'a>,
}

impl<'m, 'a> Seat<'m, 'a> {
    // Where the moment has the process, which waits or has ended at the byte offset `end`.
    fn stand_of(&self, alloc: Global, end: u32) -> Result<Option<Stand<'a>>, AllocError>
        requires index { self.now.index.now ≡ self.now.process.outline.now }
        requires outline { self.now.process.moment.now.outline ≡ self.now.process.outline.now }
        ensures { IfOk result (λ found. IfSome found (StandsAt self.now.process.outline.now
            self.now.process.moment.now.moment self.now.process.p)) }
    {
        match self.process.moment.head(self.process.p) {
            Some(item) => self.waits_at(alloc, item.at),
            None => self.ended_at(alloc, end),
        }
    }

    // The statement at the byte offset `at`, where the process waits there.
    fn waits_at(&self, alloc: Global, at: u32) -> Result<Option<Stand<'a>>, AllocError>
        requires index { self.now.index.now ≡ self.now.process.outline.now }
        requires outline { self.now.process.moment.now.outline ≡ self.now.process.outline.now }
        ensures { IfOk result (λ found. IfSome found (StandsAt self.now.process.outline.now
            self.now.process.moment.now.moment self.now.process.p)) }
    {
        let values = Values::of(alloc, self.process.moment.state())?;
        let Some(test) = tested(self.index, at, false, &values) else {
            return Ok(None);
        };
        let site = test.site;
        if number_of(self.process.outline, site.part) != self.process.p {
            return Ok(None);
        }
        if !self.is_next(alloc, &site)? {
            return Ok(None);
        }
        Ok(Some(Stand::Waits(site)))
    }

    // Whether the process stands before this statement, and what it tests next reads as the test
    // there.
    fn is_next(&self, alloc: Global, site: &StatementSite) -> Result<bool, AllocError>
        requires { self.now.process.moment.now.outline ≡ self.now.process.outline.now }
        ensures { IfOk result (λ yes. IsTrue yes → IsNext self.now.process.outline.now
            self.now.process.moment.now.moment self.now.process.p (statement_of site.now).piece) }
    {
        if !self.process.is_before(alloc, site)? {
            return Ok(false);
        }
        let test = test_of(&site.item.stmt);
        let next = next_test(self.process.moment, self.process.p);
        are_alike(alloc, self.process.outline.names(), next, test)
    }

    // The assertion at the byte offset `at`, where the process has ended there.
    fn ended_at(&self, alloc: Global, at: u32) -> Result<Option<Stand<'a>>, AllocError>
        requires index { self.now.index.now ≡ self.now.process.outline.now }
        requires outline { self.now.process.moment.now.outline ≡ self.now.process.outline.now }
        ensures { IfOk result (λ found. IfSome found (StandsAt self.now.process.outline.now
            self.now.process.moment.now.moment self.now.process.p)) }
    {
        let (outline, moment, p) = (self.process.outline, self.process.moment, self.process.p);
        let Some(site) = self.index.note(at) else {
            return Ok(None);
        };
        if number_of(outline, site.part) != p || !moment.is_done(p) {
            return Ok(None);
        }
        if !self.process.is_at(alloc, site.note)? {
            return Ok(None);
        }
        Ok(Some(Stand::Ended(site)))
    }
}

/// Where the moment has each process, the main process left out.
///
/// # Errors
///
/// `Open` where one of them neither waits nor has ended at a place of its own, or a value leaves
/// 128 bits. `Memory` where an allocation was refused.
pub(crate) fn stands_at<'a>(
    alloc: Global,
    outline: &Outline,
    index: &Index<'a>,
    moment: &Moment<'a>,
) -> Result<Vec<Stand<'a>>, Unexplained>
    requires index { index.now ≡ outline.now }
    requires outline { moment.now.outline ≡ outline.now }
    ensures { IfOk result (λ v. AreStandsAt outline.now moment.now.moment v.items) }
{
    outline.follows_rule();
    let processes = outline.processes();
    let mut stands = Vec::new(alloc);
    for p in 0..processes.len() {
        let end = processes[p].last.at;
        let seat = Seat {
            process: ProcessAt {
                outline,
                moment,
                p: p as u32,
            },
            index,
        };
        let Some(stand) = seat.stand_of(alloc, end)? else {
            return Err(Unexplained::Open);
        };
        stands.push(stand)?;
    }
    Ok(stands)
}

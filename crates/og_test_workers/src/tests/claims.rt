//! The expected conditions of a source.

ghost use Rattle.std.specs.Prelude.{◌≤◌, length};

use crate::tests::checks::{expect_each_once, expect_no_hold};
use crate::tests::finder::{Expected, Finder, expect_other_sign};
use og_cond::{Condition, conditions};
use og_test_samples::outline_of;
use og_typed::Outline;
use std::alloc::Global;
use std::process::Abort;
use std::sync::Wait;
use std::test::Fail;
use std::thread::Threads;

#[derive(Clone, Copy)]
pub(crate) enum Claim<'a> {
    // Searches of each alone, and two workers, come to these verdicts.
    Found(Expected<'a>),
    // So does each number of workers.
    ByAll(Expected<'a>),
    // A greater budget finds the same certificates.
    GreaterBudget,
    // Conditions 3 and 4 have facts that differ only in a sign, and certificates of their own.
    OtherSign,
    // A gate hears once of each.
    EachOnce,
    // Two workers check them at once, and the one that is not held draws on.
    NoHold,
}

fn expect_list<R: Threads + Wait + Sync + Abort>(
    rt: &R,
    alloc: Global,
    list: &[Condition],
    claim: &Claim<'_>,
) -> Result<(), Fail>
    requires few { length list.now ≤ 999999999 }
{
    let finder = Finder { rt, alloc, list };
    match claim {
        Claim::Found(wanted) => {
            drop(finder.expect_found(wanted)?);
            Ok(())
        }
        Claim::ByAll(wanted) => finder.expect_by_all(wanted),
        Claim::GreaterBudget => finder.expect_greater_budget(),
        Claim::OtherSign => expect_other_sign(rt, alloc, list),
        Claim::EachOnce => expect_each_once(rt, alloc, list),
        Claim::NoHold => expect_no_hold(rt, alloc, list),
    }
}

fn expect_outline<R: Threads + Wait + Sync + Abort>(
    rt: &R,
    alloc: Global,
    outline: &Outline,
    claim: &Claim<'_>,
) -> Result<(), Fail> {
    let list = conditions(alloc, outline)?;
    let result = expect_list(rt, alloc, &list, claim);
    drop(list);
    result
}

pub(crate) fn expect<R: Threads + Wait + Sync + Abort>(
    rt: &R,
    alloc: Global,
    source: &str,
    claim: &Claim<'_>,
) -> Result<(), Fail> {
    let outline = outline_of(alloc, source)?;
    let result = expect_outline(rt, alloc, &outline, claim);
    drop(outline);
    result
}

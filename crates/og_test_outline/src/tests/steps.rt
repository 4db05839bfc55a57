//! Moments: starts, current assertions, and processes that have ended.

use og_linear::State;
use og_step::{Moment, StartError, start};
use og_test_samples::{TWO_ADD, WITH_MAIN, outline_of};
use og_typed::{Assert, Outline};
use std::alloc::{AllocError, Global};
use std::process::Abort;
use std::test::Fail;

fn begun<'a>(
    alloc: Global,
    outline: &'a Outline,
    values: &[i64],
) -> Result<Moment<'a>, StartError> {
    let values = State::new(Vec::from_slice(alloc, values)?);
    start(alloc, outline, values)
}

fn expect_wrong_length<R: Abort>(rt: &R, alloc: Global, outline: &Outline) {
    match begun(alloc, outline, &[]) {
        Err(StartError::Fault(fault)) => {
            assert!(rt; fault.number() == 51 && fault.name() == "WrongLength");
        }
        _ => panic!(rt; "no fault"),
    }
}

#[test]
fn refuses_values_of_another_number(rt: HostRuntime) -> Result<(), Fail> {
    let outline = outline_of(rt.alloc(), TWO_ADD)?;
    expect_wrong_length(&rt, rt.alloc(), &outline);
    drop(outline);
    Ok(())
}

// An assertion `true`, or the constant of an equation's form, which is left minus right.
fn of_assert(alloc: Global, assertion: &Assert) -> Result<String, AllocError> {
    match assertion {
        Assert::True => String::from_str(alloc, "true"),
        Assert::Eq(form) => {
            let constant = form.offset();
            format!(in alloc; "{constant}")
        }
        _ => String::from_str(alloc, "another"),
    }
}

// The current assertions of the process and of the main process, and whether each has ended.
fn result(alloc: Global, moment: &Moment<'_>) -> Result<String, AllocError> {
    let first = of_assert(alloc, moment.current(0))?;
    let main = of_assert(alloc, moment.current(1))?;
    let ended = (moment.is_done(0), moment.is_done(1));
    format!(in alloc; "{first} {main} {ended:?}")
}

// The report after the move of each: the current assertion is that of the next statement, the
// last one of a process that has ended, and the postcondition at the main's end.
const MOVES: &[(u32, &str)] = &[
    (1, "0 -1 (false, false)"),
    (0, "-1 -1 (true, false)"),
    (1, "-1 -2 (true, true)"),
];

fn expect_moves<R: Abort>(rt: &R, alloc: Global, moment: &mut Moment<'_>) -> Result<(), Fail> {
    let before = result(alloc, moment)?;
    assert_eq!(rt; before.as_str(), "0 true (false, false)");
    for (process, expected) in MOVES {
        let _turn = moment.step(*process);
        let got = result(alloc, moment)?;
        assert_eq!(rt; got.as_str(), *expected);
    }
    Ok(())
}

fn expect_moves_of<R: Abort>(rt: &R, alloc: Global, outline: &Outline) -> Result<(), Fail> {
    let mut moment = begun(alloc, outline, [7].as_slice())?;
    let result = expect_moves(rt, alloc, &mut moment);
    drop(moment);
    result
}

#[test]
fn current_assertions(rt: HostRuntime) -> Result<(), Fail> {
    let outline = outline_of(rt.alloc(), WITH_MAIN)?;
    let result = expect_moves_of(&rt, rt.alloc(), &outline);
    drop(outline);
    result
}

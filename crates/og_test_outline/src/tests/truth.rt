//! Truth of assertions.

ghost use Rattle.std.specs.Prelude.{◌≡◌, IfOk, length};

use og_linear::{Form, State};
use og_step::holds;
use og_typed::Assert;
use std::alloc::{AllocError, Global};
use std::process::Abort;
use std::test::Fail;

// The state that gives the one variable this value.
fn state(alloc: Global, value: i64) -> Result<State, AllocError>
    ensures { IfOk result (λ s. length s ≡ 1) }
{
    Ok(State::new(Vec::from_slice(alloc, &[value])?))
}

fn expect_at_most(rt: &impl Abort, alloc: Global, value: i64, wanted: bool) -> Result<(), Fail> {
    let s = state(alloc, value)?;
    let at_most = Assert::Le(Form::variable(alloc, 0)?);
    assert!(rt; holds(&at_most, &s) == wanted, "x <= 0 at {value}");
    let not = Assert::Not(Box::new(alloc, at_most)?);
    assert!(rt; holds(&not, &s) != wanted, "not x <= 0 at {value}");
    Ok(())
}

fn expect_equal(rt: &impl Abort, alloc: Global, value: i64, wanted: bool) -> Result<(), Fail> {
    let s = state(alloc, value)?;
    let equal = Assert::Eq(Form::variable(alloc, 0)?);
    assert!(rt; holds(&equal, &s) == wanted, "x = 0 at {value}");
    let imp = Assert::Imp(Box::new(alloc, equal)?, Box::new(alloc, Assert::False)?);
    assert!(rt; holds(&imp, &s) != wanted, "x = 0 => false at {value}");
    Ok(())
}

fn expect_other(rt: &impl Abort, alloc: Global, value: i64, wanted: bool) -> Result<(), Fail> {
    let s = state(alloc, value)?;
    let other = Assert::Ne(Form::variable(alloc, 0)?);
    assert!(rt; holds(&other, &s) == wanted, "x != 0 at {value}");
    Ok(())
}

// Truth of a relation of the variable to 0, and of its negation.
#[test]
fn relations(rt: HostRuntime) -> Result<(), Fail> {
    let alloc = rt.alloc();
    for (value, le, eq) in [
        (-1, true, false),
        (0, true, true),
        (1, false, false),
        (i64::MAX, false, false),
        (i64::MIN, true, false),
    ] {
        expect_at_most(&rt, alloc, value, le)?;
        expect_equal(&rt, alloc, value, eq)?;
        expect_other(&rt, alloc, value, !eq)?;
    }
    Ok(())
}

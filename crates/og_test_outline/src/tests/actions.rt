//! Actions of statements.

use og_linear::{Form, FormError};
use og_subst::Action;
use og_typed::{Assert, Basic, Stmt};
use std::alloc::Global;
use std::process::Abort;
use std::test::Fail;

const X: u32 = 0;

const Y: u32 = 1;

// x + 1
fn successor(alloc: Global) -> Result<Form, FormError> {
    let mut sum = Form::constant(alloc, 1);
    sum.add_scaled(1, &Form::variable(alloc, X)?)?;
    Ok(sum)
}

fn body(alloc: Global) -> Result<Vec<Basic>, FormError> {
    Ok(vec![in alloc; Basic::Assign(X, successor(alloc)?)]?)
}

fn expect_actions(rt: &impl Abort, single: &Action, whole: &Action, same: &[Basic]) {
    assert!(rt; single.assigns(X) && !single.assigns(Y));
    assert!(rt; whole.assigns(X) && !whole.assigns(Y));
    assert!(rt; single.equals(single) && whole.equals(&Action::Await(same)));
    assert!(rt; !single.equals(whole));
}

// The actions of this assignment and of this await.
fn expect_both(rt: &impl Abort, alloc: Global, single: &Stmt, whole: &Stmt) -> Result<(), Fail> {
    let same = body(alloc)?;
    match (Action::of(single), Action::of(whole)) {
        (Some(a), Some(b)) => expect_actions(rt, &a, &b, &same),
        _ => panic!(rt; "no action"),
    }
    Ok(())
}

// `x := x + 1` alone and in an await have equal assignments, and are two actions.
#[test]
fn actions_of_statements(rt: HostRuntime) -> Result<(), Fail> {
    let single = Stmt::Assign(X, successor(rt.alloc())?);
    let whole = Stmt::Await(Assert::True, body(rt.alloc())?);
    let result = expect_both(&rt, rt.alloc(), &single, &whole);
    drop(whole);
    drop(single);
    result
}

#[test]
fn no_action_of_skip(rt: HostRuntime) {
    assert!(rt; Action::of(&Stmt::Skip).is_none());
}

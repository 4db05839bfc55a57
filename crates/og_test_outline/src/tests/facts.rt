//! The facts of conditions.

use og_cond::{Condition, Goal, Hypothesis, Kind, conditions};
use og_facts::{FactList, FactsError, FactsFault, facts, facts_with};
use og_linear::{Form, FormError};
use og_subst::Action;
use og_test_samples::{AUXILIARY_ADD, SKIP_AND_ASSIGN, TWO_ADD, outline_of};
use og_typed::{Basic, Outline};
use std::alloc::{AllocError, Global};
use std::process::Abort;
use std::test::Fail;

const AT_THE_END: &str =
    "var x;\n{x = 9223372036854775807}\ncobegin\n{x = 9223372036854775807} x := x + 1 {true}\ncoend\n{true}\n";

const NOT_EVEN: &str =
    "var x, y;\n{2*x = 2*y + 1}\ncobegin\n{false} skip {false}\ncoend\n{false}\n";

const FOUR_DOUBLINGS: &str =
    "var x; {true} cobegin {true} await true then begin x := 2147483648*x; x := 2147483648*x; x := 2147483648*x; x := 2147483648*x end {true} coend {true}";

const FIVE_DOUBLINGS: &str =
    "var x; {true} cobegin {true} await true then begin x := 2147483648*x; x := 2147483648*x; x := 2147483648*x; x := 2147483648*x; x := 2147483648*x end {true} coend {true}";

// The facts of a condition, or why there are none.
fn text_of(alloc: Global, answer: &Result<FactList, FactsError>) -> Result<String, AllocError> {
    format!(in alloc; "{answer:?}")
}

// By a map that was prepared from its action, where it has one.
fn text_by_map(alloc: Global, condition: &Condition) -> Result<Option<String>, AllocError> {
    let Some(action) = &condition.action else {
        return Ok(None);
    };
    let other = match action.prepare(alloc) {
        Ok(prepared) => text_of(alloc, &facts_with(alloc, condition, &prepared))?,
        Err(FormError::Memory) => return Err(AllocError),
        Err(FormError::Fault(_)) => text_of(alloc, &Err(FactsError::Fault(FactsFault::TooLarge)))?,
    };
    Ok(Some(other))
}

// A map that was prepared from the action gives the facts that there are without one.
fn expect_same(rt: &impl Abort, alloc: Global, list: &[Condition]) -> Result<(), Fail> {
    for condition in list {
        if let Some(other) = text_by_map(alloc, condition)? {
            let own = text_of(alloc, &facts(alloc, condition))?;
            assert_eq!(rt; other.as_str(), own.as_str());
        }
    }
    Ok(())
}

fn expect_same_of(rt: &impl Abort, alloc: Global, outline: &Outline) -> Result<(), Fail> {
    let list = conditions(alloc, outline)?;
    let text_of = expect_same(rt, alloc, &list);
    drop(list);
    text_of
}

const WITH_ACTIONS: &[&str] = &[
    TWO_ADD,
    AUXILIARY_ADD,
    SKIP_AND_ASSIGN,
    AT_THE_END,
    FOUR_DOUBLINGS,
    FIVE_DOUBLINGS,
];

#[test]
fn facts_by_a_prepared_map(rt: HostRuntime) -> Result<(), Fail> {
    for source in WITH_ACTIONS {
        let outline = outline_of(rt.alloc(), source)?;
        let text_of = expect_same_of(&rt, rt.alloc(), &outline);
        drop(outline);
        text_of?;
    }
    Ok(())
}

fn expect_numbers(rt: &impl Abort, list: &FactList) {
    assert!(rt; list.variables() == 2 && list.as_slice().len() == 2);
    assert!(rt; list.fact(1).is_some() && list.fact(2).is_some());
    assert!(rt; list.fact(0).is_none() && list.fact(3).is_none());
}

fn expect_first(rt: &impl Abort, alloc: Global, outline: &Outline) -> Result<(), Fail> {
    let list = conditions(alloc, outline)?;
    match list.first() {
        Some(condition) => expect_numbers(rt, &facts(alloc, condition)?),
        None => panic!(rt; "no condition"),
    }
    drop(list);
    Ok(())
}

#[test]
fn numbers_of_facts(rt: HostRuntime) -> Result<(), Fail> {
    let outline = outline_of(rt.alloc(), NOT_EVEN)?;
    let text_of = expect_first(&rt, rt.alloc(), &outline);
    drop(outline);
    text_of
}

// A condition from this many initial values, two facts each.
fn from_values<'a>(
    alloc: Global,
    count: u32,
    action: Option<Action<'a>>,
    goal: Goal<'a>,
) -> Result<Condition<'a>, AllocError> {
    let mut hypotheses = Vec::new(alloc);
    for _ in 0..count {
        hypotheses.push(Hypothesis::Starts(0, 0))?;
    }
    Ok(Condition {
        kind: Kind::Blocking,
        at: 0,
        action_at: None,
        variables: 1,
        hypotheses,
        goal,
        action,
    })
}

// Assignments `x := 2147483648*x`, too many for any map to hold them.
fn doublings(alloc: Global) -> Result<Vec<Basic>, FormError> {
    let mut body = Vec::new(alloc);
    for _ in 0..5 {
        let mut form = Form::constant(alloc, 0);
        form.add_scaled(2147483648, &Form::variable(alloc, 0)?)?;
        body.push(Basic::Assign(0, form))?;
    }
    Ok(body)
}

// The number of the refusal, or how many facts there are.
fn outcome(answer: &Result<FactList, FactsError>) -> (u8, usize) {
    match answer {
        Ok(list) => (0, list.as_slice().len()),
        Err(FactsError::Memory) => (1, 0),
        Err(FactsError::Fault(fault)) => (fault.number(), 0),
    }
}

// Of 5,000 values with this action and this goal.
fn outcome_of<'a>(
    alloc: Global,
    action: Option<Action<'a>>,
    goal: Goal<'a>,
) -> Result<(u8, usize), AllocError> {
    let condition = from_values(alloc, 5000, action, goal)?;
    Ok(outcome(&facts(alloc, &condition)))
}

fn expect_limits(rt: &impl Abort, alloc: Global, body: &[Basic]) -> Result<(), Fail> {
    assert!(rt; outcome_of(alloc, None, Goal::Never)? == (0, 10000));
    assert!(rt; outcome_of(alloc, None, Goal::Fits)? == (35, 0));
    assert!(rt; outcome_of(alloc, Some(Action::Await(body)), Goal::Never)? == (5, 0));
    assert!(rt; outcome_of(alloc, Some(Action::Await(body)), Goal::Fits)? == (35, 0));
    Ok(())
}

#[test]
fn limit_of_facts(rt: HostRuntime) -> Result<(), Fail> {
    let body = doublings(rt.alloc())?;
    expect_limits(&rt, rt.alloc(), &body)
}

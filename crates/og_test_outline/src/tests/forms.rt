//! Worked examples of the arithmetic.

use og_linear::{Form, FormError, FormFault, Map, State};
use std::alloc::Global;
use std::process::Abort;
use std::test::Fail;

const X: u32 = 0;

const Y: u32 = 1;

// The coefficients of x and y, and the constant.
type Sum = (i128, i128, i128);

// The terms of a form, each a variable and its coefficient.
type Terms<'a> = &'a [(u32, i128)];

// The operations on a form.
#[derive(Clone, Copy)]
enum Operation<'a> {
    // This sum is added this many times.
    Add(i128, Sum),
    // This sum stands in place of x.
    Replace(Sum),
    // These sums are set in a map, in this order, and stand in place of their variables.
    Apply(&'a [(u32, Sum)]),
    // It is divided.
    Cut(i128),
}

fn form(alloc: Global, (x, y, constant): Sum) -> Result<Form, FormError> {
    let mut sum = Form::constant(alloc, constant);
    sum.add_scaled(x, &Form::variable(alloc, X)?)?;
    sum.add_scaled(y, &Form::variable(alloc, Y)?)?;
    Ok(sum)
}

fn map_of(alloc: Global, entries: &[(u32, Sum)]) -> Result<Map, FormError> {
    let mut map = Map::new(alloc);
    for (var, sum) in entries {
        map.set(*var, form(alloc, *sum)?)?;
    }
    Ok(map)
}

// left + k * right
fn scaled_sum(alloc: Global, left: Sum, k: i128, right: Sum) -> Result<Form, FormError> {
    let mut sum = form(alloc, left)?;
    sum.add_scaled(k, &form(alloc, right)?)?;
    Ok(sum)
}

fn done(alloc: Global, sum: Sum, deed: Operation<'_>) -> Result<Form, FormError> {
    match deed {
        Operation::Add(k, other) => scaled_sum(alloc, sum, k, other),
        Operation::Replace(x) => form(alloc, sum)?.replace(X, &form(alloc, x)?),
        Operation::Apply(entries) => form(alloc, sum)?.apply(&map_of(alloc, entries)?),
        Operation::Cut(d) => form(alloc, sum)?.cut(d),
    }
}

// The form is the sum of these terms and the constant.
fn expect_form(rt: &impl Abort, form: &Form, terms: Terms<'_>, constant: i128) {
    let has_each = terms
        .iter()
        .enumerate()
        .all(|(i, t)| form.term(i) == Some(*t));
    let has_more = form.term(terms.len()).is_some();
    assert!(rt; has_each && !has_more, "the terms of {form:?}");
    assert!(rt; form.offset() == constant, "the constant of {form:?}");
}

// A form, the operations on it, and the terms and the constant that it has then.
const DONE: &[(Sum, Operation<'_>, Terms<'_>, i128)] = &[
    ((1, 0, 0), Operation::Add(3, (1, 0, -1)), &[(X, 4)], -3),
    ((4, 0, -3), Operation::Add(-4, (1, 0, 0)), &[], -3),
    (
        (0, 1, 0),
        Operation::Add(-1, (1, 0, 0)),
        &[(X, -1), (Y, 1)],
        0,
    ),
    // The least number of all, as a factor, a product and a sum, in a coefficient and a constant.
    (
        (0, 0, 0),
        Operation::Add(i128::MIN, (0, 1, 1)),
        &[(Y, i128::MIN)],
        i128::MIN,
    ),
    (
        (0, 0, 0),
        Operation::Add(1 << 63, (-(1 << 64), 0, 0)),
        &[(X, i128::MIN)],
        0,
    ),
    (
        (-(1 << 126), 3, 0),
        Operation::Add(1, (-(1 << 126), 0, 0)),
        &[(X, i128::MIN), (Y, 3)],
        0,
    ),
    ((2, 0, -3), Operation::Replace((0, 1, 1)), &[(Y, 2)], -1),
    (
        (1 << 31, 0, 0),
        Operation::Replace((1, 0, 0)),
        &[(X, 1 << 31)],
        0,
    ),
    (
        (1 << 31, 0, 0),
        Operation::Replace((1 << 31, 0, 0)),
        &[(X, 1 << 62)],
        0,
    ),
    (
        (1 << 31, 0, 0),
        Operation::Replace((1 << 62, 0, 0)),
        &[(X, 1 << 93)],
        0,
    ),
    (
        (1 << 31, 0, 0),
        Operation::Replace((1 << 93, 0, 0)),
        &[(X, 1 << 124)],
        0,
    ),
    ((2, 0, -3), Operation::Apply(&[]), &[(X, 2)], -3),
    (
        (2, 0, -3),
        Operation::Apply(&[(X, (5, 0, 0)), (X, (0, 1, 1))]),
        &[(Y, 2)],
        -1,
    ),
    (
        (1, 2, 0),
        Operation::Apply(&[(X, (5, 0, 0)), (X, (0, 1, 1)), (Y, (1, 0, 0))]),
        &[(X, 2), (Y, 1)],
        1,
    ),
    (
        (1, 2, 0),
        Operation::Apply(&[(X, (0, 1, 1)), (Y, (5, 0, 0)), (Y, (1, 0, 0))]),
        &[(X, 2), (Y, 1)],
        1,
    ),
    ((2, 0, -3), Operation::Cut(2), &[(X, 1)], -1),
    ((4, 0, 1), Operation::Cut(2), &[(X, 2)], 1),
    ((2, -2, -1), Operation::Cut(2), &[(X, 1), (Y, -1)], 0),
    ((-2, 2, 1), Operation::Cut(2), &[(X, -1), (Y, 1)], 1),
];

#[test]
fn operations_on_forms(rt: HostRuntime) -> Result<(), Fail> {
    for (sum, deed, terms, constant) in DONE {
        let form = done(rt.alloc(), *sum, *deed)?;
        expect_form(&rt, &form, terms, *constant);
    }
    Ok(())
}

// A form, the operations on it, and why it is refused.
const REFUSED: &[(Sum, Operation<'_>, FormFault)] = &[
    ((2, 0, 1), Operation::Cut(3), FormFault::NotDivisible),
    ((2, 0, 1), Operation::Cut(0), FormFault::NotDivisible),
    ((2, 0, 1), Operation::Cut(-1), FormFault::NotDivisible),
    // -1 * -2^127
    (
        (0, 0, 0),
        Operation::Add(-1, (0, i128::MIN, 0)),
        FormFault::TooLarge,
    ),
    (
        (1 << 31, 0, 0),
        Operation::Replace((1 << 124, 0, 0)),
        FormFault::TooLarge,
    ),
    (
        (1 << 31, 0, 0),
        Operation::Apply(&[(X, (1 << 124, 0, 0))]),
        FormFault::TooLarge,
    ),
];

fn expect_fault<T>(rt: &impl Abort, answer: &Result<T, FormError>, fault: FormFault) {
    match answer {
        Ok(_) => panic!(rt; "no fault"),
        Err(error) => assert!(rt; *error == FormError::Fault(fault), "{error}"),
    }
}

#[test]
fn out_of_range(rt: HostRuntime) {
    for (sum, deed, fault) in REFUSED {
        expect_fault(&rt, &done(rt.alloc(), *sum, *deed), *fault);
    }
}

// A sum that is too large leaves the form as it was.
#[test]
fn too_large_sums(rt: HostRuntime) -> Result<(), Fail> {
    let mut large = form(rt.alloc(), (1 << 126, 0, 0))?;
    let same = large.copy()?;
    expect_fault(&rt, &large.add_scaled(1, &same), FormFault::TooLarge);
    expect_form(&rt, &large, &[(X, 1 << 126)], 0);
    expect_form(&rt, &same, &[(X, 1 << 126)], 0);
    Ok(())
}

#[test]
fn terms(rt: HostRuntime) -> Result<(), Fail> {
    let y = form(rt.alloc(), (-1, 1, 0))?;
    assert!(rt; y.mentions(X) && y.mentions(Y) && !y.mentions(2));
    let terms = vec![in rt.alloc(); (X, 4), (Y, -1)]?;
    expect_form(&rt, &Form::of_terms(terms, 7), &[(X, 4), (Y, -1)], 7);
    Ok(())
}

const MOST: i128 = (1 << 63) - 1;

const LEAST: i128 = -(1 << 63);

// Sums, and whether each is small.
const LIMITS: &[(Sum, bool)] = &[
    ((1 << 31, -(1 << 31), MOST), true),
    ((0, 0, LEAST), true),
    (((1 << 31) + 1, 0, 0), false),
    ((0, -(1 << 31) - 1, 0), false),
    ((0, 0, MOST + 1), false),
    ((0, 0, LEAST - 1), false),
];

#[test]
fn limits(rt: HostRuntime) -> Result<(), Fail> {
    for (sum, small) in LIMITS {
        assert!(rt; form(rt.alloc(), *sum)?.is_small() == *small);
    }
    Ok(())
}

#[test]
fn states(rt: HostRuntime) -> Result<(), Fail> {
    let mut state = State::new(vec![in rt.alloc(); i64::MIN, 7]?);
    assert!(rt; state.as_slice() == [i64::MIN, 7].as_slice());
    assert!(rt; Form::variable(rt.alloc(), Y)?.value(&state) == 7);
    assert!(rt; Form::constant(rt.alloc(), -3).value(&state) == -3);
    state.set(X, -5);
    assert!(rt; state.as_slice() == [-5, 7].as_slice());
    Ok(())
}

// Where memory is refused the form is as it was; otherwise it is the sum.
#[test]
fn refused_memory(rt: HostRuntime) -> Result<(), Fail> {
    let alloc = rt.alloc();
    let mut sum = form(alloc, (2, 3, 4))?;
    let other = form(alloc, (1, -1, 1))?;
    match sum.add_scaled(1, &other) {
        Ok(()) => expect_form(&rt, &sum, &[(X, 3), (Y, 2)], 5),
        Err(error) => {
            assert!(rt; error == FormError::Memory, "{error}");
            expect_form(&rt, &sum, &[(X, 2), (Y, 3)], 4);
        }
    }
    expect_form(&rt, &other, &[(X, 1), (Y, -1)], 1);
    Ok(())
}

// Faults, and the number and the name of each.
const REFUSALS: &[(FormFault, u8, &str)] = &[
    (FormFault::TooLarge, 5, "TooLarge"),
    (FormFault::NotDivisible, 6, "NotDivisible"),
];

#[test]
fn refusals(rt: HostRuntime) {
    for (fault, number, name) in REFUSALS {
        assert!(rt; fault.number() == *number && fault.name() == *name);
    }
}

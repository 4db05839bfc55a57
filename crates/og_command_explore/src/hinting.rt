//! A start to name where the values that words give are none.

ghost use Rattle.std.specs.Prelude.{◌≡◌, length, IfOk, IfSome};
ghost use Rattle.og_typed.specs.Machine.{IsStart};

use crate::seeking::{first_values, sought};
use crate::words::{WordsError, given};
use og_explore::Range;
use og_linear::State;
use og_step::{Moment, StartError, start};
use og_typed::Outline;
use std::alloc::{AllocError, Global};

// A state in which the precondition is true: with the given values where a search finds such a one,
// else any that it finds.
fn sought_by(
    alloc: Global,
    outline: &Outline,
    given: &[Option<Range>],
) -> Result<Option<State>, AllocError> {
    match sought(alloc, outline, given)? {
        Some(state) => Ok(Some(state)),
        None => sought(alloc, outline, &[]),
    }
}

// The least value that is given to a variable, 0 where none is.
fn least_given(given: &[Option<Range>], place: usize) -> i64 {
    match given.get(place) {
        Some(Some(range)) => range.low(),
        _ => 0,
    }
}

// Gives each variable the value that is given to it, or 0, where the precondition stays true.
fn settle(moment: &mut Moment, values: &mut [i64], given: &[Option<Range>])
    requires { length values.old ≡ moment.old.outline.vars }
    ensures { length values.new ≡ length values.old }
{
    for place in 0..values.len() {
        let value = values[place];
        values[place] = least_given(given, place);
        moment.restart(values);
        if !moment.is_pre_true() {
            values[place] = value;
        }
    }
}

// The values as a state, where the outline may start with them.
fn checked(alloc: Global, outline: &Outline, values: &[i64]) -> Result<Option<State>, AllocError>
    ensures { IfOk result (λ found. IfSome found (IsStart outline.now)) }
{
    let state = State::new(Vec::from_slice(alloc, values)?);
    match start(alloc, outline, State::new(Vec::from_slice(alloc, values)?)) {
        Ok(_) => Ok(Some(state)),
        Err(StartError::Memory) => Err(AllocError),
        Err(StartError::Fault(_)) => Ok(None),
    }
}

// The start of which a hint tells, by what the words give.
fn start_by(
    alloc: Global,
    outline: &Outline,
    given: &[Option<Range>],
) -> Result<Option<State>, AllocError>
    ensures { IfOk result (λ found. IfSome found (IsStart outline.now)) }
{
    let state = sought_by(alloc, outline, given)?;
    if state.is_none() {
        return Ok(None);
    }
    let mut values = first_values(alloc, outline, &state)?;
    let mut moment = Moment::begin(alloc, outline, &values)?;
    settle(&mut moment, &mut values, given);
    checked(alloc, outline, &values)
}

/// The values of the variables that are no auxiliaries at a start which a search finds, if it finds
/// one: with what the words give, each NAME=INT, where it finds such a one. No variable has another
/// value than its word gives, or than 0 without a word, unless the precondition is false with that.
/// None where a word gives no value.
///
/// # Errors
///
/// An allocation was refused.
pub fn start_near(
    alloc: Global,
    outline: &Outline,
    words: &[&str],
) -> Result<Option<State>, AllocError>
    ensures { IfOk result (λ found. IfSome found (IsStart outline.now)) }
{
    match given(alloc, outline, words) {
        Ok(given) => start_by(alloc, outline, &given),
        Err(WordsError::Bad(_)) => Ok(None),
        Err(WordsError::Memory) => Err(AllocError),
    }
}

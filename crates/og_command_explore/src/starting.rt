//! The starts of an exploration. Nothing is promised of the values that are chosen: the answer
//! prints them.

ghost use Rattle.std.specs.Prelude.{◌≡◌, map, length, IfOk, IfSome};

use crate::counting::{MOST_TRIED, Starts, count};
use crate::seeking::{first_values, sought};
use og_explore::{Range, narrowed};
use og_typed::{Assert, Outline};
use std::alloc::{AllocError, Global};

// The range of one value.
fn only(value: i64) -> Range
    ensures { result ≡ (value, value) }
{
    match Range::new(value, value) {
        Some(range) => range,
        None => unreachable!(),
    }
}

/// A range of one value for each of these.
///
/// # Errors
///
/// An allocation was refused.
pub fn points(alloc: Global, values: &[i64]) -> Result<Vec<Range>, AllocError>
    ensures { IfOk result (λ v. v.items ≡ map (λ x. (x, x)) values.now) }
{
    let mut ranges = Vec::new(alloc);
    for value in values {
        ranges.push(only(*value))?;
    }
    Ok(ranges)
}

// Values near 0 for the variables without a word.
#[derive(Clone, Copy)]
struct Spread {
    low: i64,
    high: i64,
    // Whether those that do not occur in the precondition have them too; else these are 0.
    everywhere: bool,
}

// They are taken in this order, until there are few starts.
const SPREADS: [Spread; 3] = [
    Spread {
        low: -1,
        high: 3,
        everywhere: true,
    },
    Spread {
        low: -1,
        high: 3,
        everywhere: false,
    },
    Spread {
        low: 0,
        high: 2,
        everywhere: false,
    },
];

impl Spread {
    // The values of a variable.
    fn range(&self, pre: &Assert, var: u32) -> Range {
        if !self.everywhere && !pre.mentions(var) {
            return only(0);
        }
        match Range::new(self.low, self.high) {
            Some(range) => range,
            None => only(0),
        }
    }

    // Those of each variable that is no auxiliary.
    fn ranges(&self, alloc: Global, outline: &Outline) -> Result<Vec<Range>, AllocError> {
        let mut ranges = Vec::new(alloc);
        for var in 0..outline.vars() {
            ranges.push(self.range(&outline.pre().assertion, var))?;
        }
        Ok(ranges)
    }
}

// The range of a variable: the given one, else the other one, and 0 without it.
fn range_of(given: &[Option<Range>], others: &[Range], var: u32) -> Range {
    if let Some(Some(range)) = given.get(var as usize) {
        return range.copy();
    }
    match others.get(var as usize) {
        Some(range) => range.copy(),
        None => only(0),
    }
}

// For each variable that is no auxiliary the given range, else the other one.
fn given_or(
    alloc: Global,
    outline: &Outline,
    given: &[Option<Range>],
    others: &[Range],
) -> Result<Vec<Range>, AllocError>
    ensures { IfOk result (λ v. length v.items ≡ outline.now.vars) }
{
    let mut ranges = Vec::new(alloc);
    for var in 0..outline.vars() {
        ranges.push(range_of(given, others, var))?;
    }
    Ok(ranges)
}

// The first ranges of values near 0 within which few starts lie, if they do, cut to what the
// precondition says of one variable alone; a given one is not cut.
fn near(
    alloc: Global,
    outline: &Outline,
    given: &[Option<Range>],
) -> Result<Option<Vec<Range>>, AllocError>
    ensures { IfOk result (λ found. IfSome found (λ v. length v.items ≡ outline.now.vars)) }
{
    let mut left = MOST_TRIED;
    for spread in &SPREADS {
        let wide = given_or(alloc, outline, given, &spread.ranges(alloc, outline)?)?;
        let Some(cut) = narrowed(alloc, outline, &wide)? else {
            return Ok(None);
        };
        match count(alloc, outline, &cut, &mut left)? {
            // The later ranges lie within these.
            Starts::None => return Ok(None),
            Starts::Few => return Ok(Some(given_or(alloc, outline, given, &cut)?)),
            Starts::Many => (),
        }
    }
    Ok(None)
}

// Whether each variable that is no auxiliary has a given range.
fn are_all_given(outline: &Outline, given: &[Option<Range>]) -> bool {
    given.len() == outline.vars() as usize && given.iter().all(|range| range.is_some())
}

// One value for each variable that is no auxiliary: that of a state which a search finds for the
// precondition and the given ranges, and 0 where it finds none.
fn found(
    alloc: Global,
    outline: &Outline,
    given: &[Option<Range>],
) -> Result<Vec<Range>, AllocError> {
    let state = sought(alloc, outline, given)?;
    points(alloc, &first_values(alloc, outline, &state)?)
}

/// For each variable that is no auxiliary the given range. Those without one have -1..3 if 1 to 1,000
/// starts lie within these ranges; else those that do not occur in the precondition have 0, and the
/// others -1..3, or 0..2, if this is so then; all of them cut to what the precondition says of one
/// variable alone. No more than 1,000,000 combinations of values are tried for that, and ranges that
/// need more are passed over. Else each has the value that it has in a state which a search finds for
/// the precondition and the given ranges, and 0 where it finds none.
///
/// # Errors
///
/// An allocation was refused.
pub fn ranges(
    alloc: Global,
    outline: &Outline,
    given: &[Option<Range>],
) -> Result<Vec<Range>, AllocError>
    ensures { IfOk result (λ v. length v.items ≡ outline.now.vars) }
{
    if are_all_given(outline, given) {
        return given_or(alloc, outline, given, &[]);
    }
    match near(alloc, outline, given)? {
        Some(ranges) => Ok(ranges),
        None => given_or(alloc, outline, given, &found(alloc, outline, given)?),
    }
}

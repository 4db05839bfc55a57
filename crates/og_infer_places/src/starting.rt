//! Starts that satisfy the precondition. A value is tried by evaluation, and where the precondition
//! is false with it, by a search for a state that has it and the values that were chosen before.

use crate::asking::{add_begin, variables_of};
use crate::constants::tried_values;
use crate::evaluation::is_true;
use crate::places::Places;
use indexmap::IndexSet;
use og_cond::{Condition, Hypothesis, Kind, Part};
use og_explore::Range;
use og_find::{Verdict, examine};
use og_linear::{Form, FormError};
use og_typed::{Assert, Outline};
use rand_core::utils::NextWord;
use rand_pcg::Pcg32;
use std::alloc::{AllocError, Global};

/// How many facts a search for a start may add.
const BUDGET: u64 = 20_000;

/// How many searches there may be.
const SEARCHES: u32 = 1_000;

/// How many values are tried for a variable of a start.
const TRIES: u32 = 3;

/// The state and the stream with which the generator begins.
const SEED: (u64, u64) = (2, 1);

/// What starts are found with.
#[derive(Drop)]
struct Seeker<'a> {
    alloc: Global,
    outline: &'a Outline,
    given: &'a [Option<Range>],
    // That each given variable is within its range; and one thing more, while that is asked.
    bounds: Vec<Assert>,
    tried: Vec<i64>,
    generator: Pcg32,
    // How many searches are left.
    left: u32,
}

/// A start, with the variables that have got their values.
#[derive(Drop)]
struct Draft {
    values: Vec<i64>,
    chosen: Vec<(u32, i64)>,
}

// k times the variable and c together, unless that is too large.
fn linear(alloc: Global, var: u32, k: i128, c: i128) -> Result<Option<Form>, AllocError> {
    let variable = Form::variable(alloc, var)?;
    let mut form = Form::constant(alloc, c);
    match form.add_scaled(k, &variable) {
        Ok(()) => Ok(Some(form)),
        Err(FormError::Memory) => Err(AllocError),
        Err(FormError::Fault(_)) => Ok(None),
    }
}

// Adds that the variable is within the range.
fn add_bounds(bounds: &mut Vec<Assert>, var: u32, range: &Range) -> Result<(), AllocError> {
    let alloc = *bounds.allocator();
    if let Some(form) = linear(alloc, var, 1, -i128::from(range.high()))? {
        bounds.push(Assert::Le(form))?;
    }
    if let Some(form) = linear(alloc, var, -1, i128::from(range.low()))? {
        bounds.push(Assert::Le(form))?;
    }
    Ok(())
}

// The range that is given for a variable.
fn range_of(given: &[Option<Range>], var: u32) -> Option<&Range> {
    match given.get(var as usize) {
        Some(Some(range)) => Some(range),
        _ => None,
    }
}

// That each given variable is within its range.
fn bounds_of(
    alloc: Global,
    outline: &Outline,
    given: &[Option<Range>],
) -> Result<Vec<Assert>, AllocError> {
    let mut bounds = Vec::new(alloc);
    for var in 0..outline.vars() {
        if let Some(range) = range_of(given, var) {
            add_bounds(&mut bounds, var, range)?;
        }
    }
    Ok(bounds)
}

// Whether each value is within the range that is given for it.
fn are_given(given: &[Option<Range>], values: &[i64]) -> bool {
    for (range, value) in given.iter().zip(values) {
        if let Some(range) = range {
            if *value < range.low() || range.high() < *value {
                return false;
            }
        }
    }
    true
}

// Gives the variable a value. Answers the one that it had, if there is such a variable.
fn exchange(values: &mut [i64], var: u32, value: i64) -> Option<i64> {
    let own = values.get_mut(var as usize)?;
    let old = *own;
    *own = value;
    Some(old)
}

impl<'a> Seeker<'a> {
    fn new(
        alloc: Global,
        outline: &'a Outline,
        given: &'a [Option<Range>],
    ) -> Result<Seeker<'a>, AllocError> {
        let places = Places::of(alloc, outline)?;
        let (state, stream) = SEED;
        Ok(Seeker {
            alloc,
            outline,
            given,
            bounds: bounds_of(alloc, outline, given)?,
            tried: tried_values(alloc, &places, given)?,
            generator: Pcg32::new(state, stream),
            left: SEARCHES,
        })
    }

    // Whether a program may begin with these values. Its auxiliaries have theirs.
    fn is_begin(&self, values: &[i64]) -> bool {
        is_true(&self.outline.pre().assertion, values) && are_given(self.given, values)
    }

    // Gives the variable the value, if the program may begin then.
    fn put(&self, values: &mut [i64], var: u32, value: i64) -> bool {
        let Some(old) = exchange(values, var, value) else {
            return false;
        };
        if self.is_begin(values) {
            return true;
        }
        let _ = exchange(values, var, old);
        false
    }

    // That the program begins within the bounds, where these variables have these values.
    fn hypotheses(&self, chosen: &[(u32, i64)]) -> Result<Vec<Hypothesis<'_>>, AllocError> {
        let mut hypotheses = Vec::new(self.alloc);
        add_begin(
            &mut hypotheses,
            &self.outline.pre().assertion,
            self.outline.vars(),
            self.outline.aux_values(),
        )?;
        for bound in &self.bounds {
            hypotheses.push(Hypothesis::Is(Part::Yes(bound)))?;
        }
        add_chosen(&mut hypotheses, chosen)?;
        Ok(hypotheses)
    }

    // That the program never begins so.
    fn condition(&self, chosen: &[(u32, i64)]) -> Result<Condition<'_>, AllocError> {
        Ok(Condition {
            kind: Kind::Start,
            at: 0,
            action_at: None,
            variables: variables_of(self.outline),
            hypotheses: self.hypotheses(chosen)?,
            goal: og_cond::Goal::Never,
            action: None,
        })
    }

    // A state in which all this is so, where a search finds one, and there may be one more.
    fn search(&mut self, chosen: &[(u32, i64)]) -> Result<Option<Vec<i64>>, AllocError> {
        let Some(left) = self.left.checked_sub(1) else {
            return Ok(None);
        };
        self.left = left;
        let condition = self.condition(chosen)?;
        match examine(self.alloc, &condition, BUDGET)? {
            Verdict::False(state) => Ok(Some(Vec::from_slice(self.alloc, state.as_slice())?)),
            Verdict::True(_) | Verdict::Open => Ok(None),
        }
    }

    // The values that are given and nearest to 0, and the initial ones of the auxiliaries.
    fn least(&self) -> Result<Vec<i64>, AllocError> {
        let mut values = Vec::new(self.alloc);
        for var in 0..self.outline.vars() {
            let value = match range_of(self.given, var) {
                Some(range) => range.low().max(0).min(range.high()),
                None => 0,
            };
            values.push(value)?;
        }
        values.extend_from_slice(self.outline.aux_values())?;
        Ok(values)
    }

    // Values with which the program may begin, if some are found: the least, or those of a search.
    fn base(&mut self) -> Result<Option<Vec<i64>>, AllocError> {
        let values = self.least()?;
        if self.is_begin(&values) {
            return Ok(Some(values));
        }
        self.search(&[])
    }

    // Whether the variable may have another value than in these.
    fn is_free(&mut self, values: &mut [i64], var: u32) -> Result<bool, AllocError> {
        let Some(value) = values.get(var as usize).copied() else {
            return Ok(false);
        };
        let above = self.put(values, var, value.saturating_add(1));
        if above || self.put(values, var, value.saturating_sub(1)) {
            let _ = exchange(values, var, value);
            return Ok(true);
        }
        let Some(form) = linear(self.alloc, var, 1, -i128::from(value))? else {
            return Ok(false);
        };
        self.bounds.push(Assert::Ne(form))?;
        let found = self.search(&[])?;
        self.bounds.pop();
        Ok(found.is_some())
    }

    // The variables that may have other values than these.
    fn free_variables(&mut self, base: &[i64]) -> Result<Vec<u32>, AllocError> {
        let mut values = Vec::from_slice(self.alloc, base)?;
        let mut free = Vec::new(self.alloc);
        for var in 0..self.outline.vars() {
            if self.is_free(&mut values, var)? {
                free.push(var)?;
            }
        }
        Ok(free)
    }

    // A random one of the values that are tried.
    fn random_value(&mut self) -> i64 {
        let random: u32 = self.generator.next_word();
        let place = (random as usize).checked_rem(self.tried.len()).unwrap_or(0);
        self.tried.get(place).copied().unwrap_or(0)
    }

    // Gives the variable the value, if the program may begin then with what was chosen before.
    // Answers whether it may.
    fn take(&mut self, draft: &mut Draft, var: u32, value: i64) -> Result<bool, AllocError> {
        draft.chosen.push((var, value))?;
        if self.put(&mut draft.values, var, value) {
            return Ok(true);
        }
        if let Some(values) = self.search(&draft.chosen)? {
            draft.values = values;
            return Ok(true);
        }
        draft.chosen.pop();
        Ok(false)
    }

    // Gives the variable one of some random values.
    fn choose(&mut self, draft: &mut Draft, var: u32) -> Result<(), AllocError> {
        for _ in 0..TRIES {
            let value = self.random_value();
            if self.take(draft, var, value)? {
                break;
            }
        }
        Ok(())
    }

    // Gives the variable its value in the start of this number: 0 in the first, where it may.
    fn settle(&mut self, draft: &mut Draft, number: u32, var: u32) -> Result<(), AllocError> {
        if number > 0 {
            return self.choose(draft, var);
        }
        self.take(draft, var, 0)?;
        Ok(())
    }

    // The start of this number. The free variables get their values in turn, in each start from
    // another one on.
    fn start(&mut self, number: u32, base: &[i64], free: &[u32]) -> Result<Vec<i64>, AllocError> {
        let mut draft = Draft {
            values: Vec::from_slice(self.alloc, base)?,
            chosen: Vec::new(self.alloc),
        };
        for place in 0..free.len() {
            if let Some(var) = turned(free, place, number) {
                self.settle(&mut draft, number, var)?;
            }
        }
        Ok(draft.values)
    }

    // Different starts, at most this many, as ranges.
    fn starts(&mut self, base: &[i64], count: u32) -> Result<Vec<Vec<Range>>, AllocError> {
        let free = self.free_variables(base)?;
        let most = if free.is_empty() { count.min(1) } else { count };
        let mut found = IndexSet::new(self.alloc);
        for number in 0..most {
            let start = self.start(number, base, &free)?;
            found.insert(start)?;
        }
        ranges_of(self.alloc, self.outline, found.as_slice())
    }
}

// The variable at this place, where they are counted from that of this number on.
fn turned(free: &[u32], place: usize, number: u32) -> Option<u32> {
    let place = place
        .saturating_add(number as usize)
        .checked_rem(free.len())?;
    free.get(place).copied()
}

// Adds that these variables have these values.
fn add_chosen(hypotheses: &mut Vec<Hypothesis>, chosen: &[(u32, i64)]) -> Result<(), AllocError> {
    for (var, value) in chosen {
        hypotheses.push(Hypothesis::Starts(*var, *value))?;
    }
    Ok(())
}

// A range of one value for each of the first variables.
fn points(alloc: Global, values: &[i64], count: u32) -> Result<Vec<Range>, AllocError> {
    let mut ranges = Vec::new(alloc);
    for value in values.iter().take(count as usize) {
        if let Some(range) = Range::new(*value, *value) {
            ranges.push(range)?;
        }
    }
    Ok(ranges)
}

// These starts, as ranges.
fn ranges_of(
    alloc: Global,
    outline: &Outline,
    starts: &[Vec<i64>],
) -> Result<Vec<Vec<Range>>, AllocError> {
    let mut lists = Vec::new(alloc);
    for values in starts {
        lists.push(points(alloc, values, outline.vars())?)?;
    }
    Ok(lists)
}

/// Up to `count` different starts in which the precondition is true, and each variable is within the
/// range that is given for it, if one is; the same each time. A start has a range of one value for
/// each variable that is no auxiliary. The first one has 0 wherever that may be. None where the search
/// finds none.
///
/// # Errors
///
/// An allocation was refused.
pub fn starts(
    alloc: Global,
    outline: &Outline,
    given: &[Option<Range>],
    count: u32,
) -> Result<Vec<Vec<Range>>, AllocError> {
    let mut seeker = Seeker::new(alloc, outline, given)?;
    match seeker.base()? {
        Some(base) => seeker.starts(&base, count),
        None => Ok(Vec::new(alloc)),
    }
}

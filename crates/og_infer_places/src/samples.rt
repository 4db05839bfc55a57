//! States that were seen at places.

use indexmap::IndexSet;
use std::alloc::{AllocError, Global};

/// The most states of a place.
const STATES_LIMIT: usize = 3_000;

/// The most numbers of all states.
const NUMBERS_LIMIT: usize = 4_000_000;

/// How many numbers a state counts more than it has values: its own room.
const STATE_NUMBERS: usize = 10;

/// The states that were seen at places, in the order in which they were found, each once at a place:
/// at most 3,000 at a place, and at most 4,000,000 numbers in all, where a state counts 10 more than
/// it has.
#[derive(Drop)]
pub struct Samples {
    places: Vec<IndexSet<Vec<i64>>>,
    starts: IndexSet<Vec<i64>>,
    numbers: usize,
}

// Adds the state, where there is room. Answers how many numbers there are then.
fn add_state(
    alloc: Global,
    states: &mut IndexSet<Vec<i64>>,
    numbers: usize,
    values: &[i64],
) -> Result<usize, AllocError> {
    let more = numbers
        .saturating_add(values.len())
        .saturating_add(STATE_NUMBERS);
    if states.len() >= STATES_LIMIT || more > NUMBERS_LIMIT || states.contains(values) {
        return Ok(numbers);
    }
    states.insert(Vec::from_slice(alloc, values)?)?;
    Ok(more)
}

impl Samples {
    /// None, of this many places.
    ///
    /// # Errors
    ///
    /// An allocation was refused.
    pub(crate) fn new(alloc: Global, count: usize) -> Result<Samples, AllocError> {
        let mut places = Vec::with_capacity(alloc, count)?;
        for _ in 0..count {
            places.push(IndexSet::new(alloc))?;
        }
        Ok(Samples {
            places,
            starts: IndexSet::new(alloc),
            numbers: 0,
        })
    }

    /// Notes a state at a place, where there is room.
    ///
    /// # Errors
    ///
    /// An allocation was refused; the state may be left out.
    pub(crate) fn add(
        &mut self,
        alloc: Global,
        place: u32,
        values: &[i64],
    ) -> Result<(), AllocError> {
        let numbers = self.numbers;
        if let Some(states) = self.places.get_mut(place as usize) {
            self.numbers = add_state(alloc, states, numbers, values)?;
        }
        Ok(())
    }

    /// Notes a state in which the program begins, where there is room.
    ///
    /// # Errors
    ///
    /// As `add`.
    pub(crate) fn add_start(&mut self, alloc: Global, values: &[i64]) -> Result<(), AllocError> {
        self.numbers = add_state(alloc, &mut self.starts, self.numbers, values)?;
        Ok(())
    }

    /// The states that were seen at the place; none where there is no such place. Takes no memory.
    pub fn at(&self, place: u32) -> &[Vec<i64>] {
        match self.places.get(place as usize) {
            Some(states) => states.as_slice(),
            None => &[],
        }
    }

    /// Whether the state was seen at the place. Takes no memory.
    pub fn has(&self, place: u32, values: &[i64]) -> bool {
        match self.places.get(place as usize) {
            Some(states) => states.contains(values),
            None => false,
        }
    }

    /// The states in which the program begins. Takes no memory.
    pub fn starts(&self) -> &[Vec<i64>] {
        self.starts.as_slice()
    }
}

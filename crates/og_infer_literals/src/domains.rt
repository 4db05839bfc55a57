//! The values of variables in the samples.

use crate::text::Text;
use og_infer_places::Samples;
use og_search_rows::Term;
use std::alloc::{AllocError, Global};
use std::collections::BTreeSet;

/// The most values of a variable that are kept.
const MOST_VALUES: usize = 64;

/// The most values of a small variable.
const SMALL: usize = 6;

/// The most constants of an input that make literals.
const INPUT_CONSTANTS: usize = 4;

/// The values of a variable.
#[derive(Drop)]
pub(crate) struct Domain {
    /// Its values in the samples; of an input those that the text compares it with or assigns to it.
    pub(crate) values: BTreeSet<i64>,
    /// Whether it is an input: its values are accidents of the starts.
    pub(crate) is_input: bool,
}

impl Domain {
    /// How many values it has; an input has many.
    pub(crate) fn size(&self) -> usize {
        if self.is_input {
            MOST_VALUES
        } else {
            self.values.len()
        }
    }

    /// Whether it has a few values, and not one alone.
    pub(crate) fn is_small(&self) -> bool {
        self.size() > 1 && self.size() <= SMALL
    }

    /// Whether some whole numbers between its values are none of them.
    pub(crate) fn has_gaps(&self) -> bool {
        match (self.values.first(), self.values.last()) {
            (Some(first), Some(last)) => last.abs_diff(*first) >= self.values.len() as u64,
            _ => false,
        }
    }

    fn add(&mut self, value: i64) -> Result<(), AllocError> {
        if self.values.len() < MOST_VALUES {
            self.values.insert(value)?;
        }
        Ok(())
    }

    // Makes it an input: of its values those of these numbers of the variable are kept.
    fn keep(
        &mut self,
        alloc: Global,
        variable: u32,
        numbers: &[(Option<u32>, i64)],
    ) -> Result<(), AllocError> {
        let mut kept = BTreeSet::new(alloc);
        for (owner, number) in numbers {
            let is_own = *owner == Some(variable) && self.values.contains(number);
            if is_own && kept.len() < INPUT_CONSTANTS {
                kept.insert(*number)?;
            }
        }
        self.values = kept;
        self.is_input = true;
        Ok(())
    }
}

// Notes the values of a state.
fn add_state(domains: &mut [Domain], state: &[i64]) -> Result<(), AllocError> {
    for (domain, value) in domains.iter_mut().zip(state) {
        domain.add(*value)?;
    }
    Ok(())
}

fn add_states(domains: &mut [Domain], states: &[Vec<i64>]) -> Result<(), AllocError> {
    for state in states {
        add_state(domains, state)?;
    }
    Ok(())
}

// Whether the variable has not the same value in all states.
fn varies(states: &[Vec<i64>], variable: usize) -> bool {
    let Some(first) = states.first() else {
        return false;
    };
    for state in states {
        if state.get(variable) != first.get(variable) {
            return true;
        }
    }
    false
}

fn is_marked(marks: &[bool], variable: u32) -> bool {
    matches!(marks.get(variable as usize), Some(true))
}

// Whether one of the variables is marked.
fn some_marked(marks: &[bool], terms: &[Term]) -> bool {
    for term in terms {
        if is_marked(marks, term.var) {
            return true;
        }
    }
    false
}

// Marks the variables that are assigned from marked ones. Whether there were some.
fn spread(text: &Text, marks: &mut [bool]) -> bool {
    let mut changed = false;
    for assignment in &text.assignments {
        let is_new = !is_marked(marks, assignment.variable);
        if is_new && some_marked(marks, &assignment.value.terms) {
            if let Some(mark) = marks.get_mut(assignment.variable as usize) {
                *mark = true;
                changed = true;
            }
        }
    }
    changed
}

// Whether each variable begins with several values, or is assigned from one that does.
fn inputs(
    alloc: Global,
    text: &Text,
    starts: &[Vec<i64>],
    variables: u32,
) -> Result<Vec<bool>, AllocError> {
    let mut marks = Vec::with_capacity(alloc, variables as usize)?;
    for variable in 0..variables as usize {
        marks.push(varies(starts, variable))?;
    }
    for _ in 0..variables {
        if !spread(text, &mut marks) {
            break;
        }
    }
    Ok(marks)
}

fn empty(alloc: Global, variables: u32) -> Result<Vec<Domain>, AllocError> {
    let mut domains = Vec::with_capacity(alloc, variables as usize)?;
    for _ in 0..variables {
        domains.push(Domain {
            values: BTreeSet::new(alloc),
            is_input: false,
        })?;
    }
    Ok(domains)
}

/// The values of each of this many variables in the samples of this many places.
pub(crate) fn domains(
    alloc: Global,
    text: &Text,
    samples: &Samples,
    places: u32,
    variables: u32,
) -> Result<Vec<Domain>, AllocError> {
    let mut domains = empty(alloc, variables)?;
    for place in 0..places {
        add_states(&mut domains, samples.at(place))?;
    }
    let inputs = inputs(alloc, text, samples.starts(), variables)?;
    for (variable, domain) in (0..variables).zip(domains.iter_mut()) {
        if is_marked(&inputs, variable) && domain.values.len() > 1 {
            domain.keep(alloc, variable, &text.numbers)?;
        }
    }
    Ok(domains)
}

//! Conditions whose marks are equal.

ghost use Rattle.std.specs.Prelude.{◌≡◌, ◌≤◌, length, IfOk, vec_len};

use og_find::Marks;
use std::alloc::{AllocError, AllocFailed, Global};
use std::collections::BTreeMap;

/// A place for each condition, the same for equal marks of their facts, and for each place the
/// index of the first condition that has it. The place of the last group is 0.
#[derive(Drop)]
pub(crate) struct Groups {
    pub(crate) places: Vec<usize>,
    pub(crate) firsts: Vec<usize>,
}

impl Groups {
    // The last group comes first. Searches are begun in this order, and those of the last
    // conditions, which speak of all processes, take longest: begun last, one worker would be left
    // with them while the others have nothing to do.
    fn turn_round(&mut self)
        ensures { vec_len self.new.firsts ≡ vec_len self.old.firsts }
    {
        self.firsts.reverse();
        let last = self.firsts.len().saturating_sub(1);
        for place in self.places.iter_mut() {
            *place = last.saturating_sub(*place);
        }
    }
}

/// The place that goes with the mark, which is the next one where none does yet.
pub(crate) fn place_of(
    known: &mut BTreeMap<u64, usize>,
    mark: Option<u64>,
    next: usize,
) -> Result<usize, AllocError> {
    let Some(mark) = mark else {
        return Ok(next);
    };
    if let Some(place) = known.get(&mark) {
        return Ok(*place);
    }
    match known.insert(mark, next) {
        Ok(_) => Ok(next),
        Err(AllocFailed { .. }) => Err(AllocError),
    }
}

/// The groups of conditions with these marks. A condition that has none is alone.
pub(crate) fn grouped(alloc: Global, marks: &[Option<Marks>]) -> Result<Groups, AllocError>
    ensures { IfOk result (λ g. vec_len g.firsts ≤ length marks.now) }
{
    let mut places = Vec::with_capacity(alloc, marks.len())?;
    let mut firsts = Vec::new(alloc);
    let mut known = BTreeMap::new(alloc);
    for index in 0..marks.len() {
        let mark = marks[index].map(|marks| marks.facts);
        let place = place_of(&mut known, mark, firsts.len())?;
        if place == firsts.len() {
            firsts.push(index)?;
        }
        places.push(place)?;
    }
    let mut groups = Groups { places, firsts };
    groups.turn_round();
    Ok(groups)
}

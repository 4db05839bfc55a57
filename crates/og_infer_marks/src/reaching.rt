//! Which actions may come next.

use og_infer_places::{Places, Step};
use std::alloc::{AllocError, Global};

// The places that are still to be left, and which have been reached.
#[derive(Drop)]
struct Frontier {
    open: Vec<u32>,
    reached: Vec<bool>,
}

impl Frontier {
    // Reaches a place.
    fn add(&mut self, place: u32) -> Result<(), AllocError> {
        match self.reached.get_mut(place as usize) {
            Some(reached) if !*reached => {
                *reached = true;
                Ok(self.open.push(place)?)
            }
            _ => Ok(()),
        }
    }

    // Reaches the places to which a step leads.
    fn add_all(&mut self, step: Step<'_>) -> Result<(), AllocError> {
        match step {
            Step::End => Ok(()),
            Step::Go { to } => self.add(to),
            Step::Act { to, .. } => self.add(to),
            Step::Test { yes, no, .. } => {
                self.add(yes)?;
                self.add(no)
            }
        }
    }
}

/// Which of these places a process comes to first on a way from behind this place: their indices.
pub(crate) fn next_of(
    alloc: Global,
    places: &Places,
    from: u32,
    stops: &[u32],
) -> Result<Vec<usize>, AllocError> {
    let count = places.as_slice().len();
    let mut frontier = Frontier {
        open: Vec::new(alloc),
        reached: Vec::from_elem(alloc, false, count)?,
    };
    let mut next = Vec::new(alloc);
    if let Some(place) = places.place(from) {
        frontier.add_all(place.step)?;
    }
    // Each place is reached once.
    for _ in 0..count {
        let Some(number) = frontier.open.pop() else {
            break;
        };
        if let Some(index) = stops.iter().position(|stop| *stop == number) {
            next.push(index)?;
        } else if let Some(place) = places.place(number) {
            frontier.add_all(place.step)?;
        }
    }
    Ok(next)
}

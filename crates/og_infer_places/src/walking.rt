//! Random walks, the same each time.

use crate::sampling::Observer;
use og_typed::Part;
use rand_core::utils::NextWord;
use rand_pcg::Pcg32;
use std::alloc::{AllocError, Global};

/// After how many steps a walk begins anew.
const WALK_LENGTH: u64 = 600;

/// How many steps the main process may make before the others, and after them.
const MAIN_STEPS: u32 = 1_000;

/// The state and the stream with which the generator begins.
const SEED: (u64, u64) = (1, 1);

/// Where the processes stand on a walk, and the values there.
#[derive(Drop)]
struct Walk {
    places: Vec<u32>,
    values: Vec<i64>,
    // Whether all have ended.
    is_over: bool,
}

// The place among this many that a random number chooses, if there is one.
fn chosen(random: u32, count: usize) -> Option<usize> {
    (random as usize).checked_rem(count)
}

impl Walk {
    fn new(alloc: Global) -> Walk {
        Walk {
            places: Vec::new(alloc),
            values: Vec::new(alloc),
            is_over: false,
        }
    }

    // The process stands there now.
    fn put(&mut self, process: usize, place: u32) {
        if let Some(own) = self.places.get_mut(process) {
            *own = place;
        }
    }
}

impl Observer<'_, '_> {
    // Runs a part of the main process, if there is one. Answers whether it has ended.
    fn run_main(&mut self, part: Part, values: &mut [i64]) -> Result<bool, AllocError> {
        let Some(first) = self.places.first(part) else {
            return Ok(true);
        };
        let mut at = self.arrive(first, values)?;
        for _ in 0..MAIN_STEPS {
            let Some(to) = self.places.advance(at, values) else {
                break;
            };
            at = self.arrive(to, values)?;
        }
        Ok(self.places.is_end(at))
    }

    // Puts each process at its first place.
    fn begin_processes(&self, walk: &mut Walk) -> Result<(), AllocError> {
        for p in 0..self.places.processes() {
            if let Some(first) = self.places.first(Part::Process(p)) {
                walk.places.push(first)?;
            }
        }
        Ok(())
    }

    // Begins the walk at a random start.
    fn begin(&mut self, walk: &mut Walk, random: u32) -> Result<(), AllocError> {
        walk.places.clear();
        walk.values.clear();
        walk.is_over = false;
        let starts = self.samples.starts();
        let Some(number) = chosen(random, starts.len()) else {
            return Ok(());
        };
        if let Some(start) = starts.get(number) {
            walk.values.extend_from_slice(start)?;
        }
        if self.run_main(Part::Prologue, &mut walk.values)? {
            self.begin_processes(walk)?;
        }
        self.see(&walk.places, &walk.values)
    }

    // The first process that has not ended, from a random one on.
    fn next_live(&self, places: &[u32], random: u32) -> Option<usize> {
        let first = chosen(random, places.len())?;
        for more in 0..places.len() {
            let process = first.saturating_add(more).checked_rem(places.len())?;
            if !self.places.is_end(*places.get(process)?) {
                return Some(process);
            }
        }
        None
    }

    // The step of a process.
    fn step(&mut self, walk: &mut Walk, process: usize) -> Result<(), AllocError> {
        let Some(at) = walk.places.get(process).copied() else {
            return Ok(());
        };
        let Some(to) = self.places.advance(at, &mut walk.values) else {
            return Ok(());
        };
        let rest = self.arrive(to, &walk.values)?;
        walk.put(process, rest);
        self.see(&walk.places, &walk.values)
    }

    // Goes on by a step of a random process. Where all have ended, the main process runs to its end.
    // Where they never began, nothing happens.
    fn go_on(&mut self, walk: &mut Walk, random: u32) -> Result<(), AllocError> {
        if let Some(process) = self.next_live(&walk.places, random) {
            return self.step(walk, process);
        }
        if !walk.places.is_empty() {
            self.run_main(Part::Epilogue, &mut walk.values)?;
            walk.is_over = true;
        }
        Ok(())
    }
}

/// Notes states on random walks of this many steps together, from the starts that were noted.
///
/// # Errors
///
/// An allocation was refused.
pub(crate) fn see_walks(observer: &mut Observer, steps: u64) -> Result<(), AllocError> {
    let (state, stream) = SEED;
    let mut generator = Pcg32::new(state, stream);
    let mut walk = Walk::new(observer.alloc);
    for number in 0..steps {
        let random: u32 = generator.next_word();
        if walk.is_over || number % WALK_LENGTH == 0 {
            observer.begin(&mut walk, random)?;
        } else {
            observer.go_on(&mut walk, random)?;
        }
    }
    Ok(())
}

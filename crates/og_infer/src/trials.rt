//! Trials: what is proved without some units of conjuncts.

use og_infer_rounds::{Proof, Spot, by_places};
use std::alloc::{AllocError, Global};

/// Units, from one to before another, that are left out together.
#[derive(Clone, Copy, PartialEq, Eq)]
pub(crate) struct Block {
    pub(crate) from: usize,
    pub(crate) to: usize,
}

/// No unit.
pub(crate) const NOTHING: Block = Block { from: 0, to: 0 };

impl Block {
    /// The block of so many units.
    pub(crate) fn of_all(alloc: Global, count: usize) -> Result<Vec<Block>, AllocError> {
        let mut blocks = Vec::new(alloc);
        blocks.push(Block { from: 0, to: count })?;
        Ok(blocks)
    }

    /// Adds the halves of a block that has several units, the first one last.
    pub(crate) fn add_halves(self, blocks: &mut Vec<Block>) -> Result<(), AllocError> {
        let Block { from, to } = self;
        let middle = from.midpoint(to);
        if from < middle {
            blocks.push(Block { from: middle, to })?;
            blocks.push(Block { from, to: middle })?;
        }
        Ok(())
    }

    /// Whether all units of this block are among those of the other.
    pub(crate) fn is_within(self, other: Block) -> bool {
        other.from <= self.from && self.to <= other.to
    }
}

/// A block, and its candidates by places.
#[derive(Drop)]
pub(crate) struct Trial {
    pub(crate) block: Block,
    pub(crate) spots: Vec<Spot>,
}

impl Trial {
    /// Without the candidates of a block of these units.
    pub(crate) fn of(
        alloc: Global,
        units: &[Vec<Spot>],
        block: Block,
    ) -> Result<Trial, AllocError> {
        let mut spots = Vec::new(alloc);
        for unit in units.get(block.from..block.to).unwrap_or(&[]) {
            spots.extend_from_slice(unit)?;
        }
        by_places(&mut spots)?;
        Ok(Trial { block, spots })
    }

    /// Without anything.
    pub(crate) fn of_nothing(alloc: Global) -> Trial {
        Trial {
            block: NOTHING,
            spots: Vec::new(alloc),
        }
    }

    /// The same trial.
    pub(crate) fn copy(&self, alloc: Global) -> Result<Trial, AllocError> {
        Ok(Trial {
            block: self.block,
            spots: Vec::from_slice(alloc, &self.spots)?,
        })
    }
}

/// A duty that is to be proved in the trial of a block.
#[derive(Clone, Copy, PartialEq, Eq)]
pub(crate) struct Task {
    pub(crate) block: Block,
    /// Where the duty stands among those that are tracked.
    pub(crate) index: usize,
}

/// The proof of a task, which might ask so many questions.
#[derive(Drop)]
pub(crate) struct Given {
    pub(crate) share: u64,
    pub(crate) proof: Proof,
}

/// A duty that is to be proved in the trial of this number, with so many questions.
#[derive(Clone, Copy)]
pub(crate) struct Planned {
    pub(crate) trial: usize,
    pub(crate) index: usize,
    pub(crate) share: u64,
}

/// What is to be proved at once.
#[derive(Drop)]
pub(crate) struct Plan {
    pub(crate) trials: Vec<Trial>,
    pub(crate) tasks: Vec<Planned>,
}

impl Plan {
    /// Nothing.
    pub(crate) fn new(alloc: Global) -> Plan {
        Plan {
            trials: Vec::new(alloc),
            tasks: Vec::new(alloc),
        }
    }

    /// The task of a duty that is to be proved.
    pub(crate) fn task(&self, planned: Planned) -> Option<Task> {
        let trial = self.trials.get(planned.trial)?;
        Some(Task {
            block: trial.block,
            index: planned.index,
        })
    }
}

/// What comes next as long as nothing more is left out.
#[derive(Clone, Copy)]
pub(crate) enum Coming<'x> {
    /// These duties, in the same trial.
    Duties(&'x [usize]),
    /// The halves of the block, and then these blocks of units, the last one first.
    Blocks(&'x [Vec<Spot>], &'x [Block]),
}

/// The blocks of units that are tried next, the last one first.
#[derive(Drop)]
pub(crate) struct Next<'x> {
    pub(crate) units: &'x [Vec<Spot>],
    pub(crate) blocks: Vec<Block>,
}

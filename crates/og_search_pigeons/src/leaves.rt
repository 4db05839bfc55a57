//! The leaves of a refutation, which are counted.

use crate::fault::Unrefuted;
use og_search_refutation::{Multiple, Name, Tree};
use og_search_rows::{Place, Rows};
use std::alloc::Global;

/// How many leaves cost a step of the budget.
const LEAVES_A_STEP: u64 = 16;

/// The fact at this place, once.
pub fn once(place: Place) -> Multiple {
    Multiple {
        times: 1,
        name: Name::Given(place),
    }
}

/// The leaves of a refutation: how many there are, the budget that they are taken from, and how
/// much larger they may grow.
#[derive(Drop)]
pub struct Leaves<'r> {
    alloc: Global,
    rows: &'r mut Rows,
    count: u64,
    room: u64,
}

impl<'r> Leaves<'r> {
    /// No leaves yet. They take steps of the budget of these rows, and have so much room.
    pub fn new(rows: &'r mut Rows, room: u64) -> Leaves<'r> {
        Leaves {
            alloc: rows.alloc(),
            rows,
            count: 0,
            room,
        }
    }

    /// Where the leaves are allocated.
    pub fn alloc(&self) -> Global {
        self.alloc
    }

    /// The room that is left.
    pub fn room(&self) -> u64 {
        self.room
    }

    // Counts a leaf. The first one and each that completes this many more cost a step.
    fn count(&mut self) -> Result<(), Unrefuted> {
        if self.count.is_multiple_of(LEAVES_A_STEP) {
            self.rows.spend(1)?;
        }
        self.count = self.count.saturating_add(1);
        Ok(())
    }

    /// The leaf with this sum.
    ///
    /// # Errors
    ///
    /// `Budget` where no step is left, `Size` where the room is too small.
    pub fn close(&mut self, end: Vec<Multiple>) -> Result<Tree, Unrefuted> {
        self.count()?;
        let lines = Vec::new(self.alloc);
        let tree = Tree::Leaf { lines, end };
        let room = self.room.checked_sub(tree.size());
        self.room = room.ok_or(Unrefuted::Size)?;
        Ok(tree)
    }
}

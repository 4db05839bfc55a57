//! Refutations that are put together of those of the parts of a choice, and of the sides of a form.

use crate::proof::{Case, Proof, Sides, Tree};
use og_search_rows::{Inequality, Levels, Place, TOP};
use std::alloc::{AllocError, Global};

/// The parts of a choice that are refuted, the first ones of it, in their order.
#[derive(Drop)]
pub struct Cases {
    choice: Place,
    used: Levels,
    cases: Vec<Case>,
}

impl Cases {
    /// None yet, with room for this many. The choice is the fact at this place. `AllocError` where
    /// an allocation was refused.
    pub fn new(alloc: Global, choice: Place, parts: usize) -> Result<Cases, AllocError> {
        Ok(Cases {
            choice,
            used: Levels::one(choice.level),
            cases: Vec::with_capacity(alloc, parts)?,
        })
    }

    /// How many parts there are.
    pub fn len(&self) -> usize {
        self.cases.len()
    }

    /// Adds the next part: this many facts at this level, and its refutation. `AllocError` where an
    /// allocation was refused.
    pub fn add(&mut self, level: u32, count: usize, proof: Proof) -> Result<(), AllocError> {
        let Proof { used, tree } = proof;
        self.used = self.used.union(used.without(level));
        self.cases.push(Case { level, count, tree })?;
        Ok(())
    }

    /// The refutation of the choice, where these are all of its parts.
    pub fn into_proof(self) -> Proof {
        let Cases {
            choice,
            used,
            cases,
        } = self;
        let tree = Tree::Split { choice, cases };
        Proof { used, tree }
    }
}

/// The place of the only fact of a part or a side at this level.
pub fn assumed_at(level: u32) -> Place {
    Place { level, index: 0 }
}

/// Both sides of a form at this level, with what refutes each. `AllocError` where an allocation was
/// refused.
pub fn branch(
    alloc: Global,
    level: u32,
    form: Inequality,
    first: Tree,
    second: Tree,
) -> Result<Tree, AllocError> {
    let sides = Sides {
        level,
        form,
        first,
        second,
        is_general: false,
        next: None,
    };
    Ok(Tree::Branch(Box::new(alloc, sides)?))
}

// Whether these are the levels of the condition's own facts alone.
fn rests_on_own_facts(used: Levels) -> bool {
    for level in 0..TOP {
        if used.has(level) {
            return false;
        }
    }
    true
}

/// The refutation by both sides of a form, each of which is a fact at this level: that it is at
/// most 0, and that it is at least 1. The second goes into this choice first, if one was named.
/// `AllocError` where an allocation was refused.
pub fn both_sides(
    alloc: Global,
    level: u32,
    form: Inequality,
    next: Option<usize>,
    first: Proof,
    second: Proof,
) -> Result<Proof, AllocError> {
    let others = second.used.without(level);
    let sides = Sides {
        level,
        form,
        first: first.tree,
        second: second.tree,
        is_general: rests_on_own_facts(others),
        next,
    };
    Ok(Proof {
        used: first.used.without(level).union(others),
        tree: Tree::Branch(Box::new(alloc, sides)?),
    })
}

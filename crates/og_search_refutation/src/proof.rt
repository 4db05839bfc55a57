//! What a search found, before the facts have their numbers.

use og_search_rows::{Inequality, Levels, Place, Side};
use std::alloc::{AllocError, Global};

/// How far a refutation is followed for forms to be lifted.
const LIFT_LIMIT: u32 = 70;

/// A fact, an end of the range of `i64`, or a line of the same leaf.
#[derive(Clone, Copy)]
pub enum Name {
    /// The fact at this place.
    Given(Place),
    /// That the variable is within the range of `i64` on this side.
    Range { var: u32, side: Side },
    /// The line with this place in its leaf, from 0.
    Line(usize),
}

/// A multiple of what a name stands for.
#[derive(Clone, Copy)]
pub struct Multiple {
    pub times: u64,
    pub name: Name,
}

/// A line that adds a fact.
#[derive(Drop)]
pub enum Line {
    Sum(Vec<Multiple>),
    Cut { name: Name, divisor: u64 },
}

/// A refutation, and the levels of the facts that it uses.
#[derive(Drop)]
pub struct Proof {
    pub used: Levels,
    pub tree: Tree,
}

/// How facts are refuted.
#[cycle(proof)]
#[derive(Drop)]
pub enum Tree {
    /// Lines, and the sum that closes.
    Leaf {
        lines: Vec<Line>,
        end: Vec<Multiple>,
    },
    /// The choice at this place, and each of its parts.
    Split {
        choice: Place,
        cases: Vec<Case>,
    },
    /// Both sides of a form.
    Branch(Box<Sides>),
}

/// A part of a choice: its level, how many facts it has, and what refutes it.
#[cycle(proof)]
#[derive(Drop)]
pub struct Case {
    pub level: u32,
    pub count: usize,
    pub tree: Tree,
}

/// A form that is at most 0, or at least 1, at this level, and what refutes either; whether the
/// second needs the condition's own facts alone, and the choice that it goes into first, if it was
/// named.
#[cycle(proof)]
#[derive(Drop)]
pub struct Sides {
    pub level: u32,
    pub form: Inequality,
    pub first: Tree,
    pub second: Tree,
    pub is_general: bool,
    pub next: Option<usize>,
}

/// A form that is at most 0 by the condition's own facts, and the choice that shows it, if one was
/// reported.
#[derive(Drop)]
pub struct Lifted {
    pub form: Inequality,
    pub next: Option<usize>,
}

impl Line {
    // The line itself, and its multiples.
    fn size(&self) -> u64 {
        match self {
            Line::Sum(sum) => (sum.len() as u64).saturating_add(1),
            Line::Cut { .. } => 2,
        }
    }
}

fn size_of_lines(lines: &[Line]) -> u64 {
    let mut size = 0u64;
    for line in lines {
        size = size.saturating_add(line.size());
    }
    size
}

// The tree of the last case that is no leaf.
fn last_large(cases: &[Case]) -> Option<&Tree> {
    for case in cases.iter().rev() {
        if !matches!(case.tree, Tree::Leaf { .. }) {
            return Some(&case.tree);
        }
    }
    None
}

// And the other cases are dropped.
fn into_last_large(mut cases: Vec<Case>) -> Option<Tree> {
    for _ in 0..cases.len() {
        if let Some(case) = cases.pop() {
            if !matches!(case.tree, Tree::Leaf { .. }) {
                return Some(case.tree);
            }
        }
    }
    None
}

impl Tree {
    // The tree in which it goes on: the last case that is no leaf, or the first side of a branch.
    fn spine(&self) -> Option<&Tree> {
        match self {
            Tree::Leaf { .. } => None,
            Tree::Split { cases, .. } => last_large(cases),
            Tree::Branch(sides) => Some(&sides.first),
        }
    }

    /// Whether the tree, or one in which it goes on, is a branch whose second side needs the
    /// condition's own facts alone.
    pub fn is_lifting(&self) -> bool {
        let mut tree = self;
        for _ in 0..LIFT_LIMIT {
            if matches!(tree, Tree::Branch(sides) if sides.is_general) {
                return true;
            }
            match tree.spine() {
                Some(next) => tree = next,
                None => break,
            }
        }
        false
    }

    // The tree, and the form of the branch round it, if that is such a branch.
    fn into_spine(self) -> (Option<Tree>, Option<Lifted>) {
        match self {
            Tree::Leaf { .. } => (None, None),
            Tree::Split { cases, .. } => (into_last_large(cases), None),
            Tree::Branch(sides) => {
                let sides = Box::into_inner(sides);
                let (form, next) = (sides.form, sides.next);
                let lifted = if sides.is_general {
                    Some(Lifted { form, next })
                } else {
                    None
                };
                (Some(sides.first), lifted)
            }
        }
    }

    /// The forms of the outermost of those branches, the last one first.
    pub fn into_lifted(self, alloc: Global) -> Result<Vec<Lifted>, AllocError> {
        let mut forms = Vec::new(alloc);
        let mut left = Some(self);
        for _ in 0..LIFT_LIMIT {
            let Some(tree) = left else {
                break;
            };
            let (next, lifted) = tree.into_spine();
            if let Some(lifted) = lifted {
                forms.push(lifted)?;
            }
            left = next;
        }
        forms.reverse();
        Ok(forms)
    }

    /// The size of all leaves.
    #[cycle(leaves)]
    pub fn size_of_leaves(&self) -> u64 {
        match self {
            Tree::Leaf { .. } => self.size(),
            Tree::Split { cases, .. } => size_of_cases(cases),
            Tree::Branch(sides) => {
                let first = sides.first.size_of_leaves();
                first.saturating_add(sides.second.size_of_leaves())
            }
        }
    }

    /// The size of a leaf: its lines and multiples, and four for itself; 0 for other trees.
    pub fn size(&self) -> u64 {
        match self {
            Tree::Leaf { lines, end } => size_of_lines(lines)
                .saturating_add(end.len() as u64)
                .saturating_add(4),
            _ => 0,
        }
    }
}

// The size of all leaves of the cases.
#[cycle(leaves)]
fn size_of_cases(cases: &[Case]) -> u64 {
    let mut size = 0u64;
    for case in cases {
        size = size.saturating_add(case.tree.size_of_leaves());
    }
    size
}

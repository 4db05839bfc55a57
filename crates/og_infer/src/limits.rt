//! How far a search goes, and what it hands out.

use og_typed::Assert;

/// How far a search goes. It counts questions and steps, never seconds.
#[derive(Clone, Copy)]
pub struct Limits {
    /// The steps of each question, as of `og_find::examine`: 20,000 are usual.
    pub budget: u64,
    /// How many questions may be asked in all: 100,000 are usual.
    pub questions: u64,
    /// How many threads search, 1 to 64; below and above it is the nearest of these.
    pub workers: u32,
    /// The last tier of candidates, 1 to 3.
    pub tiers: u8,
}

/// What a search is to hand out.
#[derive(Clone, Copy, PartialEq, Eq)]
pub enum Wanted {
    /// The conjuncts.
    Conjuncts,
    /// Only how many claims they do not prove.
    Completeness,
}

/// What is added to one assertion.
#[derive(Drop)]
pub struct Addition {
    /// The byte offset of the `{` of the assertion.
    pub at: u32,
    /// The conjuncts in the order in which they are printed, each as in a source. One that has an
    /// `or` is in parentheses, unless it is the whole assertion, which was `true` before.
    pub conjuncts: Vec<Vec<u8>>,
    /// The same as assertions.
    pub assertions: Vec<Assert>,
}

/// What a search found.
#[derive(Drop)]
pub struct Inferred {
    /// What is added, by rising offsets. There is none where nothing is needed, or nothing helps.
    pub additions: Vec<Addition>,
    /// How many claims candidates do not prove; none where no tier was finished.
    pub unproved: Option<usize>,
    /// Whether samples refute these, so that no conjuncts over the same variables prove more.
    pub is_final: bool,
    /// The tier of candidates from which the conjuncts come, 1 to 3; 0 where none was finished.
    pub tier: u8,
    /// How many questions were asked.
    pub questions: u64,
}

//! What must hold of the assertions at places.

use og_subst::Action;
use og_typed::Assert;
use std::alloc::{AllocError, Global};

/// What an obligation claims.
#[derive(Clone, Copy, PartialEq, Eq)]
pub enum Claim {
    /// The assertion of this place, after the action if there is one.
    Holds(u32),
    /// The postcondition.
    Post,
    /// Each value that the action assigns is an `i64`.
    Fits,
    /// Nothing can: the hypotheses are never true together.
    Never,
}

/// What must hold in each state of `i64` values.
#[derive(Drop)]
pub struct Obligation<'a> {
    /// The places whose assertions are true before.
    pub places: Vec<u32>,
    /// A test or a guard, and whether it is true.
    pub test: Option<(&'a Assert, bool)>,
    /// Whether it is the begin: the precondition is true, and auxiliaries have their initial
    /// values.
    pub is_begin: bool,
    /// What is done.
    pub action: Option<Action<'a>>,
    /// What holds then.
    pub claim: Claim,
    /// Of `Never` alone: lists of alternatives, of each of which one is true. An alternative is a
    /// place whose assertion is true, and a guard that is false there. There is a list for each
    /// process, and a last one: some process waits.
    pub stuck: Vec<Vec<(u32, Option<&'a Assert>)>>,
}

impl<'a> Obligation<'a> {
    /// Of these places, without an action.
    pub(crate) fn of_places(alloc: Global, places: Vec<u32>, claim: Claim) -> Obligation<'a> {
        Obligation {
            places,
            test: None,
            is_begin: false,
            action: None,
            claim,
            stuck: Vec::new(alloc),
        }
    }

    /// Of one place.
    pub(crate) fn of_place(
        alloc: Global,
        place: u32,
        claim: Claim,
    ) -> Result<Obligation<'a>, AllocError> {
        let mut places = Vec::with_capacity(alloc, 1)?;
        places.push(place)?;
        Ok(Obligation::of_places(alloc, places, claim))
    }

    /// Of the begin.
    pub(crate) fn of_begin(alloc: Global, claim: Claim) -> Obligation<'a> {
        let mut obligation = Obligation::of_places(alloc, Vec::new(alloc), claim);
        obligation.is_begin = true;
        obligation
    }
}

//! What a search claims.

use crate::known::KnownRows;
use crate::rests::Rests;
use crate::search::Search;
use crate::stop::{Halt, Stop};
use og_cert_text::Cert;
use og_search_choices::Part;
use og_search_refutation::{certificate, leaf};
use og_search_rows::{Bounds, Model, TOP};
use std::alloc::{AllocError, Global};

/// What a search ends with. Whoever relies on it has to check it.
#[derive(Drop)]
pub enum Claim {
    /// The certificate closes the facts.
    Closed(Cert),
    /// All facts are true of these values.
    Values(Model),
    /// Nothing: the budget is spent, or there is nothing left to try.
    Nothing,
}

/// The inequalities of a condition over this many variables, of which a look at each shows no
/// contradiction.
#[derive(Drop)]
pub struct Ground {
    variables: u32,
    known: KnownRows,
    bounds: Bounds,
}

/// What the inequalities of a condition say by themselves.
#[derive(Drop)]
pub enum Start {
    /// This.
    Claimed(Claim),
    /// Nothing yet.
    Open(Ground),
}

// What comes of an end without a refutation.
fn stopped(stop: Stop, search: Search) -> Result<Claim, AllocError> {
    match stop {
        Stop::Memory => Err(AllocError),
        Stop::Model => Ok(Claim::Values(search.into_model())),
        Stop::Budget | Stop::Size | Stop::Stuck => Ok(Claim::Nothing),
    }
}

impl Ground {
    // Takes in the inequalities of the part.
    fn take(&mut self, part: &Part) -> Result<(), Halt> {
        self.known.rows.spend(1)?;
        self.known.take_atoms(part, TOP, &mut self.bounds)?;
        self.known.close_new(0, &self.bounds)
    }

    // The certificate that closes this many facts with this row.
    fn closed(&self, alloc: Global, row: usize, count: usize) -> Result<Cert, Stop> {
        let proof = leaf(&self.known.rows, row)?;
        Ok(certificate(alloc, &proof.tree, count)?)
    }

    // What this shows of this many facts, of which the inequalities were taken in with this
    // outcome.
    fn start(
        self,
        alloc: Global,
        count: usize,
        taken: Result<(), Halt>,
    ) -> Result<Start, AllocError> {
        let end = match taken {
            Ok(()) => return Ok(Start::Open(self)),
            Err(Halt::Contradiction(row)) => self.closed(alloc, row, count),
            Err(Halt::Stop(stop)) => Err(stop),
        };
        match end {
            Ok(cert) => Ok(Start::Claimed(Claim::Closed(cert))),
            Err(Stop::Memory) => Err(AllocError),
            Err(_) => Ok(Start::Claimed(Claim::Nothing)),
        }
    }
}

/// Begins a search among facts over this many variables, within the budget, with the inequalities
/// of the part: often they need no choice to be at odds.
///
/// # Errors
///
/// `AllocError` where an allocation was refused.
pub fn begin(alloc: Global, part: &Part, variables: u32, budget: u64) -> Result<Start, AllocError> {
    let mut ground = Ground {
        variables,
        known: KnownRows::new(alloc, budget, part.count)?,
        bounds: Bounds::new(alloc, variables as usize)?,
    };
    let taken = ground.take(part);
    ground.start(alloc, part.count, taken)
}

// The certificate of the refutation that the search finds among this many facts.
fn certified(
    alloc: Global,
    search: &mut Search,
    bounds: &mut Bounds,
    count: usize,
) -> Result<Cert, Stop> {
    let proof = search.run(bounds)?;
    Ok(certificate(alloc, &proof.tree, count)?)
}

/// Searches among the facts of a part, whose inequalities are those with which the search began.
///
/// A step of the budget is a row that is made of others, a fact of a part of a choice, or a level;
/// looking through very many facts or rows costs steps too. The claim is the same each time.
///
/// # Errors
///
/// `AllocError` where an allocation was refused.
pub fn search_among(alloc: Global, part: &Part, ground: Ground) -> Result<Claim, AllocError> {
    let Ground {
        variables,
        known,
        mut bounds,
    } = ground;
    let rests = Rests::new(alloc, &part.choices)?;
    let mut search = Search::new(alloc, part, &rests, variables, known)?;
    match certified(alloc, &mut search, &mut bounds, part.count) {
        Ok(cert) => Ok(Claim::Closed(cert)),
        Err(stop) => stopped(stop, search),
    }
}

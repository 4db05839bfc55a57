//! The leaders of conditions, whose certificates are carried over to their followers.

use og_cert::Cert;
use og_cond::Condition;
use og_facts::{FactList, FactsError, facts};
use og_search_symmetry::Original;
use std::alloc::{AllocError, Global};

/// How many leaders are kept.
const MOST: usize = 32;

/// A condition that leads others, with its number among the leaders and its certificate.
#[derive(Clone, Copy)]
pub struct Leader<'a, 'c> {
    pub number: usize,
    pub condition: &'a Condition<'c>,
    pub cert: &'a Cert,
}

// The facts of the leader with this number.
#[derive(Drop)]
struct Kept<'c> {
    number: usize,
    facts: Original<'c>,
}

/// The facts of some leaders, which are made once for all of their followers.
#[derive(Drop)]
pub struct Leaders<'c> {
    kept: Vec<Kept<'c>>,
}

impl<'c> Leaders<'c> {
    /// The facts of none. Takes no memory.
    pub fn new(alloc: Global) -> Leaders<'c> {
        Leaders {
            kept: Vec::new(alloc),
        }
    }

    fn is_kept(&self, number: usize) -> bool {
        self.kept.iter().any(|kept| kept.number == number)
    }

    // Keeps these facts, and those of none else where there is no room.
    fn keep(&mut self, number: usize, list: FactList<'c>) -> Result<(), AllocError> {
        if self.kept.len() >= MOST {
            self.kept.truncate(0);
        }
        let facts = Original::new(list);
        self.kept.push(Kept { number, facts })?;
        Ok(())
    }

    // Makes the facts of a leader, if they are not there and it has some.
    fn make(&mut self, alloc: Global, leader: Leader<'_, 'c>) -> Result<(), AllocError> {
        if self.is_kept(leader.number) {
            return Ok(());
        }
        match facts(alloc, leader.condition) {
            Ok(list) => self.keep(leader.number, list),
            Err(FactsError::Memory) => Err(AllocError),
            Err(FactsError::Fault(_)) => Ok(()),
        }
    }

    /// The certificate of the leader, carried over to these facts; it has to be checked. None where
    /// that cannot be done.
    pub(crate) fn carried(
        &mut self,
        alloc: Global,
        leader: Leader<'_, 'c>,
        list: &FactList,
    ) -> Result<Option<Cert>, AllocError> {
        self.make(alloc, leader)?;
        for kept in &mut self.kept {
            if kept.number == leader.number {
                return kept.facts.carried(alloc, leader.cert, list);
            }
        }
        Ok(None)
    }
}

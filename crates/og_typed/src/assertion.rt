//! Assertions over numbered variables.

ghost use Rattle.std.specs.Prelude.{◌≡◌, map, IfOk};
ghost use Rattle.og_typed.specs.Plain.{formula};
ghost use Rattle.og_typed.specs.Forms.{each_form, each_form_in};
ghost use Rattle.og_typed.specs.Lists.{formula_list};
ghost use Rattle.og_typed.specs.Occurs.{occurs, occurs_in};
ghost use Rattle.og_linear.specs.Linear.{is_small};

use og_linear::Form;
use std::alloc::{AllocError, Global};

/// An assertion.
#[derive(Debug, Drop)]
pub enum Assert {
    True,
    False,
    Le(Form),
    Eq(Form),
    Ne(Form),
    Not(Box<Assert>),
    And(Vec<Assert>),
    Or(Vec<Assert>),
    Imp(Box<Assert>, Box<Assert>),
}

// Whether the variable occurs in one of the assertions.
#[cycle(mentioning)]
fn some_mentions(all: &[Assert], var: u32) -> bool
    ensures { result ≡ occurs_in var (formula_list (map formula all.now)) }
{
    for a in all {
        if a.mentions(var) {
            return true;
        }
    }
    false
}

impl Assert {
    /// Whether the variable occurs.
    #[cycle(mentioning)]
    #[tactic(auto, using(crate::proofs::Lists::formula_and, crate::proofs::Lists::formula_or))]
    pub fn mentions(&self, var: u32) -> bool
        ensures { result ≡ occurs var (formula self.now) }
    {
        match self {
            Assert::True | Assert::False => false,
            Assert::Le(f) | Assert::Eq(f) | Assert::Ne(f) => f.mentions(var),
            Assert::Not(a) => a.mentions(var),
            Assert::And(all) => some_mentions(all, var),
            Assert::Or(all) => some_mentions(all, var),
            Assert::Imp(a, b) => a.mentions(var) || b.mentions(var),
        }
    }
}

// A box for the copy of an assertion.
#[cycle(copying)]
fn boxed(alloc: Global, assertion: &Assert) -> Result<Box<Assert>, AllocError>
    ensures { IfOk result (λ a. formula a.value ≡ formula assertion.now) }
{
    Ok(Box::new(alloc, assertion.copy(alloc)?)?)
}

// Equal assertions.
#[cycle(copying)]
fn copies(alloc: Global, all: &[Assert]) -> Result<Vec<Assert>, AllocError>
    ensures { IfOk result (λ copies. map formula copies.items ≡ map formula all.now) }
{
    let mut copies = Vec::new(alloc);
    for a in all {
        copies.push(a.copy(alloc)?)?;
    }
    Ok(copies)
}

impl Assert {
    /// An equal assertion.
    #[cycle(copying)]
    #[tactic(auto, using(crate::proofs::Lists::formula_and, crate::proofs::Lists::formula_or))]
    pub fn copy(&self, alloc: Global) -> Result<Assert, AllocError>
        ensures { IfOk result (λ a. formula a ≡ formula self.now) }
    {
        match self {
            Assert::True => Ok(Assert::True),
            Assert::False => Ok(Assert::False),
            Assert::Le(f) => Ok(Assert::Le(f.copy()?)),
            Assert::Eq(f) => Ok(Assert::Eq(f.copy()?)),
            Assert::Ne(f) => Ok(Assert::Ne(f.copy()?)),
            Assert::Not(a) => Ok(Assert::Not(boxed(alloc, a)?)),
            Assert::And(all) => Ok(Assert::And(copies(alloc, all)?)),
            Assert::Or(all) => Ok(Assert::Or(copies(alloc, all)?)),
            Assert::Imp(a, b) => {
                let first = boxed(alloc, a)?;
                Ok(Assert::Imp(first, boxed(alloc, b)?))
            }
        }
    }
}

// Whether each form of the assertions is within the limits of a source.
#[cycle(smallness)]
fn are_small(all: &[Assert]) -> bool
    ensures { result ≡ each_form_in is_small (formula_list (map formula all.now)) }
{
    for a in all {
        if !a.is_small() {
            return false;
        }
    }
    true
}

impl Assert {
    /// Whether each form of the assertion is within the limits of a source. Takes no memory.
    #[cycle(smallness)]
    #[tactic(auto, using(crate::proofs::Lists::formula_and, crate::proofs::Lists::formula_or))]
    pub fn is_small(&self) -> bool
        ensures { result ≡ each_form is_small (formula self.now) }
    {
        match self {
            Assert::True | Assert::False => true,
            Assert::Le(f) | Assert::Eq(f) | Assert::Ne(f) => f.is_small(),
            Assert::Not(a) => a.is_small(),
            Assert::And(all) => are_small(all),
            Assert::Or(all) => are_small(all),
            Assert::Imp(a, b) => a.is_small() && b.is_small(),
        }
    }
}

//! The clauses of a text: those of its tests and guards, of their negations, and of its assertions.

use crate::atom::Atom;
use crate::room::count;
use crate::sums::mentions;
use crate::text::{Assignment, Text};
use og_infer_places::{Place, Places, Step};
use og_typed::Assert;
use std::alloc::{AllocError, Global};

/// The most clauses.
const MOST_CLAUSES: usize = 300;

/// The most different atoms in them.
const MOST_ATOMS: u32 = 4_000;

/// The most clauses of a product.
const MOST_IN_PRODUCT: usize = 8;

/// The most clauses of a conjunction.
const MOST_IN_CONJUNCTION: usize = 1_000;

/// The most literals of a clause.
const LONGEST: usize = 6;

/// The clauses so far, of 2 to 6 atoms each.
#[derive(Drop)]
pub(crate) struct Clauses {
    alloc: Global,
    /// The atoms, each once.
    pub(crate) atoms: Vec<Atom>,
    /// The clauses: the numbers of their atoms, rising.
    pub(crate) clauses: Vec<Vec<u32>>,
}

// The clauses of a product of none, or of a conjunction of none.
fn start(alloc: Global, is_product: bool) -> Result<Vec<Vec<u32>>, AllocError> {
    let mut clauses = Vec::new(alloc);
    if is_product {
        clauses.push(Vec::new(alloc))?;
    }
    Ok(clauses)
}

// Adds the clause with each of the others.
fn put_products(
    alloc: Global,
    clause: &[u32],
    others: &[Vec<u32>],
    products: &mut Vec<Vec<u32>>,
) -> Result<(), AllocError> {
    for other in others {
        let mut product = Vec::from_slice(alloc, clause)?;
        product.extend_from_slice(other)?;
        products.push(product)?;
    }
    Ok(())
}

// The clauses of a disjunction; none where they are too many.
fn product(
    alloc: Global,
    first: &[Vec<u32>],
    second: &[Vec<u32>],
) -> Result<Vec<Vec<u32>>, AllocError> {
    let mut products = Vec::new(alloc);
    if first.len().saturating_mul(second.len()) > MOST_IN_PRODUCT {
        return Ok(products);
    }
    for clause in first {
        put_products(alloc, clause, second, &mut products)?;
    }
    Ok(products)
}

// The clauses of a disjunction or a conjunction.
fn joined(
    alloc: Global,
    mut first: Vec<Vec<u32>>,
    mut second: Vec<Vec<u32>>,
    is_product: bool,
) -> Result<Vec<Vec<u32>>, AllocError> {
    if is_product {
        return product(alloc, &first, &second);
    }
    first.append(&mut second)?;
    first.truncate(MOST_IN_CONJUNCTION);
    Ok(first)
}

impl Clauses {
    /// The clauses of the text, also as said of copies.
    pub(crate) fn of(alloc: Global, places: &Places, text: &Text) -> Result<Clauses, AllocError> {
        let mut clauses = Clauses {
            alloc,
            atoms: Vec::new(alloc),
            clauses: Vec::new(alloc),
        };
        let outline = places.outline();
        clauses.add(&outline.pre().assertion, true)?;
        clauses.add(&outline.post().assertion, true)?;
        clauses.add_places(places)?;
        for assignment in &text.assignments {
            clauses.add_copies(assignment)?;
        }
        Ok(clauses)
    }

    // The number of an atom; none where it has none.
    fn find(&self, atom: &Atom) -> Option<u32> {
        for (number, known) in (0..u32::MAX).zip(&self.atoms) {
            if known.is_same(atom) {
                return Some(number);
            }
        }
        None
    }

    // The number of an atom, which is added where it has none; none where there is no room.
    fn number(&mut self, atom: Atom) -> Result<Option<u32>, AllocError> {
        let place = self.find(&atom);
        let next = count(&self.atoms);
        if place.is_some() || next >= MOST_ATOMS {
            return Ok(place);
        }
        self.atoms.push(atom)?;
        Ok(Some(next))
    }

    // Whether the clause is among those so far.
    fn has(&self, clause: &[u32]) -> bool {
        for known in &self.clauses {
            if known.as_slice() == clause {
                return true;
            }
        }
        false
    }

    // The clause of an atom, or of its negation; none where it says nothing.
    fn single(&mut self, assertion: &Assert, yes: bool) -> Result<Vec<Vec<u32>>, AllocError> {
        let mut clauses = Vec::new(self.alloc);
        let Some(atom) = Atom::of_assertion(self.alloc, assertion)? else {
            return Ok(clauses);
        };
        let atom = if yes { Some(atom) } else { atom.negation()? };
        if let Some(atom) = atom {
            if let Some(number) = self.number(atom)? {
                clauses.push(vec![in self.alloc; number]?)?;
            }
        }
        Ok(clauses)
    }

    // The clauses of all these assertions, or of their negations, of which one is true or all are.
    #[cycle(forms)]
    fn normal_forms(
        &mut self,
        all: &[Assert],
        yes: bool,
        is_product: bool,
    ) -> Result<Vec<Vec<u32>>, AllocError> {
        let mut form = start(self.alloc, is_product)?;
        for a in all {
            let part = self.normal_form(a, yes)?;
            form = joined(self.alloc, form, part, is_product)?;
        }
        Ok(form)
    }

    // The clauses of an assertion, or of its negation, which are true together where it is; fewer
    // where they would be too many.
    #[cycle(forms)]
    fn normal_form(&mut self, assertion: &Assert, yes: bool) -> Result<Vec<Vec<u32>>, AllocError> {
        match assertion {
            Assert::True => start(self.alloc, !yes),
            Assert::False => start(self.alloc, yes),
            Assert::Le(_) | Assert::Eq(_) | Assert::Ne(_) => self.single(assertion, yes),
            Assert::Not(a) => self.normal_form(a, !yes),
            Assert::And(all) => self.normal_forms(all, yes, !yes),
            Assert::Or(all) => self.normal_forms(all, yes, yes),
            Assert::Imp(a, b) => {
                let first = self.normal_form(a, !yes)?;
                let second = self.normal_form(b, yes)?;
                joined(self.alloc, first, second, yes)
            }
        }
    }

    // Adds a clause of 2 to 6 atoms, if there is room.
    fn add_clause(&mut self, mut clause: Vec<u32>) -> Result<(), AllocError> {
        clause.sort_unstable();
        clause.dedup();
        let fits = clause.len() >= 2 && clause.len() <= LONGEST;
        if fits && !self.has(&clause) && self.clauses.len() < MOST_CLAUSES {
            self.clauses.push(clause)?;
        }
        Ok(())
    }

    // Adds the clauses of an assertion, or of its negation.
    fn add(&mut self, assertion: &Assert, yes: bool) -> Result<(), AllocError> {
        if self.clauses.len() >= MOST_CLAUSES {
            return Ok(());
        }
        for clause in self.normal_form(assertion, yes)? {
            self.add_clause(clause)?;
        }
        Ok(())
    }

    // Adds those of the test or guard of a place, and of its negation.
    fn add_step(&mut self, place: &Place) -> Result<(), AllocError> {
        let test = match place.step {
            Step::Test { test, .. } => Some(test),
            Step::Act { guard, .. } => guard,
            Step::End | Step::Go { .. } => None,
        };
        if let Some(test) = test {
            self.add(test, true)?;
            self.add(test, false)?;
        }
        Ok(())
    }

    fn add_places(&mut self, places: &Places) -> Result<(), AllocError> {
        for place in places.as_slice() {
            self.add(&place.note.assertion, true)?;
            self.add_step(place)?;
        }
        Ok(())
    }

    // The atom of this number, said of the copy; the same where it says nothing of its source.
    fn renamed_atom(
        &mut self,
        assignment: &Assignment,
        number: u32,
    ) -> Result<Option<u32>, AllocError> {
        let (Some(atom), Some(source)) = (self.atoms.get(number as usize), assignment.source())
        else {
            return Ok(None);
        };
        if !mentions(&atom.terms, source) {
            return Ok(Some(number));
        }
        match assignment.renamed(self.alloc, atom)? {
            Some(renamed) => self.number(renamed),
            None => Ok(None),
        }
    }

    // The clause of this number, said of the copy; none where that cannot be.
    fn renamed(
        &mut self,
        assignment: &Assignment,
        number: usize,
    ) -> Result<Option<Vec<u32>>, AllocError> {
        let Some(clause) = self.clauses.get(number) else {
            return Ok(None);
        };
        let atoms = clause.clone()?;
        let mut renamed = Vec::new(self.alloc);
        for atom in &atoms {
            match self.renamed_atom(assignment, *atom)? {
                Some(atom) => renamed.push(atom)?,
                None => return Ok(None),
            }
        }
        Ok(Some(renamed))
    }

    // Adds the clauses so far as said of a copy.
    fn add_copies(&mut self, assignment: &Assignment) -> Result<(), AllocError> {
        for number in 0..self.clauses.len() {
            if assignment.is_copy && self.clauses.len() < MOST_CLAUSES {
                if let Some(clause) = self.renamed(assignment, number)? {
                    self.add_clause(clause)?;
                }
            }
        }
        Ok(())
    }
}

//! The literals of an outline.

use crate::atom::Atom;
use crate::clauses::Clauses;
use crate::comparison::{Comparison, Relation};
use crate::domains::Domain;
use crate::gathering::{add_bounds, add_literals};
use crate::room::{Room, count};
use crate::study::Study;
use crate::sums::sum_at;
use crate::table::{Literal, Sum, Table, sum_with};
use og_infer_places::{Places, Samples};
use og_search_rows::Term;
use std::alloc::{AllocError, Global};

/// The literals of an outline, by number: sums of variables that are compared with numbers. Of the
/// first ones clauses are made; the others, bounds of sums, stand alone.
#[derive(Drop)]
pub struct Literals {
    pub sums: Vec<Sum>,
    literals: Vec<Literal>,
    /// How many literals clauses are made of.
    pub clausal: u32,
    /// The clauses of the text, and that a variable with gaps between its values has one of them:
    /// their literals, rising.
    pub texts: Vec<Vec<u32>>,
    /// How many values each variable has in the samples; many, if they are accidents of the starts.
    pub sizes: Vec<usize>,
}

// Adds the clause of these atoms, whose literals are added, if there is room for all of them.
fn add_clause(
    table: &mut Table,
    atoms: &[Atom],
    clause: &[u32],
    texts: &mut Vec<Vec<u32>>,
) -> Result<(), AllocError> {
    let mut literals = Vec::new(*texts.allocator());
    for number in clause {
        let Some(atom) = atoms.get(*number as usize) else {
            return Ok(());
        };
        table.add(atom)?;
        match table.find(atom) {
            Some(literal) => literals.push(literal)?,
            None => return Ok(()),
        }
    }
    literals.sort_unstable();
    texts.push(literals)?;
    Ok(())
}

// Adds that a variable has one of its values, if there is room for that.
fn add_values(
    table: &Table,
    variable: u32,
    domain: &Domain,
    texts: &mut Vec<Vec<u32>>,
) -> Result<(), AllocError> {
    let alloc = *texts.allocator();
    let mut literals = Vec::new(alloc);
    for bound in &domain.values {
        let relation = Relation::Equal;
        let comparison = Comparison {
            relation,
            bound: *bound,
        };
        match table.find(&Atom::of_variable(alloc, variable, comparison)?) {
            Some(literal) => literals.push(literal)?,
            None => return Ok(()),
        }
    }
    texts.push(literals)?;
    Ok(())
}

// Adds that each small variable with gaps between its values has one of them.
fn add_gaps(study: &Study, table: &Table, texts: &mut Vec<Vec<u32>>) -> Result<(), AllocError> {
    for (variable, domain) in (0..study.variables).zip(&study.domains) {
        if domain.is_small() && domain.has_gaps() {
            add_values(table, variable, domain, texts)?;
        }
    }
    Ok(())
}

// The clauses of the text, whose literals are added.
fn add_texts(
    places: &Places,
    study: &Study,
    table: &mut Table,
) -> Result<Vec<Vec<u32>>, AllocError> {
    let clauses = Clauses::of(study.alloc, places, &study.text)?;
    let mut texts = Vec::new(study.alloc);
    add_gaps(study, table, &mut texts)?;
    for clause in &clauses.clauses {
        add_clause(table, &clauses.atoms, clause, &mut texts)?;
    }
    Ok(texts)
}

// Adds all literals. Gives the clauses of the text, and how many literals clauses are made of.
fn fill(
    places: &Places,
    study: &Study,
    table: &mut Table,
) -> Result<(Vec<Vec<u32>>, u32), AllocError> {
    add_literals(study, table)?;
    let texts = add_texts(places, study, table)?;
    let clausal = count(&table.literals);
    add_bounds(study, table)?;
    Ok((texts, clausal))
}

// How many values each variable has.
fn sizes(study: &Study) -> Result<Vec<usize>, AllocError> {
    let mut sizes = Vec::with_capacity(study.alloc, study.domains.len())?;
    for domain in &study.domains {
        sizes.push(domain.size())?;
    }
    Ok(sizes)
}

impl Literals {
    /// The literals of the outline of these places, by its text and by the states that were seen at
    /// the places, as far as there is room.
    ///
    /// # Errors
    ///
    /// An allocation was refused.
    pub fn of(
        alloc: Global,
        places: &Places,
        samples: &Samples,
        room: Room,
    ) -> Result<Literals, AllocError> {
        let study = Study::of(alloc, places, samples, room)?;
        Literals::of_study(places, &study, room)
    }

    // Those of the outline of which this is known.
    fn of_study(places: &Places, study: &Study, room: Room) -> Result<Literals, AllocError> {
        let mut table = Table::new(study.alloc, room);
        let (texts, clausal) = fill(places, study, &mut table)?;
        let sizes = sizes(study)?;
        let Table { sums, literals, .. } = table;
        Ok(Literals {
            sums,
            literals,
            clausal,
            texts,
            sizes,
        })
    }

    /// The number of the sum of a literal.
    pub fn sum_number(&self, literal: u32) -> Option<u32> {
        Some(self.literals.get(literal as usize)?.sum)
    }

    /// The sum of a literal.
    pub fn sum(&self, literal: u32) -> Option<&Sum> {
        self.sums.get(self.sum_number(literal)? as usize)
    }

    /// The terms of the sum of a literal.
    pub fn terms(&self, literal: u32) -> &[Term] {
        match self.sum(literal) {
            Some(sum) => &sum.terms,
            None => &[],
        }
    }

    /// What the sum of a literal is compared with.
    pub fn comparison(&self, literal: u32) -> Option<Comparison> {
        Some(self.literals.get(literal as usize)?.comparison)
    }

    /// The literal as an atom.
    ///
    /// # Errors
    ///
    /// An allocation was refused.
    pub fn atom(&self, alloc: Global, literal: u32) -> Result<Option<Atom>, AllocError> {
        match self.comparison(literal) {
            Some(comparison) => Ok(Some(Atom {
                terms: Vec::from_slice(alloc, self.terms(literal))?,
                comparison,
            })),
            None => Ok(None),
        }
    }

    /// Whether a literal is true of the values.
    pub fn is_true(&self, literal: u32, values: &[i64]) -> bool {
        match (
            self.comparison(literal),
            sum_at(self.terms(literal), values),
        ) {
            (Some(comparison), Some(value)) => comparison.holds(value),
            _ => false,
        }
    }

    /// The literal of an atom, where there is one: of one that stands alone a bound, if it may.
    pub fn find(&self, atom: &Atom, may_be_bound: bool) -> Option<u32> {
        let sum = sum_with(&self.sums, &atom.terms)?;
        let Comparison { relation, bound } = atom.comparison;
        if may_be_bound && !sum.bounds.is_empty() && atom.comparison.is_limit() {
            return sum.bound_literal(sum.bound_place(bound)?, relation);
        }
        for literal in &sum.literals {
            if self.comparison(*literal) == Some(atom.comparison) {
                return Some(*literal);
            }
        }
        None
    }
}

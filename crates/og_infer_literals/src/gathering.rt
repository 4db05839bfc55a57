//! The literals of which clauses are made, and the bounds that stand alone.

use crate::atom::Atom;
use crate::comparison::{Comparison, Relation};
use crate::domains::Domain;
use crate::links::{bounded_pairs, compared_pairs};
use crate::study::Study;
use crate::table::Table;
use crate::text::Assignment;
use og_search_rows::Term;
use std::alloc::{AllocError, Global};
use std::collections::BTreeSet;

/// The most atoms that are renamed by copies.
const MOST_RENAMED: usize = 60;

/// The bounds that states may add to a sum, and to a sum or difference of two variables.
const FREE: usize = 8;

const FREE_OF_TWO: usize = 4;

/// How two variables may compare.
const ORDERS: [(Relation, i64); 6] = [
    (Relation::Equal, 0),
    (Relation::AtMost, 0),
    (Relation::AtLeast, 0),
    (Relation::NotEqual, 0),
    (Relation::AtMost, -1),
    (Relation::AtLeast, 1),
];

// Adds that the variable is in this relation to the number.
fn add_one(
    study: &Study,
    table: &mut Table,
    variable: u32,
    relation: Relation,
    bound: i64,
) -> Result<(), AllocError> {
    let comparison = Comparison { relation, bound };
    table.add(&Atom::of_variable(study.alloc, variable, comparison)?)
}

// Adds what is said of the values of a variable: that it has this one; if it has more than two, that
// it does not; and if it has more than three, bounds between them.
fn add_values_of(
    study: &Study,
    table: &mut Table,
    variable: u32,
    domain: &Domain,
) -> Result<(), AllocError> {
    let last = domain.values.len().saturating_sub(2);
    for (place, value) in domain.values.iter().enumerate() {
        add_one(study, table, variable, Relation::Equal, *value)?;
        if domain.size() > 2 {
            add_one(study, table, variable, Relation::NotEqual, *value)?;
        }
        if !domain.is_input && place > 0 && place < last {
            add_one(study, table, variable, Relation::AtMost, *value)?;
            let next = value.saturating_add(1);
            add_one(study, table, variable, Relation::AtLeast, next)?;
        }
    }
    Ok(())
}

// Adds what is said of the values of the small variables and of inputs.
fn add_values(study: &Study, table: &mut Table) -> Result<(), AllocError> {
    for (variable, domain) in (0..study.variables).zip(&study.domains) {
        if domain.is_input || domain.is_small() {
            add_values_of(study, table, variable, domain)?;
        }
    }
    Ok(())
}

// Whether an atom says of a variable with two values that it has one of them, or not.
fn is_of_two(study: &Study, atom: &Atom) -> bool {
    let Some(variable) = atom.only_variable() else {
        return false;
    };
    match study.domains.get(variable as usize) {
        Some(domain) => domain.size() == 2 && domain.values.contains(&atom.comparison.bound),
        None => false,
    }
}

// Adds an atom and its negation, and of an equation both inequalities.
fn add_atom(table: &mut Table, atom: &Atom) -> Result<(), AllocError> {
    let bound = atom.comparison.bound;
    table.add_both(atom)?;
    if !atom.comparison.is_limit() {
        for relation in [Relation::AtMost, Relation::AtLeast] {
            table.add(&atom.with(Comparison { relation, bound })?)?;
        }
    }
    Ok(())
}

// Adds the atoms of the text.
fn add_atoms(study: &Study, table: &mut Table) -> Result<(), AllocError> {
    for atom in &study.text.atoms {
        if !is_of_two(study, atom) {
            add_atom(table, atom)?;
        }
    }
    Ok(())
}

// The terms of the sum of two variables, the second with this coefficient.
fn both(pair: (u32, u32), second: i128) -> [Term; 2] {
    let (var, other) = pair;
    [
        Term {
            var,
            coefficient: 1,
        },
        Term {
            var: other,
            coefficient: second,
        },
    ]
}

// Adds how two variables compare.
fn add_orders(study: &Study, table: &mut Table, pair: (u32, u32)) -> Result<(), AllocError> {
    for (relation, bound) in &ORDERS {
        table.add(&Atom {
            terms: Vec::from_slice(study.alloc, &both(pair, -1))?,
            comparison: Comparison {
                relation: *relation,
                bound: *bound,
            },
        })?;
    }
    Ok(())
}

// Adds what the text says of the source of a copy, said of the copy, as far as there is room.
fn add_copy(
    study: &Study,
    table: &mut Table,
    assignment: &Assignment,
    room: &mut usize,
) -> Result<(), AllocError> {
    for atom in &study.text.atoms {
        if let Some(renamed) = assignment.renamed(study.alloc, atom)? {
            if *room > 0 && table.find(&renamed).is_none() {
                table.add_both(&renamed)?;
                *room = room.saturating_sub(1);
            }
        }
    }
    Ok(())
}

// Adds what the text says of variables, said of their copies.
fn add_copies(study: &Study, table: &mut Table) -> Result<(), AllocError> {
    let mut room = MOST_RENAMED;
    for assignment in &study.text.assignments {
        if assignment.is_copy {
            add_copy(study, table, assignment, &mut room)?;
        }
    }
    Ok(())
}

/// Adds the literals of values, of the atoms of the text, of variables that stand together in it,
/// and of copies.
pub(crate) fn add_literals(study: &Study, table: &mut Table) -> Result<(), AllocError> {
    add_values(study, table)?;
    add_atoms(study, table)?;
    for pair in &compared_pairs(study.alloc, &study.direct, &study.domains)? {
        add_orders(study, table, *pair)?;
    }
    add_copies(study, table)
}

// Adds bounds of each variable.
fn bound_variables(study: &Study, table: &mut Table) -> Result<(), AllocError> {
    for var in 0..study.variables {
        let term = Term {
            var,
            coefficient: 1,
        };
        table.add_bounds(study, &[term], &study.near, FREE)?;
    }
    Ok(())
}

// The bound and its neighbors.
fn around(alloc: Global, bound: i64) -> Result<BTreeSet<i64>, AllocError> {
    let mut bounds = BTreeSet::new(alloc);
    bounds.insert(bound.saturating_sub(1))?;
    bounds.insert(bound)?;
    bounds.insert(bound.saturating_add(1))?;
    Ok(bounds)
}

// Adds bounds of the sums of the text.
fn bound_forms(study: &Study, table: &mut Table) -> Result<(), AllocError> {
    for form in &study.text.forms {
        if form.terms.len() >= 2 {
            let bounds = around(study.alloc, form.comparison.bound)?;
            table.add_bounds(study, &form.terms, &bounds, FREE)?;
        }
    }
    Ok(())
}

// Adds these bounds of the difference and the sum of two variables.
fn bound_pair(
    study: &Study,
    table: &mut Table,
    pair: (u32, u32),
    bounds: &BTreeSet<i64>,
) -> Result<(), AllocError> {
    table.add_bounds(study, &both(pair, -1), bounds, FREE_OF_TWO)?;
    table.add_bounds(study, &both(pair, 1), bounds, FREE_OF_TWO)
}

// Adds bounds of sums and differences of two variables.
fn bound_pairs(study: &Study, table: &mut Table) -> Result<(), AllocError> {
    let few = study.few()?;
    let domains = &study.domains;
    for pair in &bounded_pairs(study.alloc, &study.direct, domains, study.variables)? {
        bound_pair(study, table, *pair, &few)?;
    }
    Ok(())
}

/// Adds the bounds that stand alone: of variables, of two of them, and of the sums of the text.
pub(crate) fn add_bounds(study: &Study, table: &mut Table) -> Result<(), AllocError> {
    bound_variables(study, table)?;
    bound_forms(study, table)?;
    bound_pairs(study, table)
}

//! The certificate of a refutation: its facts get their numbers.

use crate::fault::Unwritten;
use crate::proof::{Case, Line, Multiple, Name, Tree};
use og_cert_text::{Cert, CertStep, Finish, Source, Term};
use og_linear::{Form, FormError};
use og_search_rows::{Inequality, Place, Side, TOP};
use std::alloc::Global;

// How many facts stand before those of each level.
#[derive(Drop)]
struct Starts {
    alloc: Global,
    starts: Vec<usize>,
}

impl Starts {
    fn set(&mut self, level: u32, start: usize) {
        if let Some(place) = self.starts.get_mut(level as usize) {
            *place = start;
        }
    }

    // The number of the fact at this place.
    fn number(&self, place: Place) -> Option<u32> {
        let start = self.starts.get(place.level as usize).copied()?;
        number_after(start, place.index)
    }
}

// The number of the fact at this place, from 0, after this many others.
fn number_after(count: usize, index: usize) -> Option<u32> {
    let number = count.checked_add(index)?.checked_add(1)?;
    u32::try_from(number).ok()
}

// The fact that the name stands for, where the leaf's lines come after this many facts.
fn source_of(starts: &Starts, count: usize, name: Name) -> Option<Source> {
    match name {
        Name::Given(place) => Some(Source::Known(starts.number(place)?)),
        Name::Range { var, side } => match side {
            Side::Lower => Some(Source::Low(var)),
            Side::Upper => Some(Source::High(var)),
        },
        Name::Line(index) => Some(Source::Known(number_after(count, index)?)),
    }
}

fn term_of(starts: &Starts, count: usize, multiple: Multiple) -> Option<Term> {
    Some(Term {
        times: multiple.times,
        source: source_of(starts, count, multiple.name)?,
    })
}

fn terms_of(starts: &Starts, count: usize, sum: &[Multiple]) -> Result<Vec<Term>, Unwritten> {
    let mut terms = Vec::with_capacity(starts.alloc, sum.len())?;
    for multiple in sum {
        terms.push(term_of(starts, count, *multiple).ok_or(Unwritten::TooLarge)?)?;
    }
    Ok(terms)
}

fn cut_of(starts: &Starts, count: usize, name: Name, divisor: u64) -> Result<CertStep, Unwritten> {
    match source_of(starts, count, name) {
        Some(Source::Known(number)) => Ok(CertStep::Cut(number, divisor)),
        _ => Err(Unwritten::TooLarge),
    }
}

fn step_of(starts: &Starts, count: usize, line: &Line) -> Result<CertStep, Unwritten> {
    match line {
        Line::Sum(sum) => Ok(CertStep::Sum(terms_of(starts, count, sum)?)),
        Line::Cut { name, divisor } => cut_of(starts, count, *name, *divisor),
    }
}

fn leaf_of(
    starts: &Starts,
    count: usize,
    lines: &[Line],
    end: &[Multiple],
) -> Result<Cert, Unwritten> {
    let mut steps = Vec::with_capacity(starts.alloc, lines.len())?;
    for line in lines {
        steps.push(step_of(starts, count, line)?)?;
    }
    Ok(Cert {
        steps,
        finish: Finish::Close(terms_of(starts, count, end)?),
    })
}

fn form_of(alloc: Global, row: &Inequality) -> Result<Form, FormError> {
    let mut form = Form::constant(alloc, row.constant);
    for term in &row.terms {
        form.add_scaled(term.coefficient, &Form::variable(alloc, term.var)?)?;
    }
    Ok(form)
}

// The form of a branch.
fn branch_form(alloc: Global, row: &Inequality) -> Result<Form, Unwritten> {
    match form_of(alloc, row) {
        Ok(form) => Ok(form),
        Err(FormError::Memory) => Err(Unwritten::Memory),
        Err(FormError::Fault(_)) => Err(Unwritten::TooLarge),
    }
}

// The certificate of a refutation that comes after this many facts.
#[cycle(numbering)]
fn cert_of(tree: &Tree, count: usize, starts: &mut Starts) -> Result<Cert, Unwritten> {
    let alloc = starts.alloc;
    let finish = match tree {
        Tree::Leaf { lines, end } => return leaf_of(starts, count, lines, end),
        Tree::Split { choice, cases } => {
            let number = starts.number(*choice).ok_or(Unwritten::TooLarge)?;
            Finish::Split(number, certs_of(cases, count, starts)?)
        }
        Tree::Branch(sides) => {
            let form = branch_form(alloc, &sides.form)?;
            let after = count.checked_add(1).ok_or(Unwritten::TooLarge)?;
            starts.set(sides.level, count);
            let low = cert_of(&sides.first, after, starts)?;
            starts.set(sides.level, count);
            let high = cert_of(&sides.second, after, starts)?;
            Finish::Branch(form, Box::new(alloc, low)?, Box::new(alloc, high)?)
        }
    };
    Ok(Cert {
        steps: Vec::new(alloc),
        finish,
    })
}

#[cycle(numbering)]
fn certs_of(cases: &[Case], count: usize, starts: &mut Starts) -> Result<Vec<Cert>, Unwritten> {
    let mut certs = Vec::with_capacity(starts.alloc, cases.len())?;
    for case in cases {
        let after = count.checked_add(case.count).ok_or(Unwritten::TooLarge)?;
        starts.set(case.level, count);
        certs.push(cert_of(&case.tree, after, starts)?)?;
    }
    Ok(certs)
}

/// The certificate of a refutation of this many facts.
pub fn certificate(alloc: Global, tree: &Tree, count: usize) -> Result<Cert, Unwritten> {
    let mut starts = Starts {
        alloc,
        starts: vec![in alloc; 0; TOP as usize + 1]?,
    };
    starts.set(TOP, 0);
    cert_of(tree, count, &mut starts)
}

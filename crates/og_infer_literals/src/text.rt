//! What the text of an outline says: its atoms, and what its actions assign.

use crate::atom::Atom;
use crate::comparison::Relation;
use crate::sums::mentions;
use og_infer_places::{Place, Places, Step};
use og_linear::{Form, FormError, Map};
use og_search_rows::{Inequality, Term};
use og_subst::Action;
use og_typed::{Assert, Basic};
use std::alloc::{AllocError, Global};

/// The most atoms, and the most assignments, that are looked at.
const MOST: usize = 4_000;

/// What an action makes of a variable: its value after the action, as a sum before it.
#[derive(Drop)]
pub(crate) struct Assignment {
    pub(crate) variable: u32,
    pub(crate) value: Inequality,
    /// Whether the value is that of one other variable, which the action keeps, and a constant.
    pub(crate) is_copy: bool,
}

impl Assignment {
    // The variable less its value; none where a number is too large.
    fn difference(&self, alloc: Global) -> Result<Option<Inequality>, AllocError> {
        let term = Term {
            var: self.variable,
            coefficient: 1,
        };
        let own = Inequality::single(alloc, term, 0)?;
        Inequality::sum(alloc, own.times(1), self.value.times(-1))
    }

    // That the difference is at most 0, where the value has variables, and not this one.
    fn form(&self, alloc: Global) -> Result<Option<Atom>, AllocError> {
        if self.value.terms.is_empty() || self.value.coefficient(self.variable) != 0 {
            return Ok(None);
        }
        match self.difference(alloc)? {
            Some(form) => Atom::of(alloc, form, Relation::AtMost),
            None => Ok(None),
        }
    }

    /// The other variable, where the value is a copy.
    pub(crate) fn source(&self) -> Option<u32> {
        match self.value.terms.as_slice() {
            [only] if self.is_copy => Some(only.var),
            _ => None,
        }
    }

    /// What the atom says of the other variable, of which this one is a copy, said of this one; none
    /// where it says nothing of that one, or something of this one.
    pub(crate) fn renamed(&self, alloc: Global, atom: &Atom) -> Result<Option<Atom>, AllocError> {
        let Some(source) = self.source() else {
            return Ok(None);
        };
        let form = atom.form()?;
        let times = form.coefficient(source);
        if times == 0 || mentions(&atom.terms, self.variable) {
            return Ok(None);
        }
        let Some(difference) = self.difference(alloc)? else {
            return Ok(None);
        };
        match Inequality::sum(alloc, form.times(1), difference.times(times))? {
            Some(form) => Atom::of(alloc, form, atom.comparison.relation),
            None => Ok(None),
        }
    }
}

/// The atoms of an outline, and the assignments of its actions, in the order of the text.
#[derive(Drop)]
pub(crate) struct Text {
    alloc: Global,
    pub(crate) atoms: Vec<Atom>,
    pub(crate) assignments: Vec<Assignment>,
    /// The sums of which other bounds are tried too: those of the atoms, and the differences of
    /// variables and what they are assigned.
    pub(crate) forms: Vec<Atom>,
    /// The numbers that are compared or assigned, with the variable, where it stands alone.
    pub(crate) numbers: Vec<(Option<u32>, i64)>,
}

// The variables that an action assigns, each once, in the order of the text.
fn assigned(alloc: Global, action: &Action) -> Result<Vec<u32>, AllocError> {
    let mut variables = Vec::new(alloc);
    match action {
        Action::Assign(variable, _) => variables.push(*variable)?,
        Action::Await(body) => {
            for basic in *body {
                if let Basic::Assign(variable, _) = basic {
                    if !variables.contains(variable) {
                        variables.push(*variable)?;
                    }
                }
            }
        }
    }
    Ok(variables)
}

// The form that the map has for the variable; none where its numbers are too large.
fn image(alloc: Global, map: &Map, variable: u32) -> Result<Option<Inequality>, AllocError> {
    match Form::variable(alloc, variable)?.apply(map) {
        Ok(form) => Ok(Some(Inequality::of_form(alloc, &form)?)),
        Err(FormError::Memory) => Err(AllocError),
        Err(FormError::Fault(_)) => Ok(None),
    }
}

// Whether this is the value of one other variable, which the action keeps, and a constant.
fn is_copy(action: &Action, variable: u32, value: &Inequality) -> bool {
    match value.terms.as_slice() {
        [only] => only.coefficient == 1 && only.var != variable && !action.assigns(only.var),
        _ => false,
    }
}

impl Text {
    /// The text of the outline.
    pub(crate) fn of(alloc: Global, places: &Places) -> Result<Text, AllocError> {
        let mut text = Text {
            alloc,
            atoms: Vec::new(alloc),
            assignments: Vec::new(alloc),
            forms: Vec::new(alloc),
            numbers: Vec::new(alloc),
        };
        let outline = places.outline();
        text.add_atoms(&outline.pre().assertion)?;
        text.add_atoms(&outline.post().assertion)?;
        for place in places.as_slice() {
            text.add_atoms(&place.note.assertion)?;
            text.add_step(place)?;
        }
        Ok(text)
    }

    fn add_atom(&mut self, assertion: &Assert) -> Result<(), AllocError> {
        if self.atoms.len() < MOST {
            if let Some(atom) = Atom::of_assertion(self.alloc, assertion)? {
                let bound = atom.comparison.bound;
                self.numbers.push((atom.only_variable(), bound))?;
                self.forms.push(atom.with(atom.comparison)?)?;
                self.atoms.push(atom)?;
            }
        }
        Ok(())
    }

    // Adds the atoms of an assertion.
    fn add_atoms(&mut self, assertion: &Assert) -> Result<(), AllocError> {
        match assertion {
            Assert::True | Assert::False => Ok(()),
            Assert::Le(_) | Assert::Eq(_) | Assert::Ne(_) => self.add_atom(assertion),
            Assert::Not(a) => self.add_atoms(a),
            Assert::And(all) | Assert::Or(all) => {
                for a in all {
                    self.add_atoms(a)?;
                }
                Ok(())
            }
            Assert::Imp(a, b) => {
                self.add_atoms(a)?;
                self.add_atoms(b)
            }
        }
    }

    // Adds what an action makes of a variable.
    fn add_assignment(
        &mut self,
        action: &Action,
        map: &Map,
        variable: u32,
    ) -> Result<(), AllocError> {
        let Some(value) = image(self.alloc, map, variable)? else {
            return Ok(());
        };
        if let (true, Ok(number)) = (value.terms.is_empty(), i64::try_from(value.constant)) {
            self.numbers.push((Some(variable), number))?;
        }
        let assignment = Assignment {
            is_copy: is_copy(action, variable, &value),
            variable,
            value,
        };
        if let Some(form) = assignment.form(self.alloc)? {
            self.forms.push(form)?;
        }
        self.assignments.push(assignment)?;
        Ok(())
    }

    // Adds what an action makes of the variables that it assigns.
    fn add_action(&mut self, action: &Action) -> Result<(), AllocError> {
        let map = match action.map(self.alloc) {
            Ok(map) => map,
            Err(FormError::Memory) => return Err(AllocError),
            Err(FormError::Fault(_)) => return Ok(()),
        };
        for variable in &assigned(self.alloc, action)? {
            if self.assignments.len() < MOST {
                self.add_assignment(action, &map, *variable)?;
            }
        }
        Ok(())
    }

    // Adds the test or the action at a place.
    fn add_step(&mut self, place: &Place) -> Result<(), AllocError> {
        match place.step {
            Step::End | Step::Go { .. } => Ok(()),
            Step::Test { test, .. } => self.add_atoms(test),
            Step::Act { guard, action, .. } => {
                if let Some(guard) = guard {
                    self.add_atoms(guard)?;
                }
                self.add_action(&action)
            }
        }
    }
}

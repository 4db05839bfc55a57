//! A certificate for facts in which variables are exchanged.

use crate::colors::{Colors, renamed_by_color};
use crate::comparing::compare_facts;
use crate::counterparts::{Marks, Sides};
use crate::lost::Lost;
use crate::marks::NESTING_LIMIT;
use crate::places::Places;
use crate::renaming::Renaming;
use og_cert_text::{Cert, CertStep, Finish, Source, Term};
use og_facts::{Fact, FactList};
use og_linear::Form;
use std::alloc::{AllocError, Global};

/// A fact that a certificate adds.
#[derive(Clone, Copy)]
enum Added<'a, 'f, 't> {
    /// It is made by the certificate.
    Made,
    /// It is one of a part of a choice.
    Given(Pair<'a, 'f, 't>),
}

/// A fact, and its counterpart with the number of that.
#[derive(Clone, Copy)]
struct Pair<'a, 'f, 't> {
    from: &'a Fact<'f>,
    to: &'a Fact<'t>,
    number: u32,
}

/// Carries certificates of one list of facts over to another.
#[derive(Drop)]
struct Carrier<'a, 'f, 't> {
    alloc: Global,
    from: &'a FactList<'f>,
    to: &'a FactList<'t>,
    // From the variables of the one to those of the other.
    sides: Sides<'a>,
    // From the facts of the one to those of the other.
    places: &'a Places,
    // The facts that the certificate added.
    added: Vec<Added<'a, 'f, 't>>,
}

// The parts of a choice, and those of its counterpart.
#[derive(Clone, Copy)]
struct Choices<'a, 'f, 't> {
    from: &'a [Vec<Fact<'f>>],
    to: &'a [Vec<Fact<'t>>],
}

// The number of the fact at this place.
fn number_at(place: usize) -> Option<u32> {
    u32::try_from(place).ok()?.checked_add(1)
}

// The form with the variables that stand for its own.
fn renamed(alloc: Global, renaming: &Renaming, form: &Form) -> Result<Form, Lost> {
    if !renaming.changes_form(form) {
        return Ok(form.copy()?);
    }
    let mut sum = Form::constant(alloc, form.offset());
    for i in 0..usize::MAX {
        let Some((var, coefficient)) = form.term(i) else {
            break;
        };
        sum.add_scaled(coefficient, &Form::variable(alloc, renaming.name(var))?)?;
    }
    Ok(sum)
}

impl<'a, 'f, 't> Carrier<'a, 'f, 't> {
    // The fact that was added with this number, if it is not one of the list.
    fn added(&self, number: u32) -> Option<Added<'a, 'f, 't>> {
        let place = (number as usize).checked_sub(self.places.len().saturating_add(1))?;
        Some(self.added.get(place).copied().unwrap_or(Added::Made))
    }

    // The number of the counterpart of a fact of the list.
    fn listed(&self, number: u32) -> Option<u32> {
        let place = (number as usize).checked_sub(1)?;
        number_at(self.places.counterpart(place)?)
    }

    // The number of the counterpart of a fact. One that is made has the same.
    fn number(&self, number: u32) -> Result<u32, Lost> {
        match self.added(number) {
            Some(Added::Made) => Ok(number),
            Some(Added::Given(pair)) => Ok(pair.number),
            None => self.listed(number).ok_or(Lost::Counterpart),
        }
    }

    // The fact of this number, which is one of the list.
    fn pair(&self, number: u32) -> Option<Pair<'a, 'f, 't>> {
        let (list, other) = (self.from, self.to);
        let from = list.fact(number)?;
        let number = self.listed(number)?;
        let to = other.fact(number)?;
        Some(Pair { from, to, number })
    }

    // The fact of this number, which is not made by the certificate.
    fn given(&self, number: u32) -> Result<Pair<'a, 'f, 't>, Lost> {
        match self.added(number) {
            Some(Added::Given(pair)) => Ok(pair),
            Some(Added::Made) => Err(Lost::Counterpart),
            None => self.pair(number).ok_or(Lost::Counterpart),
        }
    }

    // The parts of the choice of this number.
    fn choices(&self, number: u32) -> Result<Choices<'a, 'f, 't>, Lost> {
        let pair = self.given(number)?;
        match (pair.from, pair.to) {
            (Fact::Split(from), Fact::Split(to)) => Ok(Choices { from, to }),
            _ => Err(Lost::Counterpart),
        }
    }

    fn source(&self, source: Source) -> Result<Source, Lost> {
        match source {
            Source::Known(number) => Ok(Source::Known(self.number(number)?)),
            Source::Low(var) => Ok(Source::Low(self.sides.renaming.name(var))),
            Source::High(var) => Ok(Source::High(self.sides.renaming.name(var))),
        }
    }

    fn terms(&self, terms: &[Term]) -> Result<Vec<Term>, Lost> {
        let mut carried = Vec::with_capacity(self.alloc, terms.len())?;
        for term in terms {
            let source = self.source(term.source)?;
            carried.push(Term {
                times: term.times,
                source,
            })?;
        }
        Ok(carried)
    }

    fn step(&self, step: &CertStep) -> Result<CertStep, Lost> {
        match step {
            CertStep::Sum(terms) => Ok(CertStep::Sum(self.terms(terms)?)),
            CertStep::Cut(number, divisor) => Ok(CertStep::Cut(self.number(*number)?, *divisor)),
        }
    }

    // Each step adds a fact.
    fn steps(&mut self, steps: &[CertStep]) -> Result<Vec<CertStep>, Lost> {
        let mut carried = Vec::with_capacity(self.alloc, steps.len())?;
        for step in steps {
            carried.push(self.step(step)?)?;
            self.added.push(Added::Made)?;
        }
        Ok(carried)
    }

    // The number of the fact that is added next.
    fn next(&self) -> usize {
        self.places.len().saturating_add(self.added.len())
    }

    // Adds a fact of a part, whose counterpart gets the number after this one.
    fn add(
        &mut self,
        from: &'a Fact<'f>,
        to: Option<&'a Fact<'t>>,
        place: usize,
    ) -> Result<(), Lost> {
        let to = to.ok_or(Lost::Counterpart)?;
        let number = number_at(place).ok_or(Lost::Counterpart)?;
        self.added.push(Added::Given(Pair { from, to, number }))?;
        Ok(())
    }

    // Adds the facts of a part, each with its counterpart.
    fn add_part(&mut self, from: &'a [Fact<'f>], to: &'a [Fact<'t>]) -> Result<(), Lost> {
        let next = self.next();
        if let [only] = from {
            return self.add(only, to.first(), next);
        }
        let marks = Marks::of_part(self.alloc, self.sides, from, to)?;
        let places = Places::of(self.alloc, &marks.from, &marks.to)?;
        for i in 0..from.len() {
            let place = places.counterpart(i).ok_or(Lost::Counterpart)?;
            self.add(&from[i], to.get(place), next.saturating_add(place))?;
        }
        Ok(())
    }

    // For each part of the counterpart of a choice the part that it comes from.
    fn sources(&self, choices: Choices<'a, 'f, 't>) -> Result<Places, Lost> {
        let marks = Marks::of_parts(self.alloc, self.sides, choices.from, choices.to)?;
        Ok(Places::of(self.alloc, &marks.to, &marks.from)?)
    }

    #[cycle(carrying)]
    fn cert(&mut self, cert: &Cert) -> Result<Cert, Lost> {
        let count = self.added.len();
        let steps = self.steps(&cert.steps)?;
        let finish = self.finish(&cert.finish)?;
        self.added.truncate(count);
        Ok(Cert { steps, finish })
    }

    #[cycle(carrying)]
    fn finish(&mut self, finish: &Finish) -> Result<Finish, Lost> {
        match finish {
            Finish::Close(terms) => Ok(Finish::Close(self.terms(terms)?)),
            Finish::Branch(form, low, high) => {
                let form = renamed(self.alloc, self.sides.renaming, form)?;
                let low = self.side(low)?;
                let high = self.side(high)?;
                Ok(Finish::Branch(form, low, high))
            }
            Finish::Split(number, certs) => {
                let choices = self.choices(*number)?;
                let sources = self.sources(choices)?;
                let certs = self.certs(certs, choices, &sources)?;
                Ok(Finish::Split(self.number(*number)?, certs))
            }
        }
    }

    // The certificate of a side of a branch, which adds a fact.
    #[cycle(carrying)]
    fn side(&mut self, cert: &Cert) -> Result<Box<Cert>, Lost> {
        let count = self.added.len();
        self.added.push(Added::Made)?;
        let carried = self.cert(cert)?;
        self.added.truncate(count);
        Ok(Box::new(self.alloc, carried)?)
    }

    // The certificates of the parts of the counterpart of a choice.
    #[cycle(carrying)]
    fn certs(
        &mut self,
        certs: &[Cert],
        choices: Choices<'a, 'f, 't>,
        sources: &Places,
    ) -> Result<Vec<Cert>, Lost> {
        let count = self.added.len();
        let mut carried = Vec::with_capacity(self.alloc, sources.len())?;
        for place in 0..choices.to.len() {
            let source = sources.counterpart(place).ok_or(Lost::Counterpart)?;
            let part = choices.from.get(source).ok_or(Lost::Counterpart)?;
            self.add_part(part, &choices.to[place])?;
            let cert = certs.get(source).ok_or(Lost::Counterpart)?;
            carried.push(self.cert(cert)?)?;
            self.added.truncate(count);
        }
        Ok(carried)
    }
}

// The certificate for the facts of `to`, where these variables stand for others, and something was
// said of one.
fn carry(
    alloc: Global,
    cert: &Cert,
    from: &FactList,
    to: &FactList,
    renaming: &Renaming,
) -> Result<Cert, Lost> {
    if renaming.is_none() {
        return Err(Lost::Counterpart);
    }
    let none = Renaming::none(alloc, from.variables())?;
    let (labels, others) = (renaming.labels(alloc)?, none.labels(alloc)?);
    let sides = Sides {
        renaming,
        from: &labels,
        to: &others,
    };
    let marks = Marks::of_lists(alloc, sides, from.as_slice(), to.as_slice())?;
    let places = Places::of(alloc, &marks.from, &marks.to)?;
    let mut carrier = Carrier {
        alloc,
        from,
        to,
        sides,
        places: &places,
        added: Vec::new(alloc),
    };
    carrier.cert(cert)
}

// The variables that stand at the same places of both lists stand for one another.
fn by_places(alloc: Global, from: &FactList, to: &FactList) -> Result<Renaming, AllocError> {
    let mut renaming = Renaming::none(alloc, from.variables())?;
    compare_facts(&mut renaming, from.as_slice(), to.as_slice(), NESTING_LIMIT);
    Ok(renaming)
}

// That certificate, if nothing that it uses lacks a counterpart.
fn tried(
    alloc: Global,
    cert: &Cert,
    from: &FactList,
    to: &FactList,
    renaming: &Renaming,
) -> Result<Option<Cert>, AllocError> {
    match carry(alloc, cert, from, to, renaming) {
        Ok(cert) => Ok(Some(cert)),
        Err(Lost::Counterpart) => Ok(None),
        Err(Lost::Memory) => Err(AllocError),
    }
}

/// A list of facts from which certificates are carried over to others.
#[derive(Drop)]
pub struct Original<'f> {
    facts: FactList<'f>,
    // The colors of its variables, once they were needed.
    colors: Option<Colors>,
}

impl<'f> Original<'f> {
    /// This list.
    pub fn new(facts: FactList<'f>) -> Original<'f> {
        Original {
            facts,
            colors: None,
        }
    }

    // The variables that have the same color in both lists stand for one another.
    fn by_colors(&mut self, alloc: Global, to: &FactList) -> Result<Renaming, AllocError> {
        let variables = self.facts.variables();
        let own = self.facts.as_slice();
        let mut colors = match self.colors.take() {
            Some(colors) => colors,
            None => Colors::of(alloc, own, variables)?,
        };
        let renaming = renamed_by_color(alloc, own, &mut colors, to.as_slice(), variables)?;
        self.colors = Some(colors);
        Ok(renaming)
    }

    /// A certificate for the facts of `to`, made of one for those of this list: the variables in
    /// which the two differ stand for one another, those at the same places, or those of the same
    /// color, which come first where places say different things of a variable. None where the
    /// lists differ in none, or where something that the certificate uses has no counterpart.
    ///
    /// # Errors
    ///
    /// `AllocError` where an allocation was refused.
    pub fn carried(
        &mut self,
        alloc: Global,
        cert: &Cert,
        to: &FactList,
    ) -> Result<Option<Cert>, AllocError> {
        let placed = by_places(alloc, &self.facts, to)?;
        if !placed.is_denied() {
            if let Some(own) = tried(alloc, cert, &self.facts, to, &placed)? {
                return Ok(Some(own));
            }
        }
        let colored = self.by_colors(alloc, to)?;
        match tried(alloc, cert, &self.facts, to, &colored)? {
            None if placed.is_denied() => tried(alloc, cert, &self.facts, to, &placed),
            own => Ok(own),
        }
    }
}

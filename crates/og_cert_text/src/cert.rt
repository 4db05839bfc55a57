//! Certificates.

use og_linear::Form;

/// Something that a combination takes: a fact, or a bound of a variable.
#[derive(Clone, Copy, Debug, PartialEq, Eq)]
pub enum Source {
    /// The fact of this number, from 1.
    Known(u32),
    /// That the variable of this number, from 0, is at least -9223372036854775808.
    Low(u32),
    /// That the variable of this number, from 0, is at most 9223372036854775807.
    High(u32),
}

/// A multiple of a fact or a bound.
#[derive(Clone, Copy, PartialEq, Eq)]
pub struct Term {
    /// The multiplier.
    pub times: u64,
    /// The fact that is multiplied.
    pub source: Source,
}

/// A step that adds a fact.
#[derive(Drop)]
pub enum CertStep {
    /// The sum of these multiples.
    Sum(Vec<Term>),
    /// The fact of this number, from 1, cut by a divisor.
    Cut(u32, u64),
}

/// A tree of steps that refutes a list of facts.
#[cycle(cert)]
#[derive(Drop)]
pub struct Cert {
    /// The steps, each of which adds a fact.
    pub steps: Vec<CertStep>,
    /// What stands after the steps.
    pub finish: Finish,
}

/// How a certificate ends.
#[cycle(cert)]
#[derive(Drop)]
pub enum Finish {
    /// The sum of these multiples is a constant above 0.
    Close(Vec<Term>),
    /// Either the form is at most 0, and the first certificate refutes that too, or it is at least
    /// 1, and the second does.
    Branch(Form, Box<Cert>, Box<Cert>),
    /// The fact of this number, from 1, is a choice of parts, and there is a certificate for each.
    Split(u32, Vec<Cert>),
}

//! The limits of certificates.

ghost use Rattle.std.specs.Prelude.{◌≡◌, map};
ghost use Rattle.std.specs.List.{list_all};
ghost use Rattle.og_cert_text.specs.Plain.{plain_cert, plain_finish, ref_of, combination_of, step_line};
ghost use Rattle.og_cert_text.specs.Lines.{is_number, is_variable, is_ref, is_combination, is_form, is_line};
ghost use Rattle.og_cert_text.specs.Shallow.{is_shallow, is_well_formed, cert_lines};

use crate::cert::{Cert, CertStep, Finish, Source, Term};
use og_linear::Form;

/// The greatest number of a condition, a fact or a variable.
pub(crate) const NUMBER_LIMIT: u32 = 999_999_999;

/// The greatest multiplier and the greatest divisor.
pub(crate) const FACTOR_LIMIT: u64 = 9_223_372_036_854_775_807;

/// The most certificates of a split.
pub(crate) const PARTS_LIMIT: u32 = 10_000;

/// No branch or split has this many of them round it.
pub(crate) const DEPTH_LIMIT: u32 = 200;

// Whether conditions and facts may have this number.
pub(crate) fn is_number(n: u32) -> bool
    ensures { result ≡ is_number n }
{
    1 <= n && n <= NUMBER_LIMIT
}

// Whether the fact or the variable has a number within the limits.
fn is_source(source: Source) -> bool
    ensures { result ≡ is_ref (ref_of source) }
{
    match source {
        Source::Known(n) => is_number(n),
        Source::Low(v) => v <= NUMBER_LIMIT,
        Source::High(v) => v <= NUMBER_LIMIT,
    }
}

// Whether there are terms, and each is within the limits.
fn is_combination(terms: &[Term]) -> bool
    ensures { result ≡ is_combination (combination_of terms.now) }
{
    if terms.is_empty() {
        return false;
    }
    for t in terms {
        if t.times > FACTOR_LIMIT || !is_source(t.source) {
            return false;
        }
    }
    true
}

// Whether each variable has a number within the limits. The other limits hold of every form.
fn is_form(form: &Form) -> bool
    ensures { result ≡ is_form form.now }
{
    let _constant = form.offset();
    let mut i = 0;
    while let Some((v, _)) = form.term(i) {
        if v > NUMBER_LIMIT {
            return false;
        }
        i += 1;
    }
    true
}

// Whether the step's numbers are within the limits.
fn is_step(step: &CertStep) -> bool
    ensures { result ≡ is_line (step_line step.now) }
{
    match step {
        CertStep::Sum(terms) => is_combination(terms),
        CertStep::Cut(fact, divisor) => is_number(*fact) && *divisor <= FACTOR_LIMIT,
    }
}

// Whether the numbers of each step are within the limits.
fn are_steps(steps: &[CertStep]) -> bool
    ensures { result ≡ list_all is_line (map step_line steps.now) }
{
    for step in steps {
        if !is_step(step) {
            return false;
        }
    }
    true
}

// Whether no branch or split has `DEPTH_LIMIT` of them round it, where the certificate has `depth`
// of them round it.
#[tactic(auto, using(crate::proofs::Plains::plain_split, crate::proofs::Plains::steps_shallow))]
pub(crate) fn is_shallow(cert: &Cert, depth: u32) -> bool
    ensures { result ≡ is_shallow depth (plain_cert cert.now) }
{
    match &cert.finish {
        Finish::Close(_) => true,
        Finish::Branch(_, first, second) => {
            depth < DEPTH_LIMIT && is_shallow(first, depth + 1) && is_shallow(second, depth + 1)
        }
        Finish::Split(_, parts) => {
            if depth >= DEPTH_LIMIT {
                return false;
            }
            for part in parts {
                if !is_shallow(part, depth + 1) {
                    return false;
                }
            }
            true
        }
    }
}

// Whether the numbers of each line are within the limits.
#[cycle(lines)]
#[tactic(auto, using(crate::proofs::Plains::steps_good))]
pub(crate) fn are_lines(cert: &Cert) -> bool
    ensures { result ≡ list_all is_line (cert_lines (plain_cert cert.now)) }
{
    are_steps(&cert.steps) && is_finish(&cert.finish)
}

// Whether the numbers of each line after the steps are within the limits.
#[cycle(lines)]
#[tactic(auto, using(crate::proofs::Plains::plain_split, crate::proofs::Plains::lines_append, crate::proofs::Plains::count_list))]
fn is_finish(finish: &Finish) -> bool
    ensures { result ≡ list_all is_line (cert_lines (plain_finish finish.now)) }
{
    match finish {
        Finish::Close(terms) => is_combination(terms),
        Finish::Branch(form, first, second) => {
            is_form(form) && are_lines(first) && are_lines(second)
        }
        Finish::Split(fact, parts) => {
            if !is_number(*fact) || parts.len() > PARTS_LIMIT as usize {
                return false;
            }
            for part in parts {
                if !are_lines(part) {
                    return false;
                }
            }
            true
        }
    }
}

impl Cert {
    /// Whether the certificate can be written: no branch or split has 200 of them round it, each
    /// sum and each close has a term, and each number is within the limits. Takes no memory.
    ///
    /// Facts have numbers from 1 to 999999999, variables from 0 to 999999999, multipliers and
    /// divisors are at most 9223372036854775807, and a split has at most 10000 certificates.
    pub fn is_well_formed(&self) -> bool
        ensures { result ≡ is_well_formed (plain_cert self.now) }
    {
        is_shallow(self, 0) && are_lines(self)
    }
}

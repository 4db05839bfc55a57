//! The equations that are true of all states so far.

use og_infer_literals::{Room, is_turned, mentions, sum_at, turn};
use og_search_rows::{Inequality, Term, common};
use std::alloc::{AllocError, Global};

/// The greatest number, in magnitude, of an equation that is kept.
const LARGEST: u128 = 1 << 62;

/// The equations of the smallest space with all states so far, as far as there was room for them:
/// sums and constants that are 0 in each, by their first variables, which stand in no other one.
#[derive(Drop)]
pub(crate) struct Hull {
    pub(crate) rows: Vec<Inequality>,
    /// Whether there was a state.
    pub(crate) is_begun: bool,
}

/// An equation that a state makes false, and the value that it has there, or 0 where that is too
/// large.
#[derive(Drop)]
struct Missed {
    row: Inequality,
    value: i128,
}

/// The value of the sum and the constant at a state; none where a number leaves `i128`.
pub(crate) fn value_at(form: &Inequality, values: &[i64]) -> Option<i128> {
    sum_at(&form.terms, values)?.checked_add(form.constant)
}

fn is_large(form: &Inequality) -> bool {
    for term in &form.terms {
        if term.coefficient.unsigned_abs() > LARGEST {
            return true;
        }
    }
    form.constant.unsigned_abs() > LARGEST
}

// Whether something is left of the equation.
fn has_terms(form: &Inequality) -> bool {
    !form.terms.is_empty()
}

/// The same equation without a common divisor, with a first coefficient above 0; none where nothing
/// is left of it, or a number is too large.
pub(crate) fn tidied(alloc: Global, form: Inequality) -> Result<Option<Inequality>, AllocError> {
    let divisor = common(form.divisor(), form.constant);
    let Some(mut form) = form.divided(alloc, divisor)? else {
        return Ok(None);
    };
    if is_turned(&form.terms) {
        turn(&mut form);
    }
    if form.terms.is_empty() || is_large(&form) {
        return Ok(None);
    }
    Ok(Some(form))
}

// Whether m times the first term is k times the second one.
fn are_equal_times(x: Term, m: i128, y: Term, k: i128) -> bool {
    let product = k.checked_mul(y.coefficient);
    x.var == y.var && product.is_some() && product == m.checked_mul(x.coefficient)
}

// Whether the one sum is a multiple of the other.
fn are_multiples(a: &[Term], b: &[Term]) -> bool {
    let (Some(first), Some(second)) = (a.first(), b.first()) else {
        return false;
    };
    let (m, k) = (second.coefficient, first.coefficient);
    if a.len() != b.len() {
        return false;
    }
    for i in 0..a.len() {
        if !are_equal_times(a[i], m, b[i], k) {
            return false;
        }
    }
    true
}

// The first one less as much of the second that a number that is m in the first and k in the second
// becomes 0; none where a number is too large.
fn cleared(
    alloc: Global,
    first: &Inequality,
    m: i128,
    second: &Inequality,
    k: i128,
) -> Result<Option<Inequality>, AllocError> {
    let divisor = common(m, k);
    let (Some(times), Some(less)) = (k.checked_div(divisor), m.checked_div(divisor)) else {
        return Ok(None);
    };
    Inequality::sum(alloc, first.times(times), second.times(less.wrapping_neg()))
}

impl Missed {
    // An equation made true of the state too, by the one that is missed; none where there is no room
    // for it.
    fn mended(
        &self,
        alloc: Global,
        row: &Inequality,
        values: &[i64],
        room: Room,
    ) -> Result<Option<Inequality>, AllocError> {
        let Some(value) = value_at(row, values) else {
            return Ok(None);
        };
        if self.value == 0 {
            return Ok(None);
        }
        let Some(sum) = cleared(alloc, row, value, &self.row, self.value)? else {
            return Ok(None);
        };
        let Some(mended) = tidied(alloc, sum)? else {
            return Ok(None);
        };
        if mended.terms.len() as u64 > room.terms {
            return Ok(None);
        }
        Ok(Some(mended))
    }

    // Makes an equation true of the state too. Nothing is left of it where there is no room.
    fn mend(
        &self,
        alloc: Global,
        row: &mut Inequality,
        values: &[i64],
        room: Room,
    ) -> Result<(), AllocError> {
        if value_at(row, values) == Some(0) {
            return Ok(());
        }
        *row = match self.mended(alloc, row, values, room)? {
            Some(mended) => mended,
            None => Inequality::number(alloc, 0),
        };
        Ok(())
    }
}

// The last of these that the state makes false.
fn last_missed(rows: &[Inequality], values: &[i64]) -> Option<usize> {
    let mut last = None;
    for (place, row) in rows.iter().enumerate() {
        if value_at(row, values) != Some(0) {
            last = Some(place);
        }
    }
    last
}

impl Hull {
    /// That of no state.
    pub(crate) fn new(alloc: Global) -> Hull {
        Hull {
            rows: Vec::new(alloc),
            is_begun: false,
        }
    }

    /// Whether all equations are true of the values. Without a state nothing is.
    pub(crate) fn admits(&self, values: &[i64]) -> bool {
        for row in &self.rows {
            if value_at(row, values) != Some(0) {
                return false;
            }
        }
        self.is_begun
    }

    // Each variable has its value.
    fn begin(&mut self, alloc: Global, values: &[i64], room: Room) -> Result<(), AllocError> {
        self.is_begun = true;
        for (var, value) in (0..room.variables).zip(values) {
            let term = Term {
                var,
                coefficient: 1,
            };
            let constant = i128::from(*value).wrapping_neg();
            self.rows.push(Inequality::single(alloc, term, constant)?)?;
        }
        Ok(())
    }

    // Makes all equations true of the state, by the one at the place, which goes.
    fn weaken(
        &mut self,
        alloc: Global,
        place: usize,
        values: &[i64],
        room: Room,
    ) -> Result<(), AllocError> {
        if place >= self.rows.len() {
            return Ok(());
        }
        let row = self.rows.remove(place);
        let missed = Missed {
            value: value_at(&row, values).unwrap_or(0),
            row,
        };
        for row in self.rows.iter_mut() {
            missed.mend(alloc, row, values, room)?;
        }
        self.rows.retain(has_terms);
        Ok(())
    }

    /// Weakens the equations so that they are true of the values. Whether something changed.
    pub(crate) fn admit(
        &mut self,
        alloc: Global,
        values: &[i64],
        room: Room,
    ) -> Result<bool, AllocError> {
        if !self.is_begun {
            self.begin(alloc, values, room)?;
            return Ok(true);
        }
        match last_missed(&self.rows, values) {
            Some(place) => {
                self.weaken(alloc, place, values, room)?;
                Ok(true)
            }
            None => Ok(false),
        }
    }

    /// Whether the equation follows from these ones. Without a state each does.
    pub(crate) fn implies(&self, alloc: Global, form: &Inequality) -> Result<bool, AllocError> {
        let mut rest = form.copy()?;
        for row in &self.rows {
            let first = row.terms.first().copied();
            if let Some(Term { var, coefficient }) = first {
                match cleared(alloc, &rest, rest.coefficient(var), row, coefficient)? {
                    Some(less) => rest = less,
                    None => return Ok(false),
                }
            }
        }
        Ok(!self.is_begun || rest.terms.is_empty() && rest.constant == 0)
    }

    // Whether an equation says which value the variable has.
    fn fixes(&self, variable: u32) -> bool {
        for row in &self.rows {
            if row.terms.len() == 1 && mentions(&row.terms, variable) {
                return true;
            }
        }
        false
    }

    // Whether the equations say which values the variables of the sum have.
    fn fixes_all(&self, terms: &[Term]) -> bool {
        for term in terms {
            if !self.fixes(term.var) {
                return false;
            }
        }
        true
    }

    // Whether one of the equations says something of a multiple of the sum alone.
    fn says_multiple(&self, terms: &[Term]) -> bool {
        for row in &self.rows {
            if are_multiples(&row.terms, terms) {
                return true;
            }
        }
        false
    }

    /// Whether the equations say which value the sum has, or one of them says something of a
    /// multiple of it alone.
    pub(crate) fn says(&self, terms: &[Term]) -> bool {
        self.fixes_all(terms) || self.says_multiple(terms)
    }

    /// Whether the variable is the first one of an equation.
    pub(crate) fn leads(&self, variable: u32) -> bool {
        for row in &self.rows {
            if matches!(row.terms.first(), Some(first) if first.var == variable) {
                return true;
            }
        }
        false
    }
}

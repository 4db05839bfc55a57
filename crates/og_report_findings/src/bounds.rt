//! The numbers that a program assigns to a variable, and what bounds one.

ghost use Rattle.std.specs.Prelude.{◌≡◌, ◌≤◌, ◌++◌, ℤ, List, int_lt, filter, map, option_map, IfOk, OnOk, Option};
ghost use Rattle.std.specs.List.{list_any};
ghost use Rattle.og_typed.specs.Plain.{formula, noted, simple, statement};
ghost use Rattle.og_report_findings.specs.Bounds.{with_number, with_constant, with_form, with_simple, with_body, with_statement, with_steps, first_of, numbers_of, others, is_about, bounds, is_bounded, assigned};
ghost use Rattle.og_report_text.specs.Conjuncts.{conjuncts, speaks_of};
ghost use Rattle.og_report_text.specs.Seen.{formulas_of};
ghost use Rattle.og_review_text.specs.Seen.{steps_of};
ghost use Rattle.og_review_text.specs.Steps.{all_steps};

use og_linear::Form;
use og_report_text::add_conjuncts;
use og_review_text::Step;
use og_typed::{Assert, Basic, Note, Outline, Stmt};
use std::alloc::{AllocError, Global};

// Adds those of the numbers that are smaller.
fn add_smaller(list: &mut Vec<i128>, numbers: &[i128], number: i128) -> Result<(), AllocError>
    ensures { OnOk result (list.new.items ≡ list.old.items
        ++ filter (λ n. int_lt n number) numbers.now) }
{
    for n in numbers {
        if *n < number {
            list.push(*n)?;
        }
    }
    Ok(())
}

// Adds those that are larger.
fn add_larger(list: &mut Vec<i128>, numbers: &[i128], number: i128) -> Result<(), AllocError>
    ensures { OnOk result (list.new.items ≡ list.old.items
        ++ filter (λ n. int_lt number n) numbers.now) }
{
    for n in numbers {
        if number < *n {
            list.push(*n)?;
        }
    }
    Ok(())
}

// Rising numbers with one more.
fn with_number(alloc: Global, numbers: &[i128], number: i128) -> Result<Vec<i128>, AllocError>
    ensures { IfOk result (λ v. v.items ≡ with_number number numbers.now) }
{
    let mut list = Vec::with_capacity(alloc, numbers.len())?;
    add_smaller(&mut list, numbers, number)?;
    list.push(number)?;
    add_larger(&mut list, numbers, number)?;
    Ok(list)
}

// The numbers that a variable is assigned, rising; `None` where it is assigned anything else.
#[derive(Drop)]
struct Numbers {
    list: Option<Vec<i128>>,
}

impl Numbers {
    // With the value of a right side.
    fn add_form(&mut self, alloc: Global, form: &Form) -> Result<(), AllocError>
        ensures { OnOk result (option_map (λ v. v.items) self.new.list
            ≡ with_form form.now (option_map (λ v. v.items) self.old.list)) }
    {
        let Some(numbers) = &self.list else {
            return Ok(());
        };
        self.list = match form.term(0) {
            Some(_) => None,
            None => Some(with_number(alloc, numbers, form.offset())?),
        };
        Ok(())
    }

    // With what an assignment of an await assigns to the variable.
    fn add_basic(&mut self, alloc: Global, basic: &Basic, var: u32) -> Result<(), AllocError>
        ensures { OnOk result (option_map (λ v. v.items) self.new.list
            ≡ with_simple var (simple basic.now) (option_map (λ v. v.items) self.old.list)) }
    {
        match basic {
            Basic::Assign(assigned, form) if *assigned == var => self.add_form(alloc, form),
            Basic::Assign(..) | Basic::Skip => Ok(()),
        }
    }

    fn add_body(&mut self, alloc: Global, body: &[Basic], var: u32) -> Result<(), AllocError>
        ensures { OnOk result (option_map (λ v. v.items) self.new.list
            ≡ with_body var (map simple body.now) (option_map (λ v. v.items) self.old.list)) }
    {
        for basic in body {
            self.add_basic(alloc, basic, var)?;
        }
        Ok(())
    }

    fn add_statement(&mut self, alloc: Global, stmt: &Stmt, var: u32) -> Result<(), AllocError>
        ensures { OnOk result (option_map (λ v. v.items) self.new.list
            ≡ with_statement var (statement stmt.now) (option_map (λ v. v.items) self.old.list)) }
    {
        match stmt {
            Stmt::Assign(assigned, form) if *assigned == var => self.add_form(alloc, form),
            Stmt::Await(_, body) => self.add_body(alloc, body, var),
            Stmt::Skip | Stmt::Assign(..) | Stmt::If(..) | Stmt::While(..) => Ok(()),
        }
    }

    fn add_steps(&mut self, alloc: Global, steps: &[Step], var: u32) -> Result<(), AllocError>
        ensures { OnOk result (option_map (λ v. v.items) self.new.list
            ≡ with_steps var (steps_of steps.now) (option_map (λ v. v.items) self.old.list)) }
    {
        for step in steps {
            self.add_statement(alloc, &step.item.stmt, var)?;
        }
        Ok(())
    }
}

// The first value of an auxiliary; nothing of any other variable.
fn first_of(alloc: Global, outline: &Outline, var: u32) -> Result<Vec<i128>, AllocError>
    ensures { IfOk result (λ v. v.items ≡ first_of outline.now var) }
{
    let mut list = Vec::new(alloc);
    if outline.vars() <= var {
        let index = (var - outline.vars()) as usize;
        if let Some(value) = outline.aux_values().get(index) {
            list.push(i128::from(*value))?;
        }
    }
    Ok(list)
}

// The numbers that an outline with these steps assigns to the variable, rising, with the first
// value of an auxiliary; `None` where it assigns anything else to it.
fn numbers_of(
    alloc: Global,
    outline: &Outline,
    steps: &[Step],
    var: u32,
) -> Result<Option<Vec<i128>>, AllocError>
    requires { steps_of steps.now ≡ all_steps outline.now }
    ensures { IfOk result (λ n. option_map (λ v. v.items) n ≡ numbers_of outline.now var) }
{
    let mut numbers = Numbers {
        list: Some(first_of(alloc, outline, var)?),
    };
    numbers.add_steps(alloc, steps, var)?;
    Ok(numbers.list)
}

/// Of each variable of an outline with these steps the numbers that it is assigned, rising, with the first
/// value of an auxiliary; `None` of one that is assigned anything else.
///
/// # Errors
///
/// An allocation was refused.
#[tactic(auto, using(crate::proofs::Bounded::more_assigned))]
pub(crate) fn assigned(
    alloc: Global,
    outline: &Outline,
    steps: &[Step],
) -> Result<Vec<Option<Vec<i128>>>, AllocError>
    requires { steps_of steps.now ≡ all_steps outline.now }
    ensures { IfOk result (λ v. map (option_map (λ l. l.items)) v.items ≡ assigned outline.now) }
{
    outline.follows_rule();
    let mut all = Vec::new(alloc);
    for var in 0..outline.names().len() as u32 {
        all.push(numbers_of(alloc, outline, steps, var)?)?;
    }
    Ok(all)
}

/// All variables of this many but one.
///
/// # Errors
///
/// An allocation was refused.
#[tactic(auto, using(crate::proofs::Bounded::more_others))]
pub(crate) fn others(alloc: Global, count: u32, var: u32) -> Result<Vec<u32>, AllocError>
    ensures { IfOk result (λ v. v.items ≡ others count var) }
{
    let mut list = Vec::new(alloc);
    for other in 0..count {
        if other != var {
            list.push(other)?;
        }
    }
    Ok(list)
}

// Whether one of the assertions speaks of the variable, and of none of the others.
fn is_about_one(all: &[&Assert], var: u32, others: &[u32]) -> bool
    ensures { result ≡ list_any (is_about others.now var) (formulas_of all.now) }
{
    for assert in all {
        if assert.mentions(var) && !speaks_of(others, assert) {
            return true;
        }
    }
    false
}

// Whether a conjunct of the assertion does.
fn bounds(alloc: Global, note: &Note, var: u32, others: &[u32]) -> Result<bool, AllocError>
    ensures { IfOk result (λ b. b ≡ bounds others.now var (noted note.now)) }
{
    let mut all = Vec::new(alloc);
    add_conjuncts(&mut all, &note.assertion)?;
    Ok(is_about_one(&all, var, others))
}

/// Whether a conjunct of one of the assertions speaks of the variable, and of none of the others.
///
/// # Errors
///
/// An allocation was refused.
pub(crate) fn is_bounded(
    alloc: Global,
    known: &[&Note],
    var: u32,
    others: &[u32],
) -> Result<bool, AllocError>
    ensures { IfOk result (λ b. b ≡ is_bounded others.now var (map (λ n. noted n.now) known.now)) }
{
    for note in known {
        if bounds(alloc, note, var, others)? {
            return Ok(true);
        }
    }
    Ok(false)
}

// DEV
fn speaks_of(vars: &[u32], assert: &Assert) -> bool
    ensures { result ≡ speaks_of vars.now (formula assert.now) }
{
    vars.iter().any(|var| assert.mentions(*var))
}

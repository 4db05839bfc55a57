//! The parts of a script.

ghost use Rattle.std.specs.Prelude.{◌≡◌, ◌≤◌, ◌++◌, length, IfOk, OnOk};
ghost use Rattle.og_cond.specs.Seen.{seen};
ghost use Rattle.og_report_conditions.specs.Script.{prelude_text, ending_text, asked_lines, condition_lines, declared_line, range_line, variable_lines, variables_lines, opening_text};

use crate::goals::{put_goal, put_range_between};
use crate::hypotheses::put_hypotheses;
use crate::terms::put_variable;
use og_cond::Condition;
use og_report_text::{Places, put_heading};
use og_text::Name;
use std::alloc::{AllocError, Global};

// What stands before all variables.
#[tactic(auto, unfolding(crate::specs::Script::prelude_text))]
fn prelude(alloc: Global) -> Result<Vec<u8>, AllocError>
    ensures { IfOk result (λ v. v.items ≡ prelude_text) }
{
    Vec::from_slice(
        alloc,
        b"(set-logic QF_LIA)\n(define-fun i64 ((v Int)) Bool (<= (- 9223372036854775808) v 9223372036854775807))\n",
    )
}

#[tactic(auto, unfolding(crate::specs::Script::ending_text))]
fn put_ending(text: &mut Vec<u8>) -> Result<(), AllocError>
    ensures { OnOk result (text.new.items ≡ text.old.items ++ ending_text) }
{
    text.extend_from_slice(b"))\n(check-sat)\n(pop 1)\n")
}

// That the goal is false, and the question.
fn put_asked(text: &mut Vec<u8>, names: &[Name], condition: &Condition) -> Result<(), AllocError>
    ensures { OnOk result (text.new.items ≡ text.old.items
        ++ asked_lines names.now (seen condition.now)) }
{
    text.extend_from_slice(b"(assert (not ")?;
    put_goal(text, names, &condition.action, &condition.goal)?;
    put_ending(text)
}

/// Adds a condition with this number to the text: between `push` and `pop` a comment that gives its
/// number, its kind and its places, what it starts from, that what it claims is false, and the
/// question. It is true exactly where the answer to its `check-sat` is `unsat`. A variable `x` is
/// `$x`.
///
/// # Errors
///
/// An allocation was refused; the text has what it had, and perhaps a part of this.
pub fn put_condition(
    text: &mut Vec<u8>,
    names: &[Name],
    places: &Places,
    number: u128,
    condition: &Condition,
) -> Result<(), AllocError>
    ensures { OnOk result (text.new.items ≡ text.old.items
        ++ condition_lines names.now places.now number (seen condition.now)) }
{
    text.extend_from_slice(b"(push 1)\n; ")?;
    put_heading(text, places, number, condition)?;
    put_hypotheses(text, names, condition.hypotheses.as_slice())?;
    put_asked(text, names, condition)
}

fn put_declared(text: &mut Vec<u8>, names: &[Name], var: u32) -> Result<(), AllocError>
    ensures { OnOk result (text.new.items ≡ text.old.items ++ declared_line names.now var) }
{
    text.extend_from_slice(b"(declare-const ")?;
    put_variable(text, names, var)?;
    text.extend_from_slice(b" Int)\n")
}

fn put_range_line(text: &mut Vec<u8>, names: &[Name], var: u32) -> Result<(), AllocError>
    ensures { OnOk result (text.new.items ≡ text.old.items ++ range_line names.now var) }
{
    put_range_between(text, names, b"(assert ", var, b")\n")
}

// A variable and its range.
fn put_declaration(text: &mut Vec<u8>, names: &[Name], var: u32) -> Result<(), AllocError>
    ensures { OnOk result (text.new.items ≡ text.old.items ++ variable_lines names.now var) }
{
    put_declared(text, names, var)?;
    put_range_line(text, names, var)
}

// All variables.
fn put_variables(text: &mut Vec<u8>, names: &[Name]) -> Result<(), AllocError>
    requires { length names.now ≤ 256 }
    ensures { OnOk result (text.new.items ≡ text.old.items ++ variables_lines names.now 0 names.now) }
{
    for var in 0..names.len() {
        put_declaration(text, names, var as u32)?;
    }
    Ok(())
}

/// What stands before the conditions: the logic, and the variables with these names and their
/// ranges.
///
/// # Errors
///
/// An allocation was refused.
pub fn opening(alloc: Global, names: &[Name]) -> Result<Vec<u8>, AllocError>
    requires { length names.now ≤ 256 }
    ensures { IfOk result (λ text. text.items ≡ opening_text names.now) }
{
    let mut text = prelude(alloc)?;
    put_variables(&mut text, names)?;
    Ok(text)
}

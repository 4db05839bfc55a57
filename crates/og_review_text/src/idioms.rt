//! Steps that machines have as one instruction.

ghost use Rattle.std.specs.Prelude.{◌≡◌, ◌++◌, ℕ, [], ◌∷◌, map, IfOk, OnOk};
ghost use Rattle.og_typed.specs.Plain.{formula, simple, statement};
ghost use Rattle.og_typed.specs.Syntax.{Set};
ghost use Rattle.og_review_text.specs.Seen.{move_of, moves_of};
ghost use Rattle.og_review_text.specs.Idioms as plain;

use og_linear::Form;
use og_typed::{Assert, Basic, Stmt};
use std::alloc::{AllocError, Global};

/// What machines have as one instruction.
#[derive(Clone, Copy, PartialEq, Eq)]
pub(crate) enum Idiom {
    FetchAndAdd,
    TestAndSet,
    Swap,
    CompareAndSwap,
}

// An assignment of a step: the variable, and the sum.
#[derive(Clone, Copy)]
struct Move<'a> {
    var: u32,
    form: &'a Form,
}

// Whether a term is the variable with factor 1.
fn is_once(var: u32, term: Option<(u32, i128)>) -> bool
    ensures { result ≡ plain.is_once var term }
{
    match term {
        Some((other, factor)) => var == other && factor == 1,
        None => false,
    }
}

// Whether the sum has no variable.
fn is_constant(form: &Form) -> bool
    ensures { result ≡ plain.is_constant form.now }
{
    form.term(0).is_none()
}

// Whether it is the variable and a constant.
fn is_moved(var: u32, form: &Form) -> bool
    ensures { result ≡ plain.is_moved var form.now }
{
    is_once(var, form.term(0)) && form.term(1).is_none()
}

// Whether it is the variable.
fn is_alone(var: u32, form: &Form) -> bool
    ensures { result ≡ plain.is_alone var form.now }
{
    is_moved(var, form) && form.offset() == 0
}

// Whether it is the two variables, in this order.
fn is_pair(var: u32, other: u32, form: &Form) -> bool
    ensures { result ≡ plain.is_pair var other form.now }
{
    is_once(var, form.term(0))
        && is_once(other, form.term(1))
        && form.term(2).is_none()
        && form.offset() == 0
}

// The idiom of one assignment.
fn one_move(var: u32, first: Move) -> Option<Idiom>
    ensures { result ≡ plain.one_move var (move_of first.entry) }
{
    if first.var == var && is_moved(var, first.form) {
        Some(Idiom::FetchAndAdd)
    } else {
        None
    }
}

// The idiom of an assignment to the variable behind one that reads it into another.
fn second_move(var: u32, read: u32, form: &Form) -> Option<Idiom>
    ensures { result ≡ plain.second_move var read form.now }
{
    if is_constant(form) {
        Some(Idiom::TestAndSet)
    } else if is_moved(var, form) || is_moved(read, form) {
        Some(Idiom::FetchAndAdd)
    } else if form.mentions(var) {
        None
    } else {
        Some(Idiom::Swap)
    }
}

// The idiom of two assignments.
fn two_moves(var: u32, first: Move, second: Move) -> Option<Idiom>
    ensures { result ≡ plain.two_moves var (move_of first.entry) (move_of second.entry) }
{
    if !(second.var == var && first.var != var) {
        return None;
    }
    if is_alone(var, first.form) {
        second_move(var, first.var, second.form)
    } else if first.form.mentions(var) && is_constant(second.form) {
        Some(Idiom::TestAndSet)
    } else {
        None
    }
}

// The idiom of three assignments.
fn three_moves(var: u32, first: Move, second: Move, third: Move) -> Option<Idiom>
    ensures { result ≡ plain.three_moves var (move_of first.entry) (move_of second.entry) (move_of third.entry) }
{
    if second.var == var
        && is_alone(var, first.form)
        && is_alone(third.var, second.form)
        && is_alone(first.var, third.form)
    {
        Some(Idiom::Swap)
    } else {
        None
    }
}

// The idiom of three assignments to two shared variables.
fn exchange(first: Move, second: Move, third: Move) -> Option<Idiom>
    ensures { result ≡ plain.exchange (move_of first.entry) (move_of second.entry) (move_of third.entry) }
{
    let is_sum = is_pair(second.var, third.var, second.form)
        || is_pair(third.var, second.var, second.form);
    if is_alone(third.var, first.form) && is_constant(third.form) && is_sum {
        Some(Idiom::CompareAndSwap)
    } else {
        None
    }
}

// The idiom of assignments with no guard, of one shared variable.
fn idiom_of_one(var: u32, moves: &[Move]) -> Option<Idiom>
    ensures { result ≡ plain.free_idiom (var ∷ []) (moves_of moves.now) }
{
    match moves {
        [first] => one_move(var, *first),
        [first, second] => two_moves(var, *first, *second),
        [first, second, third] => three_moves(var, *first, *second, *third),
        _ => None,
    }
}

// The same of any two.
fn idiom_of_two(moves: &[Move]) -> Option<Idiom>
    ensures { (x y : ℕ) → result ≡ plain.free_idiom (x ∷ y ∷ []) (moves_of moves.now) }
{
    match moves {
        [first, second, third] => exchange(*first, *second, *third),
        _ => None,
    }
}

// The idiom of assignments with no guard.
#[tactic(auto, using(crate::proofs::Moves::of_two))]
fn free_idiom(vars: &[u32], moves: &[Move]) -> Option<Idiom>
    ensures { result ≡ plain.free_idiom vars.now (moves_of moves.now) }
{
    match vars {
        [var] => idiom_of_one(*var, moves),
        [_, _] => idiom_of_two(moves),
        _ => None,
    }
}

// The idiom of assignments behind an equation.
fn awaited_idiom(form: &Form, vars: &[u32], moves: &[Move]) -> Option<Idiom>
    ensures { result ≡ plain.awaited_idiom form.now vars.now (moves_of moves.now) }
{
    match (vars, moves) {
        ([var], [only]) => {
            if form.mentions(*var) && only.var == *var && !only.form.mentions(*var) {
                Some(Idiom::CompareAndSwap)
            } else {
                None
            }
        }
        _ => None,
    }
}

// The idiom of assignments behind a guard.
fn guarded_idiom(guard: &Assert, vars: &[u32], moves: &[Move]) -> Option<Idiom>
    ensures { result ≡ plain.guarded_idiom (formula guard.now) vars.now (moves_of moves.now) }
{
    match guard {
        Assert::True => free_idiom(vars, moves),
        Assert::Eq(form) => awaited_idiom(form, vars, moves),
        _ => None,
    }
}

// The assignments to variables below `count`, in order.
fn moves_in<'a>(alloc: Global, count: u32, body: &'a [Basic]) -> Result<Vec<Move<'a>>, AllocError>
    ensures { IfOk result (λ v.
        moves_of v.items ≡ plain.moves_in count (map simple body.now)) }
{
    let mut moves = Vec::new(alloc);
    for basic in body {
        add_move(&mut moves, count, basic)?;
    }
    Ok(moves)
}

// Adds an assignment to a variable below `count`.
fn add_move<'a>(moves: &mut Vec<Move<'a>>, count: u32, basic: &'a Basic) -> Result<(), AllocError>
    ensures { OnOk result (moves_of moves.new.items
        ≡ moves_of moves.old.items ++ plain.moves_in count (simple basic.now ∷ [])) }
{
    if let Basic::Assign(var, form) = basic {
        if *var < count {
            moves.push(Move { var: *var, form })?;
        }
    }
    Ok(())
}

// The one assignment, where it is to a variable below `count`.
fn only_move<'a>(
    alloc: Global,
    count: u32,
    var: u32,
    form: &'a Form,
) -> Result<Vec<Move<'a>>, AllocError>
    ensures { IfOk result (λ v.
        moves_of v.items ≡ plain.moves_in count (Set var form.now ∷ [])) }
{
    let mut moves = Vec::new(alloc);
    if var < count {
        moves.push(Move { var, form })?;
    }
    Ok(moves)
}

/// The idiom of the step that the statement begins with, where these are the shared variables that
/// it reads and writes. Variables from `count` on are auxiliaries.
///
/// # Errors
///
/// An allocation was refused.
pub(crate) fn idiom_of(
    alloc: Global,
    count: u32,
    vars: &[u32],
    stmt: &Stmt,
) -> Result<Option<Idiom>, AllocError>
    ensures { IfOk result (λ idiom.
        idiom ≡ plain.idiom_of count vars.now (statement stmt.now)) }
{
    match stmt {
        Stmt::Assign(var, form) => Ok(free_idiom(vars, &only_move(alloc, count, *var, form)?)),
        Stmt::Await(guard, body) => {
            Ok(guarded_idiom(guard, vars, &moves_in(alloc, count, body)?))
        }
        _ => Ok(None),
    }
}

//! The conditions of the statements of one process.

ghost use Rattle.std.specs.Prelude.{◌≡◌, ◌<◌, ◌+◌, option_map, ◌++◌, ◌∷◌, [], IfOk, OnOk, map, drop, length};
ghost use Rattle.og_typed.specs.declared.statement.Seq.{out-Seq};
ghost use Rattle.og_typed.specs.Plain.{formula, statement, noted, sequence, first_or};
ghost use Rattle.og_subst.specs.Actions.{action_tree};
ghost use Rattle.og_cond.specs.Conditions.{gives, action_conditions, stmt_conditions, seq_conditions};
ghost use Rattle.og_cond.specs.Blocks.{block_conditions};
ghost use Rattle.og_cond.specs.Seen.{Adds, hypothesis_of, given, guarded};
ghost use Rattle.og_cond.specs.Condition.{Is, Yes as Yes'};
ghost use Rattle.og_cond.specs.declared.condition.Part.TheVariants.{Yes};
ghost use Rattle.og_typed.specs.Syntax.{last_of};

use crate::condition::{Condition, Goal, Hypothesis, Part};
use crate::kind::Kind;
use og_subst::Action;
use og_typed::{Assert, Note, Seq, Stmt};
use std::alloc::{AllocError, Global};

// One hypothesis, or two.
fn hypotheses<'a>(
    alloc: Global,
    first: Part<'a>,
    second: Option<Part<'a>>,
) -> Result<Vec<Hypothesis<'a>>, AllocError>
    ensures { IfOk result (λ hs. map hypothesis_of hs.items ≡ given first.entry second.entry) }
{
    let count = if second.is_some() { 2 } else { 1 };
    let mut all = Vec::with_capacity(alloc, count)?;
    all.push(Hypothesis::Is(first))?;
    match second {
        Some(part) => {
            all.push(Hypothesis::Is(part))?;
            Ok(all)
        }
        None => Ok(all),
    }
}

// A condition without an action.
pub(crate) fn add_gives<'a>(
    conditions: &mut Vec<Condition<'a>>,
    variables: u32,
    kind: Kind,
    at: u32,
    first: Part<'a>,
    second: Option<Part<'a>>,
    goal: &'a Assert,
) -> Result<(), AllocError>
    ensures { OnOk result (Adds conditions.old conditions.new
        (gives variables kind at (given first.entry second.entry) (formula goal.now) ∷ [])) }
{
    let hypotheses = hypotheses(*conditions.allocator(), first, second)?;
    let goal = Goal::Holds(goal);
    conditions.push(Condition::of_states(kind, at, variables, hypotheses, goal))?;
    Ok(())
}

// The last assertion of a sequence gives another assertion.
fn add_end<'a>(
    conditions: &mut Vec<Condition<'a>>,
    variables: u32,
    kind: Kind,
    seq: &'a Seq,
    goal: &'a Assert,
) -> Result<(), AllocError>
    ensures { let last = last_of (sequence seq.now) in
        OnOk result (Adds conditions.old conditions.new
        (gives variables kind last.at (Is (Yes' last.assertion) ∷ []) (formula goal.now) ∷ [])) }
{
    let last = seq.last();
    let end = Part::Yes(&last.assertion);
    add_gives(conditions, variables, kind, last.at, end, None, goal)
}

// The conditions of an action: it leads to the next assertion, and its values fit.
fn add_action<'a>(
    conditions: &mut Vec<Condition<'a>>,
    variables: u32,
    at: u32,
    before: &'a Assert,
    guard: Option<&'a Assert>,
    action: Action<'a>,
    after: &'a Assert,
) -> Result<(), AllocError>
    ensures { OnOk result (Adds conditions.old conditions.new
        (action_conditions variables at (guarded before.entry guard.entry) (action_tree action.entry)
        (formula after.now))) }
{
    let alloc = *conditions.allocator();
    let n = variables;
    let step = hypotheses(alloc, Part::Yes(before), guard_part(guard))?;
    let goal = Goal::Holds(after);
    conditions.push(Condition::of_action(Kind::Step, at, n, step, action, goal))?;
    let range = hypotheses(alloc, Part::Yes(before), guard_part(guard))?;
    conditions.push(Condition::of_action(Kind::Range, at, n, range, action, Goal::Fits))?;
    Ok(())
}

fn guard_part<'a>(guard: Option<&'a Assert>) -> Option<Part<'a>>
    ensures { result ≡ option_map Yes guard.entry }
{
    match guard {
        Some(assertion) => Some(Part::Yes(assertion)),
        None => None,
    }
}

/// How a block of statements is entered, where a test passes or does not, and to which assertion
/// its last one leads.
#[derive(Clone, Copy)]
struct Block<'a> {
    enters: Kind,
    test: Part<'a>,
    leads: Kind,
    goal: &'a Assert,
}

// The assertion that follows item number `index`.
fn after<'a>(seq: &'a Seq, index: usize) -> &'a Note
    requires { index < length (out-Seq seq.now).items.items }
    ensures { noted result.now
        ≡ first_or (drop (index + 1) (out-Seq seq.now).items.items) (noted (out-Seq seq.now).last) }
{
    match seq.items.get(index + 1) {
        Some(item) => &item.before,
        None => &seq.last,
    }
}

// The conditions of the statements of a sequence, in order.
#[cycle(local)]
#[tactic(auto, using(crate::proofs::LocalItems::more_items, crate::proofs::LocalItems::all_items, crate::proofs::LocalItems::no_items))]
pub(crate) fn add_seq<'a>(
    conditions: &mut Vec<Condition<'a>>,
    variables: u32,
    seq: &'a Seq,
) -> Result<(), AllocError>
    ensures { OnOk result (Adds conditions.old conditions.new
        (seq_conditions variables (sequence seq.now))) }
{
    for index in 0..seq.items.len() {
        let item = &seq.items[index];
        add_stmt(
            conditions,
            variables,
            &item.before,
            &item.stmt,
            item.at,
            after(seq, index),
        )?;
    }
    Ok(())
}

// The conditions of one statement between two assertions.
#[cycle(local)]
fn add_stmt<'a>(
    conditions: &mut Vec<Condition<'a>>,
    variables: u32,
    before: &'a Note,
    stmt: &'a Stmt,
    at: u32,
    after: &'a Note,
) -> Result<(), AllocError>
    ensures { OnOk result (Adds conditions.old conditions.new
        (stmt_conditions variables (formula before.now.assertion) at (statement stmt.now)
        (formula after.now.assertion))) }
{
    let n = variables;
    let pre = &before.assertion;
    let post = &after.assertion;
    match stmt {
        Stmt::Skip => add_gives(conditions, n, Kind::Step, at, Part::Yes(pre), None, post),
        Stmt::Assign(var, form) => {
            let action = Action::Assign(*var, form);
            add_action(conditions, n, at, pre, None, action, post)
        }
        Stmt::Await(guard, body) => {
            let action = Action::Await(body);
            add_action(conditions, n, at, pre, Some(guard), action, post)
        }
        Stmt::While(test, body) => {
            let inner = Block {
                enters: Kind::Enter,
                test: Part::Yes(test),
                leads: Kind::Again,
                goal: pre,
            };
            add_block(conditions, n, body, at, pre, inner)?;
            let leaves = Some(Part::No(test));
            add_gives(conditions, n, Kind::Leave, at, Part::Yes(pre), leaves, post)
        }
        Stmt::If(test, branch, other) => {
            let then = Block {
                enters: Kind::Then,
                test: Part::Yes(test),
                leads: Kind::Join,
                goal: post,
            };
            add_block(conditions, n, branch, at, pre, then)?;
            match other {
                Some(other) => {
                    let otherwise = Block {
                        enters: Kind::Else,
                        test: Part::No(test),
                        leads: Kind::Join,
                        goal: post,
                    };
                    add_block(conditions, n, other, at, pre, otherwise)
                }
                None => {
                    let passes = Some(Part::No(test));
                    add_gives(conditions, n, Kind::Else, at, Part::Yes(pre), passes, post)
                }
            }
        }
    }
}

// The conditions of a block of a statement.
#[cycle(local)]
fn add_block<'a>(
    conditions: &mut Vec<Condition<'a>>,
    variables: u32,
    seq: &'a Seq,
    at: u32,
    before: &'a Assert,
    block: Block<'a>,
) -> Result<(), AllocError>
    ensures { OnOk result (Adds conditions.old conditions.new
        (block_conditions variables (sequence seq.now) at (formula before.now) block.entry)) }
{
    let n = variables;
    let first = &seq.first().assertion;
    let test = Some(block.test);
    add_gives(
        conditions,
        n,
        block.enters,
        at,
        Part::Yes(before),
        test,
        first,
    )?;
    add_seq(conditions, n, seq)?;
    add_end(conditions, n, block.leads, seq, block.goal)
}

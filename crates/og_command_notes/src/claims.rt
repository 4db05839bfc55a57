//! What an outline may claim of no run, and what of it a search shows.

ghost use Rattle.std.specs.Prelude.{◌≡◌, [], ◌∷◌, true, map, flat_map, IfOk, OnOk};
ghost use Rattle.og_cond.specs.Condition.{Is, Yes};
ghost use Rattle.og_cond.specs.Seen.{seen, hypothesis_of, part_of, parts_of};
ghost use Rattle.og_cond.specs.Valid.{IsValid};
ghost use Rattle.og_typed.specs.Plain.{formula, sequence, statement};
ghost use Rattle.og_typed.specs.Syntax.{last_of};
ghost use Rattle.og_command_notes.specs.Claims.{AreNeverTrue, AreClaims, asked_of, end_question, point_questions, postcondition_questions, statement_questions};
ghost use Rattle.og_review_text.specs.Points as plain;
ghost use Rattle.og_review_text.specs.Seen.{point_of, points_of};
ghost use Rattle.og_command_notes.specs.Seen.{claims_of, question, Gains};

use og_cond::{Condition, Goal, Hypothesis, Kind, Part};
use og_find::find;
use og_io::Budget;
use og_review_text::Point;
use og_typed::{Assert, Outline, Seq, Stmt};
use std::alloc::{AllocError, Global};

/// What may be so of no run.
#[derive(Clone, Copy, PartialEq, Eq)]
pub(crate) enum Asked {
    /// The precondition is true.
    Precondition,
    /// An assertion of the program is true.
    Assertion,
    /// An assertion that is written as `false` is true.
    Falsity,
    LoopEntered,
    LoopLeft,
    BranchTaken,
    ElseTaken,
    AwaitPassed,
    /// All processes have ended.
    AllEnded,
    /// The postcondition is true.
    Postcondition,
    /// The postcondition is false.
    PostconditionFalse,
}

/// What is asked, and whether it was found to be so in no state: the facts are never true together.
#[derive(Drop)]
pub(crate) struct Claim<'a> {
    pub(crate) asked: Asked,
    pub(crate) at: u32,
    pub(crate) facts: Vec<Part<'a>>,
    pub(crate) refuted: bool,
}

/// How certificates are searched for: over how many variables, and with how many facts at most.
#[derive(Clone, Copy)]
pub(crate) struct Search {
    alloc: Global,
    variables: u32,
    facts: u64,
}

impl Search {
    /// A search over the variables of an outline.
    pub(crate) fn new(alloc: Global, outline: &Outline, budget: Budget) -> Search {
        outline.follows_rule();
        Search {
            alloc,
            variables: outline.names().len() as u32,
            facts: budget.facts(),
        }
    }

    /// The allocator.
    pub(crate) fn alloc(self) -> Global {
        self.alloc
    }
}

// The facts, each as a hypothesis.
fn hypotheses_of<'a>(alloc: Global, facts: &[Part<'a>]) -> Result<Vec<Hypothesis<'a>>, AllocError>
    ensures { IfOk result (λ v. map hypothesis_of v.items ≡ map Is (map part_of facts.now)) }
{
    let mut hypotheses = Vec::new(alloc);
    for fact in facts {
        hypotheses.push(Hypothesis::Is(*fact))?;
    }
    Ok(hypotheses)
}

// The condition that the facts are never true together.
fn never<'a>(search: Search, facts: &[Part<'a>]) -> Result<Condition<'a>, AllocError>
    ensures { IfOk result (λ c. IsValid (seen c) → AreNeverTrue (map part_of facts.now)) }
{
    let hypotheses = hypotheses_of(search.alloc, facts)?;
    Ok(Condition {
        kind: Kind::Start,
        at: 0,
        action_at: None,
        variables: search.variables,
        hypotheses,
        goal: Goal::Never,
        action: None,
    })
}

/// Whether a certificate is found that the facts are never true together.
///
/// # Errors
///
/// An allocation was refused.
pub(crate) fn is_refuted(search: Search, facts: &[Part]) -> Result<bool, AllocError>
    ensures { IfOk result (λ yes. yes ≡ true → AreNeverTrue (map part_of facts.now)) }
{
    let condition = never(search, facts)?;
    let found = find(search.alloc, &condition, search.facts)?;
    Ok(found.is_some())
}

// The same, where it is to be told; nothing is looked for where it is not.
fn is_told_refuted(search: Search, is_told: bool, facts: &[Part]) -> Result<bool, AllocError>
    ensures { IfOk result (λ yes. yes ≡ true → AreNeverTrue (map part_of facts.now)) }
{
    if !is_told {
        return Ok(false);
    }
    is_refuted(search, facts)
}

// Adds a question, and what is found of it, where it is to be told.
#[tactic(auto, using(crate::proofs::Claiming::found_more))]
fn add<'a>(
    claims: &mut Vec<Claim<'a>>,
    search: Search,
    is_told: bool,
    asked: Asked,
    at: u32,
    facts: Vec<Part<'a>>,
) -> Result<bool, AllocError>
    ensures { OnOk result (Gains (claims_of claims.old.items) (claims_of claims.new.items)
        (question asked at (parts_of facts.entry) ∷ [])) }
{
    let refuted = is_told_refuted(search, is_told, &facts)?;
    claims.push(Claim {
        asked,
        at,
        facts,
        refuted,
    })?;
    Ok(refuted)
}

// Adds a question about one fact.
fn add_alone<'a>(
    claims: &mut Vec<Claim<'a>>,
    search: Search,
    asked: Asked,
    at: u32,
    fact: Part<'a>,
) -> Result<bool, AllocError>
    ensures { OnOk result (Gains (claims_of claims.old.items) (claims_of claims.new.items)
        (question asked at (part_of fact.entry ∷ []) ∷ [])) }
{
    let mut facts = Vec::new(search.alloc);
    facts.push(fact)?;
    add(claims, search, true, asked, at, facts)
}

/// What stands at a place: an assertion, and whether it was found to be never true.
#[derive(Clone, Copy)]
struct Before<'a> {
    assertion: &'a Assert,
    is_never: bool,
}

// Adds a question about an assertion and a test behind it. Where the assertion is never true, no
// more is to be told.
fn add_tested<'a>(
    claims: &mut Vec<Claim<'a>>,
    search: Search,
    asked: Asked,
    at: u32,
    before: Before<'a>,
    test: Part<'a>,
) -> Result<(), AllocError>
    ensures { OnOk result (Gains (claims_of claims.old.items) (claims_of claims.new.items)
        (question asked at (Yes (formula before.entry.assertion.now) ∷ part_of test.entry ∷ []) ∷ [])) }
{
    let mut facts = Vec::new(search.alloc);
    facts.push(Part::Yes(before.assertion))?;
    facts.push(test)?;
    add(claims, search, !before.is_never, asked, at, facts)?;
    Ok(())
}

// Adds the questions about a statement.
fn add_statement<'a>(
    claims: &mut Vec<Claim<'a>>,
    search: Search,
    before: Before<'a>,
    stmt: &'a Stmt,
    at: u32,
) -> Result<(), AllocError>
    ensures { OnOk result (Gains (claims_of claims.old.items) (claims_of claims.new.items)
        (statement_questions (formula before.entry.assertion.now) (statement stmt.now) at)) }
{
    match stmt {
        Stmt::Skip | Stmt::Assign(..) => Ok(()),
        Stmt::If(test, _, other) => {
            add_tested(
                claims,
                search,
                Asked::BranchTaken,
                at,
                before,
                Part::Yes(test),
            )?;
            match other {
                Some(_) => add_tested(claims, search, Asked::ElseTaken, at, before, Part::No(test)),
                None => Ok(()),
            }
        }
        Stmt::While(test, _) => {
            add_tested(
                claims,
                search,
                Asked::LoopEntered,
                at,
                before,
                Part::Yes(test),
            )?;
            add_tested(claims, search, Asked::LoopLeft, at, before, Part::No(test))
        }
        Stmt::Await(guard, _) => {
            add_tested(
                claims,
                search,
                Asked::AwaitPassed,
                at,
                before,
                Part::Yes(guard),
            )
        }
    }
}

// What is asked of an assertion.
fn asked_of(assertion: &Assert) -> Asked
    ensures { result ≡ asked_of (formula assertion.now) }
{
    match assertion {
        Assert::False => Asked::Falsity,
        _ => Asked::Assertion,
    }
}

// Adds the questions about a place.
fn add_point<'a>(
    claims: &mut Vec<Claim<'a>>,
    search: Search,
    point: &Point<'a>,
) -> Result<(), AllocError>
    ensures { OnOk result (Gains (claims_of claims.old.items) (claims_of claims.new.items)
        (point_questions (point_of point.now))) }
{
    let assertion = &point.note.assertion;
    let asked = asked_of(assertion);
    let is_never = add_alone(claims, search, asked, point.note.at, Part::Yes(assertion))?;
    let before = Before {
        assertion,
        is_never,
    };
    match point.item {
        Some(item) => add_statement(claims, search, before, &item.stmt, item.at),
        None => Ok(()),
    }
}

// Adds the questions about places.
fn add_points<'a>(
    claims: &mut Vec<Claim<'a>>,
    search: Search,
    points: &[Point<'a>],
) -> Result<(), AllocError>
    ensures { OnOk result (Gains (claims_of claims.old.items) (claims_of claims.new.items)
        (flat_map point_questions (points_of points.now))) }
{
    for point in points {
        add_point(claims, search, point)?;
    }
    Ok(())
}

// The last assertions of processes.
fn last_facts<'a>(alloc: Global, processes: &'a [Seq]) -> Result<Vec<Part<'a>>, AllocError>
    ensures { IfOk result (λ facts. parts_of facts
        ≡ map (λ q. Yes (last_of q).assertion) (map sequence processes.now)) }
{
    let mut facts = Vec::new(alloc);
    for process in processes {
        facts.push(Part::Yes(&process.last().assertion))?;
    }
    Ok(facts)
}

// Adds the questions about the ends of the processes and the postcondition.
fn add_ends<'a>(
    claims: &mut Vec<Claim<'a>>,
    search: Search,
    outline: &'a Outline,
) -> Result<(), AllocError>
    ensures { OnOk result (Gains (claims_of claims.old.items) (claims_of claims.new.items)
        (end_question outline.now ∷ postcondition_questions outline.now)) }
{
    let facts = last_facts(search.alloc, outline.processes())?;
    let at = outline.cobegin_at();
    add(claims, search, true, Asked::AllEnded, at, facts)?;
    let post = outline.post();
    let is_true = Part::Yes(&post.assertion);
    let is_false = Part::No(&post.assertion);
    add_alone(claims, search, Asked::Postcondition, post.at, is_true)?;
    add_alone(claims, search, Asked::PostconditionFalse, post.at, is_false)?;
    Ok(())
}

/// The questions about an outline with these places, and what a search within the budget finds of
/// each.
///
/// # Errors
///
/// An allocation was refused.
pub(crate) fn claims_of<'a>(
    search: Search,
    outline: &'a Outline,
    points: &[Point<'a>],
) -> Result<Vec<Claim<'a>>, AllocError>
    requires { points_of points.now ≡ plain.points outline.now }
    ensures { IfOk result (λ v. AreClaims outline.now (claims_of v.items)) }
{
    let mut claims = Vec::new(search.alloc);
    let pre = outline.pre();
    let is_true = Part::Yes(&pre.assertion);
    add_alone(&mut claims, search, Asked::Precondition, pre.at, is_true)?;
    add_points(&mut claims, search, points)?;
    add_ends(&mut claims, search, outline)?;
    Ok(claims)
}

//! The answers of `explore`.

ghost use Rattle.std.specs.Prelude.{◌≡◌, ◌<◌, ◌≤◌, ◌^◌, length, map, IfOk, IfErr};
ghost use Rattle.og_cond.specs.Seen.{seen};
ghost use Rattle.og_pool.specs.declared.fault.PoolFault.TheVariants.{Spawn};
ghost use Rattle.og_report_text.specs.Subject.{subject_of, IsShort};
ghost use Rattle.og_command_explore.specs.Explored.{AreConditions, IsAnswer, IsOfProgram, not_pre_line, IsReply};

use crate::answering::answer;
use crate::request::Request;
use crate::starting::ranges;
use crate::words::{WordsError, given};
use og_cond::{Condition, ConditionsError, conditions};
use og_erase::erase;
use og_explore::Range;
use og_pool::PoolFault;
use og_report_text::{Answer, Subject, put_opening};
use og_step::StartFault;
use og_typed::Outline;
use std::alloc::{AllocError, Global};
use std::sync::Wait;
use std::thread::Threads;

/// What comes of exploring a program.
#[derive(Drop)]
pub enum Reply<'a> {
    /// The printed text, and the status.
    Answer(Answer),
    /// The first word that gives no variable a range.
    BadValue(&'a str),
}

// The line of a precondition that is false.
fn not_pre(alloc: Global) -> Result<Vec<u8>, AllocError>
    ensures { IfOk result (λ text. text.items ≡ not_pre_line) }
{
    let fault = StartFault::NotPre;
    let mut text = Vec::new(alloc);
    put_opening(&mut text, fault.number(), fault.name())?;
    text.extend_from_slice(b"\n")?;
    Ok(text)
}

// The conditions of the outline, or none where there are too many.
fn conditions_of(alloc: Global, outline: &Outline) -> Result<Vec<Condition<'_>>, AllocError>
    ensures { IfOk result (λ v. AreConditions outline.now (map seen v.items)) }
{
    match conditions(alloc, outline) {
        Ok(conditions) => Ok(conditions),
        Err(ConditionsError::Memory) => Err(AllocError),
        Err(ConditionsError::Fault(_)) => Ok(Vec::new(alloc)),
    }
}

// The answer for an outline: that it has no start, or the findings.
fn of_outline<R: Threads + Wait + Sync>(
    rt: &R,
    alloc: Global,
    subject: &Subject,
    conditions: &[Condition],
    ranges: &[Range],
    request: Request,
) -> Result<Answer, PoolFault>
    requires short { IsShort (subject_of subject.now) }
    requires ranges { length ranges.now ≡ subject.now.outline.now.vars }
    ensures answer { IfOk result (IsAnswer request.json (subject_of subject.now)
        (map seen conditions.now) ranges.now) }
    ensures spawn { IfErr result (λ e. e ≡ Spawn → 1 < request.workers) }
{
    match answer(rt, alloc, subject, conditions, ranges, request)? {
        Some(answer) => Ok(answer),
        None => Ok(Answer {
            text: not_pre(alloc)?,
            status: 2,
        }),
    }
}

// The answer for an outline, or its program without auxiliaries.
fn of_program<R: Threads + Wait + Sync>(
    rt: &R,
    alloc: Global,
    subject: &Subject,
    ranges: &[Range],
    request: Request,
) -> Result<Answer, PoolFault>
    requires short { IsShort (subject_of subject.now) }
    requires ranges { length ranges.now ≡ subject.now.outline.now.vars }
    ensures answer { IfOk result
        (IsOfProgram request.json request.erased (subject_of subject.now)) }
    ensures spawn { IfErr result (λ e. e ≡ Spawn → 1 < request.workers) }
{
    if request.erased {
        let program = erase(alloc, subject.outline)?;
        let without = Subject {
            outline: program.outline(),
            own: subject.own,
            given: subject.given,
            rows: subject.rows,
        };
        return of_outline(rt, alloc, &without, &[], ranges, request);
    }
    let conditions = conditions_of(alloc, subject.outline)?;
    of_outline(rt, alloc, subject, &conditions, ranges, request)
}

/// Explores the program of an outline, breadth first, from all starts within the ranges that the
/// words give, each NAME=INT or NAME=LO..HI, and of other variables within those that `ranges` names.
///
/// The answer is what was found, with runs that lead there, and the totals, with status 0 where all
/// was explored and nothing found, and else 1: as a text with places of the text that was given, or
/// as JSON in one line with places of the outline's own text. Or, only where no start lies within
/// the ranges, it is the line of 50 NotPre, with status 2. `BadValue` holds the first word that
/// gives no range. The texts have at most 1,048,576 bytes. Every number of workers comes to the
/// same.
///
/// # Errors
///
/// `Spawn`, of two workers or more, where a thread could not be started. `Memory` where an
/// allocation was refused.
pub fn explored<'a, R: Threads + Wait + Sync>(
    rt: &R,
    alloc: Global,
    subject: &Subject,
    words: &[&'a str],
    request: Request,
) -> Result<Reply<'a>, PoolFault>
    requires { IsShort (subject_of subject.now) }
    ensures reply { IfOk result (IsReply request.json (subject_of subject.now) request.erased
        (map (λ w. w.now) words.now)) }
    ensures spawn { IfErr result (λ e. e ≡ Spawn → 1 < request.workers) }
{
    match given(alloc, subject.outline, words) {
        Ok(given) => {
            let ranges = ranges(alloc, subject.outline, &given)?;
            let answer = of_program(rt, alloc, subject, &ranges, request)?;
            Ok(Reply::Answer(answer))
        }
        Err(WordsError::Bad(word)) => Ok(Reply::BadValue(word)),
        Err(WordsError::Memory) => Err(PoolFault::Memory),
    }
}

//! Refusals of input: the line that is printed, and the message on standard error beside it.

ghost use Rattle.std.specs.Prelude.{◌≡◌, ◌≤◌, ◌^◌, ℕ, List, [], length, option_map, IfOk, IfErr, IsSome};
ghost use Rattle.og_typed.specs.Refused.{IsNotRead};
ghost use Rattle.og_report_text.specs.InputErrors.{IsFaultOfSource};
ghost use Rattle.og_judge.specs.NotJudged.{OnInput};
ghost use Rattle.og_judge.specs.declared.refusal.Refusal.TheVariants as refusals;
ghost use Rattle.og_report_refusal.specs.Advice.{IsKnown};
ghost use Rattle.og_template_outline.specs.Faults.{place_of_fault};
ghost use Rattle.og_template_outline.specs.Meaning.{IsNotMeant};
ghost use Rattle.og_template_outline.specs.declared.meaning.Takes.{Takes};
ghost use Rattle.og_program.specs.World.{named};
ghost use Rattle.og_program.specs.Failing.{IsWant};
ghost use Rattle.og_report_findings.specs.Refused.{refusal_line};
ghost use Rattle.og_report_text.specs.Answers.{Says};
ghost use Rattle.og_report_text.specs.Faults.{place_of_input};
ghost use Rattle.og_report_text.specs.Places.{position_of};
ghost use Rattle.og_program.specs.Beside.{IsRefusal, IsRefused, IsJsonRefusal, OnReport, Refuses};
ghost use Rattle.og_program.specs.Given.{IsTemplateRefusal, FollowsError, IsJsonTemplateRefusal, FollowsErrorAsJson};

use crate::fault::Fault;
use crate::outcome::{BadValue, Outcome, Report};
use og_judge::Refusal;
use og_report_findings::{TextRefusal, refusal_line};
use og_report_refusal::{Advice, Names, Refused, advise, why};
use og_report_text::{Answer, InputFault, Places, Position};
use og_template_outline::{ExpandFault, MeaningError};
use og_typed::SourceError;
use std::alloc::{AllocError, Global};

// The refusal of a source and of certificates of these names for a fault.
fn report_of(
    alloc: Global,
    names: Names<'_>,
    source: &[u8],
    fault: &InputFault,
) -> Result<Report, AllocError>
    requires { IsKnown source.now fault.now }
    ensures { IfOk result (IsRefusal (named names.entry.source.now source.now)
        names.entry.certs.now fault.now) }
{
    let answer = Answer::refused(alloc, fault, source)?;
    let note = advise(alloc, names, fault, source).map(Some);
    Ok(Report { answer, note })
}

/// The refusal of a source and of certificates of these names for a fault that is known of them:
/// its line, with status 2, and beside it where the fault stands and why. Refused memory, or a
/// thread that could not be started, is a fault of the job.
pub(crate) fn refuse<'a>(
    alloc: Global,
    names: Names<'_>,
    source: &[u8],
    refusal: Refusal,
) -> Result<Outcome<'a>, Fault<'a>>
    requires { OnInput (IsKnown source.now) refusal }
    ensures refused { IfOk result (IsRefused (named names.entry.source.now source.now)
        names.entry.certs.now refusal) }
    ensures want { IfErr result (IsWant (refusal ≡ refusals.Spawn)) }
{
    match refusal {
        Refusal::Input(fault) => {
            let report = report_of(alloc, names, source, &fault)?;
            Ok(Outcome::Report(report))
        }
        Refusal::Spawn => Err(Fault::Spawn),
        Refusal::Memory => Err(Fault::Memory),
    }
}

// A source of this name, without certificates.
fn names_of(name: &str) -> Names<'_>
    ensures source { result.source.now ≡ name.entry.now }
    ensures certs { result.certs.now ≡ [] }
{
    Names {
        source: name,
        certs: "",
    }
}

/// The refusal of a source of this name that is read without certificates.
pub(crate) fn refuse_source<'a>(
    alloc: Global,
    name: &str,
    source: &[u8],
    refusal: Refusal,
) -> Result<Outcome<'a>, Fault<'a>>
    requires { OnInput (IsKnown source.now) refusal }
    ensures refused { IfOk result (IsRefused (named name.now source.now) [] refusal) }
    ensures want { IfErr result (IsWant (refusal ≡ refusals.Spawn)) }
{
    refuse(alloc, names_of(name), source, refusal)
}

/// The refusal of a source of this name that was not read, for its first fault. Refused memory is a
/// fault of the job.
pub(crate) fn refuse_unread<'a>(
    alloc: Global,
    name: &str,
    source: &[u8],
    error: SourceError,
) -> Result<Outcome<'a>, Fault<'a>>
    requires { IsNotRead source.now error }
    ensures refused { IfOk result
        (Refuses (IsFaultOfSource source.now) (named name.now source.now) []) }
    ensures want { IfErr result (IsWant ⊥) }
{
    refuse_source(alloc, name, source, error.into())
}

// The report of the fault of a template: its line, with status 2, and beside it why it is one.
fn report_of_template(alloc: Global, refused: Refused<'_>) -> Result<Report, AllocError>
    requires { IsSome (place_of_fault refused.fault.now) → length refused.source.now ≤ 2 ^ 20 }
    ensures { IfOk result (IsTemplateRefusal
        (named refused.entry.name.now refused.entry.source.now) refused.entry.fault.now) }
{
    let answer = refused.fault.answer(alloc, refused.source)?;
    let note = refused.remark(alloc).map(Some);
    Ok(Report { answer, note })
}

// The place in a text, where there is one.
fn position_in(
    alloc: Global,
    source: &[u8],
    place: Option<u32>,
) -> Result<Option<Position>, AllocError>
    requires { IsSome place → length source.now ≤ 2 ^ 20 }
    ensures { IfOk result (λ p. p ≡ option_map (position_of source.now) place) }
{
    let Some(at) = place else {
        return Ok(None);
    };
    let places = Places::new(alloc, source)?;
    Ok(Some(places.position(at)))
}

// The place of the fault of an input, where it has one.
fn place_of(fault: &InputFault) -> Option<u32>
    ensures { result ≡ place_of_input fault.now }
{
    match fault {
        InputFault::Source(fault) => fault.place(),
        InputFault::Conditions(_) | InputFault::Certs(_) | InputFault::Stray(_) => None,
    }
}

// The object of a refusal, with status 2.
fn object_of(
    alloc: Global,
    number: u8,
    name: &str,
    place: Option<Position>,
    advice: &Advice,
) -> Result<Answer, AllocError>
    ensures { IfOk result (Says (refusal_line number name.now place advice.now.reason.items
        (option_map (λ h. h.items) advice.now.help)) 2) }
{
    let help = match &advice.help {
        Some(help) => Some(help.as_slice()),
        None => None,
    };
    let refusal = TextRefusal {
        number,
        name,
        place,
        reason: &advice.reason,
        help,
    };
    let text = refusal_line(alloc, refusal)?;
    Ok(Answer { text, status: 2 })
}

/// The outcome of a text of this name that means no outline with these words. Refused memory is a
/// fault of the job.
pub(crate) fn refuse_meaning<'a>(
    alloc: Global,
    name: &str,
    text: &[u8],
    words: &[&str],
    error: MeaningError<'a>,
) -> Result<Outcome<'a>, Fault<'a>>
    requires { (takes : Takes) × (all : List (List ℕ)) × IsNotMeant takes text.now all error }
    ensures outcome { IfOk result (FollowsError (named name.now text.now) error.entry) }
    ensures want { IfErr result (IsWant ⊥) }
{
    match error {
        MeaningError::Memory => Err(Fault::Memory),
        MeaningError::Source(fault) => {
            refuse_source(alloc, name, text, Refusal::Input(InputFault::Source(fault)))
        }
        MeaningError::Template(fault) => {
            let refused = Refused {
                name,
                source: text,
                words,
                fault: &fault,
            };
            let report = report_of_template(alloc, refused)?;
            Ok(Outcome::Report(report))
        }
        MeaningError::BadValue(word) => Ok(Outcome::BadValue(BadValue { word, why: None })),
    }
}

// The refusal of a source of this name for a fault, as JSON.
fn json_report_of(
    alloc: Global,
    name: &str,
    source: &[u8],
    fault: &InputFault,
) -> Result<Report, AllocError>
    requires { IsKnown source.now fault.now }
    ensures { IfOk result (IsJsonRefusal (named name.now source.now) fault.now) }
{
    let names = names_of(name);
    let line = report_of(alloc, names, source, fault)?;
    let place = position_in(alloc, source, place_of(fault))?;
    let why = why(alloc, names, fault, source)?;
    let answer = object_of(alloc, fault.number(), fault.name(), place, &why)?;
    Ok(Report {
        answer,
        note: line.note,
    })
}

/// The refusal of a source of this name that is read without certificates, as JSON.
pub(crate) fn refuse_as_json<'a>(
    alloc: Global,
    name: &str,
    source: &[u8],
    refusal: Refusal,
) -> Result<Outcome<'a>, Fault<'a>>
    requires { OnInput (IsKnown source.now) refusal }
    ensures refused { IfOk result (λ outcome. (fault : InputFault) × (refusal ≡ refusals.Input fault)
        × OnReport (IsJsonRefusal (named name.now source.now) fault) outcome) }
    ensures want { IfErr result (IsWant (refusal ≡ refusals.Spawn)) }
{
    match refusal {
        Refusal::Input(fault) => {
            let report = json_report_of(alloc, name, source, &fault)?;
            Ok(Outcome::Report(report))
        }
        other => refuse_source(alloc, name, source, other),
    }
}

// The report of the fault of a template, as JSON.
fn json_report_of_template(alloc: Global, refused: Refused<'_>) -> Result<Report, AllocError>
    requires { IsSome (place_of_fault refused.fault.now) → length refused.source.now ≤ 2 ^ 20 }
    ensures { IfOk result (IsJsonTemplateRefusal
        (named refused.entry.name.now refused.entry.source.now) refused.entry.fault.now) }
{
    let fault = refused.fault;
    let line = report_of_template(alloc, refused)?;
    let place = position_in(alloc, refused.source, fault.place())?;
    let why = refused.why(alloc)?;
    let answer = object_of(alloc, fault.number(), fault.name(), place, &why)?;
    Ok(Report {
        answer,
        note: line.note,
    })
}

/// The outcome of a text of this name that means no outline with these words, as JSON. Refused
/// memory is a fault of the job.
pub(crate) fn refuse_meaning_as_json<'a>(
    alloc: Global,
    name: &str,
    text: &[u8],
    words: &[&str],
    error: MeaningError<'a>,
) -> Result<Outcome<'a>, Fault<'a>>
    requires { (takes : Takes) × (all : List (List ℕ)) × IsNotMeant takes text.now all error }
    ensures outcome { IfOk result (FollowsErrorAsJson (named name.now text.now) error.entry) }
    ensures want { IfErr result (IsWant ⊥) }
{
    match error {
        MeaningError::Source(fault) => {
            let report = json_report_of(alloc, name, text, &InputFault::Source(fault))?;
            Ok(Outcome::Report(report))
        }
        MeaningError::Template(fault) => {
            let refused = Refused {
                name,
                source: text,
                words,
                fault: &fault,
            };
            let report = json_report_of_template(alloc, refused)?;
            Ok(Outcome::Report(report))
        }
        other => refuse_meaning(alloc, name, text, words, other),
    }
}

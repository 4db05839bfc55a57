//! From what the libraries answer to outcomes: what goes to standard error beside an answer.

ghost use Rattle.std.specs.Prelude.{◌≡◌, ◌≢◌, ◌≤◌, ◌^◌, [], length, map, Ok, Some, None, IfSome, IfOk, IfErr};
ghost use Rattle.og_report_refusal.specs.Values.{schedule_text, reason_line, IsValueRemark};
ghost use Rattle.og_report_refusal.specs.declared.values.Gives.TheVariants as gives;
ghost use Rattle.og_report_text.specs.Answers.{Says};
ghost use Rattle.og_words.specs.Jobs.{word_bytes};
ghost use Rattle.og_program.specs.World.{named};
ghost use Rattle.og_program.specs.Beside.{IsNote, Noted, OnBadValue};
ghost use Rattle.og_program.specs.Failing.{IsWant};
ghost use Rattle.og_command_infer.specs.Printed.{IsPrinted};
ghost use Rattle.og_report_text.specs.Subject.{subject_of, IsShort};
ghost use Rattle.og_program.specs.Commands.{NotesCheck, NotesCount, IsLongNote, IsInferNote, FollowsInferring, IsRunReport, IsStartNote, IsWordRemark, FollowsFinding, FollowsRunning, FollowsReply, FollowsListing, FollowsTwin, FollowsDrawing};

use crate::fault::Fault;
use crate::outcome::{BadValue, Certificates, Outcome, Report};
use og_command_check::{CheckReply, FindReply, FoundCertificates, LongText};
use og_command_explore::{Drawing, Reply as Started, start_near};
use og_command_infer::{Inferred, Reply as Inferring};
use og_command_promela::Reply as Translated;
use og_command_run::{Ran, Reply};
use og_find::Missing;
use og_report_conditions::Reply as Listed;
use og_report_refusal::{
    Gives, long_line, missing_line, schedule_remark, start_remark, value_remark,
};
use og_report_text::{Answer, Subject};
use og_typed::{Outline, Source};
use std::alloc::{AllocError, Global};

// The status of a refusal.
const REFUSED: u8 = 2;

// The status where some condition is not certified.
const LACKING: u8 = 1;

// The status where what was asked for cannot be had.
const UNDONE: u8 = 1;

/// An answer, with nothing beside it.
pub(crate) fn alone(answer: Answer) -> Report
    ensures { result ≡ record { answer = answer; note = Ok None } }
{
    Report {
        answer,
        note: Ok(None),
    }
}

// How many conditions have no certificate, if some have none.
fn missing_note(alloc: Global, name: &str, missing: Missing) -> Result<Option<Vec<u8>>, AllocError>
    ensures { NotesCount name.now missing result }
{
    if missing.count == 0 {
        return Ok(None);
    }
    missing_line(alloc, name, missing).map(Some)
}

/// The report of a check, and where it is not safe, how many conditions have no certificate.
pub(crate) fn beside_check(alloc: Global, name: &str, checked: CheckReply) -> Report
    ensures answer { result.answer ≡ checked.answer }
    ensures note { NotesCheck name.now checked result.note }
{
    let note = if checked.answer.status == LACKING {
        missing_note(alloc, name, checked.missing)
    } else {
        Ok(None)
    };
    let answer = checked.answer;
    Report { answer, note }
}

// The certificates that are found, and how many conditions have none.
fn beside_certificates_found(alloc: Global, name: &str, found: FoundCertificates) -> Certificates
    ensures found { result.found ≡ found }
    ensures note { NotesCount name.now found.missing result.note }
{
    let note = missing_note(alloc, name, found.missing);
    Certificates { found, note }
}

// That the certificates that are found take more bytes than they may; nothing of them is printed.
fn of_long_text(alloc: Global, name: &str, long: LongText) -> Report
    ensures answer { Says [] 1 result.answer }
    ensures note { IsNote (IsLongNote name.now long) result.note }
{
    let answer = Answer {
        text: Vec::new(alloc),
        status: LACKING,
    };
    let note = long_line(alloc, name, long.limit, long.second).map(Some);
    Report { answer, note }
}

/// The outcome of a search for certificates of a source.
pub(crate) fn beside_found<'a>(alloc: Global, name: &str, reply: FindReply) -> Outcome<'a>
    ensures { FollowsFinding name.now reply result }
{
    match reply {
        FindReply::Found(found) => {
            Outcome::Certificates(beside_certificates_found(alloc, name, found))
        }
        FindReply::TooLong(long) => Outcome::Report(of_long_text(alloc, name, long)),
    }
}

/// The outcome of a listing of the conditions of a source.
pub(crate) fn beside_listing<'a>(reply: Listed<'a>) -> Outcome<'a>
    ensures { FollowsListing reply.entry result }
{
    match reply {
        Listed::Listing(listing) => Outcome::Listing(listing),
        Listed::Bad(word, line) => {
            let why = Some(line);
            Outcome::BadValue(BadValue { word, why })
        }
    }
}

// A word that gives no value, and why, where memory for that is not refused.
fn bad_value<'a>(alloc: Global, gives: Gives, outline: &Outline, word: &'a str) -> BadValue<'a>
    ensures word { result.word ≡ word.entry }
    ensures why { IfSome result.why (λ line. IsValueRemark gives outline.now word.now line.items) }
{
    match value_remark(alloc, gives, outline, word) {
        Ok(line) => BadValue {
            word,
            why: Some(line),
        },
        Err(_) => BadValue { word, why: None },
    }
}

// A schedule that is no list of numbers, and what one is, where memory for that is not refused.
fn bad_schedule(alloc: Global, word: &str) -> BadValue<'_>
    ensures word { result.word ≡ word.entry }
    ensures why { IfSome result.why (λ line. line.items ≡ reason_line schedule_text) }
{
    match schedule_remark(alloc) {
        Ok(line) => BadValue {
            word,
            why: Some(line),
        },
        Err(_) => BadValue { word, why: None },
    }
}

// A word of a run that gives no value or is no schedule; which of both, if it may be either, is
// not said.
#[tactic(auto, using(crate::proofs::Words::of_value, crate::proofs::Words::of_schedule))]
fn bad_word<'a>(
    alloc: Global,
    outline: &Outline,
    words: &[&str],
    schedule: Option<&str>,
    word: &'a str,
) -> BadValue<'a>
    ensures word { result.word ≡ word.entry }
    ensures why { IfSome result.why
        (λ line. IsWordRemark outline.now schedule.entry word.now line.items) }
{
    let Some(schedule) = schedule else {
        return bad_value(alloc, Gives::Values, outline, word);
    };
    if schedule != word {
        return bad_value(alloc, Gives::Values, outline, word);
    }
    if words.contains(&word) {
        return BadValue { word, why: None };
    }
    bad_schedule(alloc, word)
}

// The message about a run of a source that does not begin, with a start where a search finds one.
fn start_note(
    alloc: Global,
    name: &str,
    source: &Source,
    words: &[&str],
) -> Result<Option<Vec<u8>>, AllocError>
    ensures { IsNote (IsStartNote (named name.now source.now.bytes) source.now.outline
        (word_bytes words.now)) result }
{
    let start = start_near(alloc, source.outline(), words)?;
    start_remark(alloc, name, source, words, &start)
}

// The answer of a run, and beside it why its start is refused, or its line.
fn beside_ran(alloc: Global, name: &str, source: &Source, words: &[&str], ran: Ran) -> Report
    ensures { IsRunReport (named name.now source.now.bytes) source.now.outline
        (word_bytes words.now) ran result }
{
    let Ran { answer, note } = ran;
    let note = if answer.status == REFUSED {
        start_note(alloc, name, source, words)
    } else {
        Ok(note)
    };
    Report { answer, note }
}

/// The outcome of a run of a source.
pub(crate) fn beside_run<'a>(
    alloc: Global,
    name: &str,
    source: &Source,
    words: &[&str],
    schedule: Option<&str>,
    reply: Reply<'a>,
) -> Outcome<'a>
    ensures { FollowsRunning (named name.now source.now.bytes) source.now.outline
        (word_bytes words.now) schedule.entry reply.entry result }
{
    match reply {
        Reply::Ran(ran) => Outcome::Report(beside_ran(alloc, name, source, words, ran)),
        Reply::BadValue(word) => {
            Outcome::BadValue(bad_word(alloc, source.outline(), words, schedule, word))
        }
        Reply::NotMade(line) => Outcome::NotMade(line),
    }
}

// How much was added to an outline.
fn infer_note(alloc: Global, inferred: &Inferred, json: bool) -> Result<Option<Vec<u8>>, AllocError>
    ensures { IsNote (IsInferNote json inferred.now) result }
{
    let text = inferred.remark(alloc, json)?;
    Ok(Some(text))
}

// A completed outline of this own text, and beside it how much was added.
fn beside_completed(
    alloc: Global,
    own: &[u8],
    inferred: Inferred,
    json: bool,
) -> Result<Report, AllocError>
    requires { length own.now ≤ 2 ^ 20 }
    ensures { IfOk result (λ report. IsPrinted json own.now inferred report.answer
        × Noted (IsInferNote json inferred) report) }
{
    let note = infer_note(alloc, &inferred, json);
    let answer = inferred.into_answer(alloc, own, json)?;
    Ok(Report { answer, note })
}

/// The outcome of an inference for an outline.
pub(crate) fn beside_inferred<'a>(
    alloc: Global,
    subject: &Subject<'_>,
    reply: Inferring<'a>,
    json: bool,
) -> Result<Outcome<'a>, Fault<'a>>
    requires { IsShort (subject_of subject.now) }
    ensures outcome { IfOk result (FollowsInferring json (subject_of subject.now) reply.entry) }
    ensures want { IfErr result (IsWant ⊥) }
{
    match reply {
        Inferring::Inferred(inferred) => Ok(Outcome::Report(beside_completed(
            alloc,
            subject.own,
            inferred,
            json,
        )?)),
        Inferring::BadValue(word) => Ok(Outcome::BadValue(bad_value(
            alloc,
            Gives::Ranges,
            subject.outline,
            word,
        ))),
    }
}

// Nothing printed, and the line that says why.
fn undone(alloc: Global, line: Vec<u8>) -> Report
    ensures text { result.answer.text.items ≡ [] }
    ensures status { result.answer.status ≡ 1 }
    ensures note { result.note ≡ Ok (Some line) }
{
    Report {
        answer: Answer {
            text: Vec::new(alloc),
            status: UNDONE,
        },
        note: Ok(Some(line)),
    }
}

// The outcome of a word that gives no range.
fn bad_start<'a>(alloc: Global, outline: &Outline, word: &'a str) -> Outcome<'a>
    ensures { OnBadValue (IsValueRemark gives.Ranges outline.now) word.entry result }
{
    Outcome::BadValue(bad_value(alloc, Gives::Ranges, outline, word))
}

/// The outcome of a reply for an outline and words that give starts.
pub(crate) fn beside_reply<'a>(alloc: Global, outline: &Outline, reply: Started<'a>) -> Outcome<'a>
    ensures { FollowsReply outline.now reply.entry result }
{
    match reply {
        Started::Answer(answer) => Outcome::Report(alone(answer)),
        Started::BadValue(word) => bad_start(alloc, outline, word),
    }
}

/// The outcome of a drawing for an outline and words that give starts.
pub(crate) fn beside_drawing<'a>(
    alloc: Global,
    outline: &Outline,
    reply: Drawing<'a>,
) -> Outcome<'a>
    ensures { FollowsDrawing outline.now reply.entry result }
{
    match reply {
        Drawing::Graph(text) => Outcome::Report(alone(Answer { text, status: 0 })),
        Drawing::Refused(line) => Outcome::Report(undone(alloc, line)),
        Drawing::BadValue(word) => bad_start(alloc, outline, word),
    }
}

/// The outcome of a translation for an outline and words that give starts.
pub(crate) fn beside_twin<'a>(
    alloc: Global,
    outline: &Outline,
    reply: Translated<'a>,
) -> Outcome<'a>
    ensures { FollowsTwin outline.now reply.entry result }
{
    match reply {
        Translated::Twin(text) => Outcome::Report(alone(Answer { text, status: 0 })),
        Translated::NoTwin(line) => Outcome::Report(undone(alloc, line)),
        Translated::BadValue(word) => bad_start(alloc, outline, word),
    }
}

//! The conjuncts that an outline lacks.

ghost use Rattle.std.specs.Prelude.{◌≡◌, ◌<◌, All, IfOk, IfErr};
ghost use Rattle.og_command_infer.specs.Edits.{IsInBraces};
ghost use Rattle.og_template_outline.specs.Meaning.{IsMeaning};
ghost use Rattle.og_lsp_document.specs.declared.fault.JudgeError.TheVariants.{Spawn};

use og_command_infer::{Effort, Inferrer};
use og_infer_marks::Edit;
use og_io::Budget;
use og_judge::Refusal;
use og_lsp_document::{Judge, JudgeError};
use og_pool::Gate;
use og_report_text::Subject;
use og_template_outline::{Meaning, MeaningError, Takes, read_text};
use std::sync::Wait;
use std::thread::Threads;

// How many searches are made at most, so that an editor need not wait long.
const QUESTIONS: u64 = 2_000;

// What a search for conjuncts is made with.
fn inferrer<'r, G, H>(judge: &Judge<'r, G, H>) -> Inferrer<'r, G, H>
    ensures { result.effort.workers ≡ judge.now.workers }
{
    Inferrer {
        rt: judge.rt,
        alloc: judge.alloc,
        gate: judge.gate,
        effort: Effort {
            proof: judge.budget,
            budget: judge.budget,
            limit: Budget::new(QUESTIONS).unwrap_or(judge.budget),
            workers: judge.workers,
            aux: false,
        },
    }
}

// The edits that add to the notes of a text what a search finds for its outline.
fn edits_of<G: Gate, H: Threads + Wait + Sync>(
    judge: &Judge<'_, G, H>,
    text: &[u8],
    subject: &Subject<'_>,
) -> Result<Vec<Edit>, JudgeError>
    ensures braces { IfOk result (λ edits. All (IsInBraces text.now) edits.items) }
    ensures spawn { IfErr result (λ e. e ≡ Spawn → 1 < judge.now.workers) }
{
    let inferrer = inferrer(judge);
    match inferrer.additions(subject, &[]) {
        Ok(additions) => Ok(inferrer.edits(text, &additions)?),
        Err(Refusal::Memory) => Err(JudgeError::Memory),
        Err(Refusal::Spawn) => Err(JudgeError::Spawn),
        Err(Refusal::Input(_)) => unreachable!(),
    }
}

// The same of what a text means; a template has no such edits, since its outline has another text.
fn edits_of_meaning<G: Gate, H: Threads + Wait + Sync>(
    judge: &Judge<'_, G, H>,
    text: &[u8],
    meaning: &Meaning,
) -> Result<Vec<Edit>, JudgeError>
    requires { IsMeaning text.now meaning.now }
    ensures braces { IfOk result (λ edits. All (IsInBraces text.now) edits.items) }
    ensures spawn { IfErr result (λ e. e ≡ Spawn → 1 < judge.now.workers) }
{
    let subject = meaning.subject(text);
    if subject.own == text {
        edits_of(judge, text, &subject)
    } else {
        Ok(Vec::new(judge.alloc))
    }
}

/// The edits that add to the notes of an outline what a search finds for them, as `og infer` does,
/// each within the braces of a note, in the order of the text. There are none where nothing is found,
/// and none of a template and of a text that is refused.
///
/// # Errors
///
/// As `Judge::judge`.
pub fn missing_conjuncts<G: Gate, H: Threads + Wait + Sync>(
    judge: &Judge<'_, G, H>,
    text: &[u8],
) -> Result<Vec<Edit>, JudgeError>
    ensures braces { IfOk result (λ edits. All (IsInBraces text.now) edits.items) }
    ensures spawn { IfErr result (λ e. e ≡ Spawn → 1 < judge.now.workers) }
{
    match read_text(judge.alloc, text, &[], Takes::Constants) {
        Ok(read) => {
            let edits = edits_of_meaning(judge, text, &read.meaning);
            drop(read);
            edits
        }
        Err(MeaningError::Memory) => Err(JudgeError::Memory),
        Err(MeaningError::Source(_) | MeaningError::Template(_) | MeaningError::BadValue(_)) => {
            Ok(Vec::new(judge.alloc))
        }
    }
}

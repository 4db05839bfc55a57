//! The outlines that sources and templates mean.

ghost use Rattle.std.specs.Prelude.{◌≡◌, true, IfErr, IfOk};
ghost use Rattle.og_report_text.specs.Subject.{subject_of, IsShort};
ghost use Rattle.og_template_outline.specs.Meaning.{Means, IsMeaning};
ghost use Rattle.og_words.specs.Jobs.{word_bytes};
ghost use Rattle.og_program.specs.World.{world_of};
ghost use Rattle.og_program.specs.Opened.{One, LeavesInput, lacks};
ghost use Rattle.og_program.specs.Failing.{IsFault, IsUnread};
ghost use Rattle.og_program.specs.Given.{IsGiven, MeansNone, MeansNoneAsJson};

use crate::fault::Fault;
use crate::files::Files;
use crate::outcome::Outcome;
use crate::program::Program;
use crate::refusing::{refuse_meaning, refuse_meaning_as_json};
use og_report_text::Subject;
use og_template_outline::{Reading, Takes, read_text};
use std::io::Read;

/// A text, what it means, and which words behind it give starts.
#[derive(Drop)]
pub(crate) struct Given<'a> {
    pub(crate) text: Vec<u8>,
    pub(crate) reading: Reading<'a>,
}

impl<'a> Given<'a> {
    /// The outline in its texts.
    pub(crate) fn subject(&self) -> Subject<'_>
        requires { IsMeaning self.now.text.items self.now.reading.meaning }
        ensures means { Means self.now.text.items (subject_of result) }
        ensures short { IsShort (subject_of result) }
    {
        self.reading.meaning.subject(&self.text)
    }
}

impl<'r, F: Files, G, H> Program<'r, F, G, H> {
    /// The outline that the text of a file means, source or template, with the words behind it; or
    /// the outcome where it means none.
    pub(crate) fn given<'a, I: Read>(
        &self,
        name: &'a str,
        words: &[&'a str],
        takes: Takes,
        input: &mut I,
    ) -> Result<Result<Given<'a>, Outcome<'a>>, Fault<'a>>
        ensures given { IfOk result (λ r. IfOk r (IsGiven takes
            (world_of F.contents F.is_missing I.remaining self.now input.old) name.now
            (word_bytes words.now))) }
        ensures none { IfOk result (λ r. IfErr r (MeansNone takes
            (world_of F.contents F.is_missing I.remaining self.now input.old) name.now
            (word_bytes words.now))) }
        ensures fault { IfErr result (IsFault (One name.now) ⊥) }
        ensures missing { lacks (F.is_missing self.now.files.now) (One name.now) ≡ true
            → IsUnread result }
        ensures kept { LeavesInput (One name.now) → I.remaining input.new ≡ I.remaining input.old }
    {
        let text = self.source_bytes(name, input)?;
        match read_text(self.alloc, &text, words, takes) {
            Ok(reading) => Ok(Ok(Given { text, reading })),
            Err(error) => Ok(Err(refuse_meaning(self.alloc, name, &text, words, error)?)),
        }
    }

    /// The same with the refusal as JSON.
    pub(crate) fn given_as_json<'a, I: Read>(
        &self,
        name: &'a str,
        words: &[&'a str],
        takes: Takes,
        input: &mut I,
    ) -> Result<Result<Given<'a>, Outcome<'a>>, Fault<'a>>
        ensures given { IfOk result (λ r. IfOk r (IsGiven takes
            (world_of F.contents F.is_missing I.remaining self.now input.old) name.now
            (word_bytes words.now))) }
        ensures none { IfOk result (λ r. IfErr r (MeansNoneAsJson takes
            (world_of F.contents F.is_missing I.remaining self.now input.old) name.now
            (word_bytes words.now))) }
        ensures fault { IfErr result (IsFault (One name.now) ⊥) }
        ensures missing { lacks (F.is_missing self.now.files.now) (One name.now) ≡ true
            → IsUnread result }
        ensures kept { LeavesInput (One name.now) → I.remaining input.new ≡ I.remaining input.old }
    {
        let bytes = self.source_bytes(name, input)?;
        match read_text(self.alloc, &bytes, words, takes) {
            Ok(reading) => Ok(Ok(Given {
                text: bytes,
                reading,
            })),
            Err(error) => Ok(Err(refuse_meaning_as_json(self.alloc, name, &bytes, words, error)?)),
        }
    }
}

//! Commands that print what they make of one file, in one thread.

ghost use Rattle.std.specs.Prelude.{◌≡◌, true, IfErr, IfOk};
ghost use Rattle.og_typed.specs.Syntax as syntax;
ghost use Rattle.og_typed.specs.Source.{IsSource};
ghost use Rattle.og_report_text.specs.InputErrors.{OnFault, IsFaultOfConditions};
ghost use Rattle.og_program.specs.World.{world_of};
ghost use Rattle.og_program.specs.Opened.{One, LeavesInput, lacks};
ghost use Rattle.og_program.specs.Failing.{IsFault, IsUnread};
ghost use Rattle.og_program.specs.Commands.{form_of, IsListing, NotesOn, Lists, Erases, Expands, Formats, Migrates, Translates};

use crate::beside::{alone, beside_listing, beside_twin};
use crate::fault::Fault;
use crate::files::Files;
use crate::formatting::formatted;
use crate::given::Given;
use crate::outcome::Outcome;
use crate::program::Program;
use crate::refusing::{refuse, refuse_source, refuse_unread};
use og_command_check::{erased, migrated};
use og_command_notes::noted;
use og_command_promela::translated;
use og_report_conditions::{Form, Reply as Listed, listed};
use og_report_refusal::Names;
use og_report_text::InputError;
use og_template_outline::{Takes, expanded};
use og_typed::Source;
use og_words::{Conditions, Erase, Expand, Format, Migrate, Notes, Promela};
use std::alloc::Global;
use std::io::Read;

// How conditions are listed, by the flags that are given.
fn form_of(triples: bool, smt2: bool) -> Form
    ensures { result ≡ form_of triples smt2 }
{
    if smt2 {
        Form::Script
    } else if triples {
        Form::Triples
    } else {
        Form::Facts
    }
}

// The conditions of a source, in the form that is asked for.
fn list<'a>(
    alloc: Global,
    conditions: &Conditions<'a>,
    bytes: &[u8],
) -> Result<Listed<'a>, InputError>
    ensures listing { IfOk result (λ reply. (o : syntax.Program) × IsSource bytes.now o
        × IsListing conditions.now o bytes.now reply) }
    ensures refused { IfErr result (OnFault (IsFaultOfConditions bytes.now)) }
{
    let source = Source::read(alloc, bytes)?;
    let form = form_of(conditions.triples, conditions.smt2);
    listed(alloc, form, conditions.only, source)
}

impl<'r, F: Files, G, H> Program<'r, F, G, H> {
    /// What a yes of an outline, or of a template's, claims, for a reviewer.
    pub(crate) fn notes<'a, I: Read>(
        &self,
        notes: &Notes<'a>,
        input: &mut I,
    ) -> Result<Outcome<'a>, Fault<'a>>
        ensures outcome { IfOk result
            (NotesOn (world_of F.contents F.is_missing I.remaining self.now input.old) notes.now) }
        ensures fault { IfErr result (IsFault (One notes.now.source.now) ⊥) }
        ensures missing { lacks (F.is_missing self.now.files.now) (One notes.now.source.now) ≡ true
            → IsUnread result }
        ensures kept { LeavesInput (One notes.now.source.now)
            → I.remaining input.new ≡ I.remaining input.old }
    {
        match self.given(notes.source, &notes.words, Takes::Constants, input)? {
            Ok(given) => {
                let answer = noted(self.alloc, &given.subject(), notes.budget)?;
                Ok(Outcome::Report(alone(answer)))
            }
            Err(outcome) => Ok(outcome),
        }
    }

    /// The conditions of a source: all, or those whose numbers a word has.
    pub(crate) fn conditions<'a, I: Read>(
        &self,
        conditions: &Conditions<'a>,
        input: &mut I,
    ) -> Result<Outcome<'a>, Fault<'a>>
        ensures outcome { IfOk result
            (Lists (world_of F.contents F.is_missing I.remaining self.now input.old) conditions.now) }
        ensures fault { IfErr result (IsFault (One conditions.now.source.now) ⊥) }
        ensures missing { lacks (F.is_missing self.now.files.now)
            (One conditions.now.source.now) ≡ true → IsUnread result }
        ensures kept { LeavesInput (One conditions.now.source.now)
            → I.remaining input.new ≡ I.remaining input.old }
    {
        let bytes = self.source_bytes(conditions.source, input)?;
        match list(self.alloc, conditions, &bytes) {
            Ok(reply) => Ok(beside_listing(reply)),
            Err(error) => refuse_source(self.alloc, conditions.source, &bytes, error.into()),
        }
    }

    /// The program of a source without its auxiliary variables.
    pub(crate) fn erase<'a, I: Read>(
        &self,
        erase: &Erase<'a>,
        input: &mut I,
    ) -> Result<Outcome<'a>, Fault<'a>>
        ensures outcome { IfOk result
            (Erases (world_of F.contents F.is_missing I.remaining self.now input.old) erase.now) }
        ensures fault { IfErr result (IsFault (One erase.now.source.now) ⊥) }
        ensures missing { lacks (F.is_missing self.now.files.now) (One erase.now.source.now) ≡ true
            → IsUnread result }
        ensures kept { LeavesInput (One erase.now.source.now)
            → I.remaining input.new ≡ I.remaining input.old }
    {
        let bytes = self.source_bytes(erase.source, input)?;
        match Source::read(self.alloc, &bytes) {
            Ok(source) => {
                let answer = erased(self.alloc, source.outline(), erase.readable)?;
                Ok(Outcome::Report(alone(answer)))
            }
            Err(error) => refuse_unread(self.alloc, erase.source, &bytes, error),
        }
    }

    /// The program of an outline, or of a template's, as SPIN reads it, from the starts that the
    /// words give.
    pub(crate) fn promela<'a, I: Read>(
        &self,
        promela: &Promela<'a>,
        input: &mut I,
    ) -> Result<Outcome<'a>, Fault<'a>>
        ensures outcome { IfOk result
            (Translates (world_of F.contents F.is_missing I.remaining self.now input.old) promela.now) }
        ensures fault { IfErr result (IsFault (One promela.now.source.now) ⊥) }
        ensures missing { lacks (F.is_missing self.now.files.now)
            (One promela.now.source.now) ≡ true → IsUnread result }
        ensures kept { LeavesInput (One promela.now.source.now)
            → I.remaining input.new ≡ I.remaining input.old }
    {
        match self.given(promela.source, &promela.words, Takes::Starts, input)? {
            Ok(given) => {
                let subject = given.subject();
                let (starts, erased) = (&given.reading.starts, promela.erased);
                let reply = translated(self.alloc, &subject, starts, erased)?;
                Ok(beside_twin(self.alloc, subject.outline, reply))
            }
            Err(outcome) => Ok(outcome),
        }
    }

    /// The outline that a template means, under the values that the words give.
    pub(crate) fn expand<'a, I: Read>(
        &self,
        expand: &Expand<'a>,
        input: &mut I,
    ) -> Result<Outcome<'a>, Fault<'a>>
        ensures outcome { IfOk result
            (Expands (world_of F.contents F.is_missing I.remaining self.now input.old) expand.now) }
        ensures fault { IfErr result (IsFault (One expand.now.template.now) ⊥) }
        ensures missing { lacks (F.is_missing self.now.files.now)
            (One expand.now.template.now) ≡ true → IsUnread result }
        ensures kept { LeavesInput (One expand.now.template.now)
            → I.remaining input.new ≡ I.remaining input.old }
    {
        match self.given(expand.template, &expand.values, Takes::Constants, input)? {
            Ok(given) => {
                let Given { text, reading } = given;
                let answer = expanded(self.alloc, &text, reading.meaning, expand.as_map)?;
                Ok(Outcome::Report(alone(answer)))
            }
            Err(outcome) => Ok(outcome),
        }
    }

    /// The text of an outline or of a template laid out, or whether it is.
    pub(crate) fn format<'a, I: Read>(
        &self,
        format: &Format<'a>,
        input: &mut I,
    ) -> Result<Outcome<'a>, Fault<'a>>
        ensures outcome { IfOk result
            (Formats (world_of F.contents F.is_missing I.remaining self.now input.old) format.now) }
        ensures fault { IfErr result (IsFault (One format.now.source.now) ⊥) }
        ensures missing { lacks (F.is_missing self.now.files.now) (One format.now.source.now) ≡ true
            → IsUnread result }
        ensures kept { LeavesInput (One format.now.source.now)
            → I.remaining input.new ≡ I.remaining input.old }
    {
        match self.given(format.source, &[], Takes::Constants, input)? {
            Ok(given) => {
                let report = formatted(self.alloc, format, &given.text)?;
                Ok(Outcome::Report(report))
            }
            Err(outcome) => Ok(outcome),
        }
    }

    /// Certificates in version 2.
    pub(crate) fn migrate<'a, I: Read>(
        &self,
        migrate: &Migrate<'a>,
        input: &mut I,
    ) -> Result<Outcome<'a>, Fault<'a>>
        ensures outcome { IfOk result
            (Migrates (world_of F.contents F.is_missing I.remaining self.now input.old) migrate.now) }
        ensures fault { IfErr result (IsFault (One migrate.now.certs.now) ⊥) }
        ensures missing { lacks (F.is_missing self.now.files.now) (One migrate.now.certs.now) ≡ true
            → IsUnread result }
        ensures kept { LeavesInput (One migrate.now.certs.now)
            → I.remaining input.new ≡ I.remaining input.old }
    {
        let certs = self.certificate_bytes(migrate.certs, input)?;
        let names = Names {
            source: "",
            certs: migrate.certs,
        };
        match migrated(self.alloc, &certs) {
            Ok(answer) => Ok(Outcome::Report(alone(answer))),
            Err(error) => refuse(self.alloc, names, b"", error.into()),
        }
    }
}

//! Commands that search, by threads.

ghost use Rattle.std.specs.Prelude.{◌≡◌, ◌<◌, ◌≤◌, is_some, true, IfErr, IfOk};
ghost use Rattle.og_typed.specs.Syntax as syntax;
ghost use Rattle.og_typed.specs.Source.{IsSource};
ghost use Rattle.og_judge.specs.NotJudged.{OnInput};
ghost use Rattle.og_judge.specs.declared.refusal.Refusal.TheVariants as refusals;
ghost use Rattle.og_report_text.specs.InputErrors.{IsFaultOfConditions};
ghost use Rattle.og_command_check.specs.Making.{IsFound};
ghost use Rattle.og_report_text.specs.Subject.{Subject};
ghost use Rattle.og_template_outline.specs.Meaning.{Means, IsMeaning};
ghost use Rattle.og_words.specs.Jobs.{word_bytes};
ghost use Rattle.og_program.specs.World.{named, world_of};
ghost use Rattle.og_program.specs.Opened.{One, LeavesInput, lacks};
ghost use Rattle.og_program.specs.Failing.{IsFault, IsUnread, IsWant};
ghost use Rattle.og_program.specs.Commands.{report_form, text_form, takes_for, Draws, Explores, Finds, InfersOutline, Infers, Looks, ProvesOutline, ProvesOutlineAsJson, ProvesBy, Proves, Shows};

use crate::beside::{beside_drawing, beside_found, beside_inferred, beside_reply};
use crate::fault::Fault;
use crate::files::Files;
use crate::given::Given;
use crate::outcome::Outcome;
use crate::program::Program;
use crate::refusing::{refuse_as_json, refuse_source};
use og_command_check::{CERTS_LIMIT, FindReply, Wanted, found};
use og_command_explore::{Request, draw, explored};
use og_command_infer::{Effort, Inferrer};
use og_command_prove::{Prover, ReportForm, Search};
use og_infer::Addition;
use og_io::{Budget, MomentLimit};
use og_judge::Refusal;
use og_pool::Gate;
use og_template_outline::Takes;
use og_typed::Source;
use og_words::{Explore, Find, Infer, Prove, Show};
use std::io::Read;
use std::sync::Wait;
use std::thread::Threads;

// The form of a report, by whether it is to be JSON.
fn report_form(json: bool) -> ReportForm<'static>
    ensures { result ≡ report_form json }
{
    if json {
        ReportForm::Json
    } else {
        ReportForm::Text
    }
}

// What the words may give: starts too where runs are asked for.
fn takes(runs: Option<MomentLimit>) -> Takes
    ensures { result ≡ takes_for (is_some runs) }
{
    match runs {
        Some(_) => Takes::Starts,
        None => Takes::Constants,
    }
}

// As many.
fn budget_of(facts: u64) -> Budget
    requires { (1 ≤ facts) × (facts ≤ 1000000000) }
{
    match Budget::new(facts) {
        Some(budget) => budget,
        None => unreachable!(),
    }
}

impl<'r, F: Files, G: Gate, H: Threads + Wait + Sync> Program<'r, F, G, H> {
    // A prover that searches so.
    fn prover(&self, search: Search) -> Prover<'r, G, H>
        ensures { result.search ≡ search }
    {
        Prover {
            rt: self.rt,
            alloc: self.alloc,
            gate: self.gate,
            search,
        }
    }

    // What completes outlines with this effort.
    fn with_effort(&self, effort: Effort) -> Inferrer<'r, G, H>
        ensures { result.effort ≡ effort }
    {
        Inferrer {
            rt: self.rt,
            alloc: self.alloc,
            gate: self.gate,
            effort,
        }
    }

    // What completes outlines as these words ask for. The proof of what is printed searches as `prove`
    // does where no budget is given.
    fn inferrer(&self, infer: &Infer<'_>) -> Inferrer<'r, G, H>
        ensures workers { result.effort.workers ≡ infer.now.workers }
        ensures aux { result.effort.aux ≡ infer.now.aux }
    {
        self.with_effort(Effort {
            proof: budget_of(100_000),
            budget: infer.budget,
            limit: infer.limit,
            workers: infer.workers,
            aux: infer.aux,
        })
    }

    // What looks for advice, with the effort of `infer` where none is given.
    fn advisor(&self, prove: &Prove<'_>) -> Inferrer<'r, G, H>
        ensures { result.effort.workers ≡ prove.now.workers }
    {
        self.with_effort(Effort {
            proof: prove.budget,
            budget: budget_of(20_000),
            limit: budget_of(100_000),
            workers: prove.workers,
            aux: false,
        })
    }

    // What searches find of the conditions of an outline that a text of this name means, in a form.
    fn proved<'a>(
        &self,
        name: &str,
        given: &Given<'a>,
        search: Search,
        form: ReportForm,
    ) -> Result<Outcome<'a>, Fault<'a>>
        requires meaning { IsMeaning given.now.text.items given.now.reading.meaning }
        ensures outcome { IfOk result (λ outcome. (s : Subject) × Means given.now.text.items s
            × ProvesOutline form.entry (is_some search.runs) (named name.now given.now.text.items) s
            (word_bytes given.now.reading.starts.items) outcome) }
        ensures want { IfErr result (IsWant (1 < search.workers)) }
    {
        let subject = given.subject();
        match self
            .prover(search)
            .prove(&subject, &given.reading.starts, form)
        {
            Ok(reply) => Ok(beside_reply(self.alloc, subject.outline, reply)),
            Err(refusal) => refuse_source(self.alloc, name, &given.text, refusal),
        }
    }

    // The conjuncts for advice.
    fn additions<'a>(
        &self,
        prove: &Prove<'a>,
        given: &Given<'a>,
    ) -> Result<Vec<Addition>, Fault<'a>>
        requires meaning { IsMeaning given.now.text.items given.now.reading.meaning }
        ensures want { IfErr result (IsWant (1 < prove.now.workers)) }
    {
        let subject = given.subject();
        match self
            .advisor(prove)
            .additions(&subject, &given.reading.starts)
        {
            Ok(additions) => Ok(additions),
            Err(Refusal::Input(_)) => unreachable!(),
            Err(Refusal::Spawn) => Err(Fault::Spawn),
            Err(Refusal::Memory) => Err(Fault::Memory),
        }
    }

    // The same as a text with advice by these conjuncts.
    fn advised<'a, 'g>(
        &self,
        prove: &Prove<'a>,
        given: &'g Given<'a>,
        additions: &'g [Addition],
    ) -> Result<Outcome<'a>, Fault<'a>>
        requires meaning { IsMeaning given.now.text.items given.now.reading.meaning }
        ensures outcome { IfOk result (λ outcome. (s : Subject) × Means given.now.text.items s
            × ProvesOutline ReportForm.Advised (is_some prove.now.runs)
            (named prove.now.source.now given.now.text.items) s
            (word_bytes given.now.reading.starts.items) outcome) }
        ensures want { IfErr result (IsWant (1 < prove.now.workers)) }
    {
        let subject = given.subject();
        match self
            .advisor(prove)
            .advise(&subject, &given.reading.starts, additions, prove.runs)
        {
            Ok(reply) => Ok(beside_reply(self.alloc, subject.outline, reply)),
            Err(refusal) => refuse_source(self.alloc, prove.source, &given.text, refusal),
        }
    }

    // The same as a text, with advice where it is asked for.
    fn proved_as_text<'a>(
        &self,
        prove: &Prove<'a>,
        search: Search,
        given: Given<'a>,
    ) -> Result<Outcome<'a>, Fault<'a>>
        requires meaning { IsMeaning given.text.items given.reading.meaning }
        requires runs { search.runs ≡ prove.now.runs }
        requires workers { search.workers ≡ prove.now.workers }
        ensures outcome { IfOk result (λ outcome. (s : Subject) × Means given.entry.text.items s
            × ProvesOutline (text_form prove.now.suggest) (is_some prove.now.runs)
            (named prove.now.source.now given.entry.text.items) s
            (word_bytes given.entry.reading.starts.items) outcome) }
        ensures want { IfErr result (IsWant (1 < prove.now.workers)) }
    {
        if prove.suggest {
            let additions = self.additions(prove, &given)?;
            self.advised(prove, &given, &additions)
        } else {
            self.proved(prove.source, &given, search, ReportForm::Text)
        }
    }

    // The same as JSON, refusals too.
    fn proved_as_json<'a>(
        &self,
        name: &str,
        given: &Given<'a>,
        search: Search,
    ) -> Result<Outcome<'a>, Fault<'a>>
        requires meaning { IsMeaning given.now.text.items given.now.reading.meaning }
        ensures outcome { IfOk result (λ outcome. (s : Subject) × Means given.now.text.items s
            × ProvesOutlineAsJson (is_some search.runs) (named name.now given.now.text.items) s
            (word_bytes given.now.reading.starts.items) outcome) }
        ensures want { IfErr result (IsWant (1 < search.workers)) }
    {
        let subject = given.subject();
        match self
            .prover(search)
            .prove(&subject, &given.reading.starts, ReportForm::Json)
        {
            Ok(reply) => Ok(beside_reply(self.alloc, subject.outline, reply)),
            Err(refusal) => refuse_as_json(self.alloc, name, &given.text, refusal),
        }
    }

    // What searches find of the conditions of a source or of a template, as JSON, refusals too.
    fn prove_as_json<'a, I: Read>(
        &self,
        prove: &Prove<'a>,
        search: Search,
        input: &mut I,
    ) -> Result<Outcome<'a>, Fault<'a>>
        requires { search.runs ≡ prove.now.runs }
        ensures outcome { IfOk result (ProvesBy true
            (world_of F.contents F.is_missing I.remaining self.now input.old) prove.now) }
        ensures fault { IfErr result (IsFault (One prove.now.source.now) (1 < search.workers)) }
        ensures missing { lacks (F.is_missing self.now.files.now) (One prove.now.source.now) ≡ true
            → IsUnread result }
        ensures kept { LeavesInput (One prove.now.source.now)
            → I.remaining input.new ≡ I.remaining input.old }
    {
        match self.given_as_json(prove.source, &prove.words, takes(prove.runs), input)? {
            Ok(given) => self.proved_as_json(prove.source, &given, search),
            Err(outcome) => Ok(outcome),
        }
    }

    /// What searches find of the conditions of a source, or of a template under the values that the
    /// words give, and of runs where they are to be looked for.
    pub(crate) fn prove<'a, I: Read>(
        &self,
        prove: &Prove<'a>,
        input: &mut I,
    ) -> Result<Outcome<'a>, Fault<'a>>
        ensures outcome { IfOk result (Proves
            (world_of F.contents F.is_missing I.remaining self.now input.old) prove.now) }
        ensures fault { IfErr result (IsFault (One prove.now.source.now) (1 < prove.now.workers)) }
        ensures missing { lacks (F.is_missing self.now.files.now) (One prove.now.source.now) ≡ true
            → IsUnread result }
        ensures kept { LeavesInput (One prove.now.source.now)
            → I.remaining input.new ≡ I.remaining input.old }
    {
        let search = Search {
            budget: prove.budget,
            workers: prove.workers,
            runs: prove.runs,
        };
        if prove.json {
            return self.prove_as_json(prove, search, input);
        }
        match self.given(prove.source, &prove.words, takes(prove.runs), input)? {
            Ok(given) => self.proved_as_text(prove, search, given),
            Err(outcome) => Ok(outcome),
        }
    }

    /// The same as a page.
    pub(crate) fn show<'a, I: Read>(
        &self,
        show: &Show<'a>,
        input: &mut I,
    ) -> Result<Outcome<'a>, Fault<'a>>
        ensures outcome { IfOk result (Shows
            (world_of F.contents F.is_missing I.remaining self.now input.old) show.now) }
        ensures fault { IfErr result (IsFault (One show.now.source.now) (1 < show.now.workers)) }
        ensures missing { lacks (F.is_missing self.now.files.now) (One show.now.source.now) ≡ true
            → IsUnread result }
        ensures kept { LeavesInput (One show.now.source.now)
            → I.remaining input.new ≡ I.remaining input.old }
    {
        let search = Search {
            budget: show.budget,
            workers: show.workers,
            runs: show.runs,
        };
        match self.given(show.source, &show.words, takes(show.runs), input)? {
            Ok(given) => {
                let form = ReportForm::Page(show.source);
                self.proved(show.source, &given, search, form)
            }
            Err(outcome) => Ok(outcome),
        }
    }

    /// What exploring the program of an outline, or of a template's, finds, from the starts that the
    /// words give; or the graph of its moments.
    pub(crate) fn explore<'a, I: Read>(
        &self,
        explore: &Explore<'a>,
        input: &mut I,
    ) -> Result<Outcome<'a>, Fault<'a>>
        ensures outcome { IfOk result
            (Explores (world_of F.contents F.is_missing I.remaining self.now input.old) explore.now) }
        ensures fault { IfErr result (IsFault (One explore.now.source.now) (1 < explore.now.workers)) }
        ensures missing { lacks (F.is_missing self.now.files.now)
            (One explore.now.source.now) ≡ true → IsUnread result }
        ensures kept { LeavesInput (One explore.now.source.now)
            → I.remaining input.new ≡ I.remaining input.old }
    {
        if explore.dot {
            self.draw(explore, input)
        } else {
            self.look(explore, input)
        }
    }

    // The graph of the moments of an outline, or of a template's.
    fn draw<'a, I: Read>(
        &self,
        explore: &Explore<'a>,
        input: &mut I,
    ) -> Result<Outcome<'a>, Fault<'a>>
        ensures outcome { IfOk result
            (Draws (world_of F.contents F.is_missing I.remaining self.now input.old) explore.now) }
        ensures fault { IfErr result (IsFault (One explore.now.source.now) (1 < explore.now.workers)) }
        ensures missing { lacks (F.is_missing self.now.files.now)
            (One explore.now.source.now) ≡ true → IsUnread result }
        ensures kept { LeavesInput (One explore.now.source.now)
            → I.remaining input.new ≡ I.remaining input.old }
    {
        let (source, words) = (explore.source, &explore.words);
        match self.given(source, words, Takes::Starts, input)? {
            Ok(given) => {
                let subject = given.subject();
                let (starts, erased) = (&given.reading.starts, explore.erased);
                let reply = draw(self.alloc, &subject, starts, erased)?;
                Ok(beside_drawing(self.alloc, subject.outline, reply))
            }
            Err(outcome) => Ok(outcome),
        }
    }

    // What is found in the moments of an outline, or of a template's.
    fn look<'a, I: Read>(
        &self,
        explore: &Explore<'a>,
        input: &mut I,
    ) -> Result<Outcome<'a>, Fault<'a>>
        ensures outcome { IfOk result
            (Looks (world_of F.contents F.is_missing I.remaining self.now input.old) explore.now) }
        ensures fault { IfErr result (IsFault (One explore.now.source.now) (1 < explore.now.workers)) }
        ensures missing { lacks (F.is_missing self.now.files.now)
            (One explore.now.source.now) ≡ true → IsUnread result }
        ensures kept { LeavesInput (One explore.now.source.now)
            → I.remaining input.new ≡ I.remaining input.old }
    {
        let request = Request {
            limit: explore.limit.moments(),
            workers: explore.workers,
            erased: explore.erased,
            json: explore.json,
        };
        match self.given(explore.source, &explore.words, Takes::Starts, input)? {
            Ok(given) => {
                let subject = given.subject();
                let reply = explored(
                    self.rt,
                    self.alloc,
                    &subject,
                    &given.reading.starts,
                    request,
                )?;
                Ok(beside_reply(self.alloc, subject.outline, reply))
            }
            Err(outcome) => Ok(outcome),
        }
    }

    // An outline that a text of this name means, completed, and what is proved of it.
    fn completed<'a>(&self, infer: &Infer<'a>, given: &Given<'a>) -> Result<Outcome<'a>, Fault<'a>>
        requires meaning { IsMeaning given.now.text.items given.now.reading.meaning }
        ensures outcome { IfOk result (λ outcome. (s : Subject) × Means given.now.text.items s
            × InfersOutline infer.now.json infer.now.aux (named infer.now.source.now given.now.text.items) s
            (word_bytes given.now.reading.starts.items) outcome) }
        ensures want { IfErr result (IsWant (1 < infer.now.workers)) }
    {
        let subject = given.subject();
        let form = report_form(infer.json);
        match self
            .inferrer(infer)
            .infer(&subject, &given.reading.starts, form)
        {
            Ok(reply) => beside_inferred(self.alloc, &subject, reply, infer.json),
            Err(refusal) => refuse_source(self.alloc, infer.source, &given.text, refusal),
        }
    }

    /// The outline of a source, or of a template under the values that the words give, completed by
    /// assertions that a search finds.
    pub(crate) fn infer<'a, I: Read>(
        &self,
        infer: &Infer<'a>,
        input: &mut I,
    ) -> Result<Outcome<'a>, Fault<'a>>
        ensures outcome { IfOk result (Infers
            (world_of F.contents F.is_missing I.remaining self.now input.old) infer.now) }
        ensures fault { IfErr result (IsFault (One infer.now.source.now) (1 < infer.now.workers)) }
        ensures missing { lacks (F.is_missing self.now.files.now) (One infer.now.source.now) ≡ true
            → IsUnread result }
        ensures kept { LeavesInput (One infer.now.source.now)
            → I.remaining input.new ≡ I.remaining input.old }
    {
        match self.given(infer.source, &infer.words, Takes::Starts, input)? {
            Ok(given) => self.completed(infer, &given),
            Err(outcome) => Ok(outcome),
        }
    }

    // The certificates that are found for the outline of a source.
    fn find_in(&self, bytes: &[u8], wanted: Wanted) -> Result<FindReply, Refusal>
        ensures found { IfOk result (λ reply. (o : syntax.Program) × IsSource bytes.now o
            × IsFound wanted.version wanted.limit o reply) }
        ensures refused { IfErr result (OnInput (IsFaultOfConditions bytes.now)) }
        ensures spawn { IfErr result (λ e. e ≡ refusals.Spawn → 1 < wanted.workers) }
    {
        let source = Source::read(self.alloc, bytes)?;
        found(self.rt, self.alloc, source.outline(), wanted, self.gate)
    }

    /// The certificates that are found for a source.
    pub(crate) fn find<'a, I: Read>(
        &self,
        find: &Find<'a>,
        input: &mut I,
    ) -> Result<Outcome<'a>, Fault<'a>>
        ensures outcome { IfOk result (Finds
            (world_of F.contents F.is_missing I.remaining self.now input.old) find.now) }
        ensures fault { IfErr result (IsFault (One find.now.source.now) (1 < find.now.workers)) }
        ensures missing { lacks (F.is_missing self.now.files.now) (One find.now.source.now) ≡ true
            → IsUnread result }
        ensures kept { LeavesInput (One find.now.source.now)
            → I.remaining input.new ≡ I.remaining input.old }
    {
        let bytes = self.source_bytes(find.source, input)?;
        let wanted = Wanted {
            budget: find.budget,
            workers: find.workers,
            version: find.version,
            limit: CERTS_LIMIT,
        };
        match self.find_in(&bytes, wanted) {
            Ok(reply) => Ok(beside_found(self.alloc, find.source, reply)),
            Err(refusal) => refuse_source(self.alloc, find.source, &bytes, refusal),
        }
    }
}

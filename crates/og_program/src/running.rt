//! Runs, by threads or by a schedule.

ghost use Rattle.std.specs.Prelude.{◌≡◌, true, None, Some, IfOk, IfErr};
ghost use Rattle.og_judge.specs.NotJudged.{IsNotJudged};
ghost use Rattle.og_judge.specs.declared.refusal.Refusal.TheVariants as refusals;
ghost use Rattle.og_command_run.specs.Starts.{HasStart, HasProvedStart};
ghost use Rattle.og_typed.specs.Source.{IsSource};
ghost use Rattle.og_typed.specs.Syntax as syntax;
ghost use Rattle.og_words.specs.Jobs.{word_bytes};
ghost use Rattle.og_program.specs.World.{named, world_of};
ghost use Rattle.og_program.specs.Opened.{One, Both, opened_by_run, LeavesInput, lacks};
ghost use Rattle.og_program.specs.Threads.{StartsFree, StartsProved, StartsBy};
ghost use Rattle.og_program.specs.Failing.{IsFault, IsUnread, IsWant};
ghost use Rattle.og_program.specs.Commands.{RunsOutline, RunsProved, Runs, RunsBy};

use crate::beside::beside_run;
use crate::fault::Fault;
use crate::files::Files;
use crate::outcome::Outcome;
use crate::program::Program;
use crate::refusing::{refuse, refuse_unread};
use og_command_run::{Runner, ran, ran_by_schedule, ran_proved};
use og_judge::Refusal;
use og_pool::Gate;
use og_report_refusal::Names;
use og_typed::Source;
use og_words::Run;
use std::io::Read;
use std::sync::Wait;
use std::thread::Threads;

impl<'r, F: Files, G, H> Program<'r, F, G, H> {
    // Runs the program of a source by a schedule.
    fn run_by_schedule<'a, I: Read>(
        &self,
        run: &Run<'a>,
        schedule: &'a str,
        input: &mut I,
    ) -> Result<Outcome<'a>, Fault<'a>>
        ensures outcome { IfOk result
            (RunsBy None (Some schedule.entry)
            (world_of F.contents F.is_missing I.remaining self.now input.old) run.now) }
        ensures fault { IfErr result (IsFault (One run.now.source.now) ⊥) }
        ensures missing { lacks (F.is_missing self.now.files.now) (One run.now.source.now) ≡ true
            → IsUnread result }
        ensures kept { LeavesInput (One run.now.source.now)
            → I.remaining input.new ≡ I.remaining input.old }
    {
        let bytes = self.source_bytes(run.source, input)?;
        match Source::read(self.alloc, &bytes) {
            Ok(source) => {
                let words: &[&'a str] = &run.values;
                let reply = ran_by_schedule(self.alloc, &source, words, schedule, run.erased)?;
                Ok(beside_run(
                    self.alloc,
                    run.source,
                    &source,
                    words,
                    Some(schedule),
                    reply,
                ))
            }
            Err(error) => refuse_unread(self.alloc, run.source, &bytes, error),
        }
    }
}

impl<'r, F: Files, G: Gate, H: Threads + Wait + Sync> Program<'r, F, G, H> {
    // What each run needs.
    fn runner(&self, run: &Run<'_>) -> Runner<'r, G, H>
        ensures { result.limit ≡ run.now.limit }
    {
        Runner {
            rt: self.rt,
            alloc: self.alloc,
            limit: run.limit,
            gate: self.gate,
        }
    }

    // Runs the program of an outline in threads.
    fn run_outline<'a>(&self, run: &Run<'a>, source: &Source) -> Result<Outcome<'a>, Fault<'a>>
        ensures outcome { IfOk result (RunsOutline run.now (named run.now.source.now source.now.bytes)
            source.now.outline) }
        ensures want { IfErr result (IsWant (HasStart run.now.erased source.now.outline
            (word_bytes run.now.values.items))) }
    {
        let words: &[&'a str] = &run.values;
        self.gate.begin_run(run.limit.steps());
        let reply = ran(&self.runner(run), source, words, run.erased);
        self.gate.end_run();
        Ok(beside_run(self.alloc, run.source, source, words, None, reply?))
    }

    // Runs the program of these bytes in threads, where certificates prove it safe.
    fn run_by_certs<'a>(
        &self,
        run: &Run<'a>,
        bytes: &[u8],
        certs: &[u8],
    ) -> Result<Outcome<'a>, Refusal>
        ensures outcome { IfOk result (λ outcome. (o : syntax.Program) × IsSource bytes.now o
            × RunsProved run.now (named run.now.source.now bytes.now) certs.now o outcome) }
        ensures refused { IfErr result (IsNotJudged bytes.now certs.now) }
        ensures spawn { IfErr result (λ e. e ≡ refusals.Spawn
            → (o : syntax.Program) × IsSource bytes.now o
            × HasProvedStart o certs.now (word_bytes run.now.values.items)) }
    {
        let source = Source::read(self.alloc, bytes)?;
        let words: &[&'a str] = &run.values;
        self.gate.begin_run(run.limit.steps());
        let reply = ran_proved(&self.runner(run), &source, certs, words);
        self.gate.end_run();
        Ok(beside_run(self.alloc, run.source, &source, words, None, reply?))
    }

    // Runs the program of a source in threads.
    fn run_source<'a, I: Read>(
        &self,
        run: &Run<'a>,
        input: &mut I,
    ) -> Result<Outcome<'a>, Fault<'a>>
        ensures outcome { IfOk result
            (RunsBy None None (world_of F.contents F.is_missing I.remaining self.now input.old)
            run.now) }
        ensures fault { IfErr result
            (IsFault (One run.now.source.now)
            (StartsFree (world_of F.contents F.is_missing I.remaining self.now input.old) run.now)) }
        ensures missing { lacks (F.is_missing self.now.files.now) (One run.now.source.now) ≡ true
            → IsUnread result }
        ensures kept { LeavesInput (One run.now.source.now)
            → I.remaining input.new ≡ I.remaining input.old }
    {
        let bytes = self.source_bytes(run.source, input)?;
        match Source::read(self.alloc, &bytes) {
            Ok(source) => self.run_outline(run, &source),
            Err(error) => refuse_unread(self.alloc, run.source, &bytes, error),
        }
    }

    // Runs the program of a source in threads, where certificates prove it safe.
    fn run_proved<'a, I: Read>(
        &self,
        run: &Run<'a>,
        certs: &'a str,
        input: &mut I,
    ) -> Result<Outcome<'a>, Fault<'a>>
        ensures outcome { IfOk result
            (RunsBy (Some certs.entry) run.now.schedule
            (world_of F.contents F.is_missing I.remaining self.now input.old) run.now) }
        ensures fault { IfErr result
            (IsFault (Both run.now.source.now certs.now)
            (StartsProved (world_of F.contents F.is_missing I.remaining self.now input.old) run.now
            certs.now)) }
        ensures missing { lacks (F.is_missing self.now.files.now)
            (Both run.now.source.now certs.now) ≡ true → IsUnread result }
        ensures kept { LeavesInput (Both run.now.source.now certs.now)
            → I.remaining input.new ≡ I.remaining input.old }
    {
        let names = Names {
            source: run.source,
            certs,
        };
        let (source, certs) = self.both_bytes(names, input)?;
        match self.run_by_certs(run, &source, &certs) {
            Ok(outcome) => Ok(outcome),
            Err(refusal) => refuse(self.alloc, names, &source, refusal),
        }
    }

    // Runs the program of a source, by a schedule where one is given.
    fn run_free<'a, I: Read>(&self, run: &Run<'a>, input: &mut I) -> Result<Outcome<'a>, Fault<'a>>
        ensures outcome { IfOk result
            (RunsBy None run.now.schedule
            (world_of F.contents F.is_missing I.remaining self.now input.old) run.now) }
        ensures fault { IfErr result
            (IsFault (One run.now.source.now)
            (StartsBy None run.now.schedule
            (world_of F.contents F.is_missing I.remaining self.now input.old) run.now)) }
        ensures missing { lacks (F.is_missing self.now.files.now) (One run.now.source.now) ≡ true
            → IsUnread result }
        ensures kept { LeavesInput (One run.now.source.now)
            → I.remaining input.new ≡ I.remaining input.old }
    {
        match run.schedule {
            None => self.run_source(run, input),
            Some(schedule) => self.run_by_schedule(run, schedule, input),
        }
    }

    /// Runs the program of a source, where certificates are given only if they prove it safe.
    pub(crate) fn run<'a, I: Read>(
        &self,
        run: &Run<'a>,
        input: &mut I,
    ) -> Result<Outcome<'a>, Fault<'a>>
        ensures outcome { IfOk result
            (Runs (world_of F.contents F.is_missing I.remaining self.now input.old) run.now) }
        ensures fault { IfErr result
            (IsFault (opened_by_run run.now.source.now run.now.certs)
            (StartsBy run.now.certs run.now.schedule
            (world_of F.contents F.is_missing I.remaining self.now input.old) run.now)) }
        ensures missing { lacks (F.is_missing self.now.files.now)
            (opened_by_run run.now.source.now run.now.certs) ≡ true → IsUnread result }
        ensures kept { LeavesInput (opened_by_run run.now.source.now run.now.certs)
            → I.remaining input.new ≡ I.remaining input.old }
    {
        match run.certs {
            None => self.run_free(run, input),
            Some(certs) => self.run_proved(run, certs, input),
        }
    }
}

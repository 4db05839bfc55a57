//! Serves a job, or words: by files and input, to output and a status.

ghost use Rattle.std.specs.Prelude.{◌≡◌, true, map, string_bytes, IfOk, IfErr};
ghost use Rattle.og_program.specs.World.{world_of, stream, trace, trace_of};
ghost use Rattle.og_program.specs.Sound.{IsProven};
ghost use Rattle.og_program.specs.Unblocked.{IsNeverStuck};
ghost use Rattle.og_program.specs.Opened.{opened, LeavesInput, lacks};
ghost use Rattle.og_program.specs.Threads.{StartsThreads};
ghost use Rattle.og_program.specs.Failing.{IsFault, IsUnread};
ghost use Rattle.og_program.specs.Commands.{IsOutcome};
ghost use Rattle.og_program.specs.Served.{FailsToRead, Ends, EndsJob, EndsUsage, EndsWords};

use crate::ended::Ended;
use crate::fault::Fault;
use crate::files::Files;
use crate::outcome::{Outcome, Report};
use crate::program::{Program, Streams};
use crate::writing::{fail, print, refuse, write_result};
use og_pool::Gate;
use og_report_text::Answer;
use og_words::{Job, Usage, read_words};
use std::alloc::Global;
use std::io::{Read, Write};
use std::sync::Wait;
use std::thread::Threads;

impl<'r, F: Files, G: Gate, H: Threads + Wait + Sync> Program<'r, F, G, H> {
    // The outcome of a job.
    fn outcome<'a, I: Read>(&self, job: &Job<'a>, input: &mut I) -> Result<Outcome<'a>, Fault<'a>>
        ensures outcome { IfOk result (IsOutcome
            (world_of F.contents F.is_missing I.remaining self.now input.old) job.now) }
        ensures fault { IfErr result (IsFault (opened job.now) (StartsThreads
            (world_of F.contents F.is_missing I.remaining self.now input.old) job.now)) }
        ensures missing { lacks (F.is_missing self.now.files.now) (opened job.now) ≡ true
            → IsUnread result }
        ensures kept { LeavesInput (opened job.now)
            → I.remaining input.new ≡ I.remaining input.old }
    {
        match job {
            Job::Joined => self.joined(input),
            Job::Prove(prove) => self.prove(prove, input),
            Job::Infer(infer) => self.infer(infer, input),
            Job::Check(check) => self.check(check, input),
            Job::Notes(notes) => self.notes(notes, input),
            Job::Show(show) => self.show(show, input),
            Job::Conditions(conditions) => self.conditions(conditions, input),
            Job::Find(find) => self.find(find, input),
            Job::Erase(erase) => self.erase(erase, input),
            Job::Run(run) => self.run(run, input),
            Job::Explore(explore) => self.explore(explore, input),
            Job::Promela(promela) => self.promela(promela, input),
            Job::Expand(expand) => self.expand(expand, input),
            Job::Format(format) => self.format(format, input),
            Job::Migrate(migrate) => self.migrate(migrate, input),
        }
    }

    // Does a job.
    fn perform<I: Read, O: Write, E: Write>(
        &self,
        job: &Job<'_>,
        streams: &mut Streams<I, O, E>,
    ) -> Ended
        ensures ended { EndsJob
            (world_of F.contents F.is_missing I.remaining self.now streams.old.input) job.now
            (trace_of O.contents E.contents streams.old streams.new result) }
        ensures lacking { lacks (F.is_missing self.now.files.now) (opened job.now) ≡ true
            → FailsToRead job.now (trace_of O.contents E.contents streams.old streams.new result) }
        ensures kept { LeavesInput (opened job.now)
            → I.remaining streams.new.input ≡ I.remaining streams.old.input }
    {
        let outcome = self.outcome(job, &mut streams.input);
        write_result(self.alloc, outcome, &mut streams.out, &mut streams.err)
    }
}

// Prints help, or says why there is no job.
fn explain<O: Write, E: Write>(alloc: Global, usage: Usage, out: &mut O, err: &mut E) -> Ended
    ensures { EndsUsage usage
        (trace (stream O.contents out.old out.new) (stream E.contents err.old err.new) result) }
{
    match usage {
        Usage::Asked(text) => {
            let answer = Answer {
                text: text.into_bytes(),
                status: 0,
            };
            let note = Ok(None);
            print(alloc, &Report { answer, note }, out, err)
        }
        Usage::Wrong(text) => refuse(text.as_str(), err),
        Usage::Memory => fail(alloc, Fault::Memory, err),
    }
}

/// Does a job, or says why there is none. What a command prints goes to standard output, with its
/// status, from 0 to 2. Beside it goes to standard error why something is refused, how many
/// certificates are missing for a check or were not found, or the line of a run along which an
/// assertion is false; and else nothing. Status 0 of `prove`, `infer`, `show`, of a check and of a run
/// with certificates says that the source is proven; and where what was printed says that it is
/// unblocked, that it never gets stuck. Standard input is read where a source or certificates are
/// named `-`, and for a job that has no files.
///
/// The status is 3, with a text to standard error, where the words are wrong, one gives no variable
/// a value, or a step of a schedule cannot be made; and 4, with such a text, where a file is not
/// read or standard output not written, memory runs out or a thread cannot be started. Nothing goes
/// to standard output then, but a front of the answer where it could not be written whole; and
/// nothing to standard error where nobody reads standard output any more.
pub fn serve<F: Files, I: Read, O: Write, E: Write, G: Gate, H: Threads + Wait + Sync>(
    program: &Program<'_, F, G, H>,
    asked: Result<Job<'_>, Usage>,
    streams: &mut Streams<I, O, E>,
) -> Ended
    ensures ended { Ends
        (world_of F.contents F.is_missing I.remaining program.now streams.old.input) asked.entry
        (trace_of O.contents E.contents streams.old streams.new result) }
    ensures sound { IfOk asked.entry (λ job. result.status ≡ 0
        → IsProven (world_of F.contents F.is_missing I.remaining program.now streams.old.input)
        job) }
    ensures unblocked { IfOk asked.entry (λ job. result.status ≡ 0
        → IsNeverStuck (world_of F.contents F.is_missing I.remaining program.now streams.old.input)
        (stream O.contents streams.old.out streams.new.out) job) }
    ensures lacking { IfOk asked.entry
        (λ job. lacks (F.is_missing program.now.files.now) (opened job) ≡ true
        → FailsToRead job (trace_of O.contents E.contents streams.old streams.new result)) }
    ensures kept { IfOk asked.entry (λ job. LeavesInput (opened job)
        → I.remaining streams.new.input ≡ I.remaining streams.old.input) }
    ensures unread { IfErr asked.entry
        (λ _. I.remaining streams.new.input ≡ I.remaining streams.old.input) }
{
    match asked {
        Ok(job) => program.perform(&job, streams),
        Err(usage) => explain(program.alloc, usage, &mut streams.out, &mut streams.err),
    }
}

/// Does what the words after the program's name ask for, as `serve`; or says why there are none.
pub fn serve_words<F: Files, I: Read, O: Write, E: Write, G: Gate, H: Threads + Wait + Sync>(
    program: &Program<'_, F, G, H>,
    words: Result<Vec<String>, Usage>,
    streams: &mut Streams<I, O, E>,
) -> Ended
    ensures words { IfOk words
        (λ w. EndsWords (map (λ s. string_bytes s) w.items)
        (world_of F.contents F.is_missing I.remaining program.now streams.old.input)
        (trace_of O.contents E.contents streams.old streams.new result)
        (I.remaining streams.new.input)) }
    ensures none { IfErr words
        (λ usage. EndsUsage usage (trace_of O.contents E.contents streams.old streams.new result)) }
    ensures unread { IfErr words
        (λ _. I.remaining streams.new.input ≡ I.remaining streams.old.input) }
{
    match words {
        Ok(words) => {
            let asked = read_words(program.alloc, words.as_slice());
            serve(program, asked, streams)
        }
        Err(usage) => explain(program.alloc, usage, &mut streams.out, &mut streams.err),
    }
}

//! From words to a job.

ghost use Rattle.std.specs.Prelude.{◌≡◌, IfOk, IfSome, Some, true, false, option_map, map, codes, string_bytes};
ghost use Rattle.clap.specs.Words.{found_of, rows_of, subcommand_of, subcommand_rows_of};
ghost use Rattle.og_words.specs.CommandLine.{og};
ghost use Rattle.og_words.specs.Given.{rows_below, text_of, number_of, is_given, texts_of};
ghost use Rattle.og_words.specs.Jobs.{verb_name, words_form, command_of, word_bytes, begins_with, HasWords, HoldsRuns, HoldsUsualRuns, Holds, IsAsked};

use crate::commands::program;
use crate::job::{
    Check, Conditions, Erase, Expand, Explore, Find, Format, Infer, Job, Migrate, Notes, Promela,
    Prove, Run, Show, Usage, Verb,
};
use clap::ArgMatches;
use clap::error::{Error, ErrorKind};
use og_io::{Budget, CertVersion, MomentLimit, RunLimit, Workers};
use std::alloc::{AllocError, Global};

fn verb_of(word: &str) -> Option<Verb>
    ensures { IfSome result (λ v. verb_name v ≡ word.now) }
{
    match word {
        "prove" => Some(Verb::Prove),
        "infer" => Some(Verb::Infer),
        "check" => Some(Verb::Check),
        "notes" => Some(Verb::Notes),
        "show" => Some(Verb::Show),
        "conditions" => Some(Verb::Conditions),
        "find" => Some(Verb::Find),
        "erase" => Some(Verb::Erase),
        "run" => Some(Verb::Run),
        "explore" => Some(Verb::Explore),
        "promela" => Some(Verb::Promela),
        "expand" => Some(Verb::Expand),
        "fmt" => Some(Verb::Format),
        "migrate" => Some(Verb::Migrate),
        _ => None,
    }
}

// The word for an argument.
fn text_of<'a>(m: &ArgMatches<'a>, name: &str) -> Option<&'a str>
    ensures { option_map (λ s. s.now) result ≡ text_of name.now (rows_of (found_of m.now)) }
{
    m.get_str(name)
}

// Whether a flag is given.
fn has_flag(m: &ArgMatches<'_>, name: &str) -> bool
    ensures { result ≡ is_given name.now (rows_of (found_of m.now)) }
{
    m.get_one::<bool>(name).unwrap_or(false)
}

fn workers_of(m: &ArgMatches<'_>) -> Option<Workers>
    ensures { IfSome result (λ n. number_of (codes "workers") (rows_of (found_of m.now)) ≡ Some n) }
{
    Workers::new(m.get_one::<u32>("workers")?)
}

fn budget_of(m: &ArgMatches<'_>) -> Option<Budget>
    ensures { IfSome result (λ n. number_of (codes "budget") (rows_of (found_of m.now)) ≡ Some n) }
{
    Budget::new(m.get_one::<u64>("budget")?)
}

fn version_of(m: &ArgMatches<'_>) -> Option<CertVersion>
    ensures { IfSome result (λ n. number_of (codes "version") (rows_of (found_of m.now)) ≡ Some n) }
{
    CertVersion::new(m.get_one::<u32>("version")?)
}

fn limit_of(m: &ArgMatches<'_>) -> Option<RunLimit>
    ensures { IfSome result (λ n. number_of (codes "limit") (rows_of (found_of m.now)) ≡ Some n) }
{
    RunLimit::new(m.get_one::<u32>("limit")?)
}

fn moments_of(m: &ArgMatches<'_>) -> Option<MomentLimit>
    ensures { IfSome result (λ n. number_of (codes "limit") (rows_of (found_of m.now)) ≡ Some n) }
{
    MomentLimit::new(m.get_one::<u32>("limit")?)
}

fn questions_of(m: &ArgMatches<'_>) -> Option<Budget>
    ensures { IfSome result (λ n. number_of (codes "limit") (rows_of (found_of m.now)) ≡ Some n) }
{
    Budget::new(m.get_one::<u64>("limit")?)
}

// How many moments may be looked at for runs, where the flag says to look for them.
fn runs_of(m: &ArgMatches<'_>) -> Option<Option<MomentLimit>>
    ensures { IfSome result (HoldsRuns (rows_of (found_of m.now))) }
{
    if has_flag(m, "runs") {
        Some(Some(moments_of(m)?))
    } else {
        Some(None)
    }
}

// The same, where they are looked for unless the flag says not to.
fn usual_runs_of(m: &ArgMatches<'_>) -> Option<Option<MomentLimit>>
    ensures { IfSome result (HoldsUsualRuns (rows_of (found_of m.now))) }
{
    if has_flag(m, "no-runs") {
        return Some(None);
    }
    let limit = moments_of(m)?;
    Some(Some(limit))
}

fn infer_job<'a>(m: &ArgMatches<'a>, words: Vec<&'a str>) -> Option<Job<'a>>
    requires { word_bytes words.items ≡ texts_of (codes "NAME=INT|LO..HI")
        (rows_of (found_of m.now)) }
    ensures command { IfSome result (λ job. command_of job ≡ Some (verb_name Verb.Infer)) }
    ensures holds { IfSome result (Holds (rows_of (found_of m.now))) }
{
    let source = text_of(m, "SOURCE")?;
    let (budget, limit) = (budget_of(m)?, questions_of(m)?);
    let (workers, json) = (workers_of(m)?, has_flag(m, "json"));
    Some(Job::Infer(Infer {
        source,
        aux: has_flag(m, "aux"),
        budget,
        limit,
        workers,
        json,
        words,
    }))
}

fn check_job<'a>(m: &ArgMatches<'a>) -> Option<Job<'a>>
    ensures command { IfSome result (λ job. command_of job ≡ Some (verb_name Verb.Check)) }
    ensures holds { IfSome result (Holds (rows_of (found_of m.now))) }
{
    let (source, certs) = (text_of(m, "SOURCE")?, text_of(m, "CERTS")?);
    Some(Job::Check(Check {
        source,
        certs,
        workers: workers_of(m)?,
        json: has_flag(m, "json"),
    }))
}

fn notes_job<'a>(m: &ArgMatches<'a>, words: Vec<&'a str>) -> Option<Job<'a>>
    requires { word_bytes words.items ≡ texts_of (codes "NAME=INT") (rows_of (found_of m.now)) }
    ensures command { IfSome result (λ job. command_of job ≡ Some (verb_name Verb.Notes)) }
    ensures holds { IfSome result (Holds (rows_of (found_of m.now))) }
{
    let source = text_of(m, "SOURCE")?;
    let budget = budget_of(m)?;
    Some(Job::Notes(Notes {
        source,
        budget,
        words,
    }))
}

fn conditions_job<'a>(m: &ArgMatches<'a>) -> Option<Job<'a>>
    ensures command { IfSome result (λ job. command_of job ≡ Some (verb_name Verb.Conditions)) }
    ensures holds { IfSome result (Holds (rows_of (found_of m.now))) }
{
    let source = text_of(m, "SOURCE")?;
    let (triples, smt2) = (has_flag(m, "triples"), has_flag(m, "smt2"));
    let only = text_of(m, "only");
    Some(Job::Conditions(Conditions {
        source,
        triples,
        smt2,
        only,
    }))
}

fn find_job<'a>(m: &ArgMatches<'a>) -> Option<Job<'a>>
    ensures command { IfSome result (λ job. command_of job ≡ Some (verb_name Verb.Find)) }
    ensures holds { IfSome result (Holds (rows_of (found_of m.now))) }
{
    let source = text_of(m, "SOURCE")?;
    let (budget, workers, version) = (budget_of(m)?, workers_of(m)?, version_of(m)?);
    Some(Job::Find(Find {
        source,
        budget,
        workers,
        version,
    }))
}

fn erase_job<'a>(m: &ArgMatches<'a>) -> Option<Job<'a>>
    ensures command { IfSome result (λ job. command_of job ≡ Some (verb_name Verb.Erase)) }
    ensures holds { IfSome result (Holds (rows_of (found_of m.now))) }
{
    let source = text_of(m, "SOURCE")?;
    let readable = has_flag(m, "readable");
    Some(Job::Erase(Erase { source, readable }))
}

fn format_job<'a>(m: &ArgMatches<'a>) -> Option<Job<'a>>
    ensures command { IfSome result (λ job. command_of job ≡ Some (verb_name Verb.Format)) }
    ensures holds { IfSome result (Holds (rows_of (found_of m.now))) }
{
    let source = text_of(m, "SOURCE")?;
    let check = has_flag(m, "check");
    Some(Job::Format(Format { source, check }))
}

fn migrate_job<'a>(m: &ArgMatches<'a>) -> Option<Job<'a>>
    ensures command { IfSome result (λ job. command_of job ≡ Some (verb_name Verb.Migrate)) }
    ensures holds { IfSome result (Holds (rows_of (found_of m.now))) }
{
    let certs = text_of(m, "CERTS")?;
    Some(Job::Migrate(Migrate { certs }))
}

// The words for an argument, in their order.
fn texts_of<'a>(alloc: Global, m: &ArgMatches<'a>, name: &str) -> Result<Vec<&'a str>, AllocError>
    ensures { IfOk result (λ v. word_bytes v.items ≡ texts_of name.now (rows_of (found_of m.now))) }
{
    let mut texts = Vec::new(alloc);
    if let Some(words) = m.get_strs(name) {
        texts.extend_from_slice(words)?;
    }
    Ok(texts)
}

fn prove_job<'a>(m: &ArgMatches<'a>, words: Vec<&'a str>) -> Option<Job<'a>>
    requires { word_bytes words.items ≡ texts_of (codes "NAME=INT|LO..HI")
        (rows_of (found_of m.now)) }
    ensures command { IfSome result (λ job. command_of job ≡ Some (verb_name Verb.Prove)) }
    ensures holds { IfSome result (Holds (rows_of (found_of m.now))) }
{
    let source = text_of(m, "SOURCE")?;
    let (budget, workers) = (budget_of(m)?, workers_of(m)?);
    let (json, runs) = (has_flag(m, "json"), usual_runs_of(m)?);
    Some(Job::Prove(Prove {
        source,
        budget,
        workers,
        json,
        words,
        runs,
        suggest: has_flag(m, "suggest"),
    }))
}

fn show_job<'a>(m: &ArgMatches<'a>, words: Vec<&'a str>) -> Option<Job<'a>>
    requires { word_bytes words.items ≡ texts_of (codes "NAME=INT|LO..HI")
        (rows_of (found_of m.now)) }
    ensures command { IfSome result (λ job. command_of job ≡ Some (verb_name Verb.Show)) }
    ensures holds { IfSome result (Holds (rows_of (found_of m.now))) }
{
    Some(Job::Show(Show {
        source: text_of(m, "SOURCE")?,
        budget: budget_of(m)?,
        workers: workers_of(m)?,
        words,
        runs: runs_of(m)?,
    }))
}

fn run_job<'a>(m: &ArgMatches<'a>, values: Vec<&'a str>) -> Option<Job<'a>>
    requires { word_bytes values.items ≡ texts_of (codes "NAME=INT") (rows_of (found_of m.now)) }
    ensures command { IfSome result (λ job. command_of job ≡ Some (verb_name Verb.Run)) }
    ensures holds { IfSome result (Holds (rows_of (found_of m.now))) }
{
    Some(Job::Run(Run {
        source: text_of(m, "SOURCE")?,
        limit: limit_of(m)?,
        erased: has_flag(m, "erased"),
        certs: text_of(m, "certs"),
        schedule: text_of(m, "schedule"),
        values,
    }))
}

fn explore_job<'a>(m: &ArgMatches<'a>, words: Vec<&'a str>) -> Option<Job<'a>>
    requires { word_bytes words.items ≡ texts_of (codes "NAME=INT|LO..HI")
        (rows_of (found_of m.now)) }
    ensures command { IfSome result (λ job. command_of job ≡ Some (verb_name Verb.Explore)) }
    ensures holds { IfSome result (Holds (rows_of (found_of m.now))) }
{
    let source = text_of(m, "SOURCE")?;
    let (limit, workers) = (moments_of(m)?, workers_of(m)?);
    let (erased, json) = (has_flag(m, "erased"), has_flag(m, "json"));
    Some(Job::Explore(Explore {
        source,
        limit,
        workers,
        erased,
        json,
        dot: has_flag(m, "dot"),
        words,
    }))
}

fn promela_job<'a>(m: &ArgMatches<'a>, words: Vec<&'a str>) -> Option<Job<'a>>
    requires { word_bytes words.items ≡ texts_of (codes "NAME=INT|LO..HI")
        (rows_of (found_of m.now)) }
    ensures command { IfSome result (λ job. command_of job ≡ Some (verb_name Verb.Promela)) }
    ensures holds { IfSome result (Holds (rows_of (found_of m.now))) }
{
    let source = text_of(m, "SOURCE")?;
    let erased = has_flag(m, "erased");
    Some(Job::Promela(Promela {
        source,
        erased,
        words,
    }))
}

fn expand_job<'a>(m: &ArgMatches<'a>, values: Vec<&'a str>) -> Option<Job<'a>>
    requires { word_bytes values.items ≡ texts_of (codes "NAME=INT") (rows_of (found_of m.now)) }
    ensures command { IfSome result (λ job. command_of job ≡ Some (verb_name Verb.Expand)) }
    ensures holds { IfSome result (Holds (rows_of (found_of m.now))) }
{
    let template = text_of(m, "TEMPLATE")?;
    let as_map = has_flag(m, "map");
    Some(Job::Expand(Expand {
        template,
        as_map,
        values,
    }))
}

// How the words behind a source are named, of a command that takes some.
fn words_form(verb: Verb) -> Option<&'static str>
    ensures { option_map (λ form. form.now) result ≡ words_form verb }
{
    match verb {
        Verb::Notes | Verb::Run | Verb::Expand => Some("NAME=INT"),
        Verb::Prove | Verb::Infer | Verb::Show | Verb::Explore | Verb::Promela => Some(
            "NAME=INT|LO..HI",
        ),
        Verb::Check | Verb::Conditions | Verb::Find | Verb::Erase | Verb::Format | Verb::Migrate =>
            None,
    }
}

// The words behind a source.
fn words_of<'a>(alloc: Global, verb: Verb, m: &ArgMatches<'a>) -> Result<Vec<&'a str>, AllocError>
    ensures { IfOk result (λ words. HasWords (rows_of (found_of m.now)) (words_form verb)
        (word_bytes words.items)) }
{
    match words_form(verb) {
        Some(form) => texts_of(alloc, m, form),
        None => Ok(Vec::new(alloc)),
    }
}

// The job of a command with the words behind its source.
fn job_with<'a>(verb: Verb, m: &ArgMatches<'a>, words: Vec<&'a str>) -> Option<Job<'a>>
    requires { HasWords (rows_of (found_of m.now)) (words_form verb) (word_bytes words.items) }
    ensures command { IfSome result (λ job. command_of job ≡ Some (verb_name verb)) }
    ensures holds { IfSome result (Holds (rows_of (found_of m.now))) }
{
    match verb {
        Verb::Prove => prove_job(m, words),
        Verb::Infer => infer_job(m, words),
        Verb::Check => check_job(m),
        Verb::Notes => notes_job(m, words),
        Verb::Show => show_job(m, words),
        Verb::Conditions => conditions_job(m),
        Verb::Find => find_job(m),
        Verb::Erase => erase_job(m),
        Verb::Run => run_job(m, words),
        Verb::Explore => explore_job(m, words),
        Verb::Promela => promela_job(m, words),
        Verb::Expand => expand_job(m, words),
        Verb::Format => format_job(m),
        Verb::Migrate => migrate_job(m),
    }
}

// The job of a command.
fn job_of<'a>(alloc: Global, verb: Verb, m: &ArgMatches<'a>) -> Result<Option<Job<'a>>, AllocError>
    ensures command { IfOk result (λ r. IfSome r (λ job. command_of job ≡ Some (verb_name verb))) }
    ensures holds { IfOk result (λ r. IfSome r (Holds (rows_of (found_of m.now)))) }
{
    Ok(job_with(verb, m, words_of(alloc, verb, m)?))
}

// The job of a command's name.
fn named_job<'a>(
    alloc: Global,
    name: &str,
    matches: &ArgMatches<'a>,
) -> Result<Option<Job<'a>>, AllocError>
    ensures command { IfOk result (λ r. IfSome r (λ job. command_of job ≡ Some name.now)) }
    ensures holds { IfOk result
        (λ r. IfSome r (Holds (rows_below (subcommand_rows_of matches.now)))) }
{
    let Some(verb) = verb_of(name) else {
        return Ok(None);
    };
    match matches.subcommand() {
        Some((_, m)) => job_of(alloc, verb, m),
        None => Ok(None),
    }
}

// Adds a character as messages show it: a control character escaped.
fn put_shown(text: &mut String, c: char) -> Result<(), AllocError> {
    if c.is_control() {
        text.extend(c.escape_unicode())
    } else {
        text.push(c)
    }
}

// A word as messages show it.
fn shown_word(alloc: Global, word: &str) -> Result<String, AllocError> {
    let mut text = String::new(alloc);
    for c in word.chars() {
        put_shown(&mut text, c)?;
    }
    Ok(text)
}

// The words as messages show them.
fn shown_words(alloc: Global, words: &[String]) -> Result<Vec<String>, AllocError> {
    let mut shown = Vec::new(alloc);
    for word in words {
        shown.push(shown_word(alloc, word.as_str())?)?;
    }
    Ok(shown)
}

// What an error says is wrong, or the help text.
fn text_of_error(alloc: Global, error: &Error) -> Result<Usage, AllocError> {
    if error.kind() == ErrorKind::OutOfMemory {
        return Ok(Usage::Memory);
    }
    let text = format!(in alloc; "{error}")?;
    Ok(if error.use_stderr() {
        Usage::Wrong(text)
    } else {
        Usage::Asked(text)
    })
}

// What is wrong with these words, or the help text.
fn usage_of(alloc: Global, words: &[String]) -> Result<Usage, AllocError> {
    match program(alloc)?.try_get_matches_from(words) {
        Ok(matches) => {
            drop(matches);
            Ok(Usage::wrong(alloc, "og: bad words\n"))
        }
        Err(error) => text_of_error(alloc, &error),
    }
}

// What is wrong with the words, which are shown without control characters, or the help text.
fn shown_usage(alloc: Global, words: &[String], kind: ErrorKind) -> Result<Usage, AllocError> {
    if kind == ErrorKind::OutOfMemory {
        return Ok(Usage::Memory);
    }
    let shown = shown_words(alloc, words)?;
    usage_of(alloc, shown.as_slice())
}

// What the words say by the command line.
fn matches_of<'a>(alloc: Global, words: &'a [String]) -> Result<ArgMatches<'a>, Usage>
    ensures { IfOk result
        (λ m. subcommand_rows_of m ≡ subcommand_of og (map (λ w. string_bytes w) words.entry.now)) }
{
    match program(alloc)?.try_get_matches_from(words) {
        Ok(matches) => Ok(matches),
        Err(error) => Err(shown_usage(alloc, words, error.kind())?),
    }
}

/// Whether the words ask for the language server, which is no job: the first of them is `lsp`.
///
/// # Errors
///
/// As `read_words`, where that is the first word.
pub fn asks_for_editor(alloc: Global, words: &[String]) -> Result<bool, Usage>
    ensures { IfOk result (λ asks. asks ≡ begins_with (codes "lsp") (map (λ w. string_bytes w) words.now)) }
{
    let Some(first) = words.first() else {
        return Ok(false);
    };
    if first.as_str() != "lsp" {
        return Ok(false);
    }
    let matches = matches_of(alloc, words)?;
    drop(matches);
    Ok(true)
}

/// The job that the words ask for; they are the words after the program's name. The first names
/// the command, and without any it is `Joined`.
///
/// `Asked` holds a help text, `Wrong` the fault of the words; `Memory` where an allocation
/// was refused.
pub fn read_words<'a>(alloc: Global, words: &'a [String]) -> Result<Job<'a>, Usage>
    ensures { IsAsked (map (λ w. string_bytes w) words.now) result }
{
    let Some(first) = words.first() else {
        return Ok(Job::Joined);
    };
    let matches = matches_of(alloc, words)?;
    let job = named_job(alloc, first.as_str(), &matches);
    drop(matches);
    match job? {
        Some(job) => Ok(job),
        None => Err(Usage::wrong(alloc, "og: bad words\n")),
    }
}

//! The command line, as help texts show it.

ghost use Rattle.std.specs.Prelude.{◌≡◌, ◌++◌, ◌∷◌, [], IfOk, codes};
ghost use Rattle.clap.specs.Words.{App, Rule, Shape, app_of, with_subcommand};
ghost use Rattle.og_words.specs.CommandLine as line;
ghost use Rattle.og_words.specs.Made.{IsArg, IsBound, IsCommand};

use clap::builder::ValueParser;
use clap::{Arg, ArgAction, Command};
use std::alloc::{AllocError, Global};

// How help calls the words behind an outline or a template whose runs are looked for.
const START_WORDS: &str =
    "A constant's value, where SOURCE is a template; or a variable's value at the start, or its values";

// The same, where several are taken without such a word.
const RUN_WORDS: &str =
    "A constant's value, where SOURCE is a template; or a variable's value at the start, or its values, else some near 0";

// A command without arguments.
fn command<'a>(alloc: Global, name: &'a str, about: &'a str) -> Command<'a>
    ensures { IsCommand (line.command name.entry.now []) result }
{
    Command::new(alloc, name).about(about)
}

// The command with one argument more. Both are taken as they were made, so that no function that
// adds several has a way out at each.
fn with_arg<'a>(
    command: Result<Command<'a>, AllocError>,
    arg: Result<Arg<'a>, AllocError>,
) -> Result<Command<'a>, AllocError>
    ensures { (s : Shape) (rule : Rule) → IfOk command.entry (IsCommand s)
        → IfOk arg.entry (IsArg rule)
        → IfOk result (IsCommand (record s { rules = s.rules ++ rule ∷ [] })) }
{
    command?.arg(arg?)
}

// A word that must be given, in its place.
fn word_arg<'a>(alloc: Global, name: &'a str, help: &'a str) -> Arg<'a>
    ensures { IsArg (line.word name.entry.now) result }
{
    Arg::new(alloc, name).required(true).help(help)
}

// `--NAME`.
fn flag_arg<'a>(alloc: Global, name: &'a str, help: &'a str) -> Arg<'a>
    ensures { IsArg (line.flag name.entry.now) result }
{
    Arg::new(alloc, name)
        .long(name)
        .action(ArgAction::SetTrue)
        .help(help)
}

// `--NAME VALUE`, and how help calls the value.
fn option_arg<'a>(alloc: Global, name: &'a str, value: &'a str, help: &'a str) -> Arg<'a>
    ensures { IsArg (line.option name.entry.now) result }
{
    Arg::new(alloc, name)
        .long(name)
        .value_name(value)
        .help(help)
}

// `--NAME N`, this N where it is not given, and within which bounds it lies.
fn number_arg<'a>(
    alloc: Global,
    name: &'a str,
    usual: &'a str,
    bounds: ValueParser<'a>,
    help: &'a str,
) -> Arg<'a>
    ensures { IsArg (line.number name.entry.now usual.entry.now bounds.entry) result }
{
    Arg::new(alloc, name)
        .long(name)
        .value_name("N")
        .default_value(usual)
        .value_parser(bounds)
        .help(help)
}

// Words of a form, as many as there are.
fn words_arg<'a>(alloc: Global, form: &'a str, help: &'a str) -> Arg<'a>
    ensures { IsArg (line.words form.entry.now) result }
{
    Arg::new(alloc, form)
        .num_args(0..)
        .action(ArgAction::Append)
        .help(help)
}

// The argument, which goes with another one alone.
fn beside<'a>(arg: Arg<'a>, other: &'a str) -> Result<Arg<'a>, AllocError>
    ensures { IfOk result (IsBound arg.entry) }
{
    arg.requires_arg(other)
}

// The argument, which does not go with another one.
fn without<'a>(arg: Arg<'a>, other: &'a str) -> Result<Arg<'a>, AllocError>
    ensures { IfOk result (IsBound arg.entry) }
{
    arg.conflicts_with(other)
}

fn source_arg<'a>(alloc: Global) -> Arg<'a>
    ensures { IsArg line.source result }
{
    word_arg(
        alloc,
        "SOURCE",
        "The proof outline, or - for standard input",
    )
}

fn certs_arg<'a>(alloc: Global) -> Arg<'a>
    ensures { IsArg line.certs result }
{
    word_arg(alloc, "CERTS", "The certificates")
}

// How many workers there are; the help text says what they do.
fn workers_arg<'a>(alloc: Global, help: &'a str) -> Arg<'a>
    ensures { IsArg line.workers result }
{
    let bounds = clap::value_parser!(u32).range(1..=64);
    number_arg(alloc, "workers", "1", bounds, help)
}

// How many steps a search may make; the help text says for what.
fn budget_arg<'a>(alloc: Global, help: &'a str) -> Arg<'a>
    ensures { IsArg line.budget result }
{
    let bounds = clap::value_parser!(u64).range(1..=1000000000);
    number_arg(alloc, "budget", "100000", bounds, help)
}

fn condition_budget_arg<'a>(alloc: Global) -> Arg<'a>
    ensures { IsArg line.budget result }
{
    budget_arg(
        alloc,
        "How many steps a search may make for each condition, 1 to 1000000000",
    )
}

// How many moments may be looked at, and this many where it is not said; the help text says when.
fn moments_arg<'a>(alloc: Global, usual: &'a str, help: &'a str) -> Arg<'a>
    ensures { IsArg (line.moments usual.entry.now) result }
{
    let bounds = clap::value_parser!(u32).range(1..=1000000000);
    number_arg(alloc, "limit", usual, bounds, help)
}

// How many moments may be looked at for runs; the help text says when.
fn runs_limit_arg<'a>(alloc: Global, help: &'a str) -> Arg<'a>
    ensures { IsArg line.runs_limit result }
{
    moments_arg(alloc, "100000", help)
}

// Words that give variables or constants their values; the help text says when.
fn ranges_arg<'a>(alloc: Global, help: &'a str) -> Arg<'a>
    ensures { IsArg line.ranges result }
{
    words_arg(alloc, "NAME=INT|LO..HI", help)
}

fn json_arg<'a>(alloc: Global) -> Arg<'a>
    ensures { IsArg (line.flag (codes "json")) result }
{
    flag_arg(alloc, "json", "Print the report as JSON")
}

// `--runs` where runs are looked for without it too.
fn usual_runs_arg<'a>(alloc: Global) -> Arg<'a>
    ensures { IsArg (line.flag (codes "runs")) result }
{
    let help = "Look for runs to the states in which conditions are false, as without it";
    flag_arg(alloc, "runs", help)
}

fn runs_arg<'a>(alloc: Global) -> Arg<'a>
    ensures { IsArg (line.flag (codes "runs")) result }
{
    flag_arg(
        alloc,
        "runs",
        "Look for runs to the states in which conditions are false",
    )
}

// `--no-runs`.
fn no_runs_arg<'a>(alloc: Global) -> Result<Arg<'a>, AllocError>
    ensures { IfOk result (IsArg line.no_runs_flag) }
{
    let no_runs = flag_arg(alloc, "no-runs", "Look for no runs");
    without(without(no_runs, "runs")?, "limit")
}

// `--suggest`.
fn suggest_arg<'a>(alloc: Global) -> Result<Arg<'a>, AllocError>
    ensures { IfOk result (IsArg line.suggest_flag) }
{
    let help = "Say what assertions lack to prove a false condition, as og infer finds it";
    without(flag_arg(alloc, "suggest", help), "json")
}

// `--dot`.
fn dot_arg<'a>(alloc: Global) -> Result<Arg<'a>, AllocError>
    ensures { IfOk result (IsArg line.dot_flag) }
{
    let help = "Print the moments and steps as a graph for Graphviz, at most 1000 moments";
    without(flag_arg(alloc, "dot", help), "json")
}

fn run_moments_arg<'a>(alloc: Global) -> Result<Arg<'a>, AllocError>
    ensures { IfOk result (IsArg line.run_moments) }
{
    let help = "With --runs: how many moments may be looked at, 1 to 1000000000";
    beside(runs_limit_arg(alloc, help), "runs")
}

// The words behind an outline or a template whose runs may be looked for.
fn start_words_arg<'a>(alloc: Global) -> Arg<'a>
    ensures { IsArg line.ranges result }
{
    ranges_arg(
        alloc,
        "A constant's value, where SOURCE is a template; with --runs a variable's value at the start, or its values, else some near 0",
    )
}

// Words that give variables or constants a value each; the help text says which.
fn values_arg<'a>(alloc: Global, help: &'a str) -> Arg<'a>
    ensures { IsArg line.values result }
{
    words_arg(alloc, "NAME=INT", help)
}

fn prove_command<'a>(alloc: Global) -> Result<Command<'a>, AllocError>
    ensures { IfOk result (IsCommand line.prover) }
{
    let about = "Prove an outline, or say what is wrong with it";
    let workers = workers_arg(alloc, "How many threads work, 1 to 64");
    let help = "How many moments may be looked at for runs, 1 to 1000000000";
    let prove = with_arg(Ok(command(alloc, "prove", about)), Ok(source_arg(alloc)));
    let prove = with_arg(prove, Ok(condition_budget_arg(alloc)));
    let prove = with_arg(prove, Ok(workers));
    let prove = with_arg(prove, Ok(json_arg(alloc)));
    let prove = with_arg(prove, Ok(usual_runs_arg(alloc)));
    let prove = with_arg(prove, no_runs_arg(alloc));
    let prove = with_arg(prove, suggest_arg(alloc));
    let prove = with_arg(prove, Ok(runs_limit_arg(alloc, help)));
    with_arg(prove, Ok(ranges_arg(alloc, RUN_WORDS)))
}

// How many steps a search for an assertion may make.
fn infer_budget_arg<'a>(alloc: Global) -> Arg<'a>
    ensures { IsArg line.infer_budget result }
{
    let bounds = clap::value_parser!(u64).range(1..=1000000000);
    let help = "How many steps a search may make for each question, 1 to 1000000000";
    number_arg(alloc, "budget", "20000", bounds, help)
}

fn questions_arg<'a>(alloc: Global) -> Arg<'a>
    ensures { IsArg line.questions result }
{
    let bounds = clap::value_parser!(u64).range(1..=1000000000);
    let help = "How many questions may be asked, 1 to 1000000000";
    number_arg(alloc, "limit", "100000", bounds, help)
}

fn aux_arg<'a>(alloc: Global) -> Arg<'a>
    ensures { IsArg (line.flag (codes "aux")) result }
{
    flag_arg(
        alloc,
        "aux",
        "Invent auxiliary variables where assertions need some",
    )
}

fn infer_command<'a>(alloc: Global) -> Result<Command<'a>, AllocError>
    ensures { IfOk result (IsCommand line.infer) }
{
    let about = "Complete an outline by assertions that prove it";
    let workers = workers_arg(alloc, "How many threads work, 1 to 64");
    let infer = with_arg(Ok(command(alloc, "infer", about)), Ok(source_arg(alloc)));
    let infer = with_arg(infer, Ok(aux_arg(alloc)));
    let infer = with_arg(infer, Ok(infer_budget_arg(alloc)));
    let infer = with_arg(infer, Ok(questions_arg(alloc)));
    let infer = with_arg(infer, Ok(workers));
    let infer = with_arg(infer, Ok(json_arg(alloc)));
    with_arg(infer, Ok(ranges_arg(alloc, START_WORDS)))
}

fn check_command<'a>(alloc: Global) -> Result<Command<'a>, AllocError>
    ensures { IfOk result (IsCommand line.check) }
{
    let about = "Check an outline by its certificates";
    let workers = workers_arg(alloc, "How many threads check, 1 to 64");
    let check = with_arg(Ok(command(alloc, "check", about)), Ok(source_arg(alloc)));
    let check = with_arg(check, Ok(certs_arg(alloc)));
    let check = with_arg(check, Ok(workers));
    with_arg(check, Ok(json_arg(alloc)))
}

fn notes_command<'a>(alloc: Global) -> Result<Command<'a>, AllocError>
    ensures { IfOk result (IsCommand line.notes) }
{
    let help = "How many steps a search may make for each assertion, 1 to 1000000000";
    let about = "Tell what a yes of an outline claims and what it does not";
    let notes = with_arg(Ok(command(alloc, "notes", about)), Ok(source_arg(alloc)));
    let notes = with_arg(notes, Ok(budget_arg(alloc, help)));
    let words = "A constant's value, where SOURCE is a template";
    with_arg(notes, Ok(values_arg(alloc, words)))
}

fn show_command<'a>(alloc: Global) -> Result<Command<'a>, AllocError>
    ensures { IfOk result (IsCommand line.show) }
{
    let about = "Print a page of HTML that shows what is proved and what is wrong";
    let workers = workers_arg(alloc, "How many threads work, 1 to 64");
    let show = with_arg(Ok(command(alloc, "show", about)), Ok(source_arg(alloc)));
    let show = with_arg(show, Ok(condition_budget_arg(alloc)));
    let show = with_arg(show, Ok(workers));
    let show = with_arg(show, Ok(runs_arg(alloc)));
    let show = with_arg(show, run_moments_arg(alloc));
    with_arg(show, Ok(start_words_arg(alloc)))
}

fn smt2_arg<'a>(alloc: Global) -> Result<Arg<'a>, AllocError>
    ensures { IfOk result (IsArg line.smt2_flag) }
{
    let help = "Print a script for z3 or cvc5, which answer unsat where a condition is true";
    without(flag_arg(alloc, "smt2", help), "triples")
}

fn conditions_command<'a>(alloc: Global) -> Result<Command<'a>, AllocError>
    ensures { IfOk result (IsCommand line.conditions) }
{
    let triples = "Print each as a triple, {P} S {Q}, in place of its facts";
    let only = "Print the conditions with these numbers alone, which count from 1";
    let about = "Print every condition with its facts";
    let conditions = with_arg(
        Ok(command(alloc, "conditions", about)),
        Ok(source_arg(alloc)),
    );
    let conditions = with_arg(conditions, Ok(flag_arg(alloc, "triples", triples)));
    let conditions = with_arg(conditions, smt2_arg(alloc));
    with_arg(conditions, Ok(option_arg(alloc, "only", "N,M..", only)))
}

fn version_arg<'a>(alloc: Global) -> Arg<'a>
    ensures { IsArg line.version result }
{
    let bounds = clap::value_parser!(u32).range(1..=2);
    let help = "In which version the certificates are written, 1 or 2";
    number_arg(alloc, "version", "1", bounds, help)
}

fn find_command<'a>(alloc: Global) -> Result<Command<'a>, AllocError>
    ensures { IfOk result (IsCommand line.finder) }
{
    let about = "Print the certificates that are found";
    let workers = workers_arg(alloc, "How many threads search, 1 to 64");
    let find = with_arg(Ok(command(alloc, "find", about)), Ok(source_arg(alloc)));
    let find = with_arg(find, Ok(condition_budget_arg(alloc)));
    let find = with_arg(find, Ok(workers));
    with_arg(find, Ok(version_arg(alloc)))
}

fn erase_command<'a>(alloc: Global) -> Result<Command<'a>, AllocError>
    ensures { IfOk result (IsCommand line.erase) }
{
    let help = "Print relations with terms on both sides";
    let about = "Print the program without its auxiliary variables";
    let erase = with_arg(Ok(command(alloc, "erase", about)), Ok(source_arg(alloc)));
    with_arg(erase, Ok(flag_arg(alloc, "readable", help)))
}

fn limit_arg<'a>(alloc: Global) -> Arg<'a>
    ensures { IsArg line.limit result }
{
    let bounds = clap::value_parser!(u32).range(0..=1000000);
    let help = "How many steps the history may have, 0 to 1000000";
    number_arg(alloc, "limit", "1000", bounds, help)
}

fn run_certs_arg<'a>(alloc: Global) -> Result<Arg<'a>, AllocError>
    ensures { IfOk result (IsArg line.certs_option) }
{
    let help = "Run only what these certificates prove safe";
    without(option_arg(alloc, "certs", "FILE", help), "erased")
}

fn schedule_arg<'a>(alloc: Global) -> Result<Arg<'a>, AllocError>
    ensures { IfOk result (IsArg line.schedule_option) }
{
    let help = "Make the steps of these processes in this order, in one thread";
    let schedule = option_arg(alloc, "schedule", "P,P,..", help);
    without(without(schedule, "certs")?, "limit")
}

fn run_command<'a>(alloc: Global) -> Result<Command<'a>, AllocError>
    ensures { IfOk result (IsCommand line.run) }
{
    let about = "Run the processes in threads, or step by step";
    let erased = flag_arg(alloc, "erased", "Run the erased program");
    let values = values_arg(alloc, "A variable's value at the start");
    let run = with_arg(Ok(command(alloc, "run", about)), Ok(source_arg(alloc)));
    let run = with_arg(run, Ok(limit_arg(alloc)));
    let run = with_arg(run, Ok(erased));
    let run = with_arg(run, run_certs_arg(alloc));
    let run = with_arg(run, schedule_arg(alloc));
    with_arg(run, Ok(values))
}

fn explore_command<'a>(alloc: Global) -> Result<Command<'a>, AllocError>
    ensures { IfOk result (IsCommand line.explorer) }
{
    let about = "Look through every run for what goes wrong";
    let help = "How many moments may be looked at, 1 to 1000000000";
    let moments = moments_arg(alloc, "1000000", help);
    let workers = workers_arg(alloc, "How many threads work, 1 to 64");
    let erased = flag_arg(alloc, "erased", "Explore the erased program");
    let explore = with_arg(Ok(command(alloc, "explore", about)), Ok(source_arg(alloc)));
    let explore = with_arg(explore, Ok(moments));
    let explore = with_arg(explore, Ok(workers));
    let explore = with_arg(explore, Ok(erased));
    let explore = with_arg(explore, Ok(json_arg(alloc)));
    let explore = with_arg(explore, dot_arg(alloc));
    with_arg(explore, Ok(ranges_arg(alloc, RUN_WORDS)))
}

fn promela_command<'a>(alloc: Global) -> Result<Command<'a>, AllocError>
    ensures { IfOk result (IsCommand line.translator) }
{
    let about = "Print the program as SPIN reads it";
    let erased = flag_arg(alloc, "erased", "Print the erased program");
    let promela = with_arg(Ok(command(alloc, "promela", about)), Ok(source_arg(alloc)));
    let promela = with_arg(promela, Ok(erased));
    with_arg(promela, Ok(ranges_arg(alloc, RUN_WORDS)))
}

fn expand_command<'a>(alloc: Global) -> Result<Command<'a>, AllocError>
    ensures { IfOk result (IsCommand line.expander) }
{
    let about = "Print the outline that a template means";
    let template = word_arg(alloc, "TEMPLATE", "The template, or - for standard input");
    let help = "Print where each assertion and statement comes from";
    let values = values_arg(alloc, "A constant's value");
    let expand = with_arg(Ok(command(alloc, "expand", about)), Ok(template));
    let expand = with_arg(expand, Ok(flag_arg(alloc, "map", help)));
    with_arg(expand, Ok(values))
}

fn format_command<'a>(alloc: Global) -> Result<Command<'a>, AllocError>
    ensures { IfOk result (IsCommand line.formatter) }
{
    let about = "Lay out an outline or a template";
    let help = "Print nothing, and tell by the status whether it is laid out";
    let format = with_arg(Ok(command(alloc, "fmt", about)), Ok(source_arg(alloc)));
    with_arg(format, Ok(flag_arg(alloc, "check", help)))
}

fn editor_command<'a>(alloc: Global) -> Command<'a>
    ensures { IsCommand line.editor result }
{
    let about = "Serve an editor by the Language Server Protocol, over standard input and output";
    command(alloc, "lsp", about)
}

fn migrate_command<'a>(alloc: Global) -> Result<Command<'a>, AllocError>
    ensures { IfOk result (IsCommand line.migrate) }
{
    let about = "Print certificates in version 2 of their format";
    with_arg(Ok(command(alloc, "migrate", about)), Ok(certs_arg(alloc)))
}

// The program's command line with one word more that the program knows.
fn with_word<'a>(
    program: Result<Command<'a>, AllocError>,
    word: Result<Command<'a>, AllocError>,
) -> Result<Command<'a>, AllocError>
    ensures { (a : App) (s : Shape) → IfOk program.entry (λ p. app_of p ≡ a)
        → IfOk word.entry (IsCommand s) → IfOk result (λ r. app_of r ≡ with_subcommand a s) }
{
    program?.subcommand(word?)
}

// The program with its name and version, and no commands.
fn without_commands<'a>(alloc: Global) -> Result<Command<'a>, AllocError>
    ensures { IfOk result (λ r. app_of r ≡ line.without_commands) }
{
    Command::new(alloc, "og")
        .about("Checks proof outlines of parallel programs")
        .version("1.0.0")
        .no_binary_name(true)
        .disable_help_subcommand(true)
        .subcommand_required(true)
        .bin_name("og")
}

/// The program's command line.
pub(crate) fn program<'a>(alloc: Global) -> Result<Command<'a>, AllocError>
    ensures { IfOk result (λ r. app_of r ≡ line.og) }
{
    let program = with_word(without_commands(alloc), prove_command(alloc));
    let program = with_word(program, infer_command(alloc));
    let program = with_word(program, check_command(alloc));
    let program = with_word(program, notes_command(alloc));
    let program = with_word(program, show_command(alloc));
    let program = with_word(program, conditions_command(alloc));
    let program = with_word(program, find_command(alloc));
    let program = with_word(program, erase_command(alloc));
    let program = with_word(program, run_command(alloc));
    let program = with_word(program, explore_command(alloc));
    let program = with_word(program, promela_command(alloc));
    let program = with_word(program, expand_command(alloc));
    let program = with_word(program, format_command(alloc));
    let program = with_word(program, Ok(editor_command(alloc)));
    with_word(program, migrate_command(alloc))
}

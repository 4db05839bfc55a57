//! What the program is asked to do.

ghost use Rattle.std.specs.Prelude.{◌≡◌};
ghost use Rattle.og_words.specs.Jobs.{SaysWrong};
ghost use Rattle.og_words.specs.declared.job.Usage.TheVariants.{Memory};

use og_io::{Budget, CertVersion, MomentLimit, RunLimit, Workers};
use std::alloc::{AllocError, AllocFailed, Global};

/// The words that name commands.
#[derive(Clone, Copy)]
pub(crate) enum Verb {
    Prove,
    Infer,
    Check,
    Notes,
    Show,
    Conditions,
    Find,
    Erase,
    Run,
    Explore,
    Promela,
    Expand,
    Format,
    Migrate,
}

/// What is to be done, with defaults filled in. It borrows the words.
#[derive(Debug, Drop)]
pub enum Job<'a> {
    /// Check one input that holds the source and then the certificates.
    Joined,
    /// Search for the certificates of an outline, or of a template's, and judge it by them.
    Prove(Prove<'a>),
    /// Search for the assertions that an outline, or a template's, lacks, and print it with them.
    Infer(Infer<'a>),
    /// Check an outline by its certificates.
    Check(Check<'a>),
    /// Print what a yes of an outline, or of a template's, claims and what it does not.
    Notes(Notes<'a>),
    /// Search as to prove an outline, or a template's, and print a page that shows it.
    Show(Show<'a>),
    /// Print conditions, with their facts where nothing else is asked for.
    Conditions(Conditions<'a>),
    /// Print the certificates that are found.
    Find(Find<'a>),
    /// Print the program without its auxiliary variables.
    Erase(Erase<'a>),
    /// Run the processes in threads, or by a schedule.
    Run(Run<'a>),
    /// Look through the moments of all runs of an outline, or of a template's.
    Explore(Explore<'a>),
    /// Print the program of an outline, or of a template's, as SPIN reads it.
    Promela(Promela<'a>),
    /// Print the outline that a template means.
    Expand(Expand<'a>),
    /// Print an outline or a template laid out, or say whether it is.
    Format(Format<'a>),
    /// Print certificates in version 2 of their format.
    Migrate(Migrate<'a>),
}

/// The arguments of `prove`.
#[derive(Debug, Drop)]
pub struct Prove<'a> {
    /// The file of the outline or the template; `-` is standard input.
    pub source: &'a str,
    /// How many steps each search may make.
    pub budget: Budget,
    /// How many threads work.
    pub workers: Workers,
    /// Whether the report is to be JSON.
    pub json: bool,
    /// Words that give a template's constants their values and, where runs are looked for,
    /// variables their values, or ranges of them, at the start.
    pub words: Vec<&'a str>,
    /// Unless no runs are to be looked for that get to states in which conditions are false: how many
    /// moments may be looked at.
    pub runs: Option<MomentLimit>,
    /// Whether advice is wanted below false conditions.
    pub suggest: bool,
}

/// The arguments of `infer`.
#[derive(Debug, Drop)]
pub struct Infer<'a> {
    /// The file of the outline or the template; `-` is standard input.
    pub source: &'a str,
    /// Whether auxiliary variables may be invented.
    pub aux: bool,
    /// How many steps each search may make.
    pub budget: Budget,
    /// How many searches may be made in all.
    pub limit: Budget,
    /// How many threads work.
    pub workers: Workers,
    /// Whether what was added, and the report, are to be JSON.
    pub json: bool,
    /// Words that give a template's constants their values, and variables their values, or ranges
    /// of them, at the start.
    pub words: Vec<&'a str>,
}

/// The arguments of `check`.
#[derive(Debug, Drop)]
pub struct Check<'a> {
    /// The file of the outline; `-` is standard input.
    pub source: &'a str,
    /// The file of the certificates; `-` is standard input, where the outline is a file.
    pub certs: &'a str,
    /// How many threads check.
    pub workers: Workers,
    /// Whether the report is to be JSON.
    pub json: bool,
}

/// The arguments of `notes`.
#[derive(Debug, Drop)]
pub struct Notes<'a> {
    /// The file of the outline or the template; `-` is standard input.
    pub source: &'a str,
    /// How many steps each search may make.
    pub budget: Budget,
    /// Words that give a template's constants their values.
    pub words: Vec<&'a str>,
}

/// The arguments of `show`.
#[derive(Debug, Drop)]
pub struct Show<'a> {
    /// The file of the outline or the template; `-` is standard input.
    pub source: &'a str,
    /// How many steps each search may make.
    pub budget: Budget,
    /// How many threads work.
    pub workers: Workers,
    /// Words that give a template's constants their values and, where runs are looked for,
    /// variables their values, or ranges of them, at the start.
    pub words: Vec<&'a str>,
    /// Where runs are to be looked for that get to states in which conditions are false: how many
    /// moments may be looked at.
    pub runs: Option<MomentLimit>,
}

/// The arguments of `conditions`.
#[derive(Debug, Drop)]
pub struct Conditions<'a> {
    /// The file of the outline; `-` is standard input.
    pub source: &'a str,
    /// Whether each is to be a triple.
    pub triples: bool,
    /// Whether they are to be a script in SMT-LIB.
    pub smt2: bool,
    /// The word that has the numbers of those that are to be printed; else all are.
    pub only: Option<&'a str>,
}

/// The arguments of `find`.
#[derive(Debug, Drop)]
pub struct Find<'a> {
    /// The file of the outline; `-` is standard input.
    pub source: &'a str,
    /// How many steps each search may make.
    pub budget: Budget,
    /// How many threads work.
    pub workers: Workers,
    /// In which version the certificates are written.
    pub version: CertVersion,
}

/// The arguments of `erase`.
#[derive(Debug, Drop)]
pub struct Erase<'a> {
    /// The file of the outline; `-` is standard input.
    pub source: &'a str,
    /// Whether relations are to have terms on both sides.
    pub readable: bool,
}

/// The arguments of `run`.
#[derive(Debug, Drop)]
pub struct Run<'a> {
    /// The file of the outline; `-` is standard input.
    pub source: &'a str,
    /// How many steps the history may have.
    pub limit: RunLimit,
    /// Whether the program without auxiliary variables is to be run.
    pub erased: bool,
    /// The file of the certificates that are to prove the outline safe first; `-` as of `check`.
    pub certs: Option<&'a str>,
    /// The word that names the processes that are to step, in order.
    pub schedule: Option<&'a str>,
    /// Words that give variables their values at the start.
    pub values: Vec<&'a str>,
}

/// The arguments of `explore`.
#[derive(Debug, Drop)]
pub struct Explore<'a> {
    /// The file of the outline or the template; `-` is standard input.
    pub source: &'a str,
    /// How many moments may be looked at.
    pub limit: MomentLimit,
    /// How many threads work.
    pub workers: Workers,
    /// Whether the program without auxiliary variables is to be explored.
    pub erased: bool,
    /// Whether the report is to be JSON.
    pub json: bool,
    /// Whether the moments are to be drawn instead.
    pub dot: bool,
    /// Words that give a template's constants their values, and variables their values, or ranges
    /// of them, at the start.
    pub words: Vec<&'a str>,
}

/// The arguments of `promela`.
#[derive(Debug, Drop)]
pub struct Promela<'a> {
    /// The file of the outline or the template; `-` is standard input.
    pub source: &'a str,
    /// Whether it is the program without auxiliary variables.
    pub erased: bool,
    /// Words that give a template's constants their values, and variables their values, or ranges
    /// of them, at the start.
    pub words: Vec<&'a str>,
}

/// The arguments of `expand`.
#[derive(Debug, Drop)]
pub struct Expand<'a> {
    /// The file of the template; `-` is standard input.
    pub template: &'a str,
    /// Whether the places of its notes and statements are to be printed in its place.
    pub as_map: bool,
    /// Words that give constants their values.
    pub values: Vec<&'a str>,
}

/// The arguments of `fmt`.
#[derive(Debug, Drop)]
pub struct Format<'a> {
    /// The file of the outline or the template; `-` is standard input.
    pub source: &'a str,
    /// Whether only to say if it is laid out already.
    pub check: bool,
}

/// The arguments of `migrate`.
#[derive(Debug, Drop)]
pub struct Migrate<'a> {
    /// The file of the certificates; `-` is standard input.
    pub certs: &'a str,
}

/// Why there is no job.
#[derive(Drop)]
pub enum Usage {
    /// The help text that was asked for.
    Asked(String),
    /// What is wrong with the words.
    Wrong(String),
    /// An allocation was refused.
    Memory,
}

impl Usage {
    // What is wrong with the words.
    pub(crate) fn wrong(alloc: Global, text: &str) -> Usage
        ensures { SaysWrong text.now result }
    {
        match String::from_str(alloc, text) {
            Ok(text) => Usage::Wrong(text),
            Err(_) => Usage::Memory,
        }
    }
}

impl From<AllocError> for Usage {
    ghost from_gives = { λ _ e. e ≡ Memory };

    fn from(_: AllocError) -> Usage {
        Usage::Memory
    }
}

impl<T: Drop> From<AllocFailed<T>> for Usage {
    ghost from_gives = { λ _ e. e ≡ Memory };

    fn from(_: AllocFailed<T>) -> Usage {
        Usage::Memory
    }
}

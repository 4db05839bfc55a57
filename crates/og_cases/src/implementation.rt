//! The ways in which a case is run.

use std::fmt;

/// The least status that says that a command was not done: its words are wrong, or a device failed.
pub(crate) const WRONG: u8 = 3;

/// A way in which a case is run.
#[derive(Clone, Copy)]
pub(crate) enum Implementation {
    /// As its files say.
    Plain,
    /// With devices that pass one byte at each call.
    ByteByByte,
    /// By this many workers: with `--workers` and this number behind the words.
    Workers(&'static str),
}

impl Implementation {
    /// How many bytes its devices pass at each call at most.
    pub(crate) fn size(self) -> usize {
        match self {
            Implementation::ByteByByte => 1,
            Implementation::Plain | Implementation::Workers(_) => usize::MAX,
        }
    }

    /// The number of workers, where it gives one.
    pub(crate) fn workers(self) -> Option<&'static str> {
        match self {
            Implementation::Workers(count) => Some(count),
            Implementation::Plain | Implementation::ByteByByte => None,
        }
    }
}

impl fmt::Display for Implementation {
    fn fmt<W: fmt::Write>(&self, f: &mut fmt::Formatter<W>) -> fmt::Result {
        match self {
            Implementation::Plain => Ok(()),
            Implementation::ByteByByte => f.write_str(" byte by byte"),
            Implementation::Workers(count) => write!(f, " with --workers {count}"),
        }
    }
}

const PLAIN: [Implementation; 1] = [Implementation::Plain];

const JOINED: [Implementation; 2] = [Implementation::Plain, Implementation::ByteByByte];

const WORKERS: [Implementation; 3] = [
    Implementation::Workers("1"),
    Implementation::Workers("2"),
    Implementation::Workers("64"),
];

// The commands that take a number of workers, which changes nothing that they print.
const SHARED: [&str; 4] = ["check\n", "explore\n", "find\n", "prove\n"];

// Whether the words name such a command, and no number of workers.
fn is_shared(words: &str) -> bool {
    SHARED.iter().any(|verb| words.starts_with(*verb)) && !words.contains("\n--workers")
}

/// The ways in which a case is run that has these words, each with its line end, and this status.
/// What workers share is run by 1, 2 and 64 of them, where its words are no fault and do not say by
/// how many; a case without words also byte by byte.
pub(crate) fn ways(words: &str, status: u8) -> &'static [Implementation] {
    if words.is_empty() {
        &JOINED
    } else if is_shared(words) && status < WRONG {
        &WORKERS
    } else {
        &PLAIN
    }
}

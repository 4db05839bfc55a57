//! The white space in front of each part, where no line is too long.

use crate::between::between;
use crate::class::Class;
use crate::parts::Part;
use crate::spaced::{Gap, Spaced};
use std::alloc::{AllocError, Global};

// What a line belongs to, as far as lines that are too long are broken.
#[derive(Clone, Copy, Drop, PartialEq, Eq)]
enum Unit {
    // A note, or a named assertion: at its connectives.
    Assertion,
    // A declaration of names: behind its commas.
    Names,
    // A statement, which is not broken.
    Statement,
}

// What stands in front of the next part.
#[derive(Drop)]
struct Reader {
    // The level of the next statement or note.
    level: usize,
    unit: Unit,
    // The level of the unit.
    unit_level: usize,
    // How many parentheses and brackets of the unit are open.
    depth: usize,
    // Between `where` and the `:` behind it.
    in_where: bool,
    // From `await` to the next note.
    in_await: bool,
    // The last word.
    previous: Class,
    // Whether the last word is a `-` before a first term.
    is_leading: bool,
    // Whether a comment stands behind the last word.
    after_comment: bool,
}

impl Reader {
    fn new() -> Reader {
        Reader {
            level: 0,
            unit: Unit::Statement,
            unit_level: 0,
            depth: 0,
            in_where: false,
            in_await: false,
            previous: Class::Semicolon,
            is_leading: false,
            after_comment: false,
        }
    }

    fn begins_unit(&self, next: Class) -> bool {
        match self.previous {
            Class::CloseBrace | Class::Parallel | Class::Cobegin | Class::Coend => true,
            Class::Semicolon | Class::Begin if !self.in_await => true,
            Class::End if !self.in_await => next != Class::Else,
            _ => match next {
                Class::OpenBrace | Class::Parallel | Class::Cobegin | Class::Coend => true,
                Class::End => !self.in_await,
                _ => false,
            },
        }
    }

    fn begin_unit(&mut self, next: Class) {
        self.unit = match next {
            Class::OpenBrace | Class::Let => Unit::Assertion,
            Class::Names => Unit::Names,
            _ => Unit::Statement,
        };
        self.unit_level = match next {
            Class::Cobegin | Class::Coend | Class::Parallel => 0,
            Class::End => self.level.saturating_sub(1),
            _ => self.level,
        };
        self.depth = 0;
        self.in_where = false;
    }

    // The white space in front of a word within a line.
    fn within_line(&self, next: Class, opens_name: bool) -> Gap {
        let is_index = opens_name && self.previous == Class::Name;
        if self.is_leading
            || is_index
            || self.previous.clings_to_next()
            || next.clings_to_previous()
        {
            Gap::None
        } else {
            Gap::Blank
        }
    }

    // How far inside the connective stands in front of which the unit may be broken here.
    fn rank(&self, next: Class) -> Option<usize> {
        match (self.unit, next) {
            (Unit::Assertion, _) if self.in_where => None,
            (Unit::Assertion, Class::Arrow) => Some(self.depth.saturating_mul(3)),
            (Unit::Assertion, Class::Or) => Some(self.depth.saturating_mul(3).saturating_add(1)),
            (Unit::Assertion, Class::And) => Some(self.depth.saturating_mul(3).saturating_add(2)),
            (Unit::Names, _) if self.previous == Class::Comma && self.depth == 0 => Some(0),
            _ => None,
        }
    }

    // Goes on behind a word that opens or closes something within a unit.
    fn pass_within(&mut self, word: Class) {
        match word {
            Class::Open => self.depth = self.depth.saturating_add(1),
            Class::Close => self.depth = self.depth.saturating_sub(1),
            Class::Where => self.in_where = true,
            Class::Colon => self.in_where = false,
            _ => {}
        }
        self.is_leading = word == Class::Minus && !self.previous.ends_term();
        self.previous = word;
        self.after_comment = false;
    }

    // Goes on behind a word.
    fn pass(&mut self, word: Class) {
        match word {
            Class::Cobegin | Class::Parallel => self.level = 1,
            Class::Coend => self.level = 0,
            Class::Begin if !self.in_await => self.level = self.level.saturating_add(1),
            Class::End if !self.in_await => self.level = self.level.saturating_sub(1),
            Class::Await => self.in_await = true,
            Class::OpenBrace => self.in_await = false,
            _ => {}
        }
        self.pass_within(word);
    }

    // The word with the white space in front of it.
    fn word(&mut self, class: Class, part: &Part) -> Spaced {
        let begins = self.begins_unit(class);
        if begins {
            self.begin_unit(class);
        }
        let gap = if begins || self.after_comment {
            Gap::Line
        } else {
            self.within_line(class, class == Class::Open)
        };
        let level = if begins || class == Class::Else {
            self.unit_level
        } else {
            self.unit_level.saturating_add(2)
        };
        let rank = self.rank(class);
        self.pass(class);
        Spaced {
            class,
            start: part.start,
            end: part.end,
            gap,
            level,
            continued: level.saturating_add(2),
            rank,
            after_blank_line: false,
        }
    }

    // The comment, which begins a line or stands behind a word.
    fn comment(&mut self, part: &Part, begins_line: bool) -> Spaced {
        self.after_comment = true;
        Spaced {
            class: Class::Comment,
            start: part.start,
            end: part.end,
            gap: if begins_line {
                Gap::Line
            } else {
                Gap::TwoBlanks
            },
            level: 0,
            continued: 0,
            rank: None,
            after_blank_line: false,
        }
    }

    // The part with the white space in front of it, behind what stands there in the source.
    fn part(&mut self, part: &Part, line_ends: usize, is_first: bool) -> Spaced {
        let mut spaced = match Class::of(&part.kind) {
            Class::Comment => self.comment(part, is_first || line_ends > 0),
            class => self.word(class, part),
        };
        spaced.after_blank_line = line_ends > 1;
        spaced
    }
}

fn line_ends(text: &[u8]) -> usize {
    text.iter().filter(|b| **b == b'\n').count()
}

/// The parts of a text, each with the white space in front of it where no line is too long. The
/// levels of comments are not known yet.
pub(crate) fn spaced(
    alloc: Global,
    text: &[u8],
    parts: &[Part],
) -> Result<Vec<Spaced>, AllocError> {
    let mut reader = Reader::new();
    let mut all = Vec::new(alloc);
    let mut at = 0;
    for part in parts {
        let line_ends = line_ends(between(text, at, part.start));
        all.push(reader.part(part, line_ends, all.is_empty()))?;
        at = part.end;
    }
    Ok(all)
}

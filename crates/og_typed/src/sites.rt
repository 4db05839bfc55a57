//! Assertions and statements, with where they stand.

use crate::{Item, Note};

/// A part of a program.
#[derive(Clone, Copy, PartialEq, Eq)]
pub enum Part {
    /// What the main process does before the others.
    Prologue,
    /// The process with this number, counted from 0.
    Process(u32),
    /// What the main process does after the others.
    Epilogue,
}

/// An assertion of a part of a program.
#[derive(Clone, Copy)]
pub struct NoteSite<'a> {
    pub note: &'a Note,
    pub part: Part,
    /// Where the process goes on, for the last assertion of a branch or a body.
    pub leads: Option<&'a Note>,
}

/// A statement of a part of a program.
#[derive(Clone, Copy)]
pub struct StatementSite<'a> {
    /// The statement, and the assertion before it.
    pub item: &'a Item,
    pub part: Part,
    /// The assertion after it.
    pub after: &'a Note,
}

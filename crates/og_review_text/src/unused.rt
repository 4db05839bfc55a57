//! Variables that nothing assigns, and those that nothing reads.

ghost use Rattle.std.specs.Prelude.{◌≡◌, ◌++◌, IfOk, OnOk};
ghost use Rattle.og_review_text.specs.Seen.{points_of, steps_of, HasAll};
ghost use Rattle.og_review_text.specs.Unused as plain;

use crate::steps::{assigns, reads};
use crate::walk::{Point, Step, Walk};
use og_report_text::put_name;
use og_text::Name;
use og_typed::Outline;
use std::alloc::{AllocError, Global};

// Whether some step assigns the variable.
fn is_assigned(steps: &[Step], var: u32) -> bool
    ensures { result ≡ plain.is_assigned (steps_of steps.now) var }
{
    for step in steps {
        if assigns(var, &step.item.stmt) {
            return true;
        }
    }
    false
}

// Whether some step reads the variable.
fn is_read(steps: &[Step], var: u32) -> bool
    ensures { result ≡ plain.is_read (steps_of steps.now) var }
{
    for step in steps {
        if reads(var, &step.item.stmt) {
            return true;
        }
    }
    false
}

// Whether some assertion speaks of the variable.
fn is_claimed(points: &[Point], var: u32) -> bool
    ensures { result ≡ plain.is_claimed (points_of points.now) var }
{
    for point in points {
        if point.note.assertion.mentions(var) {
            return true;
        }
    }
    false
}

// Whether the postcondition speaks of the variable, which nothing assigns and which is no input.
fn is_unreached(outline: &Outline, walk: &Walk, var: u32) -> bool
    requires { HasAll outline.now walk.now }
    ensures { result ≡ plain.is_unreached outline.now var }
{
    outline.post().assertion.mentions(var)
        && !is_assigned(&walk.steps, var)
        && !(is_read(&walk.steps, var) && outline.pre().assertion.mentions(var))
}

// Whether it is an auxiliary that nothing assigns.
fn is_unset_auxiliary(outline: &Outline, walk: &Walk, var: u32) -> bool
    requires { HasAll outline.now walk.now }
    ensures { result ≡ plain.is_unset_auxiliary outline.now var }
{
    outline.vars() <= var && !is_assigned(&walk.steps, var)
}

// Whether nothing reads the variable, and no assertion but the precondition speaks of it.
fn is_unread(outline: &Outline, walk: &Walk, var: u32) -> bool
    requires { HasAll outline.now walk.now }
    ensures { result ≡ plain.is_unread outline.now var }
{
    !is_read(&walk.steps, var)
        && !is_claimed(&walk.points, var)
        && !outline.post().assertion.mentions(var)
}

/// How a variable is unused.
#[derive(Clone, Copy)]
pub enum Disuse {
    /// The postcondition speaks of it, nothing assigns it, and it is no input.
    Unreached,
    /// It is an auxiliary, and nothing assigns it.
    Unassigned,
    /// Nothing reads it, and no assertion but the precondition speaks of it.
    Unread,
}

impl Disuse {
    // The words before the name.
    fn before(self) -> &'static str
        ensures { result.now ≡ plain.text_before self }
    {
        match self {
            Disuse::Unassigned => "auxiliary ",
            Disuse::Unreached | Disuse::Unread => "",
        }
    }

    // The words behind it.
    fn behind(self) -> &'static str
        ensures { result.now ≡ plain.text_behind self }
    {
        match self {
            Disuse::Unreached => " of the postcondition is never assigned",
            Disuse::Unassigned => " is never assigned",
            Disuse::Unread => " is never read",
        }
    }
}

/// A variable that is unused.
#[derive(Clone, Copy)]
pub struct Unused {
    /// Its number.
    pub var: u32,
    /// How.
    pub how: Disuse,
}

impl Unused {
    /// Adds what is said of it.
    ///
    /// # Errors
    ///
    /// An allocation was refused; the text has what it had, and perhaps a part of this.
    pub fn put_message(self, text: &mut Vec<u8>, names: &[Name]) -> Result<(), AllocError>
        ensures { OnOk result (text.new.items ≡ text.old.items ++ plain.message names.now self) }
    {
        text.extend_from_slice(self.how.before().as_bytes())?;
        put_name(text, names, self.var)?;
        text.extend_from_slice(self.how.behind().as_bytes())
    }

    // Its line.
    fn put_line(self, text: &mut Vec<u8>, names: &[Name]) -> Result<(), AllocError>
        ensures { OnOk result (text.new.items ≡ text.old.items ++ plain.unused_line names.now self) }
    {
        self.put_message(text, names)?;
        text.extend_from_slice(b"\n")
    }
}

// Adds the variable, where that is so.
fn add_where(all: &mut Vec<Unused>, is_so: bool, var: u32, how: Disuse) -> Result<(), AllocError>
    ensures { OnOk result (all.new.items ≡ all.old.items ++ plain.unused_where is_so var how) }
{
    if is_so {
        all.push(Unused { var, how })?;
    }
    Ok(())
}

// Adds the variable in each way in which it is unused.
fn add_variable(
    all: &mut Vec<Unused>,
    outline: &Outline,
    walk: &Walk,
    var: u32,
) -> Result<(), AllocError>
    requires { HasAll outline.now walk.now }
    ensures { OnOk result (all.new.items ≡ all.old.items ++ plain.unused_of outline.now var) }
{
    let is_unreached = is_unreached(outline, walk, var);
    let is_unset = is_unset_auxiliary(outline, walk, var);
    let is_unread = is_unread(outline, walk, var);
    add_where(all, is_unreached, var, Disuse::Unreached)?;
    add_where(all, is_unset, var, Disuse::Unassigned)?;
    add_where(all, is_unread, var, Disuse::Unread)
}

/// The variables of the postcondition that nothing assigns and that are no input, the auxiliaries
/// that nothing assigns, and the variables that nothing reads. The walk is that of the outline.
///
/// # Errors
///
/// An allocation was refused.
#[tactic(auto, using(crate::proofs::Ranges::lines_next, crate::proofs::Ranges::lines_done))]
pub fn unused_variables(
    alloc: Global,
    outline: &Outline,
    walk: &Walk,
) -> Result<Vec<Unused>, AllocError>
    requires { HasAll outline.now walk.now }
    ensures { IfOk result (λ v. v.items ≡ plain.unused_variables outline.now) }
{
    outline.follows_rule();
    let count = outline.names().len() as u32;
    let mut all = Vec::new(alloc);
    for var in 0..count {
        add_variable(&mut all, outline, walk, var)?;
    }
    Ok(all)
}

/// Adds a line to the text for each of these variables. The walk is that of the outline.
///
/// # Errors
///
/// An allocation was refused; the text has what it had, and perhaps some of these lines.
pub fn put_unused(text: &mut Vec<u8>, outline: &Outline, walk: &Walk) -> Result<(), AllocError>
    requires { HasAll outline.now walk.now }
    ensures { OnOk result (text.new.items ≡ text.old.items ++ plain.unused_lines outline.now) }
{
    let all = unused_variables(*text.allocator(), outline, walk)?;
    for unused in &all {
        unused.put_line(text, outline.names())?;
    }
    Ok(())
}

//! Whose steps make whose assertions false.

ghost use Rattle.std.specs.Prelude.{◌≡◌, ◌++◌, ◌<◌, ◌^◌, length, IfOk, OnOk};
ghost use Rattle.std.specs.List.{filter};
ghost use Rattle.og_report_html.specs.Findings.{is_found};
ghost use Rattle.og_report_html.specs.Table.{disturbance_of, disturbances_from, is_by, is_on, has_role, count_text, share_text, cell_text, cells_text, row_text, rows_text, column_head, column_heads, head_rows, whole_table, is_none, is_shown, table_of, table_text};

use crate::constants::{AFTER_TABLE, BEFORE_TABLE, MOST_PROCESSES};
use crate::finding::Finding;
use crate::links::put_between;
use crate::target::{Interference, Target};
use og_report_prove::Diagnosis;
use og_report_text::{put_number, put_number_between};
use std::alloc::{AllocError, Global};

/// A condition of interference that is not proved.
#[derive(Clone, Copy, PartialEq, Eq, Drop)]
pub(crate) struct Disturbance {
    /// The condition's number, from 1.
    pub(crate) number: u128,
    /// Between which processes it is.
    pub(crate) interference: Interference,
}

/// What of a process a condition of interference is about.
#[derive(Clone, Copy, PartialEq, Eq)]
pub(crate) enum Role {
    /// Its step.
    Actor,
    /// Its assertion.
    Other,
}

impl Disturbance {
    // Whether the step is one of this process.
    fn is_by(&self, process: usize) -> bool
        ensures { result ≡ is_by process self.now }
    {
        process == self.interference.actor as usize
    }

    // Whether the assertion is.
    fn is_on(&self, process: usize) -> bool
        ensures { result ≡ is_on process self.now }
    {
        process == self.interference.other as usize
    }

    // Whether it is about this of this process.
    fn has_role(&self, role: Role, process: usize) -> bool
        ensures { result ≡ has_role role process self.now }
    {
        match role {
            Role::Actor => self.is_by(process),
            Role::Other => self.is_on(process),
        }
    }
}

// Adds a condition, where it is one of interference with this finding.
fn add_disturbance(
    found: &mut Vec<Disturbance>,
    finding: Finding,
    number: u128,
    diagnosis: &Diagnosis,
    target: &Target,
) -> Result<(), AllocError>
    ensures { OnOk result (found.new.items ≡ found.old.items
        ++ disturbance_of (is_found finding diagnosis.now) number target.now.interference) }
{
    if !finding.is_of(diagnosis) {
        return Ok(());
    }
    if let Some(interference) = target.interference {
        found.push(Disturbance {
            number,
            interference,
        })?;
    }
    Ok(())
}

// The conditions of interference with this finding.
fn disturbances_of(
    alloc: Global,
    finding: Finding,
    diagnoses: &[Diagnosis],
    targets: &[Target],
) -> Result<Vec<Disturbance>, AllocError>
    requires { length targets.now ≡ length diagnoses.now }
    ensures { IfOk result (λ v. v.items ≡ disturbances_from finding 1 diagnoses.now targets.now) }
{
    let mut found = Vec::new(alloc);
    for index in 0..diagnoses.len() {
        let number = index as u128 + 1;
        add_disturbance(
            &mut found,
            finding,
            number,
            &diagnoses[index],
            &targets[index],
        )?;
    }
    Ok(found)
}

// Those that are about this of this process.
fn those_of(
    alloc: Global,
    disturbances: &[Disturbance],
    role: Role,
    process: usize,
) -> Result<Vec<Disturbance>, AllocError>
    ensures { IfOk result (λ v. v.items ≡ filter (has_role role process) disturbances.now) }
{
    disturbances
        .iter()
        .filter(|each| each.has_role(role, process))
        .copied()
        .collect(alloc)
}

// A link to the block of a condition, of this many.
fn put_count(
    text: &mut Vec<u8>,
    finding: Finding,
    first: u128,
    count: usize,
) -> Result<(), AllocError>
    ensures { OnOk result (text.new.items ≡ text.old.items ++ count_text finding first count) }
{
    put_between(text, b"<a class=", finding.word(), b" href=#c")?;
    put_number(text, first)?;
    put_between(text, b">", finding.sign(), b" ")?;
    put_number(text, count as u128)?;
    text.extend_from_slice(b"</a> ")
}

// How many these are, with a link to the block of the first.
fn put_share(
    text: &mut Vec<u8>,
    finding: Finding,
    disturbances: &[Disturbance],
) -> Result<(), AllocError>
    ensures { OnOk result (text.new.items ≡ text.old.items ++ share_text finding disturbances.now) }
{
    match disturbances {
        [] => Ok(()),
        [first, ..] => put_count(text, finding, first.number, disturbances.len()),
    }
}

// Conditions of interference that are false, and those of which nothing is known.
#[derive(Clone, Copy)]
struct Disturbances<'a> {
    wrong: &'a [Disturbance],
    unknown: &'a [Disturbance],
}

// How many of these are on assertions of this process.
fn put_share_on(
    text: &mut Vec<u8>,
    finding: Finding,
    disturbances: &[Disturbance],
    process: usize,
) -> Result<(), AllocError>
    ensures { OnOk result (text.new.items ≡ text.old.items
        ++ share_text finding (filter (is_on process) disturbances.now)) }
{
    let those = those_of(*text.allocator(), disturbances, Role::Other, process)?;
    put_share(text, finding, &those)
}

impl Disturbances<'_> {
    // Of steps of one process, those on assertions of another.
    fn put_cell(&self, text: &mut Vec<u8>, process: usize) -> Result<(), AllocError>
        ensures { OnOk result (text.new.items ≡ text.old.items
            ++ cell_text self.now.wrong.now self.now.unknown.now process) }
    {
        text.extend_from_slice(b"<td>")?;
        put_share_on(text, Finding::False, self.wrong, process)?;
        put_share_on(text, Finding::Open, self.unknown, process)
    }

    // The cells of those of steps of a process.
    fn put_cells_of(
        &self,
        text: &mut Vec<u8>,
        count: usize,
        process: usize,
    ) -> Result<(), AllocError>
        ensures { OnOk result (text.new.items ≡ text.old.items
            ++ cells_text (filter (is_by process) self.now.wrong.now)
            (filter (is_by process) self.now.unknown.now) count) }
    {
        let alloc = *text.allocator();
        let wrong = those_of(alloc, self.wrong, Role::Actor, process)?;
        let unknown = those_of(alloc, self.unknown, Role::Actor, process)?;
        let disturbances = Disturbances {
            wrong: &wrong,
            unknown: &unknown,
        };
        put_cells(text, disturbances, count)
    }

    // The row of a process.
    fn put_row(&self, text: &mut Vec<u8>, count: usize, process: usize) -> Result<(), AllocError>
        ensures { OnOk result (text.new.items ≡ text.old.items
            ++ row_text count self.now.wrong.now self.now.unknown.now process) }
    {
        put_number_between(text, b"<tr><th scope=row>", process as u128 + 1, b"</th>")?;
        self.put_cells_of(text, count, process)?;
        text.extend_from_slice(b"</tr>\n")
    }
}

// The cells of all processes.
fn put_cells(text: &mut Vec<u8>, disturbances: Disturbances, count: usize) -> Result<(), AllocError>
    ensures { OnOk result (text.new.items ≡ text.old.items
        ++ cells_text disturbances.entry.wrong.now disturbances.entry.unknown.now count) }
{
    for process in 0..count {
        disturbances.put_cell(text, process)?;
    }
    Ok(())
}

// The rows of all processes.
fn put_rows(text: &mut Vec<u8>, disturbances: Disturbances, count: usize) -> Result<(), AllocError>
    ensures { OnOk result (text.new.items ≡ text.old.items
        ++ rows_text count disturbances.entry.wrong.now disturbances.entry.unknown.now) }
{
    for process in 0..count {
        disturbances.put_row(text, count, process)?;
    }
    Ok(())
}

// The head of a process's column.
fn put_column_head(text: &mut Vec<u8>, process: usize) -> Result<(), AllocError>
    ensures { OnOk result (text.new.items ≡ text.old.items ++ column_head process) }
{
    text.extend_from_slice(b"<th scope=col>")?;
    put_number(text, process as u128 + 1)
}

// The heads of all columns.
fn put_column_heads(text: &mut Vec<u8>, count: usize) -> Result<(), AllocError>
    ensures { OnOk result (text.new.items ≡ text.old.items ++ column_heads count) }
{
    for process in 0..count {
        put_column_head(text, process)?;
    }
    Ok(())
}

// Both rows of the head.
fn put_head(text: &mut Vec<u8>, count: usize) -> Result<(), AllocError>
    ensures { OnOk result (text.new.items ≡ text.old.items ++ head_rows count) }
{
    let steps_of = b"<tr><th rowspan=2>steps of<th colspan=";
    put_number_between(
        text,
        steps_of,
        count as u128,
        b">assertions of process</tr>\n<tr>",
    )?;
    put_column_heads(text, count)?;
    text.extend_from_slice(b"</tr>\n")
}

fn put_whole(text: &mut Vec<u8>, disturbances: Disturbances, count: usize) -> Result<(), AllocError>
    ensures { OnOk result (text.new.items ≡ text.old.items
        ++ whole_table count disturbances.entry.wrong.now disturbances.entry.unknown.now) }
{
    text.extend_from_slice(BEFORE_TABLE)?;
    put_head(text, count)?;
    put_rows(text, disturbances, count)?;
    text.extend_from_slice(AFTER_TABLE)
}

fn is_none(disturbances: &[Disturbance]) -> bool
    ensures { result ≡ is_none disturbances.now }
{
    match disturbances {
        [] => true,
        _ => false,
    }
}

// Whether there is a table of these.
fn is_shown(disturbances: Disturbances, count: usize) -> bool
    ensures { result ≡ is_shown count disturbances.entry.wrong.now disturbances.entry.unknown.now }
{
    count <= MOST_PROCESSES && !(is_none(disturbances.wrong) && is_none(disturbances.unknown))
}

fn put_disturbances(
    text: &mut Vec<u8>,
    disturbances: Disturbances,
    count: usize,
) -> Result<(), AllocError>
    ensures { OnOk result (text.new.items ≡ text.old.items
        ++ table_of count disturbances.entry.wrong.now disturbances.entry.unknown.now) }
{
    if is_shown(disturbances, count) {
        put_whole(text, disturbances, count)
    } else {
        Ok(())
    }
}

/// Adds the table of an outline with this many processes; nothing where all interference is proved,
/// or there are more than 64 processes.
pub(crate) fn put_table(
    text: &mut Vec<u8>,
    count: usize,
    diagnoses: &[Diagnosis],
    targets: &[Target],
) -> Result<(), AllocError>
    requires { length targets.now ≡ length diagnoses.now }
    ensures { OnOk result (text.new.items ≡ text.old.items ++ table_text count diagnoses.now targets.now) }
{
    let wrong = disturbances_of(*text.allocator(), Finding::False, diagnoses, targets)?;
    let unknown = disturbances_of(*text.allocator(), Finding::Open, diagnoses, targets)?;
    let disturbances = Disturbances {
        wrong: &wrong,
        unknown: &unknown,
    };
    put_disturbances(text, disturbances, count)
}

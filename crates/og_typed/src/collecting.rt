//! All assertions and statements of an outline, in text order.

ghost use Rattle.std.specs.Prelude.{◌≡◌, ◌+◌, ◌<◌, ◌≤◌, None, map, option_map, drop, length, IfOk, OnOk};
ghost use Rattle.og_typed.specs.declared.statement.Seq.{out-Seq};
ghost use Rattle.og_typed.specs.Plain.{noted, sequence, statement, first_or};
ghost use Rattle.og_typed.specs.Seen.{leads_of, Adds, AddsItem, AddsMain, AddsProcesses, HasAll};

use crate::sites::{NoteSite, Part, StatementSite};
use crate::{Item, Note, Outline, Seq, Stmt};
use std::alloc::{AllocError, Global};

/// Assertions and statements, each in text order.
#[derive(Drop)]
pub(crate) struct Sites<'a> {
    pub(crate) notes: Vec<NoteSite<'a>>,
    pub(crate) statements: Vec<StatementSite<'a>>,
}

// The assertion that follows item number `index`.
fn after<'a>(seq: &'a Seq, index: usize) -> &'a Note
    requires { index < length (out-Seq seq.now).items.items }
    ensures { noted result.now
        ≡ first_or (drop (index + 1) (out-Seq seq.now).items.items) (noted (out-Seq seq.now).last) }
{
    match seq.items.get(index + 1) {
        Some(item) => &item.before,
        None => &seq.last,
    }
}

// Adds a sequence, whose last assertion leads on to another one, if there is one.
#[cycle(collecting)]
#[tactic(auto, using(crate::proofs::SiteItems::more_notes, crate::proofs::SiteItems::whole_notes, crate::proofs::SiteItems::last_note, crate::proofs::SiteItems::more_statements, crate::proofs::SiteItems::whole_statements, crate::proofs::SiteItems::no_statements))]
fn add_seq<'a>(
    sites: &mut Sites<'a>,
    part: Part,
    seq: &'a Seq,
    leads: Option<&'a Note>,
) -> Result<(), AllocError>
    ensures { OnOk result (Adds sites.old sites.new part (leads_of leads.entry) (sequence seq.now)) }
{
    for index in 0..seq.items.len() {
        add_item(sites, part, &seq.items[index], after(seq, index))?;
    }
    let note = &seq.last;
    sites.notes.push(NoteSite { note, part, leads })?;
    Ok(())
}

// Adds a statement, the assertion before it, and what stands in it.
#[cycle(collecting)]
fn add_item<'a>(
    sites: &mut Sites<'a>,
    part: Part,
    item: &'a Item,
    after: &'a Note,
) -> Result<(), AllocError>
    ensures { OnOk result (AddsItem sites.old sites.new part item.now (noted after.now)) }
{
    let (before, leads) = (&item.before, None);
    sites.notes.push(NoteSite {
        note: before,
        part,
        leads,
    })?;
    sites.statements.push(StatementSite { item, part, after })?;
    match &item.stmt {
        Stmt::Skip | Stmt::Assign(..) | Stmt::Await(..) => Ok(()),
        Stmt::While(_, body) => add_seq(sites, part, body, Some(before)),
        Stmt::If(_, branch, other) => {
            add_seq(sites, part, branch, Some(after))?;
            match other {
                Some(other) => add_seq(sites, part, other, Some(after)),
                None => Ok(()),
            }
        }
    }
}

// Adds a part of the main process, if there is one.
fn add_main<'a>(sites: &mut Sites<'a>, part: Part, seq: Option<&'a Seq>) -> Result<(), AllocError>
    ensures { OnOk result (AddsMain sites.old sites.new part
        (option_map (λ q. sequence q.now) seq.entry)) }
{
    match seq {
        Some(seq) => add_seq(sites, part, seq, None),
        None => Ok(()),
    }
}

// Adds the processes, numbered from 0.
#[tactic(auto, using(crate::proofs::SiteItems::more_processes, crate::proofs::SiteItems::no_processes))]
fn add_processes<'a>(sites: &mut Sites<'a>, processes: &'a [Seq]) -> Result<(), AllocError>
    requires few { length processes.now ≤ 256 }
    ensures { OnOk result (AddsProcesses sites.old sites.new 0 (map sequence processes.now)) }
{
    for index in 0..processes.len() {
        add_seq(sites, Part::Process(index as u32), &processes[index], None)?;
    }
    Ok(())
}

/// All assertions and statements of an outline.
///
/// # Errors
///
/// An allocation was refused.
pub(crate) fn sites_of<'a>(alloc: Global, outline: &'a Outline) -> Result<Sites<'a>, AllocError>
    ensures { IfOk result (λ sites. HasAll outline.now sites) }
{
    let mut sites = Sites {
        notes: Vec::new(alloc),
        statements: Vec::new(alloc),
    };
    outline.follows_rule();
    add_main(&mut sites, Part::Prologue, outline.prologue())?;
    add_processes(&mut sites, outline.processes())?;
    add_main(&mut sites, Part::Epilogue, outline.epilogue())?;
    Ok(sites)
}

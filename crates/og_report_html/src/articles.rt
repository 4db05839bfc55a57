//! A block for each condition that is not proved.

ghost use Rattle.std.specs.Prelude.{◌≡◌, ◌-◌, ◌++◌, ℕ, List, map, slice_get, Some, None, IfOk, OnOk, option_map};
ghost use Rattle.og_text.specs.Place.{line_at};
ghost use Rattle.og_cond.specs.Seen.{seen};
ghost use Rattle.og_cert_read.specs.Firsts.{found as number_of};
ghost use Rattle.og_report_prove.specs.Effects.{after_diagnosis};
ghost use Rattle.og_report_findings.specs.Entries.{entry_of};
ghost use Rattle.og_report_html.specs.Articles.{beneath_at, line_link, step_place, step_link, shown_line, links_text, article_start, article_end, bounds_text, printed, target_at, article_by, articles_text};
ghost use Rattle.og_report_html.specs.Findings.{finding_of};

use crate::escapes::put_escaped;
use crate::finding::Finding;
use crate::links::{put_between, put_twice};
use crate::marks::{marked_place, shown_at};
use crate::target::Target;
use og_report_findings::{Entry, Hints};
use og_report_prove::{Diagnosis, Firsts, Page, put_diagnosis};
use og_report_text::{Origins, put_number_between};
use std::alloc::{AllocError, Global};

/// What the blocks are written with.
#[derive(Clone, Copy)]
pub(crate) struct Frame<'a, 'b> {
    /// Whether the source is UTF-8.
    pub(crate) utf8: bool,
    /// The names and the places.
    pub(crate) page: Page<'a>,
    /// The outline, and the bounds that would help.
    pub(crate) hints: &'a Hints<'a>,
    /// What stands beneath the blocks of the first conditions, as HTML.
    pub(crate) beneath: &'b [Vec<u8>],
}

impl<'a, 'b> Frame<'a, 'b> {
    // What stands beneath the block of the condition at the index.
    fn beneath(&self, index: usize) -> &'b [u8]
        ensures { result.now ≡ beneath_at (map (λ t. t.items) self.now.beneath.now) index }
    {
        match self.beneath.get(index) {
            Some(text) => text,
            None => b"",
        }
    }
}

// A link to a line of the source.
fn put_line_link(text: &mut Vec<u8>, line: u32) -> Result<(), AllocError>
    ensures { OnOk result (text.new.items ≡ text.old.items ++ line_link line) }
{
    put_twice(text, b"<a href=#L", line as u128, b">line ", b"</a>")
}

// A link to the line of the step, where it is another one.
fn put_step_link(text: &mut Vec<u8>, line: u32, step: u32) -> Result<(), AllocError>
    ensures { OnOk result (text.new.items ≡ text.old.items ++ step_link line step) }
{
    if line == step {
        return Ok(());
    }
    text.extend_from_slice(b", step at ")?;
    put_line_link(text, step)
}

// The line of a part of the outline.
fn shown_line(origins: &Origins, at: u32) -> u32
    requires { origins.now.places.now ≡ origins.now.source.now }
    ensures { result ≡ shown_line origins.now.source.now origins.now.rows at }
{
    origins.places.position(shown_at(origins.rows, at)).line
}

// Links to the lines of the condition's place and of its step.
fn put_links(
    text: &mut Vec<u8>,
    origins: &Origins,
    entry: Entry,
    target: &Target,
) -> Result<(), AllocError>
    requires { origins.now.places.now ≡ origins.now.source.now }
    ensures { OnOk result (text.new.items ≡ text.old.items
        ++ links_text origins.now.source.now origins.now.rows (seen entry.entry.condition.now)
        entry.entry.diagnosis.now target.now) }
{
    let condition = entry.condition;
    let line = shown_line(origins, marked_place(condition, entry.diagnosis, target));
    let step = shown_line(origins, condition.action_at.unwrap_or(condition.at));
    put_line_link(text, line)?;
    put_step_link(text, line, step)
}

fn put_article_start(text: &mut Vec<u8>, number: u128, finding: Finding) -> Result<(), AllocError>
    ensures { OnOk result (text.new.items ≡ text.old.items ++ article_start number finding) }
{
    put_number_between(text, b"<article id=c", number, b" class=")?;
    text.extend_from_slice(finding.word())?;
    put_number_between(text, b"><h3>Condition ", number, b": ")?;
    text.extend_from_slice(finding.word())?;
    text.extend_from_slice(b"</h3>\n<pre>")
}

fn put_article_end(
    text: &mut Vec<u8>,
    beneath: &[u8],
    origins: &Origins,
    entry: Entry,
    target: &Target,
) -> Result<(), AllocError>
    requires { origins.now.places.now ≡ origins.now.source.now }
    ensures { OnOk result (text.new.items ≡ text.old.items ++ article_end beneath.now
        (links_text origins.now.source.now origins.now.rows (seen entry.entry.condition.now)
        entry.entry.diagnosis.now target.now)) }
{
    put_between(text, b"</pre>\n", beneath, b"<p>")?;
    put_links(text, origins, entry, target)?;
    text.extend_from_slice(b"</p></article>\n")
}

// The bounds that would help where a condition is false.
fn put_bounds(text: &mut Vec<u8>, hints: &Hints, entry: Entry) -> Result<(), AllocError>
    ensures { OnOk result (text.new.items ≡ text.old.items
        ++ bounds_text hints.now entry.entry.diagnosis.now entry.entry.run.now) }
{
    match entry.diagnosis {
        Diagnosis::Proved | Diagnosis::Open => Ok(()),
        Diagnosis::False(block) => hints.put(text, block, entry.run),
    }
}

// What `prove` prints of a condition.
fn printed(
    alloc: Global,
    frame: Frame,
    firsts: &mut Firsts,
    entry: Entry,
) -> Result<Vec<u8>, AllocError>
    requires { frame.page.origins.now.places.now ≡ frame.page.origins.now.source.now }
    ensures text { IfOk result (λ t. t.items ≡ printed frame.entry.hints.now
        frame.entry.page.names.now frame.entry.page.origins.now.source.now
        frame.entry.page.origins.now.rows (λ t. number_of t firsts.old) (entry_of entry.entry)) }
    ensures firsts { IfOk result (λ r. (t : List ℕ) → number_of t firsts.new
        ≡ after_diagnosis frame.entry.page.names.now frame.entry.page.origins.now.source.now
        frame.entry.page.origins.now.rows entry.entry.diagnosis.now t entry.entry.number
        (number_of t firsts.old)) }
{
    let mut text = Vec::new(alloc);
    put_diagnosis(
        &mut text,
        firsts,
        frame.page,
        u128::from(entry.number),
        entry.condition,
        Some(0),
        entry.diagnosis,
    )?;
    put_bounds(&mut text, frame.hints, entry)?;
    Ok(text)
}

// A condition, and where it belongs.
#[derive(Clone, Copy)]
struct Item<'i, 'c, 'd> {
    entry: Entry<'i, 'c, 'd>,
    target: Target,
}

impl Item<'_, '_, '_> {
    // The block of a condition that is not proved.
    fn put_block(
        &self,
        text: &mut Vec<u8>,
        firsts: &mut Firsts,
        frame: Frame,
        finding: Finding,
    ) -> Result<(), AllocError>
        requires { frame.page.origins.now.places.now ≡ frame.page.origins.now.source.now }
        ensures text { OnOk result (text.new.items ≡ text.old.items ++ article_by frame.entry
            (λ t. number_of t firsts.old) (entry_of self.now.entry) self.now.target
            (Some finding)) }
        ensures firsts { OnOk result ((t : List ℕ) → number_of t firsts.new
            ≡ after_diagnosis frame.entry.page.names.now frame.entry.page.origins.now.source.now
            frame.entry.page.origins.now.rows self.now.entry.diagnosis.now t self.now.entry.number
            (number_of t firsts.old)) }
    {
        let entry = self.entry;
        let printed = printed(*text.allocator(), frame, firsts, entry)?;
        put_article_start(text, u128::from(entry.number), finding)?;
        put_escaped(text, frame.utf8, &printed)?;
        let beneath = frame.beneath(entry.number.saturating_sub(1) as usize);
        put_article_end(text, beneath, frame.page.origins, entry, &self.target)
    }

    // But nothing of one that is proved.
    fn put_article(
        &self,
        text: &mut Vec<u8>,
        firsts: &mut Firsts,
        frame: Frame,
    ) -> Result<(), AllocError>
        requires { frame.page.origins.now.places.now ≡ frame.page.origins.now.source.now }
        ensures text { OnOk result (text.new.items ≡ text.old.items ++ article_by frame.entry
            (λ t. number_of t firsts.old) (entry_of self.now.entry) self.now.target
            (finding_of self.now.entry.diagnosis.now)) }
        ensures firsts { OnOk result ((t : List ℕ) → number_of t firsts.new
            ≡ after_diagnosis frame.entry.page.names.now frame.entry.page.origins.now.source.now
            frame.entry.page.origins.now.rows self.now.entry.diagnosis.now t self.now.entry.number
            (number_of t firsts.old)) }
    {
        match Finding::of(self.entry.diagnosis) {
            None => Ok(()),
            Some(finding) => self.put_block(text, firsts, frame, finding),
        }
    }
}

// Where a condition belongs; one of which nothing is said at its own place.
fn target_at(targets: &[Target], entry: Entry) -> Target
    ensures { result ≡ target_at targets.now (entry_of entry.entry) }
{
    match targets.get(entry.number.saturating_sub(1) as usize) {
        Some(target) => *target,
        None => Target {
            goal: entry.condition.at,
            interference: None,
        },
    }
}

/// Adds the blocks of these conditions, one after another.
pub(crate) fn put_articles(
    text: &mut Vec<u8>,
    frame: Frame,
    entries: &[Entry],
    targets: &[Target],
) -> Result<(), AllocError>
    requires places { frame.page.origins.now.places.now ≡ frame.page.origins.now.source.now }
    ensures { OnOk result (text.new.items ≡ text.old.items ++ articles_text frame.entry.hints.now
        frame.entry.page.names.now frame.entry.page.origins.now.source.now
        frame.entry.page.origins.now.rows frame.entry.utf8
        (map (λ t. t.items) frame.entry.beneath.now) (λ (t : List ℕ). None)
        (map entry_of entries.now) targets.now) }
{
    let mut firsts = Firsts::new(*text.allocator());
    for index in 0..entries.len() {
        let entry = entries[index];
        let target = target_at(targets, entry);
        let item = Item { entry, target };
        item.put_article(text, &mut firsts, frame)?;
    }
    Ok(())
}

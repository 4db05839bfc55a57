//! The report of all conditions of an outline, as a text.

ghost use Rattle.std.specs.Prelude.{◌≡◌, ◌++◌, ◌<◌, ◌≤◌, ◌^◌, length, map, true, false, IfOk, OnOk};
ghost use Rattle.og_cond.specs.Seen.{seen};
ghost use Rattle.og_report_prove.specs.Report.{is_unblocked};
ghost use Rattle.og_report_findings.specs.Says.{SaysNeverStuck};
ghost use Rattle.og_report_findings.specs.Exact.{IsExactReport};
ghost use Rattle.og_report_findings.specs.Told.{AreTold};
ghost use Rattle.og_report_findings.specs.Entries.{unproved_from};
ghost use Rattle.og_report_findings.specs.Order.{in_order};
ghost use Rattle.og_report_findings.specs.Causes.{item_of, groups_of, shown};
ghost use Rattle.og_report_findings.specs.Suggested.{suggested, suggestion_lines};
ghost use Rattle.og_report_findings.specs.Report.{run_part, false_text, item_text, group_text, each_text, groups_text, explored_part, end_text, report_text};

use crate::causes::{Group, groups};
use crate::entry::Findings;
use crate::hints::Hints;
use crate::order::in_order;
use crate::places::put_alike;
use crate::shown::{Item, shown};
use crate::suggestion::{Suggestion, put_suggestions};
use crate::verdict::{Conclusion, put_verdict};
use og_report_prove::{Block, Diagnosis, Page, put_block, put_head, put_totals};
use og_report_runs::{Explored, Run, put_explored, put_run_line};
use og_report_text::{Origins, Places, Rows};
use og_typed::Outline;
use std::alloc::{AllocError, Global};

// What a report is printed with.
#[derive(Clone, Copy)]
struct Sheet<'a> {
    hints: &'a Hints<'a>,
    page: Page<'a>,
    explored: Option<Explored>,
    advice: &'a [Vec<Suggestion<'a>>],
}

impl<'a> Sheet<'a> {
    // Of an outline with these places.
    fn new(
        hints: &'a Hints<'a>,
        origins: &'a Origins<'a>,
        findings: Findings<'a, '_, '_>,
    ) -> Sheet<'a>
        ensures hints { result.hints ≡ hints.entry }
        ensures names { result.page.names.now ≡ hints.now.names }
        ensures origins { result.page.origins ≡ origins.entry }
        ensures explored { result.explored ≡ findings.entry.explored }
        ensures advice { result.advice ≡ findings.entry.advice }
    {
        let page = Page {
            names: hints.outline().names(),
            origins,
        };
        Sheet {
            hints,
            page,
            explored: findings.explored,
            advice: findings.advice,
        }
    }

    // What is known of the runs to a false condition, where runs were followed.
    fn put_run(&self, text: &mut Vec<u8>, run: &Run) -> Result<(), AllocError>
        ensures { OnOk result (text.new.items ≡ text.old.items
            ++ run_part self.now.hints.now self.now.explored run.now) }
    {
        match self.explored {
            Some(explored) => put_run_line(text, self.hints.outline(), explored, run),
            None => Ok(()),
        }
    }

    // What is suggested for the condition with this number.
    fn put_advice(&self, text: &mut Vec<u8>, number: u64) -> Result<(), AllocError>
        requires places { self.now.page.origins.now.places.now ≡ self.now.page.origins.now.source.now }
        ensures { OnOk result (text.new.items ≡ text.old.items ++ suggestion_lines
            self.now.page.names.now self.now.page.origins.now.source.now
            self.now.page.origins.now.rows (suggested self.now.advice.now number)) }
    {
        match self.advice.get(number.saturating_sub(1) as usize) {
            Some(suggestions) => put_suggestions(
                text,
                self.page.names,
                self.page.origins,
                suggestions,
            ),
            None => Ok(()),
        }
    }

    // A false condition, with those that are false from the same cause.
    fn put_false(
        &self,
        text: &mut Vec<u8>,
        item: Item,
        block: &Block,
        others: &[Item],
    ) -> Result<(), AllocError>
        requires places { self.now.page.origins.now.places.now ≡ self.now.page.origins.now.source.now }
        requires names { self.now.page.names.now ≡ self.now.hints.now.names }
        ensures { OnOk result (text.new.items ≡ text.old.items
            ++ false_text self.now.hints.now self.now.explored self.now.advice.now
            self.now.page.origins.now.source.now self.now.page.origins.now.rows
            (item_of item.entry) block.now (map item_of others.now)) }
    {
        let outline = self.hints.outline();
        outline.follows_rule();
        let (page, entry) = (self.page, item.entry);
        let number = u128::from(entry.number);
        put_head(
            text,
            page.origins,
            number,
            entry.condition,
            b"false",
            item.more,
        )?;
        put_block(text, page.names, page.origins, block)?;
        let main = outline.processes().len() as u32;
        put_alike(text, page.origins, main, others)?;
        self.put_run(text, entry.run)?;
        self.hints.put(text, block, entry.run)?;
        self.put_advice(text, entry.number)
    }

    // A condition that is not proved, with those that are false from the same cause.
    fn put_item(&self, text: &mut Vec<u8>, item: Item, others: &[Item]) -> Result<(), AllocError>
        requires places { self.now.page.origins.now.places.now ≡ self.now.page.origins.now.source.now }
        requires names { self.now.page.names.now ≡ self.now.hints.now.names }
        ensures { OnOk result (text.new.items ≡ text.old.items
            ++ item_text self.now.hints.now self.now.explored self.now.advice.now
            self.now.page.origins.now.source.now self.now.page.origins.now.rows
            (item_of item.entry) (map item_of others.now)) }
    {
        let entry = item.entry;
        match entry.diagnosis {
            Diagnosis::Proved => Ok(()),
            Diagnosis::False(block) => self.put_false(text, item, block, others),
            Diagnosis::Open => {
                let number = u128::from(entry.number);
                put_head(
                    text,
                    self.page.origins,
                    number,
                    entry.condition,
                    b"open",
                    item.more,
                )
            }
        }
    }

    // Those that are told together.
    fn put_group(&self, text: &mut Vec<u8>, group: &[Item]) -> Result<(), AllocError>
        requires places { self.now.page.origins.now.places.now ≡ self.now.page.origins.now.source.now }
        requires names { self.now.page.names.now ≡ self.now.hints.now.names }
        ensures { OnOk result (text.new.items ≡ text.old.items
            ++ group_text self.now.hints.now self.now.explored self.now.advice.now
            self.now.page.origins.now.source.now self.now.page.origins.now.rows
            (map item_of group.now)) }
    {
        match group {
            [] => Ok(()),
            [first, others @ ..] => self.put_item(text, *first, others),
        }
    }

    // The blocks of groups, one after another.
    fn put_each(&self, text: &mut Vec<u8>, groups: &[Group]) -> Result<(), AllocError>
        requires places { self.now.page.origins.now.places.now ≡ self.now.page.origins.now.source.now }
        requires names { self.now.page.names.now ≡ self.now.hints.now.names }
        ensures { OnOk result (text.new.items ≡ text.old.items
            ++ each_text self.now.hints.now self.now.explored self.now.advice.now
            self.now.page.origins.now.source.now self.now.page.origins.now.rows
            (groups_of groups.now)) }
    {
        for group in groups {
            self.put_group(text, group)?;
        }
        Ok(())
    }

    // The blocks of those that are shown.
    fn put_groups(&self, text: &mut Vec<u8>, items: &[Item]) -> Result<(), AllocError>
        requires places { self.now.page.origins.now.places.now ≡ self.now.page.origins.now.source.now }
        requires names { self.now.page.names.now ≡ self.now.hints.now.names }
        ensures { OnOk result (text.new.items ≡ text.old.items
            ++ groups_text self.now.hints.now self.now.explored self.now.advice.now
            self.now.page.origins.now.source.now self.now.page.origins.now.rows
            (map item_of items.now)) }
    {
        let groups = groups(*text.allocator(), self.page, items)?;
        self.put_each(text, &groups)
    }
}

// How far runs were followed, where some were.
fn put_followed(
    text: &mut Vec<u8>,
    explored: Option<Explored>,
    runs: &[Run],
) -> Result<(), AllocError>
    ensures { OnOk result (text.new.items ≡ text.old.items ++ explored_part explored runs.now) }
{
    match explored {
        Some(explored) => put_explored(text, explored, runs),
        None => Ok(()),
    }
}

// The totals, and the verdict.
fn put_end(text: &mut Vec<u8>, findings: Findings) -> Result<(), AllocError>
    ensures { OnOk result (text.new.items ≡ text.old.items
        ++ end_text findings.entry.explored findings.entry.diagnoses.now findings.entry.runs.now) }
{
    put_totals(text, findings.diagnoses)?;
    put_followed(text, findings.explored, findings.runs)?;
    put_verdict(text, Conclusion::of(findings.diagnoses, findings.explored))
}

// Those of the conditions that are shown, in their order.
fn items_of<'f, 'c, 'd>(
    alloc: Global,
    rows: Option<&Rows>,
    findings: Findings<'f, 'c, 'd>,
) -> Result<Vec<Item<'f, 'c, 'd>>, AllocError>
    requires each { length findings.diagnoses.now ≡ length findings.conditions.now }
    requires run { length findings.runs.now ≡ length findings.conditions.now }
    requires few { length findings.diagnoses.now < 2 ^ 32 }
    ensures { IfOk result (λ items. map item_of items.items
        ≡ shown rows.entry (in_order (unproved_from 1 (map seen findings.entry.conditions.now)
        findings.entry.diagnoses.now findings.entry.runs.now))) }
{
    let unproved = findings.unproved(alloc)?;
    let ordered = in_order(alloc, &unproved)?;
    let items = shown(alloc, rows, &ordered)?;
    Ok(items)
}

// The blocks of these, and what stands behind them.
fn text_with(
    alloc: Global,
    sheet: &Sheet,
    findings: Findings,
    items: &[Item],
) -> Result<Vec<u8>, AllocError>
    requires places { sheet.now.page.origins.now.places.now ≡ sheet.now.page.origins.now.source.now }
    requires names { sheet.now.page.names.now ≡ sheet.now.hints.now.names }
    ensures { IfOk result (λ text. text.items
        ≡ groups_text sheet.now.hints.now sheet.now.explored sheet.now.advice.now
        sheet.now.page.origins.now.source.now sheet.now.page.origins.now.rows
        (map item_of items.now)
        ++ end_text findings.entry.explored findings.entry.diagnoses.now findings.entry.runs.now) }
{
    let mut text = Vec::new(alloc);
    sheet.put_groups(&mut text, items)?;
    put_end(&mut text, findings)?;
    Ok(text)
}

// The blocks, and what stands behind them.
fn text_of(
    alloc: Global,
    outline: &Outline,
    source: &[u8],
    rows: Option<&Rows>,
    findings: Findings,
) -> Result<Vec<u8>, AllocError>
    requires short { length source.now ≤ 2 ^ 20 }
    requires each { length findings.diagnoses.now ≡ length findings.conditions.now }
    requires run { length findings.runs.now ≡ length findings.conditions.now }
    requires few { length findings.diagnoses.now < 2 ^ 32 }
    ensures { IfOk result (λ text. text.items ≡ report_text outline.now findings.entry.explored
        findings.entry.advice.now source.now rows.entry (map seen findings.entry.conditions.now)
        findings.entry.diagnoses.now findings.entry.runs.now) }
{
    let places = Places::new(alloc, source)?;
    let origins = Origins {
        source,
        places: &places,
        rows,
    };
    let items = items_of(alloc, rows, findings)?;
    let hints = Hints::new(alloc, outline)?;
    let sheet = Sheet::new(&hints, &origins, findings);
    let text = text_with(alloc, &sheet, findings, &items)?;
    Ok(text)
}

/// The report of all conditions of an outline, as a text: the blocks of those that are not proved,
/// the totals, and the verdict. Blocks of conditions to which a run gets come first, then those of
/// which nothing is known of the runs, then those to which none gets. Of a template's outline the
/// false conditions that differ in their instances alone are reported together, with the result for
/// the runs of the first; and false ones in which the same action makes the same conjuncts false have
/// one block, with what is suggested for the first. Places are lines and columns of the text in which the outline stands, or of a template,
/// by its rows. The text has at most 1,048,576 bytes.
///
/// # Errors
///
/// An allocation was refused.
pub fn report(
    alloc: Global,
    outline: &Outline,
    source: &[u8],
    rows: Option<&Rows>,
    findings: Findings,
) -> Result<Vec<u8>, AllocError>
    requires short { length source.now ≤ 2 ^ 20 }
    requires each { length findings.diagnoses.now ≡ length findings.conditions.now }
    requires run { length findings.runs.now ≡ length findings.conditions.now }
    requires few { length findings.diagnoses.now < 2 ^ 32 }
    ensures report { IfOk result (λ text. text.items ≡ report_text outline.now
        findings.entry.explored findings.entry.advice.now source.now rows.entry (map seen findings.entry.conditions.now)
        findings.entry.diagnoses.now findings.entry.runs.now) }
    ensures told { OnOk result (AreTold outline.now.names source.now rows.entry
        (map seen findings.entry.conditions.now) findings.entry.diagnoses.now
        findings.entry.runs.now) }
    ensures exact { IfOk result (λ text. IsExactReport false findings.entry.diagnoses.now
        findings.entry.explored text.items) }
    ensures never_stuck { IfOk result (λ text.
        SaysNeverStuck false text.items → is_unblocked findings.entry.diagnoses.now ≡ true) }
{
    text_of(alloc, outline, source, rows, findings)
}

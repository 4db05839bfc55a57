//! The report of a false condition.

ghost use Rattle.std.specs.Prelude.{◌≡◌, ◌++◌, OnOk};
ghost use Rattle.og_report_prove.specs.Blocks.{head_lines, true_lines, block_text};

use crate::lines::{
    Shown, put_action, put_fault, put_known_lines, put_more_line, put_test, put_values_line,
};
use crate::reporting::Page;
use crate::sentences::put_sentence;
use og_cond::Kind;
use og_report_explain::{Actors, Explanation};
use og_report_text::Origins;
use og_subst::Values;
use og_text::Name;
use std::alloc::AllocError;

/// The report of a condition that is false in a state. A list has room for one for each condition,
/// so all but the state stands elsewhere.
#[derive(Drop)]
pub struct Block<'a> {
    /// The state.
    pub values: Values,
    pub details: Box<Details<'a>>,
}

/// The rest of the report beside the state.
#[derive(Drop)]
pub struct Details<'a> {
    pub kind: Kind,
    pub actors: Actors,
    /// Why the condition is false there.
    pub explanation: Explanation<'a>,
    /// The numbers, from 0, of the conjuncts that are false among all of their assertion.
    pub conjuncts: Vec<usize>,
    /// The variables of the false conjuncts.
    pub focus: Vec<u32>,
    /// The variables whose values are printed first, and then those of the others.
    pub state: Vec<u32>,
    pub besides: Vec<u32>,
    /// The auxiliaries, where their initial values are printed; and the values that the action
    /// assigns.
    pub initial: Vec<u32>,
    pub assigned: Vec<u32>,
}

impl<'a> Block<'a> {
    // These variables with their values in the state.
    fn state_of<'s>(&'s self, names: &'s [Name], vars: &'s [u32]) -> Shown<'s>
        ensures names { result.names.now ≡ names.now }
        ensures values { result.values.now ≡ self.now.values }
        ensures vars { result.vars.now ≡ vars.now }
    {
        let values = &self.values;
        Shown {
            names,
            values,
            vars,
        }
    }
}

// The sentence and the state.
fn put_head(text: &mut Vec<u8>, names: &[Name], block: &Block) -> Result<(), AllocError>
    ensures { OnOk result (text.new.items ≡ text.old.items ++ head_lines names.now block.now) }
{
    text.extend_from_slice(b"  ")?;
    let details = &block.details;
    put_sentence(text, details.kind, &details.actors)?;
    text.extend_from_slice(b"\n")?;
    put_values_line(text, b"state", block.state_of(names, &details.state))?;
    put_more_line(text, b"besides", block.state_of(names, &details.besides))
}

// The assertions true there.
fn put_true(text: &mut Vec<u8>, page: Page, block: &Block) -> Result<(), AllocError>
    requires { page.origins.now.places.now ≡ page.origins.now.source.now }
    ensures { OnOk result (text.new.items ≡ text.old.items ++ true_lines page.entry.names.now
        page.entry.origins.now.source.now page.entry.origins.now.rows block.now) }
{
    let (names, origins) = (page.names, page.origins);
    let details = &block.details;
    let explanation = &details.explanation;
    put_known_lines(text, names, origins, &details.focus, &explanation.known)?;
    put_more_line(text, b"initially", block.state_of(names, &details.initial))?;
    put_test(text, origins, explanation.test)
}

/// Adds the block to the text: each line after two blanks.
///
/// # Errors
///
/// An allocation was refused; the text has what it had, and perhaps a part of this.
pub fn put_block(
    text: &mut Vec<u8>,
    names: &[Name],
    origins: &Origins,
    block: &Block,
) -> Result<(), AllocError>
    requires { origins.now.places.now ≡ origins.now.source.now }
    ensures { OnOk result (text.new.items ≡ text.old.items
        ++ block_text names.now origins.now.source.now origins.now.rows block.now) }
{
    let page = Page { names, origins };
    let details = &block.details;
    let explanation = &details.explanation;
    put_head(text, names, block)?;
    put_true(text, page, block)?;
    put_action(text, names, origins, explanation, &details.assigned)?;
    put_fault(text, page, &explanation.fault)
}

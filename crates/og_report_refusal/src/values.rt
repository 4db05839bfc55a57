//! Why a word gives no variable a value or a range.

ghost use Rattle.std.specs.Prelude.{◌≡◌, IfOk};
ghost use Rattle.og_typed.specs.Resolved.{number_in};
ghost use Rattle.og_report_refusal.specs.Values.{quoted_text, form_text, IsNumberReason, IsVariableReason, IsWordReason, schedule_text, reason_line, IsValueRemark};

use crate::put_name;
use og_command_run::{integer, number_of};
use og_typed::Outline;
use std::alloc::{AllocError, Global};

/// What the words of a command give to variables.
#[derive(Clone, Copy, PartialEq, Eq)]
pub enum Gives {
    /// `NAME=INT`: a value.
    Values,
    /// `NAME=INT` or `NAME=LO..HI`: a value or a range.
    Ranges,
}

const VALUES: &str = "a value is a whole number from -9223372036854775808 to 9223372036854775807";

const RANGES: &str =
    "values are whole numbers from -9223372036854775808 to 9223372036854775807, LO is at most HI, and a variable is named once";

const AUXILIARY: &str = " is an auxiliary: the outline gives it its value at the start";

const SCHEDULE: &str = "a schedule is numbers of processes with commas between them, as 1,2,1";

// A name in quotes, and the claim about it.
fn quoted(alloc: Global, name: &str, rest: &str) -> Result<Vec<u8>, AllocError>
    ensures { IfOk result (λ text. text.items ≡ quoted_text name.now rest.now) }
{
    let mut text = Vec::from_slice(alloc, b"'")?;
    put_name(&mut text, name)?;
    text.extend_from_slice(b"'")?;
    text.extend_from_slice(rest.as_bytes())?;
    Ok(text)
}

impl Gives {
    // The form of the words.
    fn form(self) -> &'static str
        ensures { result.now ≡ form_text self }
    {
        match self {
            Gives::Values => "a word that gives a value is NAME=INT",
            Gives::Ranges => "a word that gives values is NAME=INT or NAME=LO..HI",
        }
    }

    // Why a text gives a variable of this name no value.
    fn number_reason(self, alloc: Global, name: &str, number: &str) -> Result<Vec<u8>, AllocError>
        ensures { IfOk result (λ text. IsNumberReason self name.now number.now text.items) }
    {
        match self {
            Gives::Ranges => Vec::from_slice(alloc, RANGES.as_bytes()),
            Gives::Values => match integer(number) {
                None => Vec::from_slice(alloc, VALUES.as_bytes()),
                Some(_) => quoted(alloc, name, " has a value already"),
            },
        }
    }

    // Why a name and a text give no value.
    fn variable_reason(
        self,
        alloc: Global,
        outline: &Outline,
        name: &str,
        number: &str,
    ) -> Result<Vec<u8>, AllocError>
        ensures { IfOk result (λ text. IsVariableReason self outline.now name.now number.now
            text.items (number_in outline.now.names name.now)) }
    {
        match number_of(outline.names(), name) {
            None => quoted(alloc, name, " is not declared"),
            Some(var) => {
                if var < outline.vars() as usize {
                    self.number_reason(alloc, name, number)
                } else {
                    quoted(alloc, name, AUXILIARY)
                }
            }
        }
    }

    // Why a word gives no value.
    fn reason(self, alloc: Global, outline: &Outline, word: &str) -> Result<Vec<u8>, AllocError>
        ensures { IfOk result (λ text. IsWordReason self outline.now word.now text.items) }
    {
        match word.split_once('=') {
            None => Vec::from_slice(alloc, self.form().as_bytes()),
            Some((name, number)) => self.variable_reason(alloc, outline, name, number),
        }
    }
}

// The line of a reason.
fn line_of(alloc: Global, reason: &[u8]) -> Result<Vec<u8>, AllocError>
    ensures { IfOk result (λ line. line.items ≡ reason_line reason.now) }
{
    let mut line = Vec::from_slice(alloc, b"  ")?;
    line.extend_from_slice(reason)?;
    line.extend_from_slice(b"\n")?;
    Ok(line)
}

/// Why a word is no schedule, as a line after two blanks.
///
/// # Errors
///
/// An allocation was refused.
pub fn schedule_remark(alloc: Global) -> Result<Vec<u8>, AllocError>
    ensures { IfOk result (λ line. line.items ≡ reason_line schedule_text) }
{
    line_of(alloc, SCHEDULE.as_bytes())
}

/// Why a word gives no variable of an outline a value or a range, as a line after two blanks: it
/// has no `=`, its name is not declared or an auxiliary's, or it says no value; where it says one,
/// that the variable has one already.
///
/// # Errors
///
/// An allocation was refused.
pub fn value_remark(
    alloc: Global,
    gives: Gives,
    outline: &Outline,
    word: &str,
) -> Result<Vec<u8>, AllocError>
    ensures { IfOk result (λ line. IsValueRemark gives outline.now word.now line.items) }
{
    let reason = gives.reason(alloc, outline, word)?;
    line_of(alloc, &reason)
}

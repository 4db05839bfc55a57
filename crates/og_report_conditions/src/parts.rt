//! The assertion before.

ghost use Rattle.std.specs.Prelude.{◌≡◌, ◌++◌, [], map, OnOk};
ghost use Rattle.og_cond.specs.Seen.{part_of, parts_of, hypothesis_of};
ghost use Rattle.og_report_conditions.specs.Triples.{least_of, part_text, parts_text, choices_text, one_of_text, hypothesis_text, hypotheses_text, before_text};

use og_cond::{Hypothesis, Part};
use og_report_text::{put_operand, put_value};
use og_text::Name;
use std::alloc::AllocError;

fn put_part(text: &mut Vec<u8>, names: &[Name], least: u8, part: &Part) -> Result<(), AllocError>
    ensures { OnOk result (text.new.items ≡ text.old.items
        ++ part_text names.now least (part_of part.now)) }
{
    match part {
        Part::Yes(a) => put_operand(text, names, least, a),
        Part::No(a) => {
            text.extend_from_slice(b"not ")?;
            put_operand(text, names, 3, a)
        }
    }
}

fn put_parts(text: &mut Vec<u8>, names: &[Name], parts: &[Part]) -> Result<(), AllocError>
    ensures { OnOk result (text.new.items ≡ text.old.items
        ++ parts_text names.now [] (map part_of parts.now)) }
{
    let mut between: &[u8] = b"";
    for part in parts {
        text.extend_from_slice(between)?;
        put_part(text, names, 2, part)?;
        between = b" and ";
    }
    Ok(())
}

fn put_choices(text: &mut Vec<u8>, names: &[Name], choices: &[Vec<Part>]) -> Result<(), AllocError>
    ensures { OnOk result (text.new.items ≡ text.old.items
        ++ choices_text names.now [] (map parts_of choices.now)) }
{
    let mut between: &[u8] = b"";
    for choice in choices {
        text.extend_from_slice(between)?;
        put_parts(text, names, choice)?;
        between = b" or ";
    }
    Ok(())
}

fn put_one_of(text: &mut Vec<u8>, names: &[Name], choices: &[Vec<Part>]) -> Result<(), AllocError>
    ensures { OnOk result (text.new.items ≡ text.old.items
        ++ one_of_text names.now (map parts_of choices.now)) }
{
    if choices.is_empty() {
        return text.extend_from_slice(b"false");
    }
    text.extend_from_slice(b"(")?;
    put_choices(text, names, choices)?;
    text.extend_from_slice(b")")
}

/// Adds a hypothesis to the text, an assertion in parentheses where it binds less tightly than
/// this.
pub(crate) fn put_hypothesis(
    text: &mut Vec<u8>,
    names: &[Name],
    least: u8,
    hypothesis: &Hypothesis,
) -> Result<(), AllocError>
    ensures { OnOk result (text.new.items ≡ text.old.items
        ++ hypothesis_text names.now least (hypothesis_of hypothesis.now)) }
{
    match hypothesis {
        Hypothesis::Is(part) => put_part(text, names, least, part),
        Hypothesis::Starts(var, value) => put_value(text, names, *var, i128::from(*value)),
        Hypothesis::OneOf(choices) => put_one_of(text, names, choices),
    }
}

fn put_hypotheses(
    text: &mut Vec<u8>,
    names: &[Name],
    least: u8,
    hypotheses: &[Hypothesis],
) -> Result<(), AllocError>
    ensures { OnOk result (text.new.items ≡ text.old.items
        ++ hypotheses_text names.now least [] (map hypothesis_of hypotheses.now)) }
{
    let mut between: &[u8] = b"";
    for hypothesis in hypotheses {
        text.extend_from_slice(between)?;
        put_hypothesis(text, names, least, hypothesis)?;
        between = b" and ";
    }
    Ok(())
}

fn least_of(hypotheses: &[Hypothesis]) -> u8
    ensures { result ≡ least_of (map hypothesis_of hypotheses.now) }
{
    if hypotheses.len() == 1 { 0 } else { 2 }
}

/// Adds the line of these hypotheses to the text.
pub(crate) fn put_before(
    text: &mut Vec<u8>,
    names: &[Name],
    hypotheses: &[Hypothesis],
) -> Result<(), AllocError>
    ensures { OnOk result (text.new.items ≡ text.old.items
        ++ before_text names.now (map hypothesis_of hypotheses.now)) }
{
    text.extend_from_slice(b"  {")?;
    put_hypotheses(text, names, least_of(hypotheses), hypotheses)?;
    text.extend_from_slice(b"}\n")
}

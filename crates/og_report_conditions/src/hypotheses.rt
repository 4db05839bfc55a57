//! What a condition starts from.

ghost use Rattle.std.specs.Prelude.{◌≡◌, ◌++◌, map, OnOk};
ghost use Rattle.og_cond.specs.Seen.{part_of, parts_of, hypothesis_of};
ghost use Rattle.og_cond.specs.Condition.{Starts};
ghost use Rattle.og_report_conditions.specs.Script.{part_text, parts_text, choices_text, hypothesis_text, hypotheses_lines};

use crate::formulas::{put_formula, put_negated};
use crate::terms::{put_number, put_variable};
use og_cond::{Hypothesis, Part};
use og_text::Name;
use std::alloc::AllocError;

fn put_part(text: &mut Vec<u8>, names: &[Name], part: &Part) -> Result<(), AllocError>
    ensures { OnOk result (text.new.items ≡ text.old.items
        ++ part_text names.now (part_of part.now)) }
{
    match part {
        Part::Yes(a) => put_formula(text, names, a),
        Part::No(a) => put_negated(text, names, a),
    }
}

fn put_parts(text: &mut Vec<u8>, names: &[Name], parts: &[Part]) -> Result<(), AllocError>
    ensures { OnOk result (text.new.items ≡ text.old.items
        ++ parts_text names.now (map part_of parts.now)) }
{
    for part in parts {
        text.extend_from_slice(b" ")?;
        put_part(text, names, part)?;
    }
    Ok(())
}

fn put_choices(text: &mut Vec<u8>, names: &[Name], choices: &[Vec<Part>]) -> Result<(), AllocError>
    ensures { OnOk result (text.new.items ≡ text.old.items
        ++ choices_text names.now (map parts_of choices.now)) }
{
    for choice in choices {
        text.extend_from_slice(b" (and true true")?;
        put_parts(text, names, choice)?;
        text.extend_from_slice(b")")?;
    }
    Ok(())
}

fn put_start(text: &mut Vec<u8>, names: &[Name], var: u32, value: i64) -> Result<(), AllocError>
    ensures { OnOk result (text.new.items ≡ text.old.items
        ++ hypothesis_text names.now (Starts var value)) }
{
    text.extend_from_slice(b"(= ")?;
    put_variable(text, names, var)?;
    text.extend_from_slice(b" ")?;
    put_number(text, i128::from(value))?;
    text.extend_from_slice(b")")
}

fn put_hypothesis(
    text: &mut Vec<u8>,
    names: &[Name],
    hypothesis: &Hypothesis,
) -> Result<(), AllocError>
    ensures { OnOk result (text.new.items ≡ text.old.items
        ++ hypothesis_text names.now (hypothesis_of hypothesis.now)) }
{
    match hypothesis {
        Hypothesis::Is(part) => put_part(text, names, part),
        Hypothesis::Starts(var, value) => put_start(text, names, *var, *value),
        Hypothesis::OneOf(choices) => {
            text.extend_from_slice(b"(or false false")?;
            put_choices(text, names, choices)?;
            text.extend_from_slice(b")")
        }
    }
}

/// Adds a line for each hypothesis to the text.
pub(crate) fn put_hypotheses(
    text: &mut Vec<u8>,
    names: &[Name],
    hypotheses: &[Hypothesis],
) -> Result<(), AllocError>
    ensures { OnOk result (text.new.items ≡ text.old.items
        ++ hypotheses_lines names.now (map hypothesis_of hypotheses.now)) }
{
    for hypothesis in hypotheses {
        text.extend_from_slice(b"(assert ")?;
        put_hypothesis(text, names, hypothesis)?;
        text.extend_from_slice(b")\n")?;
    }
    Ok(())
}

//! Lists of assertions with `and` or `or`.

ghost use Rattle.std.specs.Prelude.{◌≡◌, ◌++◌, map, OnOk};
ghost use Rattle.og_parse.specs.TreeOf.{assertion_of as tree_of};
ghost use Rattle.og_template_expand.specs.Assertions as meaning;

use og_parse::RawAssert;
use std::alloc::AllocError;

/// What joins the operands of a list.
#[derive(Clone, Copy, Drop)]
pub(crate) enum Connective {
    And,
    Or,
}

/// The list of these operands: one is itself, none is `true` or `false`.
pub(crate) fn joined(connective: Connective, mut operands: Vec<RawAssert>) -> RawAssert
    ensures { tree_of result ≡ meaning.joined connective (map tree_of operands.items) }
{
    if operands.len() == 1 {
        return operands.remove(0);
    }
    match connective {
        Connective::And if operands.is_empty() => RawAssert::True,
        Connective::Or if operands.is_empty() => RawAssert::False,
        Connective::And => RawAssert::And(operands),
        Connective::Or => RawAssert::Or(operands),
    }
}

/// Adds an operand; a list with the same connective gives its operands.
pub(crate) fn put_spliced(
    connective: Connective,
    operand: RawAssert,
    all: &mut Vec<RawAssert>,
) -> Result<(), AllocError>
    ensures { OnOk result (map tree_of all.new.items
        ≡ map tree_of all.old.items ++ meaning.spliced connective (tree_of operand)) }
{
    match connective {
        Connective::And => match operand {
            RawAssert::And(mut operands) => Ok(all.append(&mut operands)?),
            other => Ok(all.push(other)?),
        },
        Connective::Or => match operand {
            RawAssert::Or(mut operands) => Ok(all.append(&mut operands)?),
            other => Ok(all.push(other)?),
        },
    }
}

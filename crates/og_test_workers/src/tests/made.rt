//! Source texts that are made of many equal parts.

use std::alloc::{AllocError, Global};

// A process that multiplies x so often by 2^31.
pub(crate) fn multiplied(alloc: Global, times: usize) -> Result<String, AllocError> {
    let steps = "; x := 2147483648*x".repeat(alloc, times)?;
    let begin = "var x;\n{x >= 1}\ncobegin\n{x >= 1}\nawait true then begin x := x";
    let end = " end\n{x >= 2}\ncoend\n{x >= 2}\n";
    [begin, steps.as_str(), end].concat(alloc)
}

// A first assertion with 9,999 facts: the conditions that the processes start have 10,000.
pub(crate) fn many(alloc: Global) -> Result<String, AllocError> {
    let facts = " and x = 7".repeat(alloc, 4999)?;
    let processes = "}\ncobegin\n{x >= 7} skip {x >= 7}\n//\n{x <= 6} skip {x <= 6}\n";
    [
        "var x;\n{x >= 7",
        facts.as_str(),
        processes,
        "coend\n{true}\n",
    ]
    .concat(alloc)
}

// Choices in choices, 100 deep, with a bound that leaves them no way, and with one that does.
pub(crate) fn deep(alloc: Global) -> Result<String, AllocError> {
    let choices = " or y <= 0 and (x = 6".repeat(alloc, 99)?;
    let ends = ")".repeat(alloc, 100)?;
    let one = [
        "(x = 5",
        choices.as_str(),
        ends.as_str(),
        "} skip {false}\n",
    ]
    .concat(alloc)?;
    let first = "var x, y;\n{false}\ncobegin\n{x <= 4 and ";
    let second = "//\n{x <= 5 and ";
    [
        first,
        one.as_str(),
        second,
        one.as_str(),
        "coend\n{false}\n",
    ]
    .concat(alloc)
}

// Adds a number from 1 to a value that differs from those before it: its name, and its bounds
// it.
fn put_number(
    alloc: Global,
    names: &mut String,
    facts: &mut String,
    number: usize,
    values: usize,
) -> Result<(), AllocError> {
    let (comma, and) = match number {
        0 => ("var ", ""),
        _ => (", ", " and "),
    };
    names.push_str(format!(in alloc; "{comma}v{number}")?.as_str())?;
    facts.push_str(format!(in alloc; "{and}v{number} >= 1 and v{number} <= {values}")?.as_str())?;
    for other in 0..number {
        facts.push_str(format!(in alloc; " and v{number} <> v{other}")?.as_str())?;
    }
    Ok(())
}

// Numbers from 1 to a value that are all different, and then false.
pub(crate) fn different(
    alloc: Global,
    numbers: usize,
    values: usize,
) -> Result<String, AllocError> {
    let mut names = String::new(alloc);
    let mut facts = String::new(alloc);
    for number in 0..numbers {
        put_number(alloc, &mut names, &mut facts, number, values)?;
    }
    let begin = ";\n{false}\ncobegin\n{";
    let end = "} skip {false}\ncoend\n{false}\n";
    [names.as_str(), begin, facts.as_str(), end].concat(alloc)
}

// Adds an entry of a queue: its names, and its facts. Either it is through, or it waits with a
// number above the counter and below the end that differs from those of the entries before it.
fn put_entry(
    alloc: Global,
    names: &mut String,
    facts: &mut String,
    number: usize,
) -> Result<(), AllocError> {
    let n = number;
    names.push_str(format!(in alloc; ", v{n}, d{n}")?.as_str())?;
    facts.push_str(format!(in alloc; " and d{n} >= 0 and d{n} <= 1")?.as_str())?;
    facts.push_str(format!(in alloc; " and (d{n} = 1 or d{n} = 0 and v{n} <> s)")?.as_str())?;
    facts.push_str(format!(in alloc; " and (d{n} = 1 or s <= v{n} and v{n} < e)")?.as_str())?;
    for other in 0..number {
        let pair = format!(in alloc; " and (d{n} = 1 or d{other} = 1 or v{n} <> v{other})")?;
        facts.push_str(pair.as_str())?;
    }
    Ok(())
}

// The sum of this many flags.
fn sum_of_flags(alloc: Global, entries: usize) -> Result<String, AllocError> {
    let mut sum = String::new(alloc);
    for n in 0..entries {
        sum.push_str(format!(in alloc; " + d{n}")?.as_str())?;
    }
    Ok(sum)
}

// A queue of this many entries, not all through, whose numbers are below the end, and then false.
pub(crate) fn queue(alloc: Global, entries: usize, end: usize) -> Result<String, AllocError> {
    let mut names = String::new(alloc);
    let mut facts = String::new(alloc);
    for number in 0..entries {
        put_entry(alloc, &mut names, &mut facts, number)?;
    }
    let sum = sum_of_flags(alloc, entries)?;
    let count = format!(in alloc; "s = 0{sum} and s < {entries} and e <= {end}")?;
    let begin = ";\n{false}\ncobegin\n{";
    let last = "} skip {false}\ncoend\n{false}\n";
    [
        "var s, e",
        names.as_str(),
        begin,
        count.as_str(),
        facts.as_str(),
        last,
    ]
    .concat(alloc)
}

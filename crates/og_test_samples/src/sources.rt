//! Source texts.

use std::alloc::{AllocError, Global};

/// Two awaits that add 1 and 2.
pub const TWO_ADD: &str =
    "var x;\n{x = 0}\ncobegin\n{x = 0 or x = 2}\nawait true then x := x + 1\n{x = 1 or x = 3}\n//\n{x = 0 or x = 1}\nawait true then x := x + 2\n{x = 2 or x = 3}\ncoend\n{x = 3}\n";

/// Two awaits that each add 1.
pub const EQUAL_ADD: &str =
    "var x;\n{x = 0}\ncobegin\n{x = 0 or x = 1}\nawait true then x := x + 1\n{x = 1 or x = 2}\n//\n{x = 0 or x = 1}\nawait true then x := x + 1\n{x = 1 or x = 2}\ncoend\n{x = 2}\n";

/// With auxiliaries that record who has added.
pub const AUXILIARY_ADD: &str =
    "var x; aux a = 0, b = 0;\n{x = 0}\ncobegin\n{x = a + b and a = 0 and b <= 1}\nawait true then begin x := x + 1; a := 1 end\n{x = a + b and a = 1 and b <= 1}\n//\n{x = a + b and b = 0 and a <= 1}\nawait true then begin x := x + 1; b := 1 end\n{x = a + b and b = 1 and a <= 1}\ncoend\n{x = 2}\n";

/// A process that skips where y = 0, and one that assigns y.
pub const SKIP_AND_ASSIGN: &str =
    "var y;\n{y = 0}\ncobegin\n{y = 0} skip {y = 0}\n//\n{true} y := 1 {true}\ncoend\n{true}\n";

/// One process that adds 1, up to the greatest value.
pub const ONE_BELOW: &str =
    "var x;\n{x = 9223372036854775806}\ncobegin\n{x = 9223372036854775806} x := x + 1 {x = 9223372036854775807}\ncoend\n{x = 9223372036854775807}\n";

/// An await that goes above the greatest value and comes back.
pub const UP_AND_DOWN: &str =
    "var x;\n{x = 9223372036854775807}\ncobegin\n{x = 9223372036854775807}\nawait true then begin x := x + 1; x := x - 1 end\n{x = 9223372036854775807}\ncoend\n{x = 9223372036854775807}\n";

/// Two processes, each of which waits for the other.
pub const EACH_WAITS: &str =
    "var a, b;\n{a = 0 and b = 0}\ncobegin\n{true} await b = 1 then a := 1 {true}\n//\n{true} await a = 1 then b := 1 {true}\ncoend\n{true}\n";

/// One process that skips.
pub const ONE_SKIP: &str = "{true}\ncobegin\n{true} skip {true}\ncoend\n{true}\n";

/// A loop without end that assigns an auxiliary alone.
pub const AUXILIARY_LOOP: &str =
    "aux a = 0;\n{true}\ncobegin\n{true} while true do begin {true} a := 0 {true} end {true}\ncoend\n{true}\n";

/// An `if` in a `while`, and a process that assigns what both rest on.
pub const NESTED: &str =
    "var x, y;\n{x = 0 and y = 0}\ncobegin\n{x = 0}\nwhile y = 0 do begin\n  {x = 0}\n  if x = 0 then begin\n    {x = 0}\n    skip\n    {x = 0}\n  end\n  {x = 0}\nend\n{true}\n//\n{true}\nx := 1\n{true}\ncoend\n{true}\n";

/// One process between a prologue and an epilogue.
pub const WITH_MAIN: &str =
    "var x;\n{true}\nbegin\n{true} x := 0 {x = 0}\nend\ncobegin\n{x = 0} await true then x := x + 1 {x = 1}\ncoend\nbegin\n{x = 1} x := x + 1 {x = 2}\nend\n{x = 2}\n";

/// The text of `head`, this many equal processes and one more with `//` between them, and `tail`.
///
/// # Errors
///
/// An allocation was refused.
pub fn equal_processes(
    alloc: Global,
    head: &str,
    process: &str,
    others: usize,
    tail: &str,
) -> Result<String, AllocError> {
    let mut text = String::from_str(alloc, head)?;
    text.push_str(process)?;
    for _ in 0..others {
        text.push_str("//\n")?;
        text.push_str(process)?;
    }
    text.push_str(tail)?;
    Ok(text)
}

/// A process of this many assignments `x := 1` and then this many skips, and this many others like
/// it. Every assertion is `x >= 0`.
///
/// # Errors
///
/// An allocation was refused.
pub fn alike(
    alloc: Global,
    assigns: usize,
    skips: usize,
    others: usize,
) -> Result<String, AllocError> {
    let assigns = "{x >= 0} x := 1\n".repeat(alloc, assigns)?;
    let skips = "{x >= 0} skip\n".repeat(alloc, skips)?;
    let process = [assigns.as_str(), skips.as_str(), "{x >= 0}\n"].concat(alloc)?;
    let head = "var x;\n{x >= 0}\ncobegin\n";
    equal_processes(alloc, head, process.as_str(), others, "coend\n{x >= 0}\n")
}

//! Source texts, and states.

use og_linear::State;
use std::alloc::{AllocError, Global};

pub(crate) fn state_of(alloc: Global, values: &[i64]) -> Result<State, AllocError> {
    Ok(State::new(Vec::from_slice(alloc, values)?))
}

// The first process waits for the second.
pub(crate) const ONE_WAITS: &str =
    "var x;\n{x = 0}\ncobegin\n{true} await x = 1 then skip {true}\n//\n{true} x := 1 {true}\ncoend\n{true}\n";

// The second process overflows, and the first waits for ever.
pub(crate) const ONE_OVERFLOWS: &str =
    "var x;\n{true}\ncobegin\n{true} await x = 0 then skip {true}\n//\n{true} x := x + 1 {true}\ncoend\n{true}\n";

pub(crate) const NOT_EVEN: &str =
    "var x, y;\n{2*x = 2*y + 1}\ncobegin\n{false} skip {false}\ncoend\n{false}\n";

// A parity argument, with numbers that are as large as a search uses them.
pub(crate) const LARGE: &str =
    "var x, y;\n{2147483646*x = 2147483646*y + 1073741823}\ncobegin\n{true}\nawait true then begin x := 2147483648*x; y := 2147483646*y end\n{2147483648*x <> 2147483646*y + 1}\n//\n{false} skip {false}\ncoend\n{true}\n";

// A condition that has no facts at all: it is false.
pub(crate) const NO_FACTS: &str = "{false}\ncobegin\n{true} skip {false}\ncoend\n{false}\n";

// Conditions 3 and 4 have facts that differ only in a sign: their second one is -x - 4 <= 0 in the
// one and x - 4 <= 0 in the other.
pub(crate) const TURNED: &str =
    "var x;\n{x <= 5 and x <= 4 and x >= -4}\ncobegin\n{x <= 5 and x >= -4} skip {x <= 5}\n//\n{x <= 5 and x <= 4} skip {x <= 5}\ncoend\n{x <= 5}\n";

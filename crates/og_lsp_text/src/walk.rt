//! Units within a line.

ghost use Rattle.std.specs.Prelude.{◌≡◌, ◌+◌, ◌*◌, ◌^◌, ◌≤◌, ◌<◌, length, sum_by};
ghost use Rattle.og_lsp_text.specs.Positions.{unit, units};
ghost use Rattle.og_lsp_text.specs.Walk.{IsLastIn};

use crate::boundary::is_boundary;
use crate::encoding::Encoding;

// The units of some bytes.
pub(crate) fn units_of(encoding: Encoding, bytes: &[u8]) -> u32
    requires { length bytes.now ≤ 2 ^ 24 }
    ensures { result ≡ sum_by (unit encoding) bytes.now }
{
    let mut units = 0;
    for byte in bytes {
        units += encoding.unit(*byte);
    }
    units
}

// The last boundary between two places that has at most so many units in front of it, counted from
// the first of them; this one where there is none.
pub(crate) fn last_boundary(
    text: &[u8],
    encoding: Encoding,
    first: usize,
    last: usize,
    most: u32,
) -> usize
    requires ordered { first ≤ last }
    requires within { last ≤ length text.now }
    requires small { length text.now ≤ 2 ^ 24 }
    ensures { IsLastIn encoding text.now first last most result }
{
    let mut found = first;
    let mut units = 0;
    for at in first..last {
        if units > most {
            return found;
        }
        if is_boundary(text, at) {
            found = at;
        }
        units += encoding.unit(text[at]);
    }
    if units <= most && is_boundary(text, last) {
        found = last;
    }
    found
}

//! Names that are free.

use og_text::Name;
use std::alloc::{AllocError, Global};

// A name has at most so many bytes.
const MOST_BYTES: usize = 64;

// Whether one of the names begins with these bytes.
fn is_taken(names: &[Name], base: &[u8]) -> bool {
    for name in names {
        if name.as_slice().starts_with(base) {
            return true;
        }
    }
    false
}

/// The word `at`, and as many underscores behind it as it takes that none of the names begins so.
pub(crate) fn free_base(alloc: Global, names: &[Name]) -> Result<String, AllocError> {
    let mut base = String::from_str(alloc, "at")?;
    for _ in 0..MOST_BYTES {
        if !is_taken(names, base.as_bytes()) {
            break;
        }
        base.push_str("_")?;
    }
    Ok(base)
}

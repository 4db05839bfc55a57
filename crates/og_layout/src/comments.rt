//! The levels of comments.

use crate::class::Class;
use crate::spaced::Spaced;

/// Gives each comment the level of the word that comes next, or 0 at the end.
pub(crate) fn place_comments(parts: &mut [Spaced]) {
    let mut level = 0;
    for part in parts.iter_mut().rev() {
        if part.class == Class::Comment {
            part.level = level;
        } else {
            level = part.level;
        }
    }
}

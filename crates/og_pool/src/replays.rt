//! What came of replays.

ghost use Rattle.std.specs.Prelude.{List, IfSome};
ghost use Rattle.std.specs.List.{All};
ghost use Rattle.og_cond.specs.declared.condition.Condition.{Condition};
ghost use Rattle.og_cert_text.specs.declared.file.CertFile.{CertFile};
ghost use Rattle.og_pool.specs.Kept.{IsKnown};

use crate::status::Status;
use std::alloc::AllocError;

/// How many replays a worker remembers; with the next one it begins anew.
const MOST: usize = 256;

/// The status of a condition that came of a replay.
#[derive(Clone, Copy)]
pub(crate) struct Replayed {
    /// The condition, counted from 1.
    pub(crate) number: u32,
    /// The mark of its certificate and of its facts.
    pub(crate) mark: u64,
    pub(crate) status: Status,
}

/// The one with this mark.
pub(crate) fn with_mark(replays: &[Replayed], mark: u64) -> Option<Replayed>
    ensures { (cs : List Condition) (file : CertFile) → All (IsKnown cs file) replays.now
        → IfSome result (IsKnown cs file) }
{
    for replayed in replays {
        if replayed.mark == mark {
            return Some(*replayed);
        }
    }
    None
}

/// Remembers a replay.
///
/// # Errors
///
/// An allocation was refused; nothing is remembered then but what was before, or less.
pub(crate) fn remember(replays: &mut Vec<Replayed>, replayed: Replayed) -> Result<(), AllocError>
    ensures { (cs : List Condition) (file : CertFile) → IsKnown cs file replayed
        → All (IsKnown cs file) replays.old.items → All (IsKnown cs file) replays.new.items }
{
    if replays.len() >= MOST {
        replays.clear();
    }
    replays.push(replayed)?;
    Ok(())
}

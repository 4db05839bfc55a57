//! What a run is given.

use og_linear::State;
use og_typed::Outline;
use std::marker::Model;
use std::snapshot::Snapshot;

/// The outline of a run, the values that it starts from, and its limit, as clauses see them. It
/// holds the limit alone.
#[derive(Drop)]
pub struct Setting {
    outline: Snapshot<Outline>,
    values: Snapshot<State>,
    limit: u32,
}

impl Model for Setting {
    ghost use Rattle.og_run.specs.Runs.{Given};
    ghost use Rattle.og_run.specs.Histories.{given_code};

    ghost Value = { Given };

    ghost coded = { given_code };

    ghost view = { λ s. record { outline = s.outline.value; values = s.values.value; limit = s.limit } };
}

impl Setting {
    ghost use Rattle.std.specs.Prelude.{◌≡◌};

    /// For a run of this outline from these values, of at most `limit` steps.
    pub fn new(outline: &Outline, values: &State, limit: u32) -> Setting
        ensures { result ≡ record { outline = outline.now; values = values.now; limit = limit } }
    {
        Setting {
            outline: Snapshot::of(outline),
            values: Snapshot::of(values),
            limit,
        }
    }

    /// The greatest number of steps.
    pub fn limit(&self) -> u32
        ensures { result ≡ self.now.limit }
    {
        self.limit
    }
}

//! Laws, as calls: there is nothing to run.

use og_text::{one_cut, places_within};
use og_theorem::{erased_soundness, progress, soundness};

#[test]
fn laws(_rt: HostRuntime) {
    one_cut();
    places_within();
    soundness();
    erased_soundness();
    progress();
}

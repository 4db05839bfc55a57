//! Claims that samples refute: no candidate that is true of all samples proves them.

use og_infer_places::{Claim, Obligation, Samples, apply, is_true};
use og_infer_rounds::{Duty, Scene};
use og_typed::Assert;
use std::alloc::AllocError;

// Whether a process may stand at a place in the state: the place was seen with it, and the author's
// assertion there is true.
fn was_at(scene: &Scene, samples: &Samples, place: u32, values: &[i64]) -> bool {
    match scene.author(place) {
        Some(author) => samples.has(place, values) && is_true(author, values),
        None => false,
    }
}

// Whether one of the alternatives was seen with the state, its guard false.
fn was_stuck(
    scene: &Scene,
    samples: &Samples,
    alternatives: &[(u32, Option<&Assert>)],
    values: &[i64],
) -> bool {
    for (place, guard) in alternatives {
        let waits = match guard {
            Some(guard) => !is_true(guard, values),
            None => true,
        };
        if waits && was_at(scene, samples, *place, values) {
            return true;
        }
    }
    false
}

// Whether the obligation starts from the state, as far as the samples tell.
fn may_start(scene: &Scene, samples: &Samples, obligation: &Obligation, values: &[i64]) -> bool {
    if let Some((test, is_so)) = obligation.test {
        if is_true(test, values) != is_so {
            return false;
        }
    }
    for place in &obligation.places {
        if !was_at(scene, samples, *place, values) {
            return false;
        }
    }
    for alternatives in &obligation.stuck {
        if !was_stuck(scene, samples, alternatives, values) {
            return false;
        }
    }
    true
}

// Whether what the obligation claims is false after its action in the state.
fn fails(scene: &Scene, obligation: &Obligation, values: &[i64]) -> Result<bool, AllocError> {
    let mut after = Vec::from_slice(scene.alloc, values)?;
    let fits = match &obligation.action {
        Some(action) => apply(action, &mut after),
        None => true,
    };
    let claimed = match obligation.claim {
        Claim::Holds(place) => scene.author(place),
        Claim::Post => Some(scene.frame.post()),
        Claim::Fits => return Ok(!fits),
        Claim::Never => return Ok(true),
    };
    Ok(match claimed {
        Some(claimed) => fits && !is_true(claimed, &after),
        None => false,
    })
}

// Whether one of the states refutes what the obligation claims.
fn is_refuted_in(
    scene: &Scene,
    samples: &Samples,
    obligation: &Obligation,
    states: &[Vec<i64>],
) -> Result<bool, AllocError> {
    for values in states {
        if may_start(scene, samples, obligation, values) && fails(scene, obligation, values)? {
            return Ok(true);
        }
    }
    Ok(false)
}

// Whether a sample refutes what the obligation claims.
fn is_refuted(
    scene: &Scene,
    samples: &Samples,
    obligation: &Obligation,
) -> Result<bool, AllocError> {
    if let Some(place) = obligation.places.first() {
        return is_refuted_in(scene, samples, obligation, samples.at(*place));
    }
    let Some(alternatives) = obligation.stuck.last() else {
        return is_refuted_in(scene, samples, obligation, samples.starts());
    };
    for (place, _) in alternatives {
        if is_refuted_in(scene, samples, obligation, samples.at(*place))? {
            return Ok(true);
        }
    }
    Ok(false)
}

/// Whether samples refute all of these claims.
pub(crate) fn are_refuted(
    scene: &Scene,
    samples: &Samples,
    claims: &[Duty],
) -> Result<bool, AllocError> {
    for duty in claims {
        if let Some(obligation) = scene.obligations.get(duty.obligation) {
            if !is_refuted(scene, samples, obligation)? {
                return Ok(false);
            }
        }
    }
    Ok(true)
}

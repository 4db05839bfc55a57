//! Certificates of conditions, and states in which conditions are false.

ghost use Rattle.std.specs.Prelude.{◌≡◌, IfOk, IfSome, OnSome, IsTrue, vec_len};
ghost use Rattle.og_cond.specs.Valid.{IsValid};
ghost use Rattle.og_cond.specs.Seen.{seen};
ghost use Rattle.og_cert_text.specs.Plain.{plain_cert};
ghost use Rattle.og_find.specs.Found.{Certifies, Closes, IsFollowed, IsFollowedOn, IsModel, IsVerdict, IsVerdictOn};

use crate::leaders::{Leader, Leaders};
use crate::reading::{inequalities_of, read_choices};
use crate::truth::{NESTING_LIMIT, all_true};
use crate::verdict::{Followed, Verdict};
use og_cert::{Cert, ReplayError, replay};
use og_cert_text::Finish;
use og_cond::Condition;
use og_facts::{FactList, FactsError, facts};
use og_linear::State;
use og_search::{Claim, Model, Start, begin, search_among};
use og_subst::Values;
use std::alloc::{AllocError, Global};

/// The most facts among which a certificate of one sum is searched, and not carried over.
const FEW_FACTS: usize = 64;

// Whether the certificate is well formed and closes the facts.
fn is_closing(alloc: Global, list: &FactList, cert: &Cert) -> Result<bool, AllocError>
    ensures { IfOk result (λ yes. IsTrue yes → Closes list.now (plain_cert cert.now)) }
{
    if !cert.is_well_formed() {
        return Ok(false);
    }
    match replay(alloc, list, cert) {
        Ok(()) => Ok(true),
        Err(ReplayError::Memory) => Err(AllocError),
        Err(ReplayError::Fault(_)) => Ok(false),
    }
}

// The values of the first variables, where each is an i64.
fn values_of(alloc: Global, model: &Model, variables: u32) -> Result<Option<Vec<i64>>, AllocError>
    ensures { IfOk result (λ some. IfSome some (λ v. vec_len v ≡ variables)) }
{
    let mut values = Vec::with_capacity(alloc, variables as usize)?;
    for var in 0..variables {
        match i64::try_from(model.value(var)) {
            Ok(value) => values.push(value)?,
            Err(_) => return Ok(None),
        }
    }
    Ok(Some(values))
}

// The state of these values, if all facts are true in it.
fn state_of(alloc: Global, list: &FactList, model: &Model) -> Result<Option<State>, AllocError>
    ensures { IfOk result (λ some. IfSome some (IsModel list.now)) }
{
    let values = match values_of(alloc, model, list.variables())? {
        Some(values) => values,
        None => return Ok(None),
    };
    let state = State::new(values);
    if is_model(alloc, list, &state)? {
        Ok(Some(state))
    } else {
        Ok(None)
    }
}

// Whether the state has a value for each variable, and all facts are true in it.
fn is_model(alloc: Global, list: &FactList, state: &State) -> Result<bool, AllocError>
    ensures { IfOk result (λ yes. IsTrue yes → IsModel list.now state.now) }
{
    state.values_fit();
    if state.as_slice().len() != list.variables() as usize {
        return Ok(false);
    }
    let values = Values::of(alloc, state)?;
    Ok(all_true(list.as_slice(), &values, NESTING_LIMIT))
}

// What a search among these facts claims. The choices are read where the inequalities do not tell
// enough by themselves.
fn claim_of(alloc: Global, list: &FactList, budget: u64) -> Result<Claim, AllocError> {
    let mut part = inequalities_of(alloc, list)?;
    match begin(alloc, &part, list.variables(), budget)? {
        Start::Claimed(claim) => Ok(claim),
        Start::Open(ground) => {
            read_choices(alloc, &mut part, list)?;
            search_among(alloc, &part, ground)
        }
    }
}

// The verdict on a condition with these facts, by a search and a check of what it claims.
fn examine_facts(alloc: Global, list: &FactList, budget: u64) -> Result<Verdict, AllocError>
    ensures { IfOk result (IsVerdictOn list.now) }
{
    match claim_of(alloc, list, budget)? {
        Claim::Closed(cert) => {
            if is_closing(alloc, list, &cert)? {
                return Ok(Verdict::True(cert));
            }
        }
        Claim::Values(model) => {
            if let Some(state) = state_of(alloc, list, &model)? {
                return Ok(Verdict::False(state));
            }
        }
        Claim::Nothing => {}
    }
    Ok(Verdict::Open)
}

/// The verdict of a search within the budget on the condition.
///
/// One step of the budget is one fact added, or one branch or part begun. The verdict is the same
/// each time.
///
/// # Errors
///
/// `AllocError` where an allocation was refused.
pub fn examine(alloc: Global, condition: &Condition, budget: u64) -> Result<Verdict, AllocError>
    ensures { IfOk result (IsVerdict (seen condition.now)) }
{
    match facts(alloc, condition) {
        Ok(list) => examine_facts(alloc, &list, budget),
        Err(FactsError::Memory) => Err(AllocError),
        Err(FactsError::Fault(_)) => Ok(Verdict::Open),
    }
}

// Whether a search finds a certificate like this one about as fast as it is carried over: one sum
// of few facts.
fn is_found_as_fast(list: &FactList, cert: &Cert) -> bool {
    let is_one_sum = cert.steps.is_empty() && matches!(cert.finish, Finish::Close(_));
    is_one_sum && list.as_slice().len() <= FEW_FACTS
}

// What the certificate of its leader gives for a condition with these facts, without a search: it is
// shared, or carried over to them, if it closes them.
fn follow_facts<'c>(
    alloc: Global,
    list: &FactList,
    leader: Leader<'_, 'c>,
    leaders: &mut Leaders<'c>,
) -> Result<Option<Followed>, AllocError>
    ensures { IfOk result (λ some. IfSome some
        (IsFollowedOn list.now (plain_cert leader.entry.cert.now))) }
{
    if is_closing(alloc, list, leader.cert)? {
        return Ok(Some(Followed::Shares));
    }
    if is_found_as_fast(list, leader.cert) {
        return Ok(None);
    }
    let Some(own) = leaders.carried(alloc, leader, list)? else {
        return Ok(None);
    };
    if is_closing(alloc, list, &own)? {
        return Ok(Some(Followed::Own(Verdict::True(own))));
    }
    Ok(None)
}

/// The verdict on a condition after the certificate of its leader, another condition, from which
/// it may differ in the names of variables alone: whether the same certificate is one of its own,
/// and else its verdict, by that certificate with variables exchanged, or by a search within the
/// budget. The facts of the leader are made where they are not among those of `leaders`, which has
/// those of other leaders under other numbers.
///
/// The answer is the same each time.
///
/// # Errors
///
/// `AllocError` where an allocation was refused.
pub fn follow<'c>(
    alloc: Global,
    condition: &Condition,
    leader: Leader<'_, 'c>,
    leaders: &mut Leaders<'c>,
    budget: u64,
) -> Result<Followed, AllocError>
    ensures { IfOk result (IsFollowed (seen condition.now) (plain_cert leader.entry.cert.now)) }
{
    match facts(alloc, condition) {
        Ok(list) => {
            if let Some(followed) = follow_facts(alloc, &list, leader, leaders)? {
                return Ok(followed);
            }
            Ok(Followed::Own(examine_facts(alloc, &list, budget)?))
        }
        Err(FactsError::Memory) => Err(AllocError),
        Err(FactsError::Fault(_)) => Ok(Followed::Own(Verdict::Open)),
    }
}

// Whether a check shows that the verdict is true of a condition with these facts.
fn is_verdict_on(alloc: Global, list: &FactList, verdict: &Verdict) -> Result<bool, AllocError>
    ensures { IfOk result (λ yes. IsTrue yes → IsVerdictOn list.now verdict.now) }
{
    match verdict {
        Verdict::True(cert) => is_closing(alloc, list, cert),
        Verdict::False(state) => is_model(alloc, list, state),
        Verdict::Open => Ok(true),
    }
}

/// Whether the verdict is true of the condition, as far as a check shows it: a replay of the
/// certificate, or the values of the facts in the state.
///
/// # Errors
///
/// `AllocError` where an allocation was refused.
pub fn is_verdict(
    alloc: Global,
    condition: &Condition,
    verdict: &Verdict,
) -> Result<bool, AllocError>
    ensures { IfOk result (λ yes. IsTrue yes → IsVerdict (seen condition.now) verdict.now) }
{
    match facts(alloc, condition) {
        Ok(list) => is_verdict_on(alloc, &list, verdict),
        Err(FactsError::Memory) => Err(AllocError),
        Err(FactsError::Fault(_)) => Ok(false),
    }
}

/// A certificate of the condition, if a search within the budget finds one: then the condition is
/// true in every state of `i64` values. None says nothing of the condition.
///
/// One step of the budget is one fact added, or one branch or part begun. The answer is the same
/// each time.
///
/// # Errors
///
/// `AllocError` where an allocation was refused.
pub fn find(alloc: Global, condition: &Condition, budget: u64) -> Result<Option<Cert>, AllocError>
    ensures certified { IfOk result (λ found.
        IfSome found (λ cert. Certifies (seen condition.now) (plain_cert cert))) }
    ensures valid { IfOk result (λ found. OnSome found (IsValid (seen condition.now))) }
{
    match examine(alloc, condition, budget)? {
        Verdict::True(cert) => Ok(Some(cert)),
        _ => Ok(None),
    }
}

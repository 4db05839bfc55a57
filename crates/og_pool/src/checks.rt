//! The statuses of conditions, found by workers.

ghost use Rattle.std.specs.Prelude.{◌≡◌, ◌^◌, ◌<◌, ◌≤◌, ◌-◌, ◌+◌, ◌↔◌, ℕ, length, IfOk, IfErr, IfSome, IsTrue, Some, Ok, slice_get, vec_len};
ghost use Rattle.std.specs.List.{All};
ghost use Rattle.og_cond.specs.Seen.{seen};
ghost use Rattle.og_facts.specs.Answer.{IsFacts, IsPrepared};
ghost use Rattle.og_cert_text.specs.Files.{certificate_of};
ghost use Rattle.og_cert_text.specs.Plain.{plain_cert};
ghost use Rattle.og_cert_text.specs.Shown.{shown};
ghost use Rattle.og_cert.specs.Faults.{first_fault};
ghost use Rattle.og_pool.specs.Kept.{IsLast, IsOfEqual, KeepsMap, IsKnown, Keeps};
ghost use Rattle.og_pool.specs.Status.{by_fault};
ghost use Rattle.og_pool.specs.Numbered.{status_of};
ghost use Rattle.og_pool.specs.declared.fault.PoolFault.TheVariants.{Spawn};

use crate::fault::PoolFault;
use crate::gate::Gate;
use crate::marks::mark_with_facts;
use crate::replays::{Replayed, remember, with_mark};
use crate::status::Status;
use crate::{Numbered, answers};
use og_cert::{ReplayError, replay};
use og_cert_text::{Cert, CertFile, Finish};
use og_cond::Condition;
use og_facts::{FactList, FactsError, facts, facts_with, has_few_facts};
use og_linear::FormError;
use og_subst::{Action, ActionMap};
use std::alloc::{AllocError, Global};
use std::sync::Wait;
use std::thread::Threads;

/// The map of the action of a condition that a worker looked at before.
#[derive(Drop)]
pub(crate) struct Last {
    index: usize,
    map: ActionMap,
}

/// What a worker keeps from one condition to the next.
#[derive(Drop)]
pub(crate) struct Kept {
    last: Option<Last>,
    replays: Vec<Replayed>,
}

// The texts that the workers read, and the gate that hears of them.
#[derive(Clone, Copy)]
struct Checks<'a, 'c, G> {
    alloc: Global,
    conditions: &'a [Condition<'c>],
    certs: &'a CertFile,
    gate: &'a G,
}

// The status by the certificate's replay.
fn replayed(alloc: Global, list: &FactList, cert: &Cert) -> Result<Status, AllocError>
    ensures { IfOk result (λ s.
        s ≡ by_fault (first_fault list.now.variables list.now.facts (plain_cert cert.now))) }
{
    match replay(alloc, list, cert) {
        Ok(()) => Ok(Status::Proved),
        Err(ReplayError::Memory) => Err(AllocError),
        Err(ReplayError::Fault(fault)) => Ok(Status::Failed(fault)),
    }
}

// Whether a replay takes no longer than a look for an earlier one: of one line, with no more terms
// than there are facts.
fn is_short(cert: &Cert, facts: usize) -> bool {
    let is_short_line = matches!(&cert.finish, Finish::Close(terms) if terms.len() <= facts);
    cert.steps.is_empty() && is_short_line
}

// The answer where the map of the action could not be made. A map that does not fit is reported
// in its turn: where there are too many facts, that is the fault.
fn unprepared<'c>(
    alloc: Global,
    condition: &Condition<'c>,
    error: FormError,
) -> Result<FactList<'c>, FactsError>
    ensures { IsFacts (seen condition.now) result }
{
    if error == FormError::Memory && has_few_facts(condition) {
        return Err(FactsError::Memory);
    }
    facts(alloc, condition)
}

impl<'a, 'c, G> Checks<'a, 'c, G> {
    // Whether the map that is kept is that of an action equal to this one.
    fn serves(&self, last: &Last, action: &Action) -> bool
        requires { IsLast self.now.conditions.now last.now }
        ensures exact { IsTrue result ↔ IsOfEqual self.now.conditions.now last.now.index action.now }
        ensures map { IsTrue result → IsPrepared (Some action.now) last.now.map }
    {
        match &self.conditions[last.index].action {
            Some(before) => before.equals(action),
            None => false,
        }
    }

    // The facts of the condition at this index. The map that is made for them is kept.
    fn facts(
        &self,
        alloc: Global,
        index: usize,
        last: &mut Option<Last>,
    ) -> Result<FactList<'c>, FactsError>
        requires within { index < length self.now.conditions.now }
        requires keeps { KeepsMap self.now.conditions.now last.old }
        ensures facts { (c : _) → slice_get self.now.conditions.now index ≡ Some c
            → IsFacts (seen c) result }
        ensures keeps { KeepsMap self.now.conditions.now last.new }
    {
        let condition = &self.conditions[index];
        let Some(action) = &condition.action else {
            return facts(alloc, condition);
        };
        if let Some(kept) = last {
            if self.serves(kept, action) {
                return facts_with(alloc, condition, &kept.map);
            }
        }
        let map = match action.prepare(alloc) {
            Ok(map) => map,
            Err(error) => return unprepared(alloc, condition, error),
        };
        let list = facts_with(alloc, condition, &map);
        *last = Some(Last { index, map });
        list
    }

    // The mark of the condition's certificate, by its place, and of these facts.
    fn mark(&self, number: u32, list: &FactList) -> u64 {
        let place = self.certs.kept_at(number).unwrap_or(usize::MAX);
        mark_with_facts(place as u64, list.as_slice())
    }

    // Whether two conditions, the first of which has these facts, are seen to have one certificate
    // and equal facts.
    fn is_like(
        &self,
        alloc: Global,
        number: u32,
        list: &FactList,
        other: u32,
    ) -> Result<bool, AllocError>
        requires within { (0 < number) × (number ≤ length self.now.conditions.now) }
        requires other { (0 < other) × (other ≤ length self.now.conditions.now) }
        requires facts { (c : _) → slice_get self.now.conditions.now (number - 1) ≡ Some c
            → IsFacts (seen c) (Ok list.now) }
        ensures { IfOk result (λ yes. IsTrue yes → status_of self.now.conditions.now
            self.now.certs.now other ≡ status_of self.now.conditions.now self.now.certs.now number) }
    {
        let places = (self.certs.kept_at(number), self.certs.kept_at(other));
        let (Some(place), Some(of_other)) = places else {
            return Ok(false);
        };
        if place != of_other {
            return Ok(false);
        }
        match facts(alloc, &self.conditions[other as usize - 1]) {
            Ok(others) => Ok(list.equals(&others)),
            Err(FactsError::Fault(_)) => Ok(false),
            Err(FactsError::Memory) => Err(AllocError),
        }
    }

    // The status of the condition with these facts where it is that of one of these replays.
    fn known(
        &self,
        alloc: Global,
        number: u32,
        list: &FactList,
        mark: u64,
        replays: &[Replayed],
    ) -> Result<Option<Status>, AllocError>
        requires within { (0 < number) × (number ≤ length self.now.conditions.now) }
        requires facts { (c : _) → slice_get self.now.conditions.now (number - 1) ≡ Some c
            → IsFacts (seen c) (Ok list.now) }
        requires keeps { All (IsKnown self.now.conditions.now self.now.certs.now) replays.now }
        ensures { IfOk result (λ some.
            IfSome some (λ s. s ≡ status_of self.now.conditions.now self.now.certs.now number)) }
    {
        let Some(replayed) = with_mark(replays, mark) else {
            return Ok(None);
        };
        if self.is_like(alloc, number, list, replayed.number)? {
            return Ok(Some(replayed.status));
        }
        Ok(None)
    }

    // The status of the condition with these facts and this certificate. What came of a replay is
    // remembered where others have the certificate too.
    fn replayed_once(
        &self,
        alloc: Global,
        number: u32,
        list: &FactList,
        cert: &Cert,
        replays: &mut Vec<Replayed>,
    ) -> Result<Status, AllocError>
        requires within { (0 < number) × (number ≤ length self.now.conditions.now) }
        requires facts { (c : _) → slice_get self.now.conditions.now (number - 1) ≡ Some c
            → IsFacts (seen c) (Ok list.now) }
        requires cert { certificate_of number (shown self.now.certs.now)
            ≡ Some (plain_cert cert.now) }
        requires keeps { All (IsKnown self.now.conditions.now self.now.certs.now) replays.old.items }
        ensures status { IfOk result (λ s.
            s ≡ status_of self.now.conditions.now self.now.certs.now number) }
        ensures keeps { All (IsKnown self.now.conditions.now self.now.certs.now) replays.new.items }
    {
        if is_short(cert, list.as_slice().len()) || !self.certs.has_shared() {
            return replayed(alloc, list, cert);
        }
        let mark = self.mark(number, list);
        if let Some(status) = self.known(alloc, number, list, mark, replays)? {
            return Ok(status);
        }
        let status = replayed(alloc, list, cert)?;
        let latest = Replayed {
            number,
            mark,
            status,
        };
        remember(replays, latest)?;
        Ok(status)
    }

    // The status of a condition, counted from 1.
    fn status(&self, alloc: Global, number: u32, kept: &mut Kept) -> Result<Status, AllocError>
        requires within { (0 < number) × (number ≤ length self.now.conditions.now) }
        requires keeps { Keeps self.now.conditions.now self.now.certs.now kept.old }
        ensures status { IfOk result (λ s.
            s ≡ status_of self.now.conditions.now self.now.certs.now number) }
        ensures keeps { Keeps self.now.conditions.now self.now.certs.now kept.new }
    {
        let Some(cert) = self.certs.certificate(number) else {
            return Ok(Status::Missing);
        };
        match self.facts(alloc, number as usize - 1, &mut kept.last) {
            Ok(list) => self.replayed_once(alloc, number, &list, cert, &mut kept.replays),
            Err(FactsError::Fault(_)) => Ok(Status::TooLarge),
            Err(FactsError::Memory) => Err(AllocError),
        }
    }
}

impl<'a, 'c, G: Gate> Numbered for Checks<'a, 'c, G> {
    ghost use Rattle.std.specs.Prelude.{◌≡◌, length};
    ghost use Rattle.og_pool.specs.Kept.{Keeps};
    ghost use Rattle.og_pool.specs.Numbered.{status_of};

    type Answer = Status;

    type Kept = Kept;

    ghost count = { λ c. length c.conditions.now };

    ghost may_answer = { λ c n s. s ≡ status_of c.conditions.now c.certs.now n };

    ghost keeps = { λ c kept. Keeps c.conditions.now c.certs.now kept };

    fn kept(&self) -> Kept {
        Kept {
            last: None,
            replays: Vec::new(self.alloc),
        }
    }

    fn answer(&self, alloc: Global, number: u32, kept: &mut Kept) -> Result<Status, AllocError> {
        self.gate.before(number);
        let status = self.status(alloc, number, kept)?;
        self.gate.after(number);
        Ok(status)
    }
}

/// The status of each condition, in their order, found by this many workers. It is the same for
/// every number of workers: a function of the condition and of its certificate. Of conditions that
/// have one certificate and equal facts a worker replays it over those of the first, as long as it
/// remembers what came of that.
///
/// The workers draw the conditions one after another, each in a thread of its own; the calling
/// thread is one of them. `begin` hears how many conditions there are, `before(n)` comes before
/// condition n is looked at, `after(n)` when its status is known.
///
/// # Errors
///
/// `Spawn`, of two workers or more, where a thread could not be started; those that were started
/// have ended by then. `Memory` where an allocation was refused.
pub fn check_all<G: Gate, R: Threads + Wait + Sync>(
    rt: &R,
    alloc: Global,
    conditions: &[Condition],
    certs: &CertFile,
    workers: u32,
    gate: &G,
) -> Result<Vec<Status>, PoolFault>
    requires workers { (0 < workers) × (workers ≤ 64) }
    requires few { length conditions.now < 2 ^ 32 }
    ensures statuses { IfOk result (λ v. (vec_len v ≡ length conditions.now)
        × ((i : ℕ) → i < length conditions.now → slice_get v.items i ≡ Some (status_of conditions.now certs.now (i + 1)))) }
    ensures spawn { IfErr result (λ e. e ≡ Spawn → 1 < workers) }
{
    let checks = Checks {
        alloc,
        conditions,
        certs,
        gate,
    };
    let count = conditions.len() as u32;
    gate.begin(count);
    let statuses = answers(rt, alloc, &checks, count, workers)?;
    Ok(statuses)
}

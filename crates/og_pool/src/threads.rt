//! One thread for each part, started one after another by the thread that calls.

ghost use Rattle.std.specs.Prelude.{◌≡◌, ◌+◌, ◌<◌, ◌≤◌, ◌⊎◌, [], ◌∷◌, ◌++◌, Ok, Err, IfOk, IfErr, OnOk, vec_len, vec_capacity};
ghost use Rattle.std.specs.List.{All, AllZip};
ghost use Rattle.og_pool.specs.declared.thread_fault.ThreadFault.TheVariants.{Memory, Spawn};

use crate::job::Job;
use crate::thread_fault::ThreadFault;
use std::alloc::Global;
use std::snapshot::Snapshot;
use std::sync::Wait;
use std::thread;
use std::thread::{Promise, PromisedHandle, Scope, Threads};

// What the thread of a part owes.
#[derive(Drop)]
struct Owed<J: Job> {
    job: Snapshot<J>,
    part: Snapshot<J::Part>,
}

impl<J: Job> Promise<Result<J::Gain, ThreadFault>> for Owed<J> {
    ghost use Rattle.std.specs.Prelude.{IfOk, IfErr};

    ghost kept_by = { λ p r. IfOk r (J.owes p.job.value p.part.value) × IfErr r J.fails };
}

// Starts a thread for each part, one after another.
fn start_all<'s, E, J: Job, R: Threads + Wait + Sync>(
    scope: &'s Scope<'s, E>,
    rt: &'s R,
    job: &'s J,
    parts: Vec<J::Part>,
    handles: &mut Vec<PromisedHandle<Result<J::Gain, ThreadFault>, Owed<J>>>,
) -> Result<(), ThreadFault>
    requires can { All (J.can job.now) parts.items }
    requires empty { handles.old.items ≡ [] }
    requires room { vec_len parts ≤ vec_capacity handles.old }
    ensures started { OnOk result (AllZip (λ p h. (h.promise.job.value ≡ job.now)
        × (h.promise.part.value ≡ p)) parts.items handles.new.items) }
    ensures refused { IfErr result (λ e. (e ≡ Spawn) × (0 < vec_len parts)) }
{
    for part in parts {
        let owed = Owed {
            job: Snapshot::of(job),
            part: Snapshot::of(&part),
        };
        let started = scope.spawn_with(
            owed,
            move || -> Result<J::Gain, ThreadFault>
                requires { J.can job.now part }
                ensures { IfOk result (J.owes job.entry.now part) × IfErr result J.fails }
            { job.work(rt, part) },
        );
        let Ok(handle) = started else {
            return Err(ThreadFault::Spawn);
        };
        let Ok(()) = handles.push(handle) else {
            unreachable!()
        };
    }
    Ok(())
}

// Adds the gain of one part more.
fn add<G: Drop>(gains: &mut Vec<G>, gain: Result<G, ThreadFault>) -> Result<(), ThreadFault>
    ensures gain { OnOk result ((x : G) × (gain ≡ Ok x)
        × (gains.new.items ≡ gains.old.items ++ x ∷ [])) }
    ensures fault { IfErr result (λ e. (e ≡ Memory) ⊎ (gain ≡ Err e)) }
{
    gains.push(gain?)?;
    Ok(())
}

// Joins all threads. The fault is the first one, in the order of the parts.
fn join_all<J: Job, R: Threads>(
    rt: &R,
    handles: Vec<PromisedHandle<Result<J::Gain, ThreadFault>, Owed<J>>>,
    gains: &mut Vec<J::Gain>,
) -> Result<(), ThreadFault>
    requires { gains.old.items ≡ [] }
    ensures gains { OnOk result (AllZip (λ h g. J.owes h.promise.job.value h.promise.part.value g)
        handles.items gains.new.items) }
    ensures fault { IfErr result (λ e. (e ≡ Memory) ⊎ J.fails e) }
{
    let mut outcome = Ok(());
    for handle in handles {
        let gain = handle.join(rt);
        if outcome.is_ok() {
            outcome = add(gains, gain);
        }
    }
    outcome
}

/// Does each part in a thread of its own, but the last one in the calling thread, which starts all
/// others one after another. All have ended when it returns. The gains are in the order of the
/// parts.
///
/// # Errors
///
/// `Spawn` where a thread could not be started: the job was asked to give up, and the last part was
/// not begun. So it comes of two parts or more. Else the first fault of a part, in their order; or
/// `Memory` where an allocation was refused: then no part was begun.
pub fn in_threads<J: Job, R: Threads + Wait + Sync>(
    rt: &R,
    alloc: Global,
    job: &J,
    mut parts: Vec<J::Part>,
) -> Result<Vec<J::Gain>, ThreadFault>
    requires { All (J.can job.now) parts.items }
    ensures gains { IfOk result (λ gains. AllZip (J.owes job.now) parts.items gains.items) }
    ensures fault { IfErr result
        (λ e. (e ≡ Memory) ⊎ ((e ≡ Spawn) × (1 < vec_len parts)) ⊎ J.fails e) }
{
    let mut gains = Vec::with_capacity(alloc, parts.len())?;
    let mut handles = Vec::with_capacity(alloc, parts.len())?;
    let Some(mine) = parts.pop() else {
        return Ok(gains);
    };
    thread::scope(
        thread::scope_env(),
        rt,
        |scope| -> Result<Vec<J::Gain>, ThreadFault>
            requires { All (J.can job.now) parts.items × J.can job.now mine × (handles.items ≡ [])
                × (gains.items ≡ []) × (vec_len parts ≤ vec_capacity handles) }
            ensures { IfOk result (λ gains. AllZip (J.owes job.entry.now) (parts.items ++ mine ∷ []) gains.items)
                × IfErr result (λ e. (e ≡ Memory) ⊎ ((e ≡ Spawn) × (0 < vec_len parts)) ⊎ J.fails e) }
        {
            if let Err(fault) = start_all(scope, rt, job, parts, &mut handles) {
                job.give_up(rt);
                let _ = join_all(rt, handles, &mut gains);
                return Err(fault);
            }
            let last = job.work(rt, mine);
            join_all(rt, handles, &mut gains)?;
            add(&mut gains, last)?;
            Ok(gains)
        },
    )
}

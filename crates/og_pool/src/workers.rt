//! Workers that draw tasks, each in a thread.

ghost use Rattle.std.specs.Prelude.{◌≡◌, ℕ, ◌<◌, ◌≤◌, [], IfOk, IfErr, vec_len};
ghost use Rattle.std.specs.List.{All};
ghost use Rattle.og_pool.specs.Answers.{AreAnswers};
ghost use Rattle.og_pool.specs.Drawing.{IsOne};
ghost use Rattle.og_pool.specs.TaskAnswers.{PartDone};
ghost use Rattle.og_pool.specs.declared.thread_fault.ThreadFault.TheVariants.{Spawn};

use crate::answered::{TaskAnswer, in_order};
use crate::draws::{Drawer, Draws};
use crate::numbered::Numbered;
use crate::{Job, ThreadFault, in_threads};
use std::alloc::{AllocError, Global};
use std::sync::Wait;
use std::thread::Threads;

// What the workers share. Each draws until nothing is left.
#[derive(Clone, Copy)]
struct Workers<'a, N> {
    alloc: Global,
    tasks: &'a N,
    draws: &'a Draws,
}

impl<'a, N: Numbered> Job for Workers<'a, N> {
    ghost use Rattle.std.specs.Prelude.{◌≡◌};
    ghost use Rattle.og_pool.specs.Drawing.{IsOne};
    ghost use Rattle.og_pool.specs.TaskAnswers.{PartDone};
    ghost use Rattle.og_pool.specs.declared.thread_fault.ThreadFault.TheVariants.{Memory};

    type Part = Drawer;

    type Gain = (Drawer, Vec<TaskAnswer<N::Answer>>);

    ghost can = { λ w d. IsOne w.draws.now d × (w.draws.now.count ≡ N.count w.tasks.now) };

    ghost owes = { λ w _ r. PartDone w.draws.now 1 (N.may_answer w.tasks.now) r.0 r.1.items };

    ghost fails = { λ e. e ≡ Memory };

    fn work<R: Wait>(
        &self,
        _rt: &R,
        mut drawer: Drawer,
    ) -> Result<(Drawer, Vec<TaskAnswer<N::Answer>>), ThreadFault> {
        let mut answered = Vec::new(self.alloc);
        let mut kept = self.tasks.kept();
        while let Some(number) = self.draws.draw(&mut drawer) {
            let answer = self.tasks.answer(self.alloc, number, &mut kept)?;
            answered.push(TaskAnswer { number, answer })?;
        }
        Ok((drawer, answered))
    }

    fn give_up<R: Wait>(&self, _rt: &R) {}
}

impl<'a, N: Numbered> Workers<'a, N> {
    // The numbers that all workers drew and their answers, together.
    fn together(
        &self,
        mut gains: Vec<(Drawer, Vec<TaskAnswer<N::Answer>>)>,
    ) -> Result<(Drawer, Vec<TaskAnswer<N::Answer>>), AllocError>
        requires some { 0 < vec_len gains }
        requires each { All (λ r. PartDone self.now.draws.now 1 (N.may_answer self.now.tasks.now)
            r.0 r.1.items) gains.items }
        ensures { IfOk result (λ r. PartDone self.now.draws.now (vec_len gains)
            (N.may_answer self.now.tasks.now) r.0 r.1.items) }
    {
        let Some((mut drawer, mut answered)) = gains.pop() else {
            unreachable!()
        };
        while let Some((other, mut more)) = gains.pop() {
            self.draws.join(&mut drawer, other);
            answered.append(&mut more)?;
        }
        Ok((drawer, answered))
    }

    // Each worker draws until nothing is left, in a thread of its own but one.
    fn draw_all<R: Threads + Wait + Sync>(
        &self,
        rt: &R,
        drawers: Vec<Drawer>,
    ) -> Result<(Drawer, Vec<TaskAnswer<N::Answer>>), ThreadFault>
        requires some { 0 < vec_len drawers }
        requires each { All (IsOne self.now.draws.now) drawers.items }
        requires count { self.now.draws.now.count ≡ N.count self.now.tasks.now }
        ensures done { IfOk result (λ r. PartDone self.now.draws.now (vec_len drawers)
            (N.may_answer self.now.tasks.now) r.0 r.1.items) }
        ensures spawn { IfErr result (λ e. e ≡ Spawn → 1 < vec_len drawers) }
    {
        let gains = in_threads(rt, self.alloc, self, drawers)?;
        Ok(self.together(gains)?)
    }
}

/// The answer of each task, in their order, found by this many workers. `count` is how many tasks
/// there are.
///
/// The workers draw the tasks one after another, each in a thread of its own; the calling thread is
/// one of them. So where a task may have one answer alone, the answers are the same for every
/// number of workers.
///
/// # Errors
///
/// `Spawn`, of two workers or more, where a thread could not be started; those that were started
/// have ended by then. `Memory` where an allocation was refused.
pub fn answers<N: Numbered, R: Threads + Wait + Sync>(
    rt: &R,
    alloc: Global,
    tasks: &N,
    count: u32,
    workers: u32,
) -> Result<Vec<N::Answer>, ThreadFault>
    requires workers { (0 < workers) × (workers ≤ 64) }
    requires count { count ≡ N.count tasks.now }
    ensures answers { IfOk result (λ v. AreAnswers count (N.may_answer tasks.now) v.items) }
    ensures spawn { IfErr result (λ e. e ≡ Spawn → 1 < workers) }
{
    let (draws, drawer) = Draws::new(alloc, count, workers)?;
    let drawers = draws.one_each(alloc, drawer, workers)?;
    let shared = Workers {
        alloc,
        tasks,
        draws: &draws,
    };
    let (drawer, answered) = shared.draw_all(rt, drawers)?;
    draws.close(drawer);
    Ok(in_order(alloc, tasks, answered, count)?)
}

//! The threads that do tasks.

ghost use Rattle.std.specs.Prelude.{◌≡◌, ◌<◌, ◌≤◌};

use og_pool::{Numbered, PoolFault, answers};
use std::alloc::{AllocError, Global};
use std::sync::Wait;
use std::sync::atomic::{AtomicU64, Ordering};
use std::thread::Threads;

/// The most threads that do tasks.
const MOST: u32 = 64;

/// How many tasks each of several threads may find that are not wanted yet.
const TASKS_A_THREAD: usize = 8;

/// The threads that do tasks, and how many they may be.
#[derive(Clone, Copy)]
pub struct Pool<'r, R> {
    pub rt: &'r R,
    pub alloc: Global,
    pub count: u32,
}

/// The number of these tasks, where it is a `u32`.
pub fn count_of(tasks: usize) -> u32 {
    u32::try_from(tasks).unwrap_or(0)
}

/// Tells a task whether anyone waits for its answer.
#[derive(Clone, Copy)]
pub struct Watch<'w> {
    is_wanted: bool,
    wanted: u64,
    done: &'w AtomicU64,
}

impl Watch<'_> {
    /// Whether nobody does: it is not wanted, and all that are wanted are done.
    pub fn is_over(&self) -> bool {
        !self.is_wanted && self.done.load(Ordering::SeqCst) >= self.wanted
    }
}

/// Tasks that are numbered from 1, and may be given up where nobody waits for their answers.
pub trait Early: Sync {
    ghost use Rattle.std.specs.Prelude.{ℕ, ◌<◌, ◌≤◌};

    /// The answer to a task.
    type Answer: Send + Drop;

    /// How many tasks there are.
    ghost count: { Self → ℕ };

    /// The answer to a task; none where it was given up.
    fn answer(
        &self,
        alloc: Global,
        number: u32,
        watch: Watch<'_>,
    ) -> Result<Option<Self::Answer>, AllocError>
        requires { (0 < number) × (number ≤ count self.now) };
}

// Tasks of which the first ones are wanted, and how many of these are done.
#[derive(Drop)]
struct Ahead<'t, N> {
    tasks: &'t N,
    wanted: u32,
    done: AtomicU64,
}

impl<'t, N: Early> Numbered for Ahead<'t, N> {
    ghost use Rattle.std.specs.Prelude.{⊤};

    type Answer = Option<N::Answer>;

    type Kept = ();

    ghost count = { λ t. N.count t.tasks.now };

    ghost may_answer = { λ _ _ _. ⊤ };

    ghost keeps = { λ _ _. ⊤ };

    fn kept(&self) {}

    fn answer(
        &self,
        alloc: Global,
        number: u32,
        _kept: &mut (),
    ) -> Result<Option<N::Answer>, AllocError> {
        let watch = Watch {
            is_wanted: number <= self.wanted,
            wanted: u64::from(self.wanted),
            done: &self.done,
        };
        if watch.is_over() {
            return Ok(None);
        }
        let answer = self.tasks.answer(alloc, number, watch)?;
        if watch.is_wanted {
            self.done.fetch_add(1, Ordering::SeqCst);
        }
        Ok(answer)
    }
}

impl<'r, R: Threads + Wait + Sync> Pool<'r, R> {
    /// How many tasks are looked at before they are wanted, so that no thread is without one: none
    /// where one thread does all.
    pub fn ahead(&self) -> usize {
        match self.count.min(MOST) {
            0 | 1 => 0,
            count => count as usize * TASKS_A_THREAD,
        }
    }

    /// How many threads there are at most.
    pub fn threads(&self) -> usize
        ensures { 0 < result }
    {
        self.count.clamp(1, MOST) as usize
    }

    // How many threads do so many tasks.
    fn workers(&self, count: u32) -> u32
        ensures { (0 < result) × (result ≤ 64) }
    {
        self.count.min(count).clamp(1, MOST)
    }

    /// The answer of each task, in their order. There are no more threads than tasks.
    ///
    /// # Errors
    ///
    /// As `og_pool::answers`.
    pub fn answers<N: Numbered>(&self, tasks: &N, count: u32) -> Result<Vec<N::Answer>, PoolFault>
        requires { count ≡ N.count tasks.now }
    {
        let workers = self.workers(count);
        let all = answers(self.rt, self.alloc, tasks, count, workers)?;
        Ok(all)
    }

    /// The answers of tasks of which the first ones are wanted, in their order. The others are given
    /// up once those are done, and have no answer then.
    ///
    /// # Errors
    ///
    /// As `og_pool::answers`.
    pub fn answers_ahead<N: Early>(
        &self,
        tasks: &N,
        wanted: u32,
        count: u32,
    ) -> Result<Vec<Option<N::Answer>>, PoolFault>
        requires { count ≡ N.count tasks.now }
    {
        let ahead = Ahead {
            tasks,
            wanted,
            done: AtomicU64::new(0),
        };
        self.answers(&ahead, count)
    }
}

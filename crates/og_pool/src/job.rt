//! Work that several threads share.

use crate::thread_fault::ThreadFault;
use std::sync::Wait;

/// Work that several threads share: each does a part of it, and has a gain.
pub trait Job: Sync {
    ghost use Rattle.std.specs.Prelude.{IfOk, IfErr};
    ghost use Rattle.og_pool.specs.declared.thread_fault.ThreadFault.{ThreadFault};

    type Part: Send + Drop;

    type Gain: Send + Drop;

    /// The parts that can be done.
    ghost can: { Self → Self.Part → Type 0 };

    /// The gain owed for a part.
    ghost owes: { Self → Self.Part → Self.Gain → Type 0 };

    /// The faults with which a part may end.
    ghost fails: { ThreadFault → Type 0 };

    /// Does a part.
    fn work<R: Wait>(&self, rt: &R, part: Self::Part) -> Result<Self::Gain, ThreadFault>
        requires { can self.now part }
        ensures gain { IfOk result (owes self.now part) }
        ensures fault { IfErr result fails };

    /// A thread could not be started: what waits for it is to end.
    fn give_up<R: Wait>(&self, rt: &R);
}

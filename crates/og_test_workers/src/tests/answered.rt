//! The printed text of runs whose gates say which process goes first.

use crate::tests::gates::Holds;
use og_command_run::{Ran, Reply, Runner, ran, ran_proved};
use og_io::RunLimit;
use og_run::Gate;
use og_test_samples::{AUXILIARY_ADD, TWO_ADD, TWO_ADD_CERTS};
use og_typed::Source;
use std::alloc::Global;
use std::process::Abort;
use std::sync::Wait;
use std::test::Fail;
use std::thread::Threads;

#[derive(Clone, Copy)]
enum Mode {
    Plain,
    // Of the outline that certificates prove.
    Proved,
    // Without its auxiliaries.
    Erased,
}

// A reply is this text, of a run that finished.
fn expect_answer<R: Abort>(rt: &R, reply: Reply<'_>, text: &str) {
    match reply {
        Reply::Ran(Ran { answer, note: _ }) => {
            assert!(rt;
                answer.text.as_slice() == text.as_bytes() && answer.status == 0,
                "{text}"
            );
        }
        Reply::BadValue(word) => panic!(rt; "bad value: {word}"),
        Reply::NotMade(_) => panic!(rt; "{text}"),
    }
}

// A run under a gate calls it so.
fn expect_run<G: Gate, R: Threads + Wait + Sync + Abort>(
    rt: &R,
    alloc: Global,
    mode: Mode,
    gate: &G,
    text: &str,
) -> Result<(), Fail> {
    let limit = RunLimit::new(10).expect(rt, "within its limit");
    let runner = Runner {
        rt,
        alloc,
        limit,
        gate,
    };
    let two = Source::read(alloc, TWO_ADD.as_bytes())?;
    let auxiliary = Source::read(alloc, AUXILIARY_ADD.as_bytes())?;
    let certs = TWO_ADD_CERTS.as_bytes();
    let reply = match mode {
        Mode::Plain => ran(&runner, &two, &["x=0"], false)?,
        Mode::Proved => ran_proved(&runner, &two, certs, &["x=0"])?,
        Mode::Erased => ran(&runner, &auxiliary, &[], true)?,
    };
    expect_answer(rt, reply, text);
    Ok(())
}

const FIRST: &str = "history: 1 2\noutcome: finished\nstate: x = 3\n";

const SECOND: &str = "history: 2 1\noutcome: finished\nstate: x = 3\n";

const ERASED: &str = "history: 2 1\noutcome: finished\nstate: x = 2\n";

// Either process goes first, as the caller's gate says.
#[test]
fn runs_ask_their_gate(rt: HostRuntime) -> Result<(), Fail> {
    for (mode, held, first, text) in [
        (Mode::Plain, 1, 2, SECOND),
        (Mode::Plain, 2, 1, FIRST),
        (Mode::Proved, 1, 2, SECOND),
        (Mode::Proved, 2, 1, FIRST),
        (Mode::Erased, 1, 2, ERASED),
    ] {
        let gate = Holds::new(held, Some(first), 1);
        expect_run(&rt, rt.alloc(), mode, &gate, text)?;
        assert!(rt; !gate.has_missed());
    }
    Ok(())
}

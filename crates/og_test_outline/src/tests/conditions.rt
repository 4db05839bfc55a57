//! The room that a list of conditions takes.

use og_cond::conditions;
use og_test_samples::{equal_processes, outline_of};
use og_typed::Outline;
use std::alloc::Global;
use std::process::Abort;
use std::test::Fail;

fn expect_little_room<R: Abort>(rt: &R, alloc: Global, outline: &Outline) -> Result<(), Fail> {
    let list = conditions(alloc, outline)?;
    assert!(rt; list.len() == 132 && list.capacity() <= 264);
    drop(list);
    Ok(())
}

// A short list takes no more room than twice its length.
#[test]
fn room_of_a_list(rt: HostRuntime) -> Result<(), Fail> {
    let process = "{true} skip {true}\n";
    let source = equal_processes(
        rt.alloc(),
        "{true}\ncobegin\n",
        process,
        64,
        "coend\n{true}\n",
    )?;
    let outline = outline_of(rt.alloc(), source.as_str())?;
    let result = expect_little_room(&rt, rt.alloc(), &outline);
    drop(outline);
    result
}

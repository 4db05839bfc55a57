//! Judgements, and their texts.

use og_judge::{Judgement, Refusal, judge};
use og_pool::OpenGate;
use og_report::{json, text};
use og_test_samples::{SKIP_AND_ASSIGN, SKIP_AND_ASSIGN_CERTS, TWO_ADD, TWO_ADD_CERTS};
use std::alloc::Global;
use std::sync::Wait;
use std::thread::Threads;

// The judgement of two workers.
fn judged<R: Threads + Wait + Sync>(
    rt: &R,
    alloc: Global,
    source: &str,
    certs: &str,
) -> Result<Judgement, Refusal> {
    judge(rt, alloc, source.as_bytes(), certs.as_bytes(), 2, &OpenGate)
}

pub(crate) fn is_judged<R: Threads + Wait + Sync>(rt: &R, alloc: Global) -> Result<bool, Refusal> {
    let judgement = judged(rt, alloc, TWO_ADD, TWO_ADD_CERTS)?;
    Ok(judgement.safe() && judgement.unblocked() && judgement.entries().len() == 12)
}

const REPORT: &str = "4:1: condition 6 interfere with 6:8: missing
4:14: condition 7 interfere with 6:8: missing
conditions: 9
proved: 7
safe: no
unblocked: yes
";

const JSON: &str = concat!(
    r#"{"conditions":9,"proved":7,"safe":false,"unblocked":true,"unproved":["#,
    r#"{"action_column":8,"action_line":6,"column":1,"condition":6,"kind":"interfere","line":4,"status":"missing"},"#,
    r#"{"action_column":8,"action_line":6,"column":14,"condition":7,"kind":"interfere","line":4,"status":"missing"}]}"#,
);

pub(crate) fn is_summed_up<R: Threads + Wait + Sync>(
    rt: &R,
    alloc: Global,
) -> Result<bool, Refusal> {
    let source = SKIP_AND_ASSIGN;
    let judgement = judged(rt, alloc, source, SKIP_AND_ASSIGN_CERTS)?;
    let report = text(alloc, &judgement, source.as_bytes())?;
    let members = json(alloc, &judgement, source.as_bytes())?;
    Ok(report.as_slice() == REPORT.as_bytes() && members.as_slice() == JSON.as_bytes())
}

//! Words as jobs.

use og_words::read_words;
use std::alloc::{AllocError, Global};
use std::test::Fail;

// Lines, and the jobs that they ask for.
const JOBS: &[(&str, &str)] = &[
    ("", "Joined"),
    (
        "prove a",
        "Prove(Prove { source: \"a\", budget: Budget { facts: 100000 }, workers: Workers { count: 1 }, json: false, words: [], runs: Some(MomentLimit { moments: 100000 }), suggest: false })",
    ),
    (
        "prove - --budget 1 --workers 64 --json",
        "Prove(Prove { source: \"-\", budget: Budget { facts: 1 }, workers: Workers { count: 64 }, json: true, words: [], runs: Some(MomentLimit { moments: 100000 }), suggest: false })",
    ),
    (
        "prove --json --workers 2 --budget 1000000000 a",
        "Prove(Prove { source: \"a\", budget: Budget { facts: 1000000000 }, workers: Workers { count: 2 }, json: true, words: [], runs: Some(MomentLimit { moments: 100000 }), suggest: false })",
    ),
    (
        "prove a b",
        "Prove(Prove { source: \"a\", budget: Budget { facts: 100000 }, workers: Workers { count: 1 }, json: false, words: [\"b\"], runs: Some(MomentLimit { moments: 100000 }), suggest: false })",
    ),
    (
        "prove a N=3 M=-2 --budget 7",
        "Prove(Prove { source: \"a\", budget: Budget { facts: 7 }, workers: Workers { count: 1 }, json: false, words: [\"N=3\", \"M=-2\"], runs: Some(MomentLimit { moments: 100000 }), suggest: false })",
    ),
    (
        "prove a --runs",
        "Prove(Prove { source: \"a\", budget: Budget { facts: 100000 }, workers: Workers { count: 1 }, json: false, words: [], runs: Some(MomentLimit { moments: 100000 }), suggest: false })",
    ),
    (
        "prove a N=3 --no-runs",
        "Prove(Prove { source: \"a\", budget: Budget { facts: 100000 }, workers: Workers { count: 1 }, json: false, words: [\"N=3\"], runs: None, suggest: false })",
    ),
    (
        "prove a --suggest",
        "Prove(Prove { source: \"a\", budget: Budget { facts: 100000 }, workers: Workers { count: 1 }, json: false, words: [], runs: Some(MomentLimit { moments: 100000 }), suggest: true })",
    ),
    (
        "prove a x=1 --limit 5 --json y=2..3 --workers 2",
        "Prove(Prove { source: \"a\", budget: Budget { facts: 100000 }, workers: Workers { count: 2 }, json: true, words: [\"x=1\", \"y=2..3\"], runs: Some(MomentLimit { moments: 5 }), suggest: false })",
    ),
    (
        "infer a",
        "Infer(Infer { source: \"a\", aux: false, budget: Budget { facts: 20000 }, limit: Budget { facts: 100000 }, workers: Workers { count: 1 }, json: false, words: [] })",
    ),
    (
        "infer a x=1 --aux --limit 5 --json --budget 7 y=2..3 --workers 2",
        "Infer(Infer { source: \"a\", aux: true, budget: Budget { facts: 7 }, limit: Budget { facts: 5 }, workers: Workers { count: 2 }, json: true, words: [\"x=1\", \"y=2..3\"] })",
    ),
    (
        "check a b",
        "Check(Check { source: \"a\", certs: \"b\", workers: Workers { count: 1 }, json: false })",
    ),
    (
        "check - b --workers 64 --json",
        "Check(Check { source: \"-\", certs: \"b\", workers: Workers { count: 64 }, json: true })",
    ),
    (
        "check --workers 2 a b",
        "Check(Check { source: \"a\", certs: \"b\", workers: Workers { count: 2 }, json: false })",
    ),
    (
        "conditions a",
        "Conditions(Conditions { source: \"a\", triples: false, smt2: false, only: None })",
    ),
    (
        "conditions --triples a",
        "Conditions(Conditions { source: \"a\", triples: true, smt2: false, only: None })",
    ),
    (
        "conditions a --smt2",
        "Conditions(Conditions { source: \"a\", triples: false, smt2: true, only: None })",
    ),
    (
        "conditions a --triples --only 7,3",
        "Conditions(Conditions { source: \"a\", triples: true, smt2: false, only: Some(\"7,3\") })",
    ),
    (
        "conditions --smt2 --only=x a",
        "Conditions(Conditions { source: \"a\", triples: false, smt2: true, only: Some(\"x\") })",
    ),
    (
        "show a",
        "Show(Show { source: \"a\", budget: Budget { facts: 100000 }, workers: Workers { count: 1 }, words: [], runs: None })",
    ),
    (
        "show --workers 2 --budget 7 -",
        "Show(Show { source: \"-\", budget: Budget { facts: 7 }, workers: Workers { count: 2 }, words: [], runs: None })",
    ),
    (
        "show a --runs --limit 7 x=1",
        "Show(Show { source: \"a\", budget: Budget { facts: 100000 }, workers: Workers { count: 1 }, words: [\"x=1\"], runs: Some(MomentLimit { moments: 7 }) })",
    ),
    (
        "find a",
        "Find(Find { source: \"a\", budget: Budget { facts: 100000 }, workers: Workers { count: 1 }, version: CertVersion { number: 1 } })",
    ),
    (
        "find a --budget 1000000000",
        "Find(Find { source: \"a\", budget: Budget { facts: 1000000000 }, workers: Workers { count: 1 }, version: CertVersion { number: 1 } })",
    ),
    (
        "find a --workers 64",
        "Find(Find { source: \"a\", budget: Budget { facts: 100000 }, workers: Workers { count: 64 }, version: CertVersion { number: 1 } })",
    ),
    (
        "find --workers 2 --budget 7 -",
        "Find(Find { source: \"-\", budget: Budget { facts: 7 }, workers: Workers { count: 2 }, version: CertVersion { number: 1 } })",
    ),
    (
        "find a --version 2",
        "Find(Find { source: \"a\", budget: Budget { facts: 100000 }, workers: Workers { count: 1 }, version: CertVersion { number: 2 } })",
    ),
    ("erase a", "Erase(Erase { source: \"a\", readable: false })"),
    (
        "erase a --readable",
        "Erase(Erase { source: \"a\", readable: true })",
    ),
    (
        "run a x=1 y=-2 --limit 0",
        "Run(Run { source: \"a\", limit: RunLimit { steps: 0 }, erased: false, certs: None, schedule: None, values: [\"x=1\", \"y=-2\"] })",
    ),
    (
        "run a --certs f",
        "Run(Run { source: \"a\", limit: RunLimit { steps: 1000 }, erased: false, certs: Some(\"f\"), schedule: None, values: [] })",
    ),
    (
        "run a --erased",
        "Run(Run { source: \"a\", limit: RunLimit { steps: 1000 }, erased: true, certs: None, schedule: None, values: [] })",
    ),
    (
        "run --limit 1000000 a",
        "Run(Run { source: \"a\", limit: RunLimit { steps: 1000000 }, erased: false, certs: None, schedule: None, values: [] })",
    ),
    (
        "run a i=1 h=2 g=3 f=4 e=5 d=6 c=7 b=8 a=9 i=10",
        "Run(Run { source: \"a\", limit: RunLimit { steps: 1000 }, erased: false, certs: None, schedule: None, values: [\"i=1\", \"h=2\", \"g=3\", \"f=4\", \"e=5\", \"d=6\", \"c=7\", \"b=8\", \"a=9\", \"i=10\"] })",
    ),
    (
        "run a --schedule 1,2,0 x=1",
        "Run(Run { source: \"a\", limit: RunLimit { steps: 1000 }, erased: false, certs: None, schedule: Some(\"1,2,0\"), values: [\"x=1\"] })",
    ),
    (
        "run a --erased --schedule 1",
        "Run(Run { source: \"a\", limit: RunLimit { steps: 1000 }, erased: true, certs: None, schedule: Some(\"1\"), values: [] })",
    ),
    (
        "explore a",
        "Explore(Explore { source: \"a\", limit: MomentLimit { moments: 1000000 }, workers: Workers { count: 1 }, erased: false, json: false, dot: false, words: [] })",
    ),
    (
        "explore - x=1 y=-2..3 --limit 1",
        "Explore(Explore { source: \"-\", limit: MomentLimit { moments: 1 }, workers: Workers { count: 1 }, erased: false, json: false, dot: false, words: [\"x=1\", \"y=-2..3\"] })",
    ),
    (
        "explore --json --limit 1000000000 --workers 64 --erased a",
        "Explore(Explore { source: \"a\", limit: MomentLimit { moments: 1000000000 }, workers: Workers { count: 64 }, erased: true, json: true, dot: false, words: [] })",
    ),
    (
        "explore --dot a",
        "Explore(Explore { source: \"a\", limit: MomentLimit { moments: 1000000 }, workers: Workers { count: 1 }, erased: false, json: false, dot: true, words: [] })",
    ),
    (
        "promela --erased a x=1",
        "Promela(Promela { source: \"a\", erased: true, words: [\"x=1\"] })",
    ),
    (
        "expand a",
        "Expand(Expand { template: \"a\", as_map: false, values: [] })",
    ),
    (
        "expand - --map N=2 K=3",
        "Expand(Expand { template: \"-\", as_map: true, values: [\"N=2\", \"K=3\"] })",
    ),
    ("fmt a", "Format(Format { source: \"a\", check: false })"),
    (
        "fmt --check -",
        "Format(Format { source: \"-\", check: true })",
    ),
    ("migrate c", "Migrate(Migrate { certs: \"c\" })"),
];

// The words of a line, cut at single blanks.
fn words_of(alloc: Global, line: &str) -> Result<Vec<String>, AllocError> {
    let mut words = Vec::new(alloc);
    for word in line.split(' ') {
        if !word.is_empty() {
            words.push(String::from_str(alloc, word)?)?;
        }
    }
    Ok(words)
}

// How the job that the words of a line ask for is written.
fn text_of(alloc: Global, line: &str) -> Result<String, Fail> {
    let words = words_of(alloc, line)?;
    let job = read_words(alloc, &words).or(Err("no job"))?;
    Ok(format!(in alloc; "{job:?}")?)
}

#[test]
fn jobs(rt: HostRuntime) -> Result<(), Fail> {
    for (line, expected) in JOBS {
        let got = text_of(rt.alloc(), line)?;
        assert!(rt; got.as_str() == *expected, "{got}: {line}");
    }
    Ok(())
}

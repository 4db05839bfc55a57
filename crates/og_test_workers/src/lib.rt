//! Worked examples of workers and of runs: what several threads find, check and do, also while
//! gates hold them.
//!
//! There is nothing to run here but the tests.
#![tactic(auto)]

#[cfg(test)]
mod tests;

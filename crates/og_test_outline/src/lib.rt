//! Worked examples of texts, trees, linear forms and outlines, of facts, and of files of certificates
//! and their texts, where no case of a command shows them. They are compared with values that were
//! worked out by hand.
//!
//! There is nothing to run here but the tests.
#![tactic(auto)]

#[cfg(test)]
mod tests;

//! Sources and certificates that several crates of tests use, and outlines of sources. Nothing is
//! promised of them.
#![tactic(auto)]

mod certs;
mod outlines;
mod sources;

pub use certs::{ONE_SKIP_CERTS, ONE_SKIP_CERTS_2, SKIP_AND_ASSIGN_CERTS, TWO_ADD_CERTS};
pub use outlines::outline_of;
pub use sources::{
    AUXILIARY_ADD, AUXILIARY_LOOP, EACH_WAITS, EQUAL_ADD, NESTED, ONE_BELOW, ONE_SKIP,
    SKIP_AND_ASSIGN, TWO_ADD, UP_AND_DOWN, WITH_MAIN, alike, equal_processes,
};

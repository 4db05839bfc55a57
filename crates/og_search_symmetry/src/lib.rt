//! Certificates that are carried over to facts in which variables are exchanged.
//!
//! In an outline of like processes the facts of a condition are often those of another one with two
//! processes exchanged, in another order. No contract promises anything of the carried certificate:
//! it is safe and ends, and `og_find` replays it before it hands it out.
#![tactic(auto)]

mod carrying;
mod colors;
mod comparing;
mod counterparts;
mod lost;
mod marks;
mod places;
mod renaming;

pub use carrying::Original;

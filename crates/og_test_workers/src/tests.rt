//! The tests, and what several of them use.

mod acts;
mod answered;
mod checks;
mod claims;
mod finder;
mod gates;
mod histories;
mod made;
mod proved;
mod runs;
mod sources;

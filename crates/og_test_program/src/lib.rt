//! The program through its libraries: devices that fail, gates that see the workers, every front of
//! a text, certificates that are found and then checked, words, and refused memory. The cases of
//! `og_cases` have the rest.
//!
//! There is nothing to run here but the tests.
#![tactic(auto)]

#[cfg(test)]
mod answers;
#[cfg(test)]
mod asked;
#[cfg(test)]
mod calls;
#[cfg(test)]
mod devices;
#[cfg(test)]
mod failing;
#[cfg(test)]
mod finding;
#[cfg(test)]
mod fronts;
#[cfg(test)]
mod gates;
#[cfg(test)]
mod given;
#[cfg(test)]
mod judged;
#[cfg(test)]
mod runs;
#[cfg(test)]
mod searched;
#[cfg(test)]
mod words;
#[cfg(test)]
mod written;

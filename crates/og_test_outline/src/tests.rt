//! The tests, by what they show.

mod actions;
mod conditions;
mod erasing;
mod facts;
mod forms;
mod laws;
mod lexing;
mod lines;
mod parsing;
mod places;
mod reading;
mod steps;
mod texts;
mod truth;

//! Linear inequalities over whole numbers: their arithmetic, bounds of variables, and rows that
//! follow from facts.
#![tactic(auto)]

mod bounds;
mod error;
mod inequality;
mod levels;
mod marks;
mod model;
mod number;
mod pool;
mod rows;
mod variables;

pub use bounds::{Before, Bound, Bounds, HIGHEST, Interval, LOWEST, Limit, Mark, Side};
pub use error::{AddError, RowError};
pub use inequality::{Inequality, Scaled, Term};
pub use levels::{Levels, Place, TOP};
pub use marks::{last_bits, next_mark};
pub use model::Model;
pub use number::common;
pub use rows::{Added, Origin, Row, Rows, Summand};
pub use variables::Variables;

//! Numbers that are all different and have too few values.
//!
//! No contract promises anything of the result: `og_find` checks a certificate before it hands
//! it out.
#![tactic(auto)]

mod fault;
mod leaves;
mod looking;
mod making;
mod numbers;
mod pairs;
mod pigeons;
mod refuter;

pub use fault::Unrefuted;
pub use leaves::{Leaves, once};
pub use looking::look;
pub use making::{Known, beyond};
pub use pairs::{PARTS_LIMIT, hidden, orders, weight_of_pairs};
pub use pigeons::{Member, Order, Pigeons};
